//! How far a log is from the best.

ghost use Rattle.std.specs.Prelude.{◌≡◌, ◌+◌, ◌<◌, ◌≤◌, [], ◌∷◌, ◌++◌, drop, length, IfOk, OnOk};
ghost use Rattle.onfi_group.specs.Words.{Pairs};
ghost use Rattle.onfi_log.specs.Laws.{phases_of};
ghost use Rattle.onfi_log.specs.Parts.{parts};
ghost use Rattle.onfi_log.specs.Text.{AnswersLog, answer_of};
ghost use Rattle.onfi_gap.specs.Cuts.{cut_at, cuts_from, cuts_in, groups_from};
ghost use Rattle.onfi_gap.specs.Pieces.{AreMeasured, ArePieces, Puts};
ghost use Rattle.onfi_gap.specs.Whole.{HasBound, whole_in, whole_of};

use crate::cut::{Cut, count_groups, cut_piece};
use crate::notes::{Note, note_groups};
use crate::piece::Piece;
use crate::planning::{Terms, plan_piece};
use crate::walk::{LUNS, Walk};
use crate::whole::{LogBound, find_bound};
use onfi_audit::{Audit, Line};
use onfi_log::{LogAnswer, Requests, cut, is_comment, judge_log, read_line};
use onfi_plan::Limit;
use std::alloc::{AllocError, Global};

/// What is found of a log.
#[derive(Drop)]
pub struct Gaps {
    /// The answer of [`judge_log`].
    pub answer: LogAnswer,
    /// Its pieces by rising line; none where it isn't legal.
    pub pieces: Vec<Piece>,
    /// What no schedule of all its requests passes; None where it isn't legal or ends no request.
    pub bound: Option<LogBound>,
}

/// The phases that the lines of a log say, up to the first that says nothing and is no comment.
fn lines_of(alloc: Global, text: &[u8]) -> Result<Vec<Line>, AllocError>
    ensures { IfOk result (λ v. v.items ≡ phases_of (parts 10 text.now)) }
{
    let mut lines = Vec::new(alloc);
    let mut left = text;
    while let Some((text, after)) = cut(left, b'\n') {
        left = after;
        if is_comment(text) {
            continue;
        }
        let Some(line) = read_line(text) else {
            return Ok(lines);
        };
        lines.push(line.phase)?;
    }
    put_last(&mut lines, left)?;
    Ok(lines)
}

/// Appends the phase that the last line of a log says, which has no line end.
fn put_last(lines: &mut Vec<Line>, text: &[u8]) -> Result<(), AllocError>
    ensures { OnOk result (lines.new.items ≡ lines.old.items ++ phases_of (text.now ∷ [])) }
{
    if is_comment(text) {
        return Ok(());
    }
    if let Some(line) = read_line(text) {
        lines.push(line.phase)?;
    }
    Ok(())
}

/// What is found so far: the pieces, and the number of the group that begins the next one.
#[derive(Drop)]
struct Found {
    pieces: Vec<Piece>,
    from: usize,
}

/// Appends the piece of that cut, with its plan, if it has one.
fn put_piece(
    alloc: Global,
    pieces: &mut Vec<Piece>,
    terms: &Terms,
    cut: &Cut,
) -> Result<(), AllocError>
    ensures { OnOk result (Puts terms.now.timing terms.now.rules terms.now.limit cut.now pieces.old.items pieces.new.items) }
{
    if let Some(piece) = plan_piece(alloc, terms, cut)? {
        pieces.push(piece)?;
    }
    Ok(())
}

/// The piece that begins with line `number`, which comes next.
fn find_piece(
    alloc: Global,
    found: &mut Found,
    terms: &Terms,
    walk: &Walk,
    notes: &[Note],
    number: u64,
) -> Result<(), AllocError>
    requires { found.old.from ≤ length notes.now }
    ensures next { OnOk result (found.new.from ≡ found.old.from + length (groups_from notes.now found.old.from)) }
    ensures within { OnOk result (found.new.from ≤ length notes.now) }
    ensures put { OnOk result (Puts terms.now.timing terms.now.rules terms.now.limit (cut_at notes.now walk.now (groups_from notes.now found.old.from) number)
        found.old.pieces.items found.new.pieces.items) }
{
    let groups = &notes[found.from..];
    let groups = &groups[..count_groups(groups)];
    let cut = cut_piece(alloc, walk, notes, groups, number)?;
    put_piece(alloc, &mut found.pieces, terms, &cut)?;
    found.from += groups.len();
    Ok(())
}

/// The pieces of a log of these groups.
fn find_pieces(
    alloc: Global,
    terms: &Terms,
    mut walk: Walk,
    notes: &[Note],
    lines: &[Line],
) -> Result<Vec<Piece>, AllocError>
    requires { 8 ≤ length notes.now }
    ensures pieces { IfOk result (λ v. ArePieces terms.now.timing terms.now.rules terms.now.limit (cuts_from notes.now walk 8 1 lines.now) v.items) }
    ensures rising { IfOk result (λ v. Pairs (λ a b. a.line < b.line) v.items) }
{
    let mut found = Found {
        pieces: Vec::new(alloc),
        from: LUNS,
    };
    for (at, line) in lines.iter().enumerate() {
        if walk.begins_at(found.from, line) {
            find_piece(alloc, &mut found, terms, &walk, notes, at as u64 + 1)?;
        }
        walk.step(line)?;
    }
    Ok(found.pieces)
}

/// What is measured of a legal log.
#[derive(Drop)]
struct Measured {
    pieces: Vec<Piece>,
    bound: Option<LogBound>,
}

/// What no schedule of all requests passes that a log of these groups ends, of which nothing was followed.
fn bound_of(
    alloc: Global,
    terms: &Terms,
    walk: &Walk,
    notes: &[Note],
) -> Result<Option<LogBound>, AllocError>
    requires { 8 ≤ length notes.now }
    ensures { IfOk result (λ o. HasBound terms.now.timing terms.now.rules (cut_at notes.now walk.now (drop 8 notes.now) 1) o) }
{
    let whole = cut_piece(alloc, walk, notes, &notes[LUNS..], 1)?;
    find_bound(alloc, terms, &whole)
}

/// What is measured of a legal log, of which nothing was followed by both walks.
fn measure(
    alloc: Global,
    terms: &Terms,
    first: Walk,
    second: Walk,
    text: &[u8],
) -> Result<Measured, AllocError>
    requires { first ≡ second }
    ensures pieces { IfOk result (λ m. ArePieces terms.now.timing terms.now.rules terms.now.limit (cuts_in second (phases_of (parts 10 text.now))) m.pieces.items) }
    ensures rising { IfOk result (λ m. Pairs (λ a b. a.line < b.line) m.pieces.items) }
    ensures bound { IfOk result (λ m. HasBound terms.now.timing terms.now.rules (whole_in second (phases_of (parts 10 text.now))) m.bound) }
{
    let lines = lines_of(alloc, text)?;
    let notes = note_groups(alloc, first, lines.as_slice())?;
    let bound = bound_of(alloc, terms, &second, notes.as_slice())?;
    let pieces = find_pieces(alloc, terms, second, notes.as_slice(), lines.as_slice())?;
    Ok(Measured { pieces, bound })
}

/// Judges the text of a log as [`judge_log`] does, and measures it where it is legal. Requests are those that the opening accepted
/// and that no phase of which came, or the log's own.
///
/// Commands that follow each other on a LUN, without a post between, are a group. In the order of their first commands whole groups
/// make a piece while they have at most eight requests; the group after them begins the next piece. The requests of a piece are
/// those of its groups that the log ends, and its end is when the last of them ended. It is planned from the state right before its
/// first command: from when on the bus is free, and what each LUN does. A group that runs on then is the piece's too where it is
/// over by that end, with all members that it has in the log; else it stays out, and its LUN is free from that end on. The plan
/// is that of [`plan_within`](onfi_known_plan::plan_within) at the limit, of the requests in the order in which they were accepted
/// and of what runs on.
///
/// What the bus did meanwhile for other pieces is part of a gap, so gaps of pieces don't add up.
///
/// The bound is of all requests that the log ends, as one piece from its first line on: in whatever order and groups, the bus takes
/// all their phases, and each LUN its own, with an array for each group of the largest that the requests allow.
///
/// Left out are pieces of whose requests the log ends none, and such as may end at 2^62 ns or later by the sum of all times.
///
/// # Errors
/// Where memory was refused.
pub fn find_gaps(
    alloc: Global,
    opening: Audit,
    requests: Requests,
    all: bool,
    limit: Limit,
    text: &[u8],
) -> Result<Gaps, AllocError>
    ensures answer { IfOk result (λ g. AnswersLog requests opening all text.now (answer_of g.answer)) }
    ensures legal { IfOk result (λ g. 0 < length g.pieces.items → g.answer.status ≡ 0) }
    ensures measured { IfOk result (λ g. g.answer.status ≡ 0 → AreMeasured opening requests limit text.now g.pieces.items) }
    ensures bound { IfOk result (λ g. g.answer.status ≡ 0 → HasBound opening.timing opening.rules (whole_of opening requests text.now) g.bound) }
    ensures rising { IfOk result (λ g. Pairs (λ a b. a.line < b.line) g.pieces.items) }
{
    let terms = Terms {
        timing: opening.timing(),
        rules: opening.rules(),
        limit,
    };
    let first = Walk::of(&opening, requests)?;
    let second = Walk::of(&opening, requests)?;
    let answer = judge_log(alloc, opening, requests, all, text)?;
    if answer.status != 0 {
        return Ok(Gaps {
            answer,
            pieces: Vec::new(alloc),
            bound: None,
        });
    }
    let Measured { pieces, bound } = measure(alloc, &terms, first, second, text)?;
    Ok(Gaps {
        answer,
        pieces,
        bound,
    })
}
