//! What was found of a log, as text.

ghost use Rattle.std.specs.Prelude.{◌≡◌, ◌≢◌, ◌++◌, codes, string_bytes, IfOk, OnOk};
ghost use Rattle.std.specs.List.{flat_map};
ghost use Rattle.onfi_log.specs.Text.{answer_of};
ghost use Rattle.onfi_gap.specs.Text as spec;
ghost use Rattle.onfi_gap.specs.Text.{Writes};

use crate::finding::Gaps;
use crate::piece::Piece;
use crate::summary::{Summary, summarize};
use crate::whole::LogBound;
use onfi_log::LogAnswer;
use std::alloc::{AllocError, Global};

/// `END BEST BELOW`
fn times_text(alloc: Global, piece: &Piece) -> Result<String, AllocError>
    ensures { IfOk result (λ s. string_bytes s ≡ spec.times_text piece.now) }
{
    let Piece {
        end,
        best,
        below,
        ..
    } = *piece;
    format!(in alloc; "{end} {best} {below}")
}

/// `piece LINE REQUESTS BEGIN END BEST BELOW`
fn piece_text(alloc: Global, piece: &Piece) -> Result<String, AllocError>
    ensures { IfOk result (λ s. string_bytes s ≡ spec.piece_text piece.now) }
{
    let Piece {
        line,
        requests,
        begin,
        ..
    } = *piece;
    let times = times_text(alloc, piece)?;
    format!(in alloc; "piece {line} {requests} {begin} {times}\n")
}

/// `line,requests,begin,end,best,below`
fn row_text(alloc: Global, piece: &Piece) -> Result<String, AllocError>
    ensures { IfOk result (λ s. string_bytes s ≡ spec.row_text piece.now) }
{
    let Piece {
        line,
        requests,
        begin,
        end,
        best,
        below,
    } = *piece;
    format!(in alloc; "{line},{requests},{begin},{end},{best},{below}\n")
}

/// Appends a line for each piece.
fn put_pieces(alloc: Global, text: &mut Vec<u8>, pieces: &[Piece]) -> Result<(), AllocError>
    ensures { OnOk result (text.new.items ≡ text.old.items ++ flat_map spec.piece_text pieces.now) }
{
    for piece in pieces {
        text.extend_from_slice(piece_text(alloc, piece)?.as_bytes())?;
    }
    Ok(())
}

/// Appends a row for each piece.
fn put_rows(alloc: Global, text: &mut Vec<u8>, pieces: &[Piece]) -> Result<(), AllocError>
    ensures { OnOk result (text.new.items ≡ text.old.items ++ flat_map spec.row_text pieces.now) }
{
    for piece in pieces {
        text.extend_from_slice(row_text(alloc, piece)?.as_bytes())?;
    }
    Ok(())
}

/// Appends `gap MEAN MEDIAN MOST`, where there is a piece.
fn put_summary(
    alloc: Global,
    text: &mut Vec<u8>,
    summary: Option<Summary>,
) -> Result<(), AllocError>
    ensures { OnOk result (text.new.items ≡ text.old.items ++ spec.summary_text summary) }
{
    let Some(Summary { mean, median, most }) = summary else {
        return Ok(());
    };
    let line = format!(in alloc; "gap {mean} {median} {most}\n")?;
    text.extend_from_slice(line.as_bytes())
}

/// Appends `bound BEGIN END BUS DIE SHARE`, where there is one.
fn put_bound(alloc: Global, text: &mut Vec<u8>, bound: Option<LogBound>) -> Result<(), AllocError>
    ensures { OnOk result (text.new.items ≡ text.old.items ++ spec.bound_text bound) }
{
    let Some(bound) = bound else {
        return Ok(());
    };
    let share = bound.share();
    let LogBound {
        begin,
        end,
        bus,
        die,
    } = bound;
    let line = format!(in alloc; "bound {begin} {end} {bus} {die} {share}\n")?;
    text.extend_from_slice(line.as_bytes())
}

/// A header and a row for each piece.
fn table_of(alloc: Global, pieces: &[Piece]) -> Result<Vec<u8>, AllocError>
    ensures { IfOk result (λ v. v.items ≡ codes "line,requests,begin,end,best,below\n" ++ flat_map spec.row_text pieces.now) }
{
    let mut text = Vec::new(alloc);
    text.extend_from_slice(b"line,requests,begin,end,best,below\n")?;
    put_rows(alloc, &mut text, pieces)?;
    Ok(text)
}

/// What is written of a log. Of one that isn't legal that is its answer. Of a legal one `legal N` is followed by a line
/// `piece LINE REQUESTS BEGIN END BEST BELOW` for each piece, and where there is one by `gap MEAN MEDIAN MOST`; and, where it ends a
/// request, by `bound BEGIN END BUS DIE SHARE`, as a [`LogBound`] has it. With `csv` the pieces stand in place of all that, as rows
/// under `line,requests,begin,end,best,below`. Times are in ns, SHARE in thousandths.
///
/// # Errors
/// Where memory was refused.
pub fn write_gaps(alloc: Global, csv: bool, gaps: Gaps) -> Result<LogAnswer, AllocError>
    ensures legal { IfOk result (λ a. gaps.answer.status ≡ 0 → Writes csv (answer_of gaps.answer) gaps.pieces.items gaps.bound a.text.items) }
    ensures illegal { IfOk result (λ a. gaps.answer.status ≢ 0 → a ≡ gaps.answer) }
    ensures status { IfOk result (λ a. a.status ≡ gaps.answer.status) }
{
    let Gaps {
        answer,
        pieces,
        bound,
    } = gaps;
    let LogAnswer { text, status } = answer;
    if status != 0 {
        return Ok(LogAnswer { text, status });
    }
    if csv {
        let text = table_of(alloc, pieces.as_slice())?;
        return Ok(LogAnswer { text, status });
    }
    let mut text = text;
    put_pieces(alloc, &mut text, pieces.as_slice())?;
    put_summary(alloc, &mut text, summarize(alloc, pieces.as_slice())?)?;
    put_bound(alloc, &mut text, bound)?;
    Ok(LogAnswer { text, status })
}
