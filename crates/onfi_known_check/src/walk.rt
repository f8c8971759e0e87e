//! The walk over the tokens of a tree.

ghost use Rattle.std.specs.Prelude.{◌≡◌, ◌⊎◌, ◌≤◌, ◌<◌, ◌^◌, ◌∷◌, ◌+◌, [], IfOk, IfErr, OnOk, length};
ghost use Rattle.onfi_group.specs.Words.{Pairs};
ghost use Rattle.std.specs.List.{AllByRecursion as Each};
ghost use Rattle.onfi_problem.specs.Moves.{AreMoves, IsMove, after};
ghost use Rattle.onfi_problem.specs.Position.{move_of, moves_of};
ghost use Rattle.onfi_problem.specs.Starts.{IsNamed};
ghost use Rattle.onfi_known_check.specs.Proves.{Proves, Children, ProvesTokens, Remembers, Grows, Below};
ghost use Rattle.onfi_known_check.specs.Faults.{FaultFits, IsTokenFault, OfTokens, ReadOn};
ghost use Rattle.onfi_known_check.specs.Refused.{Refuses, RefusesChild, RefusesChildren};
ghost use Rattle.onfi_check.specs.Ends.{AreLastEnds};

use crate::closes::{read_again, read_closing};
use crate::fault::KnownFault;
use crate::known::Known;
use crate::standing::{Standing, step_after, take_yield};
use crate::token::{MOST_KNOWN, Token};
use onfi_cert::{Numbered, TokenSource, Width};
use onfi_check::{CertFault, last_ends};
use onfi_demand::Demand;
use onfi_problem::{Move, Moves, Problem};

// Remembers a node that was read, and returns what it asks for.
fn remember(
    problem: &Problem,
    times: [u64; 8],
    known: &mut Vec<Known>,
    place: usize,
) -> Result<Demand, KnownFault>
    ensures ok { IfOk result (λ d. Remembers problem.now.all problem.now.problem times known.old.items known.new.items d) }
    ensures few { OnOk result (length known.new.items ≤ MOST_KNOWN) }
    ensures err { IfErr result (λ f. OfTokens f (MOST_KNOWN ≤ length known.old.items)) }
    ensures kind { IfErr result (λ f. (f ≡ KnownFault.TooMany place) ⊎ (f ≡ KnownFault.Cert CertFault.Memory)) }
{
    if known.len() >= MOST_KNOWN as usize {
        return Err(KnownFault::TooMany(place));
    }
    match known.push(Known::of(problem, times)) {
        Ok(()) => Ok(Demand {
            bus: 0,
            luns: times,
        }),
        Err(_) => Err(KnownFault::Cert(CertFault::Memory)),
    }
}

// Reads the tree of a problem whose first token, which stands at that place, was taken already, and returns what it
// asks for.
//
// On Ok the problem is as it was, and the tokens of the tree were taken.
//
// # Errors
// The first fault in reading order. Then the problem may be one within the tree.
#[cycle(read)]
fn read_tree<S: TokenSource<Token = Token>>(
    problem: &mut Problem,
    e: u64,
    token: Token,
    place: usize,
    tokens: &mut Numbered<S>,
    known: &mut Vec<Known>,
) -> Result<Demand, KnownFault>
    requires rising { Pairs (λ a b. a.id < b.id) problem.old.all }
    requires few { tokens.old.place + length (S.left tokens.old.source) < 2 ^ 64 }
    requires next { tokens.old.place ≡ place + 1 }
    ensures problem { OnOk result (problem.new ≡ problem.old) }
    ensures fewer { OnOk result (length (S.left tokens.new.source) ≤ length (S.left tokens.old.source)) }
    ensures read { ReadOn tokens.old.place tokens.new.place (S.left tokens.old.source) (S.left tokens.new.source) }
    ensures behind { S.behind tokens.new.source ≡ S.behind tokens.old.source }
    ensures few { OnOk result (length known.old.items ≤ MOST_KNOWN → length known.new.items ≤ MOST_KNOWN) }
    ensures ok { IfOk result (λ d. Proves e problem.old.all problem.old.problem known.old.items (token ∷ S.left tokens.old.source) d known.new.items (S.left tokens.new.source)) }
    ensures err { IfErr result (λ f. OfTokens f (Refuses e problem.old.all problem.old.problem known.old.items (token ∷ S.left tokens.old.source))) }
    ensures kind { IfErr result (FaultFits place (token ∷ S.left tokens.old.source) (S.left tokens.new.source)) }
{
    problem.in_limits();
    match token {
        Token::Branch(width) => read_branch(problem, e, width, place, tokens, known),
        Token::Again(number) => read_again(problem, known, number, place),
        _ => read_closing(problem, e, token, place),
    }
}

// Reads the tree of a branch, which was taken already.
#[cycle(read)]
fn read_branch<S: TokenSource<Token = Token>>(
    problem: &mut Problem,
    e: u64,
    width: Width,
    place: usize,
    tokens: &mut Numbered<S>,
    known: &mut Vec<Known>,
) -> Result<Demand, KnownFault>
    requires rising { Pairs (λ a b. a.id < b.id) problem.old.all }
    requires few { tokens.old.place + length (S.left tokens.old.source) < 2 ^ 64 }
    requires next { tokens.old.place ≡ place + 1 }
    ensures problem { OnOk result (problem.new ≡ problem.old) }
    ensures fewer { OnOk result (length (S.left tokens.new.source) ≤ length (S.left tokens.old.source)) }
    ensures read { ReadOn tokens.old.place tokens.new.place (S.left tokens.old.source) (S.left tokens.new.source) }
    ensures behind { S.behind tokens.new.source ≡ S.behind tokens.old.source }
    ensures few { OnOk result (length known.old.items ≤ MOST_KNOWN → length known.new.items ≤ MOST_KNOWN) }
    ensures ok { IfOk result (λ d. Proves e problem.old.all problem.old.problem known.old.items (Token.Branch width ∷ S.left tokens.old.source) d known.new.items (S.left tokens.new.source)) }
    ensures err { IfErr result (λ f. OfTokens f (Refuses e problem.old.all problem.old.problem known.old.items (Token.Branch width ∷ S.left tokens.old.source))) }
    ensures kind { IfErr result (FaultFits place (Token.Branch width ∷ S.left tokens.old.source) (S.left tokens.new.source)) }
{
    problem.in_limits();
    let mut moves = Moves::new();
    problem.list_steps(&mut moves);
    if moves.len() != width.get() as usize {
        return Err(KnownFault::Cert(CertFault::Width(place)));
    }
    let standing = read_children(problem, e, &moves, tokens, known)?;
    let Some(times) = standing.times() else {
        return Err(KnownFault::Cert(CertFault::YieldNoFit(place)));
    };
    remember(problem, times, known, place)
}

// Reads a child for each move of a node.
#[cycle(read)]
fn read_children<S: TokenSource<Token = Token>>(
    problem: &mut Problem,
    e: u64,
    moves: &Moves,
    tokens: &mut Numbered<S>,
    known: &mut Vec<Known>,
) -> Result<Standing, KnownFault>
    requires rising { Pairs (λ a b. a.id < b.id) problem.old.all }
    requires moves { AreMoves problem.old.problem (moves_of problem.old.groups moves.now) }
    requires named { Each (IsNamed problem.old.groups) moves.now }
    requires few { length moves.now ≤ 87 }
    requires places { tokens.old.place + length (S.left tokens.old.source) < 2 ^ 64 }
    ensures problem { OnOk result (problem.new ≡ problem.old) }
    ensures fewer { OnOk result (length (S.left tokens.new.source) ≤ length (S.left tokens.old.source)) }
    ensures read { ReadOn tokens.old.place tokens.new.place (S.left tokens.old.source) (S.left tokens.new.source) }
    ensures behind { S.behind tokens.new.source ≡ S.behind tokens.old.source }
    ensures few { OnOk result (length known.old.items ≤ MOST_KNOWN → length known.new.items ≤ MOST_KNOWN) }
    ensures ok { IfOk result (λ s. Children e problem.old.all problem.old.problem (moves_of problem.old.groups moves.now) (moves_of problem.old.groups moves.now) known.old.items (S.left tokens.old.source) s.asked s.given.items known.new.items (S.left tokens.new.source)) }
    ensures err { IfErr result (λ f. OfTokens f (RefusesChildren e problem.old.all problem.old.problem (moves_of problem.old.groups moves.now) known.old.items (S.left tokens.old.source))) }
    ensures kind { IfErr result (FaultFits tokens.old.place (S.left tokens.old.source) (S.left tokens.new.source)) }
{
    problem.in_limits();
    let listed = moves.as_slice();
    let ends = last_ends(problem, listed);
    let mut standing = Standing::new();
    for m in listed {
        read_child(problem, e, *m, listed, &ends, &mut standing, tokens, known)?;
    }
    Ok(standing)
}

// Reads the child of one of the moves of a node: a yield, or a tree.
#[cycle(read)]
fn read_child<S: TokenSource<Token = Token>>(
    problem: &mut Problem,
    e: u64,
    m: Move,
    moves: &[Move],
    ends: &[Option<u64>; 8],
    standing: &mut Standing,
    tokens: &mut Numbered<S>,
    known: &mut Vec<Known>,
) -> Result<(), KnownFault>
    requires rising { Pairs (λ a b. a.id < b.id) problem.old.all }
    requires step { IsMove problem.old.problem (move_of problem.old.groups m) }
    requires named { IsNamed problem.old.groups m }
    requires moves { Each (IsMove problem.old.problem) (moves_of problem.old.groups moves.now) }
    requires ends { AreLastEnds problem.old.problem (moves_of problem.old.groups moves.now) ends.now }
    requires room { length standing.old.given.items < 87 }
    requires few { tokens.old.place + length (S.left tokens.old.source) < 2 ^ 64 }
    ensures problem { OnOk result (problem.new ≡ problem.old) }
    ensures fewer { OnOk result (length (S.left tokens.new.source) ≤ length (S.left tokens.old.source)) }
    ensures read { ReadOn tokens.old.place tokens.new.place (S.left tokens.old.source) (S.left tokens.new.source) }
    ensures behind { S.behind tokens.new.source ≡ S.behind tokens.old.source }
    ensures few { OnOk result (length known.old.items ≤ MOST_KNOWN → length known.new.items ≤ MOST_KNOWN) }
    ensures more { OnOk result (length standing.new.given.items ≤ length standing.old.given.items + 1) }
    ensures ok { OnOk result (Grows e problem.old.all problem.old.problem (moves_of problem.old.groups moves.now) (move_of problem.old.groups m) standing.old known.old.items (S.left tokens.old.source) standing.new known.new.items (S.left tokens.new.source)) }
    ensures err { IfErr result (λ f. OfTokens f (RefusesChild e problem.old.all problem.old.problem (moves_of problem.old.groups moves.now) (move_of problem.old.groups m) standing.old.given.items known.old.items (S.left tokens.old.source))) }
    ensures kind { IfErr result (FaultFits tokens.old.place (S.left tokens.old.source) (S.left tokens.new.source)) }
{
    let Some((token, place)) = tokens.take() else {
        return Err(KnownFault::Cert(CertFault::Short));
    };
    match token {
        Token::Yield(lun) => take_yield(problem, ends, standing, m.lun(), lun.get(), place),
        _ => read_below(problem, e, m, token, place, standing, tokens, known),
    }
}

// Reads the tree after a move, whose first token was taken already, and raises what is asked by what it asks.
#[cycle(read)]
fn read_below<S: TokenSource<Token = Token>>(
    problem: &mut Problem,
    e: u64,
    m: Move,
    token: Token,
    place: usize,
    standing: &mut Standing,
    tokens: &mut Numbered<S>,
    known: &mut Vec<Known>,
) -> Result<(), KnownFault>
    requires rising { Pairs (λ a b. a.id < b.id) problem.old.all }
    requires step { IsMove problem.old.problem (move_of problem.old.groups m) }
    requires named { IsNamed problem.old.groups m }
    requires few { tokens.old.place + length (S.left tokens.old.source) < 2 ^ 64 }
    requires next { tokens.old.place ≡ place + 1 }
    ensures problem { OnOk result (problem.new ≡ problem.old) }
    ensures fewer { OnOk result (length (S.left tokens.new.source) ≤ length (S.left tokens.old.source)) }
    ensures read { ReadOn tokens.old.place tokens.new.place (S.left tokens.old.source) (S.left tokens.new.source) }
    ensures behind { S.behind tokens.new.source ≡ S.behind tokens.old.source }
    ensures few { OnOk result (length known.old.items ≤ MOST_KNOWN → length known.new.items ≤ MOST_KNOWN) }
    ensures given { standing.new.given ≡ standing.old.given }
    ensures ok { OnOk result (Below e problem.old.all problem.old.problem (move_of problem.old.groups m) known.old.items (token ∷ S.left tokens.old.source) standing.old.asked standing.new.asked known.new.items (S.left tokens.new.source)) }
    ensures err { IfErr result (λ f. OfTokens f (Refuses e problem.old.all (after problem.old.problem (move_of problem.old.groups m)) known.old.items (token ∷ S.left tokens.old.source))) }
    ensures kind { IfErr result (FaultFits place (token ∷ S.left tokens.old.source) (S.left tokens.new.source)) }
{
    let start = problem.earliest(&m);
    let count = problem.lun_count();
    let undo = problem.advance(&m);
    let demand = read_tree(problem, e, token, place, tokens, known)?;
    let step = step_after(problem, m.lun(), start);
    problem.undo(undo);
    demand.raise(&step, count, &mut standing.asked);
    Ok(())
}

/// Reads the tree of a problem, with nothing after it. On Ok the problem is as it was.
///
/// # Errors
/// The first fault in reading order, else `Trailing` at the first token after the tree. Then the problem may be one
/// within the tree.
pub(crate) fn read_whole<S: TokenSource<Token = Token>>(
    problem: &mut Problem,
    e: u64,
    tokens: &mut Numbered<S>,
    known: &mut Vec<Known>,
) -> Result<(), KnownFault>
    requires none { known.old.items ≡ [] }
    requires rising { Pairs (λ a b. a.id < b.id) problem.old.all }
    requires first { tokens.old.place ≡ 0 }
    requires few { length (S.left tokens.old.source) < 2 ^ 64 }
    ensures problem { OnOk result (problem.new ≡ problem.old) }
    ensures read { ReadOn tokens.old.place tokens.new.place (S.left tokens.old.source) (S.left tokens.new.source) }
    ensures behind { S.behind tokens.new.source ≡ S.behind tokens.old.source }
    ensures ok { OnOk result (ProvesTokens problem.old.all (S.left tokens.old.source) problem.old.problem e) }
    ensures err { IfErr result (λ f. OfTokens f (ProvesTokens problem.old.all (S.left tokens.old.source) problem.old.problem e → ⊥)) }
    ensures kind { IfErr result (IsTokenFault problem.old.all problem.old.problem e (S.left tokens.old.source) (S.left tokens.new.source)) }
{
    problem.in_limits();
    let Some((token, place)) = tokens.take() else {
        return Err(KnownFault::Cert(CertFault::Short));
    };
    read_tree(problem, e, token, place, tokens, known)?;
    match tokens.take() {
        Some((_, place)) => Err(KnownFault::Cert(CertFault::Trailing(place))),
        None => Ok(()),
    }
}
