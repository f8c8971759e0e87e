//! The walk over the tokens of a tree.

ghost use Rattle.std.specs.Prelude.{◌≡◌, ◌≢◌, ◌⊎◌, ℕ, ◌+◌, ◌≤◌, ◌<◌, ◌^◌, ◌∷◌, List, IfErr, OnOk, length};
ghost use Rattle.onfi_problem.specs.Moves.{AreMoves, IsMove, after};
ghost use Rattle.onfi_problem.specs.Position.{move_of, moves_of};
ghost use Rattle.onfi_problem.specs.Starts.{IsNamed};
ghost use Rattle.std.specs.List.{AllByRecursion as Each};
ghost use Rattle.onfi_bound.specs.Commands.{AreNodeBounds};
ghost use Rattle.onfi_cert.specs.declared.token.Token.{Token as OneToken};
ghost use Rattle.onfi_check.specs.Ends.{IsAsked};
ghost use Rattle.onfi_check.specs.Faults.{FaultFits, IsTokenFault};
ghost use Rattle.onfi_check.specs.Reading.{Begins, BeginsEach, ReadOn, ReadsChild, RefusesChild};
ghost use Rattle.onfi_check.specs.Tree.{AcceptsTokens, Closes, Closing, token_of};

use crate::closes::{closes, closes_after};
use crate::fault::CertFault;
use crate::yields::{Standing, take_yield};
use onfi_bound::NodeBounds;
use onfi_cert::{Numbered, Token, TokenSource, Width};
use onfi_problem::{Move, Moves, Problem};

// What is shown of a node, that nothing below it ends before `e` ns, and what its bounds come to.
#[derive(Clone, Copy)]
struct Node {
    e: u64,
    bounds: NodeBounds,
}

// What speaks against a token that closes no node, reported at that place.
fn closing_fault(token: Token, place: usize) -> CertFault
    requires { (width : ℕ) → token ≢ Token.Branch width }
    ensures { (behind left : List OneToken) → FaultFits place (token ∷ behind) left result }
{
    match token {
        Token::Yield(_) => CertFault::YieldNoFit(place),
        Token::End => CertFault::NotEnd(place),
        _ => CertFault::BoundLow(place),
    }
}

// Reads a token that closes a node.
fn read_closing(problem: &Problem, node: Node, token: Token, place: usize) -> Result<(), CertFault>
    requires bounds { AreNodeBounds problem.now.problem node.bounds }
    requires closing { (width : ℕ) → token ≢ Token.Branch width }
    ensures ok { OnOk result ((c : Closing) × (token_of c ≡ token) × Closes problem.now.problem node.e c) }
    ensures err { IfErr result (λ _. ((c : Closing) × (token_of c ≡ token) × Closes problem.now.problem node.e c) → ⊥) }
    ensures kind { IfErr result (λ fault. (behind left : List OneToken) → FaultFits place (token ∷ behind) left fault) }
{
    if closes(problem, node.bounds, &token, node.e) {
        Ok(())
    } else {
        Err(closing_fault(token, place))
    }
}

// Reads a bus or a trail token after a move.
fn read_leaf(
    problem: &Problem,
    node: Node,
    m: Move,
    token: Token,
    place: usize,
) -> Result<(), CertFault>
    requires bounds { AreNodeBounds problem.now.problem node.bounds }
    requires leaf { (token ≡ Token.Bus) ⊎ (token ≡ Token.Trail) }
    requires step { IsMove problem.now.problem (move_of problem.now.groups m) }
    requires named { IsNamed problem.now.groups m }
    ensures ok { OnOk result ((c : Closing) × (token_of c ≡ token) × Closes (after problem.now.problem (move_of problem.now.groups m)) node.e c) }
    ensures err { IfErr result (λ _. ((c : Closing) × (token_of c ≡ token) × Closes (after problem.now.problem (move_of problem.now.groups m)) node.e c) → ⊥) }
    ensures kind { IfErr result (λ fault. (behind left : List OneToken) → FaultFits place (token ∷ behind) left fault) }
{
    if closes_after(problem, node.bounds, token, m, node.e) {
        Ok(())
    } else {
        Err(CertFault::BoundLow(place))
    }
}

// Reads the tree of a problem whose first token, which stands at that place, was taken already.
//
// On Ok the problem is as it was, and the tokens of the tree were taken.
//
// # Errors
// The first fault in reading order. Then the problem may be one within the tree.
#[cycle(read)]
fn read_tree<S: TokenSource<Token = Token>>(
    problem: &mut Problem,
    node: Node,
    token: Token,
    place: usize,
    tokens: &mut Numbered<S>,
) -> Result<(), CertFault>
    requires bounds { AreNodeBounds problem.old.problem node.bounds }
    requires few { tokens.old.place + length (S.left tokens.old.source) < 2 ^ 64 }
    requires next { tokens.old.place ≡ place + 1 }
    ensures problem { OnOk result (problem.new ≡ problem.old) }
    ensures fewer { OnOk result (length (S.left tokens.new.source) ≤ length (S.left tokens.old.source)) }
    ensures read { OnOk result (ReadOn tokens.old.place tokens.new.place (S.left tokens.old.source) (S.left tokens.new.source)) }
    ensures behind { S.behind tokens.new.source ≡ S.behind tokens.old.source }
    ensures ok { OnOk result (Begins problem.old.problem node.e (token ∷ S.left tokens.old.source) (S.left tokens.new.source)) }
    ensures err { IfErr result (λ _. (rest : List OneToken) → Begins problem.old.problem node.e (token ∷ S.left tokens.old.source) rest → ⊥) }
    ensures kind { IfErr result (FaultFits place (token ∷ S.left tokens.old.source) (S.left tokens.new.source)) }
{
    match token {
        Token::Branch(width) => read_branch(problem, node, width, place, tokens),
        _ => read_closing(problem, node, token, place),
    }
}

// Reads the tree of a branch, which was taken already. A function of its own, so that a token that closes a node
// makes no room for moves.
#[cycle(read)]
fn read_branch<S: TokenSource<Token = Token>>(
    problem: &mut Problem,
    node: Node,
    width: Width,
    place: usize,
    tokens: &mut Numbered<S>,
) -> Result<(), CertFault>
    requires bounds { AreNodeBounds problem.old.problem node.bounds }
    requires few { tokens.old.place + length (S.left tokens.old.source) < 2 ^ 64 }
    requires next { tokens.old.place ≡ place + 1 }
    ensures problem { OnOk result (problem.new ≡ problem.old) }
    ensures fewer { OnOk result (length (S.left tokens.new.source) ≤ length (S.left tokens.old.source)) }
    ensures read { OnOk result (ReadOn tokens.old.place tokens.new.place (S.left tokens.old.source) (S.left tokens.new.source)) }
    ensures behind { S.behind tokens.new.source ≡ S.behind tokens.old.source }
    ensures ok { OnOk result (Begins problem.old.problem node.e (Token.Branch width ∷ S.left tokens.old.source) (S.left tokens.new.source)) }
    ensures err { IfErr result (λ _. (rest : List OneToken) → Begins problem.old.problem node.e (Token.Branch width ∷ S.left tokens.old.source) rest → ⊥) }
    ensures kind { IfErr result (FaultFits place (Token.Branch width ∷ S.left tokens.old.source) (S.left tokens.new.source)) }
{
    let mut moves = Moves::new();
    problem.list_steps(&mut moves);
    if moves.len() != width.get() as usize {
        return Err(CertFault::Width(place));
    }
    read_children(problem, node, &moves, tokens)
}

// Reads a child for each move of a node.
#[cycle(read)]
fn read_children<S: TokenSource<Token = Token>>(
    problem: &mut Problem,
    node: Node,
    moves: &Moves,
    tokens: &mut Numbered<S>,
) -> Result<(), CertFault>
    requires bounds { AreNodeBounds problem.old.problem node.bounds }
    requires moves { AreMoves problem.old.problem (moves_of problem.old.groups moves.now) }
    requires named { Each (IsNamed problem.old.groups) moves.now }
    requires few { tokens.old.place + length (S.left tokens.old.source) < 2 ^ 64 }
    ensures problem { OnOk result (problem.new ≡ problem.old) }
    ensures fewer { OnOk result (length (S.left tokens.new.source) ≤ length (S.left tokens.old.source)) }
    ensures read { OnOk result (ReadOn tokens.old.place tokens.new.place (S.left tokens.old.source) (S.left tokens.new.source)) }
    ensures behind { S.behind tokens.new.source ≡ S.behind tokens.old.source }
    ensures ok { OnOk result (BeginsEach problem.old.problem node.e (moves_of problem.old.groups moves.now) (S.left tokens.old.source) (S.left tokens.new.source)) }
    ensures err { IfErr result (λ _. (rest : List OneToken) → BeginsEach problem.old.problem node.e (moves_of problem.old.groups moves.now) (S.left tokens.old.source) rest → ⊥) }
    ensures kind { IfErr result (FaultFits tokens.old.place (S.left tokens.old.source) (S.left tokens.new.source)) }
{
    let listed = moves.as_slice();
    let mut standing = Standing {
        asked: None,
        awaited: [false; 8],
        leaving: [false; 8],
    };
    for m in listed {
        read_child(problem, node, *m, listed, &mut standing, tokens)?;
    }
    Ok(())
}

// Reads the child of one of the moves of a node: a yield, or a tree.
#[cycle(read)]
fn read_child<S: TokenSource<Token = Token>>(
    problem: &mut Problem,
    node: Node,
    m: Move,
    moves: &[Move],
    standing: &mut Standing,
    tokens: &mut Numbered<S>,
) -> Result<(), CertFault>
    requires bounds { AreNodeBounds problem.old.problem node.bounds }
    requires step { IsMove problem.old.problem (move_of problem.old.groups m) }
    requires named { IsNamed problem.old.groups m }
    requires moves { Each (IsMove problem.old.problem) (moves_of problem.old.groups moves.now) }
    requires all_named { Each (IsNamed problem.old.groups) moves.now }
    requires asked { IsAsked problem.old.problem (moves_of problem.old.groups moves.now) standing.old.asked }
    requires few { tokens.old.place + length (S.left tokens.old.source) < 2 ^ 64 }
    ensures problem { OnOk result (problem.new ≡ problem.old) }
    ensures fewer { OnOk result (length (S.left tokens.new.source) ≤ length (S.left tokens.old.source)) }
    ensures read { OnOk result (ReadOn tokens.old.place tokens.new.place (S.left tokens.old.source) (S.left tokens.new.source)) }
    ensures behind { S.behind tokens.new.source ≡ S.behind tokens.old.source }
    ensures asked { IsAsked problem.old.problem (moves_of problem.old.groups moves.now) standing.new.asked }
    ensures ok { OnOk result (ReadsChild problem.old.problem node.e (moves_of problem.old.groups moves.now) (move_of problem.old.groups m) standing.old standing.new (S.left tokens.old.source) (S.left tokens.new.source)) }
    ensures err { IfErr result (λ _. RefusesChild problem.old.problem node.e (moves_of problem.old.groups moves.now) (move_of problem.old.groups m) standing.old (S.left tokens.old.source)) }
    ensures kind { IfErr result (FaultFits tokens.old.place (S.left tokens.old.source) (S.left tokens.new.source)) }
{
    let Some((token, place)) = tokens.take() else {
        return Err(CertFault::Short);
    };
    match token {
        Token::Yield(lun) => take_yield(problem, moves, standing, m.lun(), lun.get(), place),
        Token::Bus | Token::Trail => read_leaf(problem, node, m, token, place),
        _ => read_below(problem, node, m, token, place, tokens),
    }
}

// Reads the tree after a move, whose first token was taken already.
#[cycle(read)]
fn read_below<S: TokenSource<Token = Token>>(
    problem: &mut Problem,
    node: Node,
    m: Move,
    token: Token,
    place: usize,
    tokens: &mut Numbered<S>,
) -> Result<(), CertFault>
    requires bounds { AreNodeBounds problem.old.problem node.bounds }
    requires step { IsMove problem.old.problem (move_of problem.old.groups m) }
    requires named { IsNamed problem.old.groups m }
    requires few { tokens.old.place + length (S.left tokens.old.source) < 2 ^ 64 }
    requires next { tokens.old.place ≡ place + 1 }
    ensures problem { OnOk result (problem.new ≡ problem.old) }
    ensures fewer { OnOk result (length (S.left tokens.new.source) ≤ length (S.left tokens.old.source)) }
    ensures read { OnOk result (ReadOn tokens.old.place tokens.new.place (S.left tokens.old.source) (S.left tokens.new.source)) }
    ensures behind { S.behind tokens.new.source ≡ S.behind tokens.old.source }
    ensures ok { OnOk result (Begins (after problem.old.problem (move_of problem.old.groups m)) node.e (token ∷ S.left tokens.old.source) (S.left tokens.new.source)) }
    ensures err { IfErr result (λ _. (rest : List OneToken) → Begins (after problem.old.problem (move_of problem.old.groups m)) node.e (token ∷ S.left tokens.old.source) rest → ⊥) }
    ensures kind { IfErr result (FaultFits place (token ∷ S.left tokens.old.source) (S.left tokens.new.source)) }
{
    let bounds = node.bounds.after(problem, m);
    let node = Node { e: node.e, bounds };
    let undo = problem.advance(&m);
    read_tree(problem, node, token, place, tokens)?;
    problem.undo(undo);
    Ok(())
}

/// Reads the tree of a problem, with nothing after it. On Ok the problem is as it was.
///
/// # Errors
/// The first fault in reading order: `Short`, `Width`, `BoundLow`, `YieldLoop`, `YieldNoFit` or `NotEnd`, else
/// `Trailing` at the first token after the tree. Then the problem may be one within the tree.
pub(crate) fn read_whole<S: TokenSource<Token = Token>>(
    problem: &mut Problem,
    e: u64,
    tokens: &mut Numbered<S>,
) -> Result<(), CertFault>
    requires first { tokens.old.place ≡ 0 }
    requires few { length (S.left tokens.old.source) < 2 ^ 64 }
    ensures problem { OnOk result (problem.new ≡ problem.old) }
    ensures behind { S.behind tokens.new.source ≡ S.behind tokens.old.source }
    ensures ok { OnOk result (AcceptsTokens (S.left tokens.old.source) problem.old.problem e) }
    ensures err { IfErr result (λ _. AcceptsTokens (S.left tokens.old.source) problem.old.problem e → ⊥) }
    ensures kind { IfErr result (IsTokenFault problem.old.problem e (S.left tokens.old.source) (S.left tokens.new.source)) }
{
    let bounds = NodeBounds::of(problem);
    let Some((token, place)) = tokens.take() else {
        return Err(CertFault::Short);
    };
    let node = Node { e, bounds };
    read_tree(problem, node, token, place, tokens)?;
    match tokens.take() {
        Some((_, place)) => Err(CertFault::Trailing(place)),
        None => Ok(()),
    }
}
