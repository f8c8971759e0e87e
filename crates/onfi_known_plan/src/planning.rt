//! Walks over the tree of a problem.

ghost use Rattle.std.specs.Prelude.{◌≡◌, ◌+◌, ◌≤◌, ◌<◌, true, false, IfOk, OnOk};
ghost use Rattle.onfi_known_plan.specs.Text.{nodes_in};
ghost use Rattle.onfi_known_plan.specs.Walks.{AreMore, IsBegun, IsBetter, IsProved, IsTree};
ghost use Rattle.onfi_known_plan.specs.Searched.{IsSearched};

use crate::choosing::best_of_rules;
use crate::notes::Notes;
use crate::search::search;
use onfi_bound::Loads;
use onfi_known_check::Token;
use onfi_planner::{Best, Limit, Root, root_of};
use onfi_problem::Problem;
use std::alloc::{AllocError, Global};

/// What the walks over a problem's tree have found.
#[derive(Drop)]
pub struct Searched {
    /// What each set of the problem's wants takes.
    pub loads: Loads,
    /// The best schedule that was found.
    pub best: Best,
    /// The tokens that show that nothing ends sooner, where no walk was cut.
    pub tokens: Vec<Token>,
    /// Whether a walk was cut, since it met more nodes than it may open.
    pub cut: bool,
    /// How many nodes the last walk opened.
    pub opened: u32,
    /// Whether that wasn't the first one.
    pub again: bool,
}

/// Walks over the tree of a problem until a walk finds nothing sooner or is cut; each opens at most `limit` nodes.
///
/// # Errors
/// Only where memory was refused.
pub fn search_tree(alloc: Global, problem: &Problem, limit: Limit) -> Result<Searched, AllocError>
    ensures { IfOk result (IsSearched problem.now limit) }
{
    let root = begin(alloc, problem)?;
    let Root {
        problem: mut at,
        loads,
        mut best,
    } = root;
    let found = walk(alloc, &mut at, &loads, &mut best, limit)?;
    if !found.is_outdone() {
        return Ok(Searched {
            loads,
            best,
            tokens: found.tokens,
            cut: found.cut,
            opened: found.opened,
            again: false,
        });
    }
    let written = walk_on(alloc, &mut at, &loads, &mut best, limit)?;
    Ok(Searched {
        loads,
        best,
        tokens: written.tokens,
        cut: written.cut,
        opened: written.opened,
        again: true,
    })
}

/// A problem's root, where the best of the first schedules is the best so far.
///
/// # Errors
/// Only where memory was refused.
pub fn begin(alloc: Global, problem: &Problem) -> Result<Root, AllocError>
    ensures { IfOk result (IsBegun problem.now) }
{
    let root = root_of(alloc, problem)?;
    let mut at = root.problem;
    let loads = root.loads;
    let best = best_of_rules(alloc, &mut at, &loads, root.best)?;
    Ok(Root {
        problem: at,
        loads,
        best,
    })
}

/// What a walk over the tree of a problem has given.
#[derive(Drop)]
pub struct Walked {
    /// The tokens of the tree, where no sooner finish was found and the walk wasn't cut.
    pub tokens: Vec<Token>,
    pub improved: bool,
    /// Whether it met more nodes than it may open.
    pub cut: bool,
    pub opened: u32,
}

impl Walked {
    // Whether another walk is due, since the tokens of this one are of a later finish.
    fn is_outdone(&self) -> bool
        ensures outdone { result ≡ true → self.now.improved ≡ true }
        ensures uncut { result ≡ true → self.now.cut ≡ false }
        ensures stands { result ≡ false → self.now.cut ≡ false → self.now.improved ≡ false }
    {
        self.improved && !self.cut
    }
}

// Walks over the tree of a problem for a sooner finish than the best.
fn walk(
    alloc: Global,
    at: &mut Problem,
    loads: &Loads,
    best: &mut Best,
    limit: Limit,
) -> Result<Walked, AllocError>
    requires { IsTree at.old loads.now }
    ensures problem { OnOk result (at.new ≡ at.old) }
    ensures found { OnOk result (IsBetter at.old best.old best.new) }
    ensures fallen { IfOk result (λ walked. walked.improved ≡ true → best.new.finish < best.old.finish) }
    ensures proved { IfOk result (λ walked. walked.cut ≡ false → walked.improved ≡ false → IsProved at.old walked.tokens.items best.new.finish) }
    ensures counted { IfOk result (λ walked. walked.cut ≡ false → walked.improved ≡ false → nodes_in walked.tokens.items ≡ walked.opened) }
    ensures opened { IfOk result (λ walked. walked.opened ≤ limit) }
    ensures full { IfOk result (λ walked. walked.cut ≡ true → walked.opened ≡ limit) }
    ensures nodes { IfOk result (λ walked. AreMore at.old.problem best.old.finish walked.opened) }
    ensures over { IfOk result (λ walked. walked.cut ≡ true → AreMore at.old.problem best.old.finish (limit + 1)) }
{
    let mut notes = Notes::new(alloc, best.finish, limit);
    search(at, loads, best, &mut notes)?;
    let improved = best.finish < notes.cert.finish;
    Ok(Walked {
        tokens: notes.cert.tokens,
        improved,
        cut: notes.cut,
        opened: notes.opened,
    })
}

/// Walks until a walk finds nothing sooner, which has written the tokens then, or is cut; each opens at most `limit`
/// nodes.
///
/// # Errors
/// Only where memory was refused.
pub fn walk_on(
    alloc: Global,
    at: &mut Problem,
    loads: &Loads,
    best: &mut Best,
    limit: Limit,
) -> Result<Walked, AllocError>
    requires { IsTree at.old loads.now }
    ensures found { OnOk result (IsBetter at.old best.old best.new) }
    ensures proved { IfOk result (λ walked. walked.cut ≡ false → IsProved at.old walked.tokens.items best.new.finish) }
    ensures counted { IfOk result (λ walked. walked.cut ≡ false → nodes_in walked.tokens.items ≡ walked.opened) }
    ensures opened { IfOk result (λ walked. walked.opened ≤ limit) }
    ensures full { IfOk result (λ walked. walked.cut ≡ true → walked.opened ≡ limit) }
    ensures nodes { IfOk result (λ walked. AreMore at.old.problem best.old.finish walked.opened) }
    ensures over { IfOk result (λ walked. walked.cut ≡ true → AreMore at.old.problem best.old.finish (limit + 1)) }
{
    let walked = walk(alloc, at, loads, best, limit)?;
    if walked.is_outdone() {
        return walk_on(alloc, at, loads, best, limit);
    }
    Ok(walked)
}
