//! The steps that the rule takes.

ghost use Rattle.std.specs.Prelude.{◌≡◌, ◌≢◌, ◌<◌, ◌^◌, IfOk, [], false, slice_get, true};
ghost use Rattle.onfi_problem.specs.Moves.{IsMove, Start, move_lun};
ghost use Rattle.onfi_problem.specs.Position.{lun_named, move_of};
ghost use Rattle.onfi_problem.specs.Starts.{IsNamed};
ghost use Rattle.onfi_planner.specs.Planning.{run_of};
ghost use Rattle.onfi_steady.specs.Waiting.{Books};
ghost use Rattle.onfi_steady.specs.Next.{move_of_phase};
ghost use Rattle.onfi_steady.specs.Placing.{are_same, is_same};
ghost use Rattle.onfi_steady.specs.Rule.{HasBooks, IsFor, IsRuleRun, IsWayRun};

use crate::dispatcher::Dispatcher;
use crate::next::NextPhase;
use onfi_planner::{Begun, Best};
use onfi_problem::{Move, Moves, Problem};
use onfi_request::Want;
use std::alloc::{AllocError, Global};

/// The steps that the rule takes from a problem, and when the last phase ends, in ns: of these [`plan_by_rule`] makes its
/// schedule, and a search may begin with them.
///
/// # Errors
/// Only where memory was refused.
///
/// [`plan_by_rule`]: crate::plan_by_rule
pub fn run_by_rule(alloc: Global, problem: &Problem) -> Result<Best, AllocError>
    ensures run { IfOk result (λ best. IsRuleRun problem.now.problem (run_of problem.now.groups best.steps.items) best.finish) }
    ensures small { IfOk result (λ best. best.finish < 2 ^ 62) }
{
    let mut left = problem.copy(alloc)?;
    let mut dispatcher = Dispatcher::new(problem.timing(), problem.rules(), 1);
    dispatcher.begin_batch(alloc, problem);
    let mut steps = Vec::new(alloc);
    let finish = rule_run(&mut left, &mut dispatcher, &mut steps)?;
    Ok(Best { finish, steps })
}

/// Has the phases run that are next until nothing is left, and puts their moves into the empty list, last first; answers when
/// the last phase ends, in ns.
///
/// # Errors
/// Only where memory was refused.
fn rule_run(
    problem: &mut Problem,
    dispatcher: &mut Dispatcher,
    steps: &mut Vec<Begun>,
) -> Result<u64, AllocError>
    requires none { steps.old.items ≡ [] }
    requires books { HasBooks problem.old.problem dispatcher.old }
    ensures run { IfOk result (λ finish. (books : Books) → IsFor problem.old.problem books dispatcher.old → IsWayRun books problem.old.problem (run_of problem.old.groups steps.new.items) finish) }
    ensures small { IfOk result (λ finish. finish < 2 ^ 62) }
{
    let bus_free = problem.bus_free();
    let Some(phase) = dispatcher.next(bus_free) else {
        return Ok(bus_free);
    };
    let start = phase.start;
    let step = step_of(problem, &phase);
    dispatcher.run_due(start);
    let _undo = problem.advance(&step);
    let finish = rule_run(problem, dispatcher, steps)?;
    steps.push(Begun { step, start })?;
    Ok(finish)
}

// The move whose phase is next.
fn step_of(problem: &Problem, phase: &NextPhase) -> Move
    requires step { IsMove problem.now.problem (move_of_phase phase.now) }
    requires lun { move_lun (move_of_phase phase.now) ≡ phase.now.lun }
    ensures step { move_of problem.now.groups result ≡ move_of_phase phase.now }
    ensures lun { lun_named result ≡ phase.now.lun }
{
    let members = phase.members();
    if members.is_empty() {
        return Move::Next { lun: phase.lun };
    }
    start_of(problem, members)
}

// The move that starts a group.
fn start_of(problem: &Problem, members: &[Want]) -> Move
    requires { IsMove problem.now.problem (Start members.now) }
    ensures step { move_of problem.now.groups result ≡ Start members.now }
    ensures named { IsNamed problem.now.groups result }
{
    let mut moves = Moves::new();
    problem.list_steps(&mut moves);
    for m in moves.as_slice() {
        if is_start(problem, *m, members) {
            return *m;
        }
    }
    Move::Next { lun: 0 }
}

// Whether a move starts that group.
fn is_start(problem: &Problem, m: Move, members: &[Want]) -> bool
    requires step { IsMove problem.now.problem (move_of problem.now.groups m) }
    requires start { IsMove problem.now.problem (Start members.now) }
    ensures yes { result ≡ true → move_of problem.now.groups m ≡ Start members.now }
    ensures no { result ≡ false → move_of problem.now.groups m ≢ Start members.now }
{
    problem.in_limits();
    match m {
        Move::Start { place, .. } => are_same(problem.group(place).members(), members),
        Move::Next { .. } => false,
    }
}

// Whether two lists of up to four have the same numbers.
fn are_same(members: &[Want], others: &[Want]) -> bool
    ensures { result ≡ are_same members.now others.now }
{
    is_same(members, others, 0)
        && is_same(members, others, 1)
        && is_same(members, others, 2)
        && is_same(members, others, 3)
}

// Whether those at a place have the same number, or there is none in both.
fn is_same(members: &[Want], others: &[Want], at: usize) -> bool
    ensures { result ≡ is_same (slice_get members.now at) (slice_get others.now at) }
{
    match members.get(at) {
        Some(member) => match others.get(at) {
            Some(other) => member.id == other.id,
            None => false,
        },
        None => others.len() <= at,
    }
}
