//! Schedules that a search may begin with.

ghost use Rattle.std.specs.Prelude.{◌≡◌, ◌≤◌, ◌<◌, [], IfOk, OnOk, length};
ghost use Rattle.std.specs.List.{AllByRecursion as Each};
ghost use Rattle.onfi_problem.specs.Moves.{AreMoves, IsMove};
ghost use Rattle.onfi_problem.specs.Position.{Position, move_of, moves_of};
ghost use Rattle.onfi_problem.specs.Starts.{IsNamed};
ghost use Rattle.onfi_schedule.specs.Runs.{Run};
ghost use Rattle.onfi_bound.specs.Loads.{AreLoads};
ghost use Rattle.onfi_planner.specs.Planning.{run_of};
ghost use Rattle.onfi_known_plan.specs.ByRule.{EndsByRule};
ghost use Rattle.onfi_known_plan.specs.Steps.{IsStep};
ghost use Rattle.onfi_known_plan.specs.Walks.{IsRunOf};

use crate::guessed::{group_left, waiting_work};
use onfi_bound::Loads;
use onfi_demand::{LunLeft, left_on};
use onfi_planner::{Begun, Best};
use onfi_problem::{Move, Moves, Problem};
use onfi_steady::run_by_rule;
use onfi_timing::Operation;
use std::alloc::{AllocError, Global};

/// How to choose among the moves that may start first.
#[derive(Clone, Copy)]
pub enum Rule {
    /// What sets a LUN to work or lets it go before what fills the bus: commands of groups that run, statuses, reads, data
    /// outputs, programs, erases; then the most wants.
    LunsFirst,
    /// Of the LUN with the most work left, then the most wants.
    Work,
    /// Commands before posts, then the most wants, then erases before programs before reads.
    Commands,
    /// Posts before commands, then the most wants.
    Posts,
    /// Of the LUN with the most work left, then the fewest wants.
    FewestWants,
}

const RULES: [Rule; 4] = [Rule::Work, Rule::Commands, Rule::Posts, Rule::FewestWants];

/// The best among a schedule, those of the rules here, and the one of `onfi_steady`. The one that sets LUNs to work first is
/// given where none ends sooner, since its LUNs are free early; of the others none is tried once a bound shows that nothing
/// ends sooner.
///
/// # Errors
/// Only where memory was refused.
pub fn best_of_rules(
    alloc: Global,
    problem: &mut Problem,
    loads: &Loads,
    first: Best,
) -> Result<Best, AllocError>
    requires run { IsRunOf problem.old first }
    requires loads { AreLoads problem.old loads.now.of.items }
    ensures problem { OnOk result (problem.new ≡ problem.old) }
    ensures run { IfOk result (IsRunOf problem.old) }
    ensures sooner { IfOk result (λ best. best.finish ≤ first.finish) }
    ensures by_rule { IfOk result (λ best. EndsByRule problem.old.problem best.finish) }
{
    let best = best_of_own_rules(alloc, problem, loads, first)?;
    choose_by_rule(alloc, problem, loads, best)
}

// The best among a schedule and that of the rule of `onfi_steady`, which isn't made where a bound shows that nothing ends
// sooner.
fn choose_by_rule(
    alloc: Global,
    problem: &Problem,
    loads: &Loads,
    best: Best,
) -> Result<Best, AllocError>
    requires run { IsRunOf problem.now best }
    requires loads { AreLoads problem.now loads.now.of.items }
    ensures run { IfOk result (IsRunOf problem.now) }
    ensures sooner { IfOk result (λ found. found.finish ≤ best.finish) }
    ensures by_rule { IfOk result (λ found. EndsByRule problem.now.problem found.finish) }
{
    problem.in_limits();
    if let Some(_first) = loads.closing(problem, best.finish) {
        return Ok(best);
    }
    let ruled = run_by_rule(alloc, problem)?;
    Ok(choose_sooner(best, ruled))
}

// The best among a schedule and those of the rules here.
fn best_of_own_rules(
    alloc: Global,
    problem: &mut Problem,
    loads: &Loads,
    first: Best,
) -> Result<Best, AllocError>
    requires run { IsRunOf problem.old first }
    requires loads { AreLoads problem.old loads.now.of.items }
    ensures problem { OnOk result (problem.new ≡ problem.old) }
    ensures run { IfOk result (IsRunOf problem.old) }
    ensures sooner { IfOk result (λ best. best.finish ≤ first.finish) }
{
    let luns_first = schedule_by(alloc, problem, loads, Rule::LunsFirst)?;
    let mut best = choose_sooner(luns_first, first);
    for rule in RULES {
        if loads.closing(problem, best.finish).is_some() {
            return Ok(best);
        }
        let other = schedule_by(alloc, problem, loads, rule)?;
        best = choose_sooner(best, other);
    }
    Ok(best)
}

// The schedule of a rule.
fn schedule_by(
    alloc: Global,
    problem: &mut Problem,
    loads: &Loads,
    rule: Rule,
) -> Result<Best, AllocError>
    ensures problem { OnOk result (problem.new ≡ problem.old) }
    ensures run { IfOk result (IsRunOf problem.old) }
{
    let mut steps = Vec::new(alloc);
    let finish = run_by(problem, loads, rule, &mut steps)?;
    Ok(Best { finish, steps })
}

// The one of two that ends first; the first of equals.
fn choose_sooner(best: Best, other: Best) -> Best
    ensures run { (problem : Position) → IsRunOf problem best → IsRunOf problem other → IsRunOf problem result }
    ensures sooner { result.finish ≤ best.finish }
    ensures no_later { result.finish ≤ other.finish }
{
    if other.finish < best.finish {
        other
    } else {
        best
    }
}

// Puts the steps of the schedule of a rule into the empty list, last first; answers when it ends, in ns.
fn run_by(
    problem: &mut Problem,
    loads: &Loads,
    rule: Rule,
    steps: &mut Vec<Begun>,
) -> Result<u64, AllocError>
    requires none { steps.old.items ≡ [] }
    ensures problem { OnOk result (problem.new ≡ problem.old) }
    ensures run { IfOk result (Run problem.old.problem (run_of problem.old.groups steps.new.items)) }
{
    let bus_free = problem.bus_free();
    let mut moves = Moves::new();
    problem.list_steps(&mut moves);
    if moves.is_empty() {
        return Ok(bus_free);
    }
    let step = choice(problem, loads, rule, moves.as_slice());
    let start = problem.earliest(&step);
    let undo = problem.advance(&step);
    let finish = run_by(problem, loads, rule, steps)?;
    problem.undo(undo);
    steps.push(Begun { step, start })?;
    Ok(finish)
}

// A move, its earliest start, in ns, and how high it ranks.
#[derive(Clone, Copy)]
struct Ranked {
    step: Move,
    start: u64,
    rank: u64,
}

// The move that may start first; among equals the one that ranks highest; among those the first.
fn choice(problem: &Problem, loads: &Loads, rule: Rule, moves: &[Move]) -> Move
    requires some { 1 ≤ length moves.now }
    requires moves { AreMoves problem.now.problem (moves_of problem.now.groups moves.now) }
    requires named { Each (IsNamed problem.now.groups) moves.now }
    ensures { IsStep problem.now result }
{
    let work = waiting_work(problem, loads);
    let mut choice = with_rank(problem, &work, rule, moves[0]);
    for m in moves {
        choice = first_of(problem, &work, rule, choice, *m);
    }
    choice.step
}

// The first of two by start and rank, where the rank of the second one isn't worked out yet.
fn first_of(problem: &Problem, work: &[u64; 8], rule: Rule, choice: Ranked, m: Move) -> Ranked
    requires choice { IsStep problem.now choice.step }
    requires step { IsStep problem.now m }
    ensures { IsStep problem.now result.step }
{
    let start = problem.earliest(&m);
    if start > choice.start {
        return choice;
    }
    let other = with_rank(problem, work, rule, m);
    if start == choice.start && other.rank <= choice.rank {
        return choice;
    }
    other
}

// A move with its earliest start and its rank.
fn with_rank(problem: &Problem, work: &[u64; 8], rule: Rule, step: Move) -> Ranked
    requires { IsStep problem.now step }
    ensures { result.step ≡ step }
{
    let start = problem.earliest(&step);
    let rank = rank(problem, work, rule, step);
    Ranked { step, start, rank }
}

// How high a move ranks by a rule.
fn rank(problem: &Problem, work: &[u64; 8], rule: Rule, m: Move) -> u64
    requires { IsStep problem.now m }
{
    let lun = m.lun();
    let wants = started_wants(problem, m);
    match rule {
        // The earlier turn ranks above the later one, and then the more wants.
        Rule::LunsFirst => turn_of(problem, lun, m)
            .saturating_mul(16)
            .saturating_add(wants),
        Rule::Work => work_left(problem, work, lun).saturating_add(wants),
        Rule::FewestWants => work_left(problem, work, lun).saturating_sub(wants),
        Rule::Commands => rank_of_command(is_post(problem, lun), wants, operation_rank(problem, m)),
        Rule::Posts => rank_of_post(is_post(problem, lun), wants),
    }
}

// The turn of a move: the greater the number, the less it fills the bus for what it lets LUNs do.
fn turn_of(problem: &Problem, lun: u8, m: Move) -> u64
    requires step { IsMove problem.now.problem (move_of problem.now.groups m) }
    requires lun { lun < length problem.now.problem.luns }
{
    match m {
        Move::Next { .. } => turn_of_running(problem, lun),
        Move::Start { place, .. } => match problem.group(place).operation() {
            Operation::Read => 4,
            Operation::Program => 2,
            Operation::Erase => 1,
        },
    }
}

// The turn of a group that goes on.
fn turn_of_running(problem: &Problem, lun: u8) -> u64
    requires { lun < length problem.now.problem.luns }
{
    match left_on(problem, lun) {
        LunLeft::Idle => 0,
        LunLeft::Rest {
            operation,
            members,
            next,
            ..
        } => {
            if next < members {
                return 6;
            }
            match operation {
                Operation::Read => 3,
                Operation::Program => 5,
                Operation::Erase => 5,
            }
        }
    }
}

// Commands rank above posts, by wants and then by operation.
fn rank_of_command(post: bool, wants: u64, operation: u64) -> u64 {
    if post {
        return operation;
    }
    wants
        .saturating_mul(4)
        .saturating_add(operation)
        .saturating_add(128)
}

// Posts rank above commands, by wants.
fn rank_of_post(post: bool, wants: u64) -> u64 {
    if post {
        wants.saturating_add(16)
    } else {
        wants
    }
}

// Sixteen times as long as all takes at least that is left to a LUN, in ns, where its wants take so long.
fn work_left(problem: &Problem, work: &[u64; 8], lun: u8) -> u64
    requires { lun < length problem.now.problem.luns }
{
    problem.in_limits();
    group_left(problem, lun)
        .saturating_add(work[lun as usize])
        .saturating_mul(16)
}

// Whether a LUN goes on with a post.
fn is_post(problem: &Problem, lun: u8) -> bool
    requires { lun < length problem.now.problem.luns }
{
    match left_on(problem, lun) {
        LunLeft::Idle => false,
        LunLeft::Rest { members, next, .. } => next >= members,
    }
}

// How many wants a move starts.
fn started_wants(problem: &Problem, m: Move) -> u64
    requires { IsMove problem.now.problem (move_of problem.now.groups m) }
{
    match m {
        Move::Next { .. } => 0,
        Move::Start { place, .. } => problem.group(place).len() as u64,
    }
}

// Erases before programs, and programs before reads; no matter which where a group goes on.
fn operation_rank(problem: &Problem, m: Move) -> u64
    requires { IsMove problem.now.problem (move_of problem.now.groups m) }
{
    match m {
        Move::Next { .. } => 0,
        Move::Start { place, .. } => match problem.group(place).operation() {
            Operation::Erase => 2,
            Operation::Program => 1,
            Operation::Read => 0,
        },
    }
}
