ghost use Rattle.std.specs.Prelude.{◌≡◌, ◌+◌, ◌^◌, ◌<◌, length, Option, Some, None, if◌then◌else◌, IfSome};
ghost use Rattle.onfi_bound.specs.Bounds.{bus, lead, trail, die, least, least_with, post_starts, has_command};
ghost use Rattle.onfi_timing.specs.declared.operation.Operation.{Operation as AnyOperation};
ghost use Rattle.onfi_problem.specs.Left.{all_commands};
ghost use Rattle.onfi_problem.specs.Problem.{Problem as AnyProblem};
ghost use Rattle.onfi_bound.specs.Parts.{AreSums, IsLeft, has_operation};

use crate::chain::Chain;
use crate::left::{Left, Sums, list_marked};
use crate::operations::Operations;
use crate::posts::{first_post, least_of};
use crate::waits::work_of_wants;
use arrayvec::ArrayVec;
use onfi_problem::Problem;
use onfi_timing::{Operation, Timing};

/// The bus bound, in ns of the channel's clock: when the bus is free, plus all phases that are left.
pub fn bus(problem: &Problem) -> u64
    ensures value { result ≡ bus problem.now.problem }
    ensures small { result < 2 ^ 62 }
{
    Left::of(problem).sums.bus(problem)
}

/// The lead bound, in ns of the channel's clock: the least first post start of the LUNs that have something left, plus
/// all posts that are left; where nothing is left it is when the bus is free.
pub fn lead(problem: &Problem) -> u64
    ensures value { result ≡ lead problem.now.problem }
    ensures small { result < 2 ^ 62 }
{
    Left::of(problem).lead(problem)
}

/// The trail bound, in ns of the channel's clock: when the bus is free, plus all commands that are left, plus the least
/// array time of an operation that has a command left and the least post that is stated of it; None where no command is left.
pub fn trail(problem: &Problem) -> Option<u64>
    ensures value { result ≡ trail problem.now.problem }
    ensures small { IfSome result (λ t. t < 2 ^ 62) }
{
    Left::of(problem).sums.trail(problem)
}

/// The die bound of a LUN that is there, in ns of the channel's clock: from when the LUN may go on, plus the rest of
/// its running group with waits, plus the phases of its wants and the waits that the best grouping leaves them
/// (ONFI 4.2, multi-plane operations); where the LUN has nothing left it is when the bus is free.
///
/// Wants are counted for each operation and page, all erases as one page; where groups are strict, also for each block
/// number above the plane bits.
pub fn die(problem: &Problem, lun: u8) -> u64
    requires { lun < length problem.now.problem.luns }
    ensures value { result ≡ die problem.now.problem lun }
    ensures small { result < 2 ^ 62 }
{
    let (timing, rules) = (problem.timing(), problem.rules());
    let bus_free = problem.bus_free();
    let chain = Chain::of(timing, problem.groups(), problem.luns()[lun as usize]);
    let mut wants = ArrayVec::new();
    list_marked(problem.wants(), problem.waiting(), &mut wants);
    let work = work_of_wants(timing, &rules, &wants, lun);
    if !chain.running && work == 0 {
        return bus_free;
    }
    chain.done_by(bus_free, work)
}

impl Sums {
    /// The bus bound of a problem to which these are left.
    pub fn bus(&self, problem: &Problem) -> u64
        requires { AreSums problem.now.problem self.now }
        ensures value { result ≡ bus problem.now.problem }
        ensures small { result < 2 ^ 62 }
    {
        problem.bus_free() + self.commands + self.posts
    }

    /// Its lead bound, where the first post starts then.
    pub fn lead(&self, problem: &Problem, first: Option<u64>) -> u64
        requires sums { AreSums problem.now.problem self.now }
        requires first { first ≡ least (post_starts problem.now.problem 0 problem.now.problem.luns) }
        ensures value { result ≡ lead problem.now.problem }
        ensures small { result < 2 ^ 62 }
    {
        let bus_free = problem.bus_free();
        match first {
            Some(start) => start + self.posts,
            None => bus_free,
        }
    }

    /// Its trail bound, where a command is left.
    pub fn trail(&self, problem: &Problem) -> Option<u64>
        requires { AreSums problem.now.problem self.now }
        ensures value { result ≡ trail problem.now.problem }
        ensures small { IfSome result (λ t. t < 2 ^ 62) }
    {
        trail_of(problem, self.commands, self.operations)
    }
}

/// The trail bound of a problem to which commands of these operations are left, with the sum of their lengths in ns.
pub fn trail_of(problem: &Problem, commands: u64, operations: Operations) -> Option<u64>
    requires commands { commands ≡ all_commands problem.now.problem }
    requires operations { (operation : AnyOperation) → has_operation operations operation ≡ has_command problem.now.problem operation }
    ensures value { result ≡ trail problem.now.problem }
    ensures small { IfSome result (λ t. t < 2 ^ 62) }
{
    let (timing, bus_free) = (problem.timing(), problem.bus_free());
    trail_by(timing, bus_free, commands, operations)
}

/// The trail bound, in ns, of any problem with these phase lengths whose bus is free from `bus_free` on and to which
/// commands of these operations are left, with the sum of their lengths.
pub fn trail_by(
    timing: &Timing,
    bus_free: u64,
    commands: u64,
    operations: Operations,
) -> Option<u64>
    requires bus_free { bus_free < 2 ^ 62 }
    requires commands { commands < 2 ^ 62 }
    ensures { (p : AnyProblem) → timing.now ≡ p.timing → bus_free ≡ p.bus_free → commands ≡ all_commands p
        → ((operation : AnyOperation) → has_operation operations operation ≡ has_command p operation) → result ≡ trail p }
{
    let rest = least_after_command(operations.erase, timing.least_rest(Operation::Erase), None);
    let rest = least_after_command(
        operations.program,
        timing.least_rest(Operation::Program),
        rest,
    );
    let rest = least_after_command(operations.read, timing.least_rest(Operation::Read), rest)?;
    Some(bus_free + commands + rest)
}

impl Left {
    /// The lead bound.
    pub fn lead(&self, problem: &Problem) -> u64
        requires { IsLeft problem.now.problem self.now }
        ensures value { result ≡ lead problem.now.problem }
        ensures small { result < 2 ^ 62 }
    {
        let timing = problem.timing();
        let first = first_post(timing, self.bus_free, &self.chains, &self.wants);
        self.sums.lead(problem, first)
    }
}

/// The lesser of what comes at least after a command, in ns, where one is left, and what comes after others.
fn least_after_command(left: bool, least: u64, others: Option<u64>) -> Option<u64>
    requires others { IfSome others (λ rest. rest < 2 ^ 51) }
    requires least { least < 2 ^ 51 }
    ensures value { result ≡ (if left then Some (least_with least others) else others) }
    ensures short { IfSome result (λ rest. rest < 2 ^ 51) }
{
    if left {
        Some(least_of(least, others))
    } else {
        others
    }
}
