//! Numbers that guesses rest on: which window may reach a finish, which move may do well first.

ghost use Rattle.std.specs.Prelude.{◌<◌, length};

use onfi_bound::Loads;
use onfi_demand::{GroupLengths, LunLeft, left_on};
use onfi_problem::Problem;
use onfi_timing::Operation;

/// Wants of an operation that wait: how many, and their posts, all together and the shortest, in ns.
#[derive(Clone, Copy)]
pub struct Waiting {
    pub count: u64,
    pub posts: u64,
    pub shortest: u64,
}

impl Waiting {
    // None.
    fn none() -> Waiting {
        Waiting {
            count: 0,
            posts: 0,
            shortest: u64::MAX,
        }
    }

    // One want more.
    fn add(&mut self, post: u64) {
        self.count = self.count.saturating_add(1);
        self.posts = self.posts.saturating_add(post);
        self.shortest = self.shortest.min(post);
    }
}

/// The wants that wait for a LUN.
#[derive(Clone, Copy)]
pub struct WaitingOnLun {
    pub reads: Waiting,
    pub programs: Waiting,
    pub erases: Waiting,
}

impl WaitingOnLun {
    // One want more.
    fn add(&mut self, operation: Operation, post: u64) {
        let waiting = match operation {
            Operation::Read => &mut self.reads,
            Operation::Program => &mut self.programs,
            Operation::Erase => &mut self.erases,
        };
        waiting.add(post);
    }
}

/// The wants that wait, for each LUN.
pub fn list_waiting(problem: &Problem) -> [WaitingOnLun; 8] {
    let none = WaitingOnLun {
        reads: Waiting::none(),
        programs: Waiting::none(),
        erases: Waiting::none(),
    };
    let mut luns = [none; 8];
    let waiting = problem.waiting();
    for (i, want) in problem.wants().iter().enumerate() {
        if waiting[i] {
            let post = problem.timing().spans(want.kind).post;
            luns[(want.lun % 8) as usize].add(want.kind.operation(), post);
        }
    }
    luns
}

/// For each LUN how long the wants that wait take at least, in ns; none where the loads are of another problem.
pub fn waiting_work(problem: &Problem, loads: &Loads) -> [u64; 8] {
    let place = place_of(problem.waiting()) & loads.of.len().wrapping_sub(1);
    match loads.of.get(place) {
        Some(load) => load.work,
        None => [0; 8],
    }
}

// The place of a load: the number with its marks as bits, the first one lowest.
fn place_of(marks: &[bool; 8]) -> usize {
    let mut place = 0;
    for i in 0..8usize {
        place = place % 128 * 2 + marks[7 - i] as usize;
    }
    place
}

/// How long all takes that is left of a LUN's running group, with the waits, in ns; 0 where none runs.
pub fn group_left(problem: &Problem, lun: u8) -> u64
    requires { lun < length problem.now.problem.luns }
{
    match left_on(problem, lun) {
        LunLeft::Idle => 0,
        LunLeft::Rest {
            operation,
            members,
            next,
            sectors,
        } => {
            let lengths = GroupLengths::of(problem.timing(), operation, members, next, &sectors);
            rest_of(&lengths, next)
        }
    }
}

/// How long the phases of a group take from `next` on, with the waits between them, in ns.
pub fn rest_of(lengths: &GroupLengths, next: u8) -> u64 {
    let mut rest = 0u64;
    for phase in next as usize..2 * lengths.members as usize {
        rest = rest
            .saturating_add(lengths.phase_length(phase))
            .saturating_add(lengths.wait_before(phase + 1));
    }
    rest
}
