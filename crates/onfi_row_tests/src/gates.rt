ghost use Rattle.std.specs.Prelude.{◌≡◌, ◌<◌, ◌≤◌, length, IfSome};

use onfi_plan::{Limit, PlainPlanner, Plan, PlanFault, Planner};
use onfi_planners::By;
use onfi_problem::Problem;
use onfi_run::{Way, run_script, run_script_by};
use onfi_seq::Gate;
use std::alloc::Global;
use std::sync::Wait;
use std::sync::atomic::{AtomicBool, AtomicU64, Ordering};
use std::test::*;
use std::thread::Threads;

// The rows of a device with 64 pages of 528 bytes in a block, 1,000 blocks in a LUN, and 2 LUNs of 2 planes.
const DEVICE: &str = "\
    page,4F4E464900004A0048000000000000000000000000000000000000000000000000000000000000000000000000000000\n\
    page,000000000000000000000000000000000000000000000000000000000000000000020000100000000000000040000000\n\
    page,E8030000022300000000000000000000000100000000000000000000000000000000000000C800DC051900C800000000\n\
    page,000000000000000000000000000000000000000000000000000000000000000000000000000000000000000000000000\n\
    page,000000000000000000000000000000000000000000000000000000000000000000000000000000000000000000000000\n\
    page,0000000000000000000000000000F2BD\n\
    sheet,tWC,20\n\
    sheet,tRC,20\n\
    sheet,tADL,100\n\
    sheet,tWHR,80\n\
    sheet,tRHW,100\n\
    sheet,tWB,100\n\
    sheet,tPLRBSY,500\n\
    sheet,tPLPBSY,500\n\
    sheet,tPLEBSY,500\n";

// What the gates of two channels show each other: how often each was called, and whether one gave up, or was called for
// another channel or out of turn.
#[derive(Drop)]
struct Meeting {
    calls: [AtomicU64; 2],
    missed: AtomicBool,
}

impl Meeting {
    fn new() -> Meeting {
        Meeting {
            calls: [AtomicU64::new(0), AtomicU64::new(0)],
            missed: AtomicBool::new(false),
        }
    }

    fn tell(&self, channel: usize)
        requires { channel < 2 }
    {
        self.calls[channel].fetch_add(1, Ordering::SeqCst);
    }

    fn has_called(&self, channel: usize, count: u64) -> bool
        requires { channel < 2 }
    {
        self.calls[channel].load(Ordering::SeqCst) >= count
    }

    fn wait(&self, channel: usize, count: u64)
        requires { channel < 2 }
    {
        for _ in 0..1_000_000_000u64 {
            if self.has_called(channel, count) {
                return;
            }
        }
        self.missed.store(true, Ordering::SeqCst);
    }

    // Both gates were called, for their channels and in turn, and none gave up.
    fn went_well(&self) -> bool {
        let both = self.has_called(0, 1) && self.has_called(1, 1);
        both && !self.missed.load(Ordering::SeqCst)
    }
}

// The gate of one of two channels: it holds its channel until the other's gate was called so often.
#[derive(Drop)]
struct Party<'a> {
    channel: u8,
    turn: u64,
    needs: u64,
    meeting: &'a Meeting,
}

impl<'a> Party<'a> {
    fn of(meeting: &'a Meeting, channel: u8, needs: u64) -> Party<'a> {
        Party {
            channel,
            turn: 0,
            needs,
            meeting,
        }
    }
}

impl Gate for Party<'_> {
    fn before(&mut self, channel: u8, turn: u64) {
        if (channel, turn) != (self.channel, self.turn) {
            self.meeting.missed.store(true, Ordering::SeqCst);
        }
        self.turn = self.turn.saturating_add(1);
        let place = usize::from(self.channel % 2);
        self.meeting.tell(place);
        self.meeting.wait(1 - place, self.needs);
    }
}

// The gates of a meeting, one for each channel that a run may have; channel 1 is held until channel 0 comes to its turn of
// that number, counted from 1.
fn gates_of<'a>(alloc: Global, meeting: &'a Meeting, turn: u64) -> Option<Vec<Party<'a>>>
    ensures { IfSome result (λ gates. length gates.items ≡ 4) }
{
    let gates = [
        Party::of(meeting, 0, 1),
        Party::of(meeting, 1, turn),
        Party::of(meeting, 2, 1),
        Party::of(meeting, 3, 1),
    ];
    Vec::from_array(alloc, gates).ok()
}

// The script of a run of these rows on two channels of the device.
fn script_of(alloc: Global, rows: &str) -> Option<String> {
    format!(in alloc; "{DEVICE}channels,2\n{rows}end\n").ok()
}

// Plans as the plain planner does where it is given that limit; given another, it says that memory was refused.
#[derive(Clone, Copy, Drop)]
struct Limited {
    limit: u32,
}

impl Planner for Limited {
    ghost use Rattle.std.specs.Prelude.{⊤, true};
    ghost use Rattle.onfi_plan.specs.Certificate.{IsPlain};

    ghost exact = { true };

    ghost certifies = { IsPlain };

    ghost promises = { λ _ _ _ _. ⊤ };

    ghost stops = { λ _. ⊤ };

    fn plan(&self, alloc: Global, problem: &Problem, limit: Limit) -> Result<Plan, PlanFault> {
        if limit.get() != self.limit {
            return Err(PlanFault::Memory);
        }
        PlainPlanner.plan(alloc, problem, limit)
    }
}

// Status and text of a run of these rows by that planner, whose two channels wait for each other before their first turns; none where memory
// was refused or a gate missed something.
fn meet<R: Threads + Wait + Sync, P: Planner + Copy + Send + Drop>(
    rt: &R,
    alloc: Global,
    planner: P,
    limit: u32,
    rows: &str,
) -> Option<(u8, Vec<u8>)> {
    let limit = Limit::of(limit)?;
    let meeting = Meeting::new();
    let gates = gates_of(alloc, &meeting, 1)?;
    let script = script_of(alloc, rows)?;
    let mut reader = script.as_bytes();
    let mut text = Vec::new(alloc);
    let way = Way::by_plans(planner, limit);
    let status = run_script_by(rt, alloc, way, false, gates, &mut reader, &mut text).ok()?;
    if !meeting.went_well() {
        return None;
    }
    Some((status, text))
}

const READS: &str = "op,0,0,read,0,0,0\nop,0,1,read,0,0,0\n";

const READS_ANSWERED: &[u8] = b"reply,0,0,0,read,*FF\nreply,0,1,0,read,*FF\nclosed\n";

#[test]
fn two_channels_make_their_turns_at_once(rt: HostRuntime) {
    let alloc = rt.alloc();
    let meeting = Meeting::new();
    let gates = gates_of(alloc, &meeting, 1).expect(&rt, "gates");
    let script = script_of(alloc, READS).expect(&rt, "a script");
    let mut reader = script.as_bytes();
    let mut text = Vec::new(alloc);
    let status = run_script(&rt, alloc, 1_048_576, gates, &mut reader, &mut text);
    assert_eq!(rt; status.expect(&rt, "an answer"), 0);
    assert!(rt; text.as_slice() == READS_ANSWERED);
    assert!(rt; meeting.went_well());
}

// The host's first operation fills the queue of channel 1, which is held: so channel 0 has nothing to do at its first turn,
// and it has to come to a second one for channel 1 to go on.
const BEHIND_A_FULL_QUEUE: &str =
    "submitcap,1\nop,0,1,read,0,0,0\nop,0,1,read,0,2,0\nop,0,0,read,0,0,0\n";

#[test]
fn a_channel_with_nothing_to_do_goes_on_while_hosts_are_at_work(rt: HostRuntime) {
    let alloc = rt.alloc();
    let meeting = Meeting::new();
    let gates = gates_of(alloc, &meeting, 2).expect(&rt, "gates");
    let script = script_of(alloc, BEHIND_A_FULL_QUEUE).expect(&rt, "a script");
    let mut reader = script.as_bytes();
    let mut text = Vec::new(alloc);
    let status = run_script(&rt, alloc, 1_048_576, gates, &mut reader, &mut text);
    assert_eq!(rt; status.expect(&rt, "an answer"), 0);
    let told = b"reply,0,0,0,read,*FF\nreply,0,1,0,read,*FF\nreply,0,1,1,read,*FF\nclosed\n";
    assert!(rt; text.as_slice() == told.as_slice());
    assert!(rt; meeting.went_well());
}

#[test]
fn so_they_do_by_searches_that_remember_states(rt: HostRuntime) {
    let planner = By::Within;
    let (status, text) = meet(&rt, rt.alloc(), planner, 65_536, READS).expect(&rt, "a meeting");
    assert_eq!(rt; status, 0);
    assert!(rt; text.as_slice() == READS_ANSWERED);
}

// Each of the two channels hands the limit of the run on to its planner, and another one is shown by the status.
#[test]
fn both_channels_plan_within_the_limit_of_the_run(rt: HostRuntime) {
    let planner = Limited { limit: 12_345 };
    let (status, text) = meet(&rt, rt.alloc(), planner, 12_345, READS).expect(&rt, "a meeting");
    assert_eq!(rt; status, 0);
    assert!(rt; text.as_slice() == READS_ANSWERED);
    let (other, _) = meet(&rt, rt.alloc(), planner, 12_344, READS).expect(&rt, "a meeting");
    assert_eq!(rt; other, 4);
}

// With one node each of the two can be planned alone, and not both, but by the best plan so far.
#[test]
fn a_run_by_the_best_plans_so_far_is_never_over(rt: HostRuntime) {
    let rows = "op,0,0,read,0,0,0\nop,0,0,program,1,0,0,*A5\n";
    for _ in 0..1_000 {
        let planner = By::Within;
        let (status, text) = meet(&rt, rt.alloc(), planner, 1, rows).expect(&rt, "a meeting");
        assert_eq!(rt; status, 0);
        let told = b"reply,0,0,0,read,*FF\nreply,0,0,1,done\nclosed\n";
        assert!(rt; text.as_slice() == told.as_slice());
    }
}
