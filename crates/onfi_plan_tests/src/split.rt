use crate::sample::{free, want};
use onfi_group::Rules;
use onfi_planner::{PartGate, plan, plan_split};
use onfi_problem::{Problem, ProblemFault};
use onfi_samples::sample_timing;
use onfi_timing::{Kind, Spans, Timing};
use std::alloc::Global;
use std::sync::atomic::{AtomicBool, AtomicU64, Ordering};
use std::test::Fail;

// Holds part 0 until part 1 has begun, and gives up at last.
#[derive(Drop)]
struct Meeting {
    begun: AtomicBool,
    missed: AtomicBool,
}

impl Meeting {
    fn wait(&self) {
        for _ in 0..1_000_000_000u64 {
            if self.begun.load(Ordering::SeqCst) {
                return;
            }
        }
        self.missed.store(true, Ordering::SeqCst);
    }
}

impl PartGate for Meeting {
    fn before(&self, part: usize) {
        match part {
            0 => self.wait(),
            1 => self.begun.store(true, Ordering::SeqCst),
            _ => {}
        }
    }
}

// Counts how often it is called for parts 0, 1 and 2, and for others.
#[derive(Drop)]
struct Counting {
    first: AtomicU64,
    second: AtomicU64,
    third: AtomicU64,
    others: AtomicU64,
}

impl Counting {
    fn new() -> Counting {
        Counting {
            first: AtomicU64::new(0),
            second: AtomicU64::new(0),
            third: AtomicU64::new(0),
            others: AtomicU64::new(0),
        }
    }

    fn counts(&self) -> [u64; 4] {
        [
            self.first.load(Ordering::SeqCst),
            self.second.load(Ordering::SeqCst),
            self.third.load(Ordering::SeqCst),
            self.others.load(Ordering::SeqCst),
        ]
    }
}

impl PartGate for Counting {
    fn before(&self, part: usize) {
        let count = match part {
            0 => &self.first,
            1 => &self.second,
            2 => &self.third,
            _ => &self.others,
        };
        count.fetch_add(1, Ordering::SeqCst);
    }
}

// Two reads of two planes, which stay apart since the gap is longer than the array time. Of the root's moves three don't
// yield, and none of the parts below them has more than four nodes.
fn reads_apart(alloc: Global) -> Result<Problem, ProblemFault> {
    let sample = sample_timing();
    let read = Spans::new(140, 30100, 25100, 11000).unwrap_or(sample.read);
    let timing = Timing::new(read, sample.program, sample.erase);
    let wants = [want(0, Kind::Read, 0, 0), want(1, Kind::Read, 0, 1)];
    let rules = Rules::new(true, true, false, 1);
    Problem::new(alloc, timing, rules, 0, &[free(), free()], &wants)
}

#[test]
fn the_second_part_begins_while_the_first_waits(rt: HostRuntime) -> Result<(), Fail> {
    let problem = reads_apart(rt.alloc())?;
    let gate = Meeting {
        begun: AtomicBool::new(false),
        missed: AtomicBool::new(false),
    };
    let planned = plan_split(&rt, rt.alloc(), &problem, 4, 2, &gate)?;
    assert_eq!(rt; planned.finish, 72480);
    assert!(rt; gate.begun.load(Ordering::SeqCst));
    assert!(rt; !gate.missed.load(Ordering::SeqCst));
    Ok(())
}

#[test]
fn the_gate_hears_of_each_part_once(rt: HostRuntime) -> Result<(), Fail> {
    let problem = reads_apart(rt.alloc())?;
    let alone = plan(rt.alloc(), &problem, 7)?;
    for workers in 1..9usize {
        let gate = Counting::new();
        let planned = plan_split(&rt, rt.alloc(), &problem, 4, workers, &gate)?;
        assert_eq!(rt; planned.finish, alone.finish);
        assert!(rt;
            planned.cert.as_slice() == alone.cert.as_slice(),
            "by {workers}"
        );
        assert_eq!(rt; gate.counts(), [1, 1, 1, 0], "by {workers}");
    }
    Ok(())
}
