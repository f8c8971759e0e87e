//! What the lead bound asks for.

ghost use Rattle.std.specs.Prelude.{◌≡◌, ℕ, ◌+◌, ◌-◌, ◌^◌, ◌≤◌, ◌<◌, IfSome, length, map, slice_get};
ghost use Rattle.onfi_timing.specs.Kinds.{spans_of};
ghost use Rattle.onfi_group.specs.Words.{total};
ghost use Rattle.onfi_problem.specs.Left.{post_time, want_post, all_posts};
ghost use Rattle.onfi_problem.specs.Position.{waiting_of};
ghost use Rattle.onfi_problem.specs.Problem.{Problem as AnyProblem};
ghost use Rattle.onfi_bound.specs.Bounds.{on_lun, least, least_with};
ghost use Rattle.onfi_demand.specs.Remaining.{posts_rest};
ghost use Rattle.onfi_demand.specs.Demand.{lead_demand, lead_at};
ghost use Rattle.onfi_demand.specs.Kept.{IsKept};
ghost use Rattle.onfi_demand.specs.Work.{left_of, IsShape, IsWork};

use crate::demand::Demand;
use crate::group_lengths::GroupLengths;
use crate::left::{LunLeft, LunWork, left_on};
use crate::lengths::{operation_spans, rest_to_post};
use onfi_problem::Problem;
use onfi_request::Want;
use onfi_timing::Timing;

// The posts that are left of a running group, in ns.
fn rest_posts(timing: &Timing, left: LunLeft) -> u64
    requires { IsShape left }
    ensures value { result ≡ posts_rest timing.now (left_of left) }
    ensures small { result ≤ 2 ^ 53 }
{
    match left {
        LunLeft::Idle => 0,
        LunLeft::Rest {
            operation,
            members,
            next,
            sectors,
        } => GroupLengths::of(timing, operation, members, next, &sectors).posts_from(next),
    }
}

// The posts that are left of all running groups.
fn posts_of_luns(problem: &Problem) -> u64
    ensures value { result ≡ total (post_time problem.now.problem.timing) problem.now.problem.luns }
    ensures small { result ≤ 2 ^ 57 }
{
    problem.in_limits();
    let timing = problem.timing();
    let count = problem.lun_count();
    let mut sum = 0;
    for lun in 0..count {
        let left = left_on(problem, lun as u8);
        sum += rest_posts(timing, left);
    }
    sum
}

// The posts of the marked wants.
fn posts_of_wants(timing: &Timing, all: &[Want], marks: &[bool; 8]) -> u64
    requires { length all.now ≤ 8 }
    ensures value { result ≡ total (want_post timing.now) (waiting_of marks.now all.now) }
    ensures small { result ≤ 2 ^ 57 }
{
    let mut sum = 0;
    for (i, want) in all.iter().enumerate() {
        if marks[i] {
            sum += timing.spans(want.kind).post;
        }
    }
    sum
}

// All posts that are left, in ns.
fn all_posts(problem: &Problem) -> u64
    ensures { result ≡ all_posts problem.now.problem }
{
    let timing = problem.timing();
    posts_of_luns(problem) + posts_of_wants(timing, problem.wants(), problem.waiting())
}

// The least command and array of wants, in ns.
fn first_command(timing: &Timing, wants: &[Want]) -> Option<u64>
    ensures value { result ≡ least (map (λ w. (spans_of timing.now w.kind).cmd + (spans_of timing.now w.kind).array) wants.now) }
    ensures short { IfSome result (λ rest. rest < 2 ^ 51) }
{
    let mut first = None;
    for want in wants {
        let spans = timing.spans(want.kind);
        first = Some(least_of(spans.cmd + spans.array, first));
    }
    first
}

// The lesser of a number and another, where there is another.
fn least_of(x: u64, other: Option<u64>) -> u64
    ensures { result ≡ least_with x other }
{
    match other {
        Some(y) => x.min(y),
        None => x,
    }
}

impl LunWork {
    // What the lead bound asks of the LUN, where `left` is what the posts leave of the finish, in ns.
    fn lead_time(&self, timing: &Timing, left: u64) -> u64
        requires { IsShape self.now.left }
        ensures { (p : AnyProblem) (lun e : ℕ) → IsWork p lun self.now → timing.now ≡ p.timing → left ≡ e - all_posts p → result ≡ lead_at p e (on_lun lun p.wants) (slice_get p.luns lun) }
    {
        match self.left {
            LunLeft::Rest {
                operation,
                members,
                next,
                ..
            } => {
                let rest = rest_to_post(&operation_spans(timing, operation), members, next);
                left.saturating_sub(rest)
            }
            LunLeft::Idle => match first_command(timing, &self.wants) {
                Some(rest) => left.saturating_sub(rest),
                None => 0,
            },
        }
    }
}

impl Demand {
    /// What the lead bound asks for.
    pub fn of_lead(problem: &Problem, e: u64) -> Demand
        ensures { IsKept result (lead_demand problem.now.problem e) }
    {
        let timing = problem.timing();
        let count = problem.lun_count();
        let left = e.saturating_sub(all_posts(problem));
        let mut luns = [0; 8];
        let mut some = false;
        for lun in 0..count {
            let work = LunWork::of(problem, lun as u8);
            luns[lun] = work.lead_time(timing, left);
            if work.is_some() {
                some = true;
            }
        }
        if some {
            Demand { bus: 0, luns }
        } else {
            Demand::of_bus(e)
        }
    }
}
