//! What is between the best schedule and what no schedule ends before.

ghost use Rattle.std.specs.Prelude.{◌≡◌, ◌≤◌, ◌<◌, true, false, IfOk};
ghost use Rattle.onfi_bound.specs.Loads.{AreLoads};
ghost use Rattle.onfi_known_plan.specs.Within.{IsGap};

use crate::planning::{Walked, walk_on};
use crate::within::ShownBefore;
use onfi_bound::Loads;
use onfi_planner::{Best, Limit};
use onfi_problem::Problem;
use std::alloc::{AllocError, Global};

/// The best schedule that was found, and what no schedule ends before.
#[derive(Drop)]
pub struct Gap {
    pub best: Best,
    pub shown: ShownBefore,
    /// How many nodes the last walk opened.
    pub opened: u32,
    /// Whether that wasn't the first one.
    pub again: bool,
}

impl Gap {
    // Whether no walk is due: nothing is between the two, or a walk was made after the first one.
    fn is_done(&self) -> bool
        ensures { result ≡ false → self.now.shown.below < self.now.best.finish }
    {
        self.again || self.shown.below >= self.best.finish
    }

    // The middle, in ns.
    fn middle(&self) -> u64
        requires { self.now.shown.below < self.now.best.finish }
        ensures above { self.now.shown.below ≤ result }
        ensures within { result ≤ self.now.best.finish }
    {
        let (below, finish) = (self.shown.below, self.best.finish);
        finish - (finish - below) / 2
    }
}

/// Walks for what ends before the middle, where the first walk was the last one; this walk opens at most `limit` nodes.
/// What it finds is the best then, and where it isn't cut its tokens show what nothing ends before. The loads are those of
/// the first walk.
///
/// # Errors
/// Only where memory was refused.
pub fn narrow_gap(
    alloc: Global,
    problem: &Problem,
    loads: &Loads,
    gap: Gap,
    limit: Limit,
) -> Result<Gap, AllocError>
    requires loads { AreLoads problem.now loads.now.of.items }
    requires gap { IsGap problem.now limit gap }
    ensures { IfOk result (IsGap problem.now limit) }
{
    if gap.is_done() {
        return Ok(gap);
    }
    let half = gap.middle();
    let mut at = problem.copy(alloc)?;
    let mut aim = Best {
        finish: half,
        steps: Vec::new(alloc),
    };
    let walked = walk_on(alloc, &mut at, loads, &mut aim, limit)?;
    let opened = walked.opened;
    let Gap { best, shown, .. } = gap;
    let shown = show_by_walk(shown, aim.finish, walked);
    let best = choose_found(best, aim, half);
    Ok(Gap {
        best,
        shown,
        opened,
        again: true,
    })
}

// What a walk shows, where it wasn't cut.
fn show_by_walk(shown: ShownBefore, finish: u64, walked: Walked) -> ShownBefore
    ensures below { walked.cut ≡ false → result.below ≡ finish }
    ensures tokens { walked.cut ≡ false → result.tokens ≡ walked.tokens }
    ensures kept { walked.cut ≡ true → result ≡ shown }
{
    if walked.cut {
        return shown;
    }
    ShownBefore {
        below: finish,
        tokens: walked.tokens,
    }
}

// The one that was aimed at, where it ends before the middle.
fn choose_found(best: Best, aim: Best, middle: u64) -> Best
    ensures found { aim.finish < middle → result ≡ aim }
    ensures kept { middle ≤ aim.finish → result ≡ best }
{
    if aim.finish < middle {
        return aim;
    }
    best
}
