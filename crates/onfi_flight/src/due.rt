//! The phase that is due, and what it leaves.

ghost use Rattle.std.specs.Prelude.{◌≡◌, ◌<◌, ◌≤◌, ◌+◌, ◌*◌, ◌^◌, drop, length, Some};
ghost use Rattle.onfi_problem.specs.Moves.{lun_after, without};
ghost use Rattle.onfi_flight.specs.Flight.{member_of};

use arrayvec::ArrayVec;
use onfi_group::{Group, wait_before};
use onfi_problem::LunState;
use onfi_request::Want;
use onfi_schedule::Starts;
use onfi_timing::Timing;

/// The undone phase of least start.
#[derive(Drop)]
pub struct Due {
    /// When it starts, in ns of the channel's clock.
    pub start: u64,
    /// The group that it is of, and its number there: commands first, then posts.
    pub group: Group,
    pub phase: u8,
    /// The LUN that it is of.
    pub lun: u8,
    /// Where the group stands among those that didn't start, if it didn't.
    pub place: Option<usize>,
}

impl Due {
    /// The member of the group that the phase is of: each has a command, then each a post.
    pub fn member(&self) -> &Want
        requires { self.now.phase < 2 * length self.now.group }
        ensures { member_of self.now.group self.now.phase ≡ Some result.now }
    {
        let members = self.group.len();
        let phase = usize::from(self.phase);
        let number = if phase < members {
            phase
        } else {
            phase - members
        };
        &self.group.members()[number]
    }
}

// What the LUN of a group does once a phase of it has ended.
pub(crate) fn lun_after(timing: &Timing, group: &Group, phase: u8, ended: u64) -> LunState
    requires phase { phase < 2 * length group.now }
    requires ended { ended < 2 ^ 63 + 2 ^ 50 }
    ensures { result ≡ lun_after timing.now group.now phase ended }
{
    let count = group.len();
    let next = usize::from(phase) + 1;
    if next < 2 * count {
        let wait = wait_before(timing, group.members(), next);
        LunState::Running {
            group: group.copy(),
            next: next as u8,
            ready: ended + wait,
        }
    } else {
        LunState::Free { since: ended }
    }
}

// The starts after the first one.
pub(crate) fn skip_first(starts: &Starts) -> Starts
    requires { 1 ≤ length starts.now }
    ensures { result ≡ drop 1 starts.now }
{
    let mut later = Starts::new();
    for start in &starts.as_slice()[1..] {
        later.push(*start);
    }
    later
}

// The wants that are not in the group.
pub(crate) fn wants_without(group: &Group, wants: &[Want]) -> ArrayVec<Want, 8>
    requires { length wants.now ≤ 8 }
    ensures { result.items ≡ without group.now wants.now }
{
    let mut left = ArrayVec::new();
    for want in wants {
        if !group.has(want) {
            left.push(*want);
        }
    }
    left
}
