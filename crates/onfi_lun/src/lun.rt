ghost use Rattle.std.specs.Prelude.{◌≡◌, ◌≤◌, min};

use crate::states::{Idle, Posting, Queuing, Working};

/// A LUN of a chip in the phase that its type says. Each move takes it by value and answers it in the phase that follows;
/// a move that fails answers it in the phase that it had.
#[derive(Debug, Drop)]
pub struct Lun<S> {
    number: u8,
    state: S,
}

/// A LUN that took a command.
#[derive(Debug, Drop)]
pub enum Commanded {
    /// More commands of the group follow.
    More(Lun<Queuing>),
    /// It was the group's last.
    Last(Lun<Working>),
}

/// A LUN after a post.
#[derive(Debug, Drop)]
pub enum Posted {
    /// More posts of the group are left.
    More(Lun<Posting>),
    /// It was the group's last.
    Last(Lun<Idle>),
}

impl<S> Lun<S> {
    /// Which LUN of the chip it is, from 0.
    pub fn number(&self) -> u8
        ensures { result ≡ self.now.number }
    {
        self.number
    }

    pub(crate) fn at(number: u8, state: S) -> Lun<S>
        ensures number { result.number ≡ number }
        ensures state { result.state ≡ state }
    {
        Lun { number, state }
    }

    pub(crate) fn state(&self) -> &S
        ensures { result.now ≡ self.now.state }
    {
        &self.state
    }
}

impl Lun<Idle> {
    /// A LUN of a chip that does nothing.
    pub fn new(number: u8) -> Lun<Idle>
        ensures { result.number ≡ number }
    {
        Lun::at(number, Idle)
    }
}

impl Lun<Working> {
    ghost use Rattle.onfi_lun.specs.declared.lun.Lun.{Lun as ALun};
    ghost use Rattle.onfi_lun.specs.Phases.{IsWorking, IsPosting};

    /// The array time is over at `now`, in ns: the posts may come.
    pub fn work(self, now: u64) -> Lun<Posting>
        requires { self.state.ready ≤ now }
        ensures number { result.number ≡ self.number }
        ensures left { result.state.left ≡ self.state.members }
        ensures ready { result.state.ready ≡ self.state.ready }
    {
        let _ = now;
        let Lun { number, state } = self;
        Lun::at(
            number,
            Posting {
                left: state.members,
                ready: state.ready,
            },
        )
    }

    /// The chip said at `now`, in ns, that the array is done: the posts may come from then on, or from when they might before.
    pub(crate) fn bring_forward(self, now: u64) -> Lun<Working>
        ensures number { result.number ≡ self.number }
        ensures members { result.state.members ≡ self.state.members }
        ensures ready { result.state.ready ≡ min self.state.ready now }
    {
        let Lun { number, state } = self;
        let Working { members, ready } = state;
        Lun::at(
            number,
            Working {
                members,
                ready: ready.min(now),
            },
        )
    }
}
