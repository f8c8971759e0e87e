//! What turns and drainings come to for who has no clock.

ghost use Rattle.std.specs.Prelude.{◌≡◌};
ghost use Rattle.onfi_seq.specs.NoClock.{EndsNow, GoesNow, timed, timed_end};

use crate::drained::{Drained, DrainedAt};
use crate::turn::{Turn, TurnAt};

/// The same answer of a turn, which doesn't wait.
pub(crate) fn turn_of(answer: TurnAt) -> Turn
    requires { GoesNow answer }
    ensures { timed result ≡ answer }
{
    match answer {
        TurnAt::Posted => Turn::Posted,
        TurnAt::Stopped(cause) => Turn::Stopped(cause),
        TurnAt::Phase => Turn::Phase,
        TurnAt::Accepted => Turn::Accepted,
        TurnAt::Planned => Turn::Planned,
        TurnAt::Over { opened } => Turn::Over { opened },
        TurnAt::Memory => Turn::Memory,
        TurnAt::PostFull => Turn::PostFull,
        TurnAt::Idle => Turn::Idle,
        TurnAt::Waits { until: _ } => unreachable!(),
    }
}

/// The same end of a draining, which doesn't wait.
pub(crate) fn end_of(end: DrainedAt) -> Drained
    requires { EndsNow end }
    ensures { timed_end result ≡ end }
{
    match end {
        DrainedAt::Empty => Drained::Empty,
        DrainedAt::TurnsSpent => Drained::TurnsSpent,
        DrainedAt::Stopped(cause) => Drained::Stopped(cause),
        DrainedAt::Over { opened } => Drained::Over { opened },
        DrainedAt::Memory => Drained::Memory,
        DrainedAt::Waits { until: _ } => unreachable!(),
    }
}
