ghost use Rattle.std.specs.Prelude.{◌≡◌};
ghost use Rattle.onfi_chip.specs.Hold.{hold};

use onfi_timing::Spans;

/// What closes a command of a group (ONFI 4.2, multi-plane operations).
#[derive(Clone, Copy, Debug, PartialEq, Eq)]
pub enum Closer {
    /// More commands of the group follow: 32h for a read, 11h for a program, D1h for an erase.
    More,
    /// It is the group's last command: 30h for a read, 10h for a program, D0h for an erase.
    Last,
}

impl Closer {
    /// How long a command with this closer holds its LUN: the command itself and the wait after it, in ns.
    pub fn hold(self, spans: Spans) -> u64
        ensures { result ≡ hold self spans }
    {
        match self {
            Closer::More => spans.cmd + spans.gap,
            Closer::Last => spans.cmd + spans.array,
        }
    }
}
