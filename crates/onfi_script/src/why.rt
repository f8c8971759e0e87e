use crate::fault::Refusal;
use onfi_check::TextFault;
use onfi_known_check::{KnownFault, KnownTextFault};
use onfi_schedule::Breach;

/// Why an answer refuses an input, or has nothing else to say.
#[derive(Clone, Copy)]
pub enum Why {
    /// The script is refused.
    Script(Refusal),
    /// That many nodes were opened, and the search is not over.
    Over(u32),
    /// The first wrong line of the plan text, counted from 1.
    Line(u64),
    /// The schedule isn't legal: a condition that it breaks.
    Illegal(Option<Breach>),
    /// The schedule ends at another time than is said, both in ns.
    Finish { said: u64, is: u64 },
    /// The schedule ends before the time before which nothing is said to end, both in ns.
    Below { said: u64, is: u64 },
    /// The text of a plain certificate doesn't show what it has to.
    Cert(TextFault),
    /// That of one which remembers states doesn't.
    Known(TextFault<KnownFault, KnownTextFault>),
    /// Memory was refused.
    Memory,
}
