//! The command bytes of a phase.
ghost use Rattle.std.specs.Prelude.{◌≡◌};
ghost use Rattle.onfi_log.specs.Bytes as spec;

use crate::line::is_word;
use onfi_timing::Operation;

/// What opener and closer of a line say of its phase.
#[derive(Clone, Copy, Debug, PartialEq, Eq)]
pub enum Bytes {
    /// They are those of a post, or of the last command of a group.
    Last,
    /// They are those of a command after which another plane's command comes.
    More,
    /// They are those of no phase of the line's operation and part.
    Other,
}

/// The first command byte of a phase, in hexadecimal.
pub(crate) fn opener_word(operation: Operation, is_post: bool) -> &'static str
    ensures { result.now ≡ spec.opener_word operation is_post }
{
    match (is_post, operation) {
        (false, Operation::Read) => "00",
        (false, Operation::Program) => "80",
        (false, Operation::Erase) => "60",
        (true, Operation::Read) => "06",
        (true, _) => "78",
    }
}

/// The last one; `-` where there is none.
pub(crate) fn closer_word(operation: Operation, is_post: bool, is_last: bool) -> &'static str
    ensures { result.now ≡ spec.closer_word operation is_post is_last }
{
    match (is_post, operation) {
        (false, Operation::Read) => if is_last { "30" } else { "32" },
        (false, Operation::Program) => if is_last { "10" } else { "11" },
        (false, Operation::Erase) => if is_last { "D0" } else { "D1" },
        (true, Operation::Read) => "E0",
        (true, _) => "-",
    }
}

/// What these words say of a phase.
pub(crate) fn bytes_of(operation: Operation, is_post: bool, opener: &[u8], closer: &[u8]) -> Bytes
    ensures { result ≡ spec.bytes_of operation is_post opener.now closer.now }
{
    if !is_word(opener, opener_word(operation, is_post)) {
        Bytes::Other
    } else if is_word(closer, closer_word(operation, is_post, true)) {
        Bytes::Last
    } else if is_word(closer, closer_word(operation, is_post, false)) {
        Bytes::More
    } else {
        Bytes::Other
    }
}

impl Bytes {
    /// Whether they are those of the phase: of a command of which it is known whether it is the last one, or of any phase.
    pub(crate) fn fit(self, is_last: Option<bool>) -> bool
        ensures { result ≡ spec.fits is_last self }
    {
        match (self, is_last) {
            (Bytes::Other, _) => false,
            (Bytes::Last | Bytes::More, None) => true,
            (Bytes::Last, Some(is_last)) => is_last,
            (Bytes::More, Some(is_last)) => !is_last,
        }
    }
}
