//! Kinds of tokens that have a spelling.
use std::alloc::AllocError;

/// A kind of tokens, each with one spelling: a word without space and LF.
pub trait Spelled: Copy {
    ghost use Rattle.std.specs.Prelude.{◌≡◌, ◌<◌, ◌^◌, ◌++◌, ℕ, List, Option, OnOk};

    /// The most tokens that a line may have.
    const MOST: usize;

    ghost MOST: { ℕ };

    ghost spelling: { Self → List ℕ };

    // the way back
    ghost token_of: { List ℕ → Option Self };

    // what the type of the tokens keeps of each
    ghost Kept: { Self → Type 0 } = { λ _. Unit {0} };

    /// Appends the spelling of a token.
    ///
    /// # Errors
    /// Only where memory was refused.
    fn put(self, out: &mut Vec<u8>) -> Result<(), AllocError>
        ensures spelled { OnOk result (out.new.items ≡ out.old.items ++ spelling self) }
        ensures kept { OnOk result (Kept self) };

    /// The token that a word spells.
    fn token_of(word: &[u8]) -> Option<Self>
        ensures { result ≡ token_of word.now };

    ghost fits: { MOST < 2 ^ 64 };
}
