//! The limits of the text.

/// The greatest number of tokens that a text may hold; longer lists have no text.
pub const MOST_TOKENS: u32 = 100_000_000;
