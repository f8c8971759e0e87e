//! Texts of others, made safe to show.
use std::alloc::{AllocError, Global};
use std::ascii;

/// The most characters of a row or a word that are shown.
const MOST: usize = 120;

/// A text with each character that can't be printed in its escaped form.
///
/// # Errors
/// Where memory was refused.
pub fn escape_text(alloc: Global, text: &str) -> Result<String, AllocError> {
    let mut shown = String::new(alloc);
    for character in text.chars() {
        if character.is_control() {
            write!(shown, "{}", character.escape_default())?;
        } else {
            shown.push(character)?;
        }
    }
    Ok(shown)
}

/// The beginning of some bytes, each that isn't printable ASCII in its escaped form; a longer text ends in three dots.
///
/// # Errors
/// Where memory was refused.
pub fn escape_bytes(alloc: Global, bytes: &[u8]) -> Result<String, AllocError> {
    let mut shown = String::new(alloc);
    for byte in bytes.iter().take(MOST) {
        if *byte == b'\'' || *byte == b'"' {
            shown.push(char::from(*byte))?;
        } else {
            write!(shown, "{}", ascii::escape_default(*byte))?;
        }
    }
    if bytes.len() > MOST {
        shown.push_str("...")?;
    }
    Ok(shown)
}
