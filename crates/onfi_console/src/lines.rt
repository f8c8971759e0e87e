//! What may be wrong with lines of plan texts and tokens of certificates.

/// Whether a text ends in its first line, with no line end after it.
pub fn last_of_text(text: &[u8]) -> bool {
    !text.iter().any(|byte| *byte == b'\n')
}

/// Whether a word of a line is a number of several digits, the first a zero.
fn has_leading_zero(line: &[u8]) -> bool {
    line.split(|byte| *byte == b' ' || *byte == b'+')
        .any(|word| word.len() > 1 && word.first() == Some(&b'0'))
}

/// Whether two blanks stand side by side.
pub fn has_two_blanks(line: &[u8]) -> bool {
    line.windows(2).any(|pair| pair == b"  ".as_slice())
}

/// What is wrong with a line of numbers, which may be the last of its text.
pub fn line_fault(line: &[u8], last: bool) -> Option<&'static str> {
    if last {
        Some("no line end stands behind the line; each line needs one, the last one too")
    } else if line.is_empty() {
        Some("an empty line stands here; leave it out")
    } else if line.ends_with(b"\r") {
        Some("the line ends with CR LF; lines of a plan text end with LF alone")
    } else if line.ends_with(b" ") {
        Some("a blank stands at the end of the line; leave it out")
    } else if line.starts_with(b" ") {
        Some("a blank stands in front of the line; leave it out")
    } else if has_two_blanks(line) {
        Some("two blanks stand side by side; write one")
    } else if line.iter().any(|byte| *byte == b'.') {
        Some("a number has a fraction; times are whole ns")
    } else if has_leading_zero(line) {
        Some("a number has a leading zero; leave it out")
    } else {
        None
    }
}

/// A token in the line of tokens that a text begins with, counted from 0; nothing where there are fewer.
pub fn token_at(text: &[u8], at: usize) -> &[u8] {
    let line = text.split(|byte| *byte == b'\n').next().unwrap_or(b"");
    line.split(|byte| *byte == b' ').nth(at).unwrap_or(b"")
}

/// Why a place, counted from 0, in the line of tokens that a text begins with holds no token.
pub fn token_text_fault(text: &[u8], at: usize) -> &'static str {
    let line = text.split(|byte| *byte == b'\n').next().unwrap_or(b"");
    let count = line.split(|byte| *byte == b' ').count();
    let token = token_at(text, at);
    if at >= count && last_of_text(text) {
        "no line end stands behind the last token"
    } else if at >= count {
        "something stands behind the line of tokens; leave it out"
    } else if line.is_empty() {
        "an empty line stands in place of the tokens"
    } else if token.is_empty() && at.saturating_add(1) == count {
        "a blank stands at the end of the line; leave it out"
    } else if token.is_empty() && at == 0 {
        "a blank stands in front of the line; leave it out"
    } else if token.is_empty() {
        "two blanks stand side by side; write one"
    } else if token.ends_with(b"\r") {
        "the line ends with CR LF; it ends with LF alone"
    } else if token.len() > 2 && token.get(1) == Some(&b'0') {
        "its number has a leading zero; leave it out"
    } else {
        "it is none of the tokens; take the text as it was printed"
    }
}
