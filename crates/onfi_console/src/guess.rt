//! What a text may be that isn't what was expected.
use crate::input::{first_line, line_at, word_at};
use crate::rows::form_of;

/// What a text looks like.
#[derive(Clone, Copy, PartialEq, Eq)]
pub enum OtherText {
    /// Two bytes a character.
    Wide,
    /// A byte order mark and a text of single bytes.
    Mark,
    /// What `plan` prints.
    Plan,
    /// What `plan --trace` prints.
    Trace,
    /// What `plan` prints in place of a plan.
    NoPlan,
    /// Rows up to a line `end`.
    Script,
}

impl OtherText {
    /// The message about it where another text was expected.
    pub fn text(self) -> &'static str {
        match self {
            OtherText::Wide => "this is UTF-16 text; save it as ASCII or UTF-8",
            OtherText::Mark => "a byte order mark stands in front of the text; save it without one",
            OtherText::Plan =>
                "this is a plan text where a script should be; the script comes first, the plan text behind it",
            OtherText::Trace =>
                "this is a trace; a plan text is what 'plan' prints without '--trace' and '--requests'",
            OtherText::NoPlan => "this is what 'plan' prints where it has no plan",
            OtherText::Script =>
                "this is a script where a plan text should be; the script comes first, the plan text behind it",
        }
    }
}

impl OtherText {
    /// The message about it where a log was expected, if it can't be the beginning of one.
    pub fn log_text(self) -> Option<&'static str> {
        match self {
            OtherText::Wide | OtherText::Mark | OtherText::NoPlan => Some(self.text()),
            OtherText::Plan => Some(
                "this is a plan text where a log should be; 'plan --trace' prints one",
            ),
            OtherText::Script => Some("this is a script where a log should be"),
            OtherText::Trace => None,
        }
    }
}

/// Whether a text has two bytes a character, by its byte order mark or the zero in its first character.
fn is_wide(text: &[u8]) -> bool {
    text.starts_with(b"\xFF\xFE")
        || text.starts_with(b"\xFE\xFF")
        || (text.len() > 1 && (text.first() == Some(&0) || text.get(1) == Some(&0)))
}

/// Whether a line is one of a trace.
fn is_traced(line: &str) -> bool {
    let part = word_at(line, 4);
    (part == "cmd" || part == "post") && !word_at(line, 8).is_empty()
}

/// Whether a line is the first of an answer without plan.
fn is_no_plan(line: &str) -> bool {
    line == "memory" || line.starts_with("over ") || line.starts_with("script refused ")
}

/// Whether a text begins with a row of a script.
fn is_row(text: &[u8]) -> bool {
    let name = text.split(|byte| *byte == b',').next().unwrap_or(b"");
    form_of(name).is_some()
}

/// What a text looks like, where its beginning shows that.
pub fn guess(text: &[u8]) -> Option<OtherText> {
    let line = first_line(text);
    if is_wide(text) {
        Some(OtherText::Wide)
    } else if text.starts_with(b"\xEF\xBB\xBF") {
        Some(OtherText::Mark)
    } else if line.starts_with("ONFIPLAN ") {
        Some(OtherText::Plan)
    } else if is_traced(line) {
        Some(OtherText::Trace)
    } else if is_no_plan(line) {
        Some(OtherText::NoPlan)
    } else if is_row(line_at(text, 0)) {
        Some(OtherText::Script)
    } else {
        None
    }
}
