/// An input of the program, and where it was read from.
#[derive(Clone, Copy)]
pub struct Input<'a> {
    /// All that was read: the script, and the plan text after it.
    pub text: &'a [u8],
    /// The file of the script; standard input where none is named.
    pub script: Option<&'a str>,
    /// The file of the plan text, and at which byte of `text` it begins; none where it stands in the script's file.
    pub plan: Option<(&'a str, usize)>,
}

impl<'a> Input<'a> {
    /// What the script's file is called in a message.
    pub fn script_name(&self) -> &'a str {
        match self.script {
            Some(name) => shown_name(name),
            None => "<stdin>",
        }
    }

    /// The file, and its line counted from 1, in which a byte of the input stands.
    pub fn place(&self, byte: usize) -> (&'a str, usize) {
        let (name, at) = match self.plan {
            Some((name, at)) if byte >= at => (shown_name(name), at),
            _ => (self.script_name(), 0),
        };
        let before = self.text.get(at..byte).unwrap_or(b"");
        (name, lines_in(before).saturating_add(1))
    }
}

/// What a file is called in a message.
fn shown_name(name: &str) -> &str {
    if name == "-" { "<stdin>" } else { name }
}

/// How many lines end in a text.
pub fn lines_in(text: &[u8]) -> usize {
    text.iter().filter(|byte| **byte == b'\n').count()
}

/// At which byte a line of a text begins, counted from 0.
pub fn line_start(text: &[u8], number: usize) -> usize {
    let mut start = 0usize;
    for line in text.split(|byte| *byte == b'\n').take(number) {
        start = start.saturating_add(line.len()).saturating_add(1);
    }
    start.min(text.len())
}

/// A line of a text, counted from 0, without what ends it.
pub fn line_at(text: &[u8], number: usize) -> &[u8] {
    text.split(|byte| *byte == b'\n').nth(number).unwrap_or(b"")
}

/// A word of a line, counted from 0; nothing where the line has fewer.
pub fn word_at(line: &str, number: usize) -> &str {
    line.split(' ').nth(number).unwrap_or("")
}

/// The first line of a text.
pub fn first_line(text: &[u8]) -> &str {
    match std::str::from_utf8(line_at(text, 0)) {
        Ok(line) => line,
        Err(_) => "",
    }
}
