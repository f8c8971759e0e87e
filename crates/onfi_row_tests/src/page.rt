//! A page of rows, line by line.

use std::alloc::{AllocError, Global};

/// Where a line of a page belongs.
#[derive(Clone, Copy, PartialEq, Eq)]
pub(crate) enum Place {
    /// In front of the first mark.
    Nowhere,
    /// To a named text.
    Named,
    /// To the input of a row.
    Input,
    /// To the text of its answer.
    Text,
}

/// A text with a name, that a line `<NAME>` stands for.
#[derive(Drop)]
struct Named<'a> {
    name: &'a str,
    text: Vec<u8>,
}

/// A page as far as it was read, with the row that was read last.
#[derive(Drop)]
pub(crate) struct Page<'a> {
    alloc: Global,
    place: Place,
    /// What the row shows.
    pub(crate) name: &'a str,
    /// The words of its command line.
    pub(crate) words: &'a str,
    pub(crate) input: Vec<u8>,
    /// The status and the text that it is to be answered with; the text has empty lines after it.
    pub(crate) status: &'a str,
    pub(crate) text: Vec<u8>,
    texts: Vec<Named<'a>>,
    last: &'a str,
}

impl<'a> Page<'a> {
    pub(crate) fn new(alloc: Global) -> Page<'a> {
        Page {
            alloc,
            place: Place::Nowhere,
            name: "",
            words: "",
            input: Vec::new(alloc),
            status: "",
            text: Vec::new(alloc),
            texts: Vec::new(alloc),
            last: "",
        }
    }

    /// Whether a row was read whole, where the line begins what comes next.
    pub(crate) fn ends_row(&self, line: &str) -> bool {
        self.place == Place::Text && (line.starts_with("=== ") || line.starts_with("+++ "))
    }

    /// Whether the last row was read whole, where no line is left.
    pub(crate) fn has_row(&self) -> bool {
        self.place == Place::Text
    }

    /// Takes the next line.
    pub(crate) fn take(&mut self, line: &'a str) -> Result<(), AllocError> {
        if let Some(name) = line.strip_prefix("+++ ") {
            self.place = Place::Named;
            let text = Vec::new(self.alloc);
            self.texts.push(Named { name, text })?;
        } else if let Some(name) = line.strip_prefix("=== ") {
            self.name = name;
            self.words = "";
            self.input = Vec::new(self.alloc);
            self.text = Vec::new(self.alloc);
            self.place = Place::Input;
        } else if let Some(words) = line.strip_prefix("$ ") {
            self.words = words;
        } else if let Some(status) = line.strip_prefix("--- ") {
            self.status = status;
            self.place = Place::Text;
        } else {
            self.put(line)?;
        }
        Ok(())
    }

    // Puts a line where it belongs.
    fn put(&mut self, line: &'a str) -> Result<(), AllocError> {
        match self.place {
            Place::Nowhere => Ok(()),
            Place::Named => match self.texts.last_mut() {
                Some(named) if !line.is_empty() => put_line(&mut named.text, line),
                _ => Ok(()),
            },
            Place::Input => self.put_input(line),
            Place::Text => put_line(&mut self.text, line),
        }
    }

    // A line of input: itself, a named text, or the line before it that many times more.
    fn put_input(&mut self, line: &'a str) -> Result<(), AllocError> {
        if let Some(times) = line.strip_prefix("&again ") {
            return self.put_again(times.parse::<u32>().unwrap_or(0));
        }
        self.last = line;
        match named_in(self.texts.as_slice(), line) {
            Some(text) => self.input.extend_from_slice(text),
            None => put_line(&mut self.input, line),
        }
    }

    fn put_again(&mut self, times: u32) -> Result<(), AllocError> {
        for _ in 0..times {
            put_line(&mut self.input, self.last)?;
        }
        Ok(())
    }
}

// The text that a line `<NAME>` stands for.
fn named_in<'t>(texts: &'t [Named<'_>], line: &str) -> Option<&'t [u8]> {
    let (name, _) = line.strip_prefix("<")?.split_once(">")?;
    for named in texts {
        if named.name == name {
            return Some(named.text.as_slice());
        }
    }
    None
}

// The line with its LF; without one where a backslash stands in its place.
fn put_line(text: &mut Vec<u8>, line: &str) -> Result<(), AllocError> {
    let bytes = line.as_bytes();
    match bytes.split_last() {
        Some((b'\\', head)) => text.extend_from_slice(head),
        _ => {
            text.extend_from_slice(bytes)?;
            text.push(b'\n')?;
            Ok(())
        }
    }
}
