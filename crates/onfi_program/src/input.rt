//! What the program reads.
use onfi_console::Parsed;
use onfi_script::{InputFault, read_all};
use std::alloc::{AllocError, Global};
use std::fs;
use std::fs::{Files, OpenFile};
use std::io::{Error, Input};

/// Why an input can't be read.
#[derive(Drop)]
pub enum Unread<'a> {
    /// This file can't be opened.
    File(&'a str, Error),
    /// This is the name of a directory.
    Directory(&'a str),
    /// A read failed.
    Read,
    /// Memory was refused.
    Memory,
}

impl<'a> From<InputFault> for Unread<'a> {
    fn from(fault: InputFault) -> Unread<'a> {
        match fault {
            InputFault::Read => Unread::Read,
            InputFault::Memory => Unread::Memory,
        }
    }
}

/// All that a command line names: the script, and the plan text or log of a file of its own.
#[derive(Drop)]
pub struct Inputs {
    pub script: Vec<u8>,
    pub text: Option<Vec<u8>>,
}

impl Inputs {
    /// The script and what comes after it in one text, and where that begins.
    ///
    /// # Errors
    /// Where memory was refused.
    pub fn join(self) -> Result<(Vec<u8>, usize), AllocError> {
        let Inputs { mut script, text } = self;
        let Some(text) = text else {
            return Ok((script, 0));
        };
        if !script.is_empty() && !script.ends_with(b"\n") {
            script.extend_from_slice(b"\n")?;
        }
        let at = script.len();
        script.extend_from_slice(text.as_slice())?;
        Ok((script, at))
    }
}

/// Reads all that a command line names.
///
/// # Errors
/// Where a file can't be opened or is a directory, a read failed, or memory was refused.
pub fn read<'a, R: Files + Input>(
    rt: &R,
    alloc: Global,
    parsed: &Parsed<'a>,
) -> Result<Inputs, Unread<'a>> {
    let script = read_file(rt, alloc, parsed.script)?;
    let text = match parsed.plan {
        None => None,
        Some(plan) => Some(read_file(rt, alloc, Some(plan))?),
    };
    Ok(Inputs { script, text })
}

/// All bytes of a file, or of standard input where it is `-` or none is named.
fn read_file<'a, R: Files + Input>(
    rt: &R,
    alloc: Global,
    name: Option<&'a str>,
) -> Result<Vec<u8>, Unread<'a>> {
    match name {
        None | Some("-") => Ok(read_all(alloc, &mut rt.reader())?),
        Some(name) => match fs::open(rt, name) {
            Ok(file) if is_directory(&file) => Err(Unread::Directory(name)),
            Ok(mut file) => Ok(read_all(alloc, &mut file)?),
            Err(error) => Err(Unread::File(name, error)),
        },
    }
}

/// Whether what was opened is a directory; a file of which that can't be said is none.
fn is_directory(file: &impl OpenFile) -> bool {
    match file.metadata() {
        Ok(metadata) => metadata.is_dir(),
        Err(_) => false,
    }
}
