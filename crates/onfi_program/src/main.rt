// Plans ONFI channels, checks plans and runs hosts' operations: reads a script from a file or standard input, writes its
// answer to standard output, and what is to be said about it in words to standard error.
#![tactic(auto)]

ghost use Rattle.std.specs.Prelude.{IfOk};
ghost use Rattle.onfi_console.specs.Words.{IsInRange};
ghost use Rattle.onfi_console.specs.declared.parsed.Named.TheVariants.{Run as ARun};

mod input;
mod keeping;
mod why;

use input::{Inputs, Unread, read};
use keeping::Keeping;
use onfi_console::{
    EngineFault, Input, Named, Parsed, RunOptions, Untaken, escape_bytes, escape_text, is_quiet,
    message, read_words,
};
use onfi_script::write_with_status;
use onfi_sim::{carry_out, run_traced};
use std::fmt::Display;
use std::fs;
use std::fs::Files;
use std::io::{Eprint, ErrorKind, Print, Write};
use std::process::ExitCode;
use std::sync::Wait;
use std::thread::Threads;
use why::find_why;

/// The words of the command line, or the status of one that can't be read.
fn collect_words(
    rt: &(impl std::rt::Env + AllocGlobal + Print + Eprint),
) -> Result<Vec<String>, u8> {
    let args = match std::env::args(rt) {
        Ok(args) => args,
        Err(fault) if fault.kind() == ErrorKind::OutOfMemory => return Err(out_of_memory(rt)),
        Err(_) => return Err(report_word(rt)),
    };
    match args.collect::<Vec<String>>(rt.alloc()) {
        Ok(given) => Ok(given),
        Err(_) => Err(out_of_memory(rt)),
    }
}

/// The most words, and the most bytes of a word, that are looked at for one that can't be read.
const MOST_WORDS: usize = 4096;

/// The word that isn't UTF-8 text, with such bytes escaped.
fn wrong_word(rt: &(impl std::rt::Env + AllocGlobal)) -> Option<String> {
    let mut word = [0u8; 4096];
    for number in 0..MOST_WORDS {
        let size = rt.arg(number, &mut word).ok()?;
        let bytes = &word[..size];
        if std::str::from_utf8(bytes).is_err() {
            return escape_bytes(rt.alloc(), bytes).ok();
        }
    }
    None
}

/// Says which word isn't text; the status of a refused command line.
fn report_word(rt: &(impl std::rt::Env + AllocGlobal + Eprint)) -> u8 {
    if let Some(word) = wrong_word(rt) {
        let _ = rt.eprint("error: this word of the command line isn't UTF-8 text: '");
        let _ = rt.eprint(word.as_str());
        let _ = rt.eprintln("'");
    }
    5
}

/// Says that memory was refused; its status.
fn out_of_memory(rt: &impl Print) -> u8 {
    let _ = rt.println("memory");
    4
}

/// What the command line asks for, or the status of one that isn't taken.
fn parse_words<'a>(
    rt: &(impl AllocGlobal + Print + Eprint),
    given: &'a [String],
) -> Result<Parsed<'a>, u8>
    ensures { IfOk result (λ parsed. IsInRange parsed.named) }
{
    match read_words(rt.alloc(), given) {
        Ok(parsed) => Ok(parsed),
        Err(Untaken::Version(text)) => {
            let _ = rt.print(text.as_str());
            Err(0)
        }
        Err(Untaken::Refused(text)) => {
            if !is_quiet(given) {
                let _ = rt.eprint(text.as_str());
            }
            Err(5)
        }
        Err(Untaken::Memory) => Err(out_of_memory(rt)),
    }
}

/// Says why an input can't be read; its status.
fn report_unread(
    rt: &(impl AllocGlobal + Print + Eprint),
    parsed: &Parsed<'_>,
    fault: &Unread<'_>,
) -> u8 {
    match fault {
        Unread::File(name, error) => {
            if !parsed.quiet {
                report_file(rt, name, "read", error);
            }
            5
        }
        Unread::Directory(name) => {
            if !parsed.quiet {
                report_file(rt, name, "read", "it is a directory");
            }
            5
        }
        Unread::Read => 7,
        Unread::Memory => out_of_memory(rt),
    }
}

/// Says which file can't be `done`, read or written, and why.
fn report_file(rt: &(impl AllocGlobal + Eprint), name: &str, done: &str, why: impl Display + Drop) {
    let alloc = rt.alloc();
    if let Ok(name) = escape_text(alloc, name) {
        if let Ok(text) = format!(in alloc; "error: the file '{name}' can't be {done}: {why}\n") {
            let _ = rt.eprint(text.as_str());
        }
    }
}

/// Says, for a person, why an answer with that status refuses its inputs, and what it leaves unsaid; nothing where memory is refused
/// to that.
fn report_answer(
    rt: &(impl Threads + Sync + AllocGlobal + Eprint),
    parsed: &Parsed<'_>,
    status: u8,
    written: &[u8],
    inputs: Inputs,
)
    requires { IsInRange parsed.now.named }
{
    let alloc = rt.alloc();
    let Ok((text, at)) = inputs.join() else {
        return;
    };
    let input = Input {
        text: text.as_slice(),
        script: parsed.script,
        plan: parsed.plan.zip(Some(at)),
    };
    let why = find_why(rt, alloc, parsed.named, status, written, input.text);
    if let Ok(Some(text)) = message(alloc, parsed, &input, written, why) {
        let _ = rt.eprint(text.as_str());
    }
}

/// Runs a script, writes the trace of each channel and then the answer: its status, or 5 where a trace can't be written.
fn trace_run<R: Threads + Sync + AllocGlobal + Eprint + Files + Wait, W: Write>(
    rt: &R,
    parsed: &Parsed<'_>,
    options: RunOptions,
    file: &str,
    script: &[u8],
    writer: &mut W,
) -> Result<u8, EngineFault>
    requires { IsInRange (ARun options) }
{
    let alloc = rt.alloc();
    let Ok(traced) = run_traced(rt, alloc, options, script) else {
        return write_with_status(writer, b"memory\n", 4);
    };
    for (channel, trace) in traced.traces.iter().enumerate() {
        let Some(trace) = trace else {
            return write_with_status(writer, b"memory\n", 4);
        };
        if !write_trace(rt, parsed, file, channel, trace.as_slice()) {
            return Ok(5);
        }
    }
    write_with_status(writer, traced.answer.text.as_slice(), traced.answer.status)
}

/// Writes the trace of a channel: into the file that is named for channel 0, and for another into one of that name, a point and
/// its number. Whether it was written; where it wasn't, that is said.
fn write_trace<R: AllocGlobal + Eprint + Files>(
    rt: &R,
    parsed: &Parsed<'_>,
    file: &str,
    channel: usize,
    trace: &[u8],
) -> bool {
    let written = if channel == 0 {
        fs::write(rt, file, trace)
    } else {
        match format!(in rt.alloc(); "{file}.{channel}") {
            Ok(name) => fs::write(rt, name.as_str(), trace),
            Err(_) => return false,
        }
    };
    match written {
        Ok(()) => true,
        Err(error) => {
            if !parsed.quiet {
                report_file(rt, file, "written", error);
            }
            false
        }
    }
}

fn main(rt: HostRuntime) -> ExitCode {
    let given = match collect_words(&rt) {
        Ok(given) => given,
        Err(status) => return ExitCode::from(status),
    };
    let parsed = match parse_words(&rt, given.as_slice()) {
        Ok(parsed) => parsed,
        Err(status) => return ExitCode::from(status),
    };
    let inputs = match read(&rt, rt.alloc(), &parsed) {
        Ok(inputs) => inputs,
        Err(fault) => return ExitCode::from(report_unread(&rt, &parsed, &fault)),
    };
    let mut output = Keeping::new(std::io::writer(&rt), rt.alloc(), parsed.quiet);
    let script = inputs.script.as_slice();
    let text = inputs.text.as_ref().map(|text| text.as_slice());
    let written = match (parsed.named, parsed.trace_file) {
        (Named::Run { options }, Some(file)) => {
            trace_run(&rt, &parsed, options, file, script, &mut output)
        }
        _ => carry_out(&rt, rt.alloc(), parsed.named, script, text, &mut output),
    };
    let Ok(status) = written else {
        return ExitCode::from(7);
    };
    if !parsed.quiet {
        report_answer(&rt, &parsed, status, output.kept(), inputs);
    }
    ExitCode::from(status)
}
