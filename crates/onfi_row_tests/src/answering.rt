//! What a row is answered with.

ghost use Rattle.std.specs.Prelude.{length, ◌≡◌, IfOk};
ghost use Rattle.onfi_console.specs.Words.{IsInRange};

use crate::ended::Ended;
use onfi_sim::{
    Command, CommandName, EngineFault, Gate, Parsed, WordsFault, audit, describe, engine,
    engine_split, run_script, words,
};
use std::alloc::{AllocError, Global};
use std::sync::Wait;
use std::thread::Threads;

/// A status and a text.
#[derive(Drop)]
pub(crate) struct Answer {
    pub(crate) status: u8,
    pub(crate) text: Vec<u8>,
}

// A gate that holds nothing up.
#[derive(Clone, Copy)]
struct Open;

impl Gate for Open {
    fn before(&mut self, _channel: u8, _turn: u64) {}
}

fn four_gates(alloc: Global) -> Result<Vec<Open>, AllocError>
    ensures { IfOk result (λ gates. length gates.items ≡ 4) }
{
    Vec::from_elem(alloc, Open, 4)
}

/// The words of a command line after the program's name.
pub(crate) fn words_of(alloc: Global, line: &str) -> Result<Vec<String>, AllocError> {
    let mut given = Vec::new(alloc);
    given.push(String::from_str(alloc, "onfi_sim")?)?;
    for word in line.split_whitespace() {
        given.push(String::from_str(alloc, word)?)?;
    }
    Ok(given)
}

/// What a command line answers to an input.
pub(crate) fn answer_to<R: Threads + Wait + Sync>(
    rt: &R,
    alloc: Global,
    line: &str,
    input: &[u8],
) -> Result<Answer, Ended> {
    let given = words_of(alloc, line)?;
    match words(alloc, given.as_slice()) {
        Ok(parsed) => obey(rt, alloc, &parsed, input),
        Err(WordsFault::Refused) => Ok(Answer {
            status: 5,
            text: Vec::new(alloc),
        }),
        Err(WordsFault::Memory) => Err(Ended::Memory),
    }
}

// What the command that was named answers.
fn obey<R: Threads + Wait + Sync>(
    rt: &R,
    alloc: Global,
    parsed: &Parsed<'_>,
    input: &[u8],
) -> Result<Answer, Ended>
    requires { IsInRange parsed.now.named }
{
    let (limit, trace, workers) = (parsed.limit(), parsed.trace(), parsed.workers());
    let mut reader = input;
    let mut text = Vec::new(alloc);
    let status = match parsed.command() {
        CommandName::Plan if workers > 1 => {
            engine_split(rt, alloc, limit, trace, workers, &mut reader, &mut text)?
        }
        CommandName::Plan => {
            let command = Command::Plan { limit, trace };
            engine(alloc, command, &mut reader, &mut text)?
        }
        CommandName::Check => engine(alloc, Command::Check, &mut reader, &mut text)?,
        CommandName::Run => {
            let gates = four_gates(alloc)?;
            run_script(rt, alloc, limit, gates, &mut reader, &mut text)?
        }
        CommandName::Device => {
            let described = describe(alloc, input)?;
            text = described.text;
            described.status
        }
        CommandName::Audit => {
            let audited = audit(alloc, false, input)?;
            text = audited.text;
            audited.status
        }
    };
    Ok(Answer { status, text })
}
