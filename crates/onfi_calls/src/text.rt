//! Scripts and their answers, as bytes.
ghost use Rattle.std.specs.Prelude.{◌≡◌, IfSome};
ghost use Rattle.onfi_script.specs.Answer.{IsAnswer};
ghost use Rattle.onfi_script.specs.Auditing.{AnswersAuditBy};
ghost use Rattle.onfi_script.specs.Limit.{IsLimited};
ghost use Rattle.onfi_calls.specs.Text as spec;
ghost use Rattle.onfi_calls.specs.Words.{IsAskLimited};

use crate::room::give;
use crate::status::Status;
use crate::words::{Asked, asked_for};
use onfi_script::{AuditOptions, Command, audit_by, engine};
use std::alloc::Global;

/// The status of an answer that memory ran out.
const MEMORY: u32 = 4;

/// What an input is answered.
#[derive(Drop)]
pub struct Answered {
    pub text: Vec<u8>,
    /// The status that the program `onfi_sim` ends with.
    pub status: u8,
}

/// The answer to a script; nothing where memory ran out.
fn answer_script(alloc: Global, command: Command, input: &[u8]) -> Option<Answered>
    requires limit { IsLimited command }
    ensures { IfSome result (λ a. IsAnswer command input.now (spec.answer_of a)) }
{
    let mut reader = input;
    let mut text = Vec::new(alloc);
    match engine(alloc, command, &mut reader, &mut text) {
        Ok(status) => Some(Answered { text, status }),
        Err(_) => None,
    }
}

/// The answer to a log; nothing where memory ran out.
fn answer_log(alloc: Global, options: AuditOptions, input: &[u8]) -> Option<Answered>
    ensures { IfSome result (λ a. AnswersAuditBy options input.now (spec.answer_of a)) }
{
    match audit_by(alloc, options, input) {
        Ok(answer) => Some(Answered {
            text: answer.text,
            status: answer.status,
        }),
        Err(_) => None,
    }
}

/// The answer that is asked for; nothing where memory ran out.
fn answer_input(alloc: Global, asked: Asked, input: &[u8]) -> Option<Answered>
    requires limit { IsAskLimited asked }
    ensures { IfSome result (λ a. spec.IsAnswerTo asked input.now (spec.answer_of a)) }
{
    match asked {
        Asked::Answer(command) => answer_script(alloc, command, input),
        Asked::Audit(options) => answer_log(alloc, options, input),
    }
}

/// Gives the caller the answer that is asked for.
fn give_answer(
    alloc: Global,
    asked: Asked,
    input: &[u8],
    answer: &mut [u8],
    bytes: &mut usize,
) -> u32
    requires limit { IsAskLimited asked }
    ensures { spec.GivesAnswer asked input.now answer.old answer.new bytes.new result }
{
    match answer_input(alloc, asked, input) {
        Some(answered) => give(
            answered.text.as_slice(),
            u32::from(answered.status),
            answer,
            bytes,
        ),
        None => give(b"memory\n", MEMORY, answer, bytes),
    }
}

/// The words of a command of `onfi_sim` in, with one space between two, and what it would read: a script, with a plan text or a log
/// after it where the command asks for one. Out what the program writes. `bytes` says how many bytes that has. The commands are
/// `plan`, `check` and `audit`, with their options; files, workers, `--quiet` and `--optimum` aren't asked for here.
///
/// Answers the status of that program: 0 for a plan, or where a plan or a log is accepted, 1 where the script is refused, 2 where the plan
/// text, its certificate or the log is, 4 where memory was refused, 6 where as many nodes were opened as may be. 3 where the answer has
/// more bytes than there is room for, and the number of `BadWords` where the words are none: the room is then as it was.
pub fn onfi_text(
    alloc: Global,
    words: &[u8],
    script: &[u8],
    answer: &mut [u8],
    bytes: &mut usize,
) -> u32
    ensures { spec.GivesText words.now script.now answer.old answer.new bytes.new result }
{
    let Some(asked) = asked_for(words) else {
        *bytes = 0;
        return Status::BadWords.number();
    };
    give_answer(alloc, asked, script, answer, bytes)
}
