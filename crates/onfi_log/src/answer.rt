//! The texts of answers.
ghost use Rattle.std.specs.Prelude.{◌≡◌, ◌++◌, string_bytes, IfOk, OnOk};
ghost use Rattle.onfi_log.specs.Text as spec;

use crate::breach::LineBreach;
use crate::bytes::{closer_word, opener_word};
use onfi_audit::LogBreach;
use std::alloc::{AllocError, Global};

/// What is to be written, and the status that goes with it: 0 where the log is legal, else 2.
#[derive(Drop)]
pub struct LogAnswer {
    pub text: Vec<u8>,
    pub status: u8,
}

fn part_word(is_post: bool) -> &'static str
    ensures { result.now ≡ spec.part_word is_post }
{
    if is_post { "post" } else { "cmd" }
}

/// The condition that a line of that LUN breaks.
fn condition(alloc: Global, lun: u8, breach: LogBreach) -> Result<String, AllocError>
    ensures { IfOk result (λ s. string_bytes s ≡ spec.condition lun breach) }
{
    match breach {
        LogBreach::TooLate => String::from_str(alloc, "TooLate"),
        LogBreach::NoLun { lun } => format!(in alloc; "NoLun {lun}"),
        LogBreach::NothingRuns { lun } => format!(in alloc; "NothingRuns {lun}"),
        LogBreach::OtherPhase {
            lun,
            is_post,
            block,
            page,
        } => {
            let part = part_word(is_post);
            format!(in alloc; "OtherPhase {lun} {part} {block} {page}")
        }
        LogBreach::UnknownRequest { lun, block } => {
            format!(in alloc; "UnknownRequest {lun} {block}")
        }
        LogBreach::BlockOrder { earlier, later } => {
            format!(in alloc; "BlockOrder {earlier} {later}")
        }
        LogBreach::NotGrouped { .. } => format!(in alloc; "NotGrouped {lun}"),
        LogBreach::BusNotFree { start, bus_free } => {
            format!(in alloc; "BusNotFree {start} {bus_free}")
        }
        LogBreach::LunNotFree { lun, start, since } => {
            format!(in alloc; "LunNotFree {lun} {start} {since}")
        }
        LogBreach::NotReady { lun, start, ready } => {
            format!(in alloc; "NotReady {lun} {start} {ready}")
        }
    }
}

/// .. or a field of it, with what stands there and what the phase has.
fn breach_word(alloc: Global, lun: u8, breach: LineBreach) -> Result<String, AllocError>
    ensures { IfOk result (λ s. string_bytes s ≡ spec.breach_word lun breach) }
{
    match breach {
        LineBreach::Condition(breach) => condition(alloc, lun, breach),
        LineBreach::NotClosed { lun } => format!(in alloc; "NotClosed {lun}"),
        LineBreach::OtherEnd { end, ends } => format!(in alloc; "OtherEnd {end} {ends}"),
        LineBreach::OtherBytes {
            operation,
            is_post,
            is_last,
        } => {
            let opener = opener_word(operation, is_post);
            let closer = closer_word(operation, is_post, is_last);
            format!(in alloc; "OtherBytes {opener} {closer}")
        }
    }
}

/// Appends the line of what line `number` of a log breaks.
pub(crate) fn put_breach(
    alloc: Global,
    found: &mut String,
    number: u64,
    lun: u8,
    breach: LineBreach,
) -> Result<(), AllocError>
    ensures { OnOk result (string_bytes found.new ≡ string_bytes found.old ++ spec.breach_text number lun breach) }
{
    let word = breach_word(alloc, lun, breach)?;
    let line = format!(in alloc; "illegal {number} {word}\n")?;
    found.push_str(line.as_str())
}

/// Lines of conditions that are broken.
pub(crate) fn answer_broken(found: String) -> LogAnswer
    ensures { spec.answer_of result ≡ spec.broken (string_bytes found) }
{
    LogAnswer {
        text: found.into_bytes(),
        status: 2,
    }
}

/// .. before line `number`, which says nothing.
pub(crate) fn answer_wrong(
    alloc: Global,
    mut found: String,
    number: u64,
) -> Result<LogAnswer, AllocError>
    ensures { IfOk result (λ a. spec.answer_of a ≡ spec.wrong number (string_bytes found)) }
{
    let line = format!(in alloc; "refused log {number}\n")?;
    found.push_str(line.as_str())?;
    Ok(answer_broken(found))
}

/// Of a legal log whose phases may come too soon, by how much one did at most.
fn write_used(alloc: Global, used: Option<u64>) -> Result<String, AllocError>
    ensures { IfOk result (λ s. string_bytes s ≡ spec.used_text used) }
{
    match used {
        None => Ok(String::new(alloc)),
        Some(early) => format!(in alloc; "used {early}\n"),
    }
}

/// .. where the log ends after so many phases.
fn write_end(
    alloc: Global,
    found: String,
    phases: u64,
    used: Option<u64>,
) -> Result<LogAnswer, AllocError>
    ensures { IfOk result (λ a. spec.answer_of a ≡ spec.ended_by phases used (string_bytes found)) }
{
    if !found.is_empty() {
        return Ok(answer_broken(found));
    }
    let used = write_used(alloc, used)?;
    let text = format!(in alloc; "legal {phases}\n{used}")?;
    Ok(LogAnswer {
        text: text.into_bytes(),
        status: 0,
    })
}

/// .. where the log ends after so many phases, the soonest of which came too soon by what was used of a tolerance, and `last`, which has
/// no line end and would be line `number`.
pub(crate) fn answer_end(
    alloc: Global,
    found: String,
    number: u64,
    phases: u64,
    used: Option<u64>,
    last: &[u8],
) -> Result<LogAnswer, AllocError>
    ensures { IfOk result (λ a. spec.answer_of a ≡ spec.ended number phases used (string_bytes found) last.now) }
{
    if last.is_empty() {
        write_end(alloc, found, phases, used)
    } else {
        answer_wrong(alloc, found, number)
    }
}
