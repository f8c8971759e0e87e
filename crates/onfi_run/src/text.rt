//! The text of a report.
ghost use Rattle.std.specs.Prelude.{◌≡◌, ◌++◌, [], ◌∷◌, IfOk, OnOk, string_bytes};
ghost use Rattle.hex.specs.Hex.{encode_upper};
ghost use Rattle.onfi_script.specs.AnswerOf.{answer_of};
ghost use Rattle.onfi_run.specs.Report as spec;

use crate::answers::{Answers, Got};
use crate::bus_use::BusUse;
use crate::channel_end::ChannelEnd;
use crate::clock_report::ClockReport;
use crate::completion::Completion;
use crate::latency::Latency;
use crate::report::Report;
use onfi_core::Cause;
use onfi_request::Answer;
use onfi_script::Answer as Written;
use std::alloc::{AllocError, Global};

/// Appends bytes in hexadecimal to a text.
fn put_hex(alloc: Global, text: &mut String, bytes: &[u8]) -> Result<(), AllocError>
    ensures { OnOk result (string_bytes text.new ≡ string_bytes text.old ++ encode_upper bytes.now) }
{
    let piece = hex::encode_upper(alloc, bytes)?;
    text.push_str(piece.as_str())
}

/// Whether all bytes are that one.
fn are_all(bytes: &[u8], byte: u8) -> bool
    ensures { result ≡ spec.are_all byte bytes.now }
{
    bytes.iter().all(|b| *b == byte)
}

/// Appends a page to a text.
fn put_page(alloc: Global, text: &mut String, page: &[u8]) -> Result<(), AllocError>
    ensures { OnOk result (string_bytes text.new ≡ string_bytes text.old ++ spec.page_text page.now) }
{
    let Some((byte, rest)) = page.split_first() else {
        return Ok(());
    };
    if !are_all(rest, *byte) {
        return put_hex(alloc, text, page);
    }
    text.push_str("*")?;
    put_hex(alloc, text, &page[..1])
}

/// Appends an answer to a text.
fn put_answer(alloc: Global, text: &mut String, answer: &Answer) -> Result<(), AllocError>
    ensures { OnOk result (string_bytes text.new ≡ string_bytes text.old ++ spec.answer_text answer.now) }
{
    match answer {
        Answer::Read(page) => {
            text.push_str("read,")?;
            put_page(alloc, text, page.as_slice())
        }
        Answer::Done => text.push_str("done"),
        Answer::Failed => text.push_str("failed"),
    }
}

/// Appends the moment of a reply to a text, where a clock gives it.
fn put_at(alloc: Global, text: &mut String, clocked: bool, at: u64) -> Result<(), AllocError>
    ensures { OnOk result (string_bytes text.new ≡ string_bytes text.old ++ spec.at_text clocked at) }
{
    if !clocked {
        return Ok(());
    }
    let moment = format!(in alloc; "{at},")?;
    text.push_str(moment.as_str())
}

/// Appends the line of a reply to a text, where it came.
fn put_reply(
    alloc: Global,
    text: &mut String,
    clocked: bool,
    host: usize,
    channel: usize,
    serial: usize,
    completion: &Completion,
) -> Result<(), AllocError>
    ensures { OnOk result (string_bytes text.new ≡ string_bytes text.old ++ spec.reply_line clocked host channel serial completion.now) }
{
    let Some(answer) = &completion.answer else {
        return Ok(());
    };
    let head = format!(in alloc; "reply,{host},{channel},{serial},")?;
    text.push_str(head.as_str())?;
    put_at(alloc, text, clocked, completion.at)?;
    put_answer(alloc, text, answer)?;
    text.push_str("\n")
}

/// Appends what a host got from a channel to a text.
fn put_answers(
    alloc: Global,
    text: &mut String,
    clocked: bool,
    host: usize,
    channel: usize,
    answers: &[Completion],
) -> Result<(), AllocError>
    ensures { OnOk result (string_bytes text.new ≡ string_bytes text.old ++ spec.answers_lines clocked host channel answers.now) }
{
    for (serial, completion) in answers.iter().enumerate() {
        put_reply(alloc, text, clocked, host, channel, serial, completion)?;
    }
    Ok(())
}

/// Appends what a host got to a text.
fn put_got(
    alloc: Global,
    text: &mut String,
    clocked: bool,
    host: usize,
    got: &[Answers],
) -> Result<(), AllocError>
    ensures { OnOk result (string_bytes text.new ≡ string_bytes text.old ++ spec.got_lines clocked host got.now) }
{
    for (channel, answers) in got.iter().enumerate() {
        put_answers(alloc, text, clocked, host, channel, answers.as_slice())?;
    }
    Ok(())
}

/// Appends all replies to a text.
fn put_replies(
    alloc: Global,
    text: &mut String,
    clocked: bool,
    all: &[Got],
) -> Result<(), AllocError>
    ensures { OnOk result (string_bytes text.new ≡ string_bytes text.old ++ spec.reply_lines clocked all.now) }
{
    for (host, got) in all.iter().enumerate() {
        put_got(alloc, text, clocked, host, got.as_slice())?;
    }
    Ok(())
}

/// The line of a channel that stopped.
fn stop_line(alloc: Global, channel: usize, cause: Cause) -> Result<String, AllocError>
    ensures { IfOk result (λ t. string_bytes t ≡ spec.stop_line channel cause) }
{
    match cause {
        Cause::Bus => format!(in alloc; "stopped,{channel},Bus\n"),
        Cause::NotReady(lun) => format!(in alloc; "stopped,{channel},NotReady {lun}\n"),
        Cause::Clock => format!(in alloc; "stopped,{channel},Clock\n"),
    }
}

/// The line of a channel that did not end as it should.
fn end_line(alloc: Global, channel: usize, end: ChannelEnd) -> Result<String, AllocError>
    ensures { IfOk result (λ t. string_bytes t ≡ spec.end_line channel end) }
{
    match end {
        ChannelEnd::Done => Ok(String::new(alloc)),
        ChannelEnd::Stopped(cause) => stop_line(alloc, channel, cause),
        ChannelEnd::Over { opened } => format!(in alloc; "over,{channel},{opened}\n"),
        ChannelEnd::Unfinished => format!(in alloc; "unfinished,{channel}\n"),
    }
}

/// Appends the line of a channel to a text.
fn put_end(
    alloc: Global,
    text: &mut String,
    channel: usize,
    end: &ChannelEnd,
) -> Result<(), AllocError>
    ensures { OnOk result (string_bytes text.new ≡ string_bytes text.old ++ spec.end_line channel end.now) }
{
    let line = end_line(alloc, channel, *end)?;
    text.push_str(line.as_str())
}

/// Appends the lines of channels to a text.
fn put_ends(alloc: Global, text: &mut String, ends: &[ChannelEnd]) -> Result<(), AllocError>
    ensures { OnOk result (string_bytes text.new ≡ string_bytes text.old ++ spec.numbered spec.end_line 0 ends.now) }
{
    for (channel, end) in ends.iter().enumerate() {
        put_end(alloc, text, channel, end)?;
    }
    Ok(())
}

/// Appends the lines of buses to a text.
fn put_buses(alloc: Global, text: &mut String, buses: &[BusUse]) -> Result<(), AllocError>
    ensures { OnOk result (string_bytes text.new ≡ string_bytes text.old ++ spec.numbered spec.bus_line 0 buses.now) }
{
    for (channel, bus) in buses.iter().enumerate() {
        put_bus(alloc, text, channel, bus)?;
    }
    Ok(())
}

/// Appends the line of a bus to a text.
fn put_bus(alloc: Global, text: &mut String, channel: usize, bus: &BusUse) -> Result<(), AllocError>
    ensures { OnOk result (string_bytes text.new ≡ string_bytes text.old ++ spec.bus_line channel bus.now) }
{
    let busy = bus.busy;
    let until = bus.until;
    let line = format!(in alloc; "bus,{channel},{busy},{until}\n")?;
    text.push_str(line.as_str())
}

/// Appends the line of a kind to a text, where it has replies.
fn put_latency(
    alloc: Global,
    text: &mut String,
    kind: &str,
    latency: Option<Latency>,
) -> Result<(), AllocError>
    ensures { OnOk result (string_bytes text.new ≡ string_bytes text.old ++ spec.latency_line kind.now latency) }
{
    let Some(latency) = latency else {
        return Ok(());
    };
    let count = latency.count;
    let mean = latency.mean;
    let most = latency.most_of_99;
    let line = format!(in alloc; "latency,{kind},{count},{mean},{most}\n")?;
    text.push_str(line.as_str())
}

/// Appends the lines of a clock to a text, where there is one.
fn put_clock(
    alloc: Global,
    text: &mut String,
    clock: &Option<ClockReport>,
) -> Result<(), AllocError>
    ensures { OnOk result (string_bytes text.new ≡ string_bytes text.old ++ spec.clock_lines clock.now) }
{
    let Some(clock) = clock else {
        return Ok(());
    };
    put_buses(alloc, text, clock.buses.as_slice())?;
    put_latency(alloc, text, "read", clock.reads)?;
    put_latency(alloc, text, "program", clock.programs)?;
    put_latency(alloc, text, "erase", clock.erases)
}

/// Whether the channel stopped or was left unfinished.
fn is_cut_short(end: ChannelEnd) -> bool
    ensures { result ≡ spec.is_cut_short end }
{
    matches!(end, ChannelEnd::Stopped(_) | ChannelEnd::Unfinished)
}

/// Whether the channel was over.
fn is_over(end: ChannelEnd) -> bool
    ensures { result ≡ spec.is_over end }
{
    matches!(end, ChannelEnd::Over { .. })
}

/// Whether a channel stopped or was left unfinished.
fn is_any_cut_short(ends: &[ChannelEnd]) -> bool
    ensures { result ≡ spec.is_any_cut_short ends.now }
{
    ends.iter().any(|end| is_cut_short(*end))
}

/// Whether a channel was over.
fn is_any_over(ends: &[ChannelEnd]) -> bool
    ensures { result ≡ spec.is_any_over ends.now }
{
    ends.iter().any(|end| is_over(*end))
}

/// The status of a report.
fn status_of(short_of_memory: bool, ends: &[ChannelEnd]) -> u8
    ensures { result ≡ spec.status_of short_of_memory ends.now }
{
    if short_of_memory {
        4
    } else if is_any_cut_short(ends) {
        3
    } else if is_any_over(ends) {
        6
    } else {
        0
    }
}

/// The last line of a report.
fn closing_line(short_of_memory: bool) -> &'static str
    ensures { result.now ≡ spec.closing_line short_of_memory }
{
    if short_of_memory {
        "memory\n"
    } else {
        "closed\n"
    }
}

/// What is written of a report: its replies by host, channel and serial, with their moments where the run has a clock; a
/// line for each channel that stopped, was over or was left unfinished; the lines of the clock; and `closed`, or `memory`
/// where memory was refused on the way.
///
/// # Errors
/// Where memory was refused.
pub fn report_answer(alloc: Global, report: &Report) -> Result<Written, AllocError>
    ensures { IfOk result (λ a. answer_of a ≡ spec.report_answer report.now) }
{
    let mut text = String::new(alloc);
    put_replies(alloc, &mut text, report.clock.is_some(), &report.got)?;
    put_ends(alloc, &mut text, report.ends.as_slice())?;
    put_clock(alloc, &mut text, &report.clock)?;
    text.push_str(closing_line(report.short_of_memory))?;
    let status = status_of(report.short_of_memory, report.ends.as_slice());
    Ok(Written::of(text.into_bytes(), status))
}
