//! Why a line of a log isn't legal, or is none.
use crate::cautions::plane_bits_in;
use crate::escaping::escape_bytes;
use crate::guess::guess;
use crate::input::{Input, line_at, line_start, lines_in, word_at};
use crate::judged::text_after;
use crate::lines::has_two_blanks;
use onfi_log::{LogLine, is_comment, read_line};
use onfi_timing::{Operation, read_number};
use std::alloc::{AllocError, Global};

/// Of so many lines of an answer a message is said.
const MOST_SAID: usize = 10;

/// The message beside the answer to a log; none where the log is legal.
///
/// # Errors
/// Where memory was refused.
pub fn describe_log(
    alloc: Global,
    input: &Input<'_>,
    answer: &[u8],
) -> Result<Option<String>, AllocError> {
    let mut said = String::new(alloc);
    for line in answer.split(|byte| *byte == b'\n').take(MOST_SAID) {
        push_line(alloc, &mut said, input, line)?;
    }
    let further = lines_in(answer).saturating_sub(MOST_SAID);
    if !said.is_empty() && further > 0 {
        let more = format!(in alloc; "onfi_sim: .. and {further} further lines\n")?;
        said.push_str(more.as_str())?;
    }
    Ok(if said.is_empty() { None } else { Some(said) })
}

/// Appends what is to be said of a line of an answer.
fn push_line(
    alloc: Global,
    said: &mut String,
    input: &Input<'_>,
    line: &[u8],
) -> Result<(), AllocError> {
    let line = std::str::from_utf8(line).unwrap_or("");
    let told = if word_at(line, 0) == "illegal" {
        describe_illegal(alloc, input, line)?
    } else if line.starts_with("refused log ") {
        describe_unread(alloc, input, number_at(line, 2))?
    } else {
        return Ok(());
    };
    said.push_str(told.as_str())
}

/// A number in the words of a line, counted from 0; 0 where there is none.
fn number_at(line: &str, at: usize) -> u64 {
    read_number(word_at(line, at).as_bytes()).unwrap_or(0)
}

/// The file, the line and the text of a line of the log, counted from 1.
fn place_of(
    alloc: Global,
    input: &Input<'_>,
    text: &[u8],
    number: usize,
) -> Result<String, AllocError> {
    let above = number.saturating_sub(1);
    let before = input.text.len().saturating_sub(text.len());
    let (name, line) = input.place(before.saturating_add(line_start(text, above)));
    let found = escape_bytes(alloc, line_at(text, above))?;
    format!(in alloc; "{name}:{line}: '{found}'")
}

/// The last phase before a line, of a LUN where one is named: its line, counted from 1.
fn find_before(text: &[u8], number: usize, lun: Option<u64>) -> Option<usize> {
    let above = number.saturating_sub(1);
    let mut last = None;
    for (at, line) in text.split(|byte| *byte == b'\n').take(above).enumerate() {
        if is_phase_of(line, lun) {
            last = Some(at.saturating_add(1));
        }
    }
    last
}

/// Whether a line is a phase, of a LUN where one is named.
fn is_phase_of(line: &[u8], lun: Option<u64>) -> bool {
    match (read_line(line), lun) {
        (Some(line), Some(lun)) => u64::from(line.phase.lun) == lun,
        (found, None) => found.is_some(),
        (None, Some(_)) => false,
    }
}

/// What is said of `illegal LINE CONDITION ..`, with the line that came before it.
fn describe_illegal(alloc: Global, input: &Input<'_>, line: &str) -> Result<String, AllocError> {
    let text = text_after(input);
    let number = number_at(line, 1) as usize;
    let place = place_of(alloc, input, text, number)?;
    let what = describe_condition(alloc, input, text, line)?;
    let lun = lun_of(text, number, line);
    match find_before(text, number, lun) {
        Some(before) => {
            let before = place_of(alloc, input, text, before)?;
            format!(in alloc; "onfi_sim: {place}: {what}\n  after: {before}\n")
        }
        None => format!(in alloc; "onfi_sim: {place}: {what}\n"),
    }
}

/// The LUN whose last phase a condition looks back to; none where that is the bus.
fn lun_of(text: &[u8], number: usize, line: &str) -> Option<u64> {
    if word_at(line, 2) == "BusNotFree" {
        return None;
    }
    let found = read_line(line_at(text, number.saturating_sub(1)))?;
    Some(u64::from(found.phase.lun))
}

/// What a condition says.
fn describe_condition(
    alloc: Global,
    input: &Input<'_>,
    text: &[u8],
    line: &str,
) -> Result<String, AllocError> {
    let (a, b, c) = (word_at(line, 3), word_at(line, 4), word_at(line, 5));
    match word_at(line, 2) {
        "BusNotFree" => describe_soon(
            alloc,
            "the bus is free",
            number_at(line, 3),
            number_at(line, 4),
        ),
        "LunNotFree" => {
            let what = format!(in alloc; "LUN {a} is free")?;
            describe_soon(alloc, what.as_str(), number_at(line, 4), number_at(line, 5))
        }
        "NotReady" => {
            let what = format!(in alloc; "LUN {a} is ready for it")?;
            describe_soon(alloc, what.as_str(), number_at(line, 4), number_at(line, 5))
        }
        "OtherPhase" => {
            let part = if b == "post" { "post" } else { "command" };
            let page = word_at(line, 6);
            format!(in alloc;
                "LUN {a} has the {part} of block {c}, page {page} next, which isn't in the log before this line"
            )
        }
        "NotGrouped" => describe_apart(alloc, input, text, line),
        _ => describe_other(alloc, line),
    }
}

/// .. where it isn't one of time or of another phase.
fn describe_other(alloc: Global, line: &str) -> Result<String, AllocError> {
    let (a, b) = (word_at(line, 3), word_at(line, 4));
    match word_at(line, 2) {
        "NoLun" => format!(in alloc; "the channel has no LUN {a}; they count from 0"),
        "NothingRuns" => format!(in alloc;
            "LUN {a} runs nothing that this post is of: its command isn't in the log, or it has had its post"
        ),
        "UnknownRequest" => format!(in alloc; "no such request waits for block {b} of LUN {a}"),
        "BlockOrder" => format!(in alloc;
            "request {b} begins before request {a}, which comes first on its block"
        ),
        "OtherEnd" => format!(in alloc; "it ends at {b} ns, and not at {a}"),
        "OtherBytes" => format!(in alloc; "such a phase has the command bytes {a} and {b}"),
        "NotClosed" => format!(in alloc;
            "the closer of LUN {a}'s last command says that another plane's command comes"
        ),
        name => String::from_str(alloc, name),
    }
}

/// What is free or ready only later.
fn describe_soon(alloc: Global, what: &str, start: u64, from: u64) -> Result<String, AllocError> {
    let early = from.saturating_sub(start);
    format!(in alloc; "it starts at {start} ns, and {what} from {from} ns on: {early} ns too soon")
}

/// Why a command makes no group with those before it on its LUN.
fn describe_apart(
    alloc: Global,
    input: &Input<'_>,
    text: &[u8],
    line: &str,
) -> Result<String, AllocError> {
    let lun = word_at(line, 3);
    let number = number_at(line, 1) as usize;
    let now = read_line(line_at(text, number.saturating_sub(1)));
    let before = find_before(text, number, Some(number_at(line, 3)));
    let before = before.and_then(|before| read_line(line_at(text, before.saturating_sub(1))));
    let cause = match (before, now) {
        (Some(before), Some(now)) => apart_cause(plane_bits_in(alloc, input), &before, &now),
        _ => "it makes no group with the commands before it",
    };
    format!(in alloc; "LUN {lun} has given commands and is busy up to their posts: {cause}")
}

/// What keeps two commands out of one group, of planes that so many bits number.
fn apart_cause(plane_bits: Option<u8>, before: &LogLine, now: &LogLine) -> &'static str {
    let (first, second) = (&before.phase, &now.phase);
    let planes = match plane_bits {
        Some(0) | None => 1u16,
        Some(1) => 2,
        Some(_) => 4,
    };
    if first.operation != second.operation {
        "this is another operation"
    } else if first.page != second.page && first.operation != Operation::Erase {
        "this is of another page"
    } else if plane_bits.is_some() && first.block % planes == second.block % planes {
        "this is of a plane that has its command already"
    } else if plane_bits.is_some() && first.block % planes > second.block % planes {
        "its plane is below that of the command before it, and planes rise"
    } else {
        "the device doesn't take these blocks as one group"
    }
}

/// What is said of `refused log LINE`.
fn describe_unread(alloc: Global, input: &Input<'_>, number: u64) -> Result<String, AllocError> {
    let text = text_after(input);
    let number = number as usize;
    let place = place_of(alloc, input, text, number)?;
    let above = number.saturating_sub(1);
    let rest = text.get(line_start(text, above)..).unwrap_or(b"");
    let cause = match guess(text) {
        Some(other) if number <= 1 => other.log_text(),
        _ => None,
    };
    let cause = cause.unwrap_or(unread_cause(rest));
    format!(in alloc;
        "onfi_sim: {place}: {cause}\n  expected: START LUN KIND PART BLOCK PAGE [REQUEST], or a line of 'plan --trace'\n"
    )
}

/// Why the line that a text begins with says nothing.
fn unread_cause(rest: &[u8]) -> &'static str {
    let line = line_at(rest, 0);
    let ended = lines_in(rest) > 0;
    if !ended && (read_line(line).is_some() || is_comment(line)) {
        "no line end stands after it"
    } else if line.is_empty() {
        "the line is empty; a comment begins with '#'"
    } else if line.ends_with(b"\r") {
        "the line ends with CR LF; it ends with LF alone"
    } else if line.starts_with(b" ") {
        "a blank stands before the line; leave it out"
    } else if line.ends_with(b" ") {
        "a blank stands at the end of the line; leave it out"
    } else if has_two_blanks(line) {
        "two blanks stand side by side; write one"
    } else if line.iter().any(|byte| *byte == b'#') {
        "a comment stands on a line of its own, which begins with '#'"
    } else if line.iter().any(|byte| *byte == b'\t') {
        "a tab stands between words; write a blank"
    } else {
        word_cause(std::str::from_utf8(line).unwrap_or(""))
    }
}

/// .. by its words.
fn word_cause(line: &str) -> &'static str {
    let count = line.split(' ').count();
    if count == 3 {
        return report_cause(line);
    }
    let at = match count {
        6 | 7 => 1usize,
        9 | 10 => 2,
        _ => return "it has another number of words: 6 or 7, or with END and command bytes 9 or 10",
    };
    match (
        word_at(line, at.saturating_add(1)),
        word_at(line, at.saturating_add(2)),
    ) {
        ("read" | "program" | "erase", "cmd" | "post") => number_cause(line, at),
        ("read" | "program" | "erase", _) =>
            "its PART is none of 'cmd' and 'post', in small letters",
        _ => "its KIND is none of 'read', 'program' and 'erase', in small letters",
    }
}

/// .. of three words.
fn report_cause(line: &str) -> &'static str {
    match word_at(line, 2) {
        "ready" | "edge" if is_number(word_at(line, 0), 62) && is_lun(word_at(line, 1)) =>
            "'--ready-by-status' takes lines that say when a LUN is ready",
        "ready" | "edge" => "a LUN is ready at START, digits alone below 2^62, and is 0 to 7",
        _ => "its third word is none of 'ready' and 'edge'",
    }
}

/// Whether a word is a number below 2 to the bits.
fn is_number(word: &str, bits: u32) -> bool {
    match read_number(word.as_bytes()) {
        Some(number) => number.leading_zeros() >= 64u32.saturating_sub(bits),
        None => false,
    }
}

/// Whether a word is the number of a LUN.
fn is_lun(word: &str) -> bool {
    is_number(word, 3)
}

/// .. by its numbers, where LUN stands there.
fn number_cause(line: &str, at: usize) -> &'static str {
    if word_at(line, 0).contains(".") {
        "START has a fraction; times are whole ns"
    } else if !is_number(word_at(line, 0), 62) {
        "START is no number below 2^62, digits alone"
    } else if !is_lun(word_at(line, at)) {
        "its LUN is no number from 0 to 7"
    } else if !is_number(word_at(line, at.saturating_add(3)), 16) {
        "its BLOCK is no number from 0 to 65535"
    } else if !is_number(word_at(line, at.saturating_add(4)), 12) {
        "its PAGE is no number from 0 to 4095"
    } else if at == 2 && !is_number(word_at(line, 1), 63) {
        "END is no number below 2^63, digits alone"
    } else {
        "its REQUEST is no number below 2^63, and not '-'"
    }
}
