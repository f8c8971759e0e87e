//! What a line of a log says where statuses are reported.
ghost use Rattle.std.specs.Prelude.{◌≡◌, ◌≤◌, map, IfSome};
ghost use Rattle.onfi_log.specs.Entry as spec;

use crate::line::{LogLine, MOST_START, is_comment, is_word, line_in, number, word, words};
use crate::readies::Readies;

/// What a line of a log says.
#[derive(Clone, Copy, Debug, PartialEq, Eq)]
pub enum LogEntry {
    Phase(LogLine),
    /// The LUN was ready at that moment, in ns, by that sign.
    Ready { lun: u8, moment: u64, sign: Sign },
    /// Nothing that is judged.
    Comment,
}

/// What shows that a LUN is ready.
#[derive(Clone, Copy, Debug, PartialEq, Eq)]
pub enum Sign {
    /// Its status, which is read over the bus.
    Status,
    /// The edge of its ready/busy line, at any moment.
    Edge,
}

impl LogEntry {
    /// The LUN that it is of; 0 of a comment.
    pub(crate) fn lun(&self) -> u8
        ensures { result ≡ spec.lun_in self.now }
    {
        match self {
            LogEntry::Phase(line) => line.phase.lun,
            LogEntry::Ready { lun, .. } => *lun,
            LogEntry::Comment => 0,
        }
    }

    /// How many phases it is.
    pub(crate) fn phases(&self) -> u64
        ensures value { result ≡ spec.phases_in self.now }
        ensures few { result ≤ 1 }
    {
        match self {
            LogEntry::Phase(_) => 1,
            LogEntry::Ready { .. } | LogEntry::Comment => 0,
        }
    }
}

/// Whether a line of that many words is a report.
fn is_report(readies: Readies, count: usize) -> bool
    ensures { result ≡ spec.is_report readies count }
{
    match readies {
        Readies::Stated => false,
        Readies::Reported => count == 3,
    }
}

/// The sign of that name.
fn sign_of(text: &[u8]) -> Option<Sign>
    ensures { result ≡ spec.sign_of text.now }
{
    if is_word(text, "ready") {
        Some(Sign::Status)
    } else if is_word(text, "edge") {
        Some(Sign::Edge)
    } else {
        None
    }
}

/// What a report says.
fn report_in(words: &[&[u8]]) -> Option<LogEntry>
    ensures value { result ≡ spec.report_in (map (λ w. w.now) words.now) }
    ensures range { IfSome result spec.IsInRange }
{
    let moment = number(word(words, 0), MOST_START)?;
    let lun = number(word(words, 1), 7)?;
    let sign = sign_of(word(words, 2))?;
    Some(LogEntry::Ready {
        lun: lun as u8,
        moment,
        sign,
    })
}

/// What a line says, without its line end: a phase as [`read_line`](crate::read_line) has it; a comment, which begins with `#`; or,
/// where reports are taken, `START LUN ready`: at START the LUN's status reported it ready, or `START LUN edge`: its ready/busy line
/// did. Words are parted by single spaces, START is below 2^62 ns and LUN below 8. None where it says nothing.
pub fn read_entry(readies: Readies, line: &[u8]) -> Option<LogEntry>
    ensures value { result ≡ spec.entry_of readies line.now }
    ensures range { IfSome result spec.IsInRange }
{
    if is_comment(line) {
        return Some(LogEntry::Comment);
    }
    let words = words(line)?;
    if is_report(readies, words.len()) {
        return report_in(words.as_slice());
    }
    let line = line_in(words.as_slice())?;
    Some(LogEntry::Phase(line))
}
