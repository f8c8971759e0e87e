//! What a trial reads: rows of a word, and of numbers after it.

use crate::ended::Ended;
use csv::ByteRecord;
use onfi_timing::{Kind, read_number, read_records};
use std::alloc::{AllocError, Global};
use std::io::{ErrorKind, Input, Read};

/// What a row begins with.
#[derive(Clone, Copy)]
pub(crate) enum Word {
    /// Programs and erases of several planes go one by one.
    Apart,
    /// Each phase and each wait of the device is as long as may be.
    Longest,
    /// Pages have four sectors.
    Sectored,
    /// Phases run as the next phase says.
    ByNext,
    /// Which planner plans.
    Remembering,
    Best,
    /// LUN, block and number of a program or erase that fails.
    Fault,
    /// The number of a call of the chip that fails.
    ChipFail,
    /// The number of a status that says that a LUN isn't ready.
    NotReady,
    /// LUN, number of an operation of its array, and how long that really takes.
    Array,
    /// Channels, hosts, batch, the room of a submission queue and of a completion queue, limit, and the channel.
    Open,
    /// LUN, block, page, the byte of each of a program's, host and channel; of a read of sectors the first in place of the byte,
    /// and at the end how many.
    Submit(Kind),
    /// Of these the channel.
    Accept,
    Plan,
    Bus,
    /// A moment.
    Wait,
    /// A LUN.
    Ready,
    /// Of these the host.
    Post,
    Collect,
    /// How many wants a plan has.
    Batch,
    /// What is reported of the last plan.
    Last,
    Turn,
    /// A moment.
    TurnAt,
    Turns,
    Unanswered,
    /// How many turns.
    Drain,
    /// How many turns, and a moment.
    DrainAt,
    /// How many times more the row before it is played.
    Again,
    /// None of these.
    Unknown,
}

impl Word {
    fn of(text: &str) -> Word {
        match text {
            "apart" => Word::Apart,
            "longest" => Word::Longest,
            "sectored" => Word::Sectored,
            "by-next" => Word::ByNext,
            "remembering" => Word::Remembering,
            "best" => Word::Best,
            "fault" => Word::Fault,
            "chipfail" => Word::ChipFail,
            "notready" => Word::NotReady,
            "array" => Word::Array,
            "open" => Word::Open,
            text => Word::of_act(text),
        }
    }

    fn of_act(text: &str) -> Word {
        match text {
            "read" => Word::Submit(Kind::Read),
            "program" => Word::Submit(Kind::Program),
            "erase" => Word::Submit(Kind::Erase),
            "sectors" => Word::Submit(Kind::ReadSectors { first: 0, count: 0 }),
            "accept" => Word::Accept,
            "plan" => Word::Plan,
            "bus" => Word::Bus,
            "wait" => Word::Wait,
            "ready" => Word::Ready,
            "post" => Word::Post,
            "collect" => Word::Collect,
            "batch" => Word::Batch,
            "last" => Word::Last,
            "turn" => Word::Turn,
            "turn-at" => Word::TurnAt,
            "turns" => Word::Turns,
            "unanswered" => Word::Unanswered,
            "drain" => Word::Drain,
            "drain-at" => Word::DrainAt,
            "again" => Word::Again,
            _ => Word::Unknown,
        }
    }

    /// The word with the sectors that its numbers name.
    fn with_sectors(self, numbers: &[u64; 7]) -> Word {
        match self {
            Word::Submit(Kind::ReadSectors { .. }) => Word::Submit(Kind::ReadSectors {
                first: cap_u8(numbers[3]),
                count: cap_u8(numbers[6]),
            }),
            word => word,
        }
    }
}

/// A row; a number that doesn't stand there is 0.
#[derive(Clone, Copy)]
pub(crate) struct Row {
    pub(crate) word: Word,
    pub(crate) numbers: [u64; 7],
}

/// The number, or the greatest of its type where it is greater.
pub(crate) fn cap_u8(number: u64) -> u8 {
    number.min(255) as u8
}

pub(crate) fn cap_u16(number: u64) -> u16 {
    number.min(65_535) as u16
}

pub(crate) fn cap_u32(number: u64) -> u32 {
    number.min(4_294_967_295) as u32
}

fn word_of(field: Option<&[u8]>) -> Word {
    match std::str::from_utf8(field.unwrap_or(b"")) {
        Ok(text) => Word::of(text),
        Err(_) => Word::Unknown,
    }
}

fn number_of(field: Option<&[u8]>) -> u64 {
    match field {
        Some(digits) => read_number(digits).unwrap_or(0),
        None => 0,
    }
}

/// All of standard input.
pub(crate) fn read_input(rt: &impl Input, alloc: Global) -> Result<Vec<u8>, Ended> {
    let mut text = Vec::new(alloc);
    match rt.reader().read_to_end(&mut text) {
        Ok(_) => Ok(text),
        Err(fault) if fault.kind() == ErrorKind::OutOfMemory => Err(Ended::Memory),
        Err(_) => Err(Ended::NoTrial),
    }
}

fn row_of(record: &ByteRecord) -> Row {
    let mut numbers = [0; 7];
    for at in 0..7usize {
        numbers[at] = number_of(record.get(at + 1));
    }
    Row {
        word: word_of(record.get(0)).with_sectors(&numbers),
        numbers,
    }
}

/// The rows of a text.
pub(crate) fn rows_in(alloc: Global, text: &[u8]) -> Result<Vec<Row>, AllocError> {
    let mut rows = Vec::new(alloc);
    for record in &read_records(alloc, text)? {
        rows.push(row_of(record))?;
    }
    Ok(rows)
}

/// The rows of standard input.
pub(crate) fn read_rows(rt: &impl Input, alloc: Global) -> Result<Vec<Row>, Ended> {
    let text = read_input(rt, alloc)?;
    Ok(rows_in(alloc, text.as_slice())?)
}
