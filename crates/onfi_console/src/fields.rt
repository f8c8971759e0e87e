//! What may stand in the fields of rows.
use csv::ByteRecord;
use onfi_timing::read_number;

/// What a field may be.
#[derive(Clone, Copy)]
pub enum Range {
    /// A number, from the first to the second.
    Number(u64, u64),
    /// A kind of operation.
    Kind,
}

/// A field of a row: what it is called, what may stand in it, and how that is said.
#[derive(Clone, Copy)]
pub struct FieldRange {
    pub name: &'static str,
    pub range: Range,
    pub told: &'static str,
}

impl FieldRange {
    /// Whether a text may stand in it.
    fn takes(&self, text: &[u8]) -> bool {
        match self.range {
            Range::Number(least, most) => match read_number(text) {
                Some(number) => least <= number && number <= most,
                None => false,
            },
            Range::Kind => {
                text == b"read".as_slice()
                    || text == b"program".as_slice()
                    || text == b"erase".as_slice()
            }
        }
    }
}

/// A field of numbers in a range.
fn number(name: &'static str, least: u64, most: u64, told: &'static str) -> Option<FieldRange> {
    let range = Range::Number(least, most);
    Some(FieldRange { name, range, told })
}

const MOST_LENGTH: u64 = (1 << 50) - 1;

const MOST_TIME: u64 = (1 << 62) - 1;

/// A length in ns.
fn length(name: &'static str) -> Option<FieldRange> {
    number(name, 0, MOST_LENGTH, "0 to 2^50 - 1 ns")
}

/// A length in ns that isn't 0.
fn some_length(name: &'static str) -> Option<FieldRange> {
    number(name, 1, MOST_LENGTH, "1 to 2^50 - 1 ns")
}

/// A time in ns.
fn time(name: &'static str) -> Option<FieldRange> {
    number(name, 0, MOST_TIME, "0 to 2^62 - 1 ns")
}

/// A flag.
fn flag(name: &'static str) -> Option<FieldRange> {
    number(name, 0, 1, "0 or 1")
}

/// A kind of operation.
fn kind() -> Option<FieldRange> {
    Some(FieldRange {
        name: "KIND",
        range: Range::Kind,
        told: "read, program or erase",
    })
}

fn lun() -> Option<FieldRange> {
    number("LUN", 0, 7, "0 to 7")
}

fn block() -> Option<FieldRange> {
    number("BLOCK", 0, 65_535, "0 to 65535")
}

fn page() -> Option<FieldRange> {
    number("PAGE", 0, 4_095, "0 to 4095")
}

/// A host or a channel.
fn end(name: &'static str) -> Option<FieldRange> {
    number(name, 0, 3, "0 to 3")
}

/// The number of a call or an operation.
fn call(name: &'static str) -> Option<FieldRange> {
    number(name, 0, 4_294_967_295, "0 to 2^32 - 1")
}

/// The field at a place, counted from 0, of a row of a device or a problem.
fn problem_field(row: &str, at: usize) -> Option<FieldRange> {
    match (row, at) {
        ("shape", 1) => number("LUNS", 1, 8, "1 to 8"),
        ("shape", 2) => number("PLANEBITS", 0, 2, "0 to 2"),
        ("shape", 3) => flag("READ"),
        ("shape", 4) => flag("WRITE"),
        ("spans", 1) | ("running", 4) | ("want", 1) => kind(),
        ("spans", 2) => some_length("CMD"),
        ("spans", 3) => length("GAP"),
        ("spans", 4) => length("ARRAY"),
        ("spans", 5) => some_length("POST"),
        ("bus", 1) | ("free", 2) => time("T"),
        ("free", 1) | ("running", 1) | ("want", 2) => lun(),
        ("running", 2) => number("NEXT", 0, 7, "0 to 7"),
        ("running", 3) => time("READY"),
        ("running", 5) | ("want", 4) => page(),
        ("running", 6..=9) | ("want", 3) => block(),
        ("weight", 1) => number("REQUEST", 0, 7, "0 to 7"),
        ("weight", 2) => number("N", 1, 65_535, "1 to 65535"),
        ("sectorpost", 1) => number("N", 1, 7, "1 to 7"),
        ("sectorpost", 2) => some_length("POST"),
        ("sector", 1) => number("BYTES", 1, 65_535, "1 to 65535"),
        ("sectors", 1) => number("REQUEST", 0, 7, "0 to 7"),
        ("runsectors", 1) => lun(),
        ("sectors", 2) | ("runsectors", 2..=5) => number("N", 0, 7, "0 to 7"),
        ("strict", 1) => flag("FLAG"),
        ("sheet", 2) => number("VALUE", 0, 4_294_967_295, "0 to 2^32 - 1 ns"),
        ("strobe", 2) => number("PS", 0, 4_294_967_295, "0 to 2^32 - 1 ps"),
        _ => None,
    }
}

/// The field at a place, counted from 0, of a row that `run` alone takes.
fn run_field(row: &str, at: usize) -> Option<FieldRange> {
    match (row, at) {
        ("channels" | "hosts", 1) => number("N", 1, 4, "1 to 4"),
        ("batch", 1) => number("N", 1, 8, "1 to 8"),
        ("submitcap" | "postcap", 1) => number("N", 1, 1_024, "1 to 1024"),
        ("op" | "opread", 1) => end("HOST"),
        ("op" | "opread", 2) | ("fault" | "chipfail" | "notready" | "array", 1) => end("CHANNEL"),
        ("op", 3) => kind(),
        ("op", 4) | ("opread", 3) | ("fault" | "array", 2) => lun(),
        ("op", 5) | ("opread", 4) | ("fault", 3) => block(),
        ("op", 6) | ("opread", 5) => page(),
        ("opread", 6) => number("FIRST", 0, 255, "0 to 255"),
        ("opread", 7) => number("COUNT", 1, 7, "1 to 7"),
        ("fault", 4) | ("chipfail" | "notready", 2) => call("N"),
        ("array", 3) => call("NUMBER"),
        ("array", 4) => length("NS"),
        ("at", 1) => time("NS"),
        ("geometry", 1) => number("BLOCKS", 1, 65_536, "1 to 65536"),
        ("geometry", 2) => number("PAGES", 1, 4_096, "1 to 4096"),
        ("geometry", 3) => number("BYTES", 1, 65_535, "1 to 65535"),
        ("geometry", 4) => flag("ANYORDER"),
        _ => None,
    }
}

/// A field of a record, counted from 0; nothing where it has fewer.
pub fn field(record: &ByteRecord, at: usize) -> &[u8] {
    record.get(at).unwrap_or(b"")
}

/// The field at a place, counted from 0, of a row of this name.
fn field_of(row: &[u8], at: usize) -> Option<FieldRange> {
    match std::str::from_utf8(row) {
        Ok(row) => problem_field(row, at).or(run_field(row, at)),
        Err(_) => None,
    }
}

/// The first field of a row in which something else stands than may, and what that is.
pub fn find_wrong_field(record: &ByteRecord) -> Option<(FieldRange, &[u8])> {
    let row = field(record, 0);
    for at in 1..record.len() {
        match field_of(row, at) {
            Some(found) if !found.takes(field(record, at)) => {
                return Some((found, field(record, at)));
            }
            _ => {}
        }
    }
    None
}

/// The number in the field of a row that is called so.
pub fn read_named_number(record: &ByteRecord, name: &str) -> Option<u64> {
    let row = field(record, 0);
    for at in 1..record.len() {
        match field_of(row, at) {
            Some(found) if found.name == name => return read_number(field(record, at)),
            _ => {}
        }
    }
    None
}

/// Whether one of the fields of a row that are called so has a number of `count` or more.
pub fn number_beyond(record: &ByteRecord, name: &str, count: u64) -> bool {
    let row = field(record, 0);
    (1..record.len()).any(|at| match (field_of(row, at), read_number(field(record, at))) {
        (Some(found), Some(number)) => found.name == name && number >= count,
        _ => false,
    })
}

/// Why a text is no number.
pub fn number_fault(text: &[u8]) -> &'static str {
    let is_blank = |byte: &u8| *byte == b' ' || *byte == b'\t';
    if text.is_empty() {
        "nothing stands there"
    } else if text.iter().any(|byte| *byte == b'.') {
        "a fraction isn't taken; round it to a whole number"
    } else if text.iter().any(is_blank) {
        "a blank stands in it"
    } else if text.starts_with(b"+") || text.starts_with(b"-") {
        "a sign isn't taken"
    } else if text.iter().any(|byte| byte.is_ascii_digit()) {
        "digits alone are taken, no unit"
    } else {
        "digits alone are taken"
    }
}
