//! The rows of a device: its shape and lengths, or the bytes of its page with its sheet and its strobes.
ghost use Rattle.std.specs.Prelude.{◌≡◌, ◌≤◌};
ghost use Rattle.csv.specs.Records.{fields_of};
ghost use Rattle.onfi_timing.specs.Lengths.{AreLengths};
ghost use Rattle.onfi_script.specs.Row as spec;
ghost use Rattle.onfi_script.specs.Stop.{Gives, IfFault};
ghost use Rattle.onfi_script.specs.Device.{HasLengths};

use crate::fault::{RowStop, ScriptFault};
use crate::field::{field, flag, hex_bytes, kind, read_small, read_span};
use crate::row::Row;
use csv::ByteRecord;
use onfi_timing::{Kind, Sheet, Spans, Strobes};
use std::alloc::Global;
use std::marker::Model;

/// How many LUNs there are, 1 to 8, how many bits of a block number name its plane, at most 2, and what may be
/// grouped.
#[derive(Drop)]
pub struct ShapeRow {
    luns: u8,
    plane_bits: u8,
    read: bool,
    write: bool,
}

impl Model for ShapeRow {
    ghost use Rattle.std.specs.Prelude.{◌≤◌};
    ghost use Rattle.onfi_script.specs.RowParts.{ShapeRow as Said};

    ghost Value = { Said };

    ghost view = { λ r. record { luns = r.luns; plane_bits = r.plane_bits; read = r.read; write = r.write } };

    ghost invariant = { λ r. (1 ≤ r.luns) × (r.luns ≤ 8) × (r.plane_bits ≤ 2) };
}

/// The lengths of a kind.
#[derive(Drop)]
pub struct SpansRow {
    kind: Kind,
    spans: Spans,
}

impl Model for SpansRow {
    ghost use Rattle.onfi_script.specs.RowParts.{SpansRow as Said};

    ghost Value = { Said };

    ghost view = { λ r. record { kind = r.kind; cmd = r.spans.cmd; gap = r.spans.gap; array = r.spans.array; post = r.spans.post } };
}

impl ShapeRow {
    /// How many LUNs there are.
    pub fn luns(&self) -> u8
        ensures value { result ≡ self.now.luns }
        ensures some { 1 ≤ result }
        ensures few { result ≤ 8 }
    {
        self.luns
    }

    /// How many bits of a block number name its plane.
    pub fn plane_bits(&self) -> u8
        ensures value { result ≡ self.now.plane_bits }
        ensures few { result ≤ 2 }
    {
        self.plane_bits
    }

    /// Whether reads may be grouped.
    pub fn read(&self) -> bool
        ensures { result ≡ self.now.read }
    {
        self.read
    }

    /// Whether programs, and erases, may be grouped.
    pub fn write(&self) -> bool
        ensures { result ≡ self.now.write }
    {
        self.write
    }
}

impl SpansRow {
    /// The lengths.
    pub fn spans(&self) -> Spans
        ensures { HasLengths self.now result }
    {
        self.spans
    }

    /// The kind whose lengths these are.
    pub fn kind(&self) -> Kind
        ensures { result ≡ self.now.kind }
    {
        self.kind
    }
}

/// Some bytes of a parameter page.
#[derive(Drop)]
pub struct PageRow {
    bytes: Vec<u8>,
}

impl Model for PageRow {
    ghost use Rattle.std.specs.Prelude.{ℕ, List};

    ghost Value = { List ℕ };

    ghost view = { λ r. r.bytes.items };
}

impl PageRow {
    /// The bytes.
    pub fn bytes(&self) -> &[u8]
        ensures { result.now ≡ self.now }
    {
        self.bytes.as_slice()
    }
}

/// Lengths that are in their ranges.
fn lengths(cmd: u64, gap: u64, array: u64, post: u64) -> Spans
    requires { AreLengths cmd gap array post }
    ensures { (result.cmd ≡ cmd) × (result.gap ≡ gap) × (result.array ≡ array) × (result.post ≡ post) }
{
    Spans::new(cmd, gap, array, post).unwrap()
}

/// `shape,LUNS,PLANEBITS,READ,WRITE`
pub fn shape_row(row: &ByteRecord) -> Result<Row, ScriptFault>
    ensures { result ≡ spec.shape_row (fields_of row.now) }
{
    let luns = read_small(field(row, 1), 1, 8)?;
    let plane_bits = read_small(field(row, 2), 0, 2)?;
    let read = flag(field(row, 3))?;
    let write = flag(field(row, 4))?;
    Ok(Row::Shape(ShapeRow {
        luns,
        plane_bits,
        read,
        write,
    }))
}

/// `spans,KIND,CMD,GAP,ARRAY,POST`
pub fn spans_row(row: &ByteRecord) -> Result<Row, ScriptFault>
    ensures { result ≡ spec.spans_row (fields_of row.now) }
{
    let kind = kind(field(row, 1))?;
    let cmd = read_span(field(row, 2), 1)?;
    let gap = read_span(field(row, 3), 0)?;
    let array = read_span(field(row, 4), 0)?;
    let post = read_span(field(row, 5), 1)?;
    let spans = lengths(cmd, gap, array, post);
    Ok(Row::Spans(SpansRow { kind, spans }))
}

/// `page,HEX`
pub fn page_row(alloc: Global, row: &ByteRecord) -> Result<Row, RowStop>
    ensures { Gives IfFault (λ r. r) result (spec.page_row (fields_of row.now)) }
{
    let bytes = hex_bytes(alloc, field(row, 1))?;
    Ok(Row::Page(PageRow { bytes }))
}

/// `sheet,NAME,VALUE`, after rows that made this sheet.
pub fn sheet_row(sheet: &Sheet, number: usize, row: &ByteRecord) -> Result<Row, ScriptFault>
    ensures { result ≡ spec.sheet_row sheet.now number (fields_of row.now) }
{
    let mut sheet = *sheet;
    match sheet.put(number, field(row, 1), field(row, 2)) {
        Ok(()) => Ok(Row::Sheet(sheet)),
        Err(fault) => Err(ScriptFault::Sheet(fault)),
    }
}

/// `strobe,NAME,PS`, after rows that made these strobes, where there were any.
pub fn strobe_row(
    strobes: Option<Strobes>,
    number: usize,
    row: &ByteRecord,
) -> Result<Row, ScriptFault>
    ensures { result ≡ spec.strobe_row strobes number (fields_of row.now) }
{
    let mut strobes = strobes.unwrap_or(Strobes::new());
    match strobes.put(number, field(row, 1), field(row, 2)) {
        Ok(()) => Ok(Row::Strobe(strobes)),
        Err(fault) => Err(ScriptFault::Strobe(fault)),
    }
}
