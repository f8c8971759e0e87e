//! What stands in the fields of a row.
ghost use Rattle.std.specs.Prelude.{◌≡◌, ◌≤◌, ◌<◌, ◌-◌, ◌^◌, IfOk};
ghost use Rattle.std.specs.Str.{bytes_eq};
ghost use Rattle.csv.specs.Records.{fields_of};
ghost use Rattle.onfi_script.specs.Field as spec;
ghost use Rattle.onfi_script.specs.Stop.{Gives, IfFault};

use crate::fault::{RowStop, ScriptFault};
use csv::ByteRecord;
use hex::FromHexError;
use onfi_timing::{Kind, read_number};
use std::alloc::Global;

/// A field of a row, from 0, which is its name; nothing where the row is shorter.
pub fn field(row: &ByteRecord, at: usize) -> &[u8]
    ensures { result.now ≡ spec.field (fields_of row.now) at }
{
    row.get(at).unwrap_or(b"")
}

/// Whether the text is that word.
pub fn is_word(text: &[u8], word: &str) -> bool
    ensures { result ≡ bytes_eq text.now word.now }
{
    text == word.as_bytes()
}

/// A number from `least` to `most`.
pub fn number(text: &[u8], least: u64, most: u64) -> Result<u64, ScriptFault>
    requires { most < 2 ^ 64 - 1 }
    ensures value { result ≡ spec.number least most text.now }
    ensures range { IfOk result (λ n. (least ≤ n) × (n ≤ most)) }
{
    let Some(value) = read_number(text) else {
        return Err(ScriptFault::NotANumber);
    };
    if least <= value && value <= most {
        Ok(value)
    } else {
        Err(ScriptFault::OutOfRange)
    }
}

/// A number from `least` to `most`, both small.
pub fn read_small(text: &[u8], least: u8, most: u8) -> Result<u8, ScriptFault>
    ensures value { result ≡ spec.number least most text.now }
    ensures range { IfOk result (λ n. (least ≤ n) × (n ≤ most)) }
{
    let value = number(text, u64::from(least), u64::from(most))?;
    Ok(value as u8)
}

/// A number from `least` to `most` in two bytes.
fn read_short(text: &[u8], least: u16, most: u16) -> Result<u16, ScriptFault>
    ensures { result ≡ spec.number least most text.now }
{
    let value = number(text, u64::from(least), u64::from(most))?;
    Ok(value as u16)
}

/// A number from 1 in two bytes.
fn some_short(text: &[u8]) -> Result<u16, ScriptFault>
    ensures { result ≡ spec.number 1 65535 text.now }
{
    read_short(text, 1, 65535)
}

/// 0 or 1.
pub fn flag(text: &[u8]) -> Result<bool, ScriptFault>
    ensures { result ≡ spec.flag text.now }
{
    let value = number(text, 0, 1)?;
    Ok(value == 1)
}

/// The name of a kind.
pub fn kind(text: &[u8]) -> Result<Kind, ScriptFault>
    ensures { result ≡ spec.kind text.now }
{
    if is_word(text, "read") {
        Ok(Kind::Read)
    } else if is_word(text, "program") {
        Ok(Kind::Program)
    } else if is_word(text, "erase") {
        Ok(Kind::Erase)
    } else {
        Err(ScriptFault::OutOfRange)
    }
}

/// A LUN number, from 0.
pub fn lun(text: &[u8]) -> Result<u8, ScriptFault>
    ensures { result ≡ spec.lun text.now }
{
    read_small(text, 0, 7)
}

/// A block number, from 0.
pub fn block(text: &[u8]) -> Result<u16, ScriptFault>
    ensures { result ≡ spec.block text.now }
{
    read_short(text, 0, 65535)
}

/// A page number, from 0.
pub fn page(text: &[u8]) -> Result<u16, ScriptFault>
    ensures { result ≡ spec.page text.now }
{
    read_short(text, 0, 4095)
}

/// The weight of a request, at least 1.
pub fn weight(text: &[u8]) -> Result<u16, ScriptFault>
    ensures { result ≡ spec.weight text.now }
{
    some_short(text)
}

/// The bytes of a sector, at least 1.
pub fn sector_bytes(text: &[u8]) -> Result<u16, ScriptFault>
    ensures { result ≡ spec.sector_bytes text.now }
{
    some_short(text)
}

/// How many sectors are put out; 0 is all of a page.
pub fn sectors(text: &[u8]) -> Result<u8, ScriptFault>
    ensures { result ≡ spec.sectors text.now }
{
    read_small(text, 0, 7)
}

/// .. one at least.
pub fn some_sectors(text: &[u8]) -> Result<u8, ScriptFault>
    ensures { result ≡ spec.some_sectors text.now }
{
    read_small(text, 1, 7)
}

/// The sector that is put out first, from 0.
pub fn first_sector(text: &[u8]) -> Result<u8, ScriptFault>
    ensures { result ≡ spec.first_sector text.now }
{
    read_small(text, 0, 255)
}

/// A length or a wait in ns, below 2^50.
pub fn read_span(text: &[u8], least: u64) -> Result<u64, ScriptFault>
    ensures value { result ≡ spec.span least text.now }
    ensures range { IfOk result (λ n. (least ≤ n) × (n < 2 ^ 50)) }
{
    number(text, least, (1 << 50) - 1)
}

/// A time in ns, below 2^62.
pub fn time(text: &[u8]) -> Result<u64, ScriptFault>
    ensures { result ≡ spec.time text.now }
{
    number(text, 0, (1 << 62) - 1)
}

/// The bytes in hexadecimal.
pub fn hex_bytes(alloc: Global, text: &[u8]) -> Result<Vec<u8>, RowStop>
    ensures { Gives IfFault (λ v. v.items) result (spec.hex_bytes text.now) }
{
    match hex::decode(alloc, text) {
        Ok(bytes) => Ok(bytes),
        Err(FromHexError::OutOfMemory) => Err(RowStop::Memory),
        Err(_) => Err(RowStop::Fault(ScriptFault::Hex)),
    }
}
