//! The lines of a plan text.
ghost use Rattle.std.specs.Prelude.{◌≡◌, ◌+◌, ◌<◌, ◌≤◌, ◌^◌, length, IfSome};
ghost use Rattle.onfi_timing.specs.Decimal.{written_number};
ghost use Rattle.onfi_log.specs.Parts.{parts};
ghost use Rattle.onfi_script.specs.PlanLine as spec;

use crate::field::is_word;
use crate::members::group_named;
use onfi_log::cut;
use onfi_request::Want;
use onfi_schedule::{Placed, Starts};
use onfi_timing::read_written;
use std::alloc::Global;

/// A line `rest`: the starts, in ns, of what is left of a LUN's running group.
#[derive(Default, Drop)]
pub struct RestLine {
    /// The number of the LUN, which need not be there.
    pub lun: u64,
    pub starts: Starts,
}

/// A line after the finish of a plan text.
#[derive(Drop)]
pub enum Line {
    Rest(RestLine),
    /// A new group.
    Group(Placed),
}

/// The numbers before the last one, and the last one.
fn with_last(mut numbers: Starts, last: &[u8]) -> Option<Starts>
    requires { length numbers < 8 }
    ensures value { result ≡ spec.and_then (written_number last.now) (λ n. spec.with_last numbers n) }
    ensures count { IfSome result (λ ns. length ns ≡ length numbers + 1) }
{
    numbers.push(read_written(last)?);
    Some(numbers)
}

/// One number to `most` with such a byte between each two; kept as starts are, in room for eight.
#[tactic(auto, using(crate::proofs::NumbersLemmas::read_over))]
fn numbers(text: &[u8], byte: u8, most: u8) -> Option<Starts>
    requires { most ≤ 8 }
    ensures value { result ≡ spec.numbers most (parts byte text.now) }
    ensures count { IfSome result (λ ns. (1 ≤ length ns) × (length ns ≤ most)) }
{
    let mut numbers = Starts::new();
    let mut left = text;
    for _at in 0..most {
        let Some((word, behind)) = cut(left, byte) else {
            return with_last(numbers, left);
        };
        numbers.push(read_written(word)?);
        left = behind;
    }
    None
}

/// `LUN START ..`
fn rest_of(words: &[u8]) -> Option<Line>
    ensures { result ≡ spec.rest_of (parts 32 words.now) }
{
    let (lun, starts) = cut(words, b' ')?;
    let lun = read_written(lun)?;
    let starts = numbers(starts, b' ', 8)?;
    Some(Line::Rest(RestLine { lun, starts }))
}

/// `ID+ID.. START ..`
fn group_of(alloc: Global, wants: &[Want], words: &[u8]) -> Option<Line>
    ensures { result ≡ spec.group_of wants.now (parts 32 words.now) }
{
    let (ids, starts) = cut(words, b' ')?;
    let ids = numbers(ids, b'+', 4)?;
    let starts = numbers(starts, b' ', 8)?;
    let members = group_named(alloc, wants, ids.as_slice());
    Some(Line::Group(Placed::new(members, starts)))
}

/// `rest LUN START ..` or `group ID+ID.. START ..`; a number that no want has stands for one that the problem does not
/// have.
pub fn line_of(alloc: Global, wants: &[Want], line: &[u8]) -> Option<Line>
    ensures { result ≡ spec.line_of wants.now line.now }
{
    let (name, words) = cut(line, b' ')?;
    if is_word(name, "rest") {
        rest_of(words)
    } else if is_word(name, "group") {
        group_of(alloc, wants, words)
    } else {
        None
    }
}

/// `NAME N`
#[tactic(auto, using(crate::proofs::LineLemmas::number_in_longer, onfi_log::proofs::PartsLemmas::some_parts))]
fn number_in(line: &[u8], name: &str) -> Option<u64>
    ensures { result ≡ spec.number_in name.now line.now }
{
    let (first, text) = cut(line, b' ')?;
    if !is_word(first, name) {
        return None;
    }
    match cut(text, b' ') {
        Some(_) => None,
        None => read_written(text),
    }
}

/// `finish N`
pub fn finish_of(line: &[u8]) -> Option<u64>
    ensures { result ≡ spec.finish_of line.now }
{
    number_in(line, "finish")
}

/// `below N`
pub fn below_of(line: &[u8]) -> Option<u64>
    ensures { result ≡ spec.below_of line.now }
{
    number_in(line, "below")
}
