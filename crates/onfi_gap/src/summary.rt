//! The gaps of all pieces of a log.

ghost use Rattle.std.specs.Prelude.{◌≡◌, ◌≤◌, ◌*◌, ◌/◌, IfOk, length, map};
ghost use Rattle.std.specs.List.{sum};
ghost use Rattle.onfi_gap.specs.Pieces.{gap_of};
ghost use Rattle.onfi_gap.specs.Summary.{IsSummaryOf};

use crate::piece::Piece;
use std::alloc::{AllocError, Global};

/// The gaps of all pieces, in ns: how much later than the plans the log ended them.
#[derive(Clone, Copy, Debug, PartialEq, Eq)]
pub struct Summary {
    /// Rounded down.
    pub mean: u64,
    /// The one in the middle; of an even count the lower of the two.
    pub median: u64,
    pub most: u64,
}

/// The gaps of pieces.
fn gaps_of(alloc: Global, pieces: &[Piece]) -> Result<Vec<u64>, AllocError>
    ensures { IfOk result (λ v. v.items ≡ map gap_of pieces.now) }
{
    let mut gaps = Vec::with_capacity(alloc, pieces.len())?;
    for piece in pieces {
        gaps.push(piece.gap())?;
    }
    Ok(gaps)
}

/// The sum of that many numbers.
fn total(numbers: &[u64]) -> u128
    ensures sum { result ≡ sum numbers.now }
    ensures most { result ≤ length numbers.now * 18446744073709551615 }
{
    let mut total = 0u128;
    for number in numbers {
        total += u128::from(*number);
    }
    total
}

/// The mean of numbers of which there is one at least, rounded down.
pub fn mean(numbers: &[u64]) -> u64
    requires { 1 ≤ length numbers.now }
    ensures { result ≡ sum numbers.now / length numbers.now }
{
    (total(numbers) / numbers.len() as u128) as u64
}

/// Mean, median and most of numbers; nothing of none.
fn summary_of(gaps: Vec<u64>) -> Option<Summary>
    ensures { IsSummaryOf gaps.items result }
{
    let mut gaps = gaps;
    let count = gaps.len();
    if count == 0 {
        return None;
    }
    let mean = mean(gaps.as_slice());
    gaps.sort_unstable();
    Some(Summary {
        mean,
        median: gaps[(count - 1) / 2],
        most: gaps[count - 1],
    })
}

/// Mean, median and most of the gaps of pieces; nothing where there is no piece.
///
/// # Errors
/// Where memory was refused.
pub fn summarize(alloc: Global, pieces: &[Piece]) -> Result<Option<Summary>, AllocError>
    ensures { IfOk result (IsSummaryOf (map gap_of pieces.now)) }
{
    Ok(summary_of(gaps_of(alloc, pieces)?))
}
