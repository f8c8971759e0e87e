//! How much the wants of a script count.
ghost use Rattle.std.specs.Prelude.{◌≡◌};
ghost use Rattle.std.specs.List.{AllByRecursion as Each};
ghost use Rattle.onfi_script.specs.Setup as spec;

use crate::forms::row_on;
use crate::row::{Row, Subject};
use onfi_planners::Weights;

/// How much the want of that number counts; 1 where no row says.
fn weight_of(rows: &[Row], request: u8) -> u16
    ensures { result ≡ spec.weight_at rows.now request }
{
    match row_on(rows, Subject::Weight(request)) {
        Some(Row::Weight { weight, .. }) => *weight,
        _ => 1,
    }
}

/// How much each want counts, as the rows say; members of running groups count 1.
pub fn weights(rows: &[Row]) -> Weights
    ensures wants { result.wants ≡ spec.weights rows.now }
    ensures running { Each (Each (λ w. w ≡ 1)) result.running }
{
    Weights {
        wants: [
            weight_of(rows, 0),
            weight_of(rows, 1),
            weight_of(rows, 2),
            weight_of(rows, 3),
            weight_of(rows, 4),
            weight_of(rows, 5),
            weight_of(rows, 6),
            weight_of(rows, 7),
        ],
        running: [[1; 4]; 8],
    }
}
