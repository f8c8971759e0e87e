//! When the operations of a run with a clock arrive at their hosts.
ghost use Rattle.std.specs.Prelude.{◌≡◌};
ghost use Rattle.onfi_run.specs.Arriving.{comes_at as spec_comes_at};

use onfi_script::Row;

/// From when on a host may go past the row at that place: from the moment of arrival that it gives, in ns of the run's
/// clock, else from 0 on.
pub(crate) fn comes_at(rows: &[Row], place: usize) -> u64
    ensures { result ≡ spec_comes_at rows.now place }
{
    match rows.get(place) {
        Some(row) => row.moment().unwrap_or(0),
        None => 0,
    }
}
