//! Where a request waits.
ghost use Rattle.std.specs.Prelude.{◌≡◌, MatchOption, length, ◌≤◌};
ghost use Rattle.onfi_steady.specs.Selecting.{IsHolder, NoneHolds};

use crate::line_left::has_number;
use crate::lun_books::LunBooks;

/// The lowest LUN for which a request of that number waits.
pub fn find_number(luns: &[LunBooks], id: u64) -> Option<u8>
    requires few { length luns.now ≤ 8 }
    ensures { MatchOption result (NoneHolds luns.now id (length luns.now)) (IsHolder luns.now id) }
{
    for (at, lun) in luns.iter().enumerate() {
        if has_number(lun.line.as_slice(), id) {
            return Some(at as u8);
        }
    }
    None
}
