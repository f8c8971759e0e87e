//! The texts of what calls answer.
ghost use Rattle.std.specs.Prelude.{◌≡◌, ◌==◌, find, option_map};
ghost use Rattle.onfi_calls.specs.Room.{Gives};
ghost use Rattle.onfi_calls.specs.StatusText.{named as spec_named, text_at};

use crate::room::give;
use crate::status::{ALL, Status};

/// What has this number.
fn find_status(number: u32) -> Option<Status>
    ensures { result ≡ spec_named number }
{
    ALL.iter().copied().find(|status| status.number() == number)
}

/// The text of a number.
fn text_of(number: u32) -> &'static str
    ensures { result.now ≡ text_at number }
{
    match find_status(number) {
        Some(status) => status.text(),
        None => "",
    }
}

/// The text of the number of a [`Status`](crate::status::Status), none of another number. `bytes` says how many bytes
/// it has.
///
/// Answers 0, or 3 where the text has more bytes than there is room for, which is then as it was.
pub fn onfi_status_text(status: u32, text: &mut [u8], bytes: &mut usize) -> u32
    ensures { Gives (text_at status) 0 text.old text.new bytes.new result }
{
    give(text_of(status).as_bytes(), 0, text, bytes)
}
