//! Texts in a caller's room.
ghost use Rattle.std.specs.Prelude.{◌≡◌};
ghost use Rattle.onfi_calls.specs.Room.{Gives};

/// The status of a text that is longer than the room for it.
const NO_ROOM: u32 = 3;

/// Puts a text at the beginning of a room, says how many bytes it has, and answers its status; where the text is longer
/// than the room, it only says so.
pub fn give(text: &[u8], status: u32, room: &mut [u8], bytes: &mut usize) -> u32
    ensures { Gives text.now status room.old room.new bytes.new result }
{
    *bytes = text.len();
    if text.len() > room.len() {
        return NO_ROOM;
    }
    room[..text.len()].copy_from_slice(text);
    status
}
