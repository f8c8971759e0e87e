ghost use Rattle.std.specs.Prelude.{◌≡◌, ◌≢◌, List, length, IfOk, IfErr};
ghost use Rattle.onfi_addr.specs.Rows.{page_bytes_of, row_of};
ghost use Rattle.onfi_timing.specs.Kinds.{operation_of};
ghost use Rattle.onfi_chip.specs.declared.post.Post.{Post as APost};
ghost use Rattle.onfi_chip.specs.Chip.{posted};
ghost use Rattle.onfi_chip.specs.Calls.{HasDone, IsLost, IsMissed, IsNextPost, IsOutput, IsUnread};
ghost use Rattle.onfi_chip.specs.Fetching.{HasRoom, IsNextFetch};

use crate::chip::Chip;
use crate::fault::PostFault;
use crate::fetch::Fetch;
use crate::status::decode_status;
use onfi_addr::Geometry;
use onfi_request::{Answer, Bytes, first_column};
use onfi_timing::{Kind, Operation};

/// Reads the post of the member that comes next, at `now`, in ns: the data output of a read, the status of a program or an
/// erase. It takes no memory: a fetch is made with its room before the chip is called.
///
/// # Errors
/// `Bus`, only where the chip's count of failed buses rose, or `NotReady` where the status of a program or an erase said so,
/// only where its count of statuses not ready rose. Nothing more is then known of the chip. `Bus` too where sectors are asked
/// of a chip that has none, which leaves it unchanged.
pub fn read_post<C: Chip>(
    chip: &mut C,
    geometry: &Geometry,
    now: u64,
    fetch: Fetch,
) -> Result<Answer, PostFault>
    requires geometry { (C.state chip.old).geometry ≡ geometry.now }
    requires next { (post : APost) × (left : List APost) × IsNextFetch geometry.now (C.state chip.old) now fetch post left }
    requires room { HasRoom geometry.now fetch }
    ensures answer { IfOk result (λ answer. (post : APost) (left : List APost)
        → IsNextPost (C.state chip.old) now (row_of geometry.now fetch.place) post left → answer ≡ post.answer) }
    ensures done { IfOk result (λ _. (post : APost) (left : List APost)
        → IsNextPost (C.state chip.old) now (row_of geometry.now fetch.place) post left
        → HasDone (posted (C.state chip.old) post left now) (C.state chip.new)) }
    ensures lost { IfErr result (λ fault. IsMissed fetch.kind fault (C.state chip.old) (C.state chip.new)) }
    ensures not_ready { IfErr result (λ fault. fault ≡ PostFault.NotReady → operation_of fetch.kind ≢ Operation.Read) }
{
    let row = geometry.row(&fetch.place());
    match fetch.kind() {
        Kind::Read => read_data(chip, now, row, fetch.into_room()),
        Kind::ReadSectors { .. } => {
            let column = first_column(geometry, fetch.kind()) as u16;
            read_sectors(chip, now, row, column, fetch.into_room())
        }
        Kind::Program | Kind::Erase => read_status(chip, now, row),
    }
}

// The data output of a read of a whole page into the room.
fn read_data<C: Chip>(chip: &mut C, now: u64, row: u64, room: Vec<u8>) -> Result<Answer, PostFault>
    requires next { (post : APost) × (left : List APost) × IsNextPost (C.state chip.old) now row post left × (post.kind ≡ Kind.Read) }
    requires room { length room.items ≡ page_bytes_of (C.state chip.old).geometry }
    ensures answer { IfOk result (λ answer. (post : APost) (left : List APost) → IsNextPost (C.state chip.old) now row post left
        → answer ≡ post.answer) }
    ensures done { IfOk result (λ _. (post : APost) (left : List APost) → IsNextPost (C.state chip.old) now row post left
        → HasDone (posted (C.state chip.old) post left now) (C.state chip.new)) }
    ensures lost { IfErr result (λ fault. IsLost fault (C.state chip.old) (C.state chip.new)) }
    ensures bus { IfErr result (λ fault. fault ≡ PostFault.Bus) }
{
    let mut room = room;
    match chip.data_out(now, row, room.as_mut_slice()) {
        Ok(()) => Ok(Answer::Read(Bytes::of(room))),
        Err(_) => Err(PostFault::Bus),
    }
}

// The data output of some sectors into the room, from that column on.
fn read_sectors<C: Chip>(
    chip: &mut C,
    now: u64,
    row: u64,
    column: u16,
    room: Vec<u8>,
) -> Result<Answer, PostFault>
    requires { (post : APost) × (left : List APost) × IsNextPost (C.state chip.old) now row post left × IsOutput (C.state chip.old).geometry post.kind column (length room.items) }
    ensures answer { IfOk result (λ answer. (post : APost) (left : List APost) → IsNextPost (C.state chip.old) now row post left
        → answer ≡ post.answer) }
    ensures done { IfOk result (λ _. (post : APost) (left : List APost) → IsNextPost (C.state chip.old) now row post left
        → HasDone (posted (C.state chip.old) post left now) (C.state chip.new)) }
    ensures unread { IfErr result (λ _. IsUnread (C.state chip.old) (C.state chip.new)) }
    ensures bus { IfErr result (λ fault. fault ≡ PostFault.Bus) }
{
    let mut room = room;
    match chip.sectors_out(now, row, column, room.as_mut_slice()) {
        Ok(()) => Ok(Answer::Read(Bytes::of(room))),
        Err(_unread) => Err(PostFault::Bus),
    }
}

// The status of a program or an erase.
fn read_status<C: Chip>(chip: &mut C, now: u64, row: u64) -> Result<Answer, PostFault>
    requires { (post : APost) × (left : List APost) × IsNextPost (C.state chip.old) now row post left × (operation_of post.kind ≢ Operation.Read) }
    ensures answer { IfOk result (λ answer. (post : APost) (left : List APost) → IsNextPost (C.state chip.old) now row post left
        → answer ≡ post.answer) }
    ensures done { IfOk result (λ _. (post : APost) (left : List APost) → IsNextPost (C.state chip.old) now row post left
        → HasDone (posted (C.state chip.old) post left now) (C.state chip.new)) }
    ensures lost { IfErr result (λ fault. IsLost fault (C.state chip.old) (C.state chip.new)) }
{
    let Ok(byte) = chip.status(now, row) else {
        return Err(PostFault::Bus);
    };
    let Some(answer) = decode_status(byte) else {
        return Err(PostFault::NotReady);
    };
    Ok(answer)
}
