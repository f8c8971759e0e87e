ghost use Rattle.std.specs.Prelude.{◌≡◌, IfOk};
ghost use Rattle.onfi_chip.specs.Fetching.{HasRoom};

use onfi_addr::{Geometry, Place};
use onfi_request::bytes_out;
use onfi_timing::Kind;
use std::alloc::{AllocError, Global};

/// What the post of a member fetches, with room for it: to read the post takes no memory.
#[derive(Debug, Drop)]
pub struct Fetch {
    kind: Kind,
    place: Place,
    room: Vec<u8>,
}

impl Fetch {
    /// The post of a member of that kind at that place; a read has room for the bytes that it puts out.
    ///
    /// # Errors
    /// Where memory was refused.
    pub fn of(
        alloc: Global,
        geometry: &Geometry,
        kind: Kind,
        place: Place,
    ) -> Result<Fetch, AllocError>
        ensures kind { IfOk result (λ fetch. fetch.kind ≡ kind) }
        ensures place { IfOk result (λ fetch. fetch.place ≡ place) }
        ensures room { IfOk result (λ fetch. HasRoom geometry.now fetch) }
    {
        let room = vec![in alloc; 0; bytes_out(geometry, kind) as usize]?;
        Ok(Fetch { kind, place, room })
    }

    /// The kind of the member.
    pub fn kind(&self) -> Kind
        ensures { result ≡ self.now.kind }
    {
        self.kind
    }

    /// Where the member's page is.
    pub fn place(&self) -> Place
        ensures { result ≡ self.now.place }
    {
        self.place
    }

    /// Its room: for a read as many bytes as it puts out.
    pub(crate) fn into_room(self) -> Vec<u8>
        ensures { result.items ≡ self.room.items }
    {
        self.room
    }
}
