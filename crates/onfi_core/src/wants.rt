ghost use Rattle.std.specs.Prelude.{◌≡◌};
ghost use Rattle.onfi_core.specs.State.{want_of};

use onfi_addr::Geometry;
use onfi_request::{Item, Want};

/// An item as a want, under its place.
pub fn want_of(geometry: &Geometry, place: u64, item: &Item) -> Want
    ensures { result ≡ want_of geometry.now place item.now }
{
    Want {
        id: place,
        kind: item.request.kind,
        lun: item.request.place.lun,
        plane: geometry.plane_of(item.request.place.block),
        block: item.request.place.block,
        page: item.request.place.page,
    }
}
