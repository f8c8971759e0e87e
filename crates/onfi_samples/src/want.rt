ghost use Rattle.std.specs.Prelude.{◌≡◌, ◌%◌};

use onfi_addr::Place;
use onfi_request::Want;
use onfi_timing::Kind;

/// The want of an operation at a place of the sample device.
pub fn want_of(id: u64, kind: Kind, place: Place) -> Want
    ensures names { (result.id ≡ id) × (result.kind ≡ kind) }
    ensures place { (result.lun ≡ place.lun) × (result.block ≡ place.block) × (result.page ≡ place.page) }
    ensures plane { result.plane ≡ place.block % 2 }
{
    Want {
        id,
        kind,
        lun: place.lun,
        plane: (place.block % 2) as u8,
        block: place.block,
        page: place.page,
    }
}
