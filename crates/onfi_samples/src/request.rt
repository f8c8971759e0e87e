ghost use Rattle.std.specs.Prelude.{◌≡◌, length, All, IfOk};
ghost use Rattle.onfi_request.specs.Range.{IsLengthFor};

use onfi_addr::{Geometry, Place};
use onfi_request::{Bytes, Request};
use onfi_timing::Kind;
use std::alloc::{AllocError, Global};

/// The request for an operation at a place; a program brings a page of this byte.
///
/// # Errors
/// Where memory was refused.
pub fn request_of(
    alloc: Global,
    geometry: &Geometry,
    kind: Kind,
    place: Place,
    byte: u8,
) -> Result<Request, AllocError>
    ensures kind { IfOk result (λ request. request.kind ≡ kind) }
    ensures place { IfOk result (λ request. request.place ≡ place) }
    ensures size { IfOk result (λ request. IsLengthFor geometry.now kind (length request.bytes)) }
    ensures bytes { IfOk result (λ request. All (λ b. b ≡ byte) request.bytes) }
{
    let count = match kind {
        Kind::Program => usize::from(geometry.page_bytes()),
        Kind::Read | Kind::ReadSectors { .. } | Kind::Erase => 0,
    };
    Ok(Request {
        kind,
        place,
        bytes: Bytes::of(vec![in alloc; byte; count]?),
    })
}
