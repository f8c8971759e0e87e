ghost use Rattle.std.specs.Prelude.{◌≡◌, ◌<◌, ◌≤◌, ◌↔◌, length, IsTrue, IsOk, IsErrOf, MatchResult, Some, None, false};
ghost use Rattle.onfi_request.specs.Range.{Fits, IsPageFor, IsLengthFor, fault_of};
ghost use Rattle.onfi_request.specs.Parts.{has_part};

use crate::part::has_part;
use crate::request::Request;
use onfi_addr::Geometry;
use onfi_timing::Kind;
use thiserror::Error;

/// Why a device doesn't take a request, in the order in which it is reported.
#[derive(Clone, Copy, Debug, PartialEq, Eq, Error)]
pub enum RequestFault {
    /// The LUN isn't there.
    #[error("no such LUN")]
    Lun,
    /// The block isn't there, also where its number fits the row address.
    #[error("no such block")]
    Block,
    /// The page isn't there, or an erase names another than page 0.
    #[error("no such page")]
    Page,
    /// A program doesn't bring exactly the bytes of a page, or a read or an erase brings bytes.
    #[error("a wrong count of data bytes")]
    DataLength,
    /// A read names sectors that a page doesn't have, none or more than seven.
    #[error("no such sectors")]
    Sectors,
}

/// Whether the device takes the request.
///
/// # Errors
/// The first of `Lun`, `Block`, `Page`, `DataLength` and `Sectors` that holds.
pub fn check(geometry: &Geometry, request: &Request) -> Result<(), RequestFault>
    ensures fits { IsOk result ↔ Fits geometry.now request.now }
    ensures lun { IsErrOf result RequestFault.Lun ↔ (geometry.now.lun_count ≤ request.now.place.lun) }
    ensures block { IsErrOf result RequestFault.Block
        ↔ ((request.now.place.lun < geometry.now.lun_count) × (geometry.now.blocks_per_lun ≤ request.now.place.block)) }
    ensures page { IsErrOf result RequestFault.Page
        ↔ ((request.now.place.lun < geometry.now.lun_count)
        × (request.now.place.block < geometry.now.blocks_per_lun)
        × ¬ IsPageFor geometry.now request.now.kind request.now.place.page) }
    ensures data_length { IsErrOf result RequestFault.DataLength
        ↔ ((request.now.place.lun < geometry.now.lun_count)
        × (request.now.place.block < geometry.now.blocks_per_lun)
        × IsPageFor geometry.now request.now.kind request.now.place.page
        × ¬ IsLengthFor geometry.now request.now.kind (length request.now.bytes)) }
    ensures sectors { IsErrOf result RequestFault.Sectors
        ↔ ((request.now.place.lun < geometry.now.lun_count)
        × (request.now.place.block < geometry.now.blocks_per_lun)
        × IsPageFor geometry.now request.now.kind request.now.place.page
        × IsLengthFor geometry.now request.now.kind (length request.now.bytes)
        × (has_part geometry.now request.now.kind ≡ false)) }
    ensures fault { MatchResult result (λ _. fault_of geometry.now request.now ≡ None) (λ fault. fault_of geometry.now request.now ≡ Some fault) }
{
    if request.place.lun >= geometry.lun_count {
        return Err(RequestFault::Lun);
    }
    if u32::from(request.place.block) >= geometry.blocks_per_lun {
        return Err(RequestFault::Block);
    }
    if !names_a_page(geometry, request.kind, request.place.page) {
        return Err(RequestFault::Page);
    }
    if !has_length(geometry, request.kind, request.bytes.as_slice().len()) {
        return Err(RequestFault::DataLength);
    }
    if !has_part(geometry, request.kind) {
        return Err(RequestFault::Sectors);
    }
    Ok(())
}

fn names_a_page(geometry: &Geometry, kind: Kind, page: u16) -> bool
    ensures { IsTrue result ↔ IsPageFor geometry.now kind page }
{
    match kind {
        Kind::Read | Kind::ReadSectors { .. } | Kind::Program => page < geometry.pages_per_block,
        Kind::Erase => page == 0,
    }
}

fn has_length(geometry: &Geometry, kind: Kind, count: usize) -> bool
    ensures { IsTrue result ↔ IsLengthFor geometry.now kind count }
{
    match kind {
        Kind::Program => count == usize::from(geometry.page_bytes()),
        Kind::Read | Kind::ReadSectors { .. } | Kind::Erase => count == 0,
    }
}
