ghost use Rattle.std.specs.Prelude.{◌≡◌, ◌↔◌, ◌<◌, ◌^◌, IfNone, IfSome, IsTrue};
ghost use Rattle.onfi_addr.specs.Faults.{Has, IsFirstFault, NoFault, RowsAreTooWide, page_bytes};

use crate::bits::bits_for;
use crate::fault::GeometryFault;
use onfi_param::ParamPage;

const IN_ORDER: [GeometryFault; 10] = [
    GeometryFault::WideBus,
    GeometryFault::NoStatusEnhanced,
    GeometryFault::NoColumnEnhanced,
    GeometryFault::NoMultiLun,
    GeometryFault::LunCount,
    GeometryFault::PlaneBits,
    GeometryFault::Zero,
    GeometryFault::RowTooWide,
    GeometryFault::ColumnTooWide,
    GeometryFault::TooLarge,
];

/// The first fault of the page, or none.
pub(crate) fn first_fault(page: &ParamPage) -> Option<GeometryFault>
    ensures some { IfSome result (λ fault. IsFirstFault page.now fault) }
    ensures none { IfNone result (NoFault page.now) }
{
    for fault in &IN_ORDER {
        if has(page, *fault) {
            return Some(*fault);
        }
    }
    None
}

/// Whether the page has this fault, whatever other faults it has.
fn has(page: &ParamPage, fault: GeometryFault) -> bool
    ensures { IsTrue result ↔ Has page.now fault }
{
    match fault {
        GeometryFault::WideBus => page.has_wide_bus(),
        GeometryFault::NoStatusEnhanced => !page.has_read_status_enhanced(),
        GeometryFault::NoColumnEnhanced => !page.has_change_read_column_enhanced(),
        GeometryFault::NoMultiLun => page.lun_count() > 1 && !page.has_multiple_lun_operations(),
        GeometryFault::LunCount => page.lun_count() == 0 || page.lun_count() > 8,
        GeometryFault::PlaneBits => page.plane_address_bits() > 2,
        GeometryFault::Zero => has_zero(page),
        GeometryFault::RowTooWide => has_wide_rows(page),
        GeometryFault::ColumnTooWide => has_wide_columns(page),
        GeometryFault::TooLarge => is_too_large(page),
    }
}

fn has_zero(page: &ParamPage) -> bool
    ensures { IsTrue result ↔ Has page.now GeometryFault.Zero }
{
    page.pages_per_block() == 0 || page.blocks_per_lun() == 0 || page.data_bytes() == 0
}

fn has_wide_rows(page: &ParamPage) -> bool
    ensures { IsTrue result ↔ RowsAreTooWide page.now }
{
    let page_bits = bits_for(page.pages_per_block());
    let block_bits = bits_for(page.blocks_per_lun());
    let lun_bits = bits_for(u32::from(page.lun_count()));
    page_bits + block_bits + lun_bits > 8 * u32::from(page.row_cycles())
}

fn has_wide_columns(page: &ParamPage) -> bool
    ensures { IsTrue result ↔ Has page.now GeometryFault.ColumnTooWide }
{
    let bytes = page_bytes(page);
    let cycles = page.column_cycles();
    // five cycles reach beyond what the fields of the page can count
    cycles < 5 && bytes > 1 << (8 * cycles)
}

fn is_too_large(page: &ParamPage) -> bool
    ensures { IsTrue result ↔ Has page.now GeometryFault.TooLarge }
{
    page.pages_per_block() > 4096 || page.blocks_per_lun() > 65536 || page_bytes(page) > 65535
}

/// Data and spare bytes of a page.
fn page_bytes(page: &ParamPage) -> u64
    ensures sum { result ≡ page_bytes page.now }
    ensures below { result < 2 ^ 33 }
{
    u64::from(page.data_bytes()) + u64::from(page.spare_bytes())
}
