//! Devices by their parameter pages, for C.
ghost use Rattle.onfi_calls.specs.Device as device_spec;

use onfi_calls::PlainDevice;
use std::alloc::Global;

/// Is [`onfi_device_of_page`](onfi_calls::onfi_device_of_page) for C.
#[unsafe(no_mangle)]
pub extern "C" fn onfi_device_of_page(
    alloc: Global,
    page: &[u8],
    sheet: &[u8],
    strobes: &[u8],
    sector_bytes: u16,
    device: &mut PlainDevice,
    place: &mut u64,
) -> u32
    ensures { device_spec.GivesDevice page.now sheet.now strobes.now sector_bytes device.old device.new place.new result }
{
    onfi_calls::onfi_device_of_page(alloc, page, sheet, strobes, sector_bytes, device, place)
}
