//! Devices by their parameter pages, timing sheets and strobes.
ghost use Rattle.std.specs.Prelude.{◌≡◌, ◌<◌, suc, IfOk, IfErr};
ghost use Rattle.onfi_param.specs.Copies.{IsFirstCopy};
ghost use Rattle.onfi_timing.specs.Kinds.{stated};
ghost use Rattle.onfi_timing.specs.SectorPosts.{HasPosts, post_or_none};
ghost use Rattle.onfi_calls.specs.Device as spec;

use crate::channel::{PlainLengths, PlainRules, PlainSpans, PlainTiming};
use crate::device::{PlainDevice, PlainGeometry};
use crate::refusal::Refusal;
use crate::status::Status;
use onfi_addr::{Geometry, GeometryFault};
use onfi_param::{PageFault, ParamPage, read_page};
use onfi_timing::{
    Kind, Parameter, Sheet, SheetFault, Spans, Strobe, StrobeFault, Strobes, Timing,
};
use std::alloc::Global;

/// The number of a parameter.
fn parameter_number(parameter: Parameter) -> u64
    ensures { result ≡ spec.parameter_number parameter }
{
    match parameter {
        Parameter::Twc => 1,
        Parameter::Trc => 2,
        Parameter::Tadl => 3,
        Parameter::Twhr => 4,
        Parameter::Trhw => 5,
        Parameter::Twb => 6,
        Parameter::Tplrbsy => 7,
        Parameter::Tplpbsy => 8,
        Parameter::Tplebsy => 9,
    }
}

/// The status for a fault of a geometry.
fn geometry_status(fault: GeometryFault) -> Status
    ensures { result ≡ spec.geometry_status fault }
{
    match fault {
        GeometryFault::WideBus => Status::WideBus,
        GeometryFault::NoStatusEnhanced => Status::NoStatusEnhanced,
        GeometryFault::NoColumnEnhanced => Status::NoColumnEnhanced,
        GeometryFault::NoMultiLun => Status::NoMultiLun,
        GeometryFault::LunCount => Status::LunCount,
        GeometryFault::PlaneBits => Status::PlaneBits,
        GeometryFault::Zero => Status::Zero,
        GeometryFault::RowTooWide => Status::RowTooWide,
        GeometryFault::ColumnTooWide => Status::ColumnTooWide,
        GeometryFault::TooLarge => Status::TooLarge,
    }
}

/// The refusal for a fault of a sheet, with the parameter or the row that it names.
fn sheet_refusal(fault: SheetFault) -> Refusal
    ensures { result ≡ spec.sheet_refusal fault }
{
    match fault {
        SheetFault::Missing(parameter) => Refusal {
            status: Status::SheetMissing,
            place: parameter_number(parameter),
        },
        SheetFault::Repeated(parameter) => Refusal {
            status: Status::SheetRepeated,
            place: parameter_number(parameter),
        },
        SheetFault::Unknown(row) => Refusal {
            status: Status::SheetUnknown,
            place: row as u64,
        },
        SheetFault::NotANumber(row) => Refusal {
            status: Status::SheetNotANumber,
            place: row as u64,
        },
        SheetFault::ZeroCycle => Refusal::whole(Status::SheetZeroCycle),
        SheetFault::TooLong => Refusal::whole(Status::SheetTooLong),
        SheetFault::Memory => Refusal::whole(Status::Memory),
    }
}

/// The lengths of a kind, as plain structs have them.
fn plain_spans(spans: Spans) -> PlainSpans
    ensures { result ≡ spec.written_spans spans }
{
    PlainSpans {
        cmd: spans.cmd,
        gap: spans.gap,
        array: spans.array,
        post: spans.post,
    }
}

/// The same of a geometry.
fn plain_geometry(geometry: &Geometry) -> PlainGeometry
    ensures { result ≡ spec.written_geometry geometry.now }
{
    PlainGeometry {
        blocks_per_lun: geometry.blocks_per_lun,
        page_bits: geometry.page_bits,
        block_bits: geometry.block_bits,
        lun_bits: geometry.lun_bits,
        pages_per_block: geometry.pages_per_block,
        data_bytes: geometry.data_bytes,
        spare_bytes: geometry.spare_bytes,
        lun_count: geometry.lun_count,
        plane_address_bits: geometry.plane_address_bits,
        column_address_cycles: geometry.column_address_cycles,
        row_address_cycles: geometry.row_address_cycles,
        any_page_order: geometry.any_page_order,
        multi_plane_writes: geometry.multi_plane_writes,
        multi_plane_reads: geometry.multi_plane_reads,
    }
}

/// The number of a parameter of strobes.
fn strobe_number(strobe: Strobe) -> u64
    ensures { result ≡ spec.strobe_number strobe }
{
    match strobe {
        Strobe::Trpre => 1,
        Strobe::Trc => 2,
        Strobe::Trpst => 3,
        Strobe::Trpsth => 4,
        Strobe::Twpre => 5,
        Strobe::Tdsc => 6,
        Strobe::Twpst => 7,
        Strobe::Twpsth => 8,
    }
}

/// The refusal for a fault of strobes, with the parameter or the row that it names.
fn strobe_refusal(fault: StrobeFault) -> Refusal
    ensures { result ≡ spec.strobe_refusal fault }
{
    match fault {
        StrobeFault::Sheet(fault) => sheet_refusal(fault),
        StrobeFault::Missing(strobe) => Refusal {
            status: Status::StrobeMissing,
            place: strobe_number(strobe),
        },
        StrobeFault::Repeated(strobe) => Refusal {
            status: Status::StrobeRepeated,
            place: strobe_number(strobe),
        },
        StrobeFault::Unknown(row) => Refusal {
            status: Status::StrobeUnknown,
            place: row as u64,
        },
        StrobeFault::NotANumber(row) => Refusal {
            status: Status::StrobeNotANumber,
            place: row as u64,
        },
        StrobeFault::ZeroCycle => Refusal::whole(Status::SheetZeroCycle),
        StrobeFault::TooLong => Refusal::whole(Status::SheetTooLong),
        StrobeFault::Memory => Refusal::whole(Status::Memory),
    }
}

/// The post of reads of one sector more than so many, 0 where none is stated.
fn post_after(timing: &Timing, before: u8) -> u64
    requires { before < 7 }
    ensures { result ≡ post_or_none (stated timing.now (suc before)) }
{
    let kind = Kind::ReadSectors {
        first: 0,
        count: before + 1,
    };
    if timing.states(kind) {
        timing.spans(kind).post
    } else {
        0
    }
}

/// The posts of reads of one to seven sectors.
fn plain_lengths(timing: &Timing) -> PlainLengths
    ensures { HasPosts timing.now result.sectors }
{
    PlainLengths {
        sectors: [
            post_after(timing, 0),
            post_after(timing, 1),
            post_after(timing, 2),
            post_after(timing, 3),
            post_after(timing, 4),
            post_after(timing, 5),
            post_after(timing, 6),
        ],
    }
}

/// The same of a device, with these lengths of reads of some sectors.
fn plain_device(geometry: &Geometry, timing: &Timing, lengths: PlainLengths) -> PlainDevice
    ensures { result ≡ spec.written_device geometry.now timing.now lengths }
{
    PlainDevice {
        timing: PlainTiming {
            read: plain_spans(timing.read),
            program: plain_spans(timing.program),
            erase: plain_spans(timing.erase),
        },
        lengths,
        rules: PlainRules {
            read: geometry.multi_plane_reads,
            write: geometry.multi_plane_writes,
            strict: false,
            plane_bits: geometry.plane_address_bits,
        },
        geometry: plain_geometry(geometry),
    }
}

/// The first copy of a parameter page.
fn page_of(bytes: &[u8]) -> Result<ParamPage, Status>
    ensures page { IfOk result (λ page. IsFirstCopy bytes.now page) }
    ensures none { IfErr result (λ status. spec.IsNoPage bytes.now status) }
{
    match read_page(bytes) {
        Ok(page) => Ok(page),
        Err(PageFault::Short) => Err(Status::PageShort),
        Err(PageFault::NoCopy) => Err(Status::NoCopy),
    }
}

/// The device of a page and a sheet, whose sectors have so many bytes.
fn sheet_device(
    alloc: Global,
    bytes: &[u8],
    text: &[u8],
    sector_bytes: u16,
) -> Result<PlainDevice, Refusal>
    ensures device { IfOk result (λ d. spec.IsSheetDevice bytes.now text.now sector_bytes d) }
    ensures none { IfErr result (spec.IsNoSheetDevice bytes.now text.now) }
{
    let page = match page_of(bytes) {
        Ok(page) => page,
        Err(status) => return Err(Refusal::whole(status)),
    };
    let geometry = match Geometry::of(&page) {
        Ok(geometry) => geometry,
        Err(fault) => return Err(Refusal::whole(geometry_status(fault))),
    };
    let sheet = match Sheet::read(alloc, text) {
        Ok(sheet) => sheet,
        Err(fault) => return Err(sheet_refusal(fault)),
    };
    match Timing::of_sectors(&page, &geometry, &sheet, sector_bytes) {
        Ok(timing) => Ok(plain_device(&geometry, &timing, plain_lengths(&timing))),
        Err(fault) => Err(sheet_refusal(fault)),
    }
}

/// The same with strobes.
fn strobe_device(
    alloc: Global,
    bytes: &[u8],
    text: &[u8],
    rows: &[u8],
    sector_bytes: u16,
) -> Result<PlainDevice, Refusal>
    ensures device { IfOk result (λ d. spec.IsStrobedDevice bytes.now text.now rows.now sector_bytes d) }
    ensures none { IfErr result (spec.IsNoStrobedDevice bytes.now text.now rows.now) }
{
    let page = match page_of(bytes) {
        Ok(page) => page,
        Err(status) => return Err(Refusal::whole(status)),
    };
    let geometry = match Geometry::of(&page) {
        Ok(geometry) => geometry,
        Err(fault) => return Err(Refusal::whole(geometry_status(fault))),
    };
    let sheet = match Sheet::read(alloc, text) {
        Ok(sheet) => sheet,
        Err(fault) => return Err(sheet_refusal(fault)),
    };
    let strobes = match Strobes::read(alloc, rows) {
        Ok(strobes) => strobes,
        Err(fault) => return Err(strobe_refusal(fault)),
    };
    match Timing::of_strobed_sectors(&page, &geometry, &sheet, &strobes, sector_bytes) {
        Ok(timing) => Ok(plain_device(&geometry, &timing, plain_lengths(&timing))),
        Err(fault) => Err(strobe_refusal(fault)),
    }
}

/// The same of what is said: without strobes where they have no text.
fn read_device(
    alloc: Global,
    bytes: &[u8],
    text: &[u8],
    rows: &[u8],
    sector_bytes: u16,
) -> Result<PlainDevice, Refusal>
    ensures device { IfOk result (λ d. spec.IsDeviceOf bytes.now text.now rows.now sector_bytes d) }
    ensures none { IfErr result (spec.IsNoDeviceOf bytes.now text.now rows.now) }
{
    if rows.is_empty() {
        sheet_device(alloc, bytes, text, sector_bytes)
    } else {
        strobe_device(alloc, bytes, text, rows, sector_bytes)
    }
}

/// The device that the bytes of a parameter page and the texts of a timing sheet and of strobes describe; without strobes where
/// theirs is empty: the lengths of its phases, in ns, also of reads of one to seven sectors of so many bytes each, what it may group,
/// and its geometry. No length is stated of more sectors than a page has bytes for, nor of any where `sector_bytes` is 0.
///
/// Answers 0; else the number of a [`Status`], with the row of the sheet or of the strobes, counted from 1, or the number of the
/// parameter that it speaks of, in `place`, and the device is as it was.
pub fn onfi_device_of_page(
    alloc: Global,
    page: &[u8],
    sheet: &[u8],
    strobes: &[u8],
    sector_bytes: u16,
    device: &mut PlainDevice,
    place: &mut u64,
) -> u32
    ensures { spec.GivesDevice page.now sheet.now strobes.now sector_bytes device.old device.new place.new result }
{
    match read_device(alloc, page, sheet, strobes, sector_bytes) {
        Ok(found) => {
            *device = found;
            *place = 0;
            0
        }
        Err(refusal) => {
            *place = refusal.place;
            refusal.status.number()
        }
    }
}
