//! The device of a script, in either form.
ghost use Rattle.std.specs.Prelude.{◌≡◌, ◌<◌, ◌^◌, IsTrue, IsSomeAnd, IfOk, MatchOption, MatchResult, option_map, Ok, Err, None, false};
ghost use Rattle.std.specs.List.{AllByRecursion as Each, list_any};
ghost use Rattle.onfi_addr.specs.Faults.{IsFirstFault, NoFault};
ghost use Rattle.onfi_script.specs.Device as spec;
ghost use Rattle.onfi_script.specs.Layout.{IsSectored};
ghost use Rattle.onfi_script.specs.Seen.{seen as spec_seen};
ghost use Rattle.onfi_script.specs.Stop.{IfFault, Tells};
ghost use Rattle.onfi_script.specs.Subject.{row_on as spec_row_on};

use crate::device::{Device, PageDevice};
use crate::device_row::ShapeRow;
use crate::fault::{RowStop, ScriptFault};
use crate::layout::{GeometryRow, with_sectors};
use crate::row::{Row, Subject};
use crate::row_name::Form;
use crate::seen::Seen;
use onfi_addr::{Geometry, GeometryFault};
use onfi_param::{ParamPage, read_page};
use onfi_timing::{Kind, Sheet, Spans, StrobeFault, Strobes, Timing};
use std::alloc::{AllocError, Global};

/// The row that settles a subject.
pub fn row_on(rows: &[Row], subject: Subject) -> Option<&Row>
    ensures { option_map (λ r. r.now) result ≡ spec_row_on subject rows.now }
{
    rows.iter().find(|row| row.settles(subject))
}

/// The row `shape`.
fn shape(rows: &[Row]) -> Option<&ShapeRow>
    ensures { option_map (λ r. r.now) result ≡ spec.shape_in rows.now }
{
    match row_on(rows, Subject::Shape) {
        Some(Row::Shape(shape)) => Some(shape),
        _ => None,
    }
}

/// The row `geometry`.
fn geometry(rows: &[Row]) -> Option<&GeometryRow>
    ensures { option_map (λ r. r.now) result ≡ spec.geometry_in rows.now }
{
    match row_on(rows, Subject::Geometry) {
        Some(Row::Geometry(geometry)) => Some(geometry),
        _ => None,
    }
}

/// The lengths of a kind.
fn spans(rows: &[Row], kind: Kind) -> Option<Spans>
    ensures { MatchOption result (spec.spans_in kind rows.now ≡ None) (λ spans. IsSomeAnd (spec.spans_in kind rows.now) (λ row. spec.HasLengths row spans)) }
{
    match row_on(rows, Subject::Spans(kind)) {
        Some(Row::Spans(row)) => Some(row.spans()),
        _ => None,
    }
}

/// The post of so many sectors; 0 where no row gives one.
fn sector_post(rows: &[Row], count: u8) -> u64
    ensures value { result ≡ spec.sector_post_at rows.now count }
    ensures short { result < 2 ^ 50 }
{
    match row_on(rows, Subject::SectorPost(count)) {
        Some(Row::SectorPost(row)) => row.post(),
        _ => 0,
    }
}

/// The posts of one to seven sectors.
fn sector_posts(rows: &[Row]) -> [u64; 7]
    ensures value { result ≡ spec.sector_posts_in rows.now }
    ensures short { Each (λ post. post < 2 ^ 50) result }
{
    [
        sector_post(rows, 1),
        sector_post(rows, 2),
        sector_post(rows, 3),
        sector_post(rows, 4),
        sector_post(rows, 5),
        sector_post(rows, 6),
        sector_post(rows, 7),
    ]
}

/// The lengths of each kind, and of reads of some sectors.
fn timing(rows: &[Row]) -> Option<Timing>
    ensures { MatchOption result (IsTrue (spec.lacks_spans rows.now)) (λ timing. (spec.lacks_spans rows.now ≡ false) × spec.HasTiming rows.now timing) }
{
    let read = spans(rows, Kind::Read)?;
    let program = spans(rows, Kind::Program)?;
    let erase = spans(rows, Kind::Erase)?;
    let timing = Timing::new(read, program, erase);
    Some(timing.with_posts(&sector_posts(rows)))
}

/// The device of a script of the first form.
fn first_form(rows: &[Row]) -> Result<Device, ScriptFault>
    ensures { spec.TellsFirst rows.now result }
{
    let Some(shape) = shape(rows) else {
        return Err(ScriptFault::Missing);
    };
    let Some(timing) = timing(rows) else {
        return Err(ScriptFault::Missing);
    };
    Ok(Device {
        luns: shape.luns(),
        plane_bits: shape.plane_bits(),
        reads: shape.read(),
        writes: shape.write(),
        timing,
    })
}

/// Whether rows have bytes of a parameter page.
pub fn has_page(rows: &[Row]) -> bool
    ensures { result ≡ list_any spec.is_page rows.now }
{
    rows.iter().any(|row| row.is_page())
}

/// The bytes of a parameter page, those of all its rows joined.
///
/// # Errors
/// Where memory was refused.
pub fn page_bytes(alloc: Global, rows: &[Row]) -> Result<Vec<u8>, AllocError>
    ensures { IfOk result (λ v. v.items ≡ spec.page_bytes rows.now) }
{
    let mut bytes = Vec::new(alloc);
    for row in rows {
        bytes.extend_from_slice(row.bytes())?;
    }
    Ok(bytes)
}

/// The bytes of a sector; 0 where no row says.
fn sector_bytes(rows: &[Row]) -> u16
    ensures { result ≡ spec.sector_in rows.now }
{
    match row_on(rows, Subject::Sector) {
        Some(Row::Sector { bytes }) => *bytes,
        _ => 0,
    }
}

/// The phase lengths by page and sheet, and by strobes where there are any, for sectors of so many bytes.
fn time_phases(
    page: &ParamPage,
    geometry: &Geometry,
    sheet: &Sheet,
    strobes: Option<Strobes>,
    sector: u16,
) -> Result<Timing, StrobeFault>
    ensures { MatchResult result (spec.IsTimed page.now geometry.now sheet.now strobes sector) (spec.IsUntimed sheet.now strobes) }
{
    match strobes {
        Some(strobes) => Timing::of_strobed_sectors(page, geometry, sheet, &strobes, sector),
        None => match Timing::of_sectors(page, geometry, sheet, sector) {
            Ok(timing) => Ok(timing),
            Err(fault) => Err(StrobeFault::Sheet(fault)),
        },
    }
}

/// The geometry of a page, with sectors of so many bytes where a page has as many.
fn geometry_of(page: &ParamPage, sector: u16) -> Result<Geometry, GeometryFault>
    ensures { MatchResult result (λ geometry. NoFault page.now × IsSectored page.now sector geometry) (IsFirstFault page.now) }
{
    match Geometry::of(page) {
        Ok(geometry) => Ok(with_sectors(geometry, sector)),
        Err(fault) => Err(fault),
    }
}

/// The chips that page, sheet and strobes describe.
fn describe_chips(
    bytes: &[u8],
    sheet: &Sheet,
    strobes: Option<Strobes>,
    sector: u16,
) -> Result<PageDevice, ScriptFault>
    ensures { spec.TellsPageDevice bytes.now sheet.now strobes sector result }
{
    let page = match read_page(bytes) {
        Ok(page) => page,
        Err(fault) => return Err(ScriptFault::Page(fault)),
    };
    let geometry = match geometry_of(&page, sector) {
        Ok(geometry) => geometry,
        Err(fault) => return Err(ScriptFault::Geometry(fault)),
    };
    match time_phases(&page, &geometry, sheet, strobes, sector) {
        Ok(timing) => Ok(PageDevice { geometry, timing }),
        Err(StrobeFault::Sheet(fault)) => Err(ScriptFault::Sheet(fault)),
        Err(fault) => Err(ScriptFault::Strobe(fault)),
    }
}

/// The chips that page, sheet and strobes of rows describe, which show this.
fn describe_paged_chips(alloc: Global, rows: &[Row], seen: &Seen) -> Result<PageDevice, RowStop>
    requires { seen.now ≡ spec_seen rows.now }
    ensures { Tells IfFault (λ device. device) result (spec.TellsPaged rows.now) }
{
    if !has_page(rows) {
        return Err(RowStop::Fault(ScriptFault::Missing));
    }
    let Ok(bytes) = page_bytes(alloc, rows) else {
        return Err(RowStop::Memory);
    };
    let sector = sector_bytes(rows);
    let device = describe_chips(bytes.as_slice(), &seen.sheet, seen.strobes, sector)?;
    Ok(device)
}

/// The chips of a run of the first form.
fn describe_spanned_chips(rows: &[Row]) -> Result<PageDevice, ScriptFault>
    ensures { spec.TellsSpanned rows.now result }
{
    let Some(shape) = shape(rows) else {
        return Err(ScriptFault::Missing);
    };
    let Some(geometry) = geometry(rows) else {
        return Err(ScriptFault::Missing);
    };
    let Some(timing) = timing(rows) else {
        return Err(ScriptFault::Missing);
    };
    Ok(PageDevice {
        geometry: geometry.geometry(shape),
        timing,
    })
}

/// The chips that the rows of a run describe.
///
/// # Errors
/// `Missing` where no row has bytes of a page, and where the first form lacks its shape, its geometry or lengths of a kind;
/// else what is wrong with page, geometry, sheet or strobes; and where memory was refused.
pub fn page_device(alloc: Global, rows: &[Row]) -> Result<PageDevice, RowStop>
    ensures { MatchResult result (λ device. spec.TellsChips rows.now (Ok device)) (λ stop. IfFault stop (λ fault. spec.TellsChips rows.now (Err fault))) }
{
    let seen = Seen::of(rows);
    match seen.form {
        Some(Form::First) => Ok(describe_spanned_chips(rows)?),
        None | Some(Form::Second) => describe_paged_chips(alloc, rows, &seen),
    }
}

/// The device of a script of the second form.
fn second_form(alloc: Global, rows: &[Row], seen: &Seen) -> Result<Device, RowStop>
    requires { seen.now ≡ spec_seen rows.now }
    ensures { Tells IfFault (λ device. device) result (spec.TellsSecond rows.now) }
{
    let PageDevice { geometry, timing } = describe_paged_chips(alloc, rows, seen)?;
    Ok(Device {
        luns: geometry.lun_count,
        plane_bits: geometry.plane_address_bits,
        reads: geometry.multi_plane_reads,
        writes: geometry.multi_plane_writes,
        timing,
    })
}

/// The device that the rows describe.
pub fn device_of(alloc: Global, rows: &[Row]) -> Result<Device, RowStop>
    ensures { MatchResult result (λ device. spec.TellsDevice rows.now (Ok device)) (λ stop. IfFault stop (λ fault. spec.TellsDevice rows.now (Err fault))) }
{
    let seen = Seen::of(rows);
    match seen.form {
        None => Err(RowStop::Fault(ScriptFault::Missing)),
        Some(Form::First) => Ok(first_form(rows)?),
        Some(Form::Second) => second_form(alloc, rows, &seen),
    }
}
