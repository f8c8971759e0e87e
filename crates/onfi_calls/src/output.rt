//! What a phase puts out of its page.
ghost use Rattle.std.specs.Prelude.{◌≡◌, true, IfOk, IfErr, IfNone, IfSome};
ghost use Rattle.onfi_request.specs.Parts.{has_part};
ghost use Rattle.onfi_calls.specs.Output as spec;
ghost use Rattle.onfi_calls.specs.Geometry.{IsNoGeometry};

use crate::device::PlainGeometry;
use crate::geometry::geometry_of;
use crate::phase::PlainPhase;
use crate::problem::kind_of;
use crate::status::Status;
use onfi_addr::Geometry;
use onfi_request::{bytes_out, first_column, has_part};
use onfi_timing::Kind;

/// What a phase puts out of its page: the column at which it begins, in bytes, and how many bytes it has.
#[repr(C)]
#[derive(Clone, Copy)]
pub struct PlainOutput {
    pub column: u16,
    pub bytes: u16,
}

/// The kind whose sectors, if it names some, are those from that one on.
fn from_sector(first: u8, kind: Kind) -> Kind
    ensures { result ≡ spec.from_sector first kind }
{
    match kind {
        Kind::ReadSectors { count, .. } => Kind::ReadSectors { first, count },
        Kind::Read | Kind::Program | Kind::Erase => kind,
    }
}

/// The geometry that is said, if it is one, with sectors of that many bytes.
fn divide_page(said: &PlainGeometry, sector_bytes: u16) -> Option<Geometry>
    ensures some { IfSome result (λ geometry. spec.IsSectored said.now sector_bytes geometry) }
    ensures none { IfNone result (IsNoGeometry said.now) }
{
    let Some(mut geometry) = geometry_of(said) else {
        return None;
    };
    geometry.sector_bytes = sector_bytes;
    Some(geometry)
}

/// What a phase of that kind puts out.
fn output_in(geometry: &Geometry, phase: &PlainPhase, kind: Kind) -> PlainOutput
    requires { has_part geometry.now kind ≡ true }
    ensures { result ≡ spec.output_of geometry.now phase.now kind }
{
    if !phase.is_post {
        return PlainOutput {
            column: 0,
            bytes: 0,
        };
    }
    PlainOutput {
        column: first_column(geometry, kind) as u16,
        bytes: bytes_out(geometry, kind) as u16,
    }
}

/// The same on the device that is said.
fn find_output(
    said: &PlainGeometry,
    sector_bytes: u16,
    phase: &PlainPhase,
    first: u8,
) -> Result<PlainOutput, Status>
    ensures output { IfOk result (λ output. spec.IsOutputSaid said.now sector_bytes phase.now first output) }
    ensures none { IfErr result (λ status. spec.IsNoOutput said.now sector_bytes phase.now first status) }
{
    if phase.kind % 32 > 2 {
        return Err(Status::BadKind);
    }
    let Some(geometry) = divide_page(said, sector_bytes) else {
        return Err(Status::BadGeometry);
    };
    let kind = from_sector(first, kind_of(phase.kind));
    if !has_part(&geometry, kind) {
        return Err(Status::BadSectors);
    }
    Ok(output_in(&geometry, phase, kind))
}

/// The column and the count of bytes of what a phase puts out (ONFI 4.2, Change Read Column Enhanced): of the post of a read all of
/// its page, or the sectors that its kind names, from sector `first` on, of that many bytes each; of any other phase none. Of the phase
/// its kind and whether it is a post are looked at.
///
/// Answers 0; or the first of the numbers of `BadKind`, `BadGeometry` and, where a read names sectors that its page doesn't have,
/// its command too, `BadSectors`; and the output is as it was.
pub fn onfi_output_of(
    geometry: &PlainGeometry,
    sector_bytes: u16,
    phase: &PlainPhase,
    first: u8,
    output: &mut PlainOutput,
) -> u32
    ensures { spec.GivesOutput geometry.now sector_bytes phase.now first output.old output.new result }
{
    match find_output(geometry, sector_bytes, phase, first) {
        Ok(told) => {
            *output = told;
            0
        }
        Err(status) => status.number(),
    }
}
