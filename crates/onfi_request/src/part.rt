//! What of a page is put out: all of it, or some sectors.
ghost use Rattle.std.specs.Prelude.{◌≡◌};
ghost use Rattle.onfi_request.specs.Parts as spec;

use onfi_addr::Geometry;
use onfi_timing::Kind;

/// Whether a page has the sectors that a kind names: one to seven that lie on it. Of a kind that names none it is so.
pub fn has_part(geometry: &Geometry, kind: Kind) -> bool
    ensures { result ≡ spec.has_part geometry.now kind }
{
    match kind {
        Kind::Read | Kind::Program | Kind::Erase => true,
        Kind::ReadSectors { first, count } => has_sectors(geometry, first, count),
    }
}

// Whether that many sectors from that one on lie on a page.
fn has_sectors(geometry: &Geometry, first: u8, count: u8) -> bool
    ensures { result ≡ spec.has_sectors geometry.now first count }
{
    let sectors = u16::from(first) + u16::from(count);
    let end = u32::from(sectors) * u32::from(geometry.sector_bytes);
    1 <= count
        && (count <= 7 && (1 <= geometry.sector_bytes && end <= u32::from(geometry.page_bytes())))
}

/// How many bytes the output of a read has; of a program or an erase none are put out.
pub fn bytes_out(geometry: &Geometry, kind: Kind) -> u32
    ensures { result ≡ spec.bytes_out geometry.now kind }
{
    match kind {
        Kind::Read | Kind::ReadSectors { count: 0, .. } => u32::from(geometry.page_bytes()),
        Kind::ReadSectors { count, .. } => u32::from(count) * u32::from(geometry.sector_bytes),
        Kind::Program | Kind::Erase => 0,
    }
}

/// The column, in bytes, at which the output of a read begins: that of its first sector, or 0.
pub fn first_column(geometry: &Geometry, kind: Kind) -> u32
    ensures { result ≡ spec.first_column geometry.now kind }
{
    match kind {
        Kind::ReadSectors { first, .. } => u32::from(first) * u32::from(geometry.sector_bytes),
        Kind::Read | Kind::Program | Kind::Erase => 0,
    }
}
