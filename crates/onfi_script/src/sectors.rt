//! How many sectors the reads of a script put out.
ghost use Rattle.std.specs.Prelude.{◌≡◌, map, take, length, IfOk};
ghost use Rattle.std.specs.List.{list_any};
ghost use Rattle.onfi_script.specs.Setup as spec;

use crate::forms::row_on;
use crate::row::{Row, Subject};
use onfi_group::Group;
use onfi_problem::LunState;
use onfi_request::Want;
use onfi_timing::Kind;
use smallvec::SmallVec;
use std::alloc::{AllocError, Global};

/// How many sectors the want of that number puts out; 0, all of a page, where no row says.
fn sectors_of(rows: &[Row], id: u64) -> u8
    ensures { result ≡ spec.sectors_at rows.now id }
{
    if id >= 8 {
        return 0;
    }
    match row_on(rows, Subject::Sectors(id as u8)) {
        Some(Row::Sectors { count, .. }) => *count,
        _ => 0,
    }
}

/// How many the members of what runs on a LUN put out, in order; those that lack a number put out all of a page.
fn run_sectors(rows: &[Row], lun: u8) -> &[u8]
    ensures { result.now ≡ spec.run_sectors_at rows.now lun }
{
    match row_on(rows, Subject::RunSectors(lun)) {
        Some(Row::RunSectors(row)) => row.counts(),
        _ => b"",
    }
}

/// A kind that puts out that many sectors, where it is a read.
fn put_out_sectors(count: u8, kind: Kind) -> Kind
    ensures { result ≡ spec.putting_out count kind }
{
    if count == 0 {
        return kind;
    }
    match kind {
        Kind::Read => Kind::ReadSectors { first: 0, count },
        _ => kind,
    }
}

/// A want that puts out that many sectors, where it is a read.
fn with_sectors(count: u8, want: Want) -> Want
    ensures { result ≡ spec.with_sectors count want }
{
    Want {
        kind: put_out_sectors(count, want.kind),
        ..want
    }
}

/// The wants with the sectors that the rows say.
///
/// # Errors
/// Where memory was refused.
pub fn ask_sectors(alloc: Global, rows: &[Row], wants: &[Want]) -> Result<Vec<Want>, AllocError>
    ensures { IfOk result (λ v. v.items ≡ map (spec.asked rows.now) wants.now) }
{
    let mut asked = Vec::new(alloc);
    for want in wants {
        asked.push(with_sectors(sectors_of(rows, want.id), *want))?;
    }
    Ok(asked)
}

/// The members of a group with that many sectors each.
#[tactic(auto, unfolding(crate::specs::Setup::each_asked))]
fn each_asked(alloc: Global, counts: &[u8], group: &Group) -> Group
    ensures { result ≡ spec.each_asked 0 counts.now group.now }
{
    let all = group.members();
    let mut members = SmallVec::<Want, 4>::new(alloc);
    for (at, member) in all.iter().enumerate() {
        let count = *counts.get(at).unwrap_or(&0);
        members.push_reserved(with_sectors(count, *member));
    }
    Group::of(alloc, members.as_slice())
}

/// What a LUN does, with the sectors that the rows say of what runs on it.
pub fn run_asked(alloc: Global, rows: &[Row], lun: u8, state: LunState) -> LunState
    ensures { result ≡ spec.run_asked (spec.run_sectors_at rows.now lun) state }
{
    match state {
        LunState::Free { since } => LunState::Free { since },
        LunState::Running { group, next, ready } => LunState::Running {
            group: each_asked(alloc, run_sectors(rows, lun), &group),
            next,
            ready,
        },
    }
}

/// Whether something else than a read is to put out some sectors.
pub fn is_amiss(count: u8, kind: Kind) -> bool
    ensures { result ≡ spec.is_amiss count kind }
{
    match kind {
        Kind::Read | Kind::ReadSectors { .. } => false,
        Kind::Program | Kind::Erase => count > 0,
    }
}

/// Whether a row of what runs on a LUN is to put out sectors and is no read.
fn runs_amiss(rows: &[Row], row: &Row) -> bool
    ensures { result ≡ spec.runs_amiss rows.now row.now }
{
    match row {
        Row::Running(row) => row.is_amiss(run_sectors(rows, row.lun())),
        _ => false,
    }
}

/// Whether one of these wants is to put out sectors and is no read.
fn wants_amiss(rows: &[Row], wants: &[Want]) -> bool
    ensures { result ≡ list_any (spec.want_amiss rows.now) wants.now }
{
    wants
        .iter()
        .any(|want| is_amiss(sectors_of(rows, want.id), want.kind))
}

/// Whether something that runs is to put out sectors and is no read.
fn any_runs_amiss(rows: &[Row]) -> bool
    ensures { result ≡ list_any (spec.runs_amiss rows.now) rows.now }
{
    rows.iter().any(|row| runs_amiss(rows, row))
}

/// Whether rows have something else than a read put out sectors, of these wants or of what runs.
pub fn asks_amiss(rows: &[Row], wants: &[Want]) -> bool
    ensures { result ≡ spec.asks_amiss rows.now wants.now }
{
    wants_amiss(rows, wants) || any_runs_amiss(rows)
}
