//! The rows of reads of some sectors: how long their outputs hold the bus, and who puts out how many.
ghost use Rattle.std.specs.Prelude.{◌≡◌, ◌≤◌, ◌<◌, ◌^◌, length, drop, IfOk, MatchResult};
ghost use Rattle.csv.specs.Records.{fields_of};
ghost use Rattle.onfi_script.specs.Field.{sectors as sectors_in};
ghost use Rattle.onfi_script.specs.Row.{each_of};
ghost use Rattle.onfi_script.specs.SectorRow as spec;

use crate::fault::ScriptFault;
use crate::field::{field, lun, read_small, read_span, sector_bytes, sectors};
use crate::row::Row;
use csv::ByteRecord;
use smallvec::SmallVec;
use std::alloc::Global;
use std::marker::Model;

/// How long an output of one to seven sectors holds the bus, in ns.
#[derive(Drop)]
pub struct SectorPostRow {
    count: u8,
    post: u64,
}

impl Model for SectorPostRow {
    ghost use Rattle.std.specs.Prelude.{◌≤◌, ◌<◌, ◌^◌};
    ghost use Rattle.onfi_script.specs.RowParts.{SectorPostRow as Said};

    ghost Value = { Said };

    ghost view = { λ r. record { count = r.count; post = r.post } };

    ghost invariant = { λ r. (1 ≤ r.count) × (r.count ≤ 7) × (1 ≤ r.post) × (r.post < 2 ^ 50) };
}

impl SectorPostRow {
    /// How many sectors.
    pub fn count(&self) -> u8
        ensures { result ≡ self.now.count }
    {
        self.count
    }

    /// How long their output holds the bus.
    pub fn post(&self) -> u64
        ensures value { result ≡ self.now.post }
        ensures short { result < 2 ^ 50 }
    {
        self.post
    }
}

/// How many sectors the members of what runs on a LUN put out, in the order of its blocks; 0 is all of a page.
#[derive(Drop)]
pub struct RunSectorsRow {
    lun: u8,
    counts: SmallVec<u8, 4>,
}

impl Model for RunSectorsRow {
    ghost use Rattle.onfi_script.specs.RowParts.{RunSectorsRow as Said};

    ghost Value = { Said };

    ghost view = { λ r. record { lun = r.lun; counts = r.counts.items } };
}

impl RunSectorsRow {
    /// The LUN.
    pub fn lun(&self) -> u8
        ensures { result ≡ self.now.lun }
    {
        self.lun
    }

    /// How many sectors each member puts out.
    pub fn counts(&self) -> &[u8]
        ensures { result.now ≡ self.now.counts }
    {
        self.counts.as_slice()
    }
}

/// `sectorpost,N,POST`
pub fn sector_post_row(row: &ByteRecord) -> Result<Row, ScriptFault>
    ensures { result ≡ spec.sector_post_row (fields_of row.now) }
{
    let count = read_small(field(row, 1), 1, 7)?;
    let post = read_span(field(row, 2), 1)?;
    Ok(Row::SectorPost(SectorPostRow { count, post }))
}

/// `sector,BYTES`
pub fn sector_row(row: &ByteRecord) -> Result<Row, ScriptFault>
    ensures { result ≡ spec.sector_row (fields_of row.now) }
{
    let bytes = sector_bytes(field(row, 1))?;
    Ok(Row::Sector { bytes })
}

/// `sectors,REQUEST,N`
pub fn sectors_row(row: &ByteRecord) -> Result<Row, ScriptFault>
    ensures { result ≡ spec.sectors_row (fields_of row.now) }
{
    let request = read_small(field(row, 1), 0, 7)?;
    let count = sectors(field(row, 2))?;
    Ok(Row::Sectors { request, count })
}

/// The sectors that a row names from field number 2 on.
#[tactic(auto, using(crate::proofs::BlockLemmas::drop_field))]
fn counts(alloc: Global, row: &ByteRecord) -> Result<SmallVec<u8, 4>, ScriptFault>
    requires some { 3 ≤ length (fields_of row.now) }
    requires few { length (fields_of row.now) ≤ 6 }
    ensures { MatchResult result (λ v. each_of sectors_in (drop 2 (fields_of row.now)) ≡ Ok v.items) (λ e. each_of sectors_in (drop 2 (fields_of row.now)) ≡ Err e) }
{
    let mut counts = SmallVec::new(alloc);
    for at in 2..row.len() {
        counts.push_reserved(sectors(field(row, at))?);
    }
    Ok(counts)
}

/// `runsectors,LUN,N..`
pub fn run_sectors_row(alloc: Global, row: &ByteRecord) -> Result<Row, ScriptFault>
    requires some { 3 ≤ length (fields_of row.now) }
    requires few { length (fields_of row.now) ≤ 6 }
    ensures { result ≡ spec.run_sectors_row (fields_of row.now) }
{
    let lun = lun(field(row, 1))?;
    let counts = counts(alloc, row)?;
    Ok(Row::RunSectors(RunSectorsRow { lun, counts }))
}
