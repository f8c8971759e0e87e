//! The rows of a problem: its bus, its LUNs, its requests and how they are grouped and weighed.
ghost use Rattle.std.specs.Prelude.{◌≡◌, ◌≤◌, length, drop, take, IfOk, MatchResult};
ghost use Rattle.std.specs.List.{list_any};
ghost use Rattle.csv.specs.Records.{fields_of};
ghost use Rattle.onfi_script.specs.Row as spec;
ghost use Rattle.onfi_script.specs.Setup.{is_amiss, members};
ghost use Rattle.onfi_problem.specs.declared.lun_state.LunState.TheVariants.{Running};

use crate::fault::ScriptFault;
use crate::field::{block, field, flag, kind, lun, page, read_small, time, weight};
use crate::row::Row;
use crate::sectors::is_amiss;
use csv::ByteRecord;
use onfi_addr::plane_at;
use onfi_group::Group;
use onfi_problem::LunState;
use onfi_request::Want;
use onfi_timing::Kind;
use smallvec::SmallVec;
use std::alloc::Global;
use std::marker::Model;

/// A LUN runs a group of one to four blocks, of which phase `next` may start from `ready`.
#[derive(Drop)]
pub struct RunningRow {
    lun: u8,
    next: u8,
    ready: u64,
    kind: Kind,
    page: u16,
    blocks: SmallVec<u16, 4>,
}

impl Model for RunningRow {
    ghost use Rattle.std.specs.Prelude.{◌≤◌, length};
    ghost use Rattle.onfi_script.specs.RowParts.{RunningRow as Said};

    ghost Value = { Said };

    ghost view = { λ r. record { lun = r.lun; next = r.next; ready = r.ready; kind = r.kind; page = r.page; blocks = r.blocks.items } };

    ghost invariant = { λ r. (1 ≤ length r.blocks.items) × (length r.blocks.items ≤ 4) };
}

impl RunningRow {
    /// The LUN.
    pub fn lun(&self) -> u8
        ensures { result ≡ self.now.lun }
    {
        self.lun
    }

    /// Whether one of its members is to put out sectors and is no read.
    pub fn is_amiss(&self, counts: &[u8]) -> bool
        ensures { result ≡ list_any (λ count. is_amiss count self.now.kind) (take (length self.now.blocks) counts.now) }
    {
        let kind = self.kind;
        counts
            .iter()
            .take(self.blocks.len())
            .any(|count| is_amiss(*count, kind))
    }

    /// The group that runs.
    fn group(&self, alloc: Global, plane_bits: u8) -> Group
        requires { plane_bits ≤ 2 }
        ensures { result ≡ members plane_bits self.now }
    {
        let mut members = SmallVec::<Want, 4>::new(alloc);
        for block in self.blocks.as_slice() {
            members.push_reserved(Want {
                id: 0,
                kind: self.kind,
                lun: self.lun,
                plane: plane_at(plane_bits, *block),
                block: *block,
                page: self.page,
            });
        }
        Group::of(alloc, members.as_slice())
    }

    /// What its LUN does.
    pub fn state(&self, alloc: Global, plane_bits: u8) -> LunState
        requires { plane_bits ≤ 2 }
        ensures { result ≡ Running (members plane_bits self.now) self.now.next self.now.ready }
    {
        LunState::Running {
            group: self.group(alloc, plane_bits),
            next: self.next,
            ready: self.ready,
        }
    }
}

/// `bus,T`
pub fn bus_row(row: &ByteRecord) -> Result<Row, ScriptFault>
    ensures { result ≡ spec.bus_row (fields_of row.now) }
{
    let bus_free = time(field(row, 1))?;
    Ok(Row::Bus { bus_free })
}

/// `free,LUN,T`
pub fn free_row(row: &ByteRecord) -> Result<Row, ScriptFault>
    ensures { result ≡ spec.free_row (fields_of row.now) }
{
    let lun = lun(field(row, 1))?;
    let since = time(field(row, 2))?;
    Ok(Row::Free { lun, since })
}

/// The blocks that a row names from field number 6 on.
#[tactic(auto, using(crate::proofs::BlockLemmas::drop_field))]
fn blocks(alloc: Global, row: &ByteRecord) -> Result<SmallVec<u16, 4>, ScriptFault>
    requires some { 7 ≤ length (fields_of row.now) }
    requires few { length (fields_of row.now) ≤ 10 }
    ensures value { MatchResult result (λ v. spec.blocks_of (drop 6 (fields_of row.now)) ≡ Ok v.items) (λ e. spec.blocks_of (drop 6 (fields_of row.now)) ≡ Err e) }
    ensures len { IfOk result (λ v. (1 ≤ length v.items) × (length v.items ≤ 4)) }
{
    let mut blocks = SmallVec::new(alloc);
    for at in 6..row.len() {
        blocks.push_reserved(block(field(row, at))?);
    }
    Ok(blocks)
}

/// `running,LUN,NEXT,READY,KIND,PAGE,BLOCK..`
pub fn running_row(alloc: Global, row: &ByteRecord) -> Result<Row, ScriptFault>
    requires some { 7 ≤ length (fields_of row.now) }
    requires few { length (fields_of row.now) ≤ 10 }
    ensures { result ≡ spec.running_row (fields_of row.now) }
{
    let lun = lun(field(row, 1))?;
    let next = read_small(field(row, 2), 0, 7)?;
    let ready = time(field(row, 3))?;
    let kind = kind(field(row, 4))?;
    let page = page(field(row, 5))?;
    let blocks = blocks(alloc, row)?;
    Ok(Row::Running(RunningRow {
        lun,
        next,
        ready,
        kind,
        page,
        blocks,
    }))
}

/// `want,KIND,LUN,BLOCK,PAGE`
pub fn want_row(row: &ByteRecord) -> Result<Row, ScriptFault>
    ensures { result ≡ spec.want_row (fields_of row.now) }
{
    let kind = kind(field(row, 1))?;
    let lun = lun(field(row, 2))?;
    let block = block(field(row, 3))?;
    let page = page(field(row, 4))?;
    Ok(Row::Want {
        kind,
        lun,
        block,
        page,
    })
}

/// `weight,REQUEST,N`
pub fn weight_row(row: &ByteRecord) -> Result<Row, ScriptFault>
    ensures { result ≡ spec.weight_row (fields_of row.now) }
{
    let request = read_small(field(row, 1), 0, 7)?;
    let weight = weight(field(row, 2))?;
    Ok(Row::Weight { request, weight })
}

/// `strict,FLAG`
pub fn strict_row(row: &ByteRecord) -> Result<Row, ScriptFault>
    ensures { result ≡ spec.strict_row (fields_of row.now) }
{
    let strict = flag(field(row, 1))?;
    Ok(Row::Strict { strict })
}
