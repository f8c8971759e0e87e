ghost use Rattle.std.specs.Prelude.{◌≡◌, ◌+◌, ◌^◌, ◌<◌, ◌↔◌, IsTrue, IfOk, length, replicate};
ghost use Rattle.std.specs.List.{AllByRecursion as Each};
ghost use Rattle.onfi_request.specs.Range.{Fits};
ghost use Rattle.onfi_problem.specs.declared.lun_state.LunState.TheVariants as state;
ghost use Rattle.onfi_core.specs.State.{wants_from};

use onfi_addr::{Geometry, Place};
use onfi_chip::SimChip;
use onfi_die::Fault;
use onfi_group::Rules;
use onfi_planner::plan;
use onfi_problem::{LunState, Problem};
use onfi_request::{Answer, Item, Reply, Want, check};
use onfi_samples::{request_of, sample_geometry, sample_timing};
use onfi_seq::{BatchFault, run_batch};
use onfi_timing::Kind;
use std::alloc::{AllocError, Global};
use std::process::Abort;

/// An operation: its kind, LUN, block and page, and the byte that a program fills its page with.
type Op = (Kind, u8, u16, u16, u8);

/// What a reply says; `All` where each byte of a page is that one.
#[derive(Clone, Copy, Debug, PartialEq, Eq)]
enum Told {
    Done,
    Failed,
    All(u8),
    Mixed,
}

/// Which calls of the chip go wrong.
#[derive(Clone, Copy, Debug)]
struct Trouble<'a> {
    faults: &'a [Fault],
    calls: &'a [u32],
    statuses: &'a [u32],
}

fn told_by(reply: &Reply) -> (u64, Told) {
    let told = match &reply.answer {
        Answer::Done => Told::Done,
        Answer::Failed => Told::Failed,
        Answer::Read(bytes) => match bytes.as_slice().first() {
            Some(first) if bytes.as_slice().iter().all(|b| b == first) => Told::All(*first),
            Some(_) | None => Told::Mixed,
        },
    };
    (reply.place, told)
}

/// All of host 0, in that order.
fn items_of(alloc: Global, geometry: &Geometry, ops: &[Op]) -> Result<Vec<Item>, AllocError> {
    let mut items = Vec::new(alloc);
    let mut serial = 0u32;
    for (kind, lun, block, page, byte) in ops {
        let place = Place {
            lun: *lun,
            block: *block,
            page: *page,
        };
        items.push(Item {
            host: 0,
            serial,
            request: request_of(alloc, geometry, *kind, place, *byte)?,
        })?;
        serial = serial.wrapping_add(1);
    }
    Ok(items)
}

fn all_fit(geometry: &Geometry, items: &[Item]) -> bool
    ensures { IsTrue result ↔ Each (λ x. Fits geometry.now x.request) items.now }
{
    for item in items {
        if check(geometry, &item.request).is_err() {
            return false;
        }
    }
    true
}

/// The items as wants, numbered by their places.
fn wants_of(alloc: Global, geometry: &Geometry, items: &[Item]) -> Result<Vec<Want>, AllocError>
    ensures { IfOk result (λ wants. wants.items ≡ wants_from geometry.now 0 items.now) }
{
    let mut wants = Vec::with_capacity(alloc, items.len())?;
    for (id, item) in items.iter().enumerate() {
        wants.push(Want {
            id: id as u64,
            kind: item.request.kind,
            lun: item.request.place.lun,
            plane: geometry.plane_of(item.request.place.block),
            block: item.request.place.block,
            page: item.request.place.page,
        })?;
    }
    Ok(wants)
}

fn free_luns(alloc: Global, count: u8) -> Result<Vec<LunState>, AllocError>
    ensures { IfOk result (λ luns. luns.items ≡ replicate count (state.Free 0)) }
{
    let mut luns = Vec::with_capacity(alloc, usize::from(count))?;
    for _lun in 0..count {
        luns.push(LunState::Free { since: 0 })?;
    }
    Ok(luns)
}

/// The operations, planned as one batch, on a chip of that trouble.
fn drive(
    rt: &impl Abort,
    alloc: Global,
    geometry: &Geometry,
    ops: &[Op],
    trouble: Trouble,
) -> Result<Result<Vec<Reply>, BatchFault>, AllocError> {
    let timing = sample_timing();
    let items = items_of(alloc, geometry, ops)?;
    if !all_fit(geometry, items.as_slice()) {
        panic!(rt; "an item that the device doesn't take");
    }
    let wants = wants_of(alloc, geometry, items.as_slice())?;
    let luns = free_luns(alloc, geometry.lun_count)?;
    let rules = Rules::new(
        geometry.multi_plane_reads,
        geometry.multi_plane_writes,
        false,
        geometry.plane_address_bits,
    );
    let problem = Problem::new(alloc, timing, rules, 0, luns.as_slice(), wants.as_slice()).expect(
        rt,
        "a problem",
    );
    let planned = plan(alloc, &problem, 1_048_576).expect(rt, "a plan");
    let mut chip = SimChip::new(
        alloc,
        *geometry,
        timing,
        Vec::from_slice(alloc, trouble.faults)?,
        Vec::from_slice(alloc, trouble.calls)?,
        Vec::from_slice(alloc, trouble.statuses)?,
    )?;
    Ok(run_batch(
        alloc,
        &mut chip,
        geometry,
        &problem,
        &planned.schedule,
        items,
    ))
}

/// The second program or erase of block 4.
const TORN_ERASE: Fault = Fault {
    lun: 0,
    block: 4,
    number: 1,
};

/// The first of block 1.
const TORN_PLANE: Fault = Fault {
    lun: 0,
    block: 1,
    number: 0,
};

const ERASED_BETWEEN: [Op; 3] = [
    (Kind::Program, 0, 4, 0, 0xA5),
    (Kind::Erase, 0, 4, 0, 0),
    (Kind::Read, 0, 4, 0, 0),
];

const DOWNWARDS: [Op; 3] = [
    (Kind::Program, 0, 4, 3, 0xA5),
    (Kind::Program, 0, 4, 2, 0x5A),
    (Kind::Read, 0, 4, 2, 0),
];

/// Whether pages are programmed in any order, the operations, what fails, and the replies in their order.
type Row = (
    bool,
    &'static [Op],
    &'static [Fault],
    &'static [(u64, Told)],
);

const ROWS: [Row; 7] = [
    (
        false,
        &ERASED_BETWEEN,
        &[],
        &[(0, Told::Done), (1, Told::Done), (2, Told::All(0xFF))],
    ),
    (
        false,
        &ERASED_BETWEEN,
        &[TORN_ERASE],
        &[(0, Told::Done), (1, Told::Failed), (2, Told::All(0))],
    ),
    (
        false,
        &[
            (Kind::Program, 0, 4, 0, 0xA5),
            (Kind::Program, 0, 4, 0, 0x5A),
            (Kind::Read, 0, 4, 0, 0),
        ],
        &[],
        &[(0, Told::Done), (1, Told::Failed), (2, Told::All(0xA5))],
    ),
    (
        false,
        &DOWNWARDS,
        &[],
        &[(0, Told::Done), (1, Told::Failed), (2, Told::All(0xFF))],
    ),
    (
        true,
        &DOWNWARDS,
        &[],
        &[(0, Told::Done), (1, Told::Done), (2, Told::All(0x5A))],
    ),
    (
        false,
        &[
            (Kind::Program, 0, 0, 0, 0x11),
            (Kind::Program, 0, 1, 0, 0x22),
            (Kind::Read, 0, 1, 0, 0),
        ],
        &[TORN_PLANE],
        &[(0, Told::Done), (1, Told::Failed), (2, Told::All(0))],
    ),
    (
        false,
        &[(Kind::Erase, 0, 0, 0, 0), (Kind::Read, 1, 0, 0, 0)],
        &[],
        &[(1, Told::All(0xFF)), (0, Told::Done)],
    ),
];

#[test]
fn a_batch_gives_its_replies_in_order_of_post(rt: HostRuntime) -> Result<(), AllocError> {
    for (any_order, ops, faults, wants) in &ROWS {
        let mut geometry = sample_geometry();
        geometry.any_page_order = *any_order;
        let trouble = Trouble {
            faults,
            calls: &[],
            statuses: &[],
        };
        let replies = drive(&rt, rt.alloc(), &geometry, ops, trouble)?.expect(&rt, "replies");
        assert_eq!(rt; replies.len(), wants.len());
        for (reply, want) in replies.iter().zip(wants.iter()) {
            assert_eq!(rt; told_by(reply), *want, "{ops:?}");
        }
    }
    Ok(())
}

#[test]
fn a_failing_chip_ends_the_batch(rt: HostRuntime) -> Result<(), AllocError> {
    for (call, status, lun, want) in [
        (0, 9, 0, Some(BatchFault::Bus)),
        (1, 9, 0, Some(BatchFault::Bus)),
        (2, 9, 0, Some(BatchFault::Bus)),
        (3, 9, 0, Some(BatchFault::Bus)),
        (4, 9, 0, Some(BatchFault::Bus)),
        (5, 9, 0, Some(BatchFault::Bus)),
        (6, 9, 0, None),
        (9, 0, 0, Some(BatchFault::NotReady(0))),
        (9, 1, 1, Some(BatchFault::NotReady(1))),
    ] {
        let ops = [
            (Kind::Program, lun, 4, 0, 0xA5),
            (Kind::Erase, lun, 4, 0, 0),
            (Kind::Read, lun, 4, 0, 0),
        ];
        let trouble = Trouble {
            faults: &[],
            calls: &[call],
            statuses: &[status],
        };
        let told = drive(&rt, rt.alloc(), &sample_geometry(), &ops, trouble)?.err();
        assert_eq!(rt; told, want, "{call} {status}");
    }
    Ok(())
}
