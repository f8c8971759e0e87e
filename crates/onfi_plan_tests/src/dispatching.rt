//! Each call of a dispatcher does what it is for.

ghost use Rattle.std.specs.Prelude.{◌≤◌};

use crate::rule_sample::timing;
use onfi_group::Rules;
use onfi_request::Want;
use onfi_steady::{AcceptFault, Dispatcher, NextPhase, RanFault, ReadyFault};
use onfi_timing::Kind;
use std::test::Fail;

const NONE: u64 = 99;

// Two planes, and groups of all kinds.
fn rules() -> Rules {
    Rules::new(true, true, false, 1)
}

// A request of page 0 of a block, whose last bit is its plane.
fn want(id: u64, kind: Kind, lun: u8, block: u16) -> Want
    ensures plane { result.plane ≤ 3 }
{
    Want {
        id,
        kind,
        lun: lun % 8,
        plane: (block % 2) as u8,
        block,
        page: 0,
    }
}

// The LUN of the phase, its start, and the numbers of those that begin, 99 in place of none.
fn numbers_of(next: &Option<NextPhase>) -> Option<(u8, u64, [u64; 4])> {
    match next {
        Some(phase) => Some((phase.lun, phase.start, numbers(phase.members()))),
        None => None,
    }
}

fn numbers(members: &[Want]) -> [u64; 4] {
    let mut ids = [NONE; 4];
    for (id, member) in ids.iter_mut().zip(members) {
        *id = member.id;
    }
    ids
}

// It may start once the bus is free and it is that late.
#[test]
fn when_a_read_starts(rt: HostRuntime) -> Result<(), Fail> {
    let mut dispatcher = Dispatcher::new(&timing(5)?, rules(), 1);
    dispatcher.wait(6);
    dispatcher.accept(want(1, Kind::Read, 0, 0))?;
    assert_eq!(rt;
        numbers_of(&dispatcher.look(4)),
        Some((0, 6, [1, NONE, NONE, NONE]))
    );
    assert_eq!(rt;
        numbers_of(&dispatcher.look(7)),
        Some((0, 7, [1, NONE, NONE, NONE]))
    );
    dispatcher.wait(8);
    assert_eq!(rt;
        numbers_of(&dispatcher.look(7)),
        Some((0, 8, [1, NONE, NONE, NONE]))
    );
    Ok(())
}

// A read waits for the open group on its block: it is work, and nothing else may begin.
#[test]
fn what_is_held_where_nothing_runs(rt: HostRuntime) -> Result<(), Fail> {
    let mut dispatcher = Dispatcher::new(&timing(5)?, rules(), 2);
    dispatcher.accept(want(1, Kind::Program, 1, 0))?;
    dispatcher.accept(want(2, Kind::Read, 1, 0))?;
    assert_eq!(rt;
        numbers_of(&dispatcher.next(3)),
        Some((1, 3, [1, NONE, NONE, NONE]))
    );
    Ok(())
}

// The newest program waits for its mates while another LUN works, but only until a later one comes.
#[test]
fn the_newest_program(rt: HostRuntime) -> Result<(), Fail> {
    let mut dispatcher = Dispatcher::new(&timing(5)?, rules(), 2);
    dispatcher.accept(want(1, Kind::Read, 1, 0))?;
    assert_eq!(rt;
        numbers_of(&dispatcher.next(0)),
        Some((1, 0, [1, NONE, NONE, NONE]))
    );
    dispatcher.ran(0)?;
    dispatcher.accept(want(2, Kind::Program, 0, 0))?;
    assert_eq!(rt;
        numbers_of(&dispatcher.next(0)),
        Some((1, 60, [NONE, NONE, NONE, NONE]))
    );
    dispatcher.accept(want(3, Kind::Program, 1, 0))?;
    assert_eq!(rt;
        numbers_of(&dispatcher.next(0)),
        Some((0, 10, [2, NONE, NONE, NONE]))
    );
    Ok(())
}

#[test]
fn what_is_refused(rt: HostRuntime) -> Result<(), Fail> {
    let mut dispatcher = Dispatcher::new(&timing(5)?, rules(), 2);
    assert_eq!(rt;
        dispatcher.accept(want(1, Kind::Read, 2, 0)),
        Err(AcceptFault::BadLun)
    );
    assert_eq!(rt; dispatcher.accept(want(7, Kind::Read, 1, 0)), Ok(()));
    assert_eq!(rt;
        dispatcher.accept(want(7, Kind::Read, 1, 2)),
        Err(AcceptFault::BadOrder)
    );
    assert_eq!(rt;
        dispatcher.accept_again(want(7, Kind::Read, 1, 0)),
        Err(AcceptFault::Waits)
    );
    assert_eq!(rt; dispatcher.ran(5), Err(RanFault::NothingDue));
    assert_eq!(rt;
        numbers_of(&dispatcher.next(3)),
        Some((1, 3, [7, NONE, NONE, NONE]))
    );
    assert_eq!(rt; dispatcher.ran(2), Err(RanFault::TooSoon));
    assert_eq!(rt; dispatcher.ran(1 << 62), Err(RanFault::TooLate));
    assert_eq!(rt; dispatcher.ready(1, 3), Err(ReadyFault::NotInArray));
    assert_eq!(rt; dispatcher.ready(2, 3), Err(ReadyFault::BadLun));
    assert_eq!(rt; dispatcher.ran(3), Ok(()));
    Ok(())
}

// A LUN has room for 64 requests.
#[test]
fn a_full_lun(rt: HostRuntime) -> Result<(), Fail> {
    let mut dispatcher = Dispatcher::new(&timing(5)?, rules(), 2);
    for id in 0..64u64 {
        dispatcher.accept(want(id, Kind::Read, 0, 0))?;
    }
    assert_eq!(rt;
        dispatcher.accept(want(64, Kind::Read, 0, 0)),
        Err(AcceptFault::Full)
    );
    assert_eq!(rt; dispatcher.accept(want(64, Kind::Read, 1, 0)), Ok(()));
    Ok(())
}

// What `next` gave is due no more once something changed.
#[test]
fn a_change_after_next(rt: HostRuntime) -> Result<(), Fail> {
    let mut dispatcher = Dispatcher::new(&timing(5)?, rules(), 2);
    dispatcher.accept(want(1, Kind::Read, 0, 0))?;
    assert_eq!(rt;
        numbers_of(&dispatcher.next(0)),
        Some((0, 0, [1, NONE, NONE, NONE]))
    );
    dispatcher.accept(want(2, Kind::Read, 0, 1))?;
    assert_eq!(rt; dispatcher.ran(0), Err(RanFault::NothingDue));
    assert_eq!(rt;
        numbers_of(&dispatcher.next(0)),
        Some((0, 0, [1, 2, NONE, NONE]))
    );
    Ok(())
}

// A look makes nothing due; where the bus waits nothing starts sooner, and nothing is due.
#[test]
fn a_look_and_a_wait(rt: HostRuntime) -> Result<(), Fail> {
    let mut dispatcher = Dispatcher::new(&timing(5)?, rules(), 2);
    assert_eq!(rt; numbers_of(&dispatcher.look(4)), None);
    dispatcher.accept(want(1, Kind::Read, 0, 0))?;
    assert_eq!(rt;
        numbers_of(&dispatcher.look(4)),
        Some((0, 4, [1, NONE, NONE, NONE]))
    );
    assert_eq!(rt; dispatcher.ran(4), Err(RanFault::NothingDue));
    assert_eq!(rt;
        numbers_of(&dispatcher.next(4)),
        Some((0, 4, [1, NONE, NONE, NONE]))
    );
    dispatcher.wait(9);
    assert_eq!(rt; dispatcher.ran(9), Err(RanFault::NothingDue));
    dispatcher.wait(7);
    assert_eq!(rt;
        numbers_of(&dispatcher.look(0)),
        Some((0, 9, [1, NONE, NONE, NONE]))
    );
    Ok(())
}

// The array of a read takes 50 ns; it is found ready after 20, and its output may start then.
#[test]
fn an_array_done_early(rt: HostRuntime) -> Result<(), Fail> {
    let mut dispatcher = Dispatcher::new(&timing(5)?, rules(), 1);
    dispatcher.accept(want(1, Kind::Read, 0, 0))?;
    assert_eq!(rt;
        numbers_of(&dispatcher.next(0)),
        Some((0, 0, [1, NONE, NONE, NONE]))
    );
    dispatcher.ran(0)?;
    assert_eq!(rt;
        numbers_of(&dispatcher.next(0)),
        Some((0, 60, [NONE, NONE, NONE, NONE]))
    );
    assert_eq!(rt; dispatcher.ready(0, 30), Ok(()));
    assert_eq!(rt;
        numbers_of(&dispatcher.next(0)),
        Some((0, 30, [NONE, NONE, NONE, NONE]))
    );
    dispatcher.ran(30)?;
    assert_eq!(rt; numbers_of(&dispatcher.next(0)), None);
    Ok(())
}

// One that is cancelled makes way for what waits for its block.
#[test]
fn a_request_that_is_cancelled(rt: HostRuntime) -> Result<(), Fail> {
    let mut dispatcher = Dispatcher::new(&timing(5)?, rules(), 2);
    dispatcher.accept(want(1, Kind::Program, 1, 0))?;
    dispatcher.accept(want(2, Kind::Read, 1, 0))?;
    assert!(rt; dispatcher.cancel(1));
    assert!(rt; !dispatcher.cancel(1));
    assert_eq!(rt;
        numbers_of(&dispatcher.next(0)),
        Some((1, 0, [2, NONE, NONE, NONE]))
    );
    Ok(())
}

// A number that waits isn't taken in, though the last one that waits is below it.
#[test]
fn two_of_one_number(rt: HostRuntime) -> Result<(), Fail> {
    let mut dispatcher = Dispatcher::new(&timing(5)?, rules(), 1);
    dispatcher.accept(want(4, Kind::Read, 0, 0))?;
    dispatcher.accept_again(want(7, Kind::Read, 0, 2))?;
    assert_eq!(rt;
        dispatcher.accept(want(7, Kind::Read, 0, 4)),
        Err(AcceptFault::Waits)
    );
    assert_eq!(rt; dispatcher.accept(want(6, Kind::Read, 0, 4)), Ok(()));
    Ok(())
}

// One that is taken in again goes before what waits for its block.
#[test]
fn a_request_once_more(rt: HostRuntime) -> Result<(), Fail> {
    let mut dispatcher = Dispatcher::new(&timing(5)?, rules(), 1);
    dispatcher.accept(want(4, Kind::Read, 0, 0))?;
    dispatcher.accept(want(6, Kind::Read, 0, 1))?;
    dispatcher.accept_again(want(5, Kind::Program, 0, 0))?;
    assert_eq!(rt;
        numbers_of(&dispatcher.next(0)),
        Some((0, 0, [6, NONE, NONE, NONE]))
    );
    assert!(rt; dispatcher.cancel(6));
    assert_eq!(rt;
        numbers_of(&dispatcher.next(0)),
        Some((0, 0, [5, NONE, NONE, NONE]))
    );
    Ok(())
}
