ghost use Rattle.std.specs.Prelude.{◌≡◌, ◌<◌, IfOk};
ghost use Rattle.onfi_seq.specs.Sequencer.{IsFreshPoster};

use crate::opened::{new_chip, setup_of};
use onfi_addr::Place;
use onfi_cert::Token;
use onfi_check::check;
use onfi_chip::SimChip;
use onfi_core::Setup;
use onfi_planner::Planned;
use onfi_problem::Problem;
use onfi_queue::Host;
use onfi_reply::{Inbox, Poster};
use onfi_request::Request;
use onfi_samples::{request_of, sample_geometry};
use onfi_seq::{Gate, Sequencer, Turn};
use onfi_timing::Kind;
use std::alloc::{AllocError, Global};
use std::sync::Wait;

// A sequencer whose planner is not named: the plain one.

// A read of the first page of LUN 0.
fn read(alloc: Global) -> Result<Request, AllocError> {
    let place = Place {
        lun: 0,
        block: 0,
        page: 0,
    };
    request_of(alloc, &sample_geometry(), Kind::Read, place, 0)
}

// Whether that is the plan of the read: its group starts at 0, its post at 25,240, and `L` shows that none ends sooner.
fn is_plan_of_the_read(alloc: Global, last: Option<(&Problem, &Planned)>) -> bool {
    let Some((problem, planned)) = last else {
        return false;
    };
    let tokens = planned.cert.as_slice();
    let [group] = planned.schedule.groups() else {
        return false;
    };
    planned.finish == 36_240
        && tokens == [Token::Lead].as_slice()
        && planned
            .schedule
            .rest()
            .iter()
            .all(|starts| starts.as_slice().is_empty())
        && group.starts().as_slice() == [0, 25_240].as_slice()
        && check(alloc, problem, &planned.schedule, tokens) == Ok(36_240)
}

// A gate that is always open.
#[derive(Drop)]
struct Open;

impl Gate for Open {
    fn before(&mut self, _channel: u8, _turn: u64) {}
}

// The ends of the completion queue of a host.
fn open_replies(alloc: Global, setup: &Setup, host: u8) -> Result<(Poster, Inbox), AllocError>
    requires { host < 4 }
    ensures poster { IfOk result (λ ends. IsFreshPoster setup.now 0 host ends.0) }
{
    onfi_reply::open(alloc, 0, host, &setup.geometry, usize::from(setup.post_cap))
}

// The sequencer of the channel, and its hosts.
fn open_sequencer(
    alloc: Global,
    setup: &Setup,
) -> Result<(Sequencer<SimChip>, [Host; 4]), AllocError>
    requires hosts { setup.now.hosts ≡ 4 }
    requires channel { 0 < setup.now.channels }
{
    let chip = new_chip(alloc, setup)?;
    let (intake, hosts) = onfi_queue::open(
        alloc,
        0,
        &setup.geometry,
        usize::from(setup.submit_cap),
    )?;
    let (first, _) = open_replies(alloc, setup, 0)?;
    let (second, _) = open_replies(alloc, setup, 1)?;
    let (third, _) = open_replies(alloc, setup, 2)?;
    let (fourth, _) = open_replies(alloc, setup, 3)?;
    let posters = [first, second, third, fourth];
    let sequencer = Sequencer::open(alloc, *setup, 0, chip, intake, posters)?;
    Ok((sequencer, hosts))
}

#[test]
fn a_sequencer_tells_its_last_plan(rt: HostRuntime) -> Result<(), AllocError> {
    let alloc = rt.alloc();
    let setup = setup_of(&rt, 1, 8);
    let (mut sequencer, mut hosts) = open_sequencer(alloc, &setup)?;
    assert!(rt; sequencer.last().is_none());
    assert!(rt; hosts[0].submit(&rt, read(alloc)?).is_ok());
    assert_eq!(rt; sequencer.turn(&rt, alloc, &mut Open), Turn::Accepted);
    assert_eq!(rt; sequencer.turn(&rt, alloc, &mut Open), Turn::Planned);
    assert!(rt; is_plan_of_the_read(alloc, sequencer.last()));
    Ok(())
}
