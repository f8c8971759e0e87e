ghost use Rattle.std.specs.Prelude.{◌≡◌, ◌<◌};

use crate::opened::{new_chip, setup_of};
use onfi_addr::Place;
use onfi_cert::Token;
use onfi_chip::SimChip;
use onfi_core::{LastPlan, Setup};
use onfi_plan::{Certificate, Limit, PlainPlanner, Plan, PlanFault, Planner};
use onfi_problem::Problem;
use onfi_queue::Host;
use onfi_reply::Inbox;
use onfi_request::Answer;
use onfi_samples::{request_of, sample_geometry};
use onfi_seq::{Ends, Gate, Sequencer, Turn};
use onfi_timing::Kind;
use std::alloc::{AllocError, Global};
use std::sync::Wait;
use std::sync::atomic::{AtomicBool, Ordering};
use std::thread;
use std::thread::Threads;

// Plans as the plain search does, and says no more than that nothing ends before 0.
#[derive(Clone, Copy)]
struct Modest;

impl Planner for Modest {
    ghost use Rattle.std.specs.Prelude.{⊤, false};
    ghost use Rattle.onfi_plan.specs.Certificate.{IsPlain};

    ghost exact = { false };

    ghost certifies = { IsPlain };

    ghost promises = { λ _ _ _ _. ⊤ };

    ghost stops = { λ _. ⊤ };

    fn plan(&self, alloc: Global, problem: &Problem, limit: Limit) -> Result<Plan, PlanFault> {
        let Plan {
            schedule,
            finish,
            opened,
            ..
        } = PlainPlanner.plan(alloc, problem, limit)?;
        let tokens = Vec::from_slice(alloc, &[Token::Bus])?;
        Ok(Plan {
            schedule,
            finish,
            below: 0,
            certificate: Certificate::Tokens(tokens),
            opened,
        })
    }
}

// A page of block 0 of LUN 0.
const PLACE: Place = Place {
    lun: 0,
    block: 0,
    page: 0,
};

// What the threads of two channels and of a host show each other: whether channel 0 may begin, whether its gate gave up
// before, and whether the host has ended.
#[derive(Drop)]
struct Signals {
    let_go: AtomicBool,
    gave_up: AtomicBool,
    ended: AtomicBool,
}

impl Signals {
    fn new() -> Signals {
        Signals {
            let_go: AtomicBool::new(false),
            gave_up: AtomicBool::new(false),
            ended: AtomicBool::new(false),
        }
    }

    fn wait(&self) {
        for _ in 0..1_000_000_000u64 {
            if self.let_go.load(Ordering::SeqCst) {
                return;
            }
        }
        self.gave_up.store(true, Ordering::SeqCst);
    }
}

// A gate that holds channel 0 until that is let go.
#[derive(Drop)]
struct Hold<'a> {
    signals: &'a Signals,
}

impl Gate for Hold<'_> {
    fn before(&mut self, channel: u8, _turn: u64) {
        if channel == 0 {
            self.signals.wait();
        }
    }
}

// What a planning came to: its finish, before when nothing ends, and whether its certificate is the planner's own.
type Told = Option<(u64, u64, bool)>;

// Makes turns until nothing is left to do and the host has ended; the last planning.
fn serve<R: Wait>(
    rt: &R,
    alloc: Global,
    mut sequencer: Sequencer<SimChip, Modest>,
    signals: &Signals,
) -> Told {
    let mut gate = Hold { signals };
    for _ in rt.forever() {
        let turn = sequencer.turn(rt, alloc, &mut gate);
        if turn == Turn::Idle && signals.ended.load(Ordering::SeqCst) {
            break;
        }
        thread::yield_now();
    }
    let (_, plan) = sequencer.last_plan()?;
    let LastPlan::Tokens { planned, below } = plan else {
        return None;
    };
    let own = planned.cert.as_slice() == [Token::Bus].as_slice();
    Some((planned.finish, *below, own))
}

// The ends that hosts have on a channel.
#[derive(Drop)]
struct HostEnds {
    hosts: [Host; 4],
    inboxes: [Inbox; 4],
}

// A channel of a setup with its sequencer, over a simulated chip.
fn open(
    alloc: Global,
    setup: Setup,
    channel: u8,
) -> Result<(Sequencer<SimChip, Modest>, HostEnds), AllocError>
    requires hosts { setup.hosts ≡ 4 }
    requires channel { channel < setup.channels }
{
    let chip = new_chip(alloc, &setup)?;
    let ends = Ends::open(alloc, &setup, channel)?;
    let Ends {
        intake,
        posters,
        hosts,
        inboxes,
    } = ends;
    let sequencer = Sequencer::open_with(alloc, setup, channel, Modest, chip, intake, posters)?;
    Ok((sequencer, HostEnds { hosts, inboxes }))
}

impl HostEnds {
    // Host 0 sends a read; whether it was taken.
    fn send<R: Wait>(&mut self, rt: &R, alloc: Global) -> bool {
        match request_of(alloc, &sample_geometry(), Kind::Read, PLACE, 0) {
            Ok(request) => self.hosts[0].submit(rt, request).is_ok(),
            Err(AllocError) => false,
        }
    }

    // Whether the next reply to host 0 has an erased page.
    fn receive<R: Wait>(&mut self, rt: &R) -> bool {
        for _ in rt.forever() {
            if let Some(reply) = self.inboxes[0].collect(rt) {
                return match &reply.answer {
                    Answer::Read(bytes) => bytes.as_slice().iter().all(|byte| *byte == 0xFF),
                    Answer::Done | Answer::Failed => false,
                };
            }
            thread::yield_now();
        }
        false
    }
}

// Host 0 collects a reply of channel 1 and sends a read to channel 0 before it lets that go, and collects its reply too.
fn visit<R: Wait>(
    rt: &R,
    alloc: Global,
    mut held: HostEnds,
    mut other: HostEnds,
    signals: &Signals,
) -> [bool; 2] {
    let mut told = [false; 2];
    if other.send(rt, alloc) {
        told[1] = other.receive(rt);
    }
    let is_sent = held.send(rt, alloc);
    signals.let_go.store(true, Ordering::SeqCst);
    if is_sent {
        told[0] = held.receive(rt);
    }
    signals.ended.store(true, Ordering::SeqCst);
    told
}

// Channel 1 in a thread beside that of the host.
fn serve_other<R: Threads + Wait + Sync>(
    rt: &R,
    alloc: Global,
    sequencer: Sequencer<SimChip, Modest>,
    held: HostEnds,
    other: HostEnds,
    signals: &Signals,
) -> (Told, [bool; 2]) {
    thread::join(
        rt,
        || serve(rt, alloc, sequencer, signals),
        || visit(rt, alloc, held, other, signals),
    )
}

#[test]
fn a_held_channel_holds_up_no_other(rt: HostRuntime) -> Result<(), AllocError> {
    let alloc = rt.alloc();
    let setup = setup_of(&rt, 2, 1);
    let (first, held) = open(alloc, setup, 0)?;
    let (second, other) = open(alloc, setup, 1)?;
    let signals = Signals::new();
    let shared = &signals;
    let (planned, (planned_beside, told)) = thread::join(
        &rt,
        || serve(&rt, alloc, first, shared),
        || serve_other(&rt, alloc, second, held, other, shared),
    );
    assert!(rt; !signals.gave_up.load(Ordering::SeqCst));
    assert_eq!(rt; told, [true; 2]);
    assert_eq!(rt; [planned, planned_beside], [Some((36_240, 0, true)); 2]);
    Ok(())
}
