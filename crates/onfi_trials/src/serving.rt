ghost use Rattle.std.specs.Prelude.{◌≡◌, ◌<◌};

use crate::channel::request_in;
use crate::ended::Ended;
use crate::rows::{Row, Word, cap_u8};
use crate::saying::{say_plan, say_reply};
use crate::stage::Stage;
use onfi_chip::SimChip;
use onfi_core::Setup;
use onfi_planners::By;
use onfi_queue::{Host, SubmitFault};
use onfi_reply::Inbox;
use onfi_request::{Reply, Request};
use onfi_seq::{Drained, DrainedAt, Ends, Gate, Sequencer, Turn, TurnAt};
use onfi_timing::Kind;
use std::alloc::Global;
use std::marker::Model;
use std::sync::Wait;

/// Sees that each turn of its channel is reported once, by its number.
#[derive(Drop)]
struct Watch {
    channel: u8,
    begun: u64,
    missed: bool,
}

impl Gate for Watch {
    fn before(&mut self, channel: u8, turn: u64) {
        if (channel, turn) != (self.channel, self.begun) {
            self.missed = true;
        }
        self.begun = self.begun.saturating_add(1);
    }
}

/// A channel with its sequencer, over a simulated chip, and the ends of its four hosts. All are used from one thread.
///
/// Contracts see which submission queue it serves.
#[derive(Drop)]
struct Served {
    alloc: Global,
    sequencer: Sequencer<SimChip, By>,
    hosts: [Host; 4],
    inboxes: [Inbox; 4],
    gate: Watch,
}

impl Model for Served {
    ghost use Rattle.atomic_table.specs.Seated.{TableId};
    ghost use Rattle.onfi_seq.specs.Drained.{AreOtherEnds};

    ghost Value = { TableId };

    ghost view = { λ s. s.sequencer.0.intake.queue };

    ghost invariant = { λ s. AreOtherEnds s.sequencer.0 s.hosts s.inboxes };
}

impl Served {
    fn open(alloc: Global, setup: Setup, channel: u8, stage: Stage) -> Result<Served, Ended>
        requires hosts { setup.hosts ≡ 4 }
        requires channel { channel < setup.channels }
    {
        let planner = stage.planner;
        let chip = stage.into_chip(alloc, setup)?;
        let ends = Ends::open(alloc, &setup, channel)?;
        let Ends {
            intake,
            posters,
            hosts,
            inboxes,
        } = ends;
        let sequencer = Sequencer::open_with(
            alloc, setup, channel, planner, chip, intake, posters,
        )?;
        let gate = Watch {
            channel,
            begun: 0,
            missed: false,
        };
        Ok(Served {
            alloc,
            sequencer,
            hosts,
            inboxes,
            gate,
        })
    }

    /// What a row says to do, that many times.
    fn play<R: Print + Wait>(&mut self, rt: &R, row: &Row, times: u64) -> Result<(), Ended> {
        let [first, second, ..] = row.numbers;
        for _time in 0..times {
            match row.word {
                Word::Submit(kind) => self.send(rt, kind, row)?,
                Word::Turn => self.turn(rt)?,
                Word::TurnAt => self.turn_at(rt, first)?,
                Word::Turns => self.turns(rt)?,
                Word::Drain => self.drain(rt, first)?,
                Word::DrainAt => self.drain_at(rt, first, second)?,
                Word::Collect => self.say_replies(rt, first)?,
                Word::Unanswered => self.say_unanswered(rt)?,
                Word::Last => say_plan(rt, self.sequencer.last_plan())?,
                Word::Batch => self.set_batch(first)?,
                _ => return Err(Ended::NoTrial),
            }
        }
        Ok(())
    }

    /// A host submits the request of a row, and its serial is reported, or why it isn't taken; once more where memory was
    /// refused.
    fn send<R: Print + Wait>(&mut self, rt: &R, kind: Kind, row: &Row) -> Result<(), Ended> {
        let host = row.numbers[4] as usize;
        for _try in 0..2u8 {
            let Ok(request) = request_in(self.alloc, kind, row) else {
                println!(rt; "memory")?;
                continue;
            };
            if host >= 4 {
                return Err(Ended::NoTrial);
            }
            match self.submit(rt, host, request) {
                Ok(serial) => println!(rt; "serial {serial}")?,
                Err((fault, request)) => {
                    println!(rt; "{fault:?}, and back comes a request of {:?}", request.kind)?;
                }
            }
            return Ok(());
        }
        Err(Ended::Memory)
    }

    fn submit<R: Wait>(
        &mut self,
        rt: &R,
        host: usize,
        request: Request,
    ) -> Result<u32, (SubmitFault, Request)>
        requires { host < 4 }
    {
        let end = &mut self.hosts[host];
        submit_by(rt, end, request)
    }

    fn set_batch(&mut self, batch: u64) -> Result<(), Ended> {
        if batch < 1 || batch > 8 {
            return Err(Ended::NoTrial);
        }
        self.sequencer.set_batch(batch as u8);
        Ok(())
    }

    /// A turn, reported.
    fn turn<R: Print + Wait>(&mut self, rt: &R) -> Result<(), Ended> {
        let turn = self.next_turn(rt)?;
        println!(rt; "{turn:?}")?;
        Ok(())
    }

    /// Turns up to one that is none of these: how many items they accepted, how many replies they posted, and the last.
    fn turns<R: Print + Wait>(&mut self, rt: &R) -> Result<(), Ended> {
        let (mut accepted, mut posted) = (0u32, 0u32);
        for _turn in 0..1_000u32 {
            match self.next_turn(rt)? {
                Turn::Accepted => accepted = accepted.saturating_add(1),
                Turn::Posted => posted = posted.saturating_add(1),
                Turn::Planned | Turn::Phase => {}
                last => {
                    println!(rt; "{accepted} accepted, {posted} posted, {last:?}")?;
                    return Ok(());
                }
            }
        }
        Err(Ended::NoTrial)
    }

    /// A turn; once more where memory was refused.
    fn next_turn<R: Print + Wait>(&mut self, rt: &R) -> Result<Turn, Ended> {
        for _try in 0..2u8 {
            let turn = self.make_turn(rt);
            if turn != Turn::Memory {
                return Ok(turn);
            }
            self.say_memory(rt)?;
        }
        Err(Ended::Memory)
    }

    /// A turn at that moment, reported; once more where memory was refused.
    fn turn_at<R: Print + Wait>(&mut self, rt: &R, now: u64) -> Result<(), Ended> {
        for _try in 0..2u8 {
            let turn = self.make_turn_at(rt, now);
            if turn != TurnAt::Memory {
                println!(rt; "{turn:?}")?;
                return Ok(());
            }
            self.say_memory(rt)?;
        }
        Err(Ended::Memory)
    }

    /// That memory was refused, whether a phase is left, and whether the sequencer forgot it.
    fn say_memory(&self, rt: &impl Print) -> Result<(), Ended> {
        if !self.sequencer.was_short_of_memory() {
            println!(rt; "forgotten")?;
        } else if self.sequencer.has_phase() {
            println!(rt; "memory with a phase left")?;
        } else {
            println!(rt; "memory")?;
        }
        Ok(())
    }

    fn make_turn<R: Wait>(&mut self, rt: &R) -> Turn {
        self.sequencer.turn(rt, self.alloc, &mut self.gate)
    }

    fn make_turn_at<R: Wait>(&mut self, rt: &R, now: u64) -> TurnAt {
        self.sequencer.turn_at(rt, self.alloc, &mut self.gate, now)
    }

    /// Host and serial of each item that waits for its reply; once more where memory was refused.
    fn say_unanswered(&self, rt: &impl Print) -> Result<(), Ended> {
        for _try in 0..2u8 {
            let Ok(senders) = self.sequencer.unanswered(self.alloc) else {
                println!(rt; "memory")?;
                continue;
            };
            for (host, serial) in senders.as_slice() {
                println!(rt; "unanswered {host} {serial}")?;
            }
            return Ok(());
        }
        Err(Ended::Memory)
    }

    /// Drains the channel, reported; once more where memory was refused, which may also spend its turns.
    fn drain<R: Print + Wait>(&mut self, rt: &R, turns: u64) -> Result<(), Ended> {
        for _try in 0..2u8 {
            match self.make_draining(rt, turns) {
                Drained::Memory => println!(rt; "memory")?,
                Drained::TurnsSpent if turns > 0 => println!(rt; "memory")?,
                end => {
                    println!(rt; "{end:?}")?;
                    return Ok(());
                }
            }
        }
        Err(Ended::Memory)
    }

    fn make_draining<R: Wait>(&mut self, rt: &R, turns: u64) -> Drained {
        self.sequencer.drain(
            rt,
            self.alloc,
            &mut self.gate,
            &self.hosts,
            &mut self.inboxes,
            turns,
        )
    }

    /// The same by turns at that moment.
    fn drain_at<R: Print + Wait>(&mut self, rt: &R, turns: u64, now: u64) -> Result<(), Ended> {
        for _try in 0..2u8 {
            match self.make_draining_at(rt, turns, now) {
                DrainedAt::Memory => println!(rt; "memory")?,
                DrainedAt::TurnsSpent if turns > 0 => println!(rt; "memory")?,
                end => {
                    println!(rt; "{end:?}")?;
                    return Ok(());
                }
            }
        }
        Err(Ended::Memory)
    }

    fn make_draining_at<R: Wait>(&mut self, rt: &R, turns: u64, now: u64) -> DrainedAt {
        self.sequencer.drain_at(
            rt,
            self.alloc,
            &mut self.gate,
            now,
            &self.hosts,
            &mut self.inboxes,
            turns,
        )
    }

    /// All that the host's inbox gives.
    fn say_replies<R: Print + Wait>(&mut self, rt: &R, host: u64) -> Result<(), Ended> {
        if host >= 4 {
            return Err(Ended::NoTrial);
        }
        for _reply in 0..100u8 {
            match self.collect(rt, host as usize) {
                Some(reply) => say_reply(rt, &reply)?,
                None => break,
            }
        }
        Ok(())
    }

    fn collect<R: Wait>(&mut self, rt: &R, host: usize) -> Option<Reply>
        requires { host < 4 }
    {
        let inbox = &mut self.inboxes[host];
        inbox.collect(rt)
    }

    /// Closes the channel, and reports what went through it, and whether its gate missed a turn.
    fn close<R: Print + Wait>(self, rt: &R) -> Result<(), Ended> {
        let Served {
            sequencer,
            hosts,
            inboxes,
            gate,
            ..
        } = self;
        let closed = sequencer.close(rt, hosts, inboxes);
        println!(rt; "{closed:?}")?;
        if gate.missed {
            println!(rt; "its gate missed a turn")?;
        }
        Ok(())
    }
}

fn submit_by<R: Wait>(
    rt: &R,
    host: &mut Host,
    request: Request,
) -> Result<u32, (SubmitFault, Request)>
    ensures { (host.new.queue ≡ host.old.queue) × (host.new.number ≡ host.old.number) }
{
    host.submit(rt, request)
}

/// The calls of the rows one by one, each reported, and then a closing.
pub(crate) fn serve<R: Print + Wait>(rt: &R, alloc: Global, rows: &[Row]) -> Result<(), Ended> {
    let (stage, place) = Stage::of(alloc, rows)?;
    let (Some(open), Some(rest)) = (rows.get(place), rows.get(place.saturating_add(1)..)) else {
        return Err(Ended::NoTrial);
    };
    let channel = cap_u8(open.numbers[6]);
    let setup = match stage.setup(open) {
        Ok(setup) if setup.hosts == 4 && channel < setup.channels => setup,
        _ => return Err(Ended::NoTrial),
    };
    let mut served = Served::open(alloc, setup, channel, stage)?;
    let mut before = None;
    for row in rest {
        match (row.word, before) {
            (Word::Again, Some(before)) => served.play(rt, before, row.numbers[0])?,
            _ => served.play(rt, row, 1)?,
        }
        before = Some(row);
    }
    served.close(rt)
}
