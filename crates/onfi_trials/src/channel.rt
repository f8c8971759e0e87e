ghost use Rattle.std.specs.Prelude.{◌≡◌, IfOk};
ghost use Rattle.std.specs.List.{AllByRecursion as Each};
ghost use Rattle.onfi_chip.specs.SimChip.{chip_in};
ghost use Rattle.onfi_core.specs.Queues.{IsFresh};

use crate::ended::Ended;
use crate::rows::{Row, Word, cap_u8, cap_u16};
use crate::saying::{say_outcome, say_plan};
use crate::stage::Stage;
use onfi_addr::Place;
use onfi_chip::SimChip;
use onfi_core::{Core, CoreFault, Event, Outcome, Setup};
use onfi_planners::By;
use onfi_request::Request;
use onfi_samples::{request_of, sample_geometry};
use onfi_timing::Kind;
use std::alloc::{AllocError, Global};
use std::marker::Model;

/// The request of a row.
pub(crate) fn request_in(alloc: Global, kind: Kind, row: &Row) -> Result<Request, AllocError> {
    let [lun, block, page, byte, ..] = row.numbers;
    let place = Place {
        lun: cap_u8(lun),
        block: cap_u16(block),
        page: cap_u16(page),
    };
    request_of(alloc, &sample_geometry(), kind, place, cap_u8(byte))
}

/// The event of a row; none where it has none.
fn event_of(alloc: Global, row: &Row) -> Result<Option<Event>, AllocError> {
    let first = cap_u8(row.numbers[0]);
    Ok(Some(match row.word {
        Word::Submit(kind) => Event::Submit {
            host: cap_u8(row.numbers[4]),
            channel: cap_u8(row.numbers[5]),
            request: request_in(alloc, kind, row)?,
        },
        Word::Accept => Event::Accept { channel: first },
        Word::Plan => Event::Plan { channel: first },
        Word::Bus => Event::Bus { channel: first },
        Word::Wait => Event::Wait {
            channel: 0,
            moment: row.numbers[0],
        },
        Word::Ready => Event::Ready {
            channel: 0,
            lun: first,
        },
        Word::Post => Event::Post {
            channel: 0,
            host: first,
        },
        Word::Collect => Event::Collect {
            channel: 0,
            host: first,
        },
        _ => return Ok(None),
    }))
}

/// A core of one channel.
#[derive(Drop)]
struct Played {
    alloc: Global,
    core: Core<SimChip, By>,
}

impl Model for Played {
    ghost use Rattle.std.specs.Prelude.{ℕ, ◌≡◌};

    ghost Value = { ℕ };

    ghost view = { λ p. p.core.0.channels };

    ghost invariant = { λ p. p.core.0.channels ≡ 1 };
}

impl Played {
    fn open(alloc: Global, setup: Setup, stage: Stage) -> Result<Played, CoreFault> {
        let planner = stage.planner;
        let Ok(chips) = fresh_chips(alloc, setup, stage) else {
            return Err(CoreFault::Memory);
        };
        let core = Core::open_with(alloc, setup, planner, chips)?;
        if setup.channels != 1 {
            return Err(CoreFault::Chips);
        }
        Ok(Played { alloc, core })
    }

    /// What a row says to do, that many times.
    fn play(&mut self, rt: &impl Print, row: &Row, times: u64) -> Result<(), Ended> {
        for _time in 0..times {
            match row.word {
                Word::Batch => self.set_batch(row.numbers[0])?,
                Word::Last => say_plan(rt, self.core.last_plan(0))?,
                _ => self.step(rt, row)?,
            }
        }
        Ok(())
    }

    fn set_batch(&mut self, batch: u64) -> Result<(), Ended> {
        if batch < 1 || batch > 8 {
            return Err(Ended::NoTrial);
        }
        self.core.set_batch(0, batch as u8);
        Ok(())
    }

    /// One event; once more where memory was refused.
    fn step(&mut self, rt: &impl Print, row: &Row) -> Result<(), Ended> {
        for _try in 0..2u8 {
            let Ok(event) = event_of(self.alloc, row) else {
                println!(rt; "memory")?;
                continue;
            };
            let Some(event) = event else {
                return Err(Ended::NoTrial);
            };
            match self.core.step(self.alloc, event) {
                Outcome::Memory(_) => println!(rt; "memory")?,
                outcome => return say_outcome(rt, &outcome),
            }
        }
        Err(Ended::Memory)
    }

    /// The events in one call, which does nothing where the room for its answer is refused; then it is made once more.
    fn run(&mut self, rt: &impl Print, rows: &[Row]) -> Result<(), Ended> {
        for _try in 0..2u8 {
            let Ok(events) = events_of(self.alloc, rows) else {
                println!(rt; "memory")?;
                continue;
            };
            let Ok(outcomes) = self.core.run(self.alloc, events) else {
                println!(rt; "memory")?;
                continue;
            };
            for outcome in outcomes.as_slice() {
                say_outcome(rt, outcome)?;
            }
            return Ok(());
        }
        Err(Ended::Memory)
    }
}

/// The chip of its one channel.
fn fresh_chips(alloc: Global, setup: Setup, stage: Stage) -> Result<Vec<SimChip>, AllocError>
    ensures { IfOk result (λ chips. Each (λ chip. IsFresh setup (chip_in chip)) chips.items) }
{
    let mut chips = Vec::new(alloc);
    chips.push(stage.into_chip(alloc, setup)?)?;
    Ok(chips)
}

fn events_of(alloc: Global, rows: &[Row]) -> Result<Vec<Event>, AllocError> {
    let mut events = Vec::new(alloc);
    for row in rows {
        if let Some(event) = event_of(alloc, row)? {
            events.push(event)?;
        }
    }
    Ok(events)
}

/// A core as its first rows say, and the rows after these; none where it didn't open, which is reported then.
fn open_core<'a>(
    rt: &impl Print,
    alloc: Global,
    rows: &'a [Row],
) -> Result<Option<(Played, &'a [Row])>, Ended> {
    let (stage, place) = Stage::of(alloc, rows)?;
    let (Some(open), Some(rest)) = (rows.get(place), rows.get(place.saturating_add(1)..)) else {
        return Err(Ended::NoTrial);
    };
    let setup = match stage.setup(open) {
        Ok(setup) => setup,
        Err(fault) => {
            println!(rt; "{fault:?}")?;
            return Ok(None);
        }
    };
    match Played::open(alloc, setup, stage) {
        Ok(played) => Ok(Some((played, rest))),
        Err(CoreFault::Memory) => Err(Ended::Memory),
        Err(fault) => {
            println!(rt; "{fault:?}")?;
            Ok(None)
        }
    }
}

/// The events of the rows one by one, each reported.
pub(crate) fn step_by_step(rt: &impl Print, alloc: Global, rows: &[Row]) -> Result<(), Ended> {
    let Some((mut played, rest)) = open_core(rt, alloc, rows)? else {
        return Ok(());
    };
    let mut before = None;
    for row in rest {
        match (row.word, before) {
            (Word::Again, Some(before)) => played.play(rt, before, row.numbers[0])?,
            _ => played.play(rt, row, 1)?,
        }
        before = Some(row);
    }
    Ok(())
}

/// The events of the rows in one call.
pub(crate) fn run_events(rt: &impl Print, alloc: Global, rows: &[Row]) -> Result<(), Ended> {
    match open_core(rt, alloc, rows)? {
        Some((mut played, rest)) => played.run(rt, rest),
        None => Ok(()),
    }
}
