//! The phases that a bus carried.
ghost use Rattle.std.specs.Prelude.{◌≡◌, IsTrue, IfSome, option_map, true};
ghost use Rattle.onfi_schedule.specs.declared.trace_line.TraceLine.{TraceLine as ALine};
ghost use Rattle.onfi_record.specs.Carried as spec;
ghost use Rattle.onfi_record.specs.Carried.{IsCommandAt, IsCommandLine, IsPostLine, IsSameDevice, SaysMore};

use onfi_addr::{Geometry, Place};
use onfi_chip::Closer;
use onfi_request::Want;
use onfi_schedule::{LinePart, TraceLine};
use onfi_timing::{Kind, Timing};
use std::alloc::Global;

/// The phases that the bus of a channel carried, in their order; it is cut where memory for one was refused, and from the first
/// one on where none are asked for.
#[derive(Drop)]
pub struct BusLog {
    pub geometry: Geometry,
    pub timing: Timing,
    pub lines: Vec<TraceLine>,
    /// How many requests had their command.
    commands: u64,
    /// Whether no phase is left out.
    pub is_whole: bool,
}

/// When a phase of that length ends that starts then.
fn end_after(start: u64, length: u64) -> u64
    ensures { result ≡ spec.end_after start length }
{
    start.saturating_add(length)
}

/// Whether the line is the command of a request on that page.
fn is_command_at(line: &TraceLine, place: &Place) -> bool
    ensures { IsTrue result → IsCommandAt place.now line.now }
{
    matches!(line.part, LinePart::Command)
        && line.want.lun == place.lun
        && line.want.block == place.block
        && line.want.page == place.page
}

/// The request that line is the command of, where it is one on that page.
fn commanded_by(line: Option<&TraceLine>, place: &Place) -> Option<Want>
    ensures { IfSome result (spec.IsCommandOf (option_map (λ l. l.now) line.entry) place.now) }
{
    match line {
        Some(line) if is_command_at(line, place) => Some(line.want),
        _ => None,
    }
}

/// The request on that page whose command is the latest of these lines.
fn last_commanded(lines: &[TraceLine], place: &Place) -> Option<Want>
    ensures { IfSome result (spec.IsCommanded place.now lines.now) }
{
    let count = lines.len();
    for behind in 0..count {
        let want = commanded_by(lines.get(count - 1 - behind), place);
        if want.is_some() {
            return want;
        }
    }
    None
}

impl BusLog {
    /// Nothing was carried yet; where `is_kept`, what is will be kept.
    pub fn new(alloc: Global, geometry: Geometry, timing: Timing, is_kept: bool) -> BusLog
        ensures { spec.IsNewLog geometry timing is_kept result }
    {
        BusLog {
            geometry,
            timing,
            lines: Vec::new(alloc),
            commands: 0,
            is_whole: is_kept,
        }
    }

    /// One phase more.
    fn put(&mut self, line: TraceLine)
        ensures more { self.new.is_whole ≡ true → SaysMore line self.old self.new }
        ensures same { IsSameDevice self.old self.new }
    {
        if self.is_whole {
            self.is_whole = self.lines.push(line).is_ok();
        }
    }

    /// The bus carried the command of a request of that kind on that row, from that moment on, in ns; `closer` says whether it
    /// was that of the last plane.
    pub fn command(&mut self, start: u64, row: u64, kind: Kind, closer: Closer)
        ensures more { self.new.is_whole ≡ true → (line : ALine) × IsCommandLine self.old.geometry self.old.timing start row kind closer line × SaysMore line self.old self.new }
        ensures same { IsSameDevice self.old self.new }
    {
        let Some(place) = self.geometry.unrow(row) else {
            self.is_whole = false;
            return;
        };
        let line = TraceLine {
            start,
            end: end_after(start, self.timing.spans(kind).cmd),
            lun: place.lun,
            is_new: true,
            part: LinePart::Command,
            want: Want {
                id: self.commands,
                kind,
                lun: place.lun,
                plane: self.geometry.plane_of(place.block),
                block: place.block,
                page: place.page,
            },
            last: matches!(closer, Closer::Last),
        };
        self.commands = self.commands.saturating_add(1);
        self.put(line);
    }

    /// The bus carried the post of the request on that row, from that moment on, in ns.
    pub fn post(&mut self, start: u64, row: u64)
        ensures more { self.new.is_whole ≡ true → (line : ALine) × IsPostLine self.old.geometry self.old.timing self.old.lines.items start row line × SaysMore line self.old self.new }
        ensures same { IsSameDevice self.old self.new }
    {
        let Some(place) = self.geometry.unrow(row) else {
            self.is_whole = false;
            return;
        };
        let timing = self.timing;
        let Some(want) = last_commanded(self.lines.as_slice(), &place) else {
            self.is_whole = false;
            return;
        };
        self.put(TraceLine {
            start,
            end: end_after(start, timing.spans(want.kind).post),
            lun: place.lun,
            is_new: true,
            part: LinePart::Post,
            want,
            last: false,
        });
    }
}
