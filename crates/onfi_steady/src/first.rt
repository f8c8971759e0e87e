//! Of the phases that LUNs give the one that goes first.
ghost use Rattle.std.specs.Prelude.{◌≡◌, ℕ, ◌<◌, ◌≤◌, MatchOption, IfSome, length};
ghost use Rattle.std.specs.List.{AllByRecursion as Each};
ghost use Rattle.onfi_timing.specs.declared.timing.Timing.{Timing as AnyTiming};
ghost use Rattle.onfi_steady.specs.Waiting.{Books, channel};
ghost use Rattle.onfi_steady.specs.Next.{IsIdle, any_work};
ghost use Rattle.onfi_steady.specs.Kept.{IsKeptFrom, NoneBelow};
ghost use Rattle.onfi_steady.specs.LunBooks.{states_in};
ghost use Rattle.onfi_steady.specs.Selecting.{AreLuns, IsChoice, IsFirstChoice, IsHeldChoice, IsNextChoice, begin_choice, begin_turn, first_choice, choice_with, given_in, gives_erase, going_turn, has_newest, held_in, keeps_in, kept_in, works_in};

use crate::begin::Begin;
use crate::bus::{earlier, is_kept};
use crate::line_left::has_number;
use crate::lun_books::LunBooks;
use crate::run::Run;
use crate::slot::Slot;
use crate::turn::Turn;

/// The phase of a LUN, and how soon it goes: it goes on with what it runs, or begins its group, or that of its oldest erase.
#[derive(Clone, Copy)]
pub struct Choice {
    pub turn: Turn,
    pub lun: u8,
    pub erase: bool,
}

/// The phase that is next, where the bus is free from `from` ns on, a program's array takes so many ns, and the newest accepted
/// program has that number. None where nothing runs and nothing waits.
pub fn first_phase(luns: &[LunBooks], from: u64, array: u64, newest: Option<u64>) -> Option<Choice>
    requires few { length luns.now ≤ 8 }
    ensures next { (timing : AnyTiming) (books : Books) → AreLuns timing books luns.now → Each (λ w. w.want.plane ≤ 3) books.waiting
        → array ≡ timing.program.array → newest ≡ books.newest
        → MatchOption result (IsIdle (channel timing from (states_in luns.now) books)) (IsNextChoice books (channel timing from (states_in luns.now) books) luns.now) }
    ensures there { IfSome result (IsChoice luns.now) }
{
    let kept = kept_from(luns, from);
    let work = any_work(luns, from, array);
    match first_given(luns, from, kept, newest, work) {
        Some(first) => Some(first),
        None => first_held(luns, from),
    }
}

// From when on the bus is kept, in ns.
fn kept_from(luns: &[LunBooks], from: u64) -> Option<u64>
    ensures { (timing : AnyTiming) (books : Books) → AreLuns timing books luns.now → IsKeptFrom (channel timing from (states_in luns.now) books) result }
{
    let mut first = None;
    for (at, lun) in luns.iter().enumerate() {
        first = earliest_kept(first, from, &lun.run);
    }
    first
}

// .. where one LUN more is looked at.
fn earliest_kept(known: Option<u64>, from: u64, run: &Run) -> Option<u64>
    ensures { result ≡ kept_in from known run.now }
{
    if keeps_bus(from, run) {
        Some(earlier(known, from.max(run.since)))
    } else {
        known
    }
}

// Whether the next phase of what a LUN runs keeps the bus.
fn keeps_bus(from: u64, run: &Run) -> bool
    ensures { result ≡ keeps_in from run.now }
{
    run.next < run.members && run.since.saturating_sub(from) <= run.gap
}

// Whether a LUN has work.
fn any_work(luns: &[LunBooks], from: u64, array: u64) -> bool
    ensures { (timing : AnyTiming) (books : Books) → AreLuns timing books luns.now → array ≡ timing.program.array
        → result ≡ any_work books (channel timing from (states_in luns.now) books) }
{
    for (at, lun) in luns.iter().enumerate() {
        if works(lun, from, array) {
            return true;
        }
    }
    false
}

fn works(lun: &LunBooks, from: u64, array: u64) -> bool
    ensures { result ≡ works_in from array lun.now }
{
    if lun.run.members == 0 {
        return lun.offer.reads;
    }
    if lun.run.next < lun.run.members {
        return !lun.run.erases;
    }
    lun.run.since.saturating_sub(from) <= array
}

// Of the phases that LUNs give, the one that goes first.
fn first_given(
    luns: &[LunBooks],
    from: u64,
    kept: Option<u64>,
    newest: Option<u64>,
    work: bool,
) -> Option<Choice>
    requires few { length luns.now ≤ 8 }
    ensures first { (timing : AnyTiming) (books : Books) → AreLuns timing books luns.now → Each (λ w. w.want.plane ≤ 3) books.waiting → newest ≡ books.newest
        → IsKeptFrom (channel timing from (states_in luns.now) books) kept → work ≡ any_work books (channel timing from (states_in luns.now) books)
        → IsFirstChoice books (channel timing from (states_in luns.now) books) luns.now (length luns.now) result }
    ensures there { IfSome result (IsChoice luns.now) }
{
    let mut first = None;
    for (at, lun) in luns.iter().enumerate() {
        let other = give_phase(lun, at as u8, from, kept, newest, work);
        first = first_of(first, other);
    }
    first
}

// Of two phases, where there are any, the one that goes first.
fn first_of(known: Option<Choice>, other: Option<Choice>) -> Option<Choice>
    ensures { result ≡ first_choice known other }
{
    match other {
        Some(other) => Some(first_with(known, other)),
        None => known,
    }
}

// Of a phase and another one, where there is one, the one that goes first.
fn first_with(known: Option<Choice>, other: Choice) -> Choice
    ensures { result ≡ choice_with known other }
{
    match known {
        Some(known) => {
            if other.turn.is_before(&known.turn) {
                other
            } else {
                known
            }
        }
        None => other,
    }
}

// The phase that a LUN gives.
fn give_phase(
    lun: &LunBooks,
    at: u8,
    from: u64,
    kept: Option<u64>,
    newest: Option<u64>,
    work: bool,
) -> Option<Choice>
    ensures { result ≡ given_in from kept newest work at lun.now }
{
    if lun.run.members == 0 {
        let erase = gives_erase(lun, newest, work);
        return choose_begin(lun.offer.begin(erase), at, from, kept, lun.run.since, erase);
    }
    Some(Choice {
        turn: turn_of_going(&lun.run, from, kept),
        lun: at,
        erase: false,
    })
}

// The first command of a group, where there is one.
fn choose_begin(
    begin: &Begin,
    at: u8,
    from: u64,
    kept: Option<u64>,
    since: u64,
    erase: bool,
) -> Option<Choice>
    ensures { result ≡ begin_choice from kept since at erase begin.now }
{
    if begin.members == 0 {
        return None;
    }
    Some(Choice {
        turn: turn_of_begin(begin, from, kept, since),
        lun: at,
        erase,
    })
}

// How soon the next phase goes of what a LUN runs.
fn turn_of_going(run: &Run, from: u64, kept: Option<u64>) -> Turn
    ensures { result ≡ going_turn from kept run.now }
{
    let start = from.max(run.since);
    Turn {
        kept: !keeps_bus(from, run) && is_kept(kept, start, run.span),
        start,
        rank: run.rank,
        smaller: 4,
        oldest: run.oldest,
    }
}

// How soon the first command of a group goes.
fn turn_of_begin(begin: &Begin, from: u64, kept: Option<u64>, since: u64) -> Turn
    ensures { result ≡ begin_turn from kept since begin.now }
{
    let start = from.max(since);
    Turn {
        kept: is_kept(kept, start, begin.cmd),
        start,
        rank: begin.rank,
        smaller: 4 - usize::from(begin.members),
        oldest: begin.oldest,
    }
}

// Whether its oldest erase goes in place of a group that waits for mates.
fn gives_erase(lun: &LunBooks, newest: Option<u64>, work: bool) -> bool
    ensures { result ≡ gives_erase newest work lun.now }
{
    lun.offer.is_open && work && has_newest(newest, lun.offer.group.members())
}

// Whether one of them is the newest accepted program.
fn has_newest(newest: Option<u64>, members: &[Slot]) -> bool
    ensures { result ≡ has_newest newest members.now }
{
    match newest {
        Some(id) => has_number(members, id),
        None => false,
    }
}

// Where no LUN gives any, what the lowest LUN holds.
fn first_held(luns: &[LunBooks], from: u64) -> Option<Choice>
    requires few { length luns.now ≤ 8 }
    ensures held { (timing : AnyTiming) (books : Books) → AreLuns timing books luns.now
        → MatchOption result (NoneBelow books (states_in luns.now) (length luns.now)) (IsHeldChoice books luns.now from) }
    ensures there { IfSome result (IsChoice luns.now) }
{
    for (at, lun) in luns.iter().enumerate() {
        if let Some(choice) = give_held(lun, at as u8, from) {
            return Some(choice);
        }
    }
    None
}

// What a LUN holds that runs nothing.
fn give_held(lun: &LunBooks, at: u8, from: u64) -> Option<Choice>
    ensures { result ≡ held_in from at lun.now }
{
    if lun.run.members == 0 {
        return choose_begin(&lun.offer.group, at, from, None, lun.run.since, false);
    }
    None
}
