//! A channel without batches, with its books kept from call to call.
ghost use Rattle.std.specs.Prelude.{◌≡◌, ℕ, ◌*◌, ◌<◌, ◌≤◌, ◌^◌, [], None, length, max, slice_get, take, true, IfOk, IfErr, IfNone, IfSome, IsSome, IsTrue, MatchOption, MatchResult};
ghost use Rattle.std.specs.List.{AllByRecursion as Each};
ghost use Rattle.onfi_timing.specs.declared.timing.Timing.{Timing as AnyTiming};
ghost use Rattle.onfi_steady.specs.LunBooks.{HasPhaseLeft};
ghost use Rattle.onfi_steady.specs.Selecting.{IsBegunAt};

mod batch;
mod state;

use crate::due_phase::DuePhase;
use crate::fault::{AcceptFault, RanFault, ReadyFault};
use crate::finding::find_number;
use crate::first::{Choice, first_phase};
use crate::group_phase::GroupPhase;
use crate::kind_spans::KindSpans;
use crate::lun_books::LunBooks;
use crate::newest::Newest;
use crate::next::NextPhase;
use onfi_group::Rules;
use onfi_problem::LunState;
use onfi_request::Want;
use onfi_timing::{Kind, Timing};

/// No phase starts as late as this, in ns.
const LATE: u64 = 1 << 62;

/// A channel that plans no batch: its lengths and rules, from when on its bus is free, what each LUN does, what waits for each,
/// and, of each LUN that runs nothing, what it would begin. All of it stands inline, as numbers.
///
/// A driver accepts requests as they come. Where the bus is free it asks for the phase that is next, starts it, and at once
/// says from when on it ran. What [`Dispatcher::next`] gave stands until the next call that changes something.
#[repr(C)]
#[derive(Clone, Copy)]
pub struct Dispatcher {
    rules: Rules,
    spans: KindSpans,
    bus_free: u64,
    newest: Newest,
    due: DuePhase,
    lun: [LunBooks; 8],
}

// Has each LUN begin with what it does, and those after them be free; nothing waits for any.
fn begin_luns(books: &mut [LunBooks], spans: &KindSpans, luns: &[LunState])
    requires few { length luns.now ≤ length books.old }
    requires left { Each HasPhaseLeft luns.now }
    ensures few { length luns.now ≤ length books.new }
    ensures begun { (at : ℕ) → IfSome (slice_get books.new at) (IsBegunAt spans.now luns.now at) }
{
    for at in 0..books.len() {
        begin_lun(&mut books[at], spans, luns, at);
    }
}

// Has a LUN begin with what the one at that place does, or be free.
fn begin_lun(lun: &mut LunBooks, spans: &KindSpans, luns: &[LunState], at: usize)
    requires { Each HasPhaseLeft luns.now }
    ensures { IsBegunAt spans.now luns.now at lun.new }
{
    match luns.get(at) {
        Some(state) => lun.begin(spans, state),
        None => *lun = LunBooks::new(spans),
    }
}

impl Dispatcher {
    ghost use Rattle.std.specs.Prelude.{Some, false};
    ghost use Rattle.onfi_steady.specs.declared.next.NextPhase.{NextPhase as AnyPhase};
    ghost use Rattle.onfi_problem.specs.declared.lun_state.LunState.TheVariants.{Free};
    ghost use Rattle.onfi_steady.specs.Waiting.{Books, accepted, channel};
    ghost use Rattle.onfi_steady.specs.Next.{IsIdle, IsNextPhase};
    ghost use Rattle.onfi_steady.specs.Dispatcher.{AreDistinct, HasRun, IsBut, IsCancelled, IsDue, IsOf, IsPhaseOn, StandsFirst, accept_refusal, accepted_again, again_refusal, has_due, luns_of, ran_refusal, ready_refusal, states_of};
    ghost use Rattle.onfi_steady.specs.Selecting.{IsChoice, IsHolder, IsNextChoice, IsPhaseOf};
    ghost use Rattle.onfi_flight.specs.Flight.{luns_ready_by};

    /// Of a channel with so many LUNs, on which nothing runs or waits from time 0 on.
    pub fn new(timing: &Timing, rules: Rules, luns: u8) -> Dispatcher
        requires some { 1 ≤ luns }
        requires few { luns ≤ 8 }
        ensures is { IsOf timing.now (record { rules = rules; waiting = []; newest = None }) result }
        ensures count { length (states_of result) ≡ luns }
        ensures free { Each (λ s. s ≡ Free 0) (states_of result) }
        ensures bus_free { result.bus_free ≡ 0 }
    {
        let spans = KindSpans::of(timing);
        Dispatcher {
            rules,
            spans,
            bus_free: 0,
            newest: Newest {
                number: 0,
                is_there: false,
            },
            due: DuePhase {
                start: 0,
                is_there: false,
                erase: false,
                lun: 0,
                luns,
            },
            lun: [LunBooks::new(&spans); 8],
        }
    }

    /// Of a channel whose bus is free from then on, in ns, and whose LUNs do that; nothing waits. [`Dispatcher::begin`] makes it
    /// where one stands, and takes less stack.
    pub fn with_luns(timing: &Timing, rules: Rules, bus_free: u64, luns: &[LunState]) -> Dispatcher
        requires some { 1 ≤ length luns.now }
        requires few { length luns.now ≤ 8 }
        requires left { Each HasPhaseLeft luns.now }
        ensures is { IsOf timing.now (record { rules = rules; waiting = []; newest = None }) result }
        ensures states { states_of result ≡ luns.now }
        ensures bus_free { result.bus_free ≡ bus_free }
        ensures over { has_due result ≡ false }
    {
        let mut dispatcher = Dispatcher::new(timing, rules, 1);
        dispatcher.begin(timing, rules, bus_free, luns);
        dispatcher
    }

    /// Begins anew with a channel whose bus is free from then on, in ns, and whose LUNs do that; nothing waits.
    pub fn begin(&mut self, timing: &Timing, rules: Rules, bus_free: u64, luns: &[LunState])
        requires some { 1 ≤ length luns.now }
        requires few { length luns.now ≤ 8 }
        requires left { Each HasPhaseLeft luns.now }
        ensures is { IsOf timing.now (record { rules = rules; waiting = []; newest = None }) self.new }
        ensures states { states_of self.new ≡ luns.now }
        ensures bus_free { self.new.bus_free ≡ bus_free }
        ensures over { has_due self.new ≡ false }
    {
        self.spans = KindSpans::of(timing);
        self.rules = rules;
        self.bus_free = bus_free;
        self.newest = Newest {
            number: 0,
            is_there: false,
        };
        self.due = DuePhase {
            start: 0,
            is_there: false,
            erase: false,
            lun: 0,
            luns: luns.len() as u8,
        };
        begin_luns(&mut self.lun, &self.spans, luns);
    }

    /// Whether its counts are in their ranges. They are, unless something else wrote its memory.
    pub fn is_whole(&self) -> bool
        ensures { result ≡ true }
    {
        self.due.luns <= 8
            && self.due.lun < self.due.luns
            && self.lun.iter().all(|lun| lun.is_whole())
    }

    /// The phase that is due, as one of its group; None where none is.
    pub fn due(&self) -> Option<GroupPhase>
        ensures due { (timing : AnyTiming) (books : Books) (next : AnyPhase) → IsOf timing books self.now → IsDue self.now next
            → IfSome result (IsPhaseOn timing (states_of self.now) next.lun next.members.items) }
        ensures some { (timing : AnyTiming) (books : Books) → IsOf timing books self.now → has_due self.now ≡ true → IsSome result }
        ensures none { has_due self.now ≡ false → result ≡ None }
        ensures within { IfSome result (λ p. (p.members ≤ 4) × (p.number < 2 * p.members) × (p.length < 2 ^ 50)) }
    {
        if !self.has_due() {
            return None;
        }
        self.lun[usize::from(self.due.lun)].phase(self.due.erase)
    }

    /// Takes in a request after the others that wait for its LUN.
    ///
    /// # Errors
    /// `BadLun` where the channel has no such LUN; else `Full` where 64 requests wait for it; else `BadOrder` where its number
    /// isn't above that of the last of these; else `Waits` where one of that number waits before it. Nothing is changed then.
    pub fn accept(&mut self, want: Want) -> Result<(), AcceptFault>
        requires plane { want.plane ≤ 3 }
        ensures accepted { (timing : AnyTiming) (books : Books) → IsOf timing books self.old → IfOk result (λ _. IsOf timing (accepted books want) self.new) }
        ensures distinct { (timing : AnyTiming) (books : Books) → IsOf timing books self.old → IfOk result (λ _. AreDistinct (accepted books want)) }
        ensures over { IfOk result (λ _. has_due self.new ≡ false) }
        ensures refused { MatchResult result (λ _. accept_refusal self.old want ≡ None) (λ fault. accept_refusal self.old want ≡ Some fault) }
        ensures states { states_of self.new ≡ states_of self.old }
        ensures bus_free { self.new.bus_free ≡ self.old.bus_free }
        ensures same { IfErr result (λ _. self.new ≡ self.old) }
    {
        if let Some(fault) = self.refusal(&want) {
            return Err(fault);
        }
        self.put(&want);
        Ok(())
    }

    // Why a request isn't accepted, if so.
    fn refusal(&self, want: &Want) -> Option<AcceptFault>
        ensures { result ≡ accept_refusal self.now want.now }
    {
        let luns = &self.lun[..usize::from(self.due.luns)];
        match luns.get(usize::from(want.lun)) {
            Some(lun) => lun.refusal(want.id),
            None => Some(AcceptFault::BadLun),
        }
    }

    // Puts a request after the others.
    fn put(&mut self, want: &Want)
        requires plane { want.now.plane ≤ 3 }
        requires accepted { accept_refusal self.old want.now ≡ None }
        ensures accepted { (timing : AnyTiming) (books : Books) → IsOf timing books self.old → IsOf timing (accepted books want.now) self.new }
        ensures over { has_due self.new ≡ false }
        ensures states { states_of self.new ≡ states_of self.old }
        ensures bus_free { self.new.bus_free ≡ self.old.bus_free }
    {
        self.due.is_there = false;
        self.newest = self.newest.with(want);
        self.lun[usize::from(want.lun)].accept(&self.rules, &self.spans, want);
    }

    /// The phase that is next where it is `now`, in ns: of what LUNs give the one that goes first. None only where nothing runs and
    /// nothing waits. Nothing is due for it: [`Dispatcher::next`] is for what is to run.
    ///
    /// A LUN that runs a group goes on with it. Another one begins the oldest of its requests that is due, else its oldest read,
    /// else its oldest program, else its oldest erase, each the first on its block, with the mates that may join it. A request is
    /// due once 128 groups with a later one began on its LUN, an erase once 512 did. A group of programs that lacks its last plane
    /// waits for mates while it holds the newest accepted program and a LUN has work; its LUN begins its oldest erase meanwhile.
    ///
    /// Of these phases the one goes that may start soonest; of equals what goes on with its commands, then a status, a read's
    /// command, an erase's command, a data output, a program's data; then what begins the larger group, then the one with the
    /// older request. But a command of a group that is in its commands, and may start within the gap, keeps the bus: before it
    /// goes only what ends by then. Where nothing runs and each group waits for mates, that of the lowest LUN begins.
    pub fn look(&self, now: u64) -> Option<NextPhase>
        ensures next { (timing : AnyTiming) (books : Books) → IsOf timing books self.now
            → MatchOption result (IsIdle (channel timing (max self.now.bus_free now) (states_of self.now) books)) (IsNextPhase books (channel timing (max self.now.bus_free now) (states_of self.now) books)) }
        ensures empty { (timing : AnyTiming) (books : Books) → IsOf timing books self.now → IfNone result (books.waiting ≡ []) }
    {
        match self.choose(now) {
            Some(choice) => Some(self.phase_of(&choice)),
            None => None,
        }
    }

    /// What [`Dispatcher::look`] gives, and which is due from then on.
    pub fn next(&mut self, now: u64) -> Option<NextPhase>
        ensures next { (timing : AnyTiming) (books : Books) → IsOf timing books self.old
            → MatchOption result (IsIdle (channel timing (max self.old.bus_free now) (states_of self.old) books)) (IsNextPhase books (channel timing (max self.old.bus_free now) (states_of self.old) books)) }
        ensures empty { (timing : AnyTiming) (books : Books) → IsOf timing books self.old → IfNone result (books.waiting ≡ []) }
        ensures due { MatchOption result (has_due self.new ≡ false) (IsDue self.new) }
        ensures same { (timing : AnyTiming) (books : Books) → IsOf timing books self.old → IsOf timing books self.new }
        ensures states { states_of self.new ≡ states_of self.old }
        ensures bus_free { self.new.bus_free ≡ self.old.bus_free }
    {
        match self.choose(now) {
            Some(choice) => Some(self.give(choice)),
            None => {
                self.due.is_there = false;
                None
            }
        }
    }

    /// The bus isn't free before that moment, in ns, where it was free sooner. Nothing is due then.
    pub fn wait(&mut self, moment: u64)
        ensures bus_free { self.new.bus_free ≡ max self.old.bus_free moment }
        ensures over { has_due self.new ≡ false }
        ensures is { (timing : AnyTiming) (books : Books) → IsOf timing books self.old → IsOf timing books self.new }
        ensures states { states_of self.new ≡ states_of self.old }
    {
        self.due.is_there = false;
        self.bus_free = self.bus_free.max(moment);
    }

    /// The phase that is due ran from `started` on, in ns.
    ///
    /// # Errors
    /// `NothingDue` where no phase was given since something changed; else `TooSoon` before its start; else `TooLate` from 2^62 ns
    /// on. Nothing is changed then.
    pub fn ran(&mut self, started: u64) -> Result<(), RanFault>
        ensures ran { (timing : AnyTiming) (books : Books) → IsOf timing books self.old → IfOk result (λ _. HasRun timing books self.old self.new started) }
        ensures over { IfOk result (λ _. has_due self.new ≡ false) }
        ensures refused { MatchResult result (λ _. ran_refusal self.old started ≡ None) (λ fault. ran_refusal self.old started ≡ Some fault) }
        ensures same { IfErr result (λ _. self.new ≡ self.old) }
    {
        if !self.has_due() {
            return Err(RanFault::NothingDue);
        }
        if started < self.due.start {
            return Err(RanFault::TooSoon);
        }
        if started >= LATE {
            return Err(RanFault::TooLate);
        }
        self.run_due(started);
        Ok(())
    }

    /// The array of that LUN was done at `moment`, in ns: the first post of its group may start from then on, or as before where
    /// that is sooner.
    ///
    /// # Errors
    /// `BadLun` where the channel has no such LUN; else `NotInArray` where its next phase isn't the first post of a group. Nothing
    /// is changed then.
    pub fn ready(&mut self, lun: u8, moment: u64) -> Result<(), ReadyFault>
        ensures ready { IfOk result (λ _. states_of self.new ≡ luns_ready_by moment lun (slice_get (states_of self.old) lun) (states_of self.old)) }
        ensures over { IfOk result (λ _. has_due self.new ≡ false) }
        ensures is { (timing : AnyTiming) (books : Books) → IsOf timing books self.old → IsOf timing books self.new }
        ensures refused { MatchResult result (λ _. ready_refusal self.old lun ≡ None) (λ fault. ready_refusal self.old lun ≡ Some fault) }
        ensures bus_free { self.new.bus_free ≡ self.old.bus_free }
        ensures same { IfErr result (λ _. self.new ≡ self.old) }
    {
        if let Some(fault) = self.ready_refusal(lun) {
            return Err(fault);
        }
        self.make_ready(lun, moment);
        Ok(())
    }

    /// The request of that number waits no more: of the lowest LUN for which one does. Answers whether one waited.
    pub fn cancel(&mut self, id: u64) -> bool
        ensures cancelled { (timing : AnyTiming) (books : Books) → IsOf timing books self.old → IsCancelled timing books id self.old self.new result }
        ensures over { IsTrue result → has_due self.new ≡ false }
        ensures states { states_of self.new ≡ states_of self.old }
        ensures bus_free { self.new.bus_free ≡ self.old.bus_free }
    {
        let luns = &self.lun[..usize::from(self.due.luns)];
        match find_number(luns, id) {
            Some(lun) => {
                self.take_out(lun, id);
                true
            }
            None => false,
        }
    }

    /// Takes in a request that began and has to run once more, as after a read that is tried again or a reset: before all that
    /// waits for its LUN. It is due no sooner for that.
    ///
    /// # Errors
    /// `BadLun` where the channel has no such LUN; else `Full` where 64 requests wait for it; else `Waits` where one of that number
    /// does. Nothing is changed then.
    pub fn accept_again(&mut self, want: Want) -> Result<(), AcceptFault>
        requires plane { want.plane ≤ 3 }
        ensures accepted { (timing : AnyTiming) (books : Books) → IsOf timing books self.old → IfOk result (λ _. IsOf timing (accepted_again books want) self.new) }
        ensures distinct { (timing : AnyTiming) (books : Books) → IsOf timing books self.old → IfOk result (λ _. AreDistinct (accepted_again books want)) }
        ensures over { IfOk result (λ _. has_due self.new ≡ false) }
        ensures first { (books : Books) → StandsFirst (accepted_again books want) want }
        ensures refused { MatchResult result (λ _. again_refusal self.old want ≡ None) (λ fault. again_refusal self.old want ≡ Some fault) }
        ensures states { states_of self.new ≡ states_of self.old }
        ensures bus_free { self.new.bus_free ≡ self.old.bus_free }
        ensures same { IfErr result (λ _. self.new ≡ self.old) }
    {
        if let Some(fault) = self.again_refusal(&want) {
            return Err(fault);
        }
        self.put_first(&want);
        Ok(())
    }

    // Why a LUN isn't found ready, if so.
    fn ready_refusal(&self, lun: u8) -> Option<ReadyFault>
        ensures { result ≡ ready_refusal self.now lun }
    {
        let luns = &self.lun[..usize::from(self.due.luns)];
        let Some(lun) = luns.get(usize::from(lun)) else {
            return Some(ReadyFault::BadLun);
        };
        if lun.is_in_array() {
            return None;
        }
        Some(ReadyFault::NotInArray)
    }

    // The array of a LUN was done then.
    fn make_ready(&mut self, lun: u8, moment: u64)
        requires { ready_refusal self.old lun ≡ None }
        ensures ready { states_of self.new ≡ luns_ready_by moment lun (slice_get (states_of self.old) lun) (states_of self.old) }
        ensures over { has_due self.new ≡ false }
        ensures is { (timing : AnyTiming) (books : Books) → IsOf timing books self.old → IsOf timing books self.new }
        ensures bus_free { self.new.bus_free ≡ self.old.bus_free }
    {
        self.due.is_there = false;
        self.lun[usize::from(lun)].make_ready(moment);
    }

    // The request of that number waits no more for the LUN.
    fn take_out(&mut self, lun: u8, id: u64)
        requires { IsHolder (luns_of self.old) id lun }
        ensures cancelled { (timing : AnyTiming) (books : Books) → IsOf timing books self.old → IsCancelled timing books id self.old self.new true }
        ensures over { has_due self.new ≡ false }
        ensures states { states_of self.new ≡ states_of self.old }
        ensures bus_free { self.new.bus_free ≡ self.old.bus_free }
    {
        self.due.is_there = false;
        self.lun[usize::from(lun)].cancel(&self.rules, &self.spans, id);
    }

    // Why a request isn't taken in again, if so.
    fn again_refusal(&self, want: &Want) -> Option<AcceptFault>
        ensures { result ≡ again_refusal self.now want.now }
    {
        let luns = &self.lun[..usize::from(self.due.luns)];
        match luns.get(usize::from(want.lun)) {
            Some(lun) => lun.head_refusal(want.id),
            None => Some(AcceptFault::BadLun),
        }
    }

    // Puts a request before the others of its LUN.
    fn put_first(&mut self, want: &Want)
        requires plane { want.now.plane ≤ 3 }
        requires accepted { again_refusal self.old want.now ≡ None }
        ensures accepted { (timing : AnyTiming) (books : Books) → IsOf timing books self.old → IsOf timing (accepted_again books want.now) self.new }
        ensures over { has_due self.new ≡ false }
        ensures states { states_of self.new ≡ states_of self.old }
        ensures bus_free { self.new.bus_free ≡ self.old.bus_free }
    {
        self.due.is_there = false;
        self.lun[usize::from(want.lun)].accept_again(&self.rules, &self.spans, want);
    }

    // What goes first where it is `now`.
    fn choose(&self, now: u64) -> Option<Choice>
        ensures next { (timing : AnyTiming) (books : Books) → IsOf timing books self.now
            → MatchOption result (IsIdle (channel timing (max self.now.bus_free now) (states_of self.now) books)) (IsNextChoice books (channel timing (max self.now.bus_free now) (states_of self.now) books) (luns_of self.now)) }
        ensures empty { (timing : AnyTiming) (books : Books) → IsOf timing books self.now → IfNone result (books.waiting ≡ []) }
        ensures there { IfSome result (IsChoice (luns_of self.now)) }
    {
        let from = self.bus_free.max(now);
        let array = self.spans.of_kind(Kind::Program).array;
        let luns = &self.lun[..usize::from(self.due.luns)];
        first_phase(luns, from, array, self.newest.number())
    }

    // The phase that was chosen.
    fn phase_of(&self, choice: &Choice) -> NextPhase
        requires { IsChoice (luns_of self.now) choice.now }
        ensures { IsPhaseOf (luns_of self.now) choice.now result }
    {
        NextPhase {
            lun: choice.lun,
            start: choice.turn.start,
            members: self.lun[usize::from(choice.lun)].wants(choice.erase),
        }
    }

    // The phase that was chosen is due from now on.
    fn give(&mut self, choice: Choice) -> NextPhase
        requires { IsChoice (luns_of self.old) choice }
        ensures phase { IsPhaseOf (luns_of self.old) choice result }
        ensures due { IsDue self.new result }
        ensures same { IsBut self.old self.new }
    {
        let phase = self.phase_of(&choice);
        self.due = DuePhase {
            start: choice.turn.start,
            is_there: true,
            erase: choice.erase,
            lun: choice.lun,
            luns: self.due.luns,
        };
        phase
    }

    // Whether a phase is due.
    fn has_due(&self) -> bool
        ensures { result ≡ has_due self.now }
    {
        if !self.due.is_there {
            return false;
        }
        let luns = &self.lun[..usize::from(self.due.luns)];
        match luns.get(usize::from(self.due.lun)) {
            Some(lun) => lun.can_run(self.due.erase),
            None => false,
        }
    }

    // The phase that is due runs from `started` on.
    pub(crate) fn run_due(&mut self, started: u64)
        requires due { has_due self.old ≡ true }
        requires time { started < 2 ^ 62 }
        ensures ran { (timing : AnyTiming) (books : Books) → IsOf timing books self.old → HasRun timing books self.old self.new started }
        ensures over { has_due self.new ≡ false }
    {
        self.due.is_there = false;
        self.bus_free = self.lun[usize::from(self.due.lun)].run_phase(
            &self.rules,
            &self.spans,
            self.due.lun,
            self.due.erase,
            started,
        );
    }
}
