//! What a LUN does, what waits for it, and what it would begin.
ghost use Rattle.std.specs.Prelude.{◌≡◌, ℕ, ◌+◌, ◌*◌, ◌<◌, ◌≤◌, ◌^◌, ◌∷◌, ◌++◌, if◌then◌else◌, [], IfSome, IsSome, List, length, true};
ghost use Rattle.std.specs.List.{list_any};
ghost use Rattle.onfi_timing.specs.declared.kind.Kind.TheVariants.{Read};
ghost use Rattle.onfi_timing.specs.declared.timing.Timing.{Timing as AnyTiming};
ghost use Rattle.onfi_request.specs.declared.want.Want.{Want as AnyWant};
ghost use Rattle.onfi_problem.specs.declared.lun_state.LunState.TheVariants.{Free};
ghost use Rattle.onfi_group.specs.declared.rules.Rules.{Rules as AnyRules};
ghost use Rattle.onfi_steady.specs.declared.waiter.Waiter.{Waiter as AnyWaiter};
ghost use Rattle.onfi_steady.specs.Offer.{erase_group, firsts, is_kind};
ghost use Rattle.onfi_steady.specs.Slots.{AreSpansOf, IsBegin, others_of, slots_in, waiters_in, wants_in};
ghost use Rattle.onfi_steady.specs.LunBooks.{HasBegun, HasGoneOn, HasPhaseLeft, IsGroupPhase, IsLun, IsLunOffer, begin_of, runs, state_in};
ghost use Rattle.onfi_steady.specs.Selecting.{begun_on, can_run};
ghost use Rattle.onfi_flight.specs.Flight.{ready_by};
ghost use Rattle.onfi_steady.specs.Dispatcher.{head_refusal, in_array, lun_refusal};

use crate::begin::Begin;
use crate::fault::AcceptFault;
use crate::group_phase::GroupPhase;
use crate::kind_spans::KindSpans;
use crate::line::Line;
use crate::line_left::has_number;
use crate::offer::{group_with, may_grow, oldest_of, pick_request};
use crate::ready::list_slots;
use crate::run::Run;
use crate::slot::{Slot, list_wants};
use crate::waiter::Waiter;
use arrayvec::ArrayVec;
use onfi_group::Rules;
use onfi_problem::LunState;
use onfi_request::Want;
use onfi_timing::Kind;

// So many requests wait for a LUN at most in a short line.
const SHORT: usize = 16;

/// What a LUN would begin that runs nothing.
#[repr(C)]
#[derive(Clone, Copy)]
pub struct LunOffer {
    /// The request that the LUN turns to, with its mates.
    pub group: Begin,
    /// Where more mates may come, the oldest erase, with its mates; else nothing.
    pub erase: Begin,
    /// Whether more mates may come.
    pub is_open: bool,
    /// Whether a read waits.
    pub reads: bool,
}

impl LunOffer {
    /// That of a LUN for which nothing waits.
    pub fn none(spans: &KindSpans) -> LunOffer
        ensures { (timing : AnyTiming) (rules : AnyRules) → AreSpansOf timing spans.now → IsLunOffer timing rules [] result }
    {
        LunOffer {
            group: Begin::none(spans),
            erase: Begin::none(spans),
            is_open: false,
            reads: false,
        }
    }

    /// That of what waits, oldest first.
    pub fn of(rules: &Rules, spans: &KindSpans, waiting: &[Slot]) -> LunOffer
        requires { length waiting.now ≤ 64 }
        ensures { (timing : AnyTiming) → AreSpansOf timing spans.now → IsLunOffer timing rules.now (waiters_in waiting.now) result }
    {
        if waiting.len() <= SHORT {
            return Self::of_short(rules, spans, waiting);
        }
        let mut list: ArrayVec<Waiter, 64> = ArrayVec::new();
        let reads = list_slots(&mut list, waiting);
        Self::of_ready(rules, spans, list.as_slice(), reads)
    }

    // That of a short line: its list is made in a few words of memory.
    fn of_short(rules: &Rules, spans: &KindSpans, waiting: &[Slot]) -> LunOffer
        requires { length waiting.now ≤ 16 }
        ensures { (timing : AnyTiming) → AreSpansOf timing spans.now → IsLunOffer timing rules.now (waiters_in waiting.now) result }
    {
        let mut list: ArrayVec<Waiter, 16> = ArrayVec::new();
        let reads = list_slots(&mut list, waiting);
        Self::of_ready(rules, spans, list.as_slice(), reads)
    }

    // That of those that may begin, oldest first, where a read waits or not.
    fn of_ready(rules: &Rules, spans: &KindSpans, ready: &[Waiter], reads: bool) -> LunOffer
        ensures { (timing : AnyTiming) (waiting : List AnyWaiter) → AreSpansOf timing spans.now → ready.now ≡ firsts waiting → reads ≡ list_any (is_kind Read) waiting
            → IsLunOffer timing rules.now waiting result }
    {
        let head = pick_request(ready);
        let group = group_with(rules, ready, head);
        let is_open = may_grow(rules, head, group.as_slice());
        LunOffer {
            group: Begin::of(spans, group.as_slice()),
            erase: begin_erase(rules, spans, ready, is_open),
            is_open,
            reads,
        }
    }

    /// One of the two.
    pub fn begin(&self, erase: bool) -> &Begin
        ensures { result.now ≡ begin_of self.now erase }
    {
        if erase { &self.erase } else { &self.group }
    }
}

// The group of the oldest erase, where it is asked for.
fn begin_erase(rules: &Rules, spans: &KindSpans, ready: &[Waiter], is_asked: bool) -> Begin
    ensures { (timing : AnyTiming) → AreSpansOf timing spans.now → IsBegin timing (if is_asked then erase_group rules.now ready.now else []) result }
{
    if !is_asked {
        return Begin::none(spans);
    }
    let erase = group_with(rules, ready, oldest_of(ready, Kind::Erase));
    Begin::of(spans, erase.as_slice())
}

/// A LUN: what it runs, what waits for it, and, where it runs nothing, what it would begin.
#[repr(C)]
#[derive(Clone, Copy)]
pub struct LunBooks {
    pub run: Run,
    pub line: Line,
    pub offer: LunOffer,
}

impl LunBooks {
    /// It runs nothing from time 0 on, and nothing waits.
    pub fn new(spans: &KindSpans) -> LunBooks
        ensures state { state_in result.run ≡ Free 0 }
        ensures line { slots_in result.line ≡ [] }
        ensures lun { (timing : AnyTiming) (rules : AnyRules) → AreSpansOf timing spans.now → IsLun timing rules result }
    {
        LunBooks {
            run: Run::free(0),
            line: Line::new(),
            offer: LunOffer::none(spans),
        }
    }

    /// It does that from now on, and nothing waits.
    pub fn begin(&mut self, spans: &KindSpans, state: &LunState)
        requires { HasPhaseLeft state.now }
        ensures state { state_in self.new.run ≡ state.now }
        ensures line { slots_in self.new.line ≡ [] }
        ensures lun { (timing : AnyTiming) (rules : AnyRules) → AreSpansOf timing spans.now → IsLun timing rules self.new }
    {
        self.run = Run::with_state(spans, state);
        self.line.clear();
        self.offer = LunOffer::none(spans);
    }

    /// Whether its counts are in their ranges. They are, unless something else wrote its memory.
    pub fn is_whole(&self) -> bool
        ensures { result ≡ true }
    {
        self.run.members <= 4
            && self.run.next <= 7
            && self.line.count.of <= 64
            && self.offer.group.members <= 4
            && self.offer.erase.members <= 4
    }

    /// The member whose phase is next: of what it runs, or of what it offers.
    pub fn phase(&self, erase: bool) -> Option<GroupPhase>
        ensures goes { (timing : AnyTiming) (rules : AnyRules) → IsLun timing rules self.now → 1 ≤ self.now.run.members
            → IfSome result (IsGroupPhase timing (wants_in (runs self.now.run)) self.now.run.next) }
        ensures begins { (timing : AnyTiming) (group : List AnyWant) → self.now.run.members ≡ 0 → IsBegin timing group (begin_of self.now.offer erase)
            → IfSome result (IsGroupPhase timing group 0) }
        ensures some { (timing : AnyTiming) (rules : AnyRules) → IsLun timing rules self.now → can_run erase self.now ≡ true → IsSome result }
        ensures within { IfSome result (λ p. (p.members ≤ 4) × (p.number < 2 * p.members) × (p.length < 2 ^ 50)) }
    {
        if self.run.members == 0 {
            self.offer.begin(erase).phase()
        } else {
            self.run.phase()
        }
    }

    /// Why no request of that number may wait after the others, if so.
    pub fn refusal(&self, id: u64) -> Option<AcceptFault>
        ensures { result ≡ lun_refusal self.now id }
    {
        if !self.line.is_below(id) && !self.line.is_full() {
            return Some(AcceptFault::BadOrder);
        }
        self.head_refusal(id)
    }

    /// Why no request of that number may wait before the others, if so.
    pub fn head_refusal(&self, id: u64) -> Option<AcceptFault>
        ensures { result ≡ head_refusal self.now id }
    {
        if self.line.is_full() {
            return Some(AcceptFault::Full);
        }
        if has_number(self.line.as_slice(), id) {
            return Some(AcceptFault::Waits);
        }
        None
    }

    /// Whether its array works: the next phase of what it runs is the first post.
    pub fn is_in_array(&self) -> bool
        ensures { result ≡ in_array self.now.run }
    {
        self.run.members != 0 && self.run.next == self.run.members
    }

    /// Whether it goes on, or what it offers begins.
    pub fn can_run(&self, erase: bool) -> bool
        ensures { result ≡ can_run erase self.now }
    {
        if self.run.members == 0 {
            return self.offer.begin(erase).members != 0;
        }
        true
    }

    /// Those that begin, of what it offers; none where it goes on.
    pub fn wants(&self, erase: bool) -> ArrayVec<Want, 4>
        ensures { result.items ≡ begun_on erase self.now }
    {
        let mut wants = ArrayVec::new();
        if self.run.members == 0 {
            list_wants(&mut wants, self.offer.begin(erase).members());
        }
        wants
    }

    /// A request waits after the others.
    pub fn accept(&mut self, rules: &Rules, spans: &KindSpans, want: &Want)
        requires { length (slots_in self.old.line) < 64 }
        ensures line { waiters_in (slots_in self.new.line) ≡ waiters_in (slots_in self.old.line) ++ record { want = want.now; passed = 0 } ∷ [] }
        ensures run { self.new.run ≡ self.old.run }
        ensures lun { (timing : AnyTiming) → AreSpansOf timing spans.now → IsLun timing rules.now self.old → IsLun timing rules.now self.new }
    {
        self.line.push(Slot::of(want));
        self.renew(rules, spans);
    }

    /// A request waits before the others.
    pub fn accept_again(&mut self, rules: &Rules, spans: &KindSpans, want: &Want)
        requires { length (slots_in self.old.line) < 64 }
        ensures line { waiters_in (slots_in self.new.line) ≡ record { want = want.now; passed = 0 } ∷ waiters_in (slots_in self.old.line) }
        ensures run { self.new.run ≡ self.old.run }
        ensures lun { (timing : AnyTiming) → AreSpansOf timing spans.now → IsLun timing rules.now self.old → IsLun timing rules.now self.new }
    {
        self.line.push_first(Slot::of(want));
        self.renew(rules, spans);
    }

    /// The request of that number waits no more.
    pub fn cancel(&mut self, rules: &Rules, spans: &KindSpans, id: u64)
        ensures line { slots_in self.new.line ≡ others_of id (slots_in self.old.line) }
        ensures run { self.new.run ≡ self.old.run }
        ensures lun { (timing : AnyTiming) → AreSpansOf timing spans.now → IsLun timing rules.now self.old → IsLun timing rules.now self.new }
    {
        self.line.take_out(id);
        self.renew(rules, spans);
    }

    /// Its array was done at that moment, in ns.
    pub fn make_ready(&mut self, moment: u64)
        requires { 1 ≤ self.old.run.members }
        ensures line { self.new.line ≡ self.old.line }
        ensures state { state_in self.new.run ≡ ready_by moment (state_in self.old.run) }
        ensures lun { (timing : AnyTiming) (rules : AnyRules) → IsLun timing rules self.old → IsLun timing rules self.new }
    {
        self.run = self.run.ready_at(moment);
    }

    // Makes its offer anew, where it runs nothing.
    fn renew(&mut self, rules: &Rules, spans: &KindSpans)
        ensures line { self.new.line ≡ self.old.line }
        ensures run { self.new.run ≡ self.old.run }
        ensures offer { (timing : AnyTiming) → AreSpansOf timing spans.now → self.old.run.members ≡ 0 → IsLunOffer timing rules.now (waiters_in (slots_in self.old.line)) self.new.offer }
    {
        if self.run.members == 0 {
            self.offer = LunOffer::of(rules, spans, self.line.as_slice());
        }
    }

    /// Its phase runs from `started` on: the next one of what it runs, or the first one of what it offers; answers when that ends,
    /// in ns.
    pub fn run_phase(
        &mut self,
        rules: &Rules,
        spans: &KindSpans,
        lun: u8,
        erase: bool,
        started: u64,
    ) -> u64
        requires runs { can_run erase self.old ≡ true }
        requires time { started < 2 ^ 62 }
        ensures goes { (timing : AnyTiming) → AreSpansOf timing spans.now → IsLun timing rules.now self.old → 1 ≤ self.old.run.members → HasGoneOn timing rules.now self.old self.new started result }
        ensures begins { (timing : AnyTiming) (group : List AnyWant) → AreSpansOf timing spans.now → self.old.run.members ≡ 0 → IsBegin timing group (begin_of self.old.offer erase)
            → HasBegun timing rules.now lun erase group self.old self.new started result }
    {
        if self.run.members == 0 {
            self.begin_group(spans, lun, erase, started)
        } else {
            self.go_on(rules, spans, started)
        }
    }

    // The next phase of what it runs goes from `started` on; answers when it ends, in ns.
    fn go_on(&mut self, rules: &Rules, spans: &KindSpans, started: u64) -> u64
        requires some { 1 ≤ self.old.run.members }
        requires time { started < 2 ^ 62 }
        ensures { (timing : AnyTiming) → AreSpansOf timing spans.now → IsLun timing rules.now self.old → HasGoneOn timing rules.now self.old self.new started result }
    {
        let ended = started + self.run.span;
        self.run = self.run.after(spans, ended);
        self.renew(rules, spans);
        ended
    }

    // The group that it offers, or that of its oldest erase, begins at `started`; answers when its first command ends, in ns.
    fn begin_group(&mut self, spans: &KindSpans, lun: u8, erase: bool, started: u64) -> u64
        requires some { 1 ≤ (begin_of self.old.offer erase).members }
        requires time { started < 2 ^ 62 }
        ensures { (timing : AnyTiming) (rules : AnyRules) (group : List AnyWant) → AreSpansOf timing spans.now → IsBegin timing group (begin_of self.old.offer erase)
            → HasBegun timing rules lun erase group self.old self.new started result }
    {
        let begin = *self.offer.begin(erase);
        let ended = started + begin.cmd;
        self.line.leave(lun, &begin);
        self.run = Run::at(spans, &begin.member, begin.members, begin.oldest, 1, ended);
        ended
    }
}
