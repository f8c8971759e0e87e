//! A turn: the first thing that can be done.

ghost use Rattle.std.specs.Prelude.{◌≡◌, ◌⊎◌, ℕ, ◌<◌, ◌≤◌, true, false, [], length, IfSome, IfNone, IsTrue, None, Some, slice_set};
ghost use Rattle.onfi_core.specs.Steps.{IsPromised, none_left, taken_next};
ghost use Rattle.onfi_seq.specs.Drained.{TurnPlans};
ghost use Rattle.onfi_seq.specs.Driver.{StartsNext};
ghost use Rattle.onfi_seq.specs.NoClock.{TurnedAtOnce, greatest, timed};
ghost use Rattle.onfi_seq.specs.Sequencer.{IsRight, IsSameChannel, seen_in};
ghost use Rattle.onfi_seq.specs.Turned.{Goes, IsGoing, IsRest, LetsPass, MayRunPhase, NothingPosts, OfferedAll, OfferedTo, Plans, PlansLater, RestsAtOnce, Takes, TakesNothing, Turned, WhyNoItem, WhyNoPlan};

use crate::clockless::turn_of;
use crate::gate::Gate;
use crate::offer::Offer;
use crate::ran::Ran;
use crate::sequencer::Sequencer;
use crate::turn::{Turn, TurnAt};
use onfi_chip::Chip;
use onfi_core::PlanRefusal;
use onfi_plan::Planner;
use std::alloc::Global;
use std::sync::Wait;

impl<C: Chip, P: Planner> Sequencer<C, P> {
    /// Does the first of these that it can: post the oldest held reply of the lowest host whose queue isn't full; answer
    /// Stopped; accept one item, while fewer than 64 are unanswered and fewer than the batch unplanned; plan, unless a
    /// planning was refused as Over or Memory since the last phase and a phase is left; run the next phase. Else it answers
    /// PostFull where a reply is held, and Idle where none is.
    ///
    /// The gate is called once, before all that, for this channel. Acceptance and post take no memory, a phase asks for its own
    /// before the chip is called, so a turn that answers Memory has lost no item and made no event.
    ///
    /// It is for who has no clock: no time passes in it, so the bus never waits, no LUN is asked, and the next phase runs
    /// whenever it starts. [`Sequencer::turn_at`] is for who has one.
    ///
    /// Why a host was passed over, or no item accepted, the contract says as [`Poster::post`](onfi_reply::Poster::post) and
    /// [`Intake::accept`](onfi_queue::Intake::accept) do: that a turn posts where there is room, and accepts what waits, is
    /// tested.
    pub fn turn<R: Wait, G: Gate>(&mut self, rt: &R, alloc: Global, gate: &mut G) -> Turn
        ensures turned { Turned greatest (seen_in C.state self.old) (timed result) (seen_in C.state self.new) }
        ensures no_time { TurnedAtOnce (seen_in C.state self.old) (timed result) (seen_in C.state self.new) }
        ensures planned { TurnPlans (IsPromised P.exact P.certifies) (timed result) (seen_in C.state self.new) }
        ensures right { IsRight (IsPromised P.exact P.certifies) (seen_in C.state self.new) }
        ensures same { IsSameChannel (seen_in C.state self.old) (seen_in C.state self.new) }
        ensures short { self.old.0.short ≡ true → self.new.0.short ≡ true }
        ensures gated { (number : ℕ) × G.told gate.old self.old.0.intake.opened.channel number gate.new }
    {
        let answer = self.turn_at(rt, alloc, gate, u64::MAX);
        turn_of(answer)
    }

    /// As [`Sequencer::turn`] at the moment `now` that the caller's clock gives, in ns of the channel's clock: the next phase
    /// runs if it starts by then, and where it starts later the answer is Waits.
    ///
    /// Before a planning and before a phase, but for one that starts just then, the half is given the moment: the bus waited
    /// until then, where it was free before, so no phase starts in the past; then each LUN whose array works, by rising
    /// number, is asked whether it is ready as the bus is free, and one that says so is planned with from then on, at once. So
    /// a turn that answers Memory may have made the events of time. The moment may be any; one that falls is one at which less
    /// is due. One at 2^62 or later, as `u64::MAX` is, is none of the channel: the bus never waits, no LUN is asked, and what
    /// comes next runs. Nothing is said of how much time a call takes.
    pub fn turn_at<R: Wait, G: Gate>(
        &mut self,
        rt: &R,
        alloc: Global,
        gate: &mut G,
        now: u64,
    ) -> TurnAt
        ensures turned { Turned now (seen_in C.state self.old) result (seen_in C.state self.new) }
        ensures planned { TurnPlans (IsPromised P.exact P.certifies) result (seen_in C.state self.new) }
        ensures right { IsRight (IsPromised P.exact P.certifies) (seen_in C.state self.new) }
        ensures same { IsSameChannel (seen_in C.state self.old) (seen_in C.state self.new) }
        ensures short { self.old.0.short ≡ true → self.new.0.short ≡ true }
        ensures gated { (number : ℕ) × G.told gate.old self.old.0.intake.opened.channel number gate.new }
    {
        gate.before(self.intake.channel(), self.turns);
        self.turns = self.turns.saturating_add(1);
        let turn = self.take_turn(rt, alloc, now);
        self.look();
        turn
    }

    // The turn after its gate.
    fn take_turn<R: Wait>(&mut self, rt: &R, alloc: Global, now: u64) -> TurnAt
        ensures { Turned now (seen_in C.state self.old) result (seen_in C.state self.new) }
    {
        match self.post_one(rt) {
            Offer::Posted => TurnAt::Posted,
            Offer::Full => self.serve(rt, alloc, now, TurnAt::PostFull),
            Offer::Nothing => self.serve(rt, alloc, now, TurnAt::Idle),
        }
    }

    // What is done where nothing goes out; `rest` is the answer where nothing is left to do.
    fn serve<R: Wait>(&mut self, rt: &R, alloc: Global, now: u64, rest: TurnAt) -> TurnAt
        requires posts { NothingPosts (seen_in C.state self.old) 4 }
        requires rest { IsRest (seen_in C.state self.old) rest }
        ensures { Turned now (seen_in C.state self.old) result (seen_in C.state self.new) }
    {
        if let Some(cause) = self.driver.cause() {
            return TurnAt::Stopped(cause);
        }
        if self.accept_one(rt) {
            return TurnAt::Accepted;
        }
        self.plan_or_run(alloc, now, rest)
    }

    // What is done where no item is accepted.
    fn plan_or_run(&mut self, alloc: Global, now: u64, rest: TurnAt) -> TurnAt
        requires before { TakesNothing (seen_in C.state self.old) }
        requires rest { IsRest (seen_in C.state self.old) rest }
        ensures { Turned now (seen_in C.state self.old) result (seen_in C.state self.new) }
    {
        let stale = self.let_pass(alloc, now);
        match self.plan_once(alloc, stale) {
            Some(turn) => turn,
            None => self.run_next(alloc, now, rest),
        }
    }

    // Time passes up to that moment, unless the plan stands and no phase is left that starts at another. Whether the plan is
    // stale is answered: something is to be planned, or a LUN is ready that wasn't by what is stated.
    fn let_pass(&mut self, alloc: Global, now: u64) -> bool
        requires before { TakesNothing (seen_in C.state self.old) }
        ensures passes { LetsPass now (seen_in C.state self.old) (seen_in C.state self.new) }
        ensures before { TakesNothing (seen_in C.state self.new) }
        ensures held { self.new.0.half.held ≡ self.old.0.half.held }
        ensures none { result ≡ false → taken_next self.new.0.setup self.new.0.half ≡ [] }
        ensures luns { result ≡ false → self.new.0.half.now.luns ≡ self.old.0.half.now.luns }
        ensures rests { RestsAtOnce (seen_in C.state self.old) (seen_in C.state self.new) }
    {
        let current = self.driver.half().nothing_to_plan();
        let stale = !current;
        if self.is_untold(now, current) {
            return false;
        }
        let found = self.driver.pass(alloc, now);
        found || stale
    }

    // Whether nothing is said of the moment: the plan stands, and the next phase starts just then, or none is left.
    fn is_untold(&self, now: u64, current: bool) -> bool
        requires { self.now.0.half.stopped ≡ None }
        ensures current { IsTrue result → IsTrue current }
        ensures on_time { IsTrue result → StartsNext self.now.0.half now ⊎ (none_left self.now.0.half ≡ true) }
        ensures told { result ≡ false → none_left self.now.0.half ≡ true → current ≡ false }
    {
        if !current {
            return false;
        }
        self.is_on_time(now)
    }

    // Whether the next phase starts just then, or none is left.
    fn is_on_time(&self, now: u64) -> bool
        requires { self.now.0.half.stopped ≡ None }
        ensures on_time { IsTrue result → StartsNext self.now.0.half now ⊎ (none_left self.now.0.half ≡ true) }
        ensures over { none_left self.now.0.half ≡ true → IsTrue result }
    {
        match self.driver.next_start() {
            Some(start) => start == now,
            None => true,
        }
    }

    // Posts the oldest reply that is held for the lowest host whose queue isn't full.
    fn post_one<R: Wait>(&mut self, rt: &R) -> Offer
        ensures { OfferedAll (seen_in C.state self.old) result (seen_in C.state self.new) }
    {
        let _half = self.driver.half();
        let mut held = Offer::Nothing;
        for host in 0..4u8 {
            match self.post_to(rt, host) {
                Offer::Posted => return Offer::Posted,
                Offer::Full => held = Offer::Full,
                Offer::Nothing => {}
            }
        }
        held
    }

    // Posts the oldest reply that is held for the host.
    fn post_to<R: Wait>(&mut self, rt: &R, host: u8) -> Offer
        requires { host < 4 }
        ensures { OfferedTo (seen_in C.state self.old) host result (seen_in C.state self.new) }
    {
        let poster = &mut self.posters[usize::from(host)];
        self.driver.post(rt, host, poster)
    }

    // Accepts the item that has waited longest, where there is room for one.
    fn accept_one<R: Wait>(&mut self, rt: &R) -> bool
        requires { IsGoing (seen_in C.state self.old) }
        ensures accepted { IsTrue result → Takes (seen_in C.state self.old) (seen_in C.state self.new) }
        ensures none { result ≡ false → (seen_in C.state self.new ≡ seen_in C.state self.old) × WhyNoItem (seen_in C.state self.old) }
    {
        if !self.driver.has_room() {
            return false;
        }
        let Some(item) = self.intake.accept(rt) else {
            return false;
        };
        self.accepted_by[usize::from(item.host)] = u64::from(item.serial) + 1;
        self.driver.accept(item);
        true
    }

    // Plans a stale plan anew, unless a planning was refused since the last phase and a phase is left.
    fn plan_once(&mut self, alloc: Global, stale: bool) -> Option<TurnAt>
        requires before { TakesNothing (seen_in C.state self.old) }
        requires stale { stale ≡ false → taken_next self.old.0.setup self.old.0.half ≡ [] }
        ensures some { IfSome result (λ turn. Plans (seen_in C.state self.old) turn (seen_in C.state self.new)) }
        ensures none { IfNone result ((seen_in C.state self.new ≡ seen_in C.state self.old) × WhyNoPlan (seen_in C.state self.old)) }
        ensures later { IfNone result ((stale ≡ false) ⊎ PlansLater (seen_in C.state self.old)) }
    {
        if !stale {
            return None;
        }
        if self.refused && self.has_phase() {
            return None;
        }
        match self.driver.plan(alloc) {
            Ok(_) => Some(TurnAt::Planned),
            Err(PlanRefusal::Stopped(cause)) => Some(TurnAt::Stopped(cause)),
            Err(PlanRefusal::NothingToPlan) => None,
            Err(PlanRefusal::Over { opened }) => {
                self.refused = true;
                Some(TurnAt::Over { opened })
            }
            Err(PlanRefusal::Memory) => {
                self.refused = true;
                self.short = true;
                Some(TurnAt::Memory)
            }
        }
    }

    // Runs the next phase, if it starts by that moment; `rest` is the answer where none is left.
    fn run_next(&mut self, alloc: Global, now: u64, rest: TurnAt) -> TurnAt
        requires before { MayRunPhase (seen_in C.state self.old) }
        requires rest { IsRest (seen_in C.state self.old) rest }
        ensures { Goes now (seen_in C.state self.old) result (seen_in C.state self.new) }
    {
        let _half = self.driver.half();
        match self.driver.run(alloc, now) {
            Ran::Phase { start: _ } => {
                self.refused = false;
                TurnAt::Phase
            }
            Ran::Stopped(cause) => TurnAt::Stopped(cause),
            Ran::Memory => {
                self.short = true;
                TurnAt::Memory
            }
            Ran::NotBefore { start } => TurnAt::Waits { until: start },
            Ran::NoPhase => rest,
        }
    }
}
