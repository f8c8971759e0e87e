ghost use Rattle.std.specs.Prelude.{◌≡◌, ◌<◌, ◌≤◌, ◌+◌, ◌^◌, ◌++◌, [], length, replicate, None, Some, IfOk, IfErr, IfSome, IfNone, IsSome, MatchOption};
ghost use Rattle.onfi_core.specs.Kept.{first_half};
ghost use Rattle.onfi_request.specs.declared.reply.Reply.{Reply as AReply};
ghost use Rattle.onfi_schedule.specs.Schedule.{Optimal, finish};
ghost use Rattle.onfi_check.specs.Tree.{AcceptsTokens};
ghost use Rattle.onfi_core.specs.State.{Planning};
ghost use Rattle.onfi_core.specs.Steps.{GoesOut, accepting, IsPlainPlan, IsPlainlyPlanned, IsPromised, accept_refusal, bus_refusal, held_for, taken_next, planned_by, planned_with, Plans};
ghost use Rattle.onfi_core.specs.Dues.{IsDue, due_outcome};
ghost use Rattle.onfi_core.specs.Refusals.{fault_outcome};
ghost use Rattle.onfi_core.specs.View.{IsNext, IsOldest, finish_in, plainly_with, planning_by, planning_of, schedule_in, PlannedAs, RefusedAs, refusal_of};

use crate::batch::{Batch, LastPlan};
use crate::finding::find;
use crate::history::History;
use crate::lent::Lent;
use crate::oldest::oldest_for;
use crate::outcome::Cause;
use crate::planning::{NextPlan, PlanStop, plan_wants};
use crate::setup::Setup;
use crate::slot::Slot;
use crate::wants::want_of;
use crate::way::Way;
use arrayvec::ArrayVec;
use onfi_flight::Due;
use onfi_plan::{PlainPlanner, Planner};
use onfi_planner::Planned;
use onfi_problem::Problem;
use onfi_request::{Item, Reply, Want};
use slab::Slab;
use std::alloc::{AllocError, Global};
use std::marker::Model;

mod counts;
pub(crate) mod passing;
mod phase;
mod taking;
mod unanswered;

/// At most this many accepted items have no posted reply.
const WINDOW: usize = 64;

/// The sequencer's half of one channel, without its chip.
#[derive(Drop)]
pub struct Half {
    setup: Setup,
    batch: u8,
    slots: Slab<Slot>,
    accepted: u64,
    planned: u64,
    way: Way,
    outdated: bool,
    last: Option<Batch>,
    held: Vec<Reply>,
    lent: Option<Lent>,
    stopped: Option<Cause>,
    history: History,
}

impl Model for Half {
    ghost use Rattle.std.specs.Prelude.{option_map, vec_capacity};
    ghost use Rattle.onfi_core.specs.View.{HalfView, planning_of, AreFields};

    ghost Value = { HalfView };

    ghost view = { λ h. record {
      setup = h.setup;
      state = record {
        accepted = h.history.accepted;
        planned = h.planned;
        batch = h.batch;
        now = h.way.now;
        left = h.way.left;
        books = h.way.books;
        outdated = h.outdated;
        last = option_map planning_of h.last;
        held = h.history.held;
        posted = h.history.posted;
        stopped = h.stopped;
      };
      lent = h.history.lent;
    } };

    ghost invariant = { λ h. AreFields h.setup h.slots h.accepted (vec_capacity h.held) h.held.items h.lent
        (record {
          accepted = h.history.accepted;
          planned = h.planned;
          batch = h.batch;
          now = h.way.now;
          left = h.way.left;
          books = h.way.books;
          outdated = h.outdated;
          last = option_map planning_of h.last;
          held = h.history.held;
          posted = h.history.posted;
          stopped = h.stopped;
        }) h.history.lent };
}

/// Why an item isn't accepted, in the order in which it is reported.
#[derive(Clone, Copy, Debug, PartialEq, Eq)]
pub enum AcceptFault {
    /// The channel stopped.
    Stopped(Cause),
    /// 64 accepted items have no posted reply.
    WindowFull,
}

/// Why nothing is planned, in the order in which it is reported.
#[derive(Clone, Copy, Debug, PartialEq, Eq)]
pub enum PlanRefusal {
    /// The channel stopped, now or earlier.
    Stopped(Cause),
    /// No accepted item is unplanned, or the wants not started fill the batch; and no time passed since the plan was made, or
    /// no phase of it is left.
    NothingToPlan,
    /// The search opened as many nodes as it may and isn't over; the old plan stands.
    Over { opened: u32 },
    /// Memory was refused; the old plan stands.
    Memory,
}

/// Why no phase is due, in the order in which it is reported.
#[derive(Clone, Copy, Debug, PartialEq, Eq)]
pub enum DueRefusal {
    /// The channel stopped.
    Stopped(Cause),
    /// No phase of the plan is left.
    NoPlan,
}

impl Half {
    /// Nothing is accepted yet, the bus and all LUNs are free from 0 on, and the batch is the setup's.
    ///
    /// # Errors
    /// Where memory was refused.
    pub fn open(alloc: Global, setup: Setup) -> Result<Half, AllocError>
        ensures { IfOk result (λ h. h ≡ record { setup = setup; state = first_half setup; lent = None }) }
    {
        let slots = Slab::with_capacity(alloc, WINDOW)?;
        let held = Vec::with_capacity(alloc, WINDOW)?;
        let way = Way::open(alloc, &setup)?;
        Ok(Half {
            setup,
            batch: setup.batch,
            slots,
            accepted: 0,
            planned: 0,
            way,
            outdated: false,
            last: None,
            held,
            lent: None,
            stopped: None,
            history: History::new(),
        })
    }

    /// What it was opened with.
    pub fn setup(&self) -> Setup
        ensures { result ≡ self.now.setup }
    {
        self.setup
    }

    /// Why no item is accepted, if so: reported before the intake's queue is popped.
    pub fn refuses(&self) -> Option<AcceptFault>
        requires settled { self.now.lent ≡ None }
        ensures { MatchOption result (accept_refusal self.now.state ≡ None) (λ f. accept_refusal self.now.state ≡ Some (fault_outcome f)) }
    {
        if let Some(cause) = self.stopped {
            return Some(AcceptFault::Stopped(cause));
        }
        if self.slots.len() >= WINDOW {
            return Some(AcceptFault::WindowFull);
        }
        None
    }

    /// Takes an item in, and answers its place. It takes no memory.
    pub fn accept(&mut self, item: Item) -> u64
        requires settled { self.old.lent ≡ None }
        requires open { accept_refusal self.old.state ≡ None }
        requires next { IsNext self.old.setup self.old.state item }
        ensures accepted { self.new ≡ record self.old { state = accepting self.old.setup self.old.state item } }
        ensures place { result ≡ length self.old.state.accepted }
    {
        let place = self.accepted;
        self.history = self.history.with_accepted(&item);
        let want = want_of(&self.setup.geometry, place, &item);
        self.slots.insert_reserved(Slot { place, item });
        self.accepted += 1;
        self.way.accept(&want);
        self.planned = planned_with(&self.way, self.planned);
        place
    }

    /// Sets the batch of later plannings, 1 to 8, and nothing else.
    pub fn set_batch(&mut self, batch: u8)
        requires settled { self.old.lent ≡ None }
        requires some { 1 ≤ batch }
        requires few { batch ≤ 8 }
        ensures { self.new ≡ record self.old { state = record self.old.state { batch = batch } } }
    {
        self.batch = batch;
    }

    /// Plans, with the bus and the LUNs as they stand, the wants not started, and after them the first unplanned items, up to
    /// the batch in all. The plan is optimal, and tokens show it. It takes the old one's place; its finish is answered, in ns
    /// of the channel's clock.
    ///
    /// # Errors
    /// `Stopped` where the channel stopped; `NothingToPlan` where no accepted item is unplanned, or the wants not started
    /// fill the batch, and the plan is that of the bus as it stands or nothing of it is left; `Stopped(Clock)` where the
    /// plan might end at 2^62 ns or later: the channel stops. Else `Over` or `Memory`, and the old plan stands.
    pub fn plan(&mut self, alloc: Global) -> Result<u64, PlanRefusal>
        requires settled { self.old.lent ≡ None }
        ensures planned { PlannedAs self.old self.new result }
        ensures plain { IfOk result (λ _. IfSome self.new.state.last IsPlainPlan) }
        ensures optimal { IfOk result (λ _. IfSome self.new.state.last IsPlainlyPlanned) }
        ensures refused { RefusedAs self.old self.new result }
        ensures settled { self.new.lent ≡ None }
        ensures setup { self.new.setup ≡ self.old.setup }
    {
        self.plan_by(alloc, &PlainPlanner)
    }

    /// As [`Half::plan`], by that planner: the plan is what it promises.
    ///
    /// # Errors
    /// As [`Half::plan`].
    pub fn plan_by<P: Planner>(&mut self, alloc: Global, planner: &P) -> Result<u64, PlanRefusal>
        requires settled { self.old.lent ≡ None }
        ensures planned { PlannedAs self.old self.new result }
        ensures promised { IfOk result (λ _. IfSome self.new.state.last (IsPromised P.exact P.certifies)) }
        ensures refused { RefusedAs self.old self.new result }
        ensures settled { self.new.lent ≡ None }
        ensures setup { self.new.setup ≡ self.old.setup }
    {
        if let Some(cause) = self.stopped {
            return Err(PlanRefusal::Stopped(cause));
        }
        if self.nothing_to_plan() {
            return Err(PlanRefusal::NothingToPlan);
        }
        let wants = self.next_wants();
        self.setup.states_lengths();
        let next = plan_wants(
            alloc,
            planner,
            &self.setup,
            self.way.bus_free(),
            self.way.flight().luns(),
            wants.as_slice(),
        );
        match next {
            Ok(next) => Ok(self.take_over(wants, next)),
            Err(stop) => match stop {
                PlanStop::Clock => {
                    self.stopped = Some(Cause::Clock);
                    Err(PlanRefusal::Stopped(Cause::Clock))
                }
                _ => Err(refusal_of(stop)),
            },
        }
    }

    // The plan of these wants takes the old one's place.
    fn take_over(&mut self, wants: ArrayVec<Want, 8>, next: NextPlan) -> u64
        requires in_order { self.old.state.books ≡ None }
        requires wants { wants.items ≡ self.old.state.now.wants ++ taken_next self.old.setup self.old.state }
        requires plans { Plans self.old.setup self.old.state (planning_of next.batch) }
        requires left { next.left ≡ schedule_in next.batch.plan }
        ensures planned { self.new ≡ record self.old { state = planned_by self.old.setup self.old.state (planning_of next.batch) } }
        ensures finish { result ≡ finish_in next.batch.plan }
    {
        let finish = next.batch.plan.finish();
        self.planned += (wants.len() - self.way.flight().wants().len()) as u64;
        self.way.replan(wants, next.left);
        self.outdated = false;
        self.last = Some(next.batch);
        finish
    }

    /// The phase that comes next: the undone one of least start, or by the next phase what the dispatcher gives. What [`Half::done`] fills was made by [`Half::open`], so nothing grows here, and `alloc`
    /// isn't asked.
    ///
    /// # Errors
    /// `Stopped` where the channel stopped; else `NoPlan` where no phase is left.
    pub fn due(&self, alloc: Global) -> Result<Due, DueRefusal>
        ensures due { IfOk result (λ due. IsDue self.now.state due) }
        ensures open { IfOk result (λ due. bus_refusal self.now.state ≡ None) }
        ensures refused { IfErr result (λ refusal. bus_refusal self.now.state ≡ Some (due_outcome refusal)) }
    {
        let _ = alloc;
        self.next_due()
    }

    /// As [`Half::due`], without an allocator: for who looks at the next phase and doesn't run it.
    ///
    /// # Errors
    /// As [`Half::due`].
    pub fn next_due(&self) -> Result<Due, DueRefusal>
        ensures due { IfOk result (λ due. IsDue self.now.state due) }
        ensures open { IfOk result (λ due. bus_refusal self.now.state ≡ None) }
        ensures refused { IfErr result (λ refusal. bus_refusal self.now.state ≡ Some (due_outcome refusal)) }
    {
        if let Some(cause) = self.stopped {
            return Err(DueRefusal::Stopped(cause));
        }
        match self.way.due() {
            Some(due) => Ok(due),
            None => Err(DueRefusal::NoPlan),
        }
    }

    /// Moves out the oldest reply that is held for the host. What follows is [`Half::keep`] or [`Half::posted`]; until
    /// then the state is as before. It takes no memory.
    pub fn held(&mut self, host: u8) -> Option<Reply>
        requires settled { self.old.lent ≡ None }
        ensures none { IfNone result ((held_for host self.old.state ≡ []) × (self.new ≡ self.old)) }
        ensures oldest { IfSome result (λ r. IsOldest host self.old.state.held r) }
        ensures lent { IfSome result (λ r. self.new ≡ record self.old { lent = Some r }) }
    {
        let at = oldest_for(host, self.held.as_slice())?;
        let reply = self.held.remove(at);
        self.history = self.history.with_lent(&reply);
        self.lent = Some(Lent {
            at,
            place: reply.place,
        });
        Some(reply)
    }

    /// Puts back the reply that [`Half::held`] gave: nothing happened. It takes no memory.
    pub fn keep(&mut self, reply: Reply)
        requires lent { self.old.lent ≡ Some reply }
        ensures { self.new ≡ record self.old { lent = None } }
    {
        let Some(lent) = self.lent else {
            unreachable!();
        };
        self.history = self.history.without_lent();
        self.lent = None;
        self.held.insert(lent.at, reply).unwrap();
    }

    /// The reply that [`Half::held`] gave for the host was posted. It takes no memory.
    pub fn posted(&mut self, host: u8)
        requires lent { (r : AReply) × (self.old.lent ≡ Some r) × (r.host ≡ host) }
        ensures posted { IfSome self.old.lent (λ r. GoesOut self.old.state self.new.state host r) }
        ensures settled { self.new.lent ≡ None }
        ensures setup { self.new.setup ≡ self.old.setup }
    {
        let Some(lent) = self.lent else {
            unreachable!();
        };
        let Some(key) = find(&self.slots, lent.place) else {
            unreachable!();
        };
        self.slots.try_remove(key);
        self.history = self.history.with_posted(&self.held);
        self.lent = None;
    }

    /// The problem of the last accepting planning and what was planned for it, where that is plain: an optimal schedule, when
    /// it ends, and tokens that show it. None before a planning, and where its certificate remembers states or shows less.
    pub fn last(&self) -> Option<(&Problem, &Planned)>
        ensures last { IfSome result (λ r. self.now.state.last ≡ Some (plainly_with r.0.now.problem r.1.now)) }
        ensures none { IfNone result (IfSome self.now.state.last (λ plan. IsPlainPlan plan → ⊥)) }
        ensures optimal { IfSome result (λ r. Optimal r.0.now.problem r.1.now.schedule) }
        ensures finish { IfSome result (λ r. r.1.now.finish ≡ finish r.0.now.problem r.1.now.schedule) }
        ensures accepted { IfSome result (λ r. AcceptsTokens r.1.now.cert.items r.0.now.problem r.1.now.finish) }
    {
        let batch = self.last.as_ref()?;
        let planned = batch.plan.plain()?;
        Some((&batch.problem, planned))
    }

    /// The problem and the plan of the last accepting planning, by whichever planner; none before one.
    pub fn last_plan(&self) -> Option<(&Problem, &LastPlan)>
        ensures { MatchOption result (self.now.state.last ≡ None) (λ r. self.now.state.last ≡ Some (planning_by r.0.now.problem r.1.now)) }
    {
        self.last
            .as_ref()
            .map(|batch| (&batch.problem, &batch.plan))
    }
}

// That many items are taken once one more is accepted: by the next phase that one too.
fn planned_with(way: &Way, planned: u64) -> u64
    requires { planned ≤ 2 ^ 34 }
    ensures { result ≡ planned_with way.now.books planned }
{
    if way.plans() { planned } else { planned + 1 }
}

// Why there is no plan, as why a half doesn't plan.
pub(crate) fn refusal_of(stop: PlanStop) -> PlanRefusal
    ensures { result ≡ refusal_of stop }
{
    match stop {
        PlanStop::Clock => PlanRefusal::Stopped(Cause::Clock),
        PlanStop::Over { opened } => PlanRefusal::Over { opened },
        PlanStop::Memory => PlanRefusal::Memory,
    }
}
