//! One channel of a core: its half, its chip and its queues.

ghost use Rattle.std.specs.Prelude.{◌≡◌, ℕ, ◌≤◌, ◌<◌, None, Some, Option, IfOk, IfNone, IfSome, MatchOption};
ghost use Rattle.std.specs.VecDeque.{deque_capacity};
ghost use Rattle.onfi_schedule.specs.Schedule.{Optimal, finish};
ghost use Rattle.onfi_check.specs.Tree.{AcceptsTokens};
ghost use Rattle.onfi_core.specs.Dues.{IsDue};
ghost use Rattle.onfi_core.specs.declared.event.Event.TheVariants as event;
ghost use Rattle.onfi_core.specs.Steps.{IsPlainPlan, IsPromised, Step, bus_refusal, fault_of};
ghost use Rattle.onfi_core.specs.Core.{with_batch};
ghost use Rattle.onfi_core.specs.Refusals.{planned_outcome, ready_outcome, waited_outcome};
ghost use Rattle.onfi_core.specs.Queues.{IsFresh, opened_with, state_in};
ghost use Rattle.onfi_core.specs.View.{plainly_with, planning_by};

use crate::batch::LastPlan;
use crate::drive::{phase_outcome, run_due};
use crate::event::Event;
use crate::half::passing::{ReadyRefusal, WaitRefusal};
use crate::half::{AcceptFault, DueRefusal, Half, PlanRefusal};
use crate::history::History;
use crate::host_queue::{HostQueue, host_queues};
use crate::outcome::Outcome;
use crate::setup::Setup;
use onfi_addr::Geometry;
use onfi_chip::Chip;
use onfi_flight::Due;
use onfi_lun::Lanes;
use onfi_plan::Planner;
use onfi_planner::Planned;
use onfi_problem::Problem;
use onfi_request::{Item, Request, RequestFault, check};
use std::alloc::{AllocError, Global};
use std::collections::VecDeque;
use std::marker::Model;

/// One channel of a core.
#[derive(Drop)]
pub struct Channel<C: Chip> {
    half: Half,
    chip: C,
    lanes: Lanes,
    /// The submission queue: what was submitted and is not accepted, the oldest first.
    waiting: VecDeque<Item>,
    /// By host.
    hosts: Vec<HostQueue>,
    traffic: History,
}

impl<C: Chip> Model for Channel<C> {
    ghost use Rattle.std.specs.VecDeque.{deque_capacity};
    ghost use Rattle.onfi_core.specs.Queues.{ChannelView, AreQueues};

    ghost Value = { ChannelView C };

    ghost view = { λ c. (
      record {
        setup = c.half.setup;
        half = c.half.state;
        sent = c.traffic.accepted;
        waiting = c.waiting.items;
        collected = c.traffic.posted;
      },
      c.chip,
    ) };

    ghost invariant = { λ c. AreQueues c.half.setup c.half.lent (deque_capacity c.waiting) c.hosts.items c.lanes
        (record { half = c.half.state; chip = C.state c.chip; sent = c.traffic.accepted; waiting = c.waiting.items; collected = c.traffic.posted }) };
}

impl<C: Chip> Channel<C> {
    /// A channel with nothing sent, accepted or planned. Its queues' room is made here, once for all.
    ///
    /// # Errors
    /// Where memory was refused.
    pub fn open(alloc: Global, setup: Setup, chip: C) -> Result<Channel<C>, AllocError>
    where
        C: Drop,
        requires { IsFresh setup (C.state chip) }
        ensures { IfOk result (λ c. (c.0.setup ≡ setup) × (state_in C.state c ≡ opened_with setup (C.state chip))) }
    {
        let half = Half::open(alloc, setup)?;
        let lanes = Lanes::open(alloc, setup.geometry.lun_count)?;
        let waiting = VecDeque::with_capacity(alloc, usize::from(setup.submit_cap))?;
        let hosts = host_queues(alloc, setup.hosts, setup.post_cap)?;
        Ok(Channel {
            half,
            chip,
            lanes,
            waiting,
            hosts,
            traffic: History::new(),
        })
    }

    /// A host pushes a request into the submission queue.
    pub fn submit(&mut self, host: u8, request: Request) -> Outcome
        ensures step { (channel : ℕ) → Step self.old.0.setup (state_in C.state self.old) (event.Submit host channel request) result (state_in C.state self.new) }
        ensures setup { self.new.0.setup ≡ self.old.0.setup }
    {
        let setup = self.half.setup();
        let at = usize::from(host);
        if at >= self.hosts.len() {
            return Outcome::NoSuch(Some(request));
        }
        if let Some(fault) = fault_of(&setup.geometry, &request) {
            return Outcome::Refused(fault, request);
        }
        let Some(serial) = self.hosts[at].next_serial() else {
            return Outcome::SerialsSpent(request);
        };
        if self.waiting.len() >= usize::from(setup.submit_cap) {
            return Outcome::SubmitFull(request);
        }
        let item = Item {
            host,
            serial,
            request,
        };
        self.traffic = self.traffic.with_accepted(&item);
        self.hosts[at].sent += 1;
        self.waiting.push_back_reserved(item);
        Outcome::Submitted(serial)
    }

    /// The sequencer pops the front of the submission queue.
    pub fn accept(&mut self) -> Outcome
        ensures step { (channel : ℕ) → Step self.old.0.setup (state_in C.state self.old) (event.Accept channel) result (state_in C.state self.new) }
        ensures setup { self.new.0.setup ≡ self.old.0.setup }
    {
        match self.half.refuses() {
            Some(AcceptFault::Stopped(cause)) => return Outcome::Stopped(cause),
            Some(AcceptFault::WindowFull) => return Outcome::WindowFull,
            None => {}
        }
        let Some(item) = self.waiting.pop_front() else {
            return Outcome::NothingToAccept;
        };
        Outcome::Accepted(self.half.accept(item))
    }

    /// The sequencer plans, by that planner.
    pub fn plan<P: Planner>(&mut self, alloc: Global, planner: &P) -> Outcome
        ensures step { (channel : ℕ) → Step self.old.0.setup (state_in C.state self.old) (event.Plan channel) result (state_in C.state self.new) }
        ensures promised { IfSome self.old.0.half.last (IsPromised P.exact P.certifies) → IfSome self.new.0.half.last (IsPromised P.exact P.certifies) }
        ensures setup { self.new.0.setup ≡ self.old.0.setup }
    {
        let planned = self.half.plan_by(alloc, planner);
        planned_outcome(planned)
    }

    /// The bus was idle until that moment, in ns.
    pub fn wait(&mut self, alloc: Global, moment: u64) -> Outcome
        ensures step { (channel : ℕ) → Step self.old.0.setup (state_in C.state self.old) (event.Wait channel moment) result (state_in C.state self.new) }
        ensures setup { self.new.0.setup ≡ self.old.0.setup }
    {
        let waited = self.half.wait(alloc, moment);
        waited_outcome(waited)
    }

    /// The array of that LUN may be done: the chip is asked.
    pub fn ready(&mut self, lun: u8) -> Outcome
        ensures step { (channel : ℕ) → Step self.old.0.setup (state_in C.state self.old) (event.Ready channel lun) result (state_in C.state self.new) }
        ensures setup { self.new.0.setup ≡ self.old.0.setup }
    {
        if let Some(refusal) = self.half.refuses_ready(lun) {
            return ready_outcome(refusal);
        }
        let now = self.half.bus_free();
        if self.lanes.ask(&mut self.chip, now, lun) {
            let ready = self.half.ready(lun);
            Outcome::ReadyFrom { ready }
        } else {
            Outcome::StillBusy
        }
    }

    /// The undone phase of least start happens on the chip.
    pub fn bus(&mut self, alloc: Global) -> Outcome
        ensures step { (channel : ℕ) → Step self.old.0.setup (state_in C.state self.old) (event.Bus channel) result (state_in C.state self.new) }
        ensures setup { self.new.0.setup ≡ self.old.0.setup }
    {
        match self.half.due(alloc) {
            Ok(due) => self.run(alloc, due),
            Err(DueRefusal::Stopped(cause)) => Outcome::Stopped(cause),
            Err(DueRefusal::NoPlan) => Outcome::NoPlan,
        }
    }

    // The due phase happens on the chip, or stops the channel.
    fn run(&mut self, alloc: Global, due: Due) -> Outcome
        requires due { IsDue self.old.0.half due }
        requires open { bus_refusal self.old.0.half ≡ None }
        ensures step { (channel : ℕ) → Step self.old.0.setup (state_in C.state self.old) (event.Bus channel) result (state_in C.state self.new) }
        ensures setup { self.new.0.setup ≡ self.old.0.setup }
    {
        let ran = run_due(alloc, &mut self.half, &mut self.chip, &mut self.lanes, &due);
        phase_outcome(ran)
    }

    /// The sequencer pushes the oldest reply held for the host into the host's completion queue.
    pub fn post(&mut self, host: u8) -> Outcome
        ensures step { (channel : ℕ) → Step self.old.0.setup (state_in C.state self.old) (event.Post channel host) result (state_in C.state self.new) }
        ensures setup { self.new.0.setup ≡ self.old.0.setup }
    {
        let at = usize::from(host);
        if at >= self.hosts.len() {
            return Outcome::NoSuch(None);
        }
        let Some(reply) = self.half.held(host) else {
            return Outcome::NothingToPost;
        };
        if self.hosts[at].completions.len() >= usize::from(self.half.setup().post_cap) {
            self.half.keep(reply);
            return Outcome::PostFull;
        }
        let place = reply.place;
        self.half.posted(host);
        self.hosts[at].completions.push_back_reserved(reply);
        Outcome::Posted(place)
    }

    /// The host pops the front of its completion queue.
    pub fn collect(&mut self, host: u8) -> Outcome
        ensures step { (channel : ℕ) → Step self.old.0.setup (state_in C.state self.old) (event.Collect channel host) result (state_in C.state self.new) }
        ensures setup { self.new.0.setup ≡ self.old.0.setup }
    {
        let at = usize::from(host);
        if at >= self.hosts.len() {
            return Outcome::NoSuch(None);
        }
        let Some(reply) = self.hosts[at].completions.pop_front() else {
            return Outcome::NothingToCollect;
        };
        self.traffic = self.traffic.with_collected(&reply);
        Outcome::Collected(reply)
    }

    /// The problem and the plan of the last accepting planning; none before one.
    pub fn last_plan(&self) -> Option<(&Problem, &LastPlan)>
        ensures { MatchOption result (self.now.0.half.last ≡ None) (λ r. self.now.0.half.last ≡ Some (planning_by r.0.now.problem r.1.now)) }
    {
        self.half.last_plan()
    }

    /// The problem of the last accepting planning and what was planned for it, where that is plain; none before one.
    pub fn last(&self) -> Option<(&Problem, &Planned)>
        ensures last { IfSome result (λ r. self.now.0.half.last ≡ Some (plainly_with r.0.now.problem r.1.now)) }
        ensures none { IfNone result (IfSome self.now.0.half.last (λ plan. IsPlainPlan plan → ⊥)) }
        ensures optimal { IfSome result (λ r. Optimal r.0.now.problem r.1.now.schedule) }
        ensures finish { IfSome result (λ r. r.1.now.finish ≡ finish r.0.now.problem r.1.now.schedule) }
        ensures accepted { IfSome result (λ r. AcceptsTokens r.1.now.cert.items r.0.now.problem r.1.now.finish) }
    {
        self.half.last()
    }

    /// Sets the batch of later plannings, 1 to 8, and nothing else.
    pub fn set_batch(&mut self, batch: u8)
        requires some { 1 ≤ batch }
        requires few { batch ≤ 8 }
        ensures set { state_in C.state self.new ≡ with_batch batch (state_in C.state self.old) }
        ensures setup { self.new.0.setup ≡ self.old.0.setup }
    {
        self.half.set_batch(batch);
    }

    /// The event, whichever channel it names; that planner plans.
    pub fn step<P: Planner>(&mut self, alloc: Global, planner: &P, event: Event) -> Outcome
        ensures step { Step self.old.0.setup (state_in C.state self.old) event result (state_in C.state self.new) }
        ensures promised { IfSome self.old.0.half.last (IsPromised P.exact P.certifies) → IfSome self.new.0.half.last (IsPromised P.exact P.certifies) }
        ensures setup { self.new.0.setup ≡ self.old.0.setup }
    {
        match event {
            Event::Submit {
                host,
                request,
                channel: _,
            } => self.submit(host, request),
            Event::Accept { channel: _ } => self.accept(),
            Event::Plan { channel: _ } => self.plan(alloc, planner),
            Event::Bus { channel: _ } => self.bus(alloc),
            Event::Post { host, channel: _ } => self.post(host),
            Event::Collect { host, channel: _ } => self.collect(host),
            Event::Wait { moment, channel: _ } => self.wait(alloc, moment),
            Event::Ready { lun, channel: _ } => self.ready(lun),
        }
    }
}

// What a planning came to.
fn planned_outcome(planned: Result<u64, PlanRefusal>) -> Outcome
    ensures { result ≡ planned_outcome planned }
{
    match planned {
        Ok(finish) => Outcome::Planned(finish),
        Err(PlanRefusal::Stopped(cause)) => Outcome::Stopped(cause),
        Err(PlanRefusal::NothingToPlan) => Outcome::NothingToPlan,
        Err(PlanRefusal::Over { opened }) => Outcome::Over { opened },
        Err(PlanRefusal::Memory) => Outcome::Memory(None),
    }
}

// What a wait came to.
fn waited_outcome(waited: Result<u64, WaitRefusal>) -> Outcome
    ensures { result ≡ waited_outcome waited }
{
    match waited {
        Ok(bus_free) => Outcome::Waited { bus_free },
        Err(WaitRefusal::Stopped(cause)) => Outcome::Stopped(cause),
        Err(WaitRefusal::TooLate) => Outcome::TooLate,
    }
}

// Why a LUN isn't found ready.
fn ready_outcome(refusal: ReadyRefusal) -> Outcome
    ensures { result ≡ ready_outcome refusal }
{
    match refusal {
        ReadyRefusal::NoSuchLun => Outcome::NoSuch(None),
        ReadyRefusal::Stopped(cause) => Outcome::Stopped(cause),
        ReadyRefusal::NotInArray => Outcome::NotInArray,
    }
}

// The first fault of a request, if it has one.
fn fault_of(geometry: &Geometry, request: &Request) -> Option<RequestFault>
    ensures { result ≡ fault_of geometry.now request.now }
{
    check(geometry, request).err()
}
