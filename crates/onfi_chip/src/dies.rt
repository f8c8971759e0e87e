ghost use Rattle.std.specs.Prelude.{◌≡◌, ℕ, ◌+◌, List, ◌∷◌, Some, IfOk, OnOk, OnErr, slice_get, slice_set};

use crate::closer::Closer;
use crate::lane::{Lane, idle_lanes};
use crate::launching::close;
use crate::member::Member;
use crate::post::Post;
use crate::wait::Wait;
use onfi_addr::{Geometry, Place};
use onfi_die::{Fault, Prepared, Store};
use onfi_timing::{Kind, Spans, Timing};
use std::alloc::{AllocError, Global};
use std::marker::Model;

/// The dies of a simulated chip, each with what its LUN does.
///
/// Contracts see them as [`Store`]'s blocks with the states of the LUNs.
#[derive(Debug, Drop)]
pub struct Dies {
    geometry: Geometry,
    timing: Timing,
    store: Store,
    lanes: Vec<Lane>,
}

impl Model for Dies {
    ghost use Rattle.std.specs.Prelude.{map};
    ghost use Rattle.onfi_chip.specs.Sim.{Sim, IsSim, lun_of};

    ghost Value = { Sim };

    ghost view = { λ s. record { geometry = s.geometry; timing = s.timing; store = s.store; luns = map lun_of s.lanes.items } };

    ghost invariant = { λ s. IsSim s.geometry s.store s.lanes.items };
}

impl Dies {
    ghost use Rattle.onfi_addr.specs.declared.place.Place.{Place as APlace};
    ghost use Rattle.onfi_addr.specs.Rows.{IsInRange, row_of};
    ghost use Rattle.onfi_timing.specs.Kinds.{spans_of};
    ghost use Rattle.onfi_request.specs.Range.{Fits};
    ghost use Rattle.onfi_die.specs.Shapes.{shape_of};
    ghost use Rattle.onfi_die.specs.Prepared.{IsAnswerTo};
    ghost use Rattle.onfi_chip.specs.declared.post.Post.{Post as APost};
    ghost use Rattle.onfi_chip.specs.Chip.{opened, no_failures, after_post, found_ready};
    ghost use Rattle.onfi_chip.specs.Chip.Lun.{Posting as InPosts};
    ghost use Rattle.onfi_chip.specs.Calls.{command_of};
    ghost use Rattle.onfi_chip.specs.Sim.{chip_of, request_in, over_at, added, is_over_at, IsOpenAt, IsReady};

    /// The dies of a device as they open: all blocks erased, all LUNs idle.
    ///
    /// # Errors
    /// Where memory was refused.
    pub(crate) fn new(
        alloc: Global,
        geometry: Geometry,
        timing: Timing,
        faults: Vec<Fault>,
    ) -> Result<Dies, AllocError>
        ensures { IfOk result (λ dies. chip_of dies ≡ opened geometry timing faults.items no_failures) }
    {
        let lanes = idle_lanes(alloc, geometry.lun_count)?;
        let store = Store::new(alloc, &geometry, faults);
        Ok(Dies {
            geometry,
            timing,
            store,
            lanes,
        })
    }

    /// The place with this row address, which is that of a page.
    pub(crate) fn place(&self, row: u64) -> Place
        requires { (place : APlace) × IsInRange self.now.geometry place × (row_of self.now.geometry place ≡ row) }
        ensures { (place : APlace) → IsInRange self.now.geometry place → row_of self.now.geometry place ≡ row → result ≡ place }
    {
        let Some(place) = self.geometry.unrow(row) else {
            unreachable!();
        };
        place
    }

    /// The lengths of a kind.
    pub(crate) fn spans(&self, kind: Kind) -> Spans
        ensures { result ≡ spans_of self.now.timing kind }
    {
        self.timing.spans(kind)
    }

    fn add(
        &mut self,
        alloc: Global,
        member: Member,
        closer: Closer,
        wait: Wait,
    ) -> Result<(), AllocError>
        requires open { IsOpenAt (slice_get self.old.luns member.place.lun) }
        requires ready { IsReady self.old.store member }
        ensures ok { OnOk result (chip_of self.new ≡ added closer (chip_of self.old) (request_in member) (over_at wait)) }
        ensures err { OnErr result (chip_of self.new ≡ chip_of self.old) }
    {
        let lane = &mut self.lanes[usize::from(member.place.lun)];
        match closer {
            Closer::More => lane.queue(alloc, member, wait),
            Closer::Last => close(alloc, &mut self.store, lane, member, wait),
        }
    }

    /// A command at `now`; the LUN may take it.
    ///
    /// # Errors
    /// Where memory was refused; the dies are then unchanged.
    pub(crate) fn take(
        &mut self,
        alloc: Global,
        now: u64,
        place: Place,
        opener: Kind,
        closer: Closer,
        bytes: &[u8],
    ) -> Result<(), AllocError>
        requires open { IsOpenAt (slice_get self.old.luns place.lun) }
        requires fits { Fits self.old.geometry (record { kind = opener; place = place; bytes = bytes.now }) }
        ensures ok { OnOk result (chip_of self.new ≡ command_of closer (chip_of self.old) (record { kind = opener; place = place; bytes = bytes.now }) now) }
        ensures err { OnErr result (chip_of self.new ≡ chip_of self.old) }
    {
        let operation = Prepared::of(alloc, opener, bytes, self.geometry.page_bytes())?;
        self.store.keep(alloc, opener, place)?;
        let length = closer.hold(self.timing.spans(opener));
        let wait = Wait { from: now, length };
        self.add(alloc, Member { place, operation }, closer, wait)
    }

    /// Whether the wait of that LUN is over at `now`; of one that isn't there it is not.
    pub(crate) fn is_ready(&self, lun: u8, now: u64) -> bool
        ensures { result ≡ is_over_at now (slice_get self.now.luns lun) }
    {
        let at = usize::from(lun);
        if at >= self.lanes.len() {
            return false;
        }
        self.lanes[at].is_ready(now)
    }

    /// The array of that LUN was found done at `now`.
    pub(crate) fn find_ready(&mut self, lun: u8, now: u64)
        ensures { chip_of self.new ≡ found_ready (chip_of self.old) lun now }
    {
        let at = usize::from(lun);
        if at < self.lanes.len() {
            self.lanes[at].find_ready(now);
        }
    }

    /// Gives up the next post of a LUN, which starts at `now`.
    pub(crate) fn post(&mut self, place: Place, now: u64) -> Post
        requires { (post : APost) × (left : List APost) × (ready : ℕ) × (slice_get self.old.luns place.lun ≡ Some (InPosts (post ∷ left) ready)) }
        ensures taken { (post : APost) (left : List APost) (ready : ℕ) → slice_get self.old.luns place.lun ≡ Some (InPosts (post ∷ left) ready)
            → (result ≡ post)
            × (chip_of self.new ≡ record (chip_of self.old) { luns = slice_set self.old.luns place.lun (after_post left (now + (spans_of self.old.timing post.kind).post)) }) }
        ensures form { IsAnswerTo (shape_of self.old.geometry) result.kind result.answer }
    {
        self.lanes[usize::from(place.lun)].pop(&self.timing, now)
    }
}
