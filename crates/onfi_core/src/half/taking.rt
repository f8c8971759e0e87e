//! What a planning takes.

ghost use Rattle.std.specs.Prelude.{◌≡◌, ◌++◌, None, not};
ghost use Rattle.onfi_core.specs.Steps.{is_empty, nothing_to_plan, taken_next};

use crate::finding::item_of;
use crate::half::Half;
use crate::wants::want_of;
use arrayvec::ArrayVec;
use onfi_request::Want;

impl Half {
    /// Whether nothing is to be planned, stopped or not, as always by the next phase: no item is unplanned, or the wants not started fill the batch; and
    /// the plan is that of the bus and the LUNs as they stand, or nothing of it is left.
    pub fn nothing_to_plan(&self) -> bool
        ensures { result ≡ nothing_to_plan self.now.setup self.now.state }
    {
        !self.takes_more() && self.is_current()
    }

    // Whether an item is unplanned, and finds a place.
    fn takes_more(&self) -> bool
        ensures { result ≡ not (is_empty (taken_next self.now.setup self.now.state)) }
    {
        if !self.way.plans() {
            return false;
        }
        if self.way.flight().wants().len() >= usize::from(self.batch) {
            return false;
        }
        self.planned < self.accepted
    }

    // The wants not started, and after them the first unplanned items, up to the batch in all.
    pub(crate) fn next_wants(&self) -> ArrayVec<Want, 8>
        requires { self.now.state.books ≡ None }
        ensures { result.items ≡ self.now.state.now.wants ++ taken_next self.now.setup self.now.state }
    {
        let mut wants = ArrayVec::try_from(self.way.flight().wants()).unwrap();
        let room = u64::from(self.batch).saturating_sub(wants.len() as u64);
        let count = room.min(self.accepted - self.planned);
        for at in 0..count {
            let place = self.planned + at;
            wants.push(want_of(&self.setup.geometry, place, item_of(&self.slots, place)));
        }
        wants
    }
}
