//! What a bus phase leaves of a half.

ghost use Rattle.std.specs.Prelude.{◌≡◌, ℕ, ◌+◌, ◌*◌, ◌-◌, ◌<◌, ◌≤◌, ◌++◌, List, length, Some, None, option_to_list, slice_get, vec_len, vec_capacity};
ghost use Rattle.slab.specs.Slab.{get};
ghost use Rattle.onfi_request.specs.declared.fault.Fault.{Fault as AFault};
ghost use Rattle.onfi_request.specs.declared.want.Want.{Want as AWant};
ghost use Rattle.onfi_core.specs.declared.slot.Slot.{Slot as ASlot};
ghost use Rattle.onfi_core.specs.State.{item_at};
ghost use Rattle.onfi_flight.specs.Flight.{member_of};
ghost use Rattle.onfi_core.specs.Dues.{IsDue, IsRan, replies_of, after_due};
ghost use Rattle.onfi_core.specs.Steps.{stopped_after};
ghost use Rattle.onfi_core.specs.View.{HasSlot};

use crate::finding::item_of;
use crate::half::Half;
use crate::history::History;
use crate::outcome::Cause;
use crate::slot::Slot;
use crate::way::Way;
use onfi_flight::Due;
use onfi_lun::PhaseResult;
use onfi_request::{Basis, Item, Reply};
use slab::Slab;

/// All moments of a channel are before this one, in ns.
const END: u64 = 1 << 62;

impl Half {
    /// The item of the member that the due phase is of: what its command carries, or what its post answers.
    pub fn member<'a>(&'a self, due: &Due) -> &'a Item
        requires { IsDue self.now.state due.now }
        ensures { (m : AWant) × (member_of due.now.group due.now.phase ≡ Some m) × (result.now ≡ item_at self.now.state.accepted m.id) }
    {
        item_of(&self.slots, due.member().id)
    }

    /// The phase that [`Half::due`] gave is done, and the chip answered it with `ran`; the reply of a post is held after all
    /// others. It takes no memory. The chip is shown for the caller's proof alone, which picks the faults that the reply
    /// rests on.
    pub fn done<T>(&mut self, due: &Due, ran: PhaseResult, chip: &T)
        ghost faults: { List AFault }
        requires settled { self.old.lent ≡ None }
        requires due { IsDue self.old.state due.now }
        requires ran { IsRan due.now ran }
        ensures { self.new ≡ record self.old { state = after_due self.old.state due.now (replies_of self.old.state.accepted faults due.now ran) } }
    {
        let reply = reply_of(&self.slots, &self.history, due, ran, chip);
        self.history = self.history.with_held(&reply);
        hold(&mut self.held, reply);
        self.way.done(due);
        self.stopped = stopped_after(&self.way, due.lun, self.stopped);
    }

    /// Stops the channel for that cause: from now on it accepts, plans and runs nothing.
    pub fn stop(&mut self, cause: Cause)
        requires settled { self.old.lent ≡ None }
        requires going { self.old.state.stopped ≡ None }
        ensures { self.new ≡ record self.old { state = record self.old.state { stopped = Some cause } } }
    {
        self.stopped = Some(cause);
    }
}

// Why the channel is stopped after a phase on that LUN: where nothing is planned one stops it that leaves bus or LUN busy until
// 2^62 ns.
fn stopped_after(way: &Way, lun: u8, stopped: Option<Cause>) -> Option<Cause>
    requires { lun < length way.now.now.luns }
    ensures { result ≡ stopped_after way.now.books way.now.now lun stopped }
{
    if !way.plans() && way.bus_free().max(way.free_from(lun)) >= END {
        return Some(Cause::Clock);
    }
    stopped
}

// The reply that a phase makes, if it is a post.
fn reply_of<T>(
    slots: &Slab<Slot>,
    history: &History,
    due: &Due,
    ran: PhaseResult,
    chip: &T,
) -> Option<Reply>
    ghost faults: { List AFault }
    requires ran { IsRan due.now ran }
    requires within { due.now.phase < 2 * length due.now.group }
    requires slot { (m : AWant) → member_of due.now.group due.now.phase ≡ Some m → HasSlot slots.now m.id }
    requires items { (key : ℕ) (slot : ASlot) → get slots.now key ≡ Some slot → slice_get history.now.accepted slot.place ≡ Some slot.item }
    ensures { option_to_list result ≡ replies_of history.now.accepted faults due.now ran }
{
    let PhaseResult::Post(answer) = ran else {
        return None;
    };
    let place = due.member().id;
    let item = item_of(slots, place);
    Some(Reply {
        host: item.host,
        serial: item.serial,
        place,
        answer,
        basis: Basis::of(history, chip),
    })
}

// A reply more at the end, if there is one.
fn hold(held: &mut Vec<Reply>, reply: Option<Reply>)
    requires { vec_len held.old + length (option_to_list reply) ≤ vec_capacity held.old }
    ensures items { held.new.items ≡ held.old.items ++ option_to_list reply }
    ensures capacity { vec_capacity held.new ≡ vec_capacity held.old }
{
    if let Some(reply) = reply {
        held.push_reserved(reply);
    }
}
