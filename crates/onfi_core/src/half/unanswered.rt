//! The items that wait for their reply to be posted.

ghost use Rattle.std.specs.Prelude.{◌≡◌, IfOk};
ghost use Rattle.onfi_core.specs.Unanswered.{unanswered_senders};

use crate::finding::{item_of, next_place};
use crate::half::{Half, WINDOW};
use std::alloc::{AllocError, Global};

impl Half {
    /// Host and serial of each accepted item without a posted reply, in acceptance order.
    ///
    /// # Errors
    /// Where memory was refused.
    pub fn unanswered(&self, alloc: Global) -> Result<Vec<(u8, u32)>, AllocError>
        ensures { IfOk result (λ senders. senders.items ≡ unanswered_senders self.now.state) }
    {
        let mut senders = Vec::with_capacity(alloc, WINDOW)?;
        let mut from = 0;
        while let Some(place) = next_place(&self.slots, from) {
            let item = item_of(&self.slots, place);
            senders.push((item.host, item.serial))?;
            from = place + 1;
        }
        Ok(senders)
    }
}
