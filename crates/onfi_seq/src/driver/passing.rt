//! Time that passes.

ghost use Rattle.std.specs.Prelude.{◌≡◌, ◌≤◌, ◌<◌, None, Some, IfSome, IfNone, true, false};
ghost use Rattle.onfi_core.specs.Steps.{bus_refusal, none_left};
ghost use Rattle.onfi_seq.specs.Driver.{Asks, AsksBelow, PassesTo, StartsNext, WaitsUntil, channel_in, in_time};

use crate::driver::Driver;
use onfi_chip::Chip;
use onfi_plan::Planner;
use std::alloc::Global;

/// All moments of a channel are before this one, in ns.
const END: u64 = 1 << 62;

impl<C: Chip, P: Planner> Driver<C, P> {
    /// When the next phase starts, in ns of the channel's clock, if one is left. It takes no memory.
    pub(crate) fn next_start(&self) -> Option<u64>
        ensures some { IfSome result (StartsNext self.now.0.half) }
        ensures none { IfNone result (self.now.0.half.stopped ≡ None → none_left self.now.0.half ≡ true) }
        ensures left { IfSome result (λ _. bus_refusal self.now.0.half ≡ None) }
    {
        match self.half.next_due() {
            Ok(due) => Some(due.start),
            Err(_) => None,
        }
    }

    /// Time passes up to that moment, in ns of the channel's clock: where the bus was free before it, the half is shown that
    /// it waited; then each LUN whose array works is asked whether it is ready, by rising number. Whether one is that wasn't
    /// by what is stated is answered. A moment at 2^62 or later is none of the channel, and nothing is done. It takes no memory.
    pub(crate) fn pass(&mut self, alloc: Global, now: u64) -> bool
        ensures passed { PassesTo now self.old.0.setup (channel_in C.state self.old) (channel_in C.state self.new) }
        ensures kept { channel_in C.state self.new ≡ in_time (channel_in C.state self.old) (channel_in C.state self.new) }
        ensures setup { self.new.0.setup ≡ self.old.0.setup }
        ensures found { result ≡ false → self.new.0.half.now.luns ≡ self.old.0.half.now.luns }
        ensures phases { none_left self.new.0.half ≡ true → none_left self.old.0.half ≡ true }
    {
        if now >= END {
            return false;
        }
        self.wait(alloc, now);
        if self.half.bus_free() < now {
            return false;
        }
        self.ask_all()
    }

    // The bus waits until that moment, where it was free before, and that isn't too late.
    fn wait(&mut self, alloc: Global, now: u64)
        ensures waited { WaitsUntil now self.old.0.setup (channel_in C.state self.old) (channel_in C.state self.new) }
        ensures kept { channel_in C.state self.new ≡ in_time (channel_in C.state self.old) (channel_in C.state self.new) }
        ensures setup { self.new.0.setup ≡ self.old.0.setup }
        ensures luns { self.new.0.half.now.luns ≡ self.old.0.half.now.luns }
        ensures phases { none_left self.new.0.half ≡ true → none_left self.old.0.half ≡ true }
    {
        if self.half.bus_free() < now {
            let _waited = self.half.wait(alloc, now);
        }
    }

    // Asks each LUN whose array works whether it is ready as the bus is free; whether one is.
    fn ask_all(&mut self) -> bool
        ensures asked { AsksBelow self.old.0.setup self.old.0.setup.geometry.lun_count (channel_in C.state self.old) (channel_in C.state self.new) }
        ensures kept { channel_in C.state self.new ≡ in_time (channel_in C.state self.old) (channel_in C.state self.new) }
        ensures setup { self.new.0.setup ≡ self.old.0.setup }
        ensures found { result ≡ false → self.new.0.half.now.luns ≡ self.old.0.half.now.luns }
        ensures phases { none_left self.new.0.half ≡ true → none_left self.old.0.half ≡ true }
    {
        let luns = self.half.setup().geometry.lun_count;
        let mut found = false;
        for lun in 0..luns {
            if self.ask(lun) {
                found = true;
            }
        }
        found
    }

    // Asks that LUN, if its array works, whether it is ready as the bus is free.
    fn ask(&mut self, lun: u8) -> bool
        ensures asked { Asks self.old.0.setup lun (channel_in C.state self.old) (channel_in C.state self.new) }
        ensures kept { channel_in C.state self.new ≡ in_time (channel_in C.state self.old) (channel_in C.state self.new) }
        ensures setup { self.new.0.setup ≡ self.old.0.setup }
        ensures found { result ≡ false → self.new.0.half.now.luns ≡ self.old.0.half.now.luns }
        ensures phases { none_left self.new.0.half ≡ true → none_left self.old.0.half ≡ true }
    {
        if self.half.refuses_ready(lun).is_some() {
            return false;
        }
        let now = self.half.bus_free();
        let said = self.lanes.poll(&mut self.chip, now, lun);
        if said {
            self.half.ready(lun);
        }
        said
    }
}
