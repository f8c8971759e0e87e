ghost use Rattle.std.specs.Prelude.{◌≡◌, ◌≢◌, List, length, false, IsBitSet, IsTrue, OnOk, IfOk, IfErr};
ghost use Rattle.onfi_addr.specs.Rows.{page_bytes_of};
ghost use Rattle.onfi_timing.specs.declared.kind.Kind.TheVariants as kind;
ghost use Rattle.onfi_timing.specs.declared.operation.Operation.TheVariants as operation;
ghost use Rattle.onfi_timing.specs.Kinds.{operation_of};
ghost use Rattle.onfi_request.specs.declared.answer.Answer.TheVariants as answer;
ghost use Rattle.onfi_request.specs.declared.request.Request.{Request as ARequest};
ghost use Rattle.onfi_chip.specs.declared.fault.PostFault.TheVariants.{Bus, NotReady};
ghost use Rattle.onfi_chip.specs.declared.post.Post.{Post as APost};
ghost use Rattle.onfi_chip.specs.Chip.{Chip as ChipState, found_ready, posted};
ghost use Rattle.onfi_chip.specs.Calls.{IsNextCommand, IsNextPost, command_of, HasDone, IsLost, IsOutput, IsUnread, AfterFault, TellsAnswer};

use crate::closer::Closer;
use crate::fault::ChipFault;
use onfi_timing::Kind;
use std::alloc::Global;

/// A chip of one channel: its LUNs, as far as a sequencer knows them.
///
/// Moments are ns of the channel's clock, row addresses those of the chip's geometry. A call on one LUN leaves all others.
/// Each call asks that it is the next of its LUN's group and that the wait before it is over. A group's requests happen at
/// its last command; its posts, one for each member, give their answers.
///
/// Any operation may form a group here, whatever the device's page says of grouped reads, programs and erases. A driver for a
/// device that forbids groups of an operation gives each member of it the closer `Last`, so that its groups have one
/// member; it gets so where the rules of its problems allow no such group, as they do when they come from the page.
pub trait Chip {
    /// Its geometry, timing and injected faults, its blocks and LUNs, how often a call's bus failed, and how often a status
    /// said that its LUN isn't ready.
    ghost state: { Self → ChipState };

    /// A command of a group: the opener of `opener` (00h, 80h or 60h), the address, for a program the data, and the
    /// closer (ONFI 4.2, command definition and multi-plane operations).
    ///
    /// # Errors
    /// `Bus`, only where the chip's count of failed buses rose; `Memory` where a growth was refused: the chip is unchanged.
    fn command(
        &mut self,
        alloc: Global,
        now: u64,
        row: u64,
        opener: Kind,
        closer: Closer,
        bytes: &[u8],
    ) -> Result<(), ChipFault>
        requires { (r : ARequest) × IsNextCommand (state self.old) now row opener bytes.now r }
        ensures ok { OnOk result ((r : ARequest) → IsNextCommand (state self.old) now row opener bytes.now r
            → HasDone (command_of closer (state self.old) r now) (state self.new)) }
        ensures err { IfErr result (λ fault. AfterFault fault (state self.old) (state self.new)) };

    /// The data output of a read of a whole page, its post: 06h, the address, E0h, then all bytes of the page into `out`
    /// (ONFI 4.2, Change Read Column Enhanced).
    ///
    /// # Errors
    /// `Bus`, only where the chip's count of failed buses rose.
    fn data_out(&mut self, now: u64, row: u64, out: &mut [u8]) -> Result<(), ChipFault>
        requires next { (post : APost) × (left : List APost) × IsNextPost (state self.old) now row post left × (post.kind ≡ kind.Read) }
        requires room { length out.old ≡ page_bytes_of (state self.old).geometry }
        ensures ok { OnOk result ((post : APost) (left : List APost) → IsNextPost (state self.old) now row post left
            → (post.answer ≡ answer.Read out.new) × HasDone (posted (state self.old) post left now) (state self.new)) }
        ensures err { IfErr result (λ fault. (fault ≡ ChipFault.Bus) × IsLost Bus (state self.old) (state self.new)) };

    /// The data output of some sectors of a read's page, its post: 06h, the column of the first sector, the row, E0h, then
    /// their bytes into `out` (ONFI 4.2, Change Read Column Enhanced). A chip that doesn't say otherwise here has none, and
    /// answers `Bus`.
    ///
    /// # Errors
    /// `Bus`, only where the chip's count of failed buses rose, or the chip has no sectors and is unchanged.
    fn sectors_out(
        &mut self,
        now: u64,
        row: u64,
        column: u16,
        out: &mut [u8],
    ) -> Result<(), ChipFault>
        requires next { (post : APost) × (left : List APost) × IsNextPost (state self.old) now row post left × IsOutput (state self.old).geometry post.kind column (length out.old) }
        ensures ok { OnOk result ((post : APost) (left : List APost) → IsNextPost (state self.old) now row post left
            → (post.answer ≡ answer.Read out.new) × HasDone (posted (state self.old) post left now) (state self.new)) }
        ensures err { IfErr result (λ fault. (fault ≡ ChipFault.Bus) × IsUnread (state self.old) (state self.new)) }
    {
        Err(ChipFault::Bus)
    }

    /// The status of a program or an erase, its post: 78h, the row address, then one byte (ONFI 4.2, Read Status
    /// Enhanced). Bit 6 is RDY; where it is 1, bit 0 is FAIL of that member.
    ///
    /// # Errors
    /// `Bus`, only where the chip's count of failed buses rose. A byte whose RDY is 0 comes only where its count of statuses
    /// not ready rose.
    fn status(&mut self, now: u64, row: u64) -> Result<u8, ChipFault>
        requires { (post : APost) × (left : List APost) × IsNextPost (state self.old) now row post left × (operation_of post.kind ≢ operation.Read) }
        ensures ready { IfOk result (λ byte. IsBitSet byte 6 → (post : APost) (left : List APost) → IsNextPost (state self.old) now row post left
            → TellsAnswer byte post.answer × HasDone (posted (state self.old) post left now) (state self.new)) }
        ensures not_ready { IfOk result (λ byte. ¬ IsBitSet byte 6 → IsLost NotReady (state self.old) (state self.new)) }
        ensures err { IfErr result (λ fault. (fault ≡ ChipFault.Bus) × IsLost Bus (state self.old) (state self.new)) };

    /// Whether the LUN says at `now` that it is ready, asked without the bus (R/B#, ONFI 4.2, pin description). It is said
    /// only where the work of its array is done: its next post may start from `now` on. A chip may always say no, as one does
    /// that doesn't say otherwise here; so should one that can't distinguish its LUNs.
    fn poll(&mut self, now: u64, lun: u8) -> bool
        ensures ready { IsTrue result → state self.new ≡ found_ready (state self.old) lun now }
        ensures busy { result ≡ false → state self.new ≡ state self.old }
    {
        false
    }
}
