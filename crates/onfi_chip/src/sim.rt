ghost use Rattle.std.specs.Prelude.{◌≡◌, ◌≢◌, List, [], length, false, replicate, IfOk, OnOk, OnErr, IfErr, IsBitSet, IsTrue};
ghost use Rattle.onfi_addr.specs.Rows.{page_bytes_of};
ghost use Rattle.onfi_timing.specs.declared.kind.Kind.TheVariants as kind;
ghost use Rattle.onfi_timing.specs.declared.operation.Operation.TheVariants as operation;
ghost use Rattle.onfi_timing.specs.Kinds.{operation_of};
ghost use Rattle.onfi_request.specs.Parts.{bytes_out};
ghost use Rattle.onfi_request.specs.declared.answer.Answer.TheVariants as answer;
ghost use Rattle.onfi_request.specs.declared.request.Request.{Request as ARequest};
ghost use Rattle.onfi_chip.specs.declared.fault.PostFault.TheVariants.{Bus, NotReady};
ghost use Rattle.onfi_chip.specs.declared.post.Post.{Post as APost};
ghost use Rattle.onfi_chip.specs.Chip.{found_ready, posted};
ghost use Rattle.onfi_chip.specs.Calls.{IsNextCommand, IsNextPost, command_of, HasDone, IsLost, IsOutput, IsUnread, AfterFault, TellsAnswer};

use crate::array_time::ArrayTime;
use crate::arrays::Arrays;
use crate::chip::Chip;
use crate::closer::Closer;
use crate::dies::Dies;
use crate::fault::ChipFault;
use crate::numbered::Numbered;
use crate::status::encode_status;
use onfi_addr::Geometry;
use onfi_die::Fault;
use onfi_request::Answer;
use onfi_timing::{Kind, Timing};
use std::alloc::{AllocError, Global};

/// A simulated chip: its dies, which of its calls fail, and how long its arrays really take.
///
/// Calls are numbered from 0 in the order in which they are made, one refused for memory not counted; status calls have
/// numbers of their own, one whose bus failed not counted. The operations of a LUN's array are numbered from 0 as they
/// start, each at the last command of a group. Its calls check no time: that a wait is over is what they ask for. Asked
/// whether a LUN is ready it says so once the real time of its array is over, else the stated one, and never before.
#[derive(Debug, Drop)]
pub struct SimChip {
    dies: Dies,
    calls: Numbered,
    statuses: Numbered,
    arrays: Arrays,
}

impl SimChip {
    ghost use Rattle.onfi_chip.specs.Chip.{opened, no_failures};
    ghost use Rattle.onfi_chip.specs.Arrays.{unused};
    ghost use Rattle.onfi_chip.specs.SimChip.{chip_in, failing_calls, failing_statuses, calls_made, statuses_made, array_times, arrays_of, arrays_posted, next_ready, FailsAsListed, IsCounted, KeepsCalls, KeepsLists};

    /// A chip of this geometry and timing as it opens: all blocks erased, all LUNs idle. `faults` are the programs and
    /// erases that fail, `calls` the numbers, from 0, of the calls whose bus fails, `statuses` the numbers of the status
    /// calls that say that their LUN isn't ready. Its arrays take the stated times.
    ///
    /// # Errors
    /// Where memory was refused.
    pub fn new(
        alloc: Global,
        geometry: Geometry,
        timing: Timing,
        faults: Vec<Fault>,
        calls: Vec<u32>,
        statuses: Vec<u32>,
    ) -> Result<SimChip, AllocError>
        ensures opened { IfOk result (λ chip. chip_in chip ≡ opened geometry timing faults.items no_failures) }
        ensures calls { IfOk result (λ chip. failing_calls chip ≡ calls.items) }
        ensures statuses { IfOk result (λ chip. failing_statuses chip ≡ statuses.items) }
        ensures no_call { IfOk result (λ chip. calls_made chip ≡ 0) }
        ensures no_status { IfOk result (λ chip. statuses_made chip ≡ 0) }
        ensures no_time { IfOk result (λ chip. array_times chip ≡ []) }
        ensures no_array { IfOk result (λ chip. arrays_of chip ≡ replicate geometry.lun_count unused) }
    {
        let arrays = Arrays::new(alloc, geometry.lun_count)?;
        let dies = Dies::new(alloc, geometry, timing, faults)?;
        Ok(SimChip {
            dies,
            calls: Numbered::new(calls),
            statuses: Numbered::new(statuses),
            arrays,
        })
    }

    /// The same chip, whose arrays really take that long from now on; an operation that isn't listed takes the stated
    /// time. Of two times for one operation the first counts.
    pub fn with_array_times(self, times: Vec<ArrayTime>) -> SimChip
        ensures chip { chip_in result ≡ chip_in self }
        ensures times { array_times result ≡ times.items }
        ensures arrays { arrays_of result ≡ arrays_of self }
        ensures calls { KeepsCalls self result }
    {
        SimChip {
            arrays: self.arrays.with_times(times),
            ..self
        }
    }

    /// The next moment after `now`, in ns, at which an array is done by its real time: from then on its LUN says that it is
    /// ready. Of an operation that isn't listed, which takes the stated time, it says nothing.
    pub fn next_ready(&self, now: u64) -> Option<u64>
        ensures { result ≡ next_ready self.now now }
    {
        self.arrays.next_done(now)
    }

    // What a read puts out, at its post, into `out`; where it begins on the page the command says.
    fn put_out(&mut self, now: u64, row: u64, out: &mut [u8]) -> Result<(), ChipFault>
        requires next { (post : APost) × (left : List APost) × IsNextPost (chip_in self.old) now row post left × (operation_of post.kind ≡ operation.Read)
            × (length out.old ≡ bytes_out (chip_in self.old).geometry post.kind) }
        ensures ok { OnOk result ((post : APost) (left : List APost) → IsNextPost (chip_in self.old) now row post left
            → (post.answer ≡ answer.Read out.new) × HasDone (posted (chip_in self.old) post left now) (chip_in self.new)) }
        ensures err { IfErr result (λ fault. (fault ≡ ChipFault.Bus) × IsLost Bus (chip_in self.old) (chip_in self.new)) }
        ensures bus { FailsAsListed self.old result }
        ensures lists { KeepsLists self.old self.new }
        ensures counted { IsCounted self.old result self.new }
        ensures no_status { statuses_made self.new ≡ statuses_made self.old }
        ensures array { OnOk result ((post : APost) (left : List APost) → IsNextPost (chip_in self.old) now row post left
            → arrays_of self.new ≡ arrays_posted self.old post.place.lun) }
        ensures no_array { OnErr result (arrays_of self.new ≡ arrays_of self.old) }
    {
        if self.calls.count() {
            return Err(ChipFault::Bus);
        }
        let place = self.dies.place(row);
        let post = self.dies.post(place, now);
        self.arrays.end(place.lun);
        let Answer::Read(bytes) = post.answer else {
            unreachable!();
        };
        out.copy_from_slice(bytes.as_slice());
        Ok(())
    }
}

impl Chip for SimChip {
    ghost use Rattle.onfi_chip.specs.SimChip.{chip_in, statuses_made, KeepsLists, FailsAsListed, IsCounted, IsCountedStatus, IsReadyAsListed};
    ghost use Rattle.onfi_chip.specs.SimChip.{array_times, arrays_of, arrays_behind, arrays_posted, says_ready, KeepsCalls};

    ghost state = { chip_in };

    fn command(
        &mut self,
        alloc: Global,
        now: u64,
        row: u64,
        opener: Kind,
        closer: Closer,
        bytes: &[u8],
    ) -> Result<(), ChipFault>
        requires { (r : ARequest) × IsNextCommand (chip_in self.old) now row opener bytes.now r }
        ensures ok { OnOk result ((r : ARequest) → IsNextCommand (chip_in self.old) now row opener bytes.now r
            → HasDone (command_of closer (chip_in self.old) r now) (chip_in self.new)) }
        ensures err { IfErr result (λ fault. AfterFault fault (chip_in self.old) (chip_in self.new)) }
        ensures bus { FailsAsListed self.old result }
        ensures lists { KeepsLists self.old self.new }
        ensures counted { IsCounted self.old result self.new }
        ensures no_status { statuses_made self.new ≡ statuses_made self.old }
        ensures array { OnOk result ((r : ARequest) → IsNextCommand (chip_in self.old) now row opener bytes.now r
            → arrays_of self.new ≡ arrays_behind closer self.old r now) }
        ensures no_array { OnErr result (arrays_of self.new ≡ arrays_of self.old) }
    {
        if self.calls.fails() {
            self.calls.step();
            return Err(ChipFault::Bus);
        }
        let place = self.dies.place(row);
        if self
            .dies
            .take(alloc, now, place, opener, closer, bytes)
            .is_err()
        {
            return Err(ChipFault::Memory);
        }
        self.calls.step();
        let spans = self.dies.spans(opener);
        self.arrays.command(closer, place.lun, now, spans);
        Ok(())
    }

    fn data_out(&mut self, now: u64, row: u64, out: &mut [u8]) -> Result<(), ChipFault>
        requires next { (post : APost) × (left : List APost) × IsNextPost (chip_in self.old) now row post left × (post.kind ≡ kind.Read) }
        requires room { length out.old ≡ page_bytes_of (chip_in self.old).geometry }
        ensures ok { OnOk result ((post : APost) (left : List APost) → IsNextPost (chip_in self.old) now row post left
            → (post.answer ≡ answer.Read out.new) × HasDone (posted (chip_in self.old) post left now) (chip_in self.new)) }
        ensures err { IfErr result (λ fault. (fault ≡ ChipFault.Bus) × IsLost Bus (chip_in self.old) (chip_in self.new)) }
        ensures bus { FailsAsListed self.old result }
        ensures lists { KeepsLists self.old self.new }
        ensures counted { IsCounted self.old result self.new }
        ensures no_status { statuses_made self.new ≡ statuses_made self.old }
        ensures array { OnOk result ((post : APost) (left : List APost) → IsNextPost (chip_in self.old) now row post left
            → arrays_of self.new ≡ arrays_posted self.old post.place.lun) }
        ensures no_array { OnErr result (arrays_of self.new ≡ arrays_of self.old) }
    {
        self.put_out(now, row, out)
    }

    fn sectors_out(
        &mut self,
        now: u64,
        row: u64,
        column: u16,
        out: &mut [u8],
    ) -> Result<(), ChipFault>
        requires next { (post : APost) × (left : List APost) × IsNextPost (chip_in self.old) now row post left × IsOutput (chip_in self.old).geometry post.kind column (length out.old) }
        ensures ok { OnOk result ((post : APost) (left : List APost) → IsNextPost (chip_in self.old) now row post left
            → (post.answer ≡ answer.Read out.new) × HasDone (posted (chip_in self.old) post left now) (chip_in self.new)) }
        ensures err { IfErr result (λ fault. (fault ≡ ChipFault.Bus) × IsUnread (chip_in self.old) (chip_in self.new)) }
        ensures lost { IfErr result (λ _. IsLost Bus (chip_in self.old) (chip_in self.new)) }
        ensures bus { FailsAsListed self.old result }
        ensures lists { KeepsLists self.old self.new }
        ensures counted { IsCounted self.old result self.new }
        ensures no_status { statuses_made self.new ≡ statuses_made self.old }
        ensures array { OnOk result ((post : APost) (left : List APost) → IsNextPost (chip_in self.old) now row post left
            → arrays_of self.new ≡ arrays_posted self.old post.place.lun) }
        ensures no_array { OnErr result (arrays_of self.new ≡ arrays_of self.old) }
    {
        self.put_out(now, row, out)
    }

    fn status(&mut self, now: u64, row: u64) -> Result<u8, ChipFault>
        requires { (post : APost) × (left : List APost) × IsNextPost (chip_in self.old) now row post left × (operation_of post.kind ≢ operation.Read) }
        ensures ready { IfOk result (λ byte. IsBitSet byte 6 → (post : APost) (left : List APost) → IsNextPost (chip_in self.old) now row post left
            → TellsAnswer byte post.answer × HasDone (posted (chip_in self.old) post left now) (chip_in self.new)) }
        ensures not_ready { IfOk result (λ byte. ¬ IsBitSet byte 6 → IsLost NotReady (chip_in self.old) (chip_in self.new)) }
        ensures err { IfErr result (λ fault. (fault ≡ ChipFault.Bus) × IsLost Bus (chip_in self.old) (chip_in self.new)) }
        ensures bus { FailsAsListed self.old result }
        ensures listed { IfOk result (λ byte. IsReadyAsListed self.old byte) }
        ensures array_ready { IfOk result (λ byte. IsBitSet byte 6 → IsBitSet byte 5) }
        ensures not_protected { IfOk result (λ byte. IsBitSet byte 7) }
        ensures lists { KeepsLists self.old self.new }
        ensures counted { IsCounted self.old result self.new }
        ensures counted_status { IsCountedStatus self.old result self.new }
        ensures array { IfOk result (λ byte. IsBitSet byte 6 → (post : APost) (left : List APost) → IsNextPost (chip_in self.old) now row post left
            → arrays_of self.new ≡ arrays_posted self.old post.place.lun) }
        ensures array_runs { IfOk result (λ byte. ¬ IsBitSet byte 6 → arrays_of self.new ≡ arrays_of self.old) }
        ensures no_array { OnErr result (arrays_of self.new ≡ arrays_of self.old) }
    {
        let bus_fails = self.calls.count();
        if bus_fails {
            Err(ChipFault::Bus)
        } else if self.statuses.count() {
            Ok(0x80)
        } else {
            let place = self.dies.place(row);
            let post = self.dies.post(place, now);
            self.arrays.end(place.lun);
            Ok(encode_status(&post.answer))
        }
    }

    fn poll(&mut self, now: u64, lun: u8) -> bool
        ensures ready { IsTrue result → chip_in self.new ≡ found_ready (chip_in self.old) lun now }
        ensures busy { result ≡ false → chip_in self.new ≡ chip_in self.old }
        ensures says { result ≡ says_ready self.old lun now }
        ensures times { array_times self.new ≡ array_times self.old }
        ensures arrays { arrays_of self.new ≡ arrays_of self.old }
        ensures calls { KeepsCalls self.old self.new }
    {
        let ready = self.dies.is_ready(lun, now) || self.arrays.is_done(lun, now);
        if ready {
            self.dies.find_ready(lun, now);
        }
        ready
    }
}
