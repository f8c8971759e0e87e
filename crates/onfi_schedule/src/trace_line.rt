//! The lines of a trace.

ghost use Rattle.std.specs.Prelude.{◌≡◌, ◌++◌, IfOk, OnOk, string_bytes};
ghost use Rattle.onfi_schedule.specs.Trace.{operation_word, part_word, opener_word, closer_word, times_text, work_text, place_text, bytes_text, request_word, request_text, line_text};

use onfi_request::Want;
use onfi_timing::Operation;
use std::alloc::{AllocError, Global};

/// The part of an operation that a phase is.
#[derive(Clone, Copy, Debug, PartialEq, Eq)]
pub enum LinePart {
    /// The command with its address and data.
    Command,
    /// The data output, or the status.
    Post,
}

/// A phase as a trace shows it.
#[derive(Clone, Copy, Debug, PartialEq, Eq)]
pub struct TraceLine {
    /// When it starts and ends, in ns of the channel's clock.
    pub start: u64,
    pub end: u64,
    /// The LUN, from 0.
    pub lun: u8,
    /// Whether its group is a new one; else it ran on the LUN before.
    pub is_new: bool,
    pub part: LinePart,
    /// The request that it is of.
    pub want: Want,
    /// Whether it is the command of the last plane of its group.
    pub last: bool,
}

impl TraceLine {
    /// Appends the line to a text; where memory is refused, the text is longer by a part of it.
    pub(crate) fn push_to(
        &self,
        alloc: Global,
        requests: bool,
        text: &mut Vec<u8>,
    ) -> Result<(), AllocError>
        ensures { OnOk result (text.new.items ≡ text.old.items ++ line_text requests self.now) }
    {
        text.extend_from_slice(self.times(alloc)?.as_bytes())?;
        text.extend_from_slice(self.work(alloc)?.as_bytes())?;
        text.extend_from_slice(self.place(alloc)?.as_bytes())?;
        text.extend_from_slice(self.bytes(alloc)?.as_bytes())?;
        self.push_request(alloc, requests, text)?;
        text.push(b'\n')?;
        Ok(())
    }

    fn times(&self, alloc: Global) -> Result<String, AllocError>
        ensures { IfOk result (λ s. string_bytes s ≡ times_text self.now) }
    {
        let start = self.start;
        let end = self.end;
        let lun = self.lun;
        format!(in alloc; "{start} {end} {lun} ")
    }

    fn work(&self, alloc: Global) -> Result<String, AllocError>
        ensures { IfOk result (λ s. string_bytes s ≡ work_text self.now) }
    {
        let operation = operation_word(self.want.kind.operation());
        let part = part_word(self.part);
        format!(in alloc; "{operation} {part} ")
    }

    fn place(&self, alloc: Global) -> Result<String, AllocError>
        ensures { IfOk result (λ s. string_bytes s ≡ place_text self.now) }
    {
        let block = self.want.block;
        let page = self.want.page;
        format!(in alloc; "{block} {page} ")
    }

    fn bytes(&self, alloc: Global) -> Result<String, AllocError>
        ensures { IfOk result (λ s. string_bytes s ≡ bytes_text self.now) }
    {
        let opener = opener_word(self.want.kind.operation(), self.part);
        let closer = closer_word(self.want.kind.operation(), self.part, self.last);
        format!(in alloc; "{opener} {closer}")
    }

    fn push_request(
        &self,
        alloc: Global,
        requests: bool,
        text: &mut Vec<u8>,
    ) -> Result<(), AllocError>
        ensures { OnOk result (text.new.items ≡ text.old.items ++ request_text requests self.now) }
    {
        if requests {
            text.push(b' ')?;
            text.extend_from_slice(self.request(alloc)?.as_bytes())?;
        }
        Ok(())
    }

    fn request(&self, alloc: Global) -> Result<String, AllocError>
        ensures { IfOk result (λ s. string_bytes s ≡ request_word self.now) }
    {
        if self.is_new {
            let request = self.want.id;
            format!(in alloc; "{request}")
        } else {
            format!(in alloc; "-")
        }
    }
}

fn operation_word(operation: Operation) -> &'static str
    ensures { result.now ≡ operation_word operation }
{
    match operation {
        Operation::Read => "read",
        Operation::Program => "program",
        Operation::Erase => "erase",
    }
}

fn part_word(part: LinePart) -> &'static str
    ensures { result.now ≡ part_word part }
{
    match part {
        LinePart::Command => "cmd",
        LinePart::Post => "post",
    }
}

fn opener_word(operation: Operation, part: LinePart) -> &'static str
    ensures { result.now ≡ opener_word operation part }
{
    match (part, operation) {
        (LinePart::Command, Operation::Read) => "00",
        (LinePart::Command, Operation::Program) => "80",
        (LinePart::Command, Operation::Erase) => "60",
        (LinePart::Post, Operation::Read) => "06",
        (LinePart::Post, _) => "78",
    }
}

fn closer_word(operation: Operation, part: LinePart, last: bool) -> &'static str
    ensures { result.now ≡ closer_word operation part last }
{
    match (part, operation) {
        (LinePart::Command, Operation::Read) => if last { "30" } else { "32" },
        (LinePart::Command, Operation::Program) => if last { "10" } else { "11" },
        (LinePart::Command, Operation::Erase) => if last { "D0" } else { "D1" },
        (LinePart::Post, Operation::Read) => "E0",
        (LinePart::Post, _) => "-",
    }
}
