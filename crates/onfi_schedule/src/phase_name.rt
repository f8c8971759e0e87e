ghost use Rattle.std.specs.Prelude.{◌≡◌};
ghost use Rattle.onfi_schedule.specs.Names.{post_of};

use onfi_timing::Operation;
use std::fmt;

/// What a phase is to its request.
#[derive(Clone, Copy, Debug, Default, PartialEq, Eq)]
pub enum Part {
    /// The command with its address and data.
    #[default]
    Command,
    /// The data output of a read.
    DataOutput,
    /// The status of a program or an erase.
    Status,
}

impl Part {
    /// What the post of that operation is.
    pub(crate) fn post_of(operation: Operation) -> Part
        ensures { result ≡ post_of operation }
    {
        match operation {
            Operation::Read => Part::DataOutput,
            Operation::Program | Operation::Erase => Part::Status,
        }
    }

    fn text(&self) -> &'static str {
        match self {
            Part::Command => "the command",
            Part::DataOutput => "the data output",
            Part::Status => "the status",
        }
    }
}

impl fmt::Display for Part {
    fn fmt<W: fmt::Write>(&self, f: &mut fmt::Formatter<W>) -> fmt::Result {
        f.write_str(self.text())
    }
}

/// Whose a phase is.
#[derive(Clone, Copy, Debug, PartialEq, Eq)]
pub enum Owner {
    /// The request of that number.
    Request(u64),
    /// A member of the group that runs on a LUN as the problem begins: that of the block.
    Running { lun: u8, block: u16 },
}

impl Default for Owner {
    fn default() -> Owner {
        Owner::Request(0)
    }
}

impl fmt::Display for Owner {
    fn fmt<W: fmt::Write>(&self, f: &mut fmt::Formatter<W>) -> fmt::Result {
        match self {
            Owner::Request(request) => write!(f, "request {request}"),
            Owner::Running { lun, block } => write!(
                f,
                "block {block} in LUN {lun}'s running group"
            ),
        }
    }
}

/// A phase by its name: whose command or post it is.
#[derive(Clone, Copy, Debug, Default, PartialEq, Eq)]
pub struct PhaseName {
    pub part: Part,
    pub owner: Owner,
}

impl fmt::Display for PhaseName {
    fn fmt<W: fmt::Write>(&self, f: &mut fmt::Formatter<W>) -> fmt::Result {
        let part = self.part;
        let owner = self.owner;
        write!(f, "{part} of {owner}")
    }
}
