ghost use Rattle.std.specs.Prelude.{◌≡◌, ◌↔◌, IsTrue};
ghost use Rattle.onfi_audit.specs.Audit.{Names, started};

use onfi_request::Want;
use onfi_timing::Operation;

/// A phase of a log: one command with its address and data, or one post.
#[derive(Clone, Copy, Debug, PartialEq, Eq)]
pub struct Line {
    /// When it starts, in ns of the channel's clock.
    pub start: u64,
    /// The LUN, from 0.
    pub lun: u8,
    /// Of a read the same, whatever is put out.
    pub operation: Operation,
    /// Whether it is a data output or a status; else a command.
    pub is_post: bool,
    /// The block of the LUN and the page of the block, from 0; an erase names page 0.
    pub block: u16,
    pub page: u16,
}

impl Line {
    // The same phase, which starts at that moment.
    pub(crate) fn at(&self, moment: u64) -> Line
        ensures { result ≡ started moment self.now }
    {
        Line {
            start: moment,
            ..*self
        }
    }

    /// Whether the line names that request: its operation, LUN, block and page.
    pub fn names(&self, want: &Want) -> bool
        ensures { IsTrue result ↔ Names self.now want.now }
    {
        want.kind.operation() == self.operation
            && want.lun == self.lun
            && want.block == self.block
            && want.page == self.page
    }
}
