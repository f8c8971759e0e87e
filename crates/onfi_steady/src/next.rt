//! The phase that is next.
ghost use Rattle.std.specs.Prelude.{◌≡◌, ◌≤◌, length};

use arrayvec::ArrayVec;
use onfi_request::Want;

/// A phase that is next.
#[derive(Drop)]
pub struct NextPhase {
    /// The LUN that it is of, from 0.
    pub lun: u8,
    /// When it starts, in ns.
    pub start: u64,
    /// The members of the group that begins, by rising plane; none where the LUN goes on with what it runs.
    pub members: ArrayVec<Want, 4>,
}

impl NextPhase {
    /// The members of the group that begins; none where the LUN goes on.
    pub fn members(&self) -> &[Want]
        ensures value { result.now ≡ self.now.members.items }
        ensures few { length result.now ≤ 4 }
    {
        self.members.as_slice()
    }
}
