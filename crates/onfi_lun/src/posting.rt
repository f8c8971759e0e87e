//! The posts of a group.

ghost use Rattle.std.specs.Prelude.{◌≡◌, ◌≢◌, ◌+◌, ◌^◌, ◌<◌, ◌≤◌, true, List, IfOk, IfErr};
ghost use Rattle.onfi_addr.specs.Rows.{row_of};
ghost use Rattle.onfi_timing.specs.Kinds.{operation_of, spans_of};
ghost use Rattle.onfi_chip.specs.declared.post.Post.{Post as APost};
ghost use Rattle.onfi_chip.specs.Chip.{posted};
ghost use Rattle.onfi_chip.specs.Calls.{HasDone, IsMissed, IsNextPost};
ghost use Rattle.onfi_chip.specs.Fetching.{HasRoom, IsNextFetch};
ghost use Rattle.onfi_lun.specs.Phases.{IsOf, IsPosted, IsDue, OthersStay, IsBehind};

use crate::fault::Refused;
use crate::lun::{Lun, Posted};
use crate::states::{Idle, Phase, Posting};
use crate::target::Target;
use onfi_chip::{Chip, Fetch, PostFault, read_post};
use onfi_request::Answer;
use onfi_timing::Operation;

impl Lun<Posting> {
    /// The next post of the group, at `now`, in ns: the data output of a read, the status of a program or an erase.
    ///
    /// # Errors
    /// `Bus`, or `NotReady` where the status of a program or an erase said so, with the LUN as it was; each only where the
    /// chip's count of that fault rose, or where sectors are asked of a chip that has none.
    pub fn post<C: Chip>(
        self,
        chip: &mut C,
        target: &Target,
        now: u64,
        fetch: Fetch,
    ) -> Result<(Posted, Answer), Refused<PostFault, Posting>>
        requires device { IsOf target.now (C.state chip.old) }
        requires due { (post : APost) × (left : List APost) × IsDue target.now.geometry (C.state chip.old) self now fetch post left }
        requires room { HasRoom target.now.geometry fetch }
        requires time { now < 2 ^ 63 }
        ensures done { IfOk result (λ _. (post : APost) (left : List APost) → IsDue target.now.geometry (C.state chip.old) self now fetch post left
            → HasDone (posted (C.state chip.old) post left now) (C.state chip.new)) }
        ensures answer { IfOk result (λ told. (post : APost) (left : List APost) → IsDue target.now.geometry (C.state chip.old) self now fetch post left
            → told.1 ≡ post.answer) }
        ensures posted { IfOk result (λ told. (post : APost) (left : List APost) → IsDue target.now.geometry (C.state chip.old) self now fetch post left
            → IsPosted left (C.state chip.new) self.number told.0) }
        ensures made { IfOk result (λ told. IsBehind self.number self.state.left (now + (spans_of target.now.timing fetch.kind).post) told.0) }
        ensures others { IfOk result (λ _. OthersStay self.number (C.state chip.old) (C.state chip.new)) }
        ensures fault { IfErr result (λ refused. IsMissed fetch.kind refused.fault (C.state chip.old) (C.state chip.new)) }
        ensures told { IfErr result (λ refused. refused.fault ≡ PostFault.NotReady → operation_of fetch.kind ≢ Operation.Read) }
        ensures lun { IfErr result (λ refused. refused.lun ≡ self) }
    {
        let ready = now + target.timing.spans(fetch.kind()).post;
        match self.read(chip, target, now, fetch) {
            Ok(answer) => Ok((after_post(self.number(), self.state().left, ready), answer)),
            Err(fault) => Err(Refused { fault, lun: self }),
        }
    }
}

// The LUN after a post, of which that many were left before it.
fn after_post(number: u8, left: u8, ready: u64) -> Posted
    requires some { 1 ≤ left }
    requires few { left ≤ 4 }
    ensures { IsBehind number left ready result }
{
    if left > 1 {
        Posted::More(Lun::at(
            number,
            Posting {
                left: left - 1,
                ready,
            },
        ))
    } else {
        Posted::Last(Lun::at(number, Idle))
    }
}

impl<S: Phase> Lun<S> {
    // Reads the post of the member that comes next.
    fn read<C: Chip>(
        &self,
        chip: &mut C,
        target: &Target,
        now: u64,
        fetch: Fetch,
    ) -> Result<Answer, PostFault>
        requires phase { S.posts ≡ true }
        requires device { IsOf target.now (C.state chip.old) }
        requires next { (post : APost) × (left : List APost) × IsNextFetch target.now.geometry (C.state chip.old) now fetch post left }
        requires room { HasRoom target.now.geometry fetch }
        ensures answer { IfOk result (λ answer. (post : APost) (left : List APost)
            → IsNextPost (C.state chip.old) now (row_of target.now.geometry fetch.place) post left → answer ≡ post.answer) }
        ensures done { IfOk result (λ _. (post : APost) (left : List APost)
            → IsNextPost (C.state chip.old) now (row_of target.now.geometry fetch.place) post left
            → HasDone (posted (C.state chip.old) post left now) (C.state chip.new)) }
        ensures lost { IfErr result (λ fault. IsMissed fetch.kind fault (C.state chip.old) (C.state chip.new)) }
        ensures not_ready { IfErr result (λ fault. fault ≡ PostFault.NotReady → operation_of fetch.kind ≢ Operation.Read) }
    {
        read_post(chip, &target.geometry, now, fetch)
    }
}
