//! Which marks of waiting wants let a group start: looked up at each node, so that no want is compared there.

ghost use Rattle.std.specs.Prelude.{◌≡◌, ◌≤◌, IfOk, length, map};
ghost use Rattle.onfi_group.specs.Group.{on_block};
ghost use Rattle.onfi_problem.specs.StartMarks.{is_ahead, start_marks, are_met};

use onfi_group::Group;
use onfi_request::Want;
use std::alloc::{AllocError, Global};

/// What a group asks of the marks of waiting wants before it may start.
#[derive(Clone, Copy)]
pub struct StartMarks {
    // The members, each of which has to wait.
    pub members: [bool; 8],
    // The marks that count: those of members, and of wants ahead of them on their blocks, which must not wait. A member
    // that is ahead of another one has none, so such a group never starts.
    pub asked: [bool; 8],
}

impl StartMarks {
    // Whether the wants with these marks let the group start. All are compared, which takes less than to stop at the
    // first that differs.
    pub fn are_met(&self, waiting: &[bool; 8]) -> bool
        ensures met { result ≡ are_met waiting.now self.now.asked self.now.members }
        ensures long { length waiting.now ≡ 8 }
    {
        let mut met = true;
        for i in 0..8usize {
            met &= (waiting[i] & self.asked[i]) == self.members[i];
        }
        met
    }
}

// The marks of each group, made once.
pub fn list_start_marks(
    alloc: Global,
    groups: &[Group],
    wants: &[Want],
) -> Result<Vec<StartMarks>, AllocError>
    requires { length wants.now ≤ 8 }
    ensures { IfOk result (λ v. v.items ≡ map (start_marks wants.now) groups.now) }
{
    let mut marks = Vec::with_capacity(alloc, groups.len())?;
    for group in groups {
        marks.push(start_marks(group, wants))?;
    }
    Ok(marks)
}

// The marks of a group among these wants.
fn start_marks(group: &Group, wants: &[Want]) -> StartMarks
    requires { length wants.now ≤ 8 }
    ensures { result ≡ start_marks wants.now group.now }
{
    let (mut members, mut asked) = ([false; 8], [false; 8]);
    for (i, want) in wants.iter().enumerate() {
        let member = group.has(want);
        members[i] = member;
        asked[i] = member != is_ahead(group, want);
    }
    StartMarks { members, asked }
}

// Whether a want is ahead of a member on its block.
fn is_ahead(group: &Group, want: &Want) -> bool
    ensures { result ≡ is_ahead group.now want.now }
{
    group
        .members()
        .iter()
        .any(|member| is_on_block(member, want) && want.id < member.id)
}

// Whether a want is on the member's block.
fn is_on_block(member: &Want, want: &Want) -> bool
    ensures { result ≡ on_block member.now want.now }
{
    want.lun == member.lun && want.block == member.block
}
