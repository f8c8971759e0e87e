//! What a group is ordered by, and what its members share.

ghost use Rattle.std.specs.Prelude.{◌≡◌};
ghost use Rattle.onfi_timing.specs.declared.kind.Kind.{Kind as AnyKind};
ghost use Rattle.onfi_group.specs.Group.{kind_of};
ghost use Rattle.onfi_steady.specs.Waiting.{greatest_number};
ghost use Rattle.onfi_timing.specs.declared.operation.Operation.{Operation as AnyOperation};
ghost use Rattle.onfi_steady.specs.Ranks.{first_number, oldest, operation_rank};

use onfi_request::Want;
use onfi_timing::{Kind, Operation};

/// A LUN reads before it programs, and programs before it erases.
pub fn operation_rank(operation: Operation) -> u8
    ensures { result ≡ operation_rank operation }
{
    match operation {
        Operation::Read => 0,
        Operation::Program => 1,
        Operation::Erase => 2,
    }
}

/// The number of the oldest of a group's requests; 0 where there is none.
pub fn oldest(members: &[Want]) -> u64
    ensures { result ≡ oldest members.now }
{
    let mut least = first_number(members);
    for member in members {
        least = least.min(member.id);
    }
    least
}

fn first_number(members: &[Want]) -> u64
    ensures { result ≡ first_number members.now }
{
    match members.first() {
        Some(member) => member.id,
        None => 0,
    }
}

/// The greatest of the numbers of these members; 0 where there is none.
pub fn greatest_number(members: &[Want]) -> u64
    ensures { result ≡ greatest_number 0 members.now }
{
    let mut greatest = 0u64;
    for member in members {
        greatest = greatest.max(member.id);
    }
    greatest
}

/// What a group's members share is that of its first.
pub fn kind_of(members: &[Want]) -> Kind
    ensures { result ≡ kind_of members.now }
{
    match members.first() {
        Some(member) => member.kind,
        None => Kind::Read,
    }
}
