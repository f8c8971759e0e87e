ghost use Rattle.std.specs.Prelude.{◌≡◌, ◌<◌, ◌≤◌, length};
ghost use Rattle.std.specs.List.{AllByRecursion as Each};
ghost use Rattle.onfi_group.specs.Words.{Pairs};

use crate::sample::want;
use onfi_group::{Group, Rules, candidates, startable};
use onfi_request::Want;
use onfi_timing::Kind;
use std::alloc::{AllocError, Global};
use std::test::Fail;

const READ: Kind = Kind::Read;

const PROGRAM: Kind = Kind::Program;

// The ids of a group's members as the digits of a number.
fn number(group: &Group) -> u64 {
    let mut number = 0u64;
    for member in group.members() {
        number = number.wrapping_mul(10).wrapping_add(member.id);
    }
    number
}

fn are(groups: &[Group], numbers: &[u64]) -> bool {
    if groups.len() != numbers.len() {
        return false;
    }
    for (group, listed) in groups.iter().zip(numbers.iter()) {
        if number(group) != *listed {
            return false;
        }
    }
    true
}

// Whether LUN 0 may start these groups, and no more.
fn starts(alloc: Global, wants: &[Want], numbers: &[u64]) -> Result<bool, AllocError>
    requires few { length wants.now ≤ 8 }
    requires planes { Each (λ w. w.plane ≤ 3) wants.now }
{
    let rules = Rules::new(true, true, false, 1);
    let groups = startable(alloc, wants, 0, &rules)?;
    Ok(are(groups.as_slice(), numbers))
}

// Whether the wants of LUN 0 give these groups, and no more.
fn gives(alloc: Global, wants: &[Want], numbers: &[u64]) -> Result<bool, AllocError>
    requires few { length wants.now ≤ 8 }
    requires planes { Each (λ w. w.plane ≤ 3) wants.now }
    requires ids { Pairs (λ a b. a.id < b.id) wants.now }
{
    let rules = Rules::new(true, true, false, 1);
    let groups = candidates(alloc, wants, 0, &rules)?;
    Ok(are(groups.as_slice(), numbers))
}

#[test]
fn groups_of_a_lun(rt: HostRuntime) -> Result<(), Fail> {
    let alloc = rt.alloc();
    let reads = [want(1, READ, 0, 1), want(2, READ, 0, 0)];
    assert!(rt; starts(alloc, &reads, &[1, 2, 21])?);
    assert!(rt; gives(alloc, &reads, &[1, 2, 21])?);
    let of_another = startable(alloc, &reads, 1, &Rules::new(true, true, false, 1))?;
    assert!(rt; of_another.is_empty());
    let later_of_a_block = [
        want(1, PROGRAM, 0, 0),
        want(2, READ, 0, 0),
        want(3, READ, 0, 1),
    ];
    assert!(rt; starts(alloc, &later_of_a_block, &[1, 3])?);
    assert!(rt; gives(alloc, &later_of_a_block, &[1, 2, 3, 23])?);
    let first = want(1, READ, 0, 0);
    let equal_ids = [first, want(1, READ, 0, 1), first];
    assert!(rt; starts(alloc, &equal_ids, &[1, 1, 11])?);
    Ok(())
}
