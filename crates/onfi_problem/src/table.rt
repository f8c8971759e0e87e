//! The groups of a problem, made once.

ghost use Rattle.std.specs.Prelude.{◌≡◌, ℕ, ◌<◌, ◌≤◌, ◌++◌, List, length, map, slice_index, IfOk};
ghost use Rattle.std.specs.List.{AllByRecursion as Each};
ghost use Rattle.onfi_request.specs.declared.want.Want.{Want};
ghost use Rattle.onfi_group.specs.Words.{Pairs};
ghost use Rattle.onfi_problem.specs.Position.{state_of};
ghost use Rattle.onfi_problem.specs.Kept.{IsOwn};
ghost use Rattle.onfi_problem.specs.Checks.{AreLuns, IsLun};

use crate::lun_state::LunState;
use crate::moves::Lun;
use arrayvec::ArrayVec;
use onfi_group::{Group, Rules, candidates};
use onfi_request::Want;
use std::alloc::{AllocError, Global};

// What each LUN does, in numbers; its groups are put into the table.
pub fn open_luns(
    groups: &mut Vec<Group>,
    states: &[LunState],
    rules: &Rules,
) -> Result<ArrayVec<Lun, 8>, AllocError>
    requires empty { length groups.old.items ≡ 0 }
    requires few { length states.now ≤ 8 }
    requires luns { AreLuns rules.now 0 states.now }
    ensures states { IfOk result
        (λ luns. (more : List (List Want)) → map (state_of (groups.new.items ++ more)) luns.items ≡ states.now) }
    ensures few { IfOk result (λ luns. length groups.new.items ≤ 8) }
{
    let mut luns = ArrayVec::new();
    for (at, state) in states.iter().enumerate() {
        let lun = open_lun(groups, state, rules, at)?;
        luns.push(lun);
    }
    Ok(luns)
}

// What a LUN does, in numbers, its group after the others of the table.
fn open_lun(
    groups: &mut Vec<Group>,
    state: &LunState,
    rules: &Rules,
    at: usize,
) -> Result<Lun, AllocError>
    requires few { length groups.old.items < 8 }
    requires lun { IsLun rules.now at state.now }
    ensures state { IfOk result (λ lun. (more : List (List Want)) → state_of (groups.new.items ++ more) lun ≡ state.now) }
    ensures grown { IfOk result
        (λ lun. (more : List (List Want)) × (groups.new.items ≡ groups.old.items ++ more) × (length more ≤ 1)) }
{
    match state {
        LunState::Free { since } => Ok(Lun {
            next: 0,
            place: 0,
            time: *since,
        }),
        LunState::Running { group, next, ready } => {
            let place = groups.len() as u8;
            groups.push(group.copy())?;
            Ok(Lun {
                next: *next,
                place,
                time: *ready,
            })
        }
    }
}

// Puts the groups that the wants of each LUN can form after the others, and says where they begin and end.
pub fn list_groups(
    alloc: Global,
    groups: &mut Vec<Group>,
    wants: &[Want],
    luns: usize,
    rules: &Rules,
) -> Result<[usize; 9], AllocError>
    requires opened { length groups.old.items ≤ 8 }
    requires luns { luns ≤ 8 }
    requires few { length wants.now ≤ 8 }
    requires planes { Each (λ w. w.plane ≤ 3) wants.now }
    requires ids { Pairs (λ a b. a.id < b.id) wants.now }
    ensures opened { IfOk result (λ first. slice_index first 0 ≤ 8) }
    ensures own { IfOk result (λ first. (lun : ℕ) → lun < luns → IsOwn rules.now wants.now groups.new.items first lun) }
    ensures grown { IfOk result (λ first. (more : List (List Want)) × (groups.new.items ≡ groups.old.items ++ more)) }
{
    let mut first = [groups.len(); 9];
    for lun in 0..luns {
        let mut own = candidates(alloc, wants, lun as u8, rules)?;
        groups.append(&mut own)?;
        first[lun + 1] = groups.len();
    }
    Ok(first)
}
