//! A group that may begin on a LUN, kept as numbers.
ghost use Rattle.std.specs.Prelude.{◌≡◌, ◌*◌, ◌<◌, ◌≤◌, ◌^◌, [], IfSome, IsSome, List, length};

use crate::group_phase::GroupPhase;
use crate::kind_spans::KindSpans;
use crate::own::{greatest_number, kind_of, oldest};
use crate::slot::{Slot, slots_of};
use crate::turn::start_rank;
use onfi_request::Want;
use onfi_timing::{Kind, Operation};

/// What begins, and what of its first command stays while it waits; without members nothing begins.
#[repr(C)]
#[derive(Clone, Copy)]
pub struct Begin {
    pub member: [Slot; 4],
    /// How long its first command takes, in ns.
    pub cmd: u64,
    /// The least number of its requests.
    pub oldest: u64,
    /// The greatest number of its requests.
    pub last: u64,
    pub members: u8,
    /// Where it stands by what it does.
    pub rank: u8,
    ghost four: { length member ≡ 4 },
    ghost few: { members ≤ 4 },
    ghost short: { cmd < 2 ^ 50 },
}

impl Begin {
    ghost use Rattle.onfi_timing.specs.declared.timing.Timing.{Timing as AnyTiming};
    ghost use Rattle.onfi_request.specs.declared.want.Want.{Want as AnyWant};
    ghost use Rattle.onfi_steady.specs.Slots.{AreSpansOf, IsBegin, begins};
    ghost use Rattle.onfi_steady.specs.LunBooks.{IsGroupPhase};

    /// Nothing.
    pub fn none(spans: &KindSpans) -> Begin
        ensures { (timing : AnyTiming) → AreSpansOf timing spans.now → IsBegin timing [] result }
    {
        Begin {
            member: [Slot::default(); 4],
            cmd: spans.of_kind(Kind::Read).cmd,
            oldest: 0,
            last: 0,
            members: 0,
            rank: start_rank(Operation::Read),
        }
    }

    /// Of these members, by rising plane.
    pub fn of(spans: &KindSpans, members: &[Want]) -> Begin
        requires { length members.now ≤ 4 }
        ensures begin { (timing : AnyTiming) → AreSpansOf timing spans.now → IsBegin timing members.now result }
        ensures count { result.members ≡ length members.now }
    {
        let kind = kind_of(members);
        Begin {
            member: slots_of(members),
            cmd: spans.of_kind(kind).cmd,
            oldest: oldest(members),
            last: greatest_number(members),
            members: members.len() as u8,
            rank: start_rank(kind.operation()),
        }
    }

    /// Its first phase: the command of its first member, where there is one.
    pub fn phase(&self) -> Option<GroupPhase>
        ensures phase { (timing : AnyTiming) (group : List AnyWant) → IsBegin timing group self.now → IfSome result (IsGroupPhase timing group 0) }
        ensures some { 1 ≤ self.now.members → IsSome result }
        ensures within { IfSome result (λ p. (p.members ≤ 4) × (p.number < 2 * p.members) × (p.length < 2 ^ 50)) }
    {
        match self.members().first() {
            Some(member) => Some(GroupPhase {
                want: member.want(),
                length: self.cmd,
                number: 0,
                members: self.members,
            }),
            None => None,
        }
    }

    /// Its members.
    pub fn members(&self) -> &[Slot]
        ensures value { result.now ≡ begins self.now }
        ensures few { length result.now ≤ 4 }
    {
        &self.member[..usize::from(self.members)]
    }
}
