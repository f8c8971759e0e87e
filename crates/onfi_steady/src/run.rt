//! What a LUN runs, kept as numbers.
ghost use Rattle.std.specs.Prelude.{◌≡◌, ◌+◌, ◌-◌, ◌*◌, ◌<◌, ◌≤◌, ◌^◌, if◌then◌else◌, IfSome, IsSome, length, nat_lt, take};
ghost use Rattle.onfi_steady.specs.Ranks.{post_rank};

use crate::group_phase::GroupPhase;
use crate::group_spans::{phase_length, wait_before};
use crate::kind_spans::KindSpans;
use crate::own::{oldest, operation_rank};
use crate::slot::{Slot, slots_of};
use crate::turn::post_rank;
use onfi_problem::LunState;
use onfi_request::Want;
use onfi_timing::Operation;

/// Nothing, where `members` is 0, and a group may begin from `since`; or a group of which phases 0 to `next - 1` are over, and
/// the next may start from `since`, in ns.
#[repr(C)]
#[derive(Clone, Copy)]
pub struct Run {
    pub since: u64,
    /// How long the next phase takes, in ns.
    pub span: u64,
    /// The wait between two commands of the group, in ns.
    pub gap: u64,
    /// The least number of its requests.
    pub oldest: u64,
    pub member: [Slot; 4],
    pub members: u8,
    pub next: u8,
    /// Where the next phase stands by what it does.
    pub rank: u8,
    pub erases: bool,
    ghost four: { length member ≡ 4 },
    ghost few: { members ≤ 4 },
    ghost within: { next ≤ 7 },
    ghost short: { span < 2 ^ 50 },
}

impl Run {
    ghost use Rattle.onfi_timing.specs.declared.timing.Timing.{Timing as AnyTiming};
    ghost use Rattle.onfi_timing.specs.Phases.{wait_before};
    ghost use Rattle.onfi_group.specs.Group.{group_spans};
    ghost use Rattle.onfi_problem.specs.Moves.{lun_after};
    ghost use Rattle.onfi_problem.specs.declared.lun_state.LunState.TheVariants.{Free, Running};
    ghost use Rattle.onfi_flight.specs.Flight.{ready_by};
    ghost use Rattle.onfi_steady.specs.Ranks.{oldest as oldest_of};
    ghost use Rattle.onfi_steady.specs.Slots.{AreSpansOf, wants_in};
    ghost use Rattle.onfi_steady.specs.LunBooks.{HasPhaseLeft, IsGoing, IsGroupPhase, runs, state_in};

    /// Nothing, from then on.
    pub fn free(since: u64) -> Run
        ensures state { state_in result ≡ Free since }
        ensures members { result.members ≡ 0 }
    {
        Run {
            since,
            span: 0,
            gap: 0,
            oldest: 0,
            member: [Slot::default(); 4],
            members: 0,
            next: 0,
            rank: 0,
            erases: false,
        }
    }

    /// The same, where its next phase may start at that moment, in ns, if not before.
    pub fn ready_at(&self, moment: u64) -> Run
        requires some { 1 ≤ self.now.members }
        ensures state { state_in result ≡ ready_by moment (state_in self.now) }
        ensures members { result.members ≡ self.now.members }
        ensures going { (timing : AnyTiming) → IsGoing timing self.now → IsGoing timing result }
    {
        Run {
            since: self.since.min(moment),
            span: self.span,
            gap: self.gap,
            oldest: self.oldest,
            member: self.member,
            members: self.members,
            next: self.next,
            rank: self.rank,
            erases: self.erases,
        }
    }

    /// What runs once its next phase has ended: the group, whose phase after that may start, or nothing.
    pub fn after(&self, spans: &KindSpans, ended: u64) -> Run
        requires some { 1 ≤ self.now.members }
        requires ended { ended < 2 ^ 63 }
        ensures state { (timing : AnyTiming) → AreSpansOf timing spans.now → IsGoing timing self.now →
            state_in result ≡ lun_after timing (wants_in (runs self.now)) self.now.next ended }
        ensures going { (timing : AnyTiming) → AreSpansOf timing spans.now → IsGoing timing self.now → 1 ≤ result.members → IsGoing timing result }
    {
        if self.next + 1 < 2 * self.members {
            let next = self.next + 1;
            Run::at(spans, &self.member, self.members, self.oldest, next, ended)
        } else {
            Run::free(ended)
        }
    }

    /// What a LUN does as a channel begins.
    pub fn with_state(spans: &KindSpans, state: &LunState) -> Run
        requires { HasPhaseLeft state.now }
        ensures state { state_in result ≡ state.now }
        ensures going { (timing : AnyTiming) → AreSpansOf timing spans.now → 1 ≤ result.members → IsGoing timing result }
    {
        match state {
            LunState::Free { since } => Run::free(*since),
            LunState::Running { group, next, ready } => {
                Run::with_group(spans, group.members(), *next, *ready)
            }
        }
    }

    // The group of these members, of which phases 0 to `next - 1` are over and the next may start from `since`, in ns.
    fn with_group(spans: &KindSpans, members: &[Want], next: u8, since: u64) -> Run
        requires some { 1 ≤ length members.now }
        requires few { length members.now ≤ 4 }
        requires within { next + 1 ≤ 2 * length members.now }
        ensures state { state_in result ≡ Running members.now next since }
        ensures going { (timing : AnyTiming) → AreSpansOf timing spans.now → IsGoing timing result }
    {
        let member = slots_of(members);
        let least = oldest(members);
        Run::standing(spans, &member, members.len() as u8, least, next, since)
    }

    /// The group of these members, whose least number is said, once the phase before number `next` has ended.
    pub fn at(
        spans: &KindSpans,
        member: &[Slot; 4],
        members: u8,
        least: u64,
        next: u8,
        ended: u64,
    ) -> Run
        requires four { length member.now ≡ 4 }
        requires some { 1 ≤ members }
        requires few { members ≤ 4 }
        requires within { next + 1 ≤ 2 * members }
        requires ended { ended < 2 ^ 63 }
        ensures members { result.members ≡ members }
        ensures runs { runs result ≡ take members member.now }
        ensures next { result.next ≡ next }
        ensures since { (timing : AnyTiming) → AreSpansOf timing spans.now →
            result.since ≡ ended + wait_before (group_spans timing (wants_in (take members member.now))) (length (wants_in (take members member.now))) next }
        ensures going { (timing : AnyTiming) → AreSpansOf timing spans.now → least ≡ oldest_of (wants_in (take members member.now)) → IsGoing timing result }
    {
        let since = ended + wait_before(spans, &member[..usize::from(members)], next);
        Run::standing(spans, member, members, least, next, since)
    }

    // The same, whose next phase may start from `since` on, in ns.
    fn standing(
        spans: &KindSpans,
        member: &[Slot; 4],
        members: u8,
        least: u64,
        next: u8,
        since: u64,
    ) -> Run
        requires four { length member.now ≡ 4 }
        requires some { 1 ≤ members }
        requires few { members ≤ 4 }
        requires within { next + 1 ≤ 2 * members }
        ensures members { result.members ≡ members }
        ensures runs { runs result ≡ take members member.now }
        ensures next { result.next ≡ next }
        ensures since { result.since ≡ since }
        ensures going { (timing : AnyTiming) → AreSpansOf timing spans.now → least ≡ oldest_of (wants_in (take members member.now)) → IsGoing timing result }
    {
        let running = &member[..usize::from(members)];
        let kind = running[0].kind();
        Run {
            since,
            span: phase_length(spans, running, next),
            gap: spans.of_kind(kind).gap,
            oldest: least,
            member: *member,
            members,
            next,
            rank: rank_of(kind.operation(), next < members),
            erases: operation_rank(kind.operation()) == operation_rank(Operation::Erase),
        }
    }

    /// The member whose phase is next, where a group runs.
    pub fn phase(&self) -> Option<GroupPhase>
        ensures phase { (timing : AnyTiming) → 1 ≤ self.now.members → IsGoing timing self.now → IfSome result (IsGroupPhase timing (wants_in (runs self.now)) self.now.next) }
        ensures some { 1 ≤ self.now.members → self.now.next + 1 ≤ 2 * self.now.members → IsSome result }
        ensures within { IfSome result (λ p. (p.members ≤ 4) × (p.number < 2 * p.members) × (p.length < 2 ^ 50)) }
    {
        let at = member_at(self.next, self.members);
        let running = &self.member[..usize::from(self.members)];
        match running.get(usize::from(at)) {
            Some(member) => Some(GroupPhase {
                want: member.want(),
                length: self.span,
                number: self.next,
                members: self.members,
            }),
            None => None,
        }
    }
}

// The place of the member whose phase that is, in a group of so many.
fn member_at(phase: u8, members: u8) -> u8
    ensures { result ≡ (if nat_lt phase members then phase else phase - members) }
{
    if phase < members {
        phase
    } else {
        phase - members
    }
}

// Where the next phase stands of a group that runs: what goes on with its commands before all.
fn rank_of(operation: Operation, in_commands: bool) -> u8
    ensures { result ≡ (if in_commands then 0 else post_rank operation) }
{
    if in_commands { 0 } else { post_rank(operation) }
}
