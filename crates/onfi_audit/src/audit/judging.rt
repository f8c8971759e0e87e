//! Whether a phase may come next, and what it leaves.

ghost use Rattle.std.specs.Prelude.{◌≡◌, ◌≢◌, ◌↔◌, ℕ, ◌+◌, ◌*◌, ◌^◌, ◌<◌, ◌≤◌, [], ◌∷◌, ◌++◌, true, false, length, None, Some, IfOk, IfErr, IfSome, IfNone, IsOk, IsTrue};
ghost use Rattle.onfi_group.specs.Group.{IsGroup};
ghost use Rattle.onfi_problem.specs.Moves.{lun_after};
ghost use Rattle.onfi_audit.specs.Audit.{GoesOn, HasNext, IsComing, IsGoing, IsJoined, IsPhaseOf, IsRequest, IsWithin, JoinStands, Joins, MayCome, MayComeLater, Names, Tells, after_line, first_at, gone_on, joined_with, left_by, stage_of, too_soon};
ghost use Rattle.onfi_request.specs.declared.want.Want.{Want as AWant};

use crate::audit::Audit;
use crate::breach::LogBreach;
use crate::line::Line;
use crate::requests::{first_at, first_named};
use crate::stage::LunStage;
use arrayvec::ArrayVec;
use onfi_group::{Group, Rules, phase_length, wait_before};
use onfi_request::Want;
use onfi_timing::Timing;
use std::alloc::Global;

/// All phases that are judged start before this, in ns.
const END: u64 = 1 << 62;

// What a line that may come is.
#[derive(Drop)]
pub(crate) enum Coming {
    // The command of a request, with which the group has these members.
    Joins(Group, Want),
    // That phase of a group.
    GoesOn(Group, u8),
}

impl Audit {
    /// Judges the next phase of the log: it happens if it is legal after those before it. The request that a command is of is the first
    /// that waits with this operation, LUN, block and page; commands that follow each other on a LUN are those of one group.
    ///
    /// # Errors
    /// The first condition that it breaks; then nothing changes.
    pub fn judge(&mut self, line: &Line) -> Result<(), LogBreach>
        ensures exactly { IsOk result ↔ (MayCome self.old line.now × (line.now.start < 2 ^ 62)) }
        ensures after { IfOk result (λ _. self.new ≡ after_line self.old line.now) }
        ensures broken { IfErr result (Tells self.old line.now) }
        ensures unchanged { IfErr result (λ _. self.new ≡ self.old) }
    {
        match self.classify(line) {
            Ok(coming) => {
                self.run(line, coming);
                Ok(())
            }
            Err(breach) => Err(breach),
        }
    }

    /// Runs the phase as the log has it, though it may start too soon, so that the next one can be judged: the bus stays taken for as
    /// long as this phase and those before it take it. Where it breaks another condition nothing changes. Whether it ran is answered.
    pub fn run_anyway(&mut self, line: &Line) -> bool
        ensures ran { IsTrue result ↔ (MayComeLater self.old line.now × (line.now.start < 2 ^ 62)) }
        ensures after { result ≡ true → self.new ≡ after_line self.old line.now }
        ensures unchanged { result ≡ false → self.new ≡ self.old }
    {
        if END <= line.start {
            return false;
        }
        let last = line.at(END - 1);
        match self.classify(&last) {
            Ok(phase) => {
                self.run(line, phase);
                true
            }
            Err(_) => false,
        }
    }

    // What the line is, if it may come.
    fn classify(&self, line: &Line) -> Result<Coming, LogBreach>
        ensures ok { IfOk result (IsComing self.now line.now) }
        ensures broken { IfErr result (Tells self.now line.now) }
        ensures illegal { IfErr result (λ _. MayCome self.now line.now → 2 ^ 62 ≤ line.now.start) }
    {
        if line.start >= END {
            return Err(LogBreach::TooLate);
        }
        let Some(stage) = self.luns.as_slice().get(usize::from(line.lun)) else {
            return Err(LogBreach::NoLun { lun: line.lun });
        };
        match stage {
            LunStage::Free { since } => {
                if line.is_post {
                    return Err(LogBreach::NothingRuns { lun: line.lun });
                }
                self.classify_joining(line, &[], *since)
            }
            LunStage::Running { group, next, ready } => self.going_on(line, group, *next, *ready),
            LunStage::Open { group, more, ready } => {
                if line.is_post {
                    return self.going_on(line, group, group.len() as u8, *ready);
                }
                self.classify_joining(line, group.members(), *more)
            }
        }
    }

    // The phase that a group has next, if the line is that and may come.
    fn going_on(
        &self,
        line: &Line,
        group: &Group,
        phase: u8,
        ready: u64,
    ) -> Result<Coming, LogBreach>
        requires next { HasNext self.now line.now.lun group.now phase ready }
        ensures ok { IfOk result (IsGoing self.now line.now group.now phase ready) }
        ensures broken { IfErr result (Tells self.now line.now) }
        ensures illegal { IfErr result (λ _. GoesOn self.now line.now group.now phase ready → ⊥) }
    {
        let members = group.len();
        let number = usize::from(phase);
        let is_post = members <= number;
        let at = if is_post { number - members } else { number };
        let Some(member) = group.members().get(at) else {
            return Err(LogBreach::NothingRuns { lun: line.lun });
        };
        if is_post != line.is_post || !line.names(member) {
            return Err(LogBreach::OtherPhase {
                lun: line.lun,
                is_post,
                block: member.block,
                page: member.page,
            });
        }
        if line.start < self.bus_free {
            return Err(self.bus_taken(line));
        }
        if line.start < ready {
            return Err(LogBreach::NotReady {
                lun: line.lun,
                start: line.start,
                ready,
            });
        }
        Ok(Coming::GoesOn(group.copy(), phase))
    }

    // A command that joins those members, if the line is one and may come.
    fn classify_joining(
        &self,
        line: &Line,
        members: &[Want],
        from: u64,
    ) -> Result<Coming, LogBreach>
        requires command { line.now.is_post ≡ false }
        requires stands { JoinStands self.now line.now members.now from }
        requires few { length members.now ≤ 4 }
        ensures ok { IfOk result (IsJoined self.now line.now members.now from) }
        ensures broken { IfErr result (Tells self.now line.now) }
        ensures illegal { IfErr result (λ _. Joins self.now line.now members.now from → ⊥) }
    {
        let want = match self.request(line) {
            Ok(want) => want,
            Err(breach) => return Err(breach),
        };
        let alloc = self.wants.alloc();
        let Some(group) = extend_group(alloc, &self.rules, members, &want) else {
            return Err(LogBreach::NotGrouped {
                first: members[0].id,
                request: want.id,
            });
        };
        if self.bus_free > line.start {
            return Err(self.bus_taken(line));
        }
        if line.start < from {
            return Err(too_soon(line, members, from));
        }
        Ok(Coming::Joins(group, want))
    }

    // The request that a command is of, if it waits first on its block.
    fn request(&self, line: &Line) -> Result<Want, LogBreach>
        requires command { line.now.is_post ≡ false }
        ensures ok { IfOk result (IsRequest self.now line.now) }
        ensures broken { IfErr result (Tells self.now line.now) }
        ensures illegal { IfErr result (λ _. (w : AWant) → IsRequest self.now line.now w → ⊥) }
    {
        let wants = self.wants.as_slice();
        let unknown = LogBreach::UnknownRequest {
            lun: line.lun,
            block: line.block,
        };
        let Some(first) = first_at(wants, line.lun, line.block) else {
            return Err(unknown);
        };
        if line.names(&first) {
            return Ok(first);
        }
        match first_named(wants, line) {
            Some(later) => Err(LogBreach::BlockOrder {
                earlier: first.id,
                later: later.id,
            }),
            None => Err(unknown),
        }
    }

    // A line that starts while the bus is taken.
    fn bus_taken(&self, line: &Line) -> LogBreach
        requires { line.now.start < self.now.bus_free }
        ensures { Tells self.now line.now result }
    {
        LogBreach::BusNotFree {
            start: line.start,
            bus_free: self.bus_free,
        }
    }

    // The line's phase runs.
    fn run(&mut self, line: &Line, coming: Coming)
        requires there { line.now.lun < length self.old.luns }
        requires within { IsWithin coming }
        requires time { line.now.start < 2 ^ 62 }
        ensures { self.new ≡ left_by self.old line.now coming }
    {
        match coming {
            Coming::Joins(group, want) => self.join(line, group, &want),
            Coming::GoesOn(group, phase) => self.go_on(line, &group, phase),
        }
    }

    // That phase of a group runs.
    fn go_on(&mut self, line: &Line, group: &Group, phase: u8)
        requires there { line.now.lun < length self.old.luns }
        requires within { phase < 2 * length group.now }
        requires time { line.now.start < 2 ^ 62 }
        ensures { self.new ≡ gone_on self.old line.now group.now phase }
    {
        let ended = line.start + phase_length(&self.timing, group.members(), usize::from(phase));
        let stage = stage_after(&self.timing, group, phase, ended);
        self.luns.set(usize::from(line.lun), stage);
        self.bus_free = self.bus_free.max(ended);
    }

    // The command of that request runs, with which the group has these members.
    fn join(&mut self, line: &Line, group: Group, want: &Want)
        requires there { line.now.lun < length self.old.luns }
        requires time { line.now.start < 2 ^ 62 }
        ensures { self.new ≡ joined_with self.old line.now group want.now }
    {
        let members = group.members();
        let count = members.len();
        let ended = line.start + phase_length(&self.timing, members, count - 1);
        let more = ended + wait_before(&self.timing, members, count - 1);
        let ready = ended + wait_before(&self.timing, members, count);
        self.luns.set(usize::from(line.lun), LunStage::Open { group, more, ready });
        self.bus_free = self.bus_free.max(ended);
        self.wants.leave(want.id);
    }
}

// What a LUN does once that phase of its group has ended.
fn stage_after(timing: &Timing, group: &Group, phase: u8, ended: u64) -> LunStage
    requires phase { phase < 2 * length group.now }
    requires ended { ended < 2 ^ 62 + 2 ^ 50 }
    ensures { result ≡ stage_of (lun_after timing.now group.now phase ended) }
{
    let next = usize::from(phase) + 1;
    if next >= 2 * group.len() {
        return LunStage::Free { since: ended };
    }
    LunStage::Running {
        group: group.copy(),
        next: next as u8,
        ready: ended + wait_before(timing, group.members(), next),
    }
}

// The members and the want as one group, if they are one.
fn extend_group(alloc: Global, rules: &Rules, members: &[Want], want: &Want) -> Option<Group>
    requires { length members.now ≤ 4 }
    ensures group { IfSome result (λ g. (g ≡ members.now ++ want.now ∷ []) × IsGroup rules.now g) }
    ensures none { IfNone result (IsGroup rules.now (members.now ++ want.now ∷ []) → ⊥) }
{
    if members.len() == 4 {
        return None;
    }
    let mut all: ArrayVec<Want, 4> = ArrayVec::try_from(members).unwrap();
    all.push(*want);
    let group = Group::of(alloc, all.as_slice());
    if !group.is_group(rules) {
        return None;
    }
    Some(group)
}

// A command that comes before the LUN may have one.
fn too_soon(line: &Line, members: &[Want], from: u64) -> LogBreach
    ensures { result ≡ too_soon line.now members.now from }
{
    if members.is_empty() {
        LogBreach::LunNotFree {
            lun: line.lun,
            start: line.start,
            since: from,
        }
    } else {
        LogBreach::NotReady {
            lun: line.lun,
            start: line.start,
            ready: from,
        }
    }
}
