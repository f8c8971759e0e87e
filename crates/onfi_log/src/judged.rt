//! A log as far as it was judged.
ghost use Rattle.std.specs.Prelude.{◌≡◌, ◌<◌, ◌≤◌, ◌^◌, ◌*◌, ◌+◌, ℕ, true, false, ◌↔◌, None, IsTrue, IsOk, IfOk, IfErr, OnOk, max, IfSome, IfNone, slice_get, slice_index_or, length};
ghost use Rattle.std.specs.List.{AllByRecursion as Each};
ghost use Rattle.onfi_audit.specs.Audit.{IsAccepting, MayCome, MayComeLater, Tells, after_line, accepting, early_by, readied};
ghost use Rattle.onfi_audit.specs.Audit.{Audit as AnAudit};
ghost use Rattle.onfi_request.specs.declared.want.Want.{Want as AWant};
ghost use Rattle.onfi_audit.specs.declared.breach.LogBreach.TheVariants.{BlockOrder, UnknownRequest};
ghost use Rattle.onfi_log.specs.declared.breach.LineBreach.TheVariants.{Condition};
ghost use Rattle.onfi_log.specs.Entry.{IsInRange};
ghost use Rattle.onfi_log.specs.declared.manner.Statuses.TheVariants.{OneForAll};
ghost use Rattle.onfi_log.specs.Judging as spec;
ghost use Rattle.onfi_log.specs.Text.{used_of};
ghost use Rattle.onfi_log.specs.Judging.{Judged as Log};

use crate::breach::LineBreach;
use crate::bringing::{begins_request, bring_where};
use crate::bytes::Bytes;
use crate::entry::{LogEntry, Sign};
use crate::line::LogLine;
use crate::manner::{Manner, Statuses};
use crate::requests::Requests;
use onfi_audit::{Audit, Line, LogBreach, LunStage};
use onfi_request::Want;
use onfi_timing::{Kind, Operation};
use std::alloc::{AllocError, Global};
use std::marker::Model;

/// A log as far as it was judged.
#[derive(Drop)]
pub(crate) struct Judged {
    requests: Requests,
    tolerance: u64,
    statuses: Statuses,
    audit: Audit,
    // Of each block one more than the greatest number that a request had which began there.
    greatest: Vec<u64>,
    // Of each LUN the bytes of the command that began a request last.
    closers: [Option<Bytes>; LUNS],
    // By how much a phase that ran came too soon, at most, in ns.
    early: u64,
}

impl Model for Judged {
    ghost use Rattle.onfi_log.specs.Judging.{Judged as Log};

    ghost Value = { Log };

    ghost view = { λ j. record {
      requests = j.requests;
      tolerance = j.tolerance;
      statuses = j.statuses;
      audit = j.audit;
      greatest = j.greatest.items;
      closers = j.closers;
      early = j.early;
    } };
}

/// Why a command can't be of request `number` where that one waits first on its block.
fn find_misnamed_among(line: &Line, number: u64, first: Option<Want>) -> Option<LineBreach>
    ensures { result ≡ spec.misnamed_among line.now number first }
{
    let first = first?.id;
    if first == number {
        None
    } else if first < number {
        Some(report_order(first, number))
    } else {
        Some(report_unknown(line))
    }
}

/// Why a command can't be of request `number` after requests of which the greatest number is one less than that.
fn find_misnamed_after(line: &Line, number: u64, greatest: u64) -> Option<LineBreach>
    requires { number < 2 ^ 63 }
    ensures { result ≡ spec.misnamed_after line.now number greatest }
{
    if greatest <= number {
        None
    } else if greatest == number + 1 {
        Some(report_unknown(line))
    } else {
        Some(report_order(number, greatest - 1))
    }
}

/// The later request of a block begins before the earlier one.
fn report_order(earlier: u64, later: u64) -> LineBreach
    ensures { result ≡ Condition (BlockOrder earlier later) }
{
    LineBreach::Condition(LogBreach::BlockOrder { earlier, later })
}

/// No request that waits is the line's.
fn report_unknown(line: &Line) -> LineBreach
    ensures { result ≡ Condition (UnknownRequest line.now.lun line.now.block) }
{
    LineBreach::Condition(LogBreach::UnknownRequest {
        lun: line.lun,
        block: line.block,
    })
}

/// Why a line can't be the next of a group with these members: the first one's post is.
fn find_not_next(line: &Line, group: &[Want]) -> Option<LineBreach>
    ensures { result ≡ spec.not_next line.now (slice_get group.now 0) }
{
    let first = group.get(0).copied()?;
    Some(LineBreach::Condition(LogBreach::OtherPhase {
        lun: line.lun,
        is_post: true,
        block: first.block,
        page: first.page,
    }))
}

/// Why a line can't come after a command with that closer, with which its LUN's group has these members.
fn find_misclosed_by(line: &Line, group: &[Want], closer: Option<Bytes>) -> Option<LineBreach>
    ensures { result ≡ spec.misclosed_by line.now group.now closer }
{
    match closer? {
        Bytes::Last if !line.is_post => find_not_next(line, group),
        Bytes::More if line.is_post => Some(LineBreach::NotClosed { lun: line.lun }),
        Bytes::Last | Bytes::More | Bytes::Other => None,
    }
}

/// That END isn't when the phase ends.
fn find_other_end(end: Option<u64>, ends: u64) -> Option<LineBreach>
    ensures { result ≡ spec.other_end end ends }
{
    let end = end?;
    if end == ends {
        return None;
    }
    Some(LineBreach::OtherEnd { end, ends })
}

/// That the bytes aren't those of the phase, of a command of which it is perhaps known whether it is the last one.
fn find_other_bytes(line: &Line, is_last: Option<bool>, bytes: Option<Bytes>) -> Option<LineBreach>
    ensures { result ≡ spec.other_bytes line.now is_last bytes }
{
    if bytes?.fit(is_last) {
        return None;
    }
    Some(LineBreach::OtherBytes {
        operation: line.operation,
        is_post: line.is_post,
        is_last: is_last.unwrap_or(true),
    })
}

/// What of a phase that ends then isn't as the line has it.
fn find_misfit_by(is_last: Option<bool>, ends: u64, line: &LogLine) -> Option<LineBreach>
    ensures { result ≡ spec.misfit_by is_last ends line.now }
{
    match find_other_end(line.end, ends) {
        Some(breach) => Some(breach),
        None => find_other_bytes(&line.phase, is_last, line.bytes),
    }
}

/// Whether a phase is on the bus at a moment, over which that sign comes.
fn is_over_bus(sign: Sign, moment: u64, bus_free: u64) -> bool
    ensures { result ≡ spec.is_over_bus sign moment bus_free }
{
    match sign {
        Sign::Status => moment < bus_free,
        Sign::Edge => false,
    }
}

/// Where the number of a block stands.
fn block_at(line: &Line) -> usize
    ensures { result ≡ spec.block_at line.now }
{
    usize::from(line.lun) * 65_536 + usize::from(line.block)
}

/// So many zeros.
fn zeros(alloc: Global, count: usize) -> Result<Vec<u64>, AllocError>
    ensures count { IfOk result (λ v. length v.items ≡ count) }
    ensures zero { IfOk result (λ v. Each (λ n. n ≡ 0) v.items) }
{
    Vec::from_elem(alloc, 0u64, count)
}

/// How many LUNs a channel has at most.
const LUNS: usize = 8;

/// How many blocks they have.
const BLOCKS: usize = LUNS * 65_536;

impl Judged {
    /// A log of which nothing was judged.
    ///
    /// # Errors
    /// Where memory was refused.
    pub(crate) fn of(
        alloc: Global,
        requests: Requests,
        manner: Manner,
        audit: Audit,
    ) -> Result<Judged, AllocError>
        ensures begins { IfOk result (λ j. j ≡ spec.beginning requests manner audit j.greatest) }
        ensures fresh { IfOk result (λ j. spec.IsFresh requests j.greatest) }
    {
        let greatest = match requests {
            Requests::Accepted => Vec::new(alloc),
            Requests::Mentioned => zeros(alloc, BLOCKS)?,
        };
        Ok(Judged {
            requests,
            tolerance: manner.tolerance,
            statuses: manner.statuses,
            audit,
            greatest,
            closers: [None; LUNS],
            early: 0,
        })
    }

    /// Where phases may come too soon, by how much one did at most, in ns.
    pub(crate) fn used(&self) -> Option<u64>
        ensures { result ≡ used_of self.now }
    {
        if self.tolerance == 0 {
            return None;
        }
        Some(self.early)
    }

    /// Whether the line is a command that begins a request.
    fn begins(&self, line: &Line) -> bool
        ensures { result ≡ spec.begins self.now.audit line.now }
    {
        begins_request(&self.audit, line)
    }

    /// Accepts the request that the line brings; whether it brings one.
    ///
    /// # Errors
    /// Where memory was refused.
    fn bring(&mut self, begins: bool, line: &Line) -> Result<bool, AllocError>
        requires { begins ≡ spec.begins self.old.audit line.now }
        ensures brought { IfOk result (λ b. (b ≡ spec.brings self.old line.now) × (self.new ≡ spec.bringing self.old line.now)) }
    {
        bring_where(&mut self.audit, self.requests, begins, line)
    }

    /// The greatest number of a request that began on the line's block, and one more; 0 where none had one.
    fn greatest_at(&self, line: &Line) -> u64
        ensures { result ≡ slice_index_or self.now.greatest (spec.block_at line.now) 0 }
    {
        self.greatest.get(block_at(line)).copied().unwrap_or(0)
    }

    /// Why the command that begins a request, where `begins` says so, can't be of the one that the line names.
    fn find_misnamed(&self, begins: bool, line: &LogLine) -> Option<LineBreach>
        requires begins { begins ≡ spec.begins self.now.audit line.now.phase }
        requires small { IfSome line.now.request (λ number. number < 2 ^ 63) }
        ensures { result ≡ spec.misnamed self.now line.now }
    {
        if !begins {
            return None;
        }
        let number = line.request?;
        let phase = &line.phase;
        match self.requests {
            Requests::Accepted => find_misnamed_among(
                phase,
                number,
                self.audit.first_on(phase.lun, phase.block),
            ),
            Requests::Mentioned => find_misnamed_after(phase, number, self.greatest_at(phase)),
        }
    }

    /// Why the line can't come after the closer of its LUN's last command.
    fn find_misclosed(&self, line: &Line) -> Option<LineBreach>
        ensures { result ≡ spec.misclosed self.now line.now }
    {
        let lun = usize::from(line.lun);
        match self.audit.luns().get(lun)? {
            LunStage::Open { group, .. } => {
                let closer = self.closers.get(lun).copied().flatten();
                find_misclosed_by(line, group.members(), closer)
            }
            LunStage::Free { .. } | LunStage::Running { .. } => None,
        }
    }

    /// What is amiss with the line beside its phase.
    fn find_amiss(&self, begins: bool, line: &LogLine) -> Option<LineBreach>
        requires begins { begins ≡ spec.begins self.now.audit line.now.phase }
        requires small { IfSome line.now.request (λ number. number < 2 ^ 63) }
        ensures { result ≡ spec.amiss self.now line.now }
    {
        match self.find_misclosed(&line.phase) {
            Some(breach) => Some(breach),
            None => self.find_misnamed(begins, line),
        }
    }

    /// Whether a command is the last of its group, where all members of that are known.
    fn is_last(&self, line: &Line) -> Option<bool>
        ensures { result ≡ spec.last_known self.now.audit line.now }
    {
        if line.is_post {
            return None;
        }
        match self.audit.luns().get(usize::from(line.lun))? {
            LunStage::Running { group, next, .. } => Some(usize::from(*next) + 1 == group.len()),
            LunStage::Free { .. } | LunStage::Open { .. } => None,
        }
    }

    /// What of the phase that ran isn't as the line has it.
    fn find_misfit(&self, is_last: Option<bool>, line: &LogLine) -> Option<LineBreach>
        ensures { result ≡ spec.misfit_by is_last self.now.audit.bus_free line.now }
    {
        find_misfit_by(is_last, self.audit.bus_free(), line)
    }

    /// Notes what the command says that began a request, where `begins` says so.
    fn note(&mut self, begins: bool, line: &LogLine)
        requires small { IfSome line.now.request (λ number. number < 2 ^ 63) }
        requires lun { line.now.phase.lun ≤ 7 }
        ensures { self.new ≡ spec.with_notes self.old begins line.now }
    {
        self.note_number(begins, line);
        self.note_closer(begins, line);
    }

    /// Notes its command bytes.
    fn note_closer(&mut self, begins: bool, line: &LogLine)
        requires { line.now.phase.lun ≤ 7 }
        ensures { self.new ≡ record self.old { closers = spec.closed begins self.old.closers line.now } }
    {
        if begins {
            self.closers[usize::from(line.phase.lun)] = line.bytes;
        }
    }

    /// Notes the number of its request.
    fn note_number(&mut self, begins: bool, line: &LogLine)
        requires small { IfSome line.now.request (λ number. number < 2 ^ 63) }
        ensures { self.new ≡ record self.old { greatest = spec.noted begins self.old.greatest line.now } }
    {
        if !begins {
            return;
        }
        let Some(number) = line.request else {
            return;
        };
        let greatest = self.greatest_at(&line.phase).max(number + 1);
        let at = block_at(&line.phase);
        if at < self.greatest.len() {
            self.greatest[at] = greatest;
        }
    }

    /// By how much the phase comes too soon, where it may come at all.
    fn early_by(&self, line: &Line) -> u64
        ensures { result ≡ early_by self.now.audit line.now }
    {
        self.audit.early_by(line)
    }

    /// Keeps by how much a phase came too soon.
    fn note_early(&mut self, early: u64)
        ensures { self.new ≡ record self.old { early = max self.old.early early } }
    {
        self.early = self.early.max(early);
    }

    /// Runs the phase on the channel though it may start too soon; whether it ran.
    fn run_late(&mut self, line: &Line) -> bool
        requires { line.now.start < 2 ^ 62 }
        ensures ran { IsTrue result ↔ MayComeLater self.old.audit line.now }
        ensures after { result ≡ true → self.new ≡ record self.old { audit = after_line self.old.audit line.now } }
        ensures unchanged { result ≡ false → self.new ≡ self.old }
    {
        self.audit.run_anyway(line)
    }

    /// .. and keeps how much too soon it came.
    fn run_anyway(&mut self, line: &Line) -> bool
        requires { line.now.start < 2 ^ 62 }
        ensures ran { IsTrue result ↔ MayComeLater self.old.audit line.now }
        ensures after { result ≡ true → self.new ≡ spec.gone_by self.old line.now }
        ensures unchanged { result ≡ false → self.new ≡ self.old }
    {
        let early = self.early_by(line);
        if !self.run_late(line) {
            return false;
        }
        self.note_early(early);
        true
    }

    /// Takes back the request that was accepted last.
    fn withdraw(&mut self)
        requires { IsAccepting self.old.audit }
        ensures { (before : AnAudit) (want : AWant) → self.old.audit ≡ accepting before want → self.new ≡ record self.old { audit = before } }
    {
        self.audit.withdraw();
    }

    /// Runs the phase of a line that began and brought a request as `begins` and `brought` say, though it may start too soon; whether it
    /// ran. Where it didn't the request is taken back.
    fn run_noted(&mut self, begins: bool, brought: bool, line: &LogLine) -> bool
        requires from { (j : Log) × (self.old ≡ spec.bringing j line.now.phase) × (begins ≡ spec.begins j.audit line.now.phase) × (brought ≡ spec.brings j line.now.phase) }
        requires small { IfSome line.now.request (λ number. number < 2 ^ 63) }
        requires start { line.now.phase.start < 2 ^ 62 }
        requires lun { line.now.phase.lun ≤ 7 }
        ensures { (j : Log) → self.old ≡ spec.bringing j line.now.phase → begins ≡ spec.begins j.audit line.now.phase
            → brought ≡ spec.brings j line.now.phase → spec.RanBy result j line.now self.new }
    {
        if self.run_anyway(&line.phase) {
            self.note(begins, line);
            return true;
        }
        if brought {
            self.withdraw();
        }
        false
    }

    /// Runs the phase of the line, with its request where it brings that, though it may start too soon; whether it ran.
    ///
    /// # Errors
    /// Where memory was refused.
    fn run_brought(&mut self, line: &LogLine) -> Result<bool, AllocError>
        requires small { IfSome line.now.request (λ number. number < 2 ^ 63) }
        requires start { line.now.phase.start < 2 ^ 62 }
        requires lun { line.now.phase.lun ≤ 7 }
        ensures { IfOk result (λ ran. spec.RanBy ran self.old line.now self.new) }
    {
        let begins = self.begins(&line.phase);
        let brought = self.bring(begins, &line.phase)?;
        Ok(self.run_noted(begins, brought, line))
    }

    /// The LUN does this from now on.
    fn put_stage(&mut self, lun: u8, stage: LunStage)
        ensures { self.new ≡ spec.staged self.old lun stage }
    {
        self.audit.put_stage(lun, stage);
    }

    /// Runs the phase of a line that may not come even later where it may come once phases are taken as missing before it.
    ///
    /// # Errors
    /// Where memory was refused.
    fn regain(&mut self, line: &LogLine) -> Result<(), AllocError>
        requires small { IfSome line.now.request (λ number. number < 2 ^ 63) }
        requires start { line.now.phase.start < 2 ^ 62 }
        requires lun { line.now.phase.lun ≤ 7 }
        ensures { OnOk result (spec.Regains self.old line.now self.new) }
    {
        let lun = line.phase.lun;
        let Some((before, stage)) = self.audit.regain_stage(&line.phase) else {
            return Ok(());
        };
        self.put_stage(lun, stage);
        if !self.run_brought(line)? {
            self.put_stage(lun, before);
        }
        Ok(())
    }

    /// Goes on after a line that breaks a condition, and that began and brought a request as `begins` and `brought` say.
    ///
    /// # Errors
    /// Where memory was refused.
    fn go_on(&mut self, begins: bool, brought: bool, line: &LogLine) -> Result<(), AllocError>
        requires from { (j : Log) × (self.old ≡ spec.bringing j line.now.phase) × (begins ≡ spec.begins j.audit line.now.phase) × (brought ≡ spec.brings j line.now.phase) }
        requires small { IfSome line.now.request (λ number. number < 2 ^ 63) }
        requires start { line.now.phase.start < 2 ^ 62 }
        requires lun { line.now.phase.lun ≤ 7 }
        ensures { OnOk result ((j : Log) → self.old ≡ spec.bringing j line.now.phase → begins ≡ spec.begins j.audit line.now.phase
            → brought ≡ spec.brings j line.now.phase → spec.GoesOnBy j line.now self.new) }
    {
        if self.run_noted(begins, brought, line) {
            return Ok(());
        }
        self.regain(line)
    }

    /// Judges the phase, which runs if it breaks no condition.
    fn judge(&mut self, line: &Line) -> Result<(), LogBreach>
        requires { line.now.start < 2 ^ 62 }
        ensures exactly { IsOk result ↔ MayCome self.old.audit line.now }
        ensures after { IfOk result (λ _. self.new ≡ record self.old { audit = after_line self.old.audit line.now }) }
        ensures broken { IfErr result (Tells self.old.audit line.now) }
        ensures unchanged { IfErr result (λ _. self.new ≡ self.old) }
    {
        self.audit.judge(line)
    }

    /// Runs the phase where it may come, and comes too soon by no more than the tolerance; whether it ran.
    fn excuse(&mut self, line: &Line) -> bool
        requires { line.now.start < 2 ^ 62 }
        ensures ran { IsTrue result ↔ spec.ComesBy self.old.tolerance self.old.audit line.now }
        ensures after { result ≡ true → self.new ≡ spec.gone_by self.old line.now }
        ensures unchanged { result ≡ false → self.new ≡ self.old }
    {
        if self.early_by(line) > self.tolerance {
            return false;
        }
        self.run_anyway(line)
    }

    /// The condition that the phase breaks, with which that is amiss; if it breaks none it runs.
    fn find_breach(&mut self, amiss: Option<LineBreach>, line: &Line) -> Option<LineBreach>
        requires { line.now.start < 2 ^ 62 }
        ensures none { IfNone result ((amiss ≡ None) × spec.ComesBy self.old.tolerance self.old.audit line.now × (self.new ≡ spec.gone_by self.old line.now)) }
        ensures breaks { IfSome result (spec.BreaksBy amiss self.old.tolerance self.old.audit line.now) }
        ensures unchanged { IfSome result (λ _. self.new ≡ self.old) }
    {
        if amiss.is_some() {
            return amiss;
        }
        self.find_broken(line)
    }

    /// The condition that the phase breaks; if it breaks none it runs.
    fn find_broken(&mut self, line: &Line) -> Option<LineBreach>
        requires { line.now.start < 2 ^ 62 }
        ensures none { IfNone result (spec.ComesBy self.old.tolerance self.old.audit line.now × (self.new ≡ spec.gone_by self.old line.now)) }
        ensures breaks { IfSome result (λ b. spec.TellsOf self.old.audit line.now b × (spec.ComesBy self.old.tolerance self.old.audit line.now → ⊥)) }
        ensures unchanged { IfSome result (λ _. self.new ≡ self.old) }
    {
        match self.judge(line) {
            Ok(()) => None,
            Err(_) if self.excuse(line) => None,
            Err(breach) => Some(LineBreach::Condition(breach)),
        }
    }

    /// Judges the next line: what it breaks, if it breaks something.
    ///
    /// # Errors
    /// Where memory was refused.
    fn step(&mut self, line: &LogLine) -> Result<Option<LineBreach>, AllocError>
        requires small { IfSome line.now.request (λ number. number < 2 ^ 63) }
        requires start { line.now.phase.start < 2 ^ 62 }
        requires lun { line.now.phase.lun ≤ 7 }
        ensures { IfOk result (λ breach. spec.Steps self.old line.now breach self.new) }
    {
        let begins = self.begins(&line.phase);
        let amiss = self.find_amiss(begins, line);
        let is_last = self.is_last(&line.phase);
        let brought = self.bring(begins, &line.phase)?;
        let breach = self.find_breach(amiss, &line.phase);
        match breach {
            Some(_) => {
                self.go_on(begins, brought, line)?;
                Ok(breach)
            }
            None => {
                self.note(begins, line);
                Ok(self.find_misfit(is_last, line))
            }
        }
    }

    /// Takes a status as that of its whole group, where a log has one for each group.
    fn face(&mut self, line: &Line)
        ensures { spec.Faces self.old line.now self.new }
    {
        match self.statuses {
            Statuses::EachPlane => {}
            Statuses::OneForAll => self.face_alone(line),
        }
    }

    /// Takes a status as that of its whole group.
    fn face_alone(&mut self, line: &Line)
        ensures { spec.FacesBy OneForAll self.old line.now self.new }
    {
        if let Some(stage) = self.audit.find_alone(line) {
            self.put_stage(line.lun, stage);
        }
    }

    /// Why the LUN can't have been reported ready then.
    fn find_misreport(&self, lun: u8, moment: u64, sign: Sign) -> Option<LineBreach>
        ensures { result ≡ spec.misreported self.now.audit lun moment sign }
    {
        if usize::from(lun) >= self.audit.luns().len() {
            return Some(LineBreach::Condition(LogBreach::NoLun { lun }));
        }
        let bus_free = self.audit.bus_free();
        if is_over_bus(sign, moment, bus_free) {
            return Some(LineBreach::Condition(LogBreach::BusNotFree {
                start: moment,
                bus_free,
            }));
        }
        None
    }

    /// The LUN is ready from that moment on.
    fn ready(&mut self, lun: u8, moment: u64)
        ensures { self.new ≡ record self.old { audit = readied self.old.audit lun moment } }
    {
        self.audit.ready(lun, moment);
    }

    /// Takes it that the LUN was reported ready then: the condition that this breaks, if it breaks one.
    fn report(&mut self, lun: u8, moment: u64, sign: Sign) -> Option<LineBreach>
        ensures breach { result ≡ spec.misreported self.old.audit lun moment sign }
        ensures after { self.new ≡ spec.after_report self.old lun moment result }
    {
        let breach = self.find_misreport(lun, moment, sign);
        if breach.is_none() {
            self.ready(lun, moment);
        }
        breach
    }

    /// Judges the next phase: what its line breaks, if it breaks something.
    ///
    /// # Errors
    /// Where memory was refused.
    fn take_phase(&mut self, line: &LogLine) -> Result<Option<LineBreach>, AllocError>
        requires small { IfSome line.now.request (λ number. number < 2 ^ 63) }
        requires start { line.now.phase.start < 2 ^ 62 }
        requires lun { line.now.phase.lun ≤ 7 }
        ensures { IfOk result (λ breach. (h : Log) × spec.Faces self.old line.now.phase h × spec.Steps h line.now breach self.new) }
    {
        self.face(&line.phase);
        self.step(line)
    }

    /// Judges what the next line says: the condition that it breaks, if it breaks one.
    ///
    /// # Errors
    /// Where memory was refused.
    pub(crate) fn take(&mut self, entry: &LogEntry) -> Result<Option<LineBreach>, AllocError>
        requires { IsInRange entry.now }
        ensures { IfOk result (λ breach. spec.Takes self.old entry.now breach self.new) }
    {
        match entry {
            LogEntry::Phase(line) => self.take_phase(line),
            LogEntry::Ready { lun, moment, sign } => Ok(self.report(*lun, *moment, *sign)),
            LogEntry::Comment => Ok(None),
        }
    }
}
