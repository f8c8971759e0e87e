//! Logs, from text to answer.
ghost use Rattle.std.specs.Prelude.{◌≡◌, IfOk};
ghost use Rattle.onfi_log.specs.Text.{AnswersLog, AnswersLogBy, answer_of};

use crate::answer::{LogAnswer, answer_broken, answer_end, answer_wrong, put_breach};
use crate::entry::read_entry;
use crate::judged::Judged;
use crate::manner::Manner;
use crate::parts::cut;
use crate::requests::Requests;
use onfi_audit::Audit;
use std::alloc::{AllocError, Global};

/// Judges the text of a log as [`judge_log_by`] does, with the stated times alone: each line is a phase, as
/// [`read_line`](crate::read_line) has it.
///
/// # Errors
/// Where memory was refused.
pub fn judge_log(
    alloc: Global,
    audit: Audit,
    requests: Requests,
    all: bool,
    text: &[u8],
) -> Result<LogAnswer, AllocError>
    ensures { IfOk result (λ a. AnswersLog requests audit all text.now (answer_of a)) }
{
    judge_log_by(alloc, audit, requests, Manner::exact(), all, text)
}

/// Judges the text of a log, whose lines are as [`read_entry`] has them, each with LF at its end: `legal N` with the number of its
/// phases; or `illegal LINE CONDITION ..` of the first line, counted from 1, that breaks a condition, where `all` says so of each;
/// or `refused log LINE` where a line says nothing. Comments are passed over. After a line that breaks a condition the log goes on as
/// though its phase ran where it only came too soon, or only its request's number, its END, its command bytes or the closer before it are
/// wrong. So it does where phases before it may be missing: a command begins on its LUN whatever that runs, and a post of a later
/// member of its LUN's group comes next. Else it goes on as though the line didn't stand there. The bus stays taken up to the last end
/// of what ran.
///
/// Where a tolerance is given a phase may come too soon by that much, and counts as run when it came; `used N` after `legal N` is by how
/// much one did at most. Where a log has one status for each group a status is that of all planes of its group, which is over with it.
///
/// END of a line, where it has one, is when its phase ends, and its command bytes are those of the phase. After the closer of a group's
/// last command its first post comes, and no command (`OtherPhase`); after that of a command before the last another command, and no
/// post (`NotClosed`).
///
/// Numbers of requests are looked at in commands: where requests were accepted before the log the number is that of the request,
/// and else requests of one block begin in the order of their numbers.
///
/// Where reports are taken, what a LUN's group has next may start from the moment of a report on, or as it might without it where
/// that is sooner. A LUN that is free stays so. A status is read over the bus, so its report breaks `BusNotFree` where a phase
/// before it is still on the bus then, while the edge of a ready/busy line may come at any moment; each breaks `NoLun` where its LUN
/// isn't there. It takes no time of the bus, and is no phase of `N`.
///
/// # Errors
/// Where memory was refused.
pub fn judge_log_by(
    alloc: Global,
    audit: Audit,
    requests: Requests,
    manner: Manner,
    all: bool,
    text: &[u8],
) -> Result<LogAnswer, AllocError>
    ensures { IfOk result (λ a. AnswersLogBy requests manner audit all text.now (answer_of a)) }
{
    let mut judged = Judged::of(alloc, requests, manner, audit)?;
    let mut found = String::new(alloc);
    let mut number = 1u64;
    let mut phases = 0u64;
    let mut left = text;
    while let Some((line, behind)) = cut(left, b'\n') {
        let Some(entry) = read_entry(manner.readies, line) else {
            return answer_wrong(alloc, found, number);
        };
        if let Some(breach) = judged.take(&entry)? {
            put_breach(alloc, &mut found, number, entry.lun(), breach)?;
            if !all {
                return Ok(answer_broken(found));
            }
        }
        phases += entry.phases();
        number += 1;
        left = behind;
    }
    answer_end(alloc, found, number, phases, judged.used(), left)
}
