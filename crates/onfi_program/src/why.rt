//! Why an answer refuses.
ghost use Rattle.onfi_console.specs.Words.{IsInRange};

use onfi_console::{Named, describe};
use onfi_run::prepare_for;
use onfi_script::{Answer, Purpose, Stop, Why, answer_by, audit_by, audit_gaps, number};
use std::alloc::{AllocError, Global};
use std::thread::Threads;

/// Why the answer with that status refuses an input; none where it refuses nothing, or memory is refused. What refuses is looked
/// at once more, and nothing is searched or run for it.
pub fn find_why<T: Threads + Sync>(
    rt: &T,
    alloc: Global,
    named: Named,
    status: u8,
    written: &[u8],
    input: &[u8],
) -> Option<Why>
    requires { IsInRange named }
{
    match status {
        0 => find_undescribed(alloc, named, input),
        1 => find_refused_script(rt, alloc, named, input),
        2 => find_refused_plan(rt, alloc, named, input),
        4 => Some(Why::Memory),
        6 => find_over(written),
        _ => None,
    }
}

/// Why a device that is described can't be planned for.
fn find_undescribed(alloc: Global, named: Named, input: &[u8]) -> Option<Why> {
    match named {
        Named::Device => why_of(describe(alloc, input)),
        _ => None,
    }
}

/// Why a script is refused.
fn find_refused_script<T: Threads + Sync>(
    rt: &T,
    alloc: Global,
    named: Named,
    input: &[u8],
) -> Option<Why>
    requires { IsInRange named }
{
    match named {
        Named::Problem { command, .. } => why_of(answer_by(rt, alloc, command, 1, input)),
        Named::Run { options } => find_refused_run(alloc, options.clocked, input),
        Named::Device => why_of(describe(alloc, input)),
        Named::Audit { options } => why_of(audit_by(alloc, options, input)),
        Named::Gaps { options } => why_of(audit_gaps(alloc, options, input)),
    }
}

/// Why the script of a run is refused.
fn find_refused_run(alloc: Global, clocked: bool, input: &[u8]) -> Option<Why> {
    let purpose = if clocked {
        Purpose::Clocked
    } else {
        Purpose::Run
    };
    match prepare_for(alloc, purpose, input) {
        Err(Stop::Refused(refusal)) => Some(Why::Script(refusal)),
        Err(Stop::Memory) => Some(Why::Memory),
        Ok(_) => None,
    }
}

/// Why a plan text or its certificate is refused.
fn find_refused_plan<T: Threads + Sync>(
    rt: &T,
    alloc: Global,
    named: Named,
    input: &[u8],
) -> Option<Why>
    requires { IsInRange named }
{
    match named {
        Named::Problem { command, .. } => why_of(answer_by(rt, alloc, command, 1, input)),
        _ => None,
    }
}

/// How many nodes a search opened that isn't over, as the line that was written says.
fn find_over(written: &[u8]) -> Option<Why> {
    let digits = written.get(5..written.len().saturating_sub(1))?;
    match number(digits, 0, u64::from(u32::MAX)) {
        Ok(opened) => Some(Why::Over(opened as u32)),
        Err(_) => None,
    }
}

/// Why an answer refuses, where it does and memory isn't refused.
fn why_of(answered: Result<Answer, AllocError>) -> Option<Why> {
    match answered {
        Ok(answer) => answer.why,
        Err(AllocError) => Some(Why::Memory),
    }
}
