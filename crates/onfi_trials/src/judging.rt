ghost use Rattle.std.specs.Prelude.{◌≤◌, length};

use crate::ended::Ended;
use crate::sample::{problem, running, want};
use arrayvec::ArrayVec;
use onfi_cert::{CertTextFault, Token, read};
use onfi_check::{CertFault, TextFault, check, check_text};
use onfi_group::Group;
use onfi_problem::{LunState, Problem};
use onfi_request::Want;
use onfi_samples::sample_timing;
use onfi_schedule::{Placed, Schedule, Starts};
use onfi_timing::Kind;
use std::alloc::Global;

/// Certificates of the schedule below: one that is accepted, and one for each refusal.
const TEXTS: [&str; 9] = [
    "ONFICERT 1\nB2 Y1 D1\n",
    "ONFICERT 1\nB2 Y1\n",
    "ONFICERT 1\nT T\n",
    "ONFICERT 1\nB1 D1\n",
    "ONFICERT 1\nB2 Y1 U\n",
    "ONFICERT 1\nY0 Y1 D1\n",
    "ONFICERT 1\nB2 Y1 Y0\n",
    "ONFICERT 1\nX\n",
    "ONFICERT 2 strict\nB2 Y1 D1\n",
];

/// The want that waits: a read of LUN 1.
fn read_of_lun_1() -> Want {
    want(0, Kind::Read, 1, 0)
}

/// The status of an erase is next on LUN 0 from 1000 on, and a read of LUN 1 waits.
fn status_and_read(alloc: Global) -> Result<Problem, Ended> {
    let luns = [
        running(alloc, want(0, Kind::Erase, 0, 0), 1000),
        LunState::Free { since: 0 },
    ];
    problem(alloc, sample_timing(), &luns, &[read_of_lun_1()])
}

/// The starts of one LUN or one group.
fn starts(times: &[u64]) -> Starts {
    let mut starts = Starts::new();
    for time in times {
        if starts.as_slice().len() < 8 && *time < 1 << 63 {
            starts.push(*time);
        }
    }
    starts
}

/// Its schedule: the status at 1000, the read's phases at 0 and from then on.
fn read_first(alloc: Global, output: u64) -> Schedule {
    let mut rest = ArrayVec::new();
    rest.push(starts(&[1000]));
    rest.push(starts(&[]));
    let mut groups = ArrayVec::new_in(alloc);
    let read = Group::of(alloc, &[read_of_lun_1()]);
    groups.push(Placed::new(read, starts(&[0, output])));
    Schedule::new(rest, groups)
}

/// The tokens of a text; once more where memory was refused.
fn tokens_of(rt: &impl Print, alloc: Global, text: &str) -> Result<Vec<Token>, Ended> {
    for _try in 0..2u8 {
        match read(alloc, text.as_bytes()) {
            Ok((_, tokens)) => return Ok(tokens),
            Err(CertTextFault::Memory) => println!(rt; "memory")?,
            Err(_) => return Err(Ended::NoTrial),
        }
    }
    Err(Ended::Memory)
}

/// Judges the tokens of a text; once more where memory was refused.
fn judge_by_tokens(
    rt: &impl Print,
    alloc: Global,
    problem: &Problem,
    schedule: &Schedule,
    text: &str,
) -> Result<(), Ended> {
    let tokens = tokens_of(rt, alloc, text)?;
    for _try in 0..2u8 {
        let answer = check(alloc, problem, schedule, tokens.as_slice());
        if answer != Err(CertFault::Memory) {
            println!(rt; "{answer:?}")?;
            return Ok(());
        }
        println!(rt; "memory")?;
    }
    Err(Ended::Memory)
}

/// Judges a text as it is read; once more where memory was refused.
fn judge_by_text(
    rt: &impl Print,
    alloc: Global,
    problem: &Problem,
    schedule: &Schedule,
    text: &str,
) -> Result<(), Ended> {
    for _try in 0..2u8 {
        let answer = check_text(alloc, problem, schedule, text.as_bytes());
        if answer != Err(TextFault::Cert(CertFault::Memory)) {
            println!(rt; "{answer:?}")?;
            return Ok(());
        }
        println!(rt; "memory")?;
    }
    Err(Ended::Memory)
}

/// `check` of each certificate, then of a schedule whose data output starts too early.
pub(crate) fn judge_tokens(rt: &impl Print, alloc: Global) -> Result<(), Ended> {
    let problem = status_and_read(alloc)?;
    let (legal, early) = (read_first(alloc, 25_240), read_first(alloc, 25_239));
    for text in TEXTS {
        judge_by_tokens(rt, alloc, &problem, &legal, text)?;
    }
    judge_by_tokens(rt, alloc, &problem, &early, TEXTS[0])
}

/// `check_text` of the same.
pub(crate) fn judge_text(rt: &impl Print, alloc: Global) -> Result<(), Ended> {
    let problem = status_and_read(alloc)?;
    let (legal, early) = (read_first(alloc, 25_240), read_first(alloc, 25_239));
    for text in TEXTS {
        judge_by_text(rt, alloc, &problem, &legal, text)?;
    }
    judge_by_text(rt, alloc, &problem, &early, TEXTS[0])
}
