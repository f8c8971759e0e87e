//! The command line.
ghost use Rattle.std.specs.Prelude.{◌≡◌, ◌≢◌, ◌≤◌, None, Some, false, true, is_some, IfErr, IfOk, OnOk, codes, map, option_map, string_bytes};
ghost use Rattle.std.specs.List.{list_any};
ghost use Rattle.clap.specs.Words.{first_of, first_value, found_of, kind_of, rows_of, subcommand_of, subcommand_rows_of};
ghost use Rattle.clap.specs.declared.error.kind.ErrorKind.{ErrorKind};
ghost use Rattle.onfi_script.specs.Limit.{IsLimited};
ghost use Rattle.onfi_console.specs.Readers.{AreRead};
ghost use Rattle.onfi_console.specs.Words as spec;

use crate::commands::app;
use crate::escaping::escape_text;
use crate::fault::{Untaken, WordsFault};
use crate::parsed::{MOST, Named, Parsed, RunBy, RunOptions};
use clap::error::ErrorKind;
use clap::{ArgMatches, Error};
use onfi_plan::Limit;
use onfi_planners::By;
use onfi_script::{AuditOptions, Command, GapOptions, Output, PlanOptions, number};
use std::alloc::{AllocError, Global};

/// Why a command, an option or its value is not taken.
#[derive(Clone, Copy)]
enum ValueFault {
    NoCommand,
    /// An option wants another value: what it wants.
    Wants(&'static str, &'static str),
    /// An option can't be used with another, and why.
    Beside(&'static str, &'static str, &'static str),
    /// .. or not without it.
    Without(&'static str, &'static str, &'static str),
}

/// Why options of a search stand beside no such way, and of a plan.
const SEARCHES_NOTHING: &str = "it searches nothing";

const PLANS_NOTHING: &str = "it plans nothing";

/// The usual limit of searches whose plans may be other than optimal, the plain one excepted; it bounds their time and memory.
const USUAL: u32 = 65_536;

/// By as many ns as a phase of a log may come too soon.
const MOST_TOLERANCE: u64 = 1_000_000;

/// As many workers as a search may have.
const MOST_WORKERS: u32 = 8;

/// The number that an option gives, 1 to `most`, or the usual one where none is given.
fn number_of(
    used: &ArgMatches<'_>,
    option: &str,
    most: u32,
    usual: u32,
    fault: ValueFault,
) -> Result<u32, ValueFault>
    requires some { 1 ≤ usual }
    requires few { usual ≤ most }
    ensures range { IfOk result (λ n. (1 ≤ n) × (n ≤ most)) }
    ensures value { IfOk result (λ n. spec.IsNumber most usual (first_value (found_of used.now) option.now) n) }
    ensures refused { IfErr result (λ _. spec.IsOutside most (first_value (found_of used.now) option.now)) }
{
    let Some(text) = used.get_str(option) else {
        return Ok(usual);
    };
    match number(text.as_bytes(), 1, u64::from(most)) {
        Ok(given) => Ok(given as u32),
        Err(_) => Err(fault),
    }
}

/// The limit that is given, or the usual one.
fn limit_of(used: &ArgMatches<'_>, usual: u32) -> Result<u32, ValueFault>
    requires some { 1 ≤ usual }
    requires few { usual ≤ 1048576 }
    ensures range { IfOk result (λ n. (1 ≤ n) × (n ≤ 1048576)) }
    ensures value { IfOk result (λ n. spec.IsLimit usual (first_value (found_of used.now) (codes "limit")) n) }
    ensures refused { IfErr result (λ _. spec.IsOutside 1048576 (first_value (found_of used.now) (codes "limit"))) }
{
    let fault = ValueFault::Wants("--limit", "a number from 1 to 1048576, digits alone");
    number_of(used, "limit", MOST, usual, fault)
}

/// The workers that are given, or one.
fn workers_of(used: &ArgMatches<'_>) -> Result<usize, ValueFault>
    ensures range { IfOk result (λ n. (1 ≤ n) × (n ≤ 8)) }
    ensures value { IfOk result (λ n. spec.IsWorkers (first_value (found_of used.now) (codes "workers")) n) }
    ensures refused { IfErr result (λ _. spec.IsOutside 8 (first_value (found_of used.now) (codes "workers"))) }
{
    let fault = ValueFault::Wants("--workers", "a number from 1 to 8, digits alone");
    let workers = number_of(used, "workers", MOST_WORKERS, 1, fault)?;
    Ok(workers as usize)
}

/// Whether a flag is given.
fn is_given(used: &ArgMatches<'_>, flag: &str) -> bool
    ensures { result ≡ spec.is_given (first_value (found_of used.now) flag.now) }
{
    match used.get_str(flag) {
        Some(text) => text == "true",
        None => false,
    }
}

/// Whether an option is given, with whichever value.
fn has_value(used: &ArgMatches<'_>, option: &str) -> bool
    ensures { result ≡ is_some (first_value (found_of used.now) option.now) }
{
    used.get_str(option).is_some()
}

/// Refuses an option with a value where another stands beside it.
fn leave_out(used: &ArgMatches<'_>, option: &str, fault: ValueFault) -> Result<(), ValueFault>
    ensures { OnOk result (first_value (found_of used.now) option.now ≡ None) }
{
    match used.get_str(option) {
        None => Ok(()),
        Some(_) => Err(fault),
    }
}

/// What is to be printed of a plan.
fn output_of(used: &ArgMatches<'_>) -> Output
    ensures { result ≡ spec.output_of (spec.is_given (first_value (found_of used.now) (codes "trace"))) (spec.is_given (first_value (found_of used.now) (codes "requests"))) }
{
    let trace = is_given(used, "trace");
    if is_given(used, "requests") {
        Output::Trace { requests: true }
    } else if trace {
        Output::Trace { requests: false }
    } else {
        Output::Plan
    }
}

/// The way to plan that is named, the plain one where none is; `ways` are those that a command takes.
fn by_of(used: &ArgMatches<'_>, ways: &'static str) -> Result<By, ValueFault>
    ensures { IfOk result (λ by. spec.IsBy (first_value (found_of used.now) (codes "by")) by) }
{
    match used.get_str("by") {
        None => Ok(By::Plain),
        Some("plain") => Ok(By::Plain),
        Some("within") => Ok(By::Within),
        Some("rule") => Ok(By::Rule),
        Some(_) => Err(ValueFault::Wants("--by", ways)),
    }
}

/// The limit of a way to plan.
fn limit_by(used: &ArgMatches<'_>, by: By) -> Result<u32, ValueFault>
    ensures range { IfOk result (λ n. (1 ≤ n) × (n ≤ 1048576)) }
    ensures value { IfOk result (λ n. spec.IsLimitBy by (first_value (found_of used.now) (codes "limit")) n) }
{
    match by {
        By::Plain => limit_of(used, MOST),
        By::Within => limit_of(used, USUAL),
        By::Rule => {
            let fault = ValueFault::Beside("--limit", "--by rule", SEARCHES_NOTHING);
            leave_out(used, "limit", fault)?;
            Ok(MOST)
        }
    }
}

/// The workers of a way to plan.
fn workers_by(used: &ArgMatches<'_>, by: By) -> Result<usize, ValueFault>
    ensures range { IfOk result (λ n. (1 ≤ n) × (n ≤ 8)) }
    ensures value { IfOk result (λ n. spec.IsWorkersBy by (first_value (found_of used.now) (codes "workers")) n) }
{
    let (way, reason) = match by {
        By::Plain => return workers_of(used),
        By::Within => ("--by within", "that search has one worker"),
        By::Rule => ("--by rule", SEARCHES_NOTHING),
    };
    let fault = ValueFault::Beside("--workers", way, reason);
    leave_out(used, "workers", fault)?;
    Ok(1)
}

/// What `plan` with these arguments names.
fn plan_of(used: &ArgMatches<'_>) -> Result<Named, ValueFault>
    ensures range { IfOk result (λ named. spec.IsInRange named) }
    ensures named { IfOk result (λ named. spec.IsNamed named (codes "plan") (rows_of (found_of used.now))) }
{
    let by = by_of(used, "'plain', 'within' or 'rule'")?;
    let early = is_given(used, "early");
    let limit = limit_by(used, by)?;
    let workers = workers_by(used, by)?;
    let output = output_of(used);
    let options = PlanOptions {
        by,
        early,
        limit,
        output,
    };
    let command = Command::PlanBy(options);
    Ok(Named::Problem { command, workers })
}

/// The command to check plan texts as the way that is named makes them; `remember`: by the former word for `--by within`.
fn check_by(used: &ArgMatches<'_>, remember: bool) -> Result<Command, ValueFault>
    requires judged { spec.given (codes "legal") (rows_of (found_of used.now)) ≡ false }
    requires former { spec.given (codes "remember") (rows_of (found_of used.now)) ≡ remember }
    ensures command { IfOk result (λ command. spec.IsProblem command 1 (codes "check") (rows_of (found_of used.now))) }
    ensures limited { IfOk result IsLimited }
{
    if remember {
        let fault = ValueFault::Beside("--remember", "--by", "it is a word for '--by within'");
        leave_out(used, "by", fault)?;
        return Ok(Command::CheckWithin);
    }
    let ways = "'plain' or 'within'";
    match by_of(used, ways)? {
        By::Plain => Ok(Command::Check),
        By::Within => Ok(Command::CheckWithin),
        By::Rule => Err(ValueFault::Wants("--by", ways)),
    }
}

/// The command to check that the words name.
fn check_command(used: &ArgMatches<'_>) -> Result<Command, ValueFault>
    ensures command { IfOk result (λ command. spec.IsProblem command 1 (codes "check") (rows_of (found_of used.now))) }
    ensures limited { IfOk result IsLimited }
{
    let legal = is_given(used, "legal");
    let remember = is_given(used, "remember");
    if !legal {
        return check_by(used, remember);
    }
    let reason = "no certificate is looked at";
    if remember {
        return Err(ValueFault::Beside("--remember", "--legal", reason));
    }
    let fault = ValueFault::Beside("--by", "--legal", reason);
    leave_out(used, "by", fault)?;
    Ok(Command::Legal)
}

/// What `check` with these arguments names.
fn check_of(used: &ArgMatches<'_>) -> Result<Named, ValueFault>
    ensures range { IfOk result (λ named. spec.IsInRange named) }
    ensures named { IfOk result (λ named. spec.IsNamed named (codes "check") (rows_of (found_of used.now))) }
{
    let command = check_command(used)?;
    let workers = 1;
    Ok(Named::Problem { command, workers })
}

/// The way to run that is named.
fn run_by(used: &ArgMatches<'_>) -> Result<RunBy, ValueFault>
    ensures { IfOk result (λ by. spec.IsRunBy (first_value (found_of used.now) (codes "by")) by) }
{
    match used.get_str("by") {
        Some("next") => Ok(RunBy::Next),
        _ => {
            let by = by_of(used, "'plain', 'within', 'rule' or 'next'")?;
            Ok(RunBy::Plans(by))
        }
    }
}

/// Its limit.
fn run_limit(used: &ArgMatches<'_>, by: RunBy) -> Result<u32, ValueFault>
    ensures range { IfOk result (λ n. (1 ≤ n) × (n ≤ 1048576)) }
    ensures value { IfOk result (λ n. spec.IsRunLimit by (first_value (found_of used.now) (codes "limit")) n) }
{
    match by {
        RunBy::Plans(by) => limit_by(used, by),
        RunBy::Next => {
            let fault = ValueFault::Beside("--limit", "--by next", PLANS_NOTHING);
            leave_out(used, "limit", fault)?;
            Ok(MOST)
        }
    }
}

/// Whether its plans are made better.
fn early_of(used: &ArgMatches<'_>, by: RunBy) -> Result<bool, ValueFault>
    ensures value { IfOk result (λ early. early ≡ spec.is_given (first_value (found_of used.now) (codes "early"))) }
    ensures plans { IfOk result (λ early. early ≡ true → by ≢ RunBy.Next) }
{
    match (by, is_given(used, "early")) {
        (RunBy::Next, true) => Err(ValueFault::Beside("--early", "--by next", PLANS_NOTHING)),
        (RunBy::Next, false) => Ok(false),
        (RunBy::Plans(_), early) => Ok(early),
    }
}

/// Whether a run has a clock.
fn clock_of(used: &ArgMatches<'_>) -> Result<bool, ValueFault>
    ensures { IfOk result (λ clocked. spec.IsClock (first_value (found_of used.now) (codes "clock")) clocked) }
{
    match used.get_str("clock") {
        None => Ok(false),
        Some("simulated") => Ok(true),
        Some(_) => Err(ValueFault::Wants("--clock", "'simulated'")),
    }
}

/// What `run` with these arguments names.
fn run_of(used: &ArgMatches<'_>) -> Result<Named, ValueFault>
    ensures range { IfOk result (λ named. spec.IsInRange named) }
    ensures named { IfOk result (λ named. spec.IsNamed named (codes "run") (rows_of (found_of used.now))) }
{
    let by = run_by(used)?;
    let early = early_of(used, by)?;
    let limit = run_limit(used, by)?;
    let clocked = clock_of(used)?;
    let options = RunOptions {
        by,
        early,
        limit,
        clocked,
    };
    Ok(Named::Run { options })
}

/// By how much a phase may come too soon, in ns.
fn tolerance_of(used: &ArgMatches<'_>) -> Result<u64, ValueFault>
    ensures value { IfOk result (λ n. spec.IsTolerance (first_value (found_of used.now) (codes "tolerance")) n) }
{
    let Some(text) = used.get_str("tolerance") else {
        return Ok(0);
    };
    match number(text.as_bytes(), 1, MOST_TOLERANCE) {
        Ok(tolerance) => Ok(tolerance),
        Err(_) => Err(ValueFault::Wants("--tolerance", "a number from 1 to 1000000, digits alone")),
    }
}

/// How a log is judged.
fn audit_options(used: &ArgMatches<'_>) -> Result<AuditOptions, ValueFault>
    ensures all { IfOk result (λ options. options.all ≡ spec.given (codes "all") (rows_of (found_of used.now))) }
    ensures by_status { IfOk result (λ options. options.by_status ≡ spec.given (codes "ready-by-status") (rows_of (found_of used.now))) }
    ensures tolerance { IfOk result (λ options. spec.IsTolerance (first_of (codes "tolerance") (rows_of (found_of used.now))) options.tolerance) }
    ensures one_status { IfOk result (λ options. options.one_status ≡ spec.given (codes "one-status") (rows_of (found_of used.now))) }
{
    let tolerance = tolerance_of(used)?;
    let all = is_given(used, "all");
    let by_status = is_given(used, "ready-by-status");
    let one_status = is_given(used, "one-status");
    Ok(AuditOptions {
        all,
        by_status,
        tolerance,
        one_status,
    })
}

/// What `audit --optimum` with these arguments names.
fn audit_optimum_of(used: &ArgMatches<'_>) -> Result<Named, ValueFault>
    requires { spec.given (codes "optimum") (rows_of (found_of used.now)) ≡ true }
    ensures range { IfOk result (λ named. spec.IsInRange named) }
    ensures named { IfOk result (λ named. spec.IsNamed named (codes "audit") (rows_of (found_of used.now))) }
{
    let all = is_given(used, "all");
    let by_status = is_given(used, "ready-by-status");
    if by_status {
        let reason = "pieces are planned by the stated times";
        return Err(ValueFault::Beside("--ready-by-status", "--optimum", reason));
    }
    let one_status = is_given(used, "one-status");
    if one_status {
        let reason = "pieces are planned with all statuses";
        return Err(ValueFault::Beside("--one-status", "--optimum", reason));
    }
    if has_value(used, "tolerance") {
        let reason = "pieces are planned to the ns";
        return Err(ValueFault::Beside("--tolerance", "--optimum", reason));
    }
    let nodes = limit_of(used, USUAL)?;
    let limit = Limit::of(nodes).unwrap();
    let csv = is_given(used, "csv");
    let options = GapOptions { all, limit, csv };
    Ok(Named::Gaps { options })
}

/// What `audit` with these arguments names.
fn audit_of(used: &ArgMatches<'_>) -> Result<Named, ValueFault>
    ensures range { IfOk result (λ named. spec.IsInRange named) }
    ensures named { IfOk result (λ named. spec.IsNamed named (codes "audit") (rows_of (found_of used.now))) }
{
    let optimum = is_given(used, "optimum");
    if optimum {
        return audit_optimum_of(used);
    }
    if has_value(used, "limit") {
        let reason = "nothing else of 'audit' searches";
        return Err(ValueFault::Without("--limit", "--optimum", reason));
    }
    if is_given(used, "csv") {
        let reason = "nothing else of 'audit' is a table";
        return Err(ValueFault::Without("--csv", "--optimum", reason));
    }
    let options = audit_options(used)?;
    Ok(Named::Audit { options })
}

/// What a command with these arguments names.
fn read_named(name: &str, used: &ArgMatches<'_>) -> Result<Named, ValueFault>
    ensures range { IfOk result (λ named. spec.IsInRange named) }
    ensures named { IfOk result (λ named. spec.IsNamed named name.now (rows_of (found_of used.now))) }
{
    match name {
        "plan" => plan_of(used),
        "check" => check_of(used),
        "run" => run_of(used),
        "device" => Ok(Named::Device),
        "audit" => audit_of(used),
        _ => Err(ValueFault::NoCommand),
    }
}

/// The file after that of the script.
fn second_file<'a>(used: &ArgMatches<'a>) -> Option<&'a str>
    ensures { option_map (λ s. s.now) result ≡ spec.file_or (first_value (found_of used.now) (codes "PLAN")) (first_value (found_of used.now) (codes "LOG")) }
{
    match used.get_str("PLAN") {
        Some(plan) => Some(plan),
        None => used.get_str("LOG"),
    }
}

/// What `clap` finds in the words.
fn matches_of<'a>(alloc: Global, words: &'a [String]) -> Result<ArgMatches<'a>, Error>
    ensures { IfOk result (λ m. subcommand_rows_of m ≡ subcommand_of spec.app (map string_bytes words.entry.now)) }
{
    let app = app(alloc)?;
    app.try_get_matches_from(words)
}

/// What the words ask for; the first word is the program's name.
///
/// # Errors
/// `Refused` where they are no command line of the program, a call for help or for the version included; `Memory` where a
/// growth was refused.
pub fn words<'a>(alloc: Global, words: &'a [String]) -> Result<Parsed<'a>, WordsFault>
    ensures range { IfOk result (λ parsed. spec.IsInRange parsed.named) }
    ensures asks { IfOk result (λ parsed. spec.Ask (map string_bytes words.entry.now) parsed) }
    ensures reads { IfOk result (λ parsed. AreRead (map string_bytes words.entry.now) parsed) }
{
    match read_words(alloc, words) {
        Ok(parsed) => Ok(parsed),
        Err(Untaken::Memory) => Err(WordsFault::Memory),
        Err(Untaken::Refused(_) | Untaken::Version(_)) => Err(WordsFault::Refused),
    }
}

/// What [`words`] answers; of words that aren't taken also what the program says of them.
///
/// # Errors
/// `Version` where they ask for the version; `Refused` where they are no command line of the program, a call for help
/// included; `Memory` where a growth was refused.
pub fn read_words<'a>(alloc: Global, words: &'a [String]) -> Result<Parsed<'a>, Untaken>
    ensures range { IfOk result (λ parsed. spec.IsInRange parsed.named) }
    ensures asks { IfOk result (λ parsed. spec.Ask (map string_bytes words.entry.now) parsed) }
{
    let matches = match matches_of(alloc, words) {
        Ok(matches) => matches,
        Err(error) => return Err(fault_of(alloc, words, &error)),
    };
    let Some((name, used)) = matches.subcommand() else {
        return Err(refuse(alloc, ValueFault::NoCommand));
    };
    let named = match read_named(name, used) {
        Ok(named) => named,
        Err(fault) => return Err(refuse(alloc, fault)),
    };
    Ok(Parsed {
        named,
        script: used.get_str("FILE"),
        plan: second_file(used),
        trace_file: used.get_str("trace-file"),
        quiet: is_given(used, "quiet"),
    })
}

/// What is wrong with a command, an option or its value.
fn describe_fault(alloc: Global, fault: ValueFault) -> Result<String, AllocError> {
    match fault {
        ValueFault::NoCommand => String::from_str(
            alloc,
            "a command was expected: 'plan', 'check', 'audit', 'run' or 'device'",
        ),
        ValueFault::Wants(option, what) => format!(in alloc; "'{option}' wants {what}"),
        ValueFault::Beside(option, other, reason) => {
            format!(in alloc; "'{option}' can't be used with '{other}': {reason}")
        }
        ValueFault::Without(option, other, reason) => {
            format!(in alloc; "'{option}' can't be used without '{other}': {reason}")
        }
    }
}

/// A refusal that says what is wrong, and how to learn more.
fn write_refusal(alloc: Global, fault: ValueFault) -> Result<String, AllocError> {
    let what = describe_fault(alloc, fault)?;
    format!(in alloc; "error: {what}\n\nFor more information, try '--help'.\n")
}

/// .. as an answer to the words.
fn refuse(alloc: Global, fault: ValueFault) -> Untaken {
    match write_refusal(alloc, fault) {
        Ok(text) => Untaken::Refused(text),
        Err(AllocError) => Untaken::Memory,
    }
}

/// The words with what isn't printable escaped, so that a message about them is safe to show.
fn escape_words(alloc: Global, words: &[String]) -> Result<Vec<String>, AllocError> {
    let mut shown = Vec::new(alloc);
    for word in words {
        shown.push(escape_text(alloc, word.as_str())?)?;
    }
    Ok(shown)
}

/// A text without the tip to pass an option as a file's name, and without an empty line after another.
fn without_tip(alloc: Global, text: &str) -> Result<String, AllocError> {
    let mut left = String::new(alloc);
    let mut empty = false;
    for line in text.lines() {
        let leave = line.starts_with("  tip: to pass ") || (empty && line.is_empty());
        if !leave {
            left.push_str(line)?;
            left.push('\n')?;
            empty = line.is_empty();
        }
    }
    Ok(left)
}

/// The message about words in which nothing was found.
fn describe_unfound(alloc: Global, words: &[String], error: &Error) -> Result<String, AllocError> {
    let shown = escape_words(alloc, words)?;
    let text = match matches_of(alloc, shown.as_slice()) {
        Err(again) => format!(in alloc; "{again}")?,
        Ok(_) => format!(in alloc; "{error}")?,
    };
    without_tip(alloc, text.as_str())
}

/// Why nothing was found in the words.
fn fault_of(alloc: Global, words: &[String], error: &Error) -> Untaken
    ensures version { spec.IfVersion result (kind_of error.now ≡ ErrorKind.DisplayVersion) }
{
    if error.kind() == ErrorKind::OutOfMemory {
        return Untaken::Memory;
    }
    match describe_unfound(alloc, words, error) {
        Ok(text) if error.kind() == ErrorKind::DisplayVersion => Untaken::Version(text),
        Ok(text) => Untaken::Refused(text),
        Err(AllocError) => Untaken::Memory,
    }
}

/// Whether a word asks for quiet.
fn is_quiet_word(word: &str) -> bool
    ensures { result ≡ spec.is_quiet_word word.now }
{
    word == "--quiet" || word == "-q"
}

/// Whether one of the words asks for quiet; also where they are no command line.
pub fn is_quiet(words: &[String]) -> bool
    ensures { result ≡ list_any (λ word. spec.is_quiet_word (string_bytes word)) words.now }
{
    words.iter().any(|word| is_quiet_word(word.as_str()))
}
