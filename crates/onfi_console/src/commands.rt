//! The commands and options that the program understands.
ghost use Rattle.std.specs.Prelude.{◌≡◌, IfOk, Some, false, true};
ghost use Rattle.clap.specs.Words.{app_of, rule_of, with_rule};
ghost use Rattle.clap.specs.declared.builder.command.Command.TheViews.{out-Command as fields_of};
ghost use Rattle.onfi_console.specs.Words as spec;

use crate::help;
use clap::{Arg, ArgAction, Command};
use std::alloc::{AllocError, Global};

/// `--NAME VALUE`
fn value<'a>(alloc: Global, name: &'a str, value: &'a str, about: &'a str) -> Arg<'a>
    ensures rule { rule_of result ≡ spec.value name.now }
    ensures local { result.global ≡ false }
{
    Arg::new(alloc, name)
        .long(name)
        .action(ArgAction::Set)
        .value_name(value)
        .help(about)
}

/// `--NAME N`
fn number<'a>(alloc: Global, name: &'a str, about: &'a str) -> Arg<'a>
    ensures rule { rule_of result ≡ spec.value name.now }
    ensures local { result.global ≡ false }
{
    value(alloc, name, "N", about)
}

/// `--NAME`
fn flag<'a>(alloc: Global, name: &'a str, about: &'a str) -> Arg<'a>
    ensures rule { rule_of result ≡ spec.flag name.now }
    ensures local { result.global ≡ false }
{
    Arg::new(alloc, name)
        .long(name)
        .action(ArgAction::SetTrue)
        .help(about)
}

/// `--quiet`, `-q`
fn quiet_flag<'a>(alloc: Global) -> Arg<'a>
    ensures rule { rule_of result ≡ spec.quiet }
    ensures local { result.global ≡ false }
{
    flag(alloc, "quiet", help::QUIET).short('q')
}

/// `--trace LOG`, of `run`
fn trace_file<'a>(alloc: Global) -> Arg<'a>
    ensures rule { rule_of result ≡ spec.trace_file }
    ensures local { result.global ≡ false }
{
    value(alloc, "trace-file", "LOG", help::TRACE_RUN).long("trace")
}

/// The name of a file.
fn file<'a>(alloc: Global, name: &'a str, about: &'a str) -> Arg<'a>
    ensures rule { rule_of result ≡ spec.file name.now }
    ensures local { result.global ≡ false }
{
    Arg::new(alloc, name).action(ArgAction::Set).help(about)
}

/// A command without arguments.
fn command<'a>(alloc: Global, name: &'a str, about: &'a str, more: &'a str) -> Command<'a>
    ensures app { app_of result ≡ spec.command name.now }
    ensures local { (fields_of result).has_globals ≡ false }
{
    Command::new(alloc, name).about(about).after_help(more)
}

/// A command with an argument more.
fn with<'a>(command: Command<'a>, arg: Arg<'a>) -> Result<Command<'a>, AllocError>
    requires local { (fields_of command).has_globals ≡ false }
    requires plain { arg.global ≡ false }
    ensures app { IfOk result (λ a. app_of a ≡ with_rule (app_of command.entry) (rule_of arg.entry)) }
    ensures local { IfOk result (λ a. (fields_of a).has_globals ≡ false) }
{
    command.arg(arg)
}

/// `plan [--by WAY] [--early] [--limit N] [--workers N]`
fn plan_search<'a>(alloc: Global) -> Result<Command<'a>, AllocError>
    ensures app { IfOk result (λ a. app_of a ≡ spec.plan_search) }
    ensures local { IfOk result (λ a. (fields_of a).has_globals ≡ false) }
{
    let plan = command(alloc, "plan", help::PLAN, help::PLAN_MORE);
    let plan = with(plan, value(alloc, "by", "WAY", help::BY_PLAN))?;
    let plan = with(plan, flag(alloc, "early", help::EARLY_PLAN))?;
    let plan = with(plan, number(alloc, "limit", help::LIMIT))?;
    with(plan, number(alloc, "workers", help::WORKERS))
}

/// .. with `[--trace] [--requests] [--quiet] [FILE]`
fn plan<'a>(alloc: Global) -> Result<Command<'a>, AllocError>
    ensures app { IfOk result (λ a. app_of a ≡ spec.plan) }
    ensures local { IfOk result (λ a. (fields_of a).has_globals ≡ false) }
{
    let plan = plan_search(alloc)?;
    let plan = with(plan, flag(alloc, "trace", help::TRACE))?;
    let plan = with(plan, flag(alloc, "requests", help::REQUESTS))?;
    let plan = with(plan, quiet_flag(alloc))?;
    with(plan, file(alloc, "FILE", help::FILE))
}

/// A flag that help doesn't name.
fn former_flag<'a>(alloc: Global, name: &'a str) -> Arg<'a>
    ensures rule { rule_of result ≡ spec.flag name.now }
    ensures local { result.global ≡ false }
{
    flag(alloc, name, "").hide(true)
}

/// `check [--by WAY] [--remember] [--legal]`
fn check_judging<'a>(alloc: Global) -> Result<Command<'a>, AllocError>
    ensures app { IfOk result (λ a. app_of a ≡ spec.check_judging) }
    ensures local { IfOk result (λ a. (fields_of a).has_globals ≡ false) }
{
    let check = command(alloc, "check", help::CHECK, help::CHECK_MORE);
    let check = with(check, value(alloc, "by", "WAY", help::BY_CHECK))?;
    let check = with(check, former_flag(alloc, "remember"))?;
    with(check, flag(alloc, "legal", help::LEGAL))
}

/// .. with `[--quiet] [FILE [PLAN]]`
fn check<'a>(alloc: Global) -> Result<Command<'a>, AllocError>
    ensures app { IfOk result (λ a. app_of a ≡ spec.check) }
    ensures local { IfOk result (λ a. (fields_of a).has_globals ≡ false) }
{
    let check = check_judging(alloc)?;
    let check = with(check, quiet_flag(alloc))?;
    let check = with(check, file(alloc, "FILE", help::FILE))?;
    with(check, file(alloc, "PLAN", help::PLAN_FILE))
}

/// `run [--by WAY] [--early] [--limit N] [--clock CLOCK]`
fn run_planning<'a>(alloc: Global) -> Result<Command<'a>, AllocError>
    ensures app { IfOk result (λ a. app_of a ≡ spec.run_planning) }
    ensures local { IfOk result (λ a. (fields_of a).has_globals ≡ false) }
{
    let run = command(alloc, "run", help::RUN, help::RUN_MORE);
    let run = with(run, value(alloc, "by", "WAY", help::BY_RUN))?;
    let run = with(run, flag(alloc, "early", help::EARLY_RUN))?;
    let run = with(run, number(alloc, "limit", help::LIMIT))?;
    with(run, value(alloc, "clock", "CLOCK", help::CLOCK_RUN))
}

/// .. with `[--trace LOG] [--quiet] [FILE]`
fn run<'a>(alloc: Global) -> Result<Command<'a>, AllocError>
    ensures app { IfOk result (λ a. app_of a ≡ spec.run) }
    ensures local { IfOk result (λ a. (fields_of a).has_globals ≡ false) }
{
    let run = run_planning(alloc)?;
    let run = with(run, trace_file(alloc))?;
    let run = with(run, quiet_flag(alloc))?;
    with(run, file(alloc, "FILE", help::FILE))
}

/// `device [--quiet] [FILE]`
fn device<'a>(alloc: Global) -> Result<Command<'a>, AllocError>
    ensures app { IfOk result (λ a. app_of a ≡ spec.device) }
    ensures local { IfOk result (λ a. (fields_of a).has_globals ≡ false) }
{
    let device = command(alloc, "device", help::DEVICE, help::DEVICE_MORE);
    let device = with(device, quiet_flag(alloc))?;
    with(device, file(alloc, "FILE", help::FILE))
}

/// `audit [--all] [--ready-by-status] [--tolerance NS] [--one-status]`
fn audit_judging<'a>(alloc: Global) -> Result<Command<'a>, AllocError>
    ensures app { IfOk result (λ a. app_of a ≡ spec.audit_judging) }
    ensures local { IfOk result (λ a. (fields_of a).has_globals ≡ false) }
{
    let audit = command(alloc, "audit", help::AUDIT, help::AUDIT_MORE);
    let audit = with(audit, flag(alloc, "all", help::ALL))?;
    let audit = with(audit, flag(alloc, "ready-by-status", help::READY_BY_STATUS))?;
    let tolerance = value(alloc, "tolerance", "NS", help::TOLERANCE);
    let audit = with(audit, tolerance)?;
    with(audit, flag(alloc, "one-status", help::ONE_STATUS))
}

/// .. with `[--optimum] [--limit N] [--csv]`
fn audit_measuring<'a>(alloc: Global) -> Result<Command<'a>, AllocError>
    ensures app { IfOk result (λ a. app_of a ≡ spec.audit_measuring) }
    ensures local { IfOk result (λ a. (fields_of a).has_globals ≡ false) }
{
    let audit = audit_judging(alloc)?;
    let audit = with(audit, flag(alloc, "optimum", help::OPTIMUM))?;
    let audit = with(audit, number(alloc, "limit", help::LIMIT_AUDIT))?;
    with(audit, flag(alloc, "csv", help::CSV))
}

/// .. with `[--quiet] [FILE [LOG]]`
fn audit<'a>(alloc: Global) -> Result<Command<'a>, AllocError>
    ensures app { IfOk result (λ a. app_of a ≡ spec.audit) }
    ensures local { IfOk result (λ a. (fields_of a).has_globals ≡ false) }
{
    let audit = with(audit_measuring(alloc)?, quiet_flag(alloc))?;
    let audit = with(audit, file(alloc, "FILE", help::FILE))?;
    with(audit, file(alloc, "LOG", help::LOG_FILE))
}

/// The program without a command.
fn program<'a>(alloc: Global) -> Command<'a>
    ensures app { app_of result ≡ spec.program }
    ensures local { (fields_of result).has_globals ≡ false }
{
    command(alloc, "onfi_sim", help::PROGRAM, help::PROGRAM_MORE).version(help::VERSION)
}

/// The program with `plan` and `check`.
fn planning<'a>(alloc: Global) -> Result<Command<'a>, AllocError>
    ensures { IfOk result (λ a. app_of a ≡ spec.planning) }
{
    let plan = plan(alloc)?;
    let check = check(alloc)?;
    let app = program(alloc).subcommand(plan)?;
    app.subcommand(check)
}

/// What the program understands.
///
/// # Errors
/// Where memory was refused.
pub fn app<'a>(alloc: Global) -> Result<Command<'a>, AllocError>
    ensures { IfOk result (λ a. app_of a ≡ spec.app) }
{
    let run = run(alloc)?;
    let device = device(alloc)?;
    let audit = audit(alloc)?;
    let app = planning(alloc)?.subcommand(run)?;
    app.subcommand(device)?.subcommand(audit)
}
