//! Plan texts: a schedule, its finish, and the text of a certificate after them.
ghost use Rattle.std.specs.Prelude.{◌≡◌, ◌==◌, ◌≤◌, find, option_map, IfErr, OnOk, IsTrue, MatchResult, Ok, Err, Some, None, length};
ghost use Rattle.onfi_log.specs.Parts.{parts};
ghost use Rattle.onfi_script.specs.PlanLine.{line_of};
ghost use Rattle.onfi_script.specs.PlanText as spec;

use crate::field::is_word;
use crate::plan_line::{Line, RestLine, finish_of, line_of};
use arrayvec::ArrayVec;
use onfi_log::cut;
use onfi_request::Want;
use onfi_schedule::{Placed, Schedule, Starts};
use std::alloc::Global;
use std::marker::Model;

/// What the lines of a plan text say.
#[derive(Drop)]
pub struct Plan {
    finish: u64,
    rest: ArrayVec<RestLine, 8>,
    groups: ArrayVec<Placed, 8, Global>,
}

impl Model for Plan {
    ghost use Rattle.std.specs.Prelude.{◌≤◌, length};
    ghost use Rattle.onfi_script.specs.PlanText.{Plan as Said};

    ghost Value = { Said };

    ghost view = { λ p. record { finish = p.finish; rest = p.rest.items; groups = p.groups.items } };

    ghost invariant = { λ p. (length p.rest.items ≤ 8) × (length p.groups.items ≤ 8) };
}

impl Plan {
    /// A plan of which only the finish is known, in ns.
    fn new(alloc: Global, finish: u64) -> Plan
        ensures { result ≡ spec.begun finish }
    {
        Plan {
            finish,
            rest: ArrayVec::new(),
            groups: ArrayVec::new_in(alloc),
        }
    }

    /// When the plan says that it ends, in ns.
    pub fn finish(&self) -> u64
        ensures { result ≡ self.now.finish }
    {
        self.finish
    }

    /// The number of the line after those that were read.
    fn next_number(&self) -> u64
        ensures number { result ≡ spec.next_number self.now }
        ensures few { result ≤ 19 }
    {
        self.rest.len() as u64 + self.groups.len() as u64 + 3
    }

    /// Whether each line `rest` is of a LUN below this one.
    fn rises(&self, lun: u64) -> bool
        ensures { result ≡ spec.rises self.now lun }
    {
        self.rest.as_slice().iter().all(|other| other.lun < lun)
    }

    /// Whether the line may come next.
    fn takes(&self, line: &Line) -> bool
        ensures { result ≡ spec.takes self.now line.now }
    {
        match line {
            Line::Rest(line) => self.rises(line.lun)
                && self.rest.len() < 8
                && self.groups.is_empty(),
            Line::Group(_) => self.groups.len() < 8,
        }
    }

    /// Appends a line to the others.
    fn put(&mut self, line: Line)
        requires { IsTrue (spec.takes self.old line) }
        ensures { self.new ≡ spec.with_line self.old line }
    {
        match line {
            Line::Rest(line) => self.rest.push(line),
            Line::Group(group) => self.groups.push(group),
        }
    }

    /// Reads the line that comes next, and appends it to the others.
    ///
    /// # Errors
    /// Its number where it is not of its form or may not come next.
    fn read_line(&mut self, alloc: Global, wants: &[Want], line: &[u8]) -> Result<(), u64>
        ensures read { OnOk result (spec.grown self.old (line_of wants.now line.now) ≡ Some self.new) }
        ensures wrong { IfErr result (λ number. (spec.grown self.old (line_of wants.now line.now) ≡ None) × (number ≡ spec.next_number self.old)) }
        ensures few { IfErr result (λ number. number ≤ 19) }
    {
        match line_of(alloc, wants, line) {
            Some(line) if self.takes(&line) => {
                self.put(line);
                Ok(())
            }
            _ => Err(self.next_number()),
        }
    }

    /// The schedule that the plan says of a problem with that many LUNs.
    pub fn schedule(self, luns: usize) -> Schedule
        requires { luns ≤ 8 }
        ensures { result ≡ spec.schedule_on luns self }
    {
        let rest = rest_on(self.rest.as_slice(), luns);
        Schedule::new(rest, self.groups)
    }
}

/// The line of a LUN.
fn line_on(lines: &[RestLine], lun: u64) -> Option<&RestLine>
    ensures { option_map (λ line. line.now) result ≡ find (λ line. line.lun == lun) lines.now }
{
    lines.iter().find(|line| line.lun == lun)
}

/// The starts of a LUN's line, none where there is no such line.
fn starts_on(lines: &[RestLine], lun: u64) -> Starts
    ensures { result ≡ spec.starts_on lines.now lun }
{
    match line_on(lines, lun) {
        Some(line) => line.starts.copy(),
        None => Starts::new(),
    }
}

/// The starts of each LUN.
#[tactic(auto, unfolding(crate::specs::PlanText::rests))]
fn collect_rests(lines: &[RestLine], luns: usize) -> ArrayVec<Starts, 9>
    requires { luns ≤ 8 }
    ensures value { result.items ≡ spec.rests lines.now luns }
    ensures count { length result.items ≡ luns }
{
    let mut rests = ArrayVec::new();
    for lun in 0..luns {
        rests.push(starts_on(lines, lun as u64));
    }
    rests
}

/// Whether a line names a LUN that isn't there.
fn names_absent(lines: &[RestLine], luns: usize) -> bool
    ensures { result ≡ spec.names_absent luns lines.now }
{
    lines.iter().any(|line| luns as u64 <= line.lun)
}

/// The starts of each LUN, and a place more where a line names a LUN that isn't there.
fn rest_on(lines: &[RestLine], luns: usize) -> ArrayVec<Starts, 9>
    requires { luns ≤ 8 }
    ensures { result.items ≡ spec.rest_on luns lines.now }
{
    let mut rest = collect_rests(lines, luns);
    if names_absent(lines, luns) {
        rest.push(Starts::new());
    }
    rest
}

/// Whether the line begins the text of a certificate.
fn is_certificate(line: &[u8]) -> bool
    ensures { result ≡ spec.is_certificate line.now }
{
    line.starts_with(b"ONFICERT")
}

/// The finish that the first two lines of a text give and what follows them, or which of them is wrong.
pub fn opening(text: &[u8]) -> Result<(u64, &[u8]), u64>
    ensures { MatchResult result (λ p. spec.opened (parts 10 text.now) ≡ Ok (p.0, parts 10 p.1.now)) (λ number. spec.opened (parts 10 text.now) ≡ Err number) }
{
    let Some((head, rest)) = cut(text, b'\n') else {
        return Err(1);
    };
    if !is_word(head, "ONFIPLAN 1") {
        return Err(1);
    }
    let Some((line, behind)) = cut(rest, b'\n') else {
        return Err(2);
    };
    match finish_of(line) {
        Some(finish) => Ok((finish, behind)),
        None => Err(2),
    }
}

/// The plan of that finish, in ns, with the lines that stand in a text up to its certificate, and the text of that; or which
/// line is wrong.
#[tactic(auto, using(crate::proofs::PlanLemmas::read_wrong, crate::proofs::PlanLemmas::text_ended))]
pub fn read_lines<'a>(
    alloc: Global,
    wants: &[Want],
    finish: u64,
    text: &'a [u8],
) -> Result<(Plan, &'a [u8]), u64>
    ensures read { MatchResult result (λ r. spec.lines_of wants.now finish (parts 10 text.now) ≡ Ok (r.0, r.1.now)) (λ number. spec.lines_of wants.now finish (parts 10 text.now) ≡ Err number) }
    ensures few { IfErr result (λ number. number ≤ 19) }
{
    let mut left = text;
    let mut plan = Plan::new(alloc, finish);
    while let Some((line, behind)) = cut(left, b'\n') {
        if is_certificate(line) {
            return Ok((plan, left));
        }
        if let Err(number) = plan.read_line(alloc, wants, line) {
            return Err(number);
        }
        left = behind;
    }
    Err(plan.next_number())
}

/// What a plan text says of these wants, and the text of its certificate.
///
/// # Errors
/// The first line that is wrong, counted from 1: not of its form, a `rest` whose LUN doesn't rise or that comes after a
/// `group`, the ninth of either, or the one that is missing where the text ends.
pub fn read_plan<'a>(alloc: Global, wants: &[Want], text: &'a [u8]) -> Result<(Plan, &'a [u8]), u64>
    ensures { MatchResult result (λ r. spec.plan_of wants.now text.now ≡ Ok (r.0, r.1.now)) (λ number. spec.plan_of wants.now text.now ≡ Err number) }
{
    let (finish, behind) = opening(text)?;
    read_lines(alloc, wants, finish, behind)
}
