//! Plan texts with a line that says before which time nothing ends.
ghost use Rattle.std.specs.Prelude.{◌≡◌, MatchOption, MatchResult, Ok, Err, Some, None};
ghost use Rattle.onfi_log.specs.Parts.{parts};
ghost use Rattle.onfi_script.specs.PlanText as spec;

use crate::plan_line::below_of;
use crate::plan_text::{Plan, opening, read_lines};
use onfi_log::cut;
use onfi_request::Want;
use std::alloc::Global;

/// What a plan text says, and the text of its certificate.
#[derive(Drop)]
pub struct PlanWithin<'a> {
    pub plan: Plan,
    /// Nothing ends before this time, in ns, as the text says; the finish where no line says so.
    pub below: u64,
    pub certificate: &'a [u8],
}

/// The number of a line `below` in front of a text, and what follows it.
#[tactic(auto, using(crate::proofs::PlanLemmas::below_taken, onfi_log::proofs::PartsLemmas::some_parts))]
fn split_below(text: &[u8]) -> Option<(u64, &[u8])>
    ensures { MatchOption result (spec.below_first (parts 10 text.now) ≡ None) (λ r. spec.below_first (parts 10 text.now) ≡ Some (r.0, parts 10 r.1.now)) }
{
    let (line, behind) = cut(text, b'\n')?;
    let below = below_of(line)?;
    Some((below, behind))
}

/// The plan of that finish, in ns, with the lines after a line `below`.
fn read_below<'a>(
    alloc: Global,
    wants: &[Want],
    finish: u64,
    below: u64,
    text: &'a [u8],
) -> Result<PlanWithin<'a>, u64>
    ensures { let said = spec.behind_below below (spec.lines_of wants.now finish (parts 10 text.now)) in
        MatchResult result (λ r. said ≡ Ok (r.plan, r.below, r.certificate.now)) (λ number. said ≡ Err number) }
{
    match read_lines(alloc, wants, finish, text) {
        Ok((plan, certificate)) => Ok(PlanWithin {
            plan,
            below,
            certificate,
        }),
        Err(number) => Err(number + 1),
    }
}

/// .. with the lines of a text in which no line `below` stands.
fn read_optimal<'a>(
    alloc: Global,
    wants: &[Want],
    finish: u64,
    text: &'a [u8],
) -> Result<PlanWithin<'a>, u64>
    ensures { let said = spec.without_below finish (spec.lines_of wants.now finish (parts 10 text.now)) in
        MatchResult result (λ r. said ≡ Ok (r.plan, r.below, r.certificate.now)) (λ number. said ≡ Err number) }
{
    let (plan, certificate) = read_lines(alloc, wants, finish, text)?;
    Ok(PlanWithin {
        plan,
        below: finish,
        certificate,
    })
}

/// What a plan text says of these wants, before which time nothing ends, and the text of its certificate: a line
/// `below N` may stand after the finish.
///
/// # Errors
/// The first line that is wrong, as [`read_plan`](crate::read_plan) reports it.
pub fn read_plan_within<'a>(
    alloc: Global,
    wants: &[Want],
    text: &'a [u8],
) -> Result<PlanWithin<'a>, u64>
    ensures { MatchResult result (λ r. spec.plan_within_of wants.now text.now ≡ Ok (r.plan, r.below, r.certificate.now)) (λ number. spec.plan_within_of wants.now text.now ≡ Err number) }
{
    let (finish, behind) = opening(text)?;
    match split_below(behind) {
        Some((below, rest)) => read_below(alloc, wants, finish, below, rest),
        None => read_optimal(alloc, wants, finish, behind),
    }
}
