ghost use Rattle.std.specs.Prelude.{◌≡◌, ◌≤◌, ◌+◌, ◌<◌, ◌^◌, ◌↔◌, ℕ, IfOk, IfErr, IfSome, IfNone, OnOk, List, [], length};
ghost use Rattle.std.specs.Option.{unwrap_or};
ghost use Rattle.onfi_schedule.specs.Schedule.{Schedule as AnySchedule, Legal, Optimal, finish};
ghost use Rattle.onfi_request.specs.declared.want.Want.{Want};
ghost use Rattle.onfi_cert.specs.Reading.{Line};
ghost use Rattle.onfi_known_check.specs.Faults.{EndsBefore, IsKnownFault, IsTextFault, IsTokenFault, NoHeader, OfCertificate, OfTokens};
ghost use Rattle.onfi_known_check.specs.Laws.{NoneBefore};
ghost use Rattle.onfi_known_check.specs.Proves.{ProvesTokens};
ghost use Rattle.onfi_known_check.specs.Text.{IsCertificate, IsReading};
ghost use Rattle.onfi_known_check.specs.declared.token.Token.{Token as OneToken};

use crate::fault::{KnownFault, KnownTextFault};
use crate::header::header_of;
use crate::token::{Token, Tokens};
use crate::walk::read_whole;
use onfi_cert::{Numbered, TokenSource};
use onfi_check::{CertFault, TextFault};
use onfi_problem::Problem;
use onfi_schedule::{Schedule, finish, legal};
use std::alloc::Global;

// Reads tokens of a source that are to show that no legal schedule ends before `e` ns.
fn read_source<S: TokenSource<Token = Token>>(
    alloc: Global,
    problem: &Problem,
    e: u64,
    tokens: &mut Numbered<S>,
) -> Result<(), KnownFault>
    requires first { tokens.old.place ≡ 0 }
    requires few { length (S.left tokens.old.source) < 2 ^ 64 }
    ensures least { OnOk result (NoneBefore problem.now.problem e) }
    ensures accepted { OnOk result (ProvesTokens problem.now.all (S.left tokens.old.source) problem.now.problem e) }
    ensures refused { IfErr result (λ f. OfTokens f (ProvesTokens problem.now.all (S.left tokens.old.source) problem.now.problem e → ⊥)) }
    ensures kind { IfErr result (IsTokenFault problem.now.all problem.now.problem e (S.left tokens.old.source) []) }
    ensures behind { S.behind tokens.new.source ≡ S.behind tokens.old.source }
    ensures counted { tokens.new.place + length (S.left tokens.new.source) ≡ length (S.left tokens.old.source) }
{
    let Ok(mut copy) = problem.copy(alloc) else {
        return Err(KnownFault::Cert(CertFault::Memory));
    };
    let mut known = Vec::new(alloc);
    read_whole(&mut copy, e, tokens, &mut known)?;
    Ok(())
}

// Checks by the tokens of a source that a schedule is legal, and ends no sooner than a number before which none ends: one
// that is given, or its own finish.
fn check_source<S: TokenSource<Token = Token>>(
    alloc: Global,
    problem: &Problem,
    schedule: &Schedule,
    below: Option<u64>,
    tokens: &mut Numbered<S>,
) -> Result<u64, KnownFault>
    requires first { tokens.old.place ≡ 0 }
    requires few { length (S.left tokens.old.source) < 2 ^ 64 }
    ensures legal { OnOk result (Legal problem.now.problem schedule.now) }
    ensures finish { IfOk result (λ e. finish problem.now.problem schedule.now ≡ e) }
    ensures below { IfOk result (λ e. unwrap_or below e ≤ e) }
    ensures least { IfOk result (λ e. NoneBefore problem.now.problem (unwrap_or below e)) }
    ensures accepted { IfOk result (λ e. ProvesTokens problem.now.all (S.left tokens.old.source) problem.now.problem (unwrap_or below e)) }
    ensures fault { IfErr result (IsKnownFault problem.now.all problem.now.problem schedule.now (unwrap_or below (finish problem.now.problem schedule.now)) (S.left tokens.old.source)) }
    ensures behind { S.behind tokens.new.source ≡ S.behind tokens.old.source }
    ensures counted { tokens.new.place + length (S.left tokens.new.source) ≡ length (S.left tokens.old.source) }
{
    if !legal(problem, schedule) {
        return Err(KnownFault::Cert(CertFault::Illegal));
    }
    let e = finish(problem, schedule);
    let below = below.unwrap_or(e);
    if below > e {
        return Err(KnownFault::Above);
    }
    match read_source(alloc, problem, below, tokens) {
        Ok(()) => Ok(e),
        Err(fault) => Err(fault),
    }
}

// A reader of the tokens of a text, with the option of its header, or None where it has no header.
fn open_text(text: &[u8]) -> Option<(bool, Numbered<Tokens>)>
    ensures text { IfSome result (λ r. IsReading text.now r.0 r.1.source 0 r.1.source) }
    ensures first { IfSome result (λ r. r.1.place ≡ 0) }
    ensures few { IfSome result (λ r. length r.1.source.tokens < 2 ^ 64) }
    ensures none { IfNone result (NoHeader text.now) }
{
    let _few = text.len();
    match header_of(text) {
        Some((strict, bytes)) => Some((strict, Numbered::of(Tokens::new(bytes)))),
        None => None,
    }
}

// Reads a text on to its end after a check of its tokens: whether it is a certificate with the option of the
// problem's rules, where `strict` is that of its header.
//
// # Errors
// `BadToken` where it is no certificate, else `Option`.
fn read_to_end(
    problem: &Problem,
    strict: bool,
    tokens: &mut Numbered<Tokens>,
) -> Result<(), TextFault<KnownFault, KnownTextFault>>
    requires few { tokens.old.place + length tokens.old.source.tokens < 2 ^ 64 }
    ensures ok { OnOk result ((text : List ℕ) (whole : Line OneToken) → IsReading text strict whole tokens.old.place tokens.old.source
        → IsCertificate text problem.now.problem.rules.strict whole.tokens) }
    ensures fault { IfErr result (λ f. (all : List Want) (s : AnySchedule) (below : ℕ) (text : List ℕ) (whole : Line OneToken)
        → IsReading text strict whole tokens.old.place tokens.old.source → IsTextFault all problem.now.problem s below text f) }
{
    tokens.read_on();
    if tokens.source.finish().is_err() {
        return Err(TextFault::Text(KnownTextFault::BadToken(tokens.place)));
    }
    if tokens.place == 0 {
        return Err(TextFault::Text(KnownTextFault::BadToken(0)));
    }
    if strict != problem.rules().strict {
        return Err(TextFault::Option);
    }
    Ok(())
}

// The same by the text of a certificate. No list of tokens is built.
fn check_text(
    alloc: Global,
    problem: &Problem,
    schedule: &Schedule,
    below: Option<u64>,
    text: &[u8],
) -> Result<u64, TextFault<KnownFault, KnownTextFault>>
    ensures legal { OnOk result (Legal problem.now.problem schedule.now) }
    ensures finish { IfOk result (λ e. finish problem.now.problem schedule.now ≡ e) }
    ensures below { IfOk result (λ e. unwrap_or below e ≤ e) }
    ensures least { IfOk result (λ e. NoneBefore problem.now.problem (unwrap_or below e)) }
    ensures accepted { IfOk result (λ e. (tokens : List OneToken) × IsCertificate text.now problem.now.problem.rules.strict tokens × ProvesTokens problem.now.all tokens problem.now.problem (unwrap_or below e)) }
    ensures fault { IfErr result (IsTextFault problem.now.all problem.now.problem schedule.now (unwrap_or below (finish problem.now.problem schedule.now)) text.now) }
{
    let Some((strict, mut tokens)) = open_text(text) else {
        return Err(TextFault::Text(KnownTextFault::Header));
    };
    let checked = check_source(alloc, problem, schedule, below, &mut tokens);
    read_to_end(problem, strict, &mut tokens)?;
    match checked {
        Ok(e) => Ok(e),
        Err(fault) => Err(TextFault::Cert(fault)),
    }
}

/// Checks by the text of a certificate that remembers states that no legal schedule of the problem ends sooner than this
/// one; returns when it ends, in ns. The tokens are read once, and no list of them is built; of each open node one record is
/// kept, at most 1,048,576, so who bounds the tokens bounds the memory.
///
/// # Errors
/// `Header` where the text begins with neither header line. Else `BadToken` where the text is no certificate, with the
/// place of the first word that is no token, or with the number of good tokens where the text doesn't end after them
/// with one LF. Else `Option` where its header names another option than the problem's rules have; so after another fault
/// the text is read on to its end. Else `Cert` with `Illegal` where the schedule isn't legal, else with `Memory` where the
/// memory for a copy of the problem or for the records was refused; else, only where the tokens aren't accepted, with
/// `Trailing` and the place after an accepted tree where one stands in front, or a fault of the kind of the token at its
/// place. Of several such faults the walk reports the first; no clause says which that is.
pub fn check_known_text(
    alloc: Global,
    problem: &Problem,
    schedule: &Schedule,
    text: &[u8],
) -> Result<u64, TextFault<KnownFault, KnownTextFault>>
    ensures optimal { IfOk result (λ e. Optimal problem.now.problem schedule.now × (finish problem.now.problem schedule.now ≡ e)) }
    ensures accepted { IfOk result (λ e. (tokens : List OneToken) × IsCertificate text.now problem.now.problem.rules.strict tokens × ProvesTokens problem.now.all tokens problem.now.problem e) }
    ensures illegal { OfCertificate text.now problem.now.problem ((result ≡ Err (TextFault.Cert (KnownFault.Cert CertFault.Illegal))) ↔ (Legal problem.now.problem schedule.now → ⊥)) }
    ensures fault { IfErr result (IsTextFault problem.now.all problem.now.problem schedule.now (finish problem.now.problem schedule.now) text.now) }
{
    check_text(alloc, problem, schedule, None, text)
}

/// Checks by the text of a certificate that remembers states that no legal schedule of the problem ends before `below` ns,
/// and that this one ends then or later; returns when it ends, in ns. So it is optimal where it ends then. Tokens that are
/// accepted for one number may be refused for another.
///
/// # Errors
/// As `check_known_text`, its tokens read for `below`; and `Cert` with `Above` where the schedule is legal and ends before.
pub fn check_known_within(
    alloc: Global,
    problem: &Problem,
    schedule: &Schedule,
    below: u64,
    text: &[u8],
) -> Result<u64, TextFault<KnownFault, KnownTextFault>>
    ensures legal { OnOk result (Legal problem.now.problem schedule.now) }
    ensures finish { IfOk result (λ e. finish problem.now.problem schedule.now ≡ e) }
    ensures below { IfOk result (λ e. below ≤ e) }
    ensures least { OnOk result (NoneBefore problem.now.problem below) }
    ensures optimal { IfOk result (λ e. below ≡ e → Optimal problem.now.problem schedule.now) }
    ensures accepted { OnOk result ((tokens : List OneToken) × IsCertificate text.now problem.now.problem.rules.strict tokens × ProvesTokens problem.now.all tokens problem.now.problem below) }
    ensures illegal { OfCertificate text.now problem.now.problem ((result ≡ Err (TextFault.Cert (KnownFault.Cert CertFault.Illegal))) ↔ (Legal problem.now.problem schedule.now → ⊥)) }
    ensures above { OfCertificate text.now problem.now.problem ((result ≡ Err (TextFault.Cert KnownFault.Above)) ↔ EndsBefore problem.now.problem schedule.now below) }
    ensures fault { IfErr result (IsTextFault problem.now.all problem.now.problem schedule.now below text.now) }
{
    check_text(alloc, problem, schedule, Some(below), text)
}
