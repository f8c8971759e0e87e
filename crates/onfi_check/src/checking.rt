ghost use Rattle.std.specs.Prelude.{◌≡◌, ◌<◌, ◌^◌, ◌↔◌, IfOk, IfErr, List, length};
ghost use Rattle.onfi_cert.specs.declared.token.Token.{Token as OneToken};
ghost use Rattle.onfi_cert.specs.Text.{IsCertificate};
ghost use Rattle.onfi_schedule.specs.Schedule.{Legal, Optimal, finish};
ghost use Rattle.onfi_check.specs.Faults.{IsCertFault, IsTextFault};
ghost use Rattle.onfi_check.specs.Tree.{AcceptsTokens};

use crate::fault::{CertFault, TextFault};
use crate::walk::read_whole;
use onfi_cert::{Numbered, Token, TokenList, TokenSource, Tokens};
use onfi_problem::Problem;
use onfi_schedule::{Schedule, finish, legal};
use std::alloc::Global;

// Checks a schedule by the tokens of a source.
fn check_source<S: TokenSource<Token = Token>>(
    alloc: Global,
    problem: &Problem,
    schedule: &Schedule,
    tokens: &mut Numbered<S>,
) -> Result<u64, CertFault>
    requires first { tokens.old.place ≡ 0 }
    requires few { length (S.left tokens.old.source) < 2 ^ 64 }
    ensures optimal { IfOk result (λ e. Optimal problem.now.problem schedule.now × (finish problem.now.problem schedule.now ≡ e)) }
    ensures accepted { IfOk result (λ e. AcceptsTokens (S.left tokens.old.source) problem.now.problem e) }
    ensures behind { S.behind tokens.new.source ≡ S.behind tokens.old.source }
    ensures fault { IfErr result (IsCertFault problem.now.problem schedule.now (S.left tokens.old.source)) }
{
    if !legal(problem, schedule) {
        return Err(CertFault::Illegal);
    }
    let Ok(mut copy) = problem.copy(alloc) else {
        return Err(CertFault::Memory);
    };
    let e = finish(problem, schedule);
    read_whole(&mut copy, e, tokens)?;
    Ok(e)
}

/// Checks by a certificate that no legal schedule of the problem ends sooner than this one; returns when it ends, in
/// ns.
///
/// # Errors
/// `Illegal` exactly where the schedule isn't legal. Else `Memory` where the memory for a copy of the problem was
/// refused. Else `Trailing` with the place after an accepted tree where one stands in front. Else `Short`, or a fault
/// of the kind of the token at its place: `Width` of a branch, `BoundLow` of a bound, `YieldLoop` or `YieldNoFit` of a
/// yield, `NotEnd` of an end. Of several such faults the walk reports the first; no clause says which that is.
pub fn check(
    alloc: Global,
    problem: &Problem,
    schedule: &Schedule,
    tokens: &[Token],
) -> Result<u64, CertFault>
    ensures optimal { IfOk result (λ e. Optimal problem.now.problem schedule.now × (finish problem.now.problem schedule.now ≡ e)) }
    ensures accepted { IfOk result (λ e. AcceptsTokens tokens.now problem.now.problem e) }
    ensures illegal { (result ≡ Err CertFault.Illegal) ↔ (Legal problem.now.problem schedule.now → ⊥) }
    ensures fault { IfErr result (IsCertFault problem.now.problem schedule.now tokens.now) }
{
    let _few = tokens.len();
    let mut tokens = Numbered::of(TokenList::new(tokens));
    check_source(alloc, problem, schedule, &mut tokens)
}

/// The same by the text of a certificate, which is read once: a fault of the text is reported before all others, so after
/// another fault the text is read on to its end. No list of tokens is built.
///
/// # Errors
/// `Text` where the text is no certificate, with its fault, never `Memory`. Else `Option` where its header names
/// another option than the problem's rules have. Else `Cert` with what `check` says of its tokens.
pub fn check_text(
    alloc: Global,
    problem: &Problem,
    schedule: &Schedule,
    text: &[u8],
) -> Result<u64, TextFault>
    ensures optimal { IfOk result (λ e. Optimal problem.now.problem schedule.now × (finish problem.now.problem schedule.now ≡ e)) }
    ensures accepted { IfOk result (λ e. (tokens : List OneToken) × IsCertificate text.now problem.now.problem.rules.strict tokens × AcceptsTokens tokens problem.now.problem e) }
    ensures fault { IfErr result (IsTextFault problem.now.problem schedule.now text.now) }
{
    let source = match Tokens::new(text) {
        Ok(source) => source,
        Err(fault) => return Err(TextFault::Text(fault)),
    };
    let strict = source.strict();
    let mut tokens = Numbered::of(source);
    let checked = check_source(alloc, problem, schedule, &mut tokens);
    if let Err(fault) = tokens.source.finish() {
        return Err(TextFault::Text(fault));
    }
    if strict != problem.rules().strict {
        return Err(TextFault::Option);
    }
    match checked {
        Ok(e) => Ok(e),
        Err(fault) => Err(TextFault::Cert(fault)),
    }
}
