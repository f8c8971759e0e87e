//! What certificates show, once for all.

ghost use Rattle.std.specs.Prelude.{◌≡◌, ℕ, List};
ghost use Rattle.onfi_cert.specs.declared.token.Token.{Token};
ghost use Rattle.onfi_cert.specs.Text.{IsCertificate};
ghost use Rattle.onfi_problem.specs.Problem.{Problem, IsProblem};
ghost use Rattle.onfi_schedule.specs.Schedule.{Schedule, Legal, Optimal, finish};
ghost use Rattle.onfi_check.specs.Faults.{IsCertFault, IsTextFault};
ghost use Rattle.onfi_check.specs.Tree.{Tree, Accepts, AcceptsTokens};

use crate::fault::{CertFault, TextFault};
use onfi_cert::CertTextFault;

/// A legal schedule is optimal where a tree is accepted for its finish.
pub fn accepted_is_optimal()
    ensures { (p : Problem) (s : Schedule) (tree : Tree) → IsProblem p → Legal p s → Accepts tree p (finish p s) → Optimal p s }
{}

/// A legal schedule with tokens that are accepted for its finish is refused for no cause but memory, and so is the
/// text of these tokens under the problem's option.
pub fn accepted_is_refused_for_memory_alone()
    ensures tokens { (p : Problem) (s : Schedule) (tokens : List Token) (fault : CertFault) → Legal p s
        → AcceptsTokens tokens p (finish p s) → IsCertFault p s tokens fault → fault ≡ CertFault.Memory }
    ensures text { (p : Problem) (s : Schedule) (text : List ℕ) (tokens : List Token) (fault : TextFault CertFault CertTextFault)
        → IsCertificate text p.rules.strict tokens → Legal p s → AcceptsTokens tokens p (finish p s)
        → IsTextFault p s text fault → fault ≡ TextFault.Cert CertFault.Memory }
{}
