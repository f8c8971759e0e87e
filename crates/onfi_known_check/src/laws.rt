//! What certificates that remember states show, once for all.

ghost use Rattle.std.specs.Prelude.{◌≡◌, ◌≤◌, ℕ, List};
ghost use Rattle.onfi_request.specs.declared.want.Want.{Want};
ghost use Rattle.onfi_problem.specs.Problem.{Problem};
ghost use Rattle.onfi_schedule.specs.Schedule.{Schedule, Legal, finish};
ghost use Rattle.onfi_known_check.specs.declared.token.Token.{Token};
ghost use Rattle.onfi_known_check.specs.Faults.{IsKnownFault, IsTextFault};
ghost use Rattle.onfi_known_check.specs.Laws.{BelowLaw, ProvedLaw};
ghost use Rattle.onfi_known_check.specs.Proves.{ProvesTokens};
ghost use Rattle.onfi_known_check.specs.Text.{IsCertificate};

use crate::fault::{KnownFault, KnownTextFault};
use onfi_check::{CertFault, TextFault};

/// A legal schedule is optimal where tokens are accepted for its finish.
pub fn proved_is_optimal()
    ensures { ProvedLaw }
{}

/// No legal schedule ends before a number that tokens are accepted for, whether or not one ends then.
pub fn proved_is_below()
    ensures { BelowLaw }
{}

/// A legal schedule that ends at a number or later, with tokens that are accepted for it, is refused for no cause but
/// memory, and so is the text of these tokens under the problem's option.
pub fn accepted_is_refused_for_memory_alone()
    ensures tokens { (all : List Want) (p : Problem) (s : Schedule) (below : ℕ) (tokens : List Token) (fault : KnownFault)
        → Legal p s → below ≤ finish p s → ProvesTokens all tokens p below → IsKnownFault all p s below tokens fault
        → fault ≡ KnownFault.Cert CertFault.Memory }
    ensures text { (all : List Want) (p : Problem) (s : Schedule) (below : ℕ) (text : List ℕ) (tokens : List Token) (fault : TextFault KnownFault KnownTextFault)
        → IsCertificate text p.rules.strict tokens → Legal p s → below ≤ finish p s → ProvesTokens all tokens p below
        → IsTextFault all p s below text fault → fault ≡ TextFault.Cert (KnownFault.Cert CertFault.Memory) }
{}
