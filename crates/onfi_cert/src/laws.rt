//! What the spelling of certificates promises as a whole.
ghost use Rattle.std.specs.Prelude.{◌≡◌, ◌⊎◌, ◌≤◌, ℕ, Bool, List, All, length, Result};
ghost use Rattle.onfi_cert.specs.declared.token.Token.{Token};
ghost use Rattle.onfi_cert.specs.declared.fault.CertTextFault.{CertTextFault};
ghost use Rattle.onfi_cert.specs.Reading.{IsFaultOf, Reads};
ghost use Rattle.onfi_cert.specs.Text.{InRange, IsCertificate, text_of};

use crate::limits::MOST_TOKENS;

/// What `write` makes of an option and tokens, `read` takes for these and nothing else, unless memory runs out.
pub fn read_back()
    ensures { (strict : Bool) (tokens : List Token) → All InRange tokens → length tokens ≤ MOST_TOKENS
        → (answer : Result (Bool × List Token) CertTextFault) → Reads (text_of strict tokens) answer
        → (answer ≡ Ok (strict, tokens)) ⊎ (answer ≡ Err CertTextFault.Memory) }
{}

/// A text is that of one option and one list of tokens, or it has one fault, and not both.
pub fn one_reading()
    ensures tokens { (text : List ℕ) (s r : Bool) (ts us : List Token) → IsCertificate text s ts
        → IsCertificate text r us → (s ≡ r) × (ts ≡ us) }
    ensures either { (text : List ℕ) (strict : Bool) (tokens : List Token) (e : CertTextFault)
        → IsCertificate text strict tokens → IsFaultOf text e → ⊥ }
    ensures fault { (text : List ℕ) (e f : CertTextFault) → IsFaultOf text e → IsFaultOf text f → e ≡ f }
{}
