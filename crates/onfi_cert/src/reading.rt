//! From text to tokens.
ghost use Rattle.std.specs.Prelude.{◌≡◌, ◌⊎◌, Bool, List, IfOk, IfErr, MatchResult};
ghost use Rattle.onfi_cert.specs.declared.token.Token.{Token as TokenAsSpec};
ghost use Rattle.onfi_cert.specs.Reading.{IsFaultOf};
ghost use Rattle.onfi_cert.specs.Text.{IsCertificate};

use crate::fault::CertTextFault;
use crate::token::Token;
use crate::tokens::Tokens;
use std::alloc::Global;

/// The option and the tokens, taken from the text one by one.
fn take_tokens(alloc: Global, text: &[u8]) -> Result<(bool, Vec<Token>), CertTextFault>
    ensures tokens { IfOk result (λ r. IsCertificate text.now r.0 r.1.items) }
    ensures fault { IfErr result (λ e. (e ≡ CertTextFault.Memory) ⊎ IsFaultOf text.now e) }
{
    let mut source = Tokens::new(text)?;
    let mut tokens = Vec::new(alloc);
    while let Some(token) = source.next()? {
        if tokens.push(token).is_err() {
            return Err(CertTextFault::Memory);
        }
    }
    Ok((source.strict(), tokens))
}

/// The option of the header and the tokens of a text.
///
/// # Errors
/// `Header` where the text begins with neither header line; `BadToken` with the place, counted from 0, at which no
/// token stands, or with the number of good tokens where the text does not end after them with one LF; `TooLong` where
/// a space follows the 100,000,000th good token; `Memory` where a growth was refused.
pub fn read(alloc: Global, text: &[u8]) -> Result<(bool, Vec<Token>), CertTextFault>
    ensures tokens { IfOk result (λ r. IsCertificate text.now r.0 r.1.items) }
    ensures fault { IfErr result (λ e. (e ≡ CertTextFault.Memory) ⊎ IsFaultOf text.now e) }

    // What was written is read again, unless memory runs out.
    ensures again { (strict : Bool) (tokens : List TokenAsSpec) → IsCertificate text.now strict tokens
        → MatchResult result (λ r. (r.0 ≡ strict) × (r.1.items ≡ tokens)) (λ e. e ≡ CertTextFault.Memory) }
{
    take_tokens(alloc, text)
}
