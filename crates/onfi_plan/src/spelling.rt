//! Certificates as texts.

ghost use Rattle.std.specs.Prelude.{IfOk};
ghost use Rattle.onfi_plan.specs.Certificate.{IsSpelled};

use crate::plan::Certificate;
use onfi_cert::write;
use std::alloc::{AllocError, Global};

/// The text of a certificate, under the strict option or not.
///
/// # Errors
/// Only where memory was refused.
pub fn certificate_text(
    alloc: Global,
    strict: bool,
    certificate: Certificate,
) -> Result<Vec<u8>, AllocError>
    ensures { IfOk result (λ own. IsSpelled strict certificate own.items) }
{
    let tokens = match certificate {
        Certificate::Text(text) => return Ok(text),
        Certificate::Tokens(tokens) => tokens,
    };
    match write(alloc, strict, tokens.as_slice()) {
        Ok(text) => Ok(text),
        Err(_) => Err(AllocError),
    }
}
