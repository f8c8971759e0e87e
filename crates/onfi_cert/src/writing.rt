//! From tokens to text.
ghost use Rattle.std.specs.Prelude.{◌≡◌, ◌<◌, ◌⊎◌, ◌↔◌, ◌++◌, All, length, IfOk, IfErr, OnOk};
ghost use Rattle.onfi_cert.specs.Text.{IsCertificate, line_of, number};

use crate::fault::CertTextFault;
use crate::header::header;
use crate::limits::MOST_TOKENS;
use crate::spelled::Spelled;
use crate::token::Token;
use crate::width::Width;
use crate::word::token_of;
use std::alloc::{AllocError, Global};

fn put_width(out: &mut Vec<u8>, width: Width) -> Result<(), AllocError>
    ensures { OnOk result (out.new.items ≡ out.old.items ++ number width) }
{
    let number = width.get();
    if number < 10 {
        out.extend_from_slice(&[b'0' + number])
    } else {
        out.extend_from_slice(&[b'0' + number / 10, b'0' + number % 10])
    }
}

impl Spelled for Token {
    ghost use Rattle.onfi_cert.specs.Text.{InRange, spelling as spelling_of};
    ghost use Rattle.onfi_cert.specs.Word.{token_of as token_of_word};
    ghost use Rattle.onfi_cert.specs.declared.limits.TheConstants.{MOST_TOKENS};
    ghost use Rattle.std.proofs.Common.{lit<};

    const MOST: usize = MOST_TOKENS as usize;

    ghost MOST = { MOST_TOKENS };

    ghost spelling = { spelling_of };

    ghost token_of = { token_of_word };

    ghost Kept = { InRange };

    ghost fits = { lit< tt };

    fn put(self, out: &mut Vec<u8>) -> Result<(), AllocError> {
        match self {
            Token::Branch(width) => {
                out.push(b'B')?;
                put_width(out, width)
            }
            Token::Bus => out.extend_from_slice(b"U"),
            Token::Lead => out.extend_from_slice(b"L"),
            Token::Trail => out.extend_from_slice(b"T"),
            Token::Die(lun) => out.extend_from_slice(&[b'D', b'0' + lun.get()]),
            Token::Yield(lun) => out.extend_from_slice(&[b'Y', b'0' + lun.get()]),
            Token::End => out.extend_from_slice(b"X"),
        }
    }

    fn token_of(word: &[u8]) -> Option<Token> {
        token_of(word)
    }
}

// Appends the line of the tokens.
fn put_line<T: Spelled>(out: &mut Vec<u8>, tokens: &[T]) -> Result<(), AllocError>
    ensures spelled { OnOk result (out.new.items ≡ out.old.items ++ line_of T.spelling tokens.now) }
    ensures kept { OnOk result (All T.Kept tokens.now) }
{
    for (at, token) in tokens.iter().enumerate() {
        if at > 0 {
            out.push(b' ')?;
        }
        token.put(out)?;
    }
    out.push(b'\n')?;
    Ok(())
}

/// A header line, and after it the tokens with a space between each two and LF at their end.
///
/// # Errors
/// Only where memory was refused.
pub fn text_after<T: Spelled>(
    alloc: Global,
    header: &[u8],
    tokens: &[T],
) -> Result<Vec<u8>, AllocError>
    ensures spelled { IfOk result (λ text. text.items ≡ header.now ++ line_of T.spelling tokens.now) }
    ensures kept { OnOk result (All T.Kept tokens.now) }
{
    let mut out = Vec::new(alloc);
    out.extend_from_slice(header)?;
    put_line(&mut out, tokens)?;
    Ok(out)
}

/// The one text of the tokens under this option.
///
/// # Errors
/// `TooLong` exactly where there are more than 100,000,000 tokens; `Memory` where a growth was refused.
pub fn write(alloc: Global, strict: bool, tokens: &[Token]) -> Result<Vec<u8>, CertTextFault>
    ensures text { IfOk result (λ text. IsCertificate text.items strict tokens.now) }
    ensures too_long { (result ≡ Err CertTextFault.TooLong) ↔ (MOST_TOKENS < length tokens.now) }
    ensures else_memory { IfErr result (λ e. (e ≡ CertTextFault.TooLong) ⊎ (e ≡ CertTextFault.Memory)) }
{
    if tokens.len() > MOST_TOKENS as usize {
        return Err(CertTextFault::TooLong);
    }
    match text_after(alloc, header(strict), tokens) {
        Ok(text) => Ok(text),
        Err(_) => Err(CertTextFault::Memory),
    }
}
