//! From tokens to text.
ghost use Rattle.std.specs.Prelude.{◌≡◌, ◌++◌, IfOk, OnOk, decimal};
ghost use Rattle.onfi_known_check.specs.Text.{header, line};

use crate::header::header;
use crate::token::Token;
use crate::word::token_of;
use itoa::Buffer;
use onfi_cert::{Spelled, Token as PlainToken, text_after};
use std::alloc::{AllocError, Global};

// Appends a letter and a number.
fn put_number(out: &mut Vec<u8>, letter: &[u8], number: u64) -> Result<(), AllocError>
    ensures { OnOk result (out.new.items ≡ out.old.items ++ (letter.now ++ decimal number)) }
{
    let mut buffer = Buffer::new();
    out.extend_from_slice(letter)?;
    out.extend_from_slice(buffer.format(number).as_bytes())
}

impl Spelled for Token {
    ghost use Rattle.std.proofs.Common.{lit<};
    ghost use Rattle.onfi_known_check.specs.Text.{MOST, spelling as spelling_of};
    ghost use Rattle.onfi_known_check.specs.Word.{token_of as token_of_word};

    const MOST: usize = usize::MAX;

    ghost MOST = { MOST };

    ghost spelling = { spelling_of };

    ghost token_of = { token_of_word };

    ghost fits = { lit< tt };

    fn put(self, out: &mut Vec<u8>) -> Result<(), AllocError> {
        match self {
            Token::Branch(width) => PlainToken::Branch(width).put(out),
            Token::Bus => PlainToken::Bus.put(out),
            Token::Lead => PlainToken::Lead.put(out),
            Token::Trail => PlainToken::Trail.put(out),
            Token::Die(lun) => PlainToken::Die(lun).put(out),
            Token::Yield(lun) => PlainToken::Yield(lun).put(out),
            Token::End => PlainToken::End.put(out),
            Token::Window { start, tail } => {
                put_number(out, b"W", start)?;
                put_number(out, b",", tail)
            }
            Token::Again(number) => put_number(out, b"R", number as u64),
        }
    }

    fn token_of(word: &[u8]) -> Option<Token> {
        token_of(word)
    }
}

/// The text of tokens under this option.
///
/// # Errors
/// Only where memory was refused.
pub fn text_of(alloc: Global, strict: bool, tokens: &[Token]) -> Result<Vec<u8>, AllocError>
    ensures { IfOk result (λ text. text.items ≡ header strict ++ line tokens.now) }
{
    text_after(alloc, header(strict), tokens)
}
