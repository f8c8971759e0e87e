//! From a word to its token.
ghost use Rattle.std.specs.Prelude.{◌≡◌, ◌<◌, ◌==◌, IfSome, position, length};
ghost use Rattle.onfi_known_check.specs.Word.{of_plain, again_token, window_token, token_of};

use crate::token::{MOST_KNOWN, Token};
use onfi_cert::{Token as PlainToken, token_of as plain_token_of};
use onfi_timing::read_written;

fn read_again_token(text: &[u8]) -> Option<Token>
    ensures { result ≡ again_token text.now }
{
    let n = read_written(text)?;
    if n < u64::from(MOST_KNOWN) {
        Some(Token::Again(n as u32))
    } else {
        None
    }
}

// A token of a plain certificate.
fn of_plain(token: PlainToken) -> Token
    ensures { result ≡ of_plain token }
{
    match token {
        PlainToken::Branch(width) => Token::Branch(width),
        PlainToken::Bus => Token::Bus,
        PlainToken::Lead => Token::Lead,
        PlainToken::Trail => Token::Trail,
        PlainToken::Die(lun) => Token::Die(lun),
        PlainToken::Yield(lun) => Token::Yield(lun),
        PlainToken::End => Token::End,
    }
}

// The place of the first comma.
fn comma(text: &[u8]) -> Option<usize>
    ensures value { result ≡ position (λ b. b == 44) text.now }
    ensures within { IfSome result (λ at. at < length text.now) }
{
    text.iter().position(|b| *b == b',')
}

fn window_token(text: &[u8]) -> Option<Token>
    ensures { result ≡ window_token text.now }
{
    let at = comma(text)?;
    let start = read_written(&text[..at])?;
    let tail = read_written(&text[at + 1..])?;
    Some(Token::Window { start, tail })
}

/// The token that a word spells.
pub(crate) fn token_of(word: &[u8]) -> Option<Token>
    ensures { result ≡ token_of word.now }
{
    match word {
        [b'W', more @ ..] => window_token(more),
        [b'R', more @ ..] => read_again_token(more),
        _ => Some(of_plain(plain_token_of(word)?)),
    }
}
