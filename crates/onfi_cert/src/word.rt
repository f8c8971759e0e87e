//! From a word to its token.
ghost use Rattle.std.specs.Prelude.{◌≡◌, ◌≤◌, length};
ghost use Rattle.std.specs.List.{position_or_len};
ghost use Rattle.onfi_cert.specs.Word.{behind_word, is_separator, letter_token, lun_at, narrow, numbered, token_of, wide, word};

use crate::lun_number::LunNumber;
use crate::token::Token;
use crate::width::Width;

fn letter_token(letter: u8) -> Option<Token>
    ensures { result ≡ letter_token letter }
{
    match letter {
        b'U' => Some(Token::Bus),
        b'L' => Some(Token::Lead),
        b'T' => Some(Token::Trail),
        b'X' => Some(Token::End),
        _ => None,
    }
}

fn lun_at(digit: u8) -> Option<LunNumber>
    ensures { result ≡ lun_at digit }
{
    if digit < b'0' || digit > b'7' {
        return None;
    }
    Some(LunNumber::of(digit - b'0'))
}

fn narrow(digit: u8) -> Option<Token>
    ensures { result ≡ narrow digit }
{
    if digit < b'1' || digit > b'9' {
        return None;
    }
    Some(Token::Branch(Width::of(digit - b'0')))
}

fn wide(tens: u8, ones: u8) -> Option<Token>
    ensures { result ≡ wide tens ones }
{
    if tens < b'1' || tens > b'9' || ones < b'0' || ones > b'9' {
        return None;
    }
    Some(Token::Branch(Width::of((tens - b'0') * 10 + (ones - b'0'))))
}

fn read_numbered(letter: u8, digit: u8) -> Option<Token>
    ensures { result ≡ numbered letter digit }
{
    match letter {
        b'B' => narrow(digit),
        b'D' => lun_at(digit).map(Token::Die),
        b'Y' => lun_at(digit).map(Token::Yield),
        _ => None,
    }
}

/// The token that a word spells.
pub fn token_of(word: &[u8]) -> Option<Token>
    ensures { result ≡ token_of word.now }
{
    match word {
        [letter] => letter_token(*letter),
        [letter, digit] => read_numbered(*letter, *digit),
        [b'B', tens, ones] => wide(*tens, *ones),
        _ => None,
    }
}

fn is_separator(b: u8) -> bool
    ensures { result ≡ is_separator b }
{
    b == b' ' || b == b'\n'
}

fn word_len(text: &[u8]) -> usize
    ensures value { result ≡ position_or_len is_separator text.now }
    ensures within { result ≤ length text.now }
{
    for (len, b) in text.iter().enumerate() {
        if is_separator(*b) {
            return len;
        }
    }
    text.len()
}

/// The bytes up to the next space or LF, and what follows them.
pub fn cut_word(text: &[u8]) -> (&[u8], &[u8])
    ensures word { result.0.now ≡ word text.now }
    ensures behind { result.1.now ≡ behind_word text.now }
{
    text.split_at(word_len(text))
}
