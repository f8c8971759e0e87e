//! From a line to its next token.
ghost use Rattle.std.specs.Prelude.{◌≡◌, ◌<◌, ◌∷◌, IfOk, IfErr, IsSome, option_map};
ghost use Rattle.std.specs.Result.{result_map_both};
ghost use Rattle.onfi_cert.specs.Ahead.{IsUpTo, from, step};
ghost use Rattle.onfi_cert.specs.Reading.{led};

use crate::fault::LineFault;
use crate::spelled::Spelled;
use crate::word::cut_word;

/// The token after `place` others, after the space in front of it, and what follows it.
// Inlined, so that the rest of the text stays in registers: a text is read twice as fast.
#[inline(always)]
fn token_in<T: Spelled>(place: usize, text: &[u8]) -> Result<Option<(T, &[u8])>, LineFault>
    ensures exact { result_map_both (option_map (λ p. (p.0, p.1.now))) (λ e. e) result ≡ step T.token_of T.MOST place (32 ∷ text.now) }
    ensures room { IfOk result (λ found. IsSome found → place < T.MOST) }
    ensures place { IfErr result (IsUpTo place) }
{
    if place >= T::MOST {
        return Err(LineFault::TooLong);
    }
    let (word, rest) = cut_word(text);
    match T::token_of(word) {
        Some(token) => Ok(Some((token, rest))),
        None => Err(LineFault::BadToken(place)),
    }
}

/// The first token of a line.
fn first<T: Spelled>(line: &[u8]) -> Result<Option<(T, &[u8])>, LineFault>
    ensures exact { result_map_both (option_map (λ p. (p.0, p.1.now))) (λ e. e) result ≡ step T.token_of T.MOST 0 (led line.now) }
    ensures room { IfOk result (λ found. IsSome found → 0 < T.MOST) }
    ensures place { IfErr result (IsUpTo 0) }
{
    if let [b'\n'] = line {
        return Ok(None);
    }
    token_in(0, line)
}

/// The token after `place` others, where the line goes on with the space between them.
fn read_following<T: Spelled>(place: usize, rest: &[u8]) -> Result<Option<(T, &[u8])>, LineFault>
    ensures exact { result_map_both (option_map (λ p. (p.0, p.1.now))) (λ e. e) result ≡ step T.token_of T.MOST place rest.now }
    ensures room { IfOk result (λ found. IsSome found → place < T.MOST) }
    ensures place { IfErr result (IsUpTo place) }
{
    match rest {
        [b'\n'] => Ok(None),
        [b' ', more @ ..] => token_in(place, more),
        _ => Err(LineFault::BadToken(place)),
    }
}

/// The token after `place` others and what follows it, or None at the end of the line.
pub(crate) fn step<T: Spelled>(place: usize, rest: &[u8]) -> Result<Option<(T, &[u8])>, LineFault>
    ensures exact { result_map_both (option_map (λ p. (p.0, p.1.now))) (λ e. e) result ≡ step T.token_of T.MOST place (from place rest.now) }
    ensures room { IfOk result (λ found. IsSome found → place < T.MOST) }
    ensures place { IfErr result (IsUpTo place) }
{
    if place == 0 {
        first(rest)
    } else {
        read_following(place, rest)
    }
}
