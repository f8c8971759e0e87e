//! A list of tokens as a source.
ghost use Rattle.std.specs.Prelude.{◌≡◌};

use crate::source::TokenSource;
use std::marker::Model;

/// The tokens of a list, from the front on. Contracts see the list of those that are left.
#[derive(Drop)]
pub struct TokenList<'a, T> {
    rest: &'a [T],
}

impl<'a, T> Model for TokenList<'a, T> {
    ghost use Rattle.std.specs.Prelude.{List};

    ghost Value = { List T };

    ghost view = { λ l. l.rest.now };
}

impl<'a, T> TokenList<'a, T> {
    /// All tokens of the list.
    pub fn new(tokens: &'a [T]) -> TokenList<'a, T>
        ensures { result ≡ tokens.now }
    {
        TokenList { rest: tokens }
    }
}

impl<'a, T: Copy> TokenSource for TokenList<'a, T> {
    type Token = T;

    ghost Behind = { Unit {0} };

    ghost left = { λ l. l };

    ghost behind = { λ l. tt };

    fn next(&mut self) -> Option<T> {
        match self.rest {
            [token, rest @ ..] => {
                self.rest = rest;
                Some(*token)
            }
            [] => None,
        }
    }
}
