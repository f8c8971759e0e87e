//! A reader of a line of tokens.
ghost use Rattle.std.specs.Prelude.{◌≡◌, None, Some, IfErr, OnOk};
ghost use Rattle.onfi_cert.specs.Ahead.{IsUpTo, ahead_of, later, next_of};

use crate::fault::LineFault;
use crate::source::TokenSource;
use crate::spelled::Spelled;
use crate::step::step;
use std::marker::{Model, PhantomData};

/// A reader that gives the tokens after a header one by one, without memory.
///
/// Contracts see what is still ahead: the good tokens, and the end or the fault after them.
#[derive(Drop)]
pub struct LineTokens<'a, T: Spelled> {
    place: usize,
    /// What follows the tokens that were given: the space in front of the next one, or LF.
    rest: &'a [u8],
    kind: PhantomData<T>,
}

impl<'a, T: Spelled> Model for LineTokens<'a, T> {
    ghost use Rattle.std.specs.Prelude.{◌≤◌};
    ghost use Rattle.onfi_cert.specs.Reading.{Line};
    ghost use Rattle.onfi_cert.specs.Ahead.{ahead_of};

    ghost Value = { Line T };

    ghost view = { λ t. ahead_of T.token_of T.MOST t.place t.rest.now };

    ghost invariant = { λ t. t.place ≤ T.MOST };
}

impl<'a, T: Spelled> LineTokens<'a, T> {
    /// A reader that stands before the first token of these bytes.
    pub fn new(bytes: &'a [u8]) -> LineTokens<'a, T>
        ensures { result ≡ ahead_of T.token_of T.MOST 0 bytes.now }
    {
        LineTokens {
            place: 0,
            rest: bytes,
            kind: PhantomData,
        }
    }

    /// The next token, or None where the line ends well.
    ///
    /// # Errors
    /// `BadToken` with the number of tokens in front, or `TooLong`. At its end and at a fault the reader stays where
    /// it is.
    pub fn next(&mut self) -> Result<Option<T>, LineFault>
        ensures given { result ≡ next_of self.old }
        ensures left { self.new ≡ later self.old }
        ensures place { IfErr result (IsUpTo T.MOST) }
    {
        match step(self.place, self.rest) {
            Ok(Some((token, rest))) => {
                self.place += 1;
                self.rest = rest;
                Ok(Some(token))
            }
            Ok(None) => Ok(None),
            Err(fault) => Err(fault),
        }
    }

    /// Reads on to the end of the line.
    ///
    /// # Errors
    /// The fault after the tokens that are left.
    pub fn finish(&mut self) -> Result<(), LineFault>
        ensures ok { OnOk result (self.old.fault ≡ None) }
        ensures err { IfErr result (λ e. self.old.fault ≡ Some e) }
        ensures place { IfErr result (IsUpTo T.MOST) }
    {
        while let Some(_) = self.next()? {}
        Ok(())
    }
}

impl<'a, T: Spelled> TokenSource for LineTokens<'a, T> {
    ghost use Rattle.std.specs.Prelude.{Option};
    ghost use Rattle.onfi_cert.specs.declared.fault.LineFault.{LineFault};

    type Token = T;

    ghost Behind = { Option LineFault };

    ghost left = { λ t. t.tokens };

    ghost behind = { λ t. t.fault };

    /// The next good token; None at the end of the line and at its fault, which `finish` reports.
    fn next(&mut self) -> Option<T> {
        LineTokens::next(self).unwrap_or(None)
    }
}
