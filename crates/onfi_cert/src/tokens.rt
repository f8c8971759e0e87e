//! A reader of the text of a certificate.
ghost use Rattle.std.specs.Prelude.{◌≡◌, None, Some, IfOk, IfErr, OnOk, option_map};
ghost use Rattle.std.specs.Result.{result_map_both};
ghost use Rattle.onfi_cert.specs.Ahead.{IsUpTo, later, next_of};
ghost use Rattle.onfi_cert.specs.Reading.{Holds, NoHeader, cert_fault};

use crate::fault::{CertTextFault, LineFault};
use crate::header::header_of;
use crate::limits::MOST_TOKENS;
use crate::line_tokens::LineTokens;
use crate::source::TokenSource;
use crate::token::Token;

/// A reader that gives the tokens of a text one by one, without memory.
#[derive(Drop)]
pub struct Tokens<'a> {
    /// The option of the header.
    pub strict: bool,
    /// What is ahead: the good tokens, and the end or the fault after them.
    pub line: LineTokens<'a, Token>,
}

// The fault of a text, from that of the line after its header.
fn cert_fault(fault: LineFault) -> CertTextFault
    requires { IsUpTo MOST_TOKENS fault }
    ensures { result ≡ cert_fault fault }
{
    match fault {
        LineFault::BadToken(place) => CertTextFault::BadToken(place as u32),
        LineFault::TooLong => CertTextFault::TooLong,
    }
}

impl<'a> Tokens<'a> {
    /// A reader that stands before the first token of the text.
    ///
    /// # Errors
    /// `Header` exactly where the text begins with neither header line. Faults after the header are reported by `next`.
    pub fn new(text: &'a [u8]) -> Result<Tokens<'a>, CertTextFault>
        ensures ok { IfOk result (λ tokens. Holds text.now tokens.strict tokens.line) }
        ensures err { IfErr result (λ e. (e ≡ CertTextFault.Header) × NoHeader text.now) }
    {
        match header_of(text) {
            Some((strict, bytes)) => Ok(Tokens {
                strict,
                line: LineTokens::new(bytes),
            }),
            None => Err(CertTextFault::Header),
        }
    }

    /// Whether the header names the strict option.
    pub fn strict(&self) -> bool
        ensures { result ≡ self.now.strict }
    {
        self.strict
    }

    /// The next token, or None where the text ends well.
    ///
    /// # Errors
    /// What `read` returns for this text, after the tokens in front of the fault: `BadToken` with the number of these
    /// tokens, or `TooLong`. At its end and at a fault the reader stays where it is.
    pub fn next(&mut self) -> Result<Option<Token>, CertTextFault>
        ensures given { result ≡ result_map_both (λ token. token) cert_fault (next_of self.old.line) }
        ensures left { self.new.line ≡ later self.old.line }
        ensures strict { self.new.strict ≡ self.old.strict }
    {
        match self.line.next() {
            Ok(token) => Ok(token),
            Err(fault) => Err(cert_fault(fault)),
        }
    }

    /// Reads on to the end of the text.
    ///
    /// # Errors
    /// The fault of the text after the tokens that are left: `BadToken` or `TooLong`.
    pub fn finish(&mut self) -> Result<(), CertTextFault>
        ensures ok { OnOk result (self.old.line.fault ≡ None) }
        ensures err { IfErr result (λ e. option_map cert_fault self.old.line.fault ≡ Some e) }
    {
        match self.line.finish() {
            Ok(()) => Ok(()),
            Err(fault) => Err(cert_fault(fault)),
        }
    }
}

impl<'a> TokenSource for Tokens<'a> {
    ghost use Rattle.std.specs.Prelude.{Option};
    ghost use Rattle.onfi_cert.specs.declared.fault.LineFault.{LineFault};

    type Token = Token;

    ghost Behind = { Option LineFault };

    ghost left = { λ t. t.line.tokens };

    ghost behind = { λ t. t.line.fault };

    /// The next good token; None at the end of the text and at its fault, which `finish` reports.
    fn next(&mut self) -> Option<Token> {
        TokenSource::next(&mut self.line)
    }
}
