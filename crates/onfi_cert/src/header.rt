//! The header lines.
ghost use Rattle.std.specs.Prelude.{◌≡◌, ◌≢◌, ◌++◌, List, ℕ, IfSome, IfNone, MatchOption, if◌then◌else◌};
ghost use Rattle.onfi_cert.specs.Reading.{BeginsWithNeither, NoHeader};
ghost use Rattle.onfi_cert.specs.Text.{header};

/// The header line of the texts under this option.
pub(crate) fn header(strict: bool) -> &'static [u8]
    ensures { result.now ≡ header strict }
{
    if strict {
        b"ONFICERT 2 strict\n"
    } else {
        b"ONFICERT 1\n"
    }
}

/// The option of the header line, and what follows it.
pub(crate) fn header_of(text: &[u8]) -> Option<(bool, &[u8])>
    ensures some { IfSome result (λ p. text.now ≡ header p.0 ++ p.1.now) }
    ensures none { IfNone result (NoHeader text.now) }
{
    option_of(b"ONFICERT 1\n", b"ONFICERT 2 strict\n", text)
}

// What follows this header.
fn strip_header<'a>(header: &[u8], text: &'a [u8]) -> Option<&'a [u8]>
    ensures { MatchOption result ((rest : List ℕ) → text.now ≢ header.now ++ rest)
        (λ rest. text.now ≡ header.now ++ rest.now) }
{
    text.strip_prefix(header)
}

/// Of two header lines, one for each option, which one a text begins with, and what follows it.
pub fn option_of<'a>(plain: &[u8], strict: &[u8], text: &'a [u8]) -> Option<(bool, &'a [u8])>
    ensures some { IfSome result (λ p. text.now ≡ (if p.0 then strict.now else plain.now) ++ p.1.now) }
    ensures none { IfNone result (BeginsWithNeither (λ option. if option then strict.now else plain.now) text.now) }
{
    if let Some(rest) = strip_header(plain, text) {
        return Some((false, rest));
    }
    if let Some(rest) = strip_header(strict, text) {
        return Some((true, rest));
    }
    None
}
