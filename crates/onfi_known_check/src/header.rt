//! The header lines.
ghost use Rattle.std.specs.Prelude.{◌≡◌, ◌++◌, IfSome, IfNone};
ghost use Rattle.onfi_known_check.specs.Faults.{NoHeader};
ghost use Rattle.onfi_known_check.specs.Text.{header};

use onfi_cert::option_of;

/// The header line of the texts under this option.
pub(crate) fn header(strict: bool) -> &'static [u8]
    ensures { result.now ≡ header strict }
{
    if strict {
        b"ONFICERT 4 strict remember\n"
    } else {
        b"ONFICERT 3 remember\n"
    }
}

/// The option of the header line, and what follows it.
pub(crate) fn header_of(text: &[u8]) -> Option<(bool, &[u8])>
    ensures some { IfSome result (λ p. text.now ≡ header p.0 ++ p.1.now) }
    ensures none { IfNone result (NoHeader text.now) }
{
    option_of(
        b"ONFICERT 3 remember\n",
        b"ONFICERT 4 strict remember\n",
        text,
    )
}
