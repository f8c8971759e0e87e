//! The version of the library.
ghost use Rattle.std.specs.Prelude.{◌≡◌};

const MAJOR: u32 = 0;

const MINOR: u32 = 9;

const PATCH: u32 = 0;

/// The version of the library, as the header gives its own by `ONFI_VERSION_NUMBER`: 10,000 times the first number, 100
/// times the second and the third.
pub fn onfi_version() -> u32
    ensures { result ≡ 900 }
{
    10_000 * MAJOR + 100 * MINOR + PATCH
}
