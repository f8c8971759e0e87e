//! How long the bus is kept.
ghost use Rattle.std.specs.Prelude.{◌≡◌};
ghost use Rattle.onfi_steady.specs.Kept.{earlier, is_kept};

/// The earlier of a time that is known, where there is one, and another one.
pub fn earlier(known: Option<u64>, at: u64) -> u64
    ensures { result ≡ earlier known at }
{
    match known {
        Some(other) => other.min(at),
        None => at,
    }
}

/// Whether the bus is kept from a phase that starts then and takes so long.
pub fn is_kept(kept: Option<u64>, start: u64, length: u64) -> bool
    ensures { result ≡ is_kept kept start length }
{
    match kept {
        Some(from) => start > from || length > from - start,
        None => false,
    }
}
