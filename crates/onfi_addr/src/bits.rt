ghost use Rattle.std.specs.Prelude.{◌≡◌, ◌+◌, ◌*◌, ◌%◌, ◌^◌, ◌<◌, ◌≤◌};
ghost use Rattle.onfi_addr.specs.Bits.{IsBitCount};

/// The least number of bits that distinguish so many things: 0 for one thing or none.
pub(crate) fn bits_for(count: u32) -> u32
    ensures least { IsBitCount count result }
    ensures below { result ≤ 32 }
{
    if count < 2 {
        0
    } else {
        (count - 1).ilog2() + 1
    }
}

/// The lowest bits of a number.
pub(crate) fn low_bits(number: u64, bits: u32) -> u64
    requires { bits < 64 }
    ensures { result ≡ number % 2 ^ bits }
{
    number % (1 << bits)
}

/// A number of at most 16 bits moved up.
pub(crate) fn shift_up(number: u16, bits: u32) -> u64
    requires { bits ≤ 44 }
    ensures value { result ≡ number * 2 ^ bits }
    ensures below { result < 2 ^ 60 }
{
    u64::from(number) << bits
}
