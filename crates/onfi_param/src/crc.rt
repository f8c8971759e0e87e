ghost use Rattle.std.specs.Prelude.{◌≡◌, ◌*◌, ℕ};
ghost use Rattle.onfi_param.specs.Crc.{IsCheckValue};
ghost use Rattle.onfi_param.specs.Register.{after_byte, reduced};

const START: u16 = 0x4F4E;

const POLYNOMIAL: u16 = 0x8005;

/// The register after one bit was shifted out.
fn shift_register(register: u16) -> u16
    ensures { result ≡ reduced (register * 2) }
{
    if register < 0x8000 {
        register * 2
    } else {
        ((register - 0x8000) * 2) ^ POLYNOMIAL
    }
}

/// The register after a byte.
fn take_byte(register: u16, byte: u8) -> u16
    ensures { result ≡ after_byte register byte }
{
    let mut next = register ^ (u16::from(byte) << 8);
    for _ in 0..8u8 {
        next = shift_register(next);
    }
    next
}

/// The check value of the bytes of a parameter page but its last two (ONFI 4.2, parameter page, integrity CRC).
///
/// It has 16 bits: the remainder by x^16 + x^15 + x^2 + 1 with the start value 4F4Eh, the high bit of each byte first,
/// without reflection and without a final exclusive or.
pub fn crc16(bytes: &[u8]) -> u16
    ensures remainder { IsCheckValue bytes.now result }
    ensures no_other { (value : ℕ) → IsCheckValue bytes.now value → value ≡ result }
{
    let mut register = START;
    for byte in bytes {
        register = take_byte(register, *byte);
    }
    register
}
