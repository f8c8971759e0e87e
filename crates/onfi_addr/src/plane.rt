ghost use Rattle.std.specs.Prelude.{◌≡◌, ◌≤◌};
ghost use Rattle.onfi_addr.specs.Rows.{plane_at};

/// The plane of a block: the low bits of its number, as many as there are plane address bits, 2 at most.
pub fn plane_at(plane_bits: u8, block: u16) -> u8
    requires { plane_bits ≤ 2 }
    ensures { result ≡ plane_at plane_bits block }
{
    (block % (1 << plane_bits)) as u8
}
