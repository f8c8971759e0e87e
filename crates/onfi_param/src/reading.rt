ghost use Rattle.std.specs.Prelude.{◌≡◌, ◌<◌, ◌≤◌, ◌↔◌, ℕ, IfOk, IsTrue, length};
ghost use Rattle.onfi_param.specs.Copies.{IsFirstCopy, IsPageCopy, copy_at, right_signature_bytes};

use crate::crc::crc16;
use crate::fault::PageFault;
use crate::page::ParamPage;

const PAGE_BYTES: usize = 256;

const SIGNATURE: [u8; 4] = *b"ONFI";

/// How many of the first four bytes are right in their places.
fn right_signature_bytes(copy: &[u8]) -> usize
    requires { length copy.now ≡ 256 }
    ensures { result ≡ right_signature_bytes copy.now }
{
    let mut right = 0;
    for at in 0..SIGNATURE.len() {
        if copy[at] == SIGNATURE[at] {
            right += 1;
        }
    }
    right
}

/// Whether 256 bytes are a copy of a parameter page.
fn is_copy(copy: &[u8]) -> bool
    requires { length copy.now ≡ 256 }
    ensures { IsTrue result ↔ IsPageCopy copy.now }
{
    if right_signature_bytes(copy) < 2 {
        return false;
    }
    crc16(&copy[..254]) == u16::from_le_bytes([copy[254], copy[255]])
}

/// The first copy of a parameter page among the copies at offset 0, 256, 512, .. (ONFI 4.2, parameter page definition).
///
/// A copy has two or more of the signature bytes 4Fh 4Eh 46h 49h right in their places, and its last two bytes are
/// [`crc16`] of the others. Bytes after the last whole copy are not looked at.
///
/// # Errors
/// `Short` exactly where there are fewer than 256 bytes, `NoCopy` exactly where there are as many and no copy is one.
pub fn read_page(bytes: &[u8]) -> Result<ParamPage, PageFault>
    ensures short { (result ≡ Err PageFault.Short) ↔ (length bytes.now < 256) }
    ensures no_copy { (result ≡ Err PageFault.NoCopy) ↔ ((256 ≤ length bytes.now) × ((number : ℕ) → ¬ IsPageCopy (copy_at bytes.now number))) }
    ensures first { IfOk result (λ page. IsFirstCopy bytes.now page) }
{
    if bytes.len() < PAGE_BYTES {
        return Err(PageFault::Short);
    }
    for number in 0..bytes.len() / PAGE_BYTES {
        let copy = &bytes[PAGE_BYTES * number..PAGE_BYTES * (number + 1)];
        if is_copy(copy) {
            return Ok(ParamPage::of(copy));
        }
    }
    Err(PageFault::NoCopy)
}
