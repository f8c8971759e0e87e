ghost use Rattle.std.specs.Prelude.{◌≡◌, ◌≤◌, ◌+◌, ℕ, length, take, drop};
ghost use Rattle.onfi_die.specs.Block.{is_erased, shown};
ghost use Rattle.onfi_die.specs.Whole.{IsWide};

use onfi_request::Bytes;

/// What a page of a block holds.
#[derive(Debug, Drop)]
pub enum Page {
    /// Nothing: it reads as FFh throughout, and it can be programmed.
    Erased,
    /// What a failed program or erase left: it reads as 00h throughout.
    Torn,
    /// The data and spare bytes that were programmed.
    Holds(Bytes),
}

impl Page {
    /// Whether the page is erased.
    pub fn is_erased(&self) -> bool
        ensures { result ≡ is_erased self.now }
    {
        matches!(self, Page::Erased)
    }

    /// Writes what a read of the page gives to `out`, which has as many bytes as a page.
    pub fn show(&self, out: &mut [u8])
        requires { IsWide (length out.old) self.now }
        ensures { out.new ≡ shown (length out.old) self.now }
    {
        self.show_part(0, out);
    }

    /// Writes what a read gives of the page from its byte `from` on to `out`, which has no more bytes than are left there.
    pub fn show_part(&self, from: usize, out: &mut [u8])
        requires { (bytes : ℕ) × IsWide bytes self.now × (from + length out.old ≤ bytes) }
        ensures { (bytes : ℕ) → IsWide bytes self.now → from + length out.old ≤ bytes
            → out.new ≡ take (length out.old) (drop from (shown bytes self.now)) }
    {
        match self {
            Page::Erased => out.fill(0xff),
            Page::Torn => out.fill(0x00),
            Page::Holds(bytes) => {
                let count = out.len();
                out.copy_from_slice(&bytes.as_slice()[from..][..count]);
            }
        }
    }
}
