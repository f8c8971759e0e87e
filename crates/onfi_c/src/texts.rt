//! Answers to scripts as texts, and texts of numbers, for C.
ghost use Rattle.std.specs.Prelude.{◌≡◌};
ghost use Rattle.onfi_calls.specs.Room.{Gives};
ghost use Rattle.onfi_calls.specs.StatusText.{text_at};
ghost use Rattle.onfi_calls.specs.Text.{GivesText};

use std::alloc::Global;

/// Is [`onfi_text`](onfi_calls::onfi_text) for C.
#[unsafe(no_mangle)]
pub extern "C" fn onfi_text(
    alloc: Global,
    words: &[u8],
    script: &[u8],
    answer: &mut [u8],
    bytes: &mut usize,
) -> u32
    ensures { GivesText words.now script.now answer.old answer.new bytes.new result }
{
    onfi_calls::onfi_text(alloc, words, script, answer, bytes)
}

/// Is [`onfi_status_text`](onfi_calls::onfi_status_text) for C.
#[unsafe(no_mangle)]
pub extern "C" fn onfi_status_text(status: u32, text: &mut [u8], bytes: &mut usize) -> u32
    ensures { Gives (text_at status) 0 text.old text.new bytes.new result }
{
    onfi_calls::onfi_status_text(status, text, bytes)
}

/// Is [`onfi_version`](onfi_calls::onfi_version) for C.
#[unsafe(no_mangle)]
pub extern "C" fn onfi_version() -> u32
    ensures { result ≡ 900 }
{
    onfi_calls::onfi_version()
}
