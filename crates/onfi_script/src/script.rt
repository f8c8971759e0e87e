//! The text of a script.
ghost use Rattle.std.specs.Prelude.{◌≡◌, ◌&&◌, ◌≤◌, take, length, MatchOption, Some, None};
ghost use Rattle.onfi_script.specs.Script.{behind_end, is_end_line, plan_text_of, script_of};

/// Whether a line `end` stands at the front of the text.
fn is_end_line(text: &[u8]) -> bool
    ensures { result ≡ is_end_line text.now }
{
    text == b"end".as_slice() || text.starts_with(b"end\n") || text.starts_with(b"end\r\n")
}

/// Whether the line `end` begins at the front of the text, given whether a line begins there.
fn closes(starts: bool, text: &[u8]) -> bool
    ensures { result ≡ (starts && is_end_line text.now) }
{
    starts && is_end_line(text)
}

/// How much of the input stands before the line `end`.
#[tactic(auto, unfolding(crate::specs::Script::before_end))]
pub fn script_len(input: &[u8]) -> Option<usize>
    ensures { MatchOption result (script_of input.now ≡ None) (λ n. (n ≤ length input.now) × (script_of input.now ≡ Some (take n input.now))) }
{
    let mut starts = true;
    for (at, byte) in input.iter().enumerate() {
        if closes(starts, &input[at..]) {
            return Some(at);
        }
        starts = *byte == b'\n';
    }
    None
}

/// What follows the line `end` that a text begins with.
pub fn after_end(text: &[u8]) -> &[u8]
    ensures { result.now ≡ behind_end text.now }
{
    let len = if text.starts_with(b"end\r\n") { 5 } else { 4 };
    &text[text.len().min(len)..]
}

/// What follows the line that closes the script of an input; nothing where none does.
pub fn plan_text_of(input: &[u8]) -> &[u8]
    ensures { result.now ≡ plan_text_of input.now }
{
    match script_len(input) {
        Some(size) => after_end(&input[size..]),
        None => b"",
    }
}
