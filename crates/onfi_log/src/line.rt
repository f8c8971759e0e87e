//! What a line of a log says.
ghost use Rattle.std.specs.Prelude.{◌≡◌, ◌<◌, ◌≤◌, ◌^◌, ◌-◌, length, map, IfSome, MatchOption};
ghost use Rattle.std.specs.Str.{bytes_eq};
ghost use Rattle.onfi_log.specs.Line as spec;
ghost use Rattle.onfi_log.specs.Parts.{parts};

use crate::bytes::{Bytes, bytes_of};
use crate::parts::cut;
use arrayvec::ArrayVec;
use onfi_audit::Line;
use onfi_timing::{Operation, read_number};

/// A line of a log.
#[derive(Clone, Copy, Debug, PartialEq, Eq)]
pub struct LogLine {
    pub phase: Line,
    /// The number of its request, where the line has one.
    pub request: Option<u64>,
    /// When it ends, in ns, and what its command bytes say, where the line has these as a trace does.
    pub end: Option<u64>,
    pub bytes: Option<Bytes>,
}

/// A number up to `most`.
pub(crate) fn number(text: &[u8], most: u64) -> Option<u64>
    requires { most < 2 ^ 64 - 1 }
    ensures value { result ≡ spec.number most text.now }
    ensures range { IfSome result (λ n. n ≤ most) }
{
    let value = read_number(text)?;
    if value <= most { Some(value) } else { None }
}

/// Whether the text is that word.
pub(crate) fn is_word(text: &[u8], word: &str) -> bool
    ensures { result ≡ bytes_eq text.now word.now }
{
    text == word.as_bytes()
}

/// Whether a line is a comment: it begins with `#`.
pub fn is_comment(line: &[u8]) -> bool
    ensures { result ≡ spec.is_comment line.now }
{
    match line.first() {
        Some(byte) => *byte == b'#',
        None => false,
    }
}

/// The operation of that name.
fn operation(text: &[u8]) -> Option<Operation>
    ensures { result ≡ spec.operation text.now }
{
    if is_word(text, "read") {
        Some(Operation::Read)
    } else if is_word(text, "program") {
        Some(Operation::Program)
    } else if is_word(text, "erase") {
        Some(Operation::Erase)
    } else {
        None
    }
}

/// Whether the part of that name is a post.
fn is_post(text: &[u8]) -> Option<bool>
    ensures { result ≡ spec.is_post text.now }
{
    if is_word(text, "cmd") {
        Some(false)
    } else if is_word(text, "post") {
        Some(true)
    } else {
        None
    }
}

/// The words of a line, where it has at most ten.
pub(crate) fn words(line: &[u8]) -> Option<ArrayVec<&[u8], 10>>
    ensures { MatchOption result (10 < length (parts 32 line.now)) (λ words. map (λ w. w.now) words.items ≡ parts 32 line.now) }
{
    let mut words = ArrayVec::new();
    let mut left = line;
    for _at in 0..10u8 {
        let Some((word, behind)) = cut(left, b' ') else {
            words.push(left);
            return Some(words);
        };
        words.push(word);
        left = behind;
    }
    None
}

/// As a number of a request, or an end in ns, may be at most.
const MOST_REQUEST: u64 = (1 << 63) - 1;

/// As a start may be at most, in ns.
pub(crate) const MOST_START: u64 = (1 << 62) - 1;

/// The number of a request, or none where `-` stands.
fn request(text: &[u8]) -> Option<Option<u64>>
    ensures value { result ≡ spec.request text.now }
    ensures small { IfSome result (λ request. IfSome request (λ number. number < 2 ^ 63)) }
{
    if is_word(text, "-") {
        return Some(None);
    }
    let number = number(text, MOST_REQUEST)?;
    Some(Some(number))
}

/// A word of a line, counted from 0; nothing where the line has fewer.
pub(crate) fn word<'a>(words: &[&'a [u8]], at: usize) -> &'a [u8]
    ensures { result.now ≡ spec.word (map (λ w. w.now) words.now) at }
{
    words.get(at).copied().unwrap_or(b"")
}

/// Where the LUN stands in a line of so many words.
fn lun_at(count: usize) -> Option<usize>
    ensures value { result ≡ spec.lun_at count }
    ensures early { IfSome result (λ at. at ≤ 2) }
{
    match count {
        6 | 7 => Some(1),
        9 | 10 => Some(2),
        _ => None,
    }
}

/// The number of the request in the last word of a line.
fn request_in(words: &[&[u8]]) -> Option<Option<u64>>
    ensures value { result ≡ spec.request_in (map (λ w. w.now) words.now) }
    ensures small { IfSome result (λ request. IfSome request (λ number. number < 2 ^ 63)) }
{
    match words.len() {
        7 => request(word(words, 6)),
        10 => request(word(words, 9)),
        _ => Some(None),
    }
}

/// When the phase ends of a line whose LUN stands there.
fn end_in(words: &[&[u8]], at: usize) -> Option<Option<u64>>
    ensures { result ≡ spec.end_in (map (λ w. w.now) words.now) at }
{
    if at != 2 {
        return Some(None);
    }
    let end = number(word(words, 1), MOST_REQUEST)?;
    Some(Some(end))
}

/// What the command bytes say of the phase of a line whose LUN stands there.
fn bytes_in(words: &[&[u8]], at: usize, phase: &Line) -> Option<Bytes>
    ensures { result ≡ spec.bytes_in (map (λ w. w.now) words.now) at phase.now }
{
    if at != 2 {
        return None;
    }
    let opener = word(words, 7);
    let closer = word(words, 8);
    Some(bytes_of(phase.operation, phase.is_post, opener, closer))
}

/// The phase of a line whose LUN stands there.
fn phase_in(words: &[&[u8]], at: usize) -> Option<Line>
    requires { at ≤ 2 }
    ensures value { result ≡ spec.phase_in (map (λ w. w.now) words.now) at }
    ensures lun { IfSome result (λ phase. phase.lun ≤ 7) }
    ensures start { IfSome result (λ phase. phase.start < 2 ^ 62) }
{
    let start = number(word(words, 0), MOST_START)?;
    let lun = number(word(words, at), 7)?;
    let operation = operation(word(words, at + 1))?;
    let is_post = is_post(word(words, at + 2))?;
    let block = number(word(words, at + 3), 65_535)?;
    let page = number(word(words, at + 4), 4_095)?;
    Some(Line {
        start,
        lun: lun as u8,
        operation,
        is_post,
        block: block as u16,
        page: page as u16,
    })
}

/// What a line of these words says.
pub(crate) fn line_in(words: &[&[u8]]) -> Option<LogLine>
    ensures value { result ≡ spec.line_of_words (map (λ w. w.now) words.now) }
    ensures lun { IfSome result (λ line. line.phase.lun ≤ 7) }
    ensures start { IfSome result (λ line. line.phase.start < 2 ^ 62) }
    ensures small { IfSome result (λ line. IfSome line.request (λ number. number < 2 ^ 63)) }
{
    let at = lun_at(words.len())?;
    let phase = phase_in(words, at)?;
    let request = request_in(words)?;
    let end = end_in(words, at)?;
    let bytes = bytes_in(words, at, &phase);
    Some(LogLine {
        phase,
        request,
        end,
        bytes,
    })
}

/// What a line says, without its line end: `START LUN KIND PART BLOCK PAGE`, with a word more for the number of its request, or
/// a line of `plan --trace` or `plan --requests`. None where it says nothing: the words are parted by single spaces, START is
/// below 2^62 ns, END below 2^63, LUN below 8, BLOCK below 65,536, PAGE below 4,096 and a number below 2^63, and `-` in place of a
/// number says that the phase is of a group that ran before the log. Words in place of command bytes may be any.
pub fn read_line(line: &[u8]) -> Option<LogLine>
    ensures value { result ≡ spec.line_of line.now }
    ensures lun { IfSome result (λ line. line.phase.lun ≤ 7) }
    ensures start { IfSome result (λ line. line.phase.start < 2 ^ 62) }
    ensures small { IfSome result (λ line. IfSome line.request (λ number. number < 2 ^ 63)) }
{
    let words = words(line)?;
    line_in(words.as_slice())
}
