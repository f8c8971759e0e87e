//! What the words of a command ask for.
ghost use Rattle.std.specs.Prelude.{◌≡◌, length, option_map, IfSome};
ghost use Rattle.std.specs.Str.{bytes_eq};
ghost use Rattle.onfi_script.specs.Field.{number as field_number};
ghost use Rattle.onfi_script.specs.Limit.{IsLimit, IsLimited};
ghost use Rattle.onfi_calls.specs.Words as spec;

use onfi_log::cut;
use onfi_planners::By;
use onfi_script::{AuditOptions, Command, Output, PlanOptions, number};

/// What words ask for.
#[derive(Clone, Copy)]
pub enum Asked {
    /// What the program answers to this command.
    Answer(Command),
    /// A log is judged.
    Audit(AuditOptions),
}

/// Whether a text is that word.
fn is_word(text: &[u8], word: &str) -> bool
    ensures { result ≡ bytes_eq text.now word.now }
{
    text == word.as_bytes()
}

/// How many words there are.
fn count_words(words: &[u8]) -> usize
    ensures { result ≡ length (spec.words_of words.now) }
{
    let mut count = 1;
    let mut left = words;
    while let Some((_, rest)) = cut(left, b' ') {
        count += 1;
        left = rest;
    }
    count
}

/// What stands after the first word that is this, if one is: nothing after the last one.
fn words_after<'a>(words: &'a [u8], name: &str) -> Option<Option<&'a [u8]>>
    ensures { option_map (λ rest. spec.words_in (option_map (λ text. text.now) rest)) result ≡ spec.tail name.now (spec.words_of words.now) }
{
    let mut left = words;
    while let Some((word, rest)) = cut(left, b' ') {
        if is_word(word, name) {
            return Some(Some(rest));
        }
        left = rest;
    }
    if is_word(left, name) {
        Some(None)
    } else {
        None
    }
}

/// Whether a word is this.
fn has(words: &[u8], name: &str) -> bool
    ensures { result ≡ spec.has name.now (spec.words_of words.now) }
{
    words_after(words, name).is_some()
}

/// The first word.
fn first_word<'a>(words: &'a [u8]) -> &'a [u8]
    ensures { spec.first (spec.words_of words.now) ≡ Some result.now }
{
    match cut(words, b' ') {
        Some((word, _)) => word,
        None => words,
    }
}

/// The word after this one, if there is one.
fn value<'a>(words: &'a [u8], name: &str) -> Option<&'a [u8]>
    ensures { option_map (λ word. word.now) result ≡ spec.value name.now (spec.words_of words.now) }
{
    match words_after(words, name) {
        Some(Some(rest)) => Some(first_word(rest)),
        Some(None) => None,
        None => None,
    }
}

/// How many words an option takes, where it is given.
fn alone(words: &[u8], name: &str) -> usize
    ensures { result ≡ spec.alone name.now (spec.words_of words.now) }
{
    if has(words, name) { 1 } else { 0 }
}

/// .. with its value.
fn with_value(words: &[u8], name: &str) -> usize
    ensures { result ≡ spec.with_value name.now (spec.words_of words.now) }
{
    if has(words, name) { 2 } else { 0 }
}

/// The way to plan that is named, the plain one where none is.
fn by_named(word: Option<&[u8]>) -> Option<By>
    ensures { result ≡ spec.by_named (option_map (λ w. w.now) word.entry) }
{
    let Some(word) = word else {
        return Some(By::Plain);
    };
    if is_word(word, "plain") {
        Some(By::Plain)
    } else if is_word(word, "within") {
        Some(By::Within)
    } else if is_word(word, "rule") {
        Some(By::Rule)
    } else {
        None
    }
}

/// A limit of nodes.
fn read_limit(word: &[u8]) -> Option<u32>
    ensures value { result ≡ spec.taken (field_number 1 1048576 word.now) }
    ensures range { IfSome result IsLimit }
{
    match number(word, 1, 1_048_576) {
        Ok(limit) => Some(limit as u32),
        Err(_) => None,
    }
}

/// The limit that is named, or the usual one; the rule takes none.
fn limit_named(by: By, word: Option<&[u8]>) -> Option<u32>
    ensures value { result ≡ spec.limit_named by (option_map (λ w. w.now) word.entry) }
    ensures range { IfSome result IsLimit }
{
    match (by, word) {
        (By::Plain, Some(word)) => read_limit(word),
        (By::Within, Some(word)) => read_limit(word),
        (By::Rule, Some(_)) => None,
        (By::Plain, None) => Some(1_048_576),
        (By::Within, None) => Some(65_536),
        (By::Rule, None) => Some(1_048_576),
    }
}

/// What is printed of a plan.
fn output_of(trace: bool, requests: bool) -> Output
    ensures { result ≡ spec.output_of trace requests }
{
    match (trace, requests) {
        (_, true) => Output::Trace { requests: true },
        (true, false) => Output::Trace { requests: false },
        (false, false) => Output::Plan,
    }
}

/// How many words `plan` with its options has, each at most once.
fn plan_words(words: &[u8]) -> usize
    ensures { result ≡ spec.plan_words (spec.words_of words.now) }
{
    1 + with_value(words, "--by")
        + alone(words, "--early")
        + with_value(words, "--limit")
        + alone(words, "--trace")
        + alone(words, "--requests")
}

/// What `plan` with these words asks for.
fn plan_asked(words: &[u8]) -> Option<PlanOptions>
    ensures value { result ≡ spec.plan_asked (spec.words_of words.now) }
    ensures limit { IfSome result (λ options. IsLimit options.limit) }
{
    if count_words(words) != plan_words(words) {
        return None;
    }
    let by = by_named(value(words, "--by"))?;
    let limit = limit_named(by, value(words, "--limit"))?;
    Some(PlanOptions {
        by,
        early: has(words, "--early"),
        limit,
        output: output_of(has(words, "--trace"), has(words, "--requests")),
    })
}

/// What a check by a way is.
fn check_by(by: By) -> Option<Command>
    ensures value { result ≡ spec.check_by by }
    ensures limited { IfSome result IsLimited }
{
    match by {
        By::Plain => Some(Command::Check),
        By::Within => Some(Command::CheckWithin),
        By::Rule => None,
    }
}

/// What `check` with these words asks for.
fn check_asked(words: &[u8]) -> Option<Command>
    ensures value { result ≡ spec.check_asked (spec.words_of words.now) }
    ensures limited { IfSome result IsLimited }
{
    if count_words(words) != 1 + with_value(words, "--by") + alone(words, "--legal") {
        return None;
    }
    if !has(words, "--legal") {
        return check_by(by_named(value(words, "--by"))?);
    }
    if has(words, "--by") {
        return None;
    }
    Some(Command::Legal)
}

/// How many words `audit` with its options has, each at most once.
fn audit_words(words: &[u8]) -> usize
    ensures { result ≡ spec.audit_words (spec.words_of words.now) }
{
    1 + alone(words, "--all")
        + alone(words, "--ready-by-status")
        + with_value(words, "--tolerance")
        + alone(words, "--one-status")
}

/// How much too soon a phase may come, in ns; not at all where nothing is named.
fn tolerance_named(word: Option<&[u8]>) -> Option<u64>
    ensures { result ≡ spec.tolerance_named (option_map (λ w. w.now) word.entry) }
{
    let Some(word) = word else {
        return Some(0);
    };
    match number(word, 1, 1_000_000) {
        Ok(tolerance) => Some(tolerance),
        Err(_) => None,
    }
}

/// What `audit` with these words asks for.
fn audit_asked(words: &[u8]) -> Option<AuditOptions>
    ensures { result ≡ spec.audit_asked (spec.words_of words.now) }
{
    if count_words(words) != audit_words(words) {
        return None;
    }
    let tolerance = tolerance_named(value(words, "--tolerance"))?;
    Some(AuditOptions {
        all: has(words, "--all"),
        by_status: has(words, "--ready-by-status"),
        tolerance,
        one_status: has(words, "--one-status"),
    })
}

/// What words ask for, with one space between two of them; None where they are those of no command, or say an option twice.
pub fn asked_for(words: &[u8]) -> Option<Asked>
    ensures value { result ≡ spec.asked_for words.now }
    ensures limited { IfSome result spec.IsAskLimited }
{
    let name = first_word(words);
    if is_word(name, "plan") {
        return Some(Asked::Answer(Command::PlanBy(plan_asked(words)?)));
    }
    if is_word(name, "check") {
        return Some(Asked::Answer(check_asked(words)?));
    }
    if is_word(name, "audit") {
        return Some(Asked::Audit(audit_asked(words)?));
    }
    None
}
