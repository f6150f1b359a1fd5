// What the lines of a script are.
ghost use Rattle.std.specs.Prelude.{◌≡◌, ◌≢◌, ◌<◌, ◌≤◌, ℕ, [], length, slice_index, MatchOption, false};
ghost use Rattle.std.specs.Str.{bytes_eq};
ghost use Rattle.xml_model.specs.Pyx.{before_space, behind_space, split_lines};
ghost use Rattle.script_text.specs.Scripts as spec;
ghost use Rattle.script_text.specs.ScriptEnds.{IsFirst};

/// What a line is outside of the lines of a LOAD.
#[derive(Clone, Copy, Debug, PartialEq, Eq)]
pub(crate) enum LineKind {
    Skipped,
    Continuation,
    Session,
    Order,
    Call,
}

/// The first line of some bytes, and what stands after its newline.
#[derive(Drop)]
pub(crate) struct ByteLine<'a> {
    pub line: &'a [u8],
    pub rest: &'a [u8],
}

// The number of bytes before the first newline.
fn line_len(bytes: &[u8]) -> usize
    ensures within { result ≤ length bytes.now }
    ensures before { (k : ℕ) → k < result → slice_index bytes.now k ≢ 10 }
    ensures found { result < length bytes.now → slice_index bytes.now result ≡ 10 }
{
    for (i, byte) in bytes.iter().enumerate() {
        if *byte == b'\n' {
            return i;
        }
    }
    bytes.len()
}

/// The first line of bytes that are not empty.
pub(crate) fn first_line(bytes: &[u8]) -> Option<ByteLine<'_>>
    ensures { MatchOption result (bytes.now ≡ []) (λ f. IsFirst bytes.now f.line.now f.rest.now) }
{
    if bytes.is_empty() {
        return None;
    }
    let end = line_len(bytes);
    if end == bytes.len() {
        return Some(ByteLine {
            line: bytes,
            rest: &bytes[end..],
        });
    }
    Some(ByteLine {
        line: &bytes[..end],
        rest: &bytes[end + 1..],
    })
}

/// Whether the line ends the lines of a LOAD.
pub(crate) fn is_end(line: &[u8]) -> bool
    ensures { result ≡ spec.is_end line.now }
{
    line == b".".as_slice()
}

/// Whether one of the lines ends those of a LOAD.
pub(crate) fn has_end(bytes: &[u8]) -> bool
    ensures { result ≡ spec.has_end (split_lines bytes.now) }
{
    let mut rest = bytes;
    while let Some(first) = first_line(rest) {
        if is_end(first.line) {
            return true;
        }
        rest = first.rest;
    }
    false
}

fn ends_word(behind: &[u8]) -> bool
    ensures { result ≡ spec.ends_word behind.now }
{
    match behind {
        [] => true,
        [b, ..] => *b == b' ' || *b == b'\t' || *b == b'"' || *b == b'\'',
    }
}

/// Whether the line is the first of a LOAD.
pub(crate) fn opens_load(line: &[u8]) -> bool
    ensures { result ≡ spec.opens_load line.now }
{
    line.starts_with(b"LOAD") && ends_word(&line[4..])
}

fn is_blank(line: &[u8]) -> bool
    ensures { result ≡ spec.is_blank line.now }
{
    for b in line {
        if *b != b' ' && *b != b'\t' {
            return false;
        }
    }
    true
}

fn begins_with(byte: u8, line: &[u8]) -> bool
    ensures { result ≡ spec.begins_with byte line.now }
{
    match line {
        [] => false,
        [b, ..] => *b == byte,
    }
}

fn is_session(line: &[u8]) -> bool
    ensures { result ≡ spec.is_session line.now }
{
    line == b"SESSION".as_slice()
}

/// A word, and the text after the first space that follows it.
#[derive(Drop)]
pub(crate) struct FirstWord<'a> {
    pub word: &'a str,
    pub behind: &'a str,
}

pub(crate) fn first_word(line: &str) -> FirstWord<'_>
    ensures word { result.word.now ≡ before_space line.now }
    ensures behind { result.behind.now ≡ behind_space line.now }
{
    match line.split_once(' ') {
        Some((word, behind)) => FirstWord { word, behind },
        None => FirstWord {
            word: line,
            behind: "",
        },
    }
}

fn is_order(line: &str) -> bool
    ensures { result ≡ spec.is_order line.now }
{
    first_word(line).word == "ORDER"
}

/// What a line is outside of the lines of a LOAD.
pub(crate) fn kind_of(line: &str) -> LineKind
    ensures { result ≡ spec.kind_of line.now }
{
    let bytes = line.as_bytes();
    if is_blank(bytes) || begins_with(b'#', bytes) {
        return LineKind::Skipped;
    }
    if begins_with(b' ', bytes) || begins_with(b'\t', bytes) {
        return LineKind::Continuation;
    }
    if is_session(bytes) {
        return LineKind::Session;
    }
    if is_order(line) {
        LineKind::Order
    } else {
        LineKind::Call
    }
}

fn sessions_begun(line: &[u8]) -> u64
    ensures most { result ≤ 1 }
    ensures count { result ≡ spec.one_if (spec.is_session line.now) }
{
    if is_session(line) { 1 } else { 0 }
}

/// How many sessions a script begins, whether it is refused or not.
pub(crate) fn count_sessions(bytes: &[u8]) -> u64
    ensures { result ≡ spec.sessions_in false (split_lines bytes.now) }
{
    let mut sessions = 0;
    let mut in_load = false;
    let mut rest = bytes;
    while let Some(first) = first_line(rest) {
        if in_load {
            in_load = !is_end(first.line);
        } else {
            sessions += sessions_begun(first.line);
            in_load = opens_load(first.line);
        }
        rest = first.rest;
    }
    sessions
}
