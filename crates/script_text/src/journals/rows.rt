// How the first line of an event begins.
ghost use Rattle.std.specs.Prelude.{◌≡◌, ◌≢◌, ◌<◌, ◌^◌, ℕ, List, ◌++◌, IsNone, IfSome, MatchOption};
ghost use Rattle.std.specs.Fmt.{decimal};
ghost use Rattle.script_text.specs.JournalRows.{MissesRows, row_word};
ghost use Rattle.script_text.specs.JournalText.{IsSession, line_of};

use xq_ast::{cut, number_of};

/// The rows of the table of a journal's lines. `Began` has two, and each answer one.
#[derive(Clone, Copy, Debug, PartialEq, Eq)]
pub(crate) enum Row {
    BeganUpdate,
    BeganRead,
    Granted,
    Refused,
    Done,
    Answer,
    Error,
    Committed,
    Ended,
    RolledBack,
    Doubt,
    Settled,
    Left,
}

const ROWS: [Row; 13] = [
    Row::BeganUpdate,
    Row::BeganRead,
    Row::Granted,
    Row::Refused,
    Row::Done,
    Row::Answer,
    Row::Error,
    Row::Committed,
    Row::Ended,
    Row::RolledBack,
    Row::Doubt,
    Row::Settled,
    Row::Left,
];

fn word_of_row(row: Row) -> &'static str
    ensures { result.now ≡ row_word row }
{
    match row {
        Row::BeganUpdate => "began update",
        Row::BeganRead => "began read ",
        Row::Granted => "granted ",
        Row::Refused => "refused ",
        Row::Done => "done",
        Row::Answer => "answer ",
        Row::Error => "error ",
        Row::Committed => "committed ",
        Row::Ended => "ended",
        Row::RolledBack => "rolled back",
        Row::Doubt => "doubt ",
        Row::Settled => "settled ",
        Row::Left => "left",
    }
}

/// What stands after a word at the beginning of a text.
pub(crate) fn behind<'a>(text: &'a str, word: &str) -> Option<&'a str>
    ensures { MatchOption result ((rest : List ℕ) → text.now ≢ word.now ++ rest) (λ rest. text.now ≡ word.now ++ rest.now) }
{
    text.strip_prefix(word)
}

/// A row, and what stands after its words.
#[derive(Drop)]
struct RowText<'a> {
    row: Row,
    rest: &'a str,
}

// The first of these rows whose words stand at the beginning.
fn row_among<'a>(rows: &[Row], words: &'a str) -> Option<RowText<'a>>
    ensures found { IfSome result (λ found. words.now ≡ row_word found.row ++ found.rest.now) }
    ensures none { IsNone result → MissesRows words.now rows.now }
{
    for row in rows {
        if let Some(rest) = behind(words, word_of_row(*row)) {
            return Some(RowText { row: *row, rest });
        }
    }
    None
}

fn row_of(words: &str) -> Option<RowText<'_>>
    ensures found { IfSome result (λ found. words.now ≡ row_word found.row ++ found.rest.now) }
    ensures none { IsNone result → (row : Row) (rest : List ℕ) → words.now ≢ row_word row ++ rest }
{
    row_among(&ROWS, words)
}

/// The number of a session.
pub(crate) fn session_of(text: &str) -> Option<u32>
    ensures found { IfSome result (λ session. decimal session ≡ text.now) }
    ensures none { IsNone result → (session : ℕ) → IsSession session → decimal session ≢ text.now }
{
    let number = number_of(text)?;
    match u32::try_from(number) {
        Ok(session) => Some(session),
        Err(_) => None,
    }
}

/// The first line of an event: its session, its row, and what stands after the row's words.
#[derive(Drop)]
pub(crate) struct LineStart<'a> {
    pub session: u32,
    pub row: Row,
    pub rest: &'a str,
}

/// How a line begins.
pub(crate) fn line_start(line: &str) -> Option<LineStart<'_>>
    ensures found { IfSome result (λ start. line_of start.session (row_word start.row ++ start.rest.now) ≡ line.now) }
    ensures session { IfSome result (λ start. IsSession start.session) }
    ensures none { IsNone result → (session : ℕ) (row : Row) (rest : List ℕ) → IsSession session → line_of session (row_word row ++ rest) ≢ line.now }
{
    let (digits, words) = cut(line)?;
    let session = session_of(digits)?;
    let found = row_of(words)?;
    Some(LineStart {
        session,
        row: found.row,
        rest: found.rest,
    })
}
