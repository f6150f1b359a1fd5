// Names, needs and lines in the text of a journal.
ghost use Rattle.std.specs.Prelude.{◌≡◌, ◌≢◌, ◌<◌, ◌++◌, ◌∷◌, List, ℕ, Bool, codes, length, false, IsNone, IfSome, IfOk, MatchOption};
ghost use Rattle.xml_model.specs.Pyx.{IsCutLine, IsPlain};
ghost use Rattle.script_text.specs.JournalText.{stands_text};
ghost use Rattle.script_text.specs.JournalSteps.{ReadsLines, ReadsMode, ReadsName, ReadsNeed, ReadsNeeds, ReadsQuoted, IsCutName, has_quote};

use crate::journals::rows::behind;
use std::alloc::Global;
use xq_ast::{LockMode, Need, NeedList, NoMemory, Sequence, Str, StrList};

/// What stands before the first newline, and what after it.
pub(crate) fn cut_line(text: &str) -> Option<(&str, &str)>
    ensures { MatchOption result (IsPlain text.now) (λ x. IsCutLine text.now x.0.now x.1.now) }
{
    text.split_once('\n')
}

// What stands before the first quote, and what after it.
fn cut_name(text: &str) -> Option<(&str, &str)>
    ensures { MatchOption result (has_quote text.now ≡ false) (λ x. IsCutName text.now x.0.now x.1.now) }
{
    text.split_once('\'')
}

/// A name, and what stands after its last quote.
#[derive(Drop)]
pub(crate) struct NameText<'a> {
    pub name: Str,
    pub rest: &'a str,
}

// The name after an opening quote.
fn read_name(alloc: Global, text: &str) -> Result<Option<NameText<'_>>, NoMemory>
    ensures { IfOk result (λ found. ReadsName found text.now) }
{
    let mut name = Str::new(alloc);
    let mut rest = text;
    while let Some((before, more)) = cut_name(rest) {
        name.push_str(before)?;
        match behind(more, "'") {
            Some(next) => {
                name.push_str("'")?;
                rest = next;
            }
            None => return Ok(Some(NameText { name, rest: more })),
        }
    }
    Ok(None)
}

/// A name between quotes.
pub(crate) fn read_quoted(alloc: Global, text: &str) -> Result<Option<NameText<'_>>, NoMemory>
    ensures { IfOk result (λ found. ReadsQuoted found text.now) }
{
    match behind(text, "'") {
        Some(rest) => read_name(alloc, rest),
        None => Ok(None),
    }
}

/// A mode after a space, and what stands after it.
#[derive(Drop)]
struct ModeText<'a> {
    mode: LockMode,
    rest: &'a str,
}

fn read_mode(text: &str) -> Option<ModeText<'_>>
    ensures { ReadsMode result text.now }
{
    if let Some(rest) = behind(text, " S") {
        return Some(ModeText {
            mode: LockMode::S,
            rest,
        });
    }
    let rest = behind(text, " X")?;
    Some(ModeText {
        mode: LockMode::X,
        rest,
    })
}

/// A need, and what stands after it.
#[derive(Drop)]
struct NeedText<'a> {
    need: Need,
    rest: &'a str,
}

fn read_need(alloc: Global, text: &str) -> Result<Option<NeedText<'_>>, NoMemory>
    ensures { IfOk result (λ found. ReadsNeed found text.now) }
{
    let Some(found) = read_quoted(alloc, text)? else {
        return Ok(None);
    };
    match read_mode(found.rest) {
        Some(behind) => Ok(Some(NeedText {
            need: Need {
                name: found.name,
                mode: behind.mode,
            },
            rest: behind.rest,
        })),
        None => Ok(None),
    }
}

/// Needs up to the end of the text.
pub(crate) fn read_needs(alloc: Global, text: &str) -> Result<Option<NeedList>, NoMemory>
    ensures { IfOk result (λ found. ReadsNeeds found text.now) }
{
    let mut needs = Sequence::new(alloc);
    let Some(first) = read_need(alloc, text)? else {
        return Ok(None);
    };
    needs.push(first.need)?;
    let mut rest = first.rest;
    while let Some(more) = behind(rest, ", ") {
        let Some(next) = read_need(alloc, more)? else {
            return Ok(None);
        };
        needs.push(next.need)?;
        rest = next.rest;
    }
    if rest.is_empty() {
        Ok(Some(needs))
    } else {
        Ok(None)
    }
}

/// Whether a commit stands, by its word.
pub(crate) fn stands_of(word: &str) -> Option<bool>
    ensures found { IfSome result (λ stands. stands_text stands ≡ word.now) }
    ensures none { IsNone result → (stands : Bool) → stands_text stands ≢ word.now }
{
    match word {
        "yes" => Some(true),
        "no" => Some(false),
        _ => None,
    }
}

/// Lines, and what stands after them.
#[derive(Drop)]
pub(crate) struct LinesText<'a> {
    pub lines: StrList,
    pub rest: &'a str,
}

/// The first lines of a text, so many.
pub(crate) fn read_lines(
    alloc: Global,
    count: u64,
    text: &str,
) -> Result<Option<LinesText<'_>>, NoMemory>
    ensures { IfOk result (λ found. ReadsLines found count text.now) }
{
    let mut lines = Sequence::new(alloc);
    let mut rest = text;
    for _ in 0..count {
        let Some((line, more)) = cut_line(rest) else {
            return Ok(None);
        };
        lines.push(Str::of(alloc, line)?)?;
        rest = more;
    }
    Ok(Some(LinesText { lines, rest }))
}
