//! Escapes in values.
ghost use Rattle.std.specs.Prelude.{◌≡◌, ◌≢◌, ◌∷◌, ◌++◌, ◌<◌, ◌≤◌, ℕ, List, length, OnOk, IfOk, MatchOption};
ghost use Rattle.xml_model.specs.Values as spec;
ghost use Rattle.pyx_text.specs.Cuts.{IsCut, Lacks};
ghost use Rattle.pyx_text.specs.Replacing.{replaced, tab, line_or_tab};

use std::alloc::Global;
use xq_ast::{NoMemory, Str};

/// What stands before the first `mark`, and what after it.
fn cut(text: &str, mark: char) -> Option<(&str, &str)>
    requires { mark < 128 }
    ensures { MatchOption result (Lacks mark text.now) (λ x. IsCut mark text.now x.0.now x.1.now) }
{
    text.split_once(mark)
}

/// What stands after the mark, where the text begins with it.
pub(crate) fn behind(text: &str, mark: char) -> Option<&str>
    requires { mark < 128 }
    ensures { MatchOption result ((rest : List ℕ) → text.now ≢ mark ∷ rest) (λ x. text.now ≡ mark ∷ x.now) }
{
    text.strip_prefix(mark)
}

/// What a backslash and some of what follows it stand for, and what is left.
#[derive(Drop)]
struct Escape<'a> {
    stands_for: &'static str,
    rest: &'a str,
}

fn escape_at(after: &str) -> Escape<'_>
    ensures means { spec.behind_backslash after.now ≡ result.stands_for.now ++ spec.unescaped result.rest.now }
    ensures rest { length result.rest.now ≤ length after.now }
{
    if let Some(rest) = behind(after, 'n') {
        Escape {
            stands_for: "\n",
            rest,
        }
    } else if let Some(rest) = behind(after, 't') {
        Escape {
            stands_for: "\t",
            rest,
        }
    } else if let Some(rest) = behind(after, '\\') {
        Escape {
            stands_for: "\\",
            rest,
        }
    } else {
        Escape {
            stands_for: "\\",
            rest: after,
        }
    }
}

/// The value that is spelled so in a line.
pub(crate) fn unescape(alloc: Global, spelled: &str) -> Result<Str, NoMemory>
    ensures { IfOk result (λ s. s ≡ spec.unescaped spelled.now) }
{
    let mut value = Str::new(alloc);
    let mut rest = spelled;
    while let Some((before, after)) = cut(rest, '\\') {
        let escape = escape_at(after);
        value.push_str(before)?;
        value.push_str(escape.stands_for)?;
        rest = escape.rest;
    }
    value.push_str(rest)?;
    Ok(value)
}

fn push_tabs(line: &mut Str, value: &str) -> Result<(), NoMemory>
    ensures { OnOk result (line.new ≡ line.old ++ replaced tab value.now) }
{
    let mut rest = value;
    while let Some((before, after)) = cut(rest, '\t') {
        line.push_str(before)?;
        line.push_str("\\t")?;
        rest = after;
    }
    line.push_str(rest)?;
    Ok(())
}

fn push_lines(line: &mut Str, value: &str) -> Result<(), NoMemory>
    ensures { OnOk result (line.new ≡ line.old ++ replaced line_or_tab value.now) }
{
    let mut rest = value;
    while let Some((before, after)) = cut(rest, '\n') {
        push_tabs(line, before)?;
        line.push_str("\\n")?;
        rest = after;
    }
    push_tabs(line, rest)?;
    Ok(())
}

/// Adds the value as a line spells it.
pub(crate) fn push_escaped(line: &mut Str, value: &str) -> Result<(), NoMemory>
    ensures { OnOk result (line.new ≡ line.old ++ spec.escaped value.now) }
{
    let mut rest = value;
    while let Some((before, after)) = cut(rest, '\\') {
        push_lines(line, before)?;
        line.push_str("\\\\")?;
        rest = after;
    }
    push_lines(line, rest)?;
    Ok(())
}
