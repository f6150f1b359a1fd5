//! Texts: what functions and constructors make of strings.
ghost use Rattle.std.specs.Prelude.{◌≡◌, ◌++◌, true, IfOk, OnOk, MatchResult};
ghost use Rattle.std.specs.Fmt as fmt;
ghost use Rattle.std.specs.List.{concat};
ghost use Rattle.xml_model.specs.Atoms as atoms;
ghost use Rattle.xml_model.specs.Constructors as constructors;
ghost use Rattle.xml_model.specs.FunctionAnswers as spec;
ghost use Rattle.xml_model.specs.Items.{◌>>?◌};
ghost use Rattle.xq_values.specs.Gives.{Gives};
ghost use Rattle.xq_values.specs.Words as words;

use crate::end::ValueEnd;
use std::alloc::Global;
use xml_model::{Atom, TEXT_BYTES_MAX};
use xq_ast::{Code, Items, NoMemory, Str};

fn boolean_text(value: bool) -> &'static str
    ensures { result.now ≡ atoms.boolean_text value }
{
    if value { "true" } else { "false" }
}

// Adds the text of a value at the end.
fn push_atom(alloc: Global, all: &mut Str, atom: &Atom) -> Result<(), NoMemory>
    ensures { OnOk result (all.new ≡ all.old ++ atoms.atom_text atom.now) }
{
    match atom {
        Atom::Untyped { text } => all.push_str(text.as_str()),
        Atom::Text { text } => all.push_str(text.as_str()),
        Atom::Int { value } => {
            let digits = value.to_string(alloc)?;
            all.push_str(digits.as_str())
        }
        Atom::Truth { value } => all.push_str(boolean_text(*value)),
    }
}

/// The text of a value.
pub fn atom_text(alloc: Global, atom: &Atom) -> Result<Str, NoMemory>
    ensures { IfOk result (λ s. s ≡ atoms.atom_text atom.now) }
{
    let mut all = Str::new(alloc);
    push_atom(alloc, &mut all, atom)?;
    Ok(all)
}

// Adds the text of a value at the end, with a space before it where it is not the first.
pub(crate) fn push_word(
    alloc: Global,
    all: &mut Str,
    later: bool,
    atom: &Atom,
) -> Result<(), NoMemory>
    ensures { OnOk result (all.new ≡ all.old ++ words.word later atom.now) }
{
    if later {
        push_later(alloc, all, atom)
    } else {
        push_atom(alloc, all, atom)
    }
}

fn push_later(alloc: Global, all: &mut Str, atom: &Atom) -> Result<(), NoMemory>
    ensures { OnOk result (all.new ≡ all.old ++ words.word true atom.now) }
{
    all.push_str(" ")?;
    push_atom(alloc, all, atom)
}

/// The texts of values, with a space between each two.
pub fn spaced(alloc: Global, values: &[Atom]) -> Result<Str, NoMemory>
    ensures { IfOk result (λ s. s ≡ constructors.spaced values.now) }
{
    let mut all = Str::new(alloc);
    let mut later = false;
    for atom in values {
        push_word(alloc, &mut all, later, atom)?;
        later = true;
    }
    Ok(all)
}

/// A string that is not too long.
pub fn limited_text(text: Str) -> Result<Str, Code>
    ensures { result ≡ constructors.limited_text text }
{
    if text.len() as u64 > TEXT_BYTES_MAX {
        Err(Code::TooMuchText)
    } else {
        Ok(text)
    }
}

/// An argument that must be a string: nothing is the empty one. Takes no memory.
pub fn string_argument(values: &[Atom]) -> Result<&str, Code>
    ensures { MatchResult result (λ s. spec.string_argument values.now ≡ Ok s.now)
        (λ code. spec.string_argument values.now ≡ Err code) }
{
    match values {
        [] => Ok(""),
        [Atom::Untyped { text }] => Ok(text.as_str()),
        [Atom::Text { text }] => Ok(text.as_str()),
        _ => Err(Code::XPTY0004),
    }
}

// Adds an argument of `concat` at the end: nothing, or one value of any type.
fn push_argument(alloc: Global, all: &mut Str, values: &[Atom]) -> Result<(), ValueEnd>
    ensures { Gives (λ _. all.new) result (spec.concat_argument values.now >>? (λ text. Ok (all.old ++ text))) }
{
    match values {
        [] => Ok(()),
        [value] => {
            push_atom(alloc, all, value)?;
            Ok(())
        }
        _ => Err(ValueEnd::Code(Code::XPTY0004)),
    }
}

/// The arguments of `concat`, one text after another.
pub fn concat_arguments(alloc: Global, arguments: &[Items<Atom>]) -> Result<Str, ValueEnd>
    ensures { Gives (λ s. s) result (spec.concat_arguments arguments.now >>? (λ texts. Ok (concat texts))) }
{
    let mut all = Str::new(alloc);
    for argument in arguments {
        push_argument(alloc, &mut all, argument.as_slice())?;
    }
    Ok(all)
}

/// Whether the second text stands at the beginning of the first.
pub fn begins_with(text: &str, wanted: &str) -> bool
    ensures { result ≡ spec.begins_with text.now wanted.now }
{
    text.as_bytes().starts_with(wanted.as_bytes())
}

/// Whether the second text stands somewhere in the first.
pub fn has_within(text: &str, wanted: &str) -> bool
    ensures { result ≡ spec.has_within text.now wanted.now }
{
    text.contains(wanted)
}

// Whether the byte is the first of a character.
fn is_char_start(byte: u8) -> bool
    ensures { result ≡ fmt.is_char_start byte }
{
    byte < 0x80 || byte >= 0xC0
}

/// How many characters a text has.
pub fn char_count(text: &str) -> usize
    ensures { result ≡ fmt.char_count text.now }
{
    let mut count: usize = 0;
    for byte in text.as_bytes() {
        if is_char_start(*byte) {
            count += 1;
        }
    }
    count
}
