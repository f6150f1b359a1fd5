// The input of a command, read to its end and spelled out.
ghost use Rattle.std.specs.Prelude.{◌≡◌, ◌∷◌, [], ◌==◌, count_by, Result, Ok, Err, IsOk};
ghost use Rattle.xml_model.specs.Pyx.{split_lines, split_ended_lines, read};
ghost use Rattle.xdb_top.specs.Input as spec;
ghost use Rattle.xdb_top.specs.Ends as ends;
ghost use Rattle.xdb_top.specs.Ends.{Gives, ReadsLines};

use crate::fault::{InputFault, InputRefusal};
use pyx_text::{PyxFault, PyxReader};
use std::alloc::Global;
use xml_model::{Doc, RefusedLine, first_line};
use xq_ast::{NoMemory, Str};

/// Why an input gave no document.
#[derive(Clone, Copy, Debug, PartialEq, Eq)]
pub(crate) enum InputEnd {
    Fault(InputFault),
    NoMemory,
}

impl From<NoMemory> for InputEnd {
    ghost use Rattle.std.specs.Prelude.{◌≡◌};
    ghost use Rattle.xdb_top.specs.declared.input.InputEnd.TheVariants.{NoMemory};

    ghost from_gives = { λ _ e. e ≡ NoMemory };

    fn from(_: NoMemory) -> InputEnd {
        InputEnd::NoMemory
    }
}

fn end_of(fault: PyxFault) -> InputEnd
    ensures { result ≡ ends.end_of fault }
{
    match fault {
        PyxFault::Refused(RefusedLine { why, line }) => InputEnd::Fault(InputFault {
            line,
            why: InputRefusal::Pyx(why),
        }),
        PyxFault::NoMemory => InputEnd::NoMemory,
    }
}

/// Gives a reader one line, in a text that is used again for each.
#[tactic(auto, using(crate::proofs::Lines::line_laws))]
fn give_line(reader: &mut PyxReader, buffer: &mut Str, line: &str) -> Result<(), InputEnd>
    ensures { ReadsLines result reader.old reader.new (line.now ∷ []) }
{
    buffer.clear();
    buffer.push_str(line)?;
    match reader.line(buffer) {
        Ok(()) => Ok(()),
        Err(fault) => Err(end_of(fault)),
    }
}

/// Gives a reader all lines of a text.
#[tactic(auto, using(crate::proofs::Lines::line_laws))]
fn read_lines(reader: &mut PyxReader, buffer: &mut Str, text: &str) -> Result<(), InputEnd>
    requires { IsOk reader.old }
    ensures { ReadsLines result reader.old reader.new (split_lines text.now) }
{
    let mut rest = text;
    while let Some(first) = first_line(rest) {
        give_line(reader, buffer, first.line)?;
        rest = first.rest;
    }
    Ok(())
}

/// Gives a reader those lines of a text that a newline ends.
#[tactic(auto, using(crate::proofs::Lines::line_laws))]
fn read_ended_lines(reader: &mut PyxReader, buffer: &mut Str, text: &str) -> Result<(), InputEnd>
    requires { IsOk reader.old }
    ensures { ReadsLines result reader.old reader.new (split_ended_lines text.now) }
{
    let mut rest = text;
    while let Some(first) = first_line(rest) {
        if !first.is_ended {
            break;
        }
        give_line(reader, buffer, first.line)?;
        rest = first.rest;
    }
    Ok(())
}

/// The document that a text spells.
#[tactic(auto, using(crate::proofs::Lines::line_laws))]
fn read_text(alloc: Global, text: &str) -> Result<Doc, InputEnd>
    ensures { Gives result (spec.of_text (read (split_lines text.now))) }
{
    let mut reader = PyxReader::new(alloc);
    let mut buffer = Str::new(alloc);
    read_lines(&mut reader, &mut buffer, text)?;
    match reader.end() {
        Ok(doc) => Ok(doc),
        Err(fault) => Err(end_of(fault)),
    }
}

/// The number of newlines.
fn newlines(text: &str) -> usize
    ensures { result ≡ count_by (λ b. b == 10) text.now }
{
    text.as_bytes().iter().filter(|b| **b == b'\n').count()
}

/// The first fault of an input whose first bad byte stands after this text.
fn read_front(alloc: Global, front: &str) -> Result<Doc, InputEnd>
    ensures { Gives result (spec.up_to_bad_byte front.now) }
{
    let mut reader = PyxReader::new(alloc);
    let mut buffer = Str::new(alloc);
    read_ended_lines(&mut reader, &mut buffer, front)?;
    Err(InputEnd::Fault(InputFault {
        line: newlines(front) as u64 + 1,
        why: InputRefusal::NotUtf8,
    }))
}

/// The document that the bytes spell, or the first fault.
pub(crate) fn read_input(alloc: Global, bytes: &[u8]) -> Result<Doc, InputEnd>
    ensures { Gives result (spec.spelled bytes.now) }
{
    match str::from_utf8(bytes) {
        Ok(text) => read_text(alloc, text),
        Err(fault) => match str::from_utf8(&bytes[..fault.valid_up_to()]) {
            Ok(front) => read_front(alloc, front),
            Err(_) => unreachable!(),
        },
    }
}
