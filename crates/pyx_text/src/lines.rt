//! Lines by their first character.
ghost use Rattle.std.specs.Prelude.{◌≡◌};
ghost use Rattle.xml_model.specs.Pyx as spec;
ghost use Rattle.pyx_text.specs.Progress.{reading_of, Takes};

use crate::escape::{behind, unescape};
use crate::fault::PyxFault;
use crate::progress::Progress;
use std::alloc::Global;
use xq_ast::PyxRefusal;

/// A name, and the text after the first space that follows it.
#[derive(Drop)]
struct Named<'a> {
    name: &'a str,
    spelled: &'a str,
}

fn split_name(rest: &str) -> Named<'_>
    ensures name { result.name.now ≡ spec.before_space rest.now }
    ensures spelled { result.spelled.now ≡ spec.behind_space rest.now }
{
    match rest.split_once(' ') {
        Some((name, spelled)) => Named { name, spelled },
        None => Named {
            name: rest,
            spelled: "",
        },
    }
}

/// Takes a line by its first character.
#[tactic(auto, using(crate::proofs::Forms::form_other))]
pub(crate) fn take_line(alloc: Global, progress: &mut Progress, text: &str) -> Result<(), PyxFault>
    ensures { Takes result (reading_of progress.old) (reading_of progress.new) (spec.form text.now) }
{
    if let Some(name) = behind(text, '(') {
        return progress.begin(name);
    }
    if let Some(name) = behind(text, ')') {
        return progress.end(name);
    }
    if let Some(rest) = behind(text, 'A') {
        let line = split_name(rest);
        let value = unescape(alloc, line.spelled)?;
        return progress.attribute(line.name, value);
    }
    if let Some(spelled) = behind(text, '-') {
        let value = unescape(alloc, spelled)?;
        return progress.characters(value);
    }
    if let Some(rest) = behind(text, '?') {
        let line = split_name(rest);
        let value = unescape(alloc, line.spelled)?;
        return progress.instruction(line.name, value);
    }
    Err(progress.refused(PyxRefusal::BadLine))
}
