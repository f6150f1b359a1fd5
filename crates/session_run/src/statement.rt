//! One statement over the documents that a session sees.
ghost use Rattle.std.specs.Prelude.{◌≡◌, IfOk, IfSome, map as list_map, [], ◌∷◌, length, nat_lt, IsTrue};
ghost use Rattle.xml_model.specs.Statement.{answer_of};
ghost use Rattle.xml_model.specs.Pyx.{ArePlain, read, text_of};
ghost use Rattle.session_core.specs.History.Transactions.{says_of};
ghost use Rattle.xq_ast.specs.Names.{is_document_name};
ghost use Rattle.xq_ast.specs.GoodNames.{has_good_names};
ghost use Rattle.xml_model.specs.Document.{IsValid};
ghost use Rattle.session_run.specs.Calls.{HasPlainLines};
ghost use Rattle.xml_model.specs.Changes.{unshared};
ghost use Rattle.session_run.specs.Effects.{AreValidChanges, IsChanged, IsEffect, IsPut, Spells};

use crate::changes::{Change, ChangeList};
use crate::query::query;
use crate::update::update;
use pyx_text::{PyxFault, PyxReader, lines_of};
use session_core::Says;
use std::alloc::Global;
use std::sync::Arc;
use xml_model::{Doc, DocChanges, DocMap, REPLY_BYTES_MAX};
use xq_ast::{Call, Code, Items, NoMemory, Sequence, Str, StrList};

/// What a statement says, and the changes that it makes.
#[derive(Drop)]
pub(crate) struct Effect {
    pub says: Says,
    pub changes: ChangeList,
}

/// An answer that changes nothing.
pub(crate) fn unchanged(alloc: Global, says: Says) -> Effect
    ensures says { result.says ≡ says }
    ensures changes { result.changes ≡ [] }
{
    Effect {
        says,
        changes: Sequence::new(alloc),
    }
}

fn refused(alloc: Global, code: Code) -> Effect
    ensures says { result.says ≡ Says.Error code }
    ensures changes { result.changes ≡ [] }
{
    unchanged(alloc, Says::Error(code))
}

// The name gets this document, or loses the one that it has.
fn changed(alloc: Global, name: &Str, after: Option<Arc<Doc>>) -> Result<Effect, NoMemory>
    requires named { IsTrue (is_document_name name.now) }
    requires valid { IfSome (unshared after) IsValid }
    ensures changed { IfOk result (IsChanged name.now (unshared after)) }
    ensures valid { IfOk result (λ effect. AreValidChanges effect.changes) }
{
    let mut changes = Sequence::new(alloc);
    changes.push(Change {
        name: name.copy()?,
        after,
    })?;
    Ok(Effect {
        says: Says::Done,
        changes,
    })
}

// Whether the lines with their newlines have more bytes than an answer may have.
fn is_too_long(lines: &StrList) -> bool
    ensures { result ≡ nat_lt REPLY_BYTES_MAX (length (text_of lines.now)) }
{
    let mut room = REPLY_BYTES_MAX;
    for line in lines.as_slice() {
        let bytes = line.len() as u64;
        if bytes >= room {
            return true;
        }
        room -= bytes + 1;
    }
    false
}

fn answer_with(lines: StrList) -> Says
    requires { ArePlain lines }
    ensures says { result ≡ says_of (answer_of lines) }
    ensures plain { HasPlainLines result }
{
    if is_too_long(&lines) {
        Says::Error(Code::ReplyTooLong)
    } else {
        Says::Lines(lines)
    }
}

fn read_lines(alloc: Global, lines: &StrList) -> Result<Doc, PyxFault>
    ensures { Spells result (read lines.now) }
{
    let mut reader = PyxReader::new(alloc);
    for line in lines.as_slice() {
        if let Err(fault) = reader.line(line) {
            return Err(fault);
        }
    }
    reader.end()
}

// The name gets a document.
fn put(alloc: Global, name: &Str, doc: Doc) -> Result<Effect, NoMemory>
    requires named { IsTrue (is_document_name name.now) }
    requires valid { IsValid doc }
    ensures put { IfOk result (IsPut name.now doc) }
    ensures valid { IfOk result (λ effect. AreValidChanges effect.changes) }
    ensures plain { IfOk result (λ effect. HasPlainLines effect.says) }
{
    let after = Arc::new(alloc, doc)?;
    changed(alloc, name, Some(after))
}

fn create(
    alloc: Global,
    base: &DocMap,
    changes: &DocChanges,
    name: &Str,
) -> Result<Effect, NoMemory>
    requires named { IsTrue (is_document_name name.now) }
    ensures effect { IfOk result (IsEffect (Call.Create name.now) changes.now.changes base.now) }
    ensures valid { IfOk result (λ effect. AreValidChanges effect.changes) }
    ensures plain { IfOk result (λ effect. HasPlainLines effect.says) }
{
    match changes.seen(base, name) {
        Some(_) => Ok(refused(alloc, Code::Exists)),
        None => put(
            alloc,
            name,
            Doc {
                kids: Items::new(alloc),
            },
        ),
    }
}

fn load(
    alloc: Global,
    base: &DocMap,
    changes: &DocChanges,
    name: &Str,
    lines: &StrList,
) -> Result<Effect, NoMemory>
    requires named { IsTrue (is_document_name name.now) }
    ensures effect { IfOk result (IsEffect (Call.Load name.now lines.now) changes.now.changes base.now) }
    ensures valid { IfOk result (λ effect. AreValidChanges effect.changes) }
    ensures plain { IfOk result (λ effect. HasPlainLines effect.says) }
{
    match changes.seen(base, name) {
        Some(_) => Ok(refused(alloc, Code::Exists)),
        None => match read_lines(alloc, lines) {
            Ok(doc) => put(alloc, name, doc),
            Err(PyxFault::Refused(line)) => Ok(refused(
                alloc,
                Code::Pyx {
                    why: line.why,
                    line: line.line,
                },
            )),
            Err(PyxFault::NoMemory) => Err(NoMemory),
        },
    }
}

fn take_away(
    alloc: Global,
    base: &DocMap,
    changes: &DocChanges,
    name: &Str,
) -> Result<Effect, NoMemory>
    requires named { IsTrue (is_document_name name.now) }
    ensures effect { IfOk result (IsEffect (Call.Drop name.now) changes.now.changes base.now) }
    ensures valid { IfOk result (λ effect. AreValidChanges effect.changes) }
    ensures plain { IfOk result (λ effect. HasPlainLines effect.says) }
{
    match changes.seen(base, name) {
        Some(_) => changed(alloc, name, None),
        None => Ok(refused(alloc, Code::FODC0002)),
    }
}

#[tactic(auto, using(crate::proofs::Plain::plain_pyx))]
fn export(
    alloc: Global,
    base: &DocMap,
    changes: &DocChanges,
    name: &Str,
) -> Result<Effect, NoMemory>
    ensures effect { IfOk result (IsEffect (Call.Export name.now) changes.now.changes base.now) }
    ensures valid { IfOk result (λ effect. AreValidChanges effect.changes) }
    ensures plain { IfOk result (λ effect. HasPlainLines effect.says) }
{
    match changes.seen(base, name) {
        Some(doc) => Ok(unchanged(alloc, answer_with(lines_of(alloc, doc)?))),
        None => Ok(refused(alloc, Code::FODC0002)),
    }
}

// A line for each name.
fn name_lines(alloc: Global, names: &StrList) -> Result<StrList, NoMemory>
    ensures { IfOk result (λ lines. lines ≡ list_map (λ name. 61 ∷ name) names.now) }
{
    let mut lines = Sequence::new(alloc);
    for name in names.as_slice() {
        let mut line = Str::of(alloc, "=")?;
        line.push_str(name.as_str())?;
        lines.push(line)?;
    }
    Ok(lines)
}

#[tactic(auto, using(crate::proofs::Plain::plain_names))]
fn show(alloc: Global, base: &DocMap, changes: &DocChanges) -> Result<Effect, NoMemory>
    ensures effect { IfOk result (IsEffect Call.ShowDocuments changes.now.changes base.now) }
    ensures valid { IfOk result (λ effect. AreValidChanges effect.changes) }
    ensures plain { IfOk result (λ effect. HasPlainLines effect.says) }
{
    let docs = base.with_changes(changes)?;
    // Hands out that each name is a document's name, which has no newline.
    docs.is_forest();
    let names = docs.names()?;
    Ok(unchanged(alloc, answer_with(name_lines(alloc, &names)?)))
}

/// What the call says over these documents with the changes laid over them, and what it changes.
/// A call that is no statement is done and changes nothing.
pub(crate) fn effect_of(
    alloc: Global,
    base: &DocMap,
    changes: &DocChanges,
    call: &Call,
) -> Result<Effect, NoMemory>
    requires named { IsTrue (has_good_names call.now) }
    ensures effect { IfOk result (IsEffect call.now changes.now.changes base.now) }
    ensures valid { IfOk result (λ effect. AreValidChanges effect.changes) }
    ensures plain { IfOk result (λ effect. HasPlainLines effect.says) }
{
    match call {
        Call::Create { name } => create(alloc, base, changes, name),
        Call::Load { name, pyx } => load(alloc, base, changes, name, pyx),
        Call::Drop { name } => take_away(alloc, base, changes, name),
        Call::Export { name } => export(alloc, base, changes, name),
        Call::ShowDocuments => show(alloc, base, changes),
        Call::Query { expr } => query(alloc, base, changes, call, expr),
        Call::Update { what } => update(alloc, base, changes, call, what),
        Call::Begin | Call::BeginRead | Call::Commit | Call::Rollback | Call::Checkpoint => {
            Ok(unchanged(alloc, Says::Done))
        }
    }
}
