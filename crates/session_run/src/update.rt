//! Updates over the documents that they name.
ghost use Rattle.std.specs.Prelude.{◌≡◌, All, IfOk, IsTrue};
ghost use Rattle.session_run.specs.Calls.{HasPlainLines};
ghost use Rattle.session_run.specs.Effects.{AreValidChanges, IsEffect};
ghost use Rattle.session_run.specs.Updates.{CanBeRemade, Remakes, RemakesAll, remade_all};
ghost use Rattle.tree_edit.specs.Numbered.{RisesFrom};
ghost use Rattle.xml_model.specs.Document.{IsValid};
ghost use Rattle.xml_model.specs.Edits.{updated};
ghost use Rattle.xq_ast.specs.GoodNames.{has_good_names};

use crate::changes::{Change, ChangeList};
use crate::statement::{Effect, unchanged};
use session_core::Says;
use std::alloc::Global;
use tree_edit::EditEnd;
use xml_model::{Doc, DocChanges, DocEdits, DocEditsList, DocMap, TreeNav, needs};
use xq_ast::{Call, NoMemory, Sequence, Update};
use xq_nodes::EvalEnd;

// The document after its edits, under its name.
fn remade(alloc: Global, at: &DocEdits, doc: &Doc) -> Result<Change, EditEnd>
    requires valid { IsValid doc.now }
    requires rising { RisesFrom 0 at.now.edits }
    ensures { Remakes at.now doc.now result }
{
    let new = tree_edit::apply(alloc, doc, &at.edits)?;
    Ok(Change::to(alloc, &at.name, new)?)
}

// The documents after their edits, or the first limit that one of them would be past.
fn all_remade(alloc: Global, docs: &DocMap, edits: &DocEditsList) -> Result<ChangeList, EditEnd>
    requires edits { All (CanBeRemade docs.now) edits.now }
    ensures remade { RemakesAll docs.now result (remade_all docs.now docs.now edits.now) }
    ensures valid { IfOk result AreValidChanges }
{
    // Hands out that each name of a document is one.
    docs.is_forest();
    let mut changes = Sequence::new(alloc);
    for at in edits.as_slice() {
        let Some(doc) = docs.get(&at.name) else {
            continue;
        };
        changes.push(remade(alloc, at, doc)?)?;
    }
    Ok(changes)
}

// What an update changes in these documents, or its code.
fn changes_of(alloc: Global, docs: &DocMap, what: &Update) -> Result<ChangeList, EditEnd>
    requires named { IsTrue (has_good_names (Call.Update what.now)) }
    ensures changes { RemakesAll docs.now result (updated docs.now what.now) }
    ensures valid { IfOk result AreValidChanges }
{
    let nav = TreeNav::of(docs)?;
    match xq_eval::targets(alloc, &nav, what) {
        Ok(edits) => all_remade(alloc, docs, &edits),
        Err(EvalEnd::Code(code)) => Err(EditEnd::Code(code)),
        Err(EvalEnd::Nav(fault)) => match fault {},
        Err(EvalEnd::NoMemory) => Err(EditEnd::NoMemory),
    }
}

/// What an update says over these documents with the changes laid over them, and what it changes.
/// It is handed the documents that it names, and no others.
pub(crate) fn update(
    alloc: Global,
    base: &DocMap,
    changes: &DocChanges,
    call: &Call,
    what: &Update,
) -> Result<Effect, NoMemory>
    requires call { call.now ≡ Call.Update what.now }
    requires named { IsTrue (has_good_names call.now) }
    ensures effect { IfOk result (IsEffect call.now changes.now.changes base.now) }
    ensures valid { IfOk result (λ effect. AreValidChanges effect.changes) }
    ensures plain { IfOk result (λ effect. HasPlainLines effect.says) }
{
    let needed = needs(alloc, call)?;
    let docs = base.needed(changes, &needed)?;
    match changes_of(alloc, &docs, what) {
        Ok(changes) => Ok(Effect {
            says: Says::Done,
            changes,
        }),
        Err(EditEnd::Code(code)) => Ok(unchanged(alloc, Says::Error(code))),
        Err(EditEnd::NoMemory) => Err(NoMemory),
    }
}
