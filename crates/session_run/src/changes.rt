//! What one statement changes.
ghost use Rattle.std.specs.Prelude.{◌≡◌, ◌≤◌, Some, IfOk, length};
ghost use Rattle.session_run.specs.Effects.{AreValidChanges, with_changes};
ghost use Rattle.xml_model.specs.Changes.{unshared};

use std::alloc::Global;
use std::sync::Arc;
use xml_model::{Doc, DocChanges};
use xq_ast::{NoMemory, Sequence, Str};

/// A name and the document that it is to have, or none.
#[derive(Drop)]
pub(crate) struct Change {
    pub name: Str,
    pub after: Option<Arc<Doc>>,
}

impl Change {
    /// The name is to have this document.
    pub(crate) fn to(alloc: Global, name: &Str, doc: Doc) -> Result<Change, NoMemory>
        ensures { IfOk result (λ change. (change.name ≡ name.now) × (unshared change.after ≡ Some doc)) }
    {
        let shared = Arc::new(alloc, doc)?;
        Ok(Change {
            name: name.copy()?,
            after: Some(shared),
        })
    }
}

/// Changes, each made after those before it.
pub(crate) type ChangeList = Sequence<Change>;

/// Puts each of these changes into those of a transaction. Takes no memory, since there is room.
pub(crate) fn put_all(changes: &mut DocChanges, more: ChangeList)
    requires room { length more ≤ changes.old.room }
    requires valid { AreValidChanges more }
    ensures { changes.new.changes ≡ with_changes more changes.old.changes }
{
    for change in more.into_vec() {
        let Change { name, after } = change;
        changes.put(name, after);
    }
}
