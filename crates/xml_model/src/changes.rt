//! Changes of documents, as a transaction gathers them before it commits.
ghost use Rattle.std.specs.Prelude.{◌≡◌, ◌+◌, ◌<◌, ◌≤◌, IsTrue, IfSome, OnOk, OnErr};
ghost use Rattle.std.specs.FinMap as map;
ghost use Rattle.std.specs.Option.{option_copied};
ghost use Rattle.xq_ast.specs.Names.{is_document_name};
ghost use Rattle.xml_model.specs.Document.{IsValid};
ghost use Rattle.xml_model.specs.Changes.{AreValidChanges, no_changes, laid_over, unshared};

use crate::forest::DocMap;
use crate::layers::{Entries, shown};
use crate::node::Doc;
use indexmap::IndexMap;
use std::alloc::Global;
use std::marker::Model;
use std::sync::Arc;
use xq_ast::{NoMemory, Str};

/// Names with the document that each has now, or none where it is dropped. Each document is valid,
/// and each name is a document's name. Contracts see the changes, and for how many more names
/// there is room.
#[derive(Drop)]
pub struct DocChanges {
    pub(crate) entries: Entries,
}

impl Model for DocChanges {
    ghost use Rattle.indexmap.specs.IndexMap.{spare};
    ghost use Rattle.xml_model.specs.Changes.{Changing, changing_code, changes_of_entries, AreValidChanges};

    ghost Value = { Changing };

    ghost coded = { changing_code };

    ghost view = { λ c. record { changes = changes_of_entries c.entries.entries; room = spare c.entries } };

    ghost invariant = { λ c. AreValidChanges (changes_of_entries c.entries.entries) };
}

impl DocChanges {
    /// No changes. Takes no memory.
    pub fn new(alloc: Global) -> DocChanges
        ensures { result.changes ≡ no_changes }
    {
        DocChanges {
            entries: IndexMap::new(alloc),
        }
    }

    /// The document of the name, seen through the changes. It is valid.
    pub fn seen<'a>(&'a self, base: &'a DocMap, name: &Str) -> Option<&'a Doc>
        ensures document { option_copied result ≡ map.get (laid_over self.now.changes base.now) name.now }
        ensures valid { IfSome (option_copied result) IsValid }
    {
        shown(self.seen_shared(base, name))
    }

    // The same document, shared.
    pub(crate) fn seen_shared<'a>(&'a self, base: &'a DocMap, name: &Str) -> Option<&'a Arc<Doc>>
        ensures document { unshared (option_copied result) ≡ map.get (laid_over self.now.changes base.now) name.now }
        ensures valid { IfSome (unshared (option_copied result)) (λ doc. IsTrue (is_document_name name.now) × IsValid doc) }
    {
        match self.entries.get(name.as_str()) {
            Some(after) => after.as_ref(),
            None => base.shared(name),
        }
    }

    /// Takes the room for so many changes more.
    pub fn reserve(&mut self, more: usize) -> Result<(), NoMemory>
        ensures same { self.new.changes ≡ self.old.changes }
        ensures room { OnOk result (more ≤ self.new.room) }
    {
        self.entries.reserve(more)?;
        Ok(())
    }

    /// Gives the name this document, or drops it where there is none. Takes no memory, since there
    /// is room.
    pub fn put(&mut self, name: Str, after: Option<Arc<Doc>>)
        requires room { 0 < self.old.room }
        requires named { IsTrue (is_document_name name) }
        requires valid { IfSome (unshared after) IsValid }
        ensures changes { self.new.changes ≡ map.insert self.old.changes name (unshared after) }
        ensures room { self.old.room ≤ self.new.room + 1 }
    {
        let _ = self.entries.insert(name.into_string(), after);
    }

    /// The same where room is still to be taken. After an error nothing has changed.
    pub fn insert(&mut self, name: Str, after: Option<Arc<Doc>>) -> Result<(), NoMemory>
        requires named { IsTrue (is_document_name name) }
        requires valid { IfSome (unshared after) IsValid }
        ensures ok { OnOk result (self.new.changes ≡ map.insert self.old.changes name (unshared after)) }
        ensures err { OnErr result (self.new.changes ≡ self.old.changes) }
    {
        self.reserve(1)?;
        self.put(name, after);
        Ok(())
    }

    /// Forgets all changes. Takes no memory.
    pub fn clear(&mut self)
        ensures { self.new.changes ≡ no_changes }
    {
        self.entries.clear();
    }

    /// Does nothing. It tells what is true of all changes.
    pub fn are_valid(&self)
        ensures { AreValidChanges self.now.changes }
    {
        let _ = &self.entries;
    }
}
