//! Maps of documents.
ghost use Rattle.std.specs.Prelude.{◌≡◌, ℕ, List, [], ◌∷◌, ◌++◌, is_some, false, if◌then◌else◌, IsTrue, IfSome, IfOk, OnOk, OnErr};
ghost use Rattle.std.specs.FinMap as map;
ghost use Rattle.std.specs.Option.{option_copied};
ghost use Rattle.xq_ast.specs.Names.{is_document_name};
ghost use Rattle.xml_model.specs.Document.{IsValid};
ghost use Rattle.xml_model.specs.Forest.{no_documents, IsForest};
ghost use Rattle.xml_model.specs.Changes.{laid_over, unshared};
ghost use Rattle.xml_model.specs.Needs.{AgreeAt, has_need};

use crate::changes::DocChanges;
use crate::layers::{Layer, add_some, document, flat, shown};
use crate::node::Doc;
use std::alloc::Global;
use std::marker::Model;
use std::sync::Arc;
use xq_ast::{NeedList, NoMemory, Sequence, Str, StrList};

/// Documents by their names. Each is valid, and each name is a document's name. Copies share the
/// documents and their names.
#[derive(Drop)]
pub struct DocMap {
    layers: Vec<Layer>,
}

impl Model for DocMap {
    ghost use Rattle.xml_model.specs.Forest.{Forest, IsForest, forest_code};
    ghost use Rattle.xml_model.specs.Changes.{forest_of_layers};

    ghost Value = { Forest };

    ghost coded = { forest_code };

    ghost view = { λ m. forest_of_layers m.layers.items };

    ghost invariant = { λ m. IsForest (forest_of_layers m.layers.items) };
}

// Adds the name, where it has a document.
fn push_present(
    names: &mut StrList,
    alloc: Global,
    name: &str,
    after: &Option<Arc<Doc>>,
) -> Result<(), NoMemory>
    ensures { OnOk result (names.new ≡ (if is_some after.now then names.old ++ name.now ∷ [] else names.old)) }
{
    if after.is_none() {
        return Ok(());
    }
    names.push(Str::of(alloc, name)?)
}

impl DocMap {
    /// No documents. Takes no memory.
    pub fn new(alloc: Global) -> DocMap
        ensures { result ≡ no_documents }
    {
        DocMap {
            layers: Vec::new(alloc),
        }
    }

    /// The document of the name, if there is one. It is valid.
    pub fn get(&self, name: &Str) -> Option<&Doc>
        ensures document { option_copied result ≡ map.get self.now name.now }
        ensures valid { IfSome (option_copied result) IsValid }
    {
        shown(self.shared(name))
    }

    // The same document, shared.
    pub(crate) fn shared(&self, name: &Str) -> Option<&Arc<Doc>>
        ensures document { unshared (option_copied result) ≡ map.get self.now name.now }
        ensures valid { IfSome (unshared (option_copied result)) (λ doc. IsTrue (is_document_name name.now) × IsValid doc) }
    {
        document(&self.layers, name.as_str())
    }

    /// Gives the name this document. After an error all is as before, and the document is gone.
    pub fn insert(&mut self, name: Str, doc: Doc) -> Result<(), NoMemory>
        requires named { IsTrue (is_document_name name) }
        requires valid { IsValid doc }
        ensures ok { OnOk result (self.new ≡ map.insert self.old name doc) }
        ensures err { OnErr result (self.new ≡ self.old) }
    {
        let alloc = *self.layers.allocator();
        let shared = Arc::new(alloc, doc)?;
        let mut change = DocChanges::new(alloc);
        change.insert(name, Some(shared))?;
        *self = self.with_changes(&change)?;
        Ok(())
    }

    /// The map with these changes, which shares the documents. On average over a line of such
    /// calls, each on what the one before gave, a change takes time and memory by the logarithm of
    /// the most names that the line has had.
    pub fn with_changes(&self, changes: &DocChanges) -> Result<DocMap, NoMemory>
        ensures { IfOk result (λ docs. docs ≡ laid_over changes.now.changes self.now) }
    {
        let mut layers = self.layers.clone()?;
        add_some(&mut layers, &changes.entries)?;
        Ok(DocMap { layers })
    }

    /// The documents of these needs alone, as they are seen through the changes: documents are
    /// shared and not copied. Takes memory by the number of the needs, and time by that number and
    /// the logarithm of the most names that the map has had.
    pub fn needed(&self, changes: &DocChanges, needs: &NeedList) -> Result<DocMap, NoMemory>
        ensures named { IfOk result (λ docs. AgreeAt needs.now docs (laid_over changes.now.changes self.now)) }
        ensures others { IfOk result (λ docs. (name : List ℕ) → has_need name needs.now ≡ false → map.get docs name ≡ None) }
    {
        let alloc = *self.layers.allocator();
        let mut named = DocChanges::new(alloc);
        for need in needs.as_slice() {
            if let Some(doc) = changes.seen_shared(self, &need.name) {
                let doc = Arc::try_clone(doc)?;
                named.insert(need.name.copy()?, Some(doc))?;
            }
        }
        DocMap::new(alloc).with_changes(&named)
    }

    /// The names, in the order of their bytes.
    pub fn names(&self) -> Result<StrList, NoMemory>
        ensures { IfOk result (λ names. names ≡ map.keys self.now) }
    {
        let alloc = *self.layers.allocator();
        let mut all = flat(alloc, &self.layers)?;
        all.sort_keys()?;
        let mut names = Sequence::new(alloc);
        for (name, after) in &all {
            push_present(&mut names, alloc, name.as_str(), after)?;
        }
        Ok(names)
    }

    /// A map of the same documents, which are shared. Takes time and memory by the logarithm of
    /// the most names that the map has had.
    pub fn copy(&self) -> Result<DocMap, NoMemory>
        ensures { IfOk result (λ map. map ≡ self.now) }
    {
        Ok(DocMap {
            layers: self.layers.clone()?,
        })
    }

    /// Does nothing. It tells what is true of every map.
    pub fn is_forest(&self)
        ensures { IsForest self.now }
    {
        let _ = &self.layers;
    }
}
