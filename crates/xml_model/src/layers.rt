//! Layers of changes, of which a map of documents is made: its copies share the layers, so a
//! change costs a new layer and not the whole map.
ghost use Rattle.std.specs.Prelude.{◌≡◌, ◌+◌, ◌<◌, length, vec_len, IsTrue, IfOk, OnOk};
ghost use Rattle.std.specs.FinMap as map;
ghost use Rattle.std.specs.Option.{option_copied};
ghost use Rattle.xml_model.specs.Forest.{Forest, no_documents};
ghost use Rattle.xml_model.specs.Changes.{laid_over, with_document, unshared, changes_of_entries, forest_of_layers};
ghost use Rattle.xml_model.specs.Below.{IsBelow};

use crate::node::Doc;
use indexmap::IndexMap;
use std::alloc::Global;
use std::sync::Arc;
use xq_ast::NoMemory;

// Names with the document that each has now, or none where it is dropped.
pub(crate) type Entries = IndexMap<String, Option<Arc<Doc>>>;

pub(crate) type Layer = Arc<Entries>;

// What lies below a layer. Over nothing a dropped name need not be kept.
#[derive(Clone, Copy)]
pub(crate) enum Below {
    Nothing,
    Layers,
}

// The document behind a shared pointer.
pub(crate) fn shown<'a>(shared: Option<&'a Arc<Doc>>) -> Option<&'a Doc>
    ensures { option_copied result ≡ unshared (option_copied shared.entry) }
{
    match shared {
        Some(doc) => Some(doc),
        None => None,
    }
}

// The document of the name, shared: the newest layer that has the name tells.
pub(crate) fn document<'a>(layers: &'a [Layer], name: &str) -> Option<&'a Arc<Doc>>
    ensures { unshared (option_copied result) ≡ map.get (forest_of_layers layers.now) name.now }
{
    let mut older = layers;
    while let Some((layer, rest)) = older.split_last() {
        if let Some(after) = layer.get(name) {
            return after.as_ref();
        }
        older = rest;
    }
    None
}

fn shared(after: &Option<Arc<Doc>>) -> Result<Option<Arc<Doc>>, NoMemory>
    ensures { IfOk result (λ copy. unshared copy ≡ unshared after.now) }
{
    match after {
        Some(doc) => Ok(Some(Arc::try_clone(doc)?)),
        None => Ok(None),
    }
}

fn put(all: &mut Entries, name: &str, after: &Option<Arc<Doc>>) -> Result<(), NoMemory>
    ensures { OnOk result (changes_of_entries all.new.entries ≡ map.insert (changes_of_entries all.old.entries) name.now (unshared after.now)) }
{
    let name = String::from_str(*all.allocator(), name)?;
    let after = shared(after)?;
    let _ = all.insert(name, after)?;
    Ok(())
}

// Lays one change over a layer.
fn change(
    all: &mut Entries,
    below: Below,
    name: &str,
    after: &Option<Arc<Doc>>,
) -> Result<(), NoMemory>
    ensures { OnOk result ((F : Forest) → IsBelow below F → laid_over (changes_of_entries all.new.entries) F ≡ with_document name.now (unshared after.now) (laid_over (changes_of_entries all.old.entries) F)) }
{
    match (below, after) {
        (Below::Nothing, None) => {
            let _ = all.swap_remove(name);
            Ok(())
        }
        _ => put(all, name, after),
    }
}

// Lays changes over a layer.
fn lay(all: &mut Entries, below: Below, changes: &Entries) -> Result<(), NoMemory>
    ensures { OnOk result ((F : Forest) → IsBelow below F → laid_over (changes_of_entries all.new.entries) F ≡ laid_over (changes_of_entries changes.now.entries) (laid_over (changes_of_entries all.old.entries) F)) }
{
    let mut left = changes.len();
    while left > 0 {
        left -= 1;
        if let Some((name, after)) = changes.get_index(left) {
            change(all, below, name.as_str(), after)?;
        }
    }
    Ok(())
}

// All layers in one.
pub(crate) fn flat(alloc: Global, layers: &[Layer]) -> Result<Entries, NoMemory>
    ensures { IfOk result (λ all. laid_over (changes_of_entries all.entries) no_documents ≡ forest_of_layers layers.now) }
{
    let mut all = IndexMap::new(alloc);
    for layer in layers {
        lay(&mut all, Below::Nothing, layer)?;
    }
    Ok(all)
}

fn below_of(layers: &[Layer]) -> Below
    ensures { IsBelow result (forest_of_layers layers.now) }
{
    match layers {
        [] => Below::Nothing,
        _ => Below::Layers,
    }
}

fn merged(
    alloc: Global,
    below: Below,
    older: &Entries,
    newer: &Entries,
) -> Result<Entries, NoMemory>
    ensures { IfOk result (λ all. (F : Forest) → IsBelow below F → laid_over (changes_of_entries all.entries) F ≡ laid_over (changes_of_entries newer.now.entries) (laid_over (changes_of_entries older.now.entries) F)) }
{
    let mut all = IndexMap::with_capacity(alloc, older.len() + newer.len())?;
    lay(&mut all, below, older)?;
    lay(&mut all, below, newer)?;
    Ok(all)
}

// Puts the last two layers into one.
fn merge_last(layers: &mut Vec<Layer>) -> Result<(), NoMemory>
    requires { 1 < vec_len layers.old }
    ensures same { OnOk result (forest_of_layers layers.new.items ≡ forest_of_layers layers.old.items) }
    ensures fewer { OnOk result (vec_len layers.new + 1 ≡ vec_len layers.old) }
{
    let alloc = *layers.allocator();
    let newer = layers.pop().unwrap();
    let older = layers.pop().unwrap();
    let all = merged(alloc, below_of(layers), &older, &newer)?;
    layers.push(Arc::new(alloc, all)?)?;
    Ok(())
}

// Whether the older of the last two layers has at most twice as many names as the newer.
fn are_near(layers: &[Layer]) -> bool
    ensures { IsTrue result → 1 < length layers.now }
{
    match layers {
        [.., older, newer] => older.len() <= 2 * newer.len(),
        _ => false,
    }
}

// Merges layers until each has more than twice as many names as the next. So there are few of
// them, and a name that is copied comes into a larger layer, or other names go.
fn settle(layers: &mut Vec<Layer>) -> Result<(), NoMemory>
    ensures { OnOk result (forest_of_layers layers.new.items ≡ forest_of_layers layers.old.items) }
{
    while are_near(layers) {
        merge_last(layers)?;
    }
    Ok(())
}

// Adds a layer with these changes.
fn add(layers: &mut Vec<Layer>, changes: &Entries) -> Result<(), NoMemory>
    ensures { OnOk result (forest_of_layers layers.new.items ≡ laid_over (changes_of_entries changes.now.entries) (forest_of_layers layers.old.items)) }
{
    let alloc = *layers.allocator();
    let none = IndexMap::new(alloc);
    let layer = merged(alloc, below_of(layers), &none, changes)?;
    layers.push(Arc::new(alloc, layer)?)?;
    settle(layers)
}

// Adds a layer, where there are changes.
pub(crate) fn add_some(layers: &mut Vec<Layer>, changes: &Entries) -> Result<(), NoMemory>
    ensures { OnOk result (forest_of_layers layers.new.items ≡ laid_over (changes_of_entries changes.now.entries) (forest_of_layers layers.old.items)) }
{
    if changes.is_empty() {
        return Ok(());
    }
    add(layers, changes)
}
