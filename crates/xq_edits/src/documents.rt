//! The edits of each document.
ghost use Rattle.std.specs.Prelude.{◌≡◌, ◌++◌, ◌∷◌, ◌≤◌, [], false, map, Ok, IfOk, IfErr, OnOk, MatchOption};
ghost use Rattle.std.specs.List.{filter};
ghost use Rattle.std.specs.Option.{option_map};
ghost use Rattle.std.specs.VecDeque.{deque_len};
ghost use Rattle.xml_model.specs.declared.nav.Id.{Id};
ghost use Rattle.xml_model.specs.DocumentOrder.{node_cmp};
ghost use Rattle.xml_model.specs.Edits as spec;
ghost use Rattle.xml_model.specs.Nav.{Stored, root_of};
ghost use Rattle.xq_edits.specs.Documents.{AreEditsOf, AreNamed};
ghost use Rattle.xq_edits.specs.Finds.{Finds};
ghost use Rattle.xq_edits.specs.Groups as groups;
ghost use Rattle.xq_edits.specs.Seen.{change_seen};
ghost use Rattle.xq_edits.specs.Turns.{nodes_of};
ghost use Rattle.xq_nodes.specs.Answers.{IsFault};
ghost use Rattle.xq_nodes.specs.Joins.{Rises};

use crate::change::{Change, ChangeList};
use std::alloc::Global;
use std::collections::VecDeque;
use xml_model::{DocEdits, DocEditsList, Edit, EditList, Id, Nav};
use xq_ast::{NoMemory, Sequence, Str, StrList};
use xq_nodes::EvalEnd;

// A document that is there: its name and its node.
#[derive(Debug, Drop)]
struct NamedRoot {
    name: Str,
    node: Id,
}

type NamedRootList = Sequence<NamedRoot>;

fn root_of<N: Nav>(nav: &N, name: &Str) -> Result<Option<Id>, EvalEnd<N::Fault>>
    ensures gives { IfOk result (λ o. N.honest nav.now → option_map (N.place nav.now) o ≡ root_of (N.forest nav.now) name.now) }
    ensures fault { IfErr result (IsFault (N.passes nav.now)) }
{
    match nav.root(name) {
        Ok(node) => Ok(node),
        Err(fault) => Err(EvalEnd::Nav(fault)),
    }
}

// Adds the document of this name, if there is one.
fn add_root<N: Nav>(roots: &mut NamedRootList, nav: &N, name: &Str) -> Result<(), EvalEnd<N::Fault>>
    ensures names { OnOk result (N.honest nav.now → groups.names_of roots.new ≡ groups.names_of roots.old ++ filter (groups.is_there (N.forest nav.now)) (name.now ∷ [])) }
    ensures nodes { OnOk result (N.honest nav.now → groups.AreRoots (N.place nav.now) roots.old → groups.AreRoots (N.place nav.now) roots.new) }
    ensures fault { IfErr result (IsFault (N.passes nav.now)) }
{
    match root_of(nav, name)? {
        Some(node) => {
            let name = name.copy()?;
            Ok(roots.push(NamedRoot { name, node })?)
        }
        None => Ok(()),
    }
}

// The documents of the names, as far as they are there.
fn roots_of<N: Nav>(
    alloc: Global,
    nav: &N,
    names: &StrList,
) -> Result<NamedRootList, EvalEnd<N::Fault>>
    ensures names { IfOk result (λ roots. N.honest nav.now → groups.names_of roots ≡ filter (groups.is_there (N.forest nav.now)) names.now) }
    ensures nodes { IfOk result (λ roots. N.honest nav.now → groups.AreRoots (N.place nav.now) roots) }
    ensures fault { IfErr result (IsFault (N.passes nav.now)) }
{
    let mut roots = Sequence::new(alloc);
    for name in names.as_slice() {
        add_root(&mut roots, nav, name)?;
    }
    Ok(roots)
}

// The name of the document with this number.
fn name_of(roots: &[NamedRoot], doc: u32) -> Result<Option<Str>, NoMemory>
    ensures { IfOk result (λ name. name ≡ groups.named_by roots.now doc) }
{
    for root in roots {
        if root.node.doc == doc {
            return Ok(Some(root.name.copy()?));
        }
    }
    Ok(None)
}

fn begins_in(changes: &VecDeque<Change>, doc: u32) -> bool
    ensures { result ≡ groups.begins_in doc changes.now.items }
{
    match changes.front() {
        Some(change) => change.node.doc == doc,
        None => false,
    }
}

// Takes the next change, if it is one of the document with this number.
fn next_in(changes: &mut VecDeque<Change>, doc: u32) -> Option<Change>
    ensures { MatchOption result
        ((groups.begins_in doc changes.old.items ≡ false) × (changes.new.items ≡ changes.old.items))
        (λ change. (change.node.doc ≡ doc) × (changes.old.items ≡ change ∷ changes.new.items)) }
{
    if begins_in(changes, doc) {
        changes.pop_front()
    } else {
        None
    }
}

fn edit_of(change: Change) -> Edit
    ensures { result ≡ groups.edit_of change }
{
    Edit {
        at: change.node.node,
        what: change.what,
    }
}

// The edits of a change and of those after it, up to one of another document. The others stay.
fn first_group(
    alloc: Global,
    first: Change,
    changes: &mut VecDeque<Change>,
) -> Result<EditList, NoMemory>
    ensures edits { IfOk result (λ edits. edits ≡ groups.edit_of first ∷ groups.same_document first.node.doc changes.old.items) }
    ensures others { OnOk result (changes.new.items ≡ groups.from_other first.node.doc changes.old.items) }
    ensures fewer { OnOk result (deque_len changes.new ≤ deque_len changes.old) }
{
    let doc = first.node.doc;
    let mut edits = Sequence::new(alloc);
    edits.push(edit_of(first))?;
    while let Some(change) = next_in(changes, doc) {
        edits.push(edit_of(change))?;
    }
    Ok(edits)
}

// Adds the edits of the document with this number, if its name is known.
fn add_group(
    all: &mut DocEditsList,
    roots: &[NamedRoot],
    doc: u32,
    edits: EditList,
) -> Result<(), NoMemory>
    ensures { OnOk result (all.new ≡ all.old ++ groups.edits_named (groups.named_by roots.now doc) edits) }
{
    match name_of(roots, doc)? {
        Some(name) => all.push(DocEdits { name, edits }),
        None => Ok(()),
    }
}

// The edits of each document of these.
fn grouped(
    alloc: Global,
    roots: &[NamedRoot],
    changes: ChangeList,
) -> Result<DocEditsList, NoMemory>
    ensures { IfOk result (λ all. (place : Id → Stored) → groups.AreTold place roots.now changes → AreEditsOf place all (spec.by_document (map (change_seen place) changes))) }
{
    let mut all = Sequence::new(alloc);
    let mut left = VecDeque::from_vec(changes.into_vec());
    'groups: while let Some(first) = left.pop_front() {
        let doc = first.node.doc;
        let edits = first_group(alloc, first, &mut left)?;
        add_group(&mut all, roots, doc, edits)?;
    }
    Ok(all)
}

/// The changes by their documents, which are among these names, in the order of the names.
pub fn by_document<N: Nav>(
    alloc: Global,
    nav: &N,
    names: &StrList,
    changes: ChangeList,
) -> Result<DocEditsList, EvalEnd<N::Fault>>
    requires rising { N.honest nav.now → Rises node_cmp (nodes_of (map (change_seen (N.place nav.now)) changes)) }
    requires named { N.honest nav.now → AreNamed (N.forest nav.now) names.now (nodes_of (map (change_seen (N.place nav.now)) changes)) }
    ensures { Finds (N.honest nav.now) (N.passes nav.now) (AreEditsOf (N.place nav.now)) result (Ok (spec.by_document (map (change_seen (N.place nav.now)) changes))) }
{
    let roots = roots_of(alloc, nav, names)?;
    Ok(grouped(alloc, roots.as_slice(), changes)?)
}
