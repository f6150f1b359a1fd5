//! Atomizing.
ghost use Rattle.std.specs.Prelude.{Ok, map};
ghost use Rattle.std.specs.FinMap as forests;
ghost use Rattle.xml_model.specs.Nodes as spec;
ghost use Rattle.xml_model.specs.Tuples as tuples;
ghost use Rattle.xq_nodes.specs.Answers.{Looks};
ghost use Rattle.xq_values.specs.Seen.{item_seen, made_seen};

use std::alloc::Global;
use xml_model::{Atom, Key, Nav, SharedText};
use xq_ast::Items;
use xq_nodes::{EvalEnd, value_of};
use xq_values::{Item, MadeRoot, key_of};

/// The atomic value of an item: a node gives its string value, untyped.
pub(crate) fn atom_of<N: Nav>(
    alloc: Global,
    nav: &N,
    made: &[MadeRoot],
    item: &Item,
) -> Result<Atom, EvalEnd<N::Fault>>
    ensures { Looks (N.honest nav.now) (N.passes nav.now) (λ a. a) result
        (Ok (spec.atomized_item (forests.get (N.forest nav.now)) (made_seen made.now) (item_seen (N.place nav.now) item.now))) }
{
    match item {
        Item::Node { id } => {
            let text = value_of(alloc, nav, made, id)?;
            Ok(Atom::Untyped {
                text: SharedText::of(alloc, text)?,
            })
        }
        Item::Text { text } => Ok(Atom::Text { text: text.copy()? }),
        Item::Int { value } => Ok(Atom::Int { value: *value }),
        Item::Truth { value } => Ok(Atom::Truth { value: *value }),
    }
}

/// The atomic value of each item of a list.
pub fn atomized<N: Nav>(
    alloc: Global,
    nav: &N,
    made: &[MadeRoot],
    items: &[Item],
) -> Result<Items<Atom>, EvalEnd<N::Fault>>
    ensures { Looks (N.honest nav.now) (N.passes nav.now) (λ all. all) result
        (Ok (spec.atomized (forests.get (N.forest nav.now)) (made_seen made.now) (map (item_seen (N.place nav.now)) items.now))) }
{
    let mut all = Items::new(alloc);
    for item in items {
        all.push(atom_of(alloc, nav, made, item)?)?;
    }
    Ok(all)
}

/// The key of `order by` that items are made.
pub fn key_of_items<N: Nav>(
    alloc: Global,
    nav: &N,
    made: &[MadeRoot],
    items: &[Item],
) -> Result<Key, EvalEnd<N::Fault>>
    ensures { Looks (N.honest nav.now) (N.passes nav.now) (λ k. k) result
        (tuples.key_of (spec.atomized (forests.get (N.forest nav.now)) (made_seen made.now) (map (item_seen (N.place nav.now)) items.now))) }
{
    let atoms = atomized(alloc, nav, made, items)?;
    Ok(key_of(atoms.as_slice())?)
}
