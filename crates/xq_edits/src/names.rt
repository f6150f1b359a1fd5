//! The names of an element's attributes once changes are made.
ghost use Rattle.std.specs.Prelude.{◌≡◌, ◌≤◌, ◌++◌, ◌∷◌, [], Some, IfOk, IfErr, OnOk, drop, length, map};
ghost use Rattle.std.specs.FinMap as forests;
ghost use Rattle.std.specs.Ordering.{is_eq};
ghost use Rattle.std.specs.declared.cmp.Ordering.TheVariants.{Less};
ghost use Rattle.xml_model.specs.Axes.{attribute_places, nodes_at};
ghost use Rattle.xml_model.specs.DocumentOrder.{node_cmp};
ghost use Rattle.xml_model.specs.Edits as spec;
ghost use Rattle.xml_model.specs.Nav.{Stored};
ghost use Rattle.xq_edits.specs.Names.{change_at, changes_from, name_at, names_along, names_edited, names_of};
ghost use Rattle.xq_edits.specs.Seen.{change_seen};
ghost use Rattle.xq_edits.specs.Turns.{nodes_of};
ghost use Rattle.xq_nodes.specs.Answers.{IsFault};
ghost use Rattle.xq_nodes.specs.Joins.{Rises};

use crate::change::Change;
use crate::nav_calls::order_of;
use std::alloc::Global;
use std::cmp::Ordering;
use xml_model::{Attr, AttrList, EditKind, Id, Nav};
use xq_ast::{NoMemory, Sequence, Str};
use xq_nodes::{EvalEnd, attributes};
use xq_values::has_name_twice;

// ---- names

// Adds an attribute that has its name alone.
fn add_name(alloc: Global, all: &mut AttrList, name: Str) -> Result<(), NoMemory>
    ensures { OnOk result (names_of all.new ≡ names_of all.old ++ name ∷ []) }
{
    all.push(Attr {
        name,
        value: Str::new(alloc),
    })
}

fn add_names(alloc: Global, all: &mut AttrList, attrs: &AttrList) -> Result<(), NoMemory>
    ensures { OnOk result (names_of all.new ≡ names_of all.old ++ names_of attrs.now) }
{
    for attr in attrs.as_slice() {
        add_name(alloc, all, attr.name.copy()?)?;
    }
    Ok(())
}

// Adds the name of an attribute that stays.
fn add_name_of<N: Nav>(
    alloc: Global,
    nav: &N,
    all: &mut AttrList,
    n: Id,
) -> Result<(), EvalEnd<N::Fault>>
    ensures gives { OnOk result (N.honest nav.now → names_of all.new ≡ names_of all.old ++ name_at (N.forest nav.now) (N.place nav.now n) ∷ []) }
    ensures fault { IfErr result (IsFault (N.passes nav.now)) }
{
    let name = nav.name(n)?;
    Ok(add_name(alloc, all, name)?)
}

// Adds the names in the place of an attribute that is changed.
fn add_changed<N: Nav>(
    alloc: Global,
    nav: &N,
    all: &mut AttrList,
    n: Id,
    what: &EditKind,
) -> Result<(), EvalEnd<N::Fault>>
    ensures gives { OnOk result (N.honest nav.now → names_of all.new ≡ names_of all.old ++ names_edited (name_at (N.forest nav.now) (N.place nav.now n)) (Some what.now)) }
    ensures fault { IfErr result (IsFault (N.passes nav.now)) }
{
    match what {
        EditKind::Into { .. } => add_name_of(alloc, nav, all, n),
        EditKind::Before { .. } => add_name_of(alloc, nav, all, n),
        EditKind::After { .. } => add_name_of(alloc, nav, all, n),
        EditKind::Delete => Ok(()),
        EditKind::Undeep => Ok(()),
        EditKind::Put { attrs, .. } => Ok(add_names(alloc, all, attrs)?),
        EditKind::Rename { name } => Ok(add_name(alloc, all, name.copy()?)?),
    }
}

// ---- changes

// How many changes come before all that come after the element: goes back from the last one.
fn changes_up_to<N: Nav>(nav: &N, done: &[Change], element: Id) -> Result<usize, EvalEnd<N::Fault>>
    ensures within { IfOk result (λ from. from ≤ length done.now) }
    ensures gives { IfOk result (λ from. N.honest nav.now → Rises node_cmp (nodes_of (map (change_seen (N.place nav.now)) done.now)) → (n : Stored) → node_cmp (N.place nav.now element) n ≡ Less →
        changes_from n (map (change_seen (N.place nav.now)) (drop from done.now)) ≡ changes_from n (map (change_seen (N.place nav.now)) done.now)) }
    ensures fault { IfErr result (IsFault (N.passes nav.now)) }
{
    let mut from = done.len();
    'back: while from > 0 {
        match order_of(nav, element, done[from - 1].node)? {
            Ordering::Less => {
                from -= 1;
            }
            Ordering::Equal => return Ok(from),
            Ordering::Greater => return Ok(from),
        }
    }
    Ok(from)
}

// Goes on from this change to the first one that does not come before the node.
fn skip_before<N: Nav>(
    nav: &N,
    done: &[Change],
    from: usize,
    n: Id,
) -> Result<usize, EvalEnd<N::Fault>>
    requires { from ≤ length done.now }
    ensures within { IfOk result (λ at. at ≤ length done.now) }
    ensures gives { IfOk result (λ at. N.honest nav.now →
        map (change_seen (N.place nav.now)) (drop at done.now) ≡ changes_from (N.place nav.now n) (map (change_seen (N.place nav.now)) (drop from done.now))) }
    ensures fault { IfErr result (IsFault (N.passes nav.now)) }
{
    let mut at = from;
    'passing: while at < done.len() {
        match order_of(nav, done[at].node, n)? {
            Ordering::Less => {
                at += 1;
            }
            Ordering::Equal => return Ok(at),
            Ordering::Greater => return Ok(at),
        }
    }
    Ok(at)
}

pub(crate) fn is_same<N: Nav>(nav: &N, a: Id, b: Id) -> Result<bool, EvalEnd<N::Fault>>
    ensures gives { IfOk result (λ is. N.honest nav.now → is ≡ is_eq (node_cmp (N.place nav.now a) (N.place nav.now b))) }
    ensures fault { IfErr result (IsFault (N.passes nav.now)) }
{
    match order_of(nav, a, b)? {
        Ordering::Less => Ok(false),
        Ordering::Equal => Ok(true),
        Ordering::Greater => Ok(false),
    }
}

// Adds the names in the place of an attribute: none of the changes from this one on comes before it.
fn add_names_at<N: Nav>(
    alloc: Global,
    nav: &N,
    all: &mut AttrList,
    done: &[Change],
    at: usize,
    last: &Change,
    n: Id,
) -> Result<(), EvalEnd<N::Fault>>
    requires { at ≤ length done.now }
    ensures gives { OnOk result (N.honest nav.now → names_of all.new ≡ names_of all.old ++ names_edited (name_at (N.forest nav.now) (N.place nav.now n))
        (change_at (change_seen (N.place nav.now) last.now) (map (change_seen (N.place nav.now)) (drop at done.now)) (N.place nav.now n))) }
    ensures fault { IfErr result (IsFault (N.passes nav.now)) }
{
    if is_same(nav, last.node, n)? {
        return add_changed(alloc, nav, all, n, &last.what);
    }
    if at < done.len() {
        if is_same(nav, done[at].node, n)? {
            return add_changed(alloc, nav, all, n, &done[at].what);
        }
    }
    add_name_of(alloc, nav, all, n)
}

// The attributes of the element after these changes and a last one, by their names alone.
fn attributes_after<N: Nav>(
    alloc: Global,
    nav: &N,
    element: Id,
    done: &[Change],
    last: &Change,
) -> Result<AttrList, EvalEnd<N::Fault>>
    requires rising { N.honest nav.now → Rises node_cmp (nodes_of (map (change_seen (N.place nav.now)) done.now)) }
    ensures gives { IfOk result (λ all. N.honest nav.now →
        names_of all ≡ names_along (N.forest nav.now) (change_seen (N.place nav.now) last.now) (map (change_seen (N.place nav.now)) done.now) (nodes_at attribute_places (N.forest nav.now) (N.place nav.now element))) }
    ensures fault { IfErr result (IsFault (N.passes nav.now)) }
{
    let nodes = attributes(alloc, nav, element)?;
    let mut all = Sequence::new(alloc);
    let mut at = changes_up_to(nav, done, element)?;
    for n in nodes.as_slice() {
        at = skip_before(nav, done, at, *n)?;
        add_names_at(alloc, nav, &mut all, done, at, last, *n)?;
    }
    Ok(all)
}

/// Whether two attributes of the element have one name after these changes and a last one. Takes
/// time by the square of the number of its attributes and of those that come, and else by the number
/// of changes among them.
pub(crate) fn names_twice<N: Nav>(
    alloc: Global,
    nav: &N,
    element: Id,
    done: &[Change],
    last: &Change,
) -> Result<bool, EvalEnd<N::Fault>>
    requires rising { N.honest nav.now → Rises node_cmp (nodes_of (map (change_seen (N.place nav.now)) done.now) ++ N.place nav.now last.now.node ∷ []) }
    ensures gives { IfOk result (λ is. N.honest nav.now →
        is ≡ spec.names_twice (forests.get (N.forest nav.now)) (map (change_seen (N.place nav.now)) done.now ++ change_seen (N.place nav.now) last.now ∷ []) (Some (N.place nav.now element))) }
    ensures fault { IfErr result (IsFault (N.passes nav.now)) }
{
    let all = attributes_after(alloc, nav, element, done, last)?;
    Ok(has_name_twice(all.as_slice()))
}
