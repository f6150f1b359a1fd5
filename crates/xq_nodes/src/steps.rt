//! Steps from stored nodes, without predicates.
ghost use Rattle.std.specs.Prelude.{◌≡◌, ◌&&◌, false, [], ◌∷◌, ◌++◌, IfOk, IfErr, OnOk, map};
ghost use Rattle.std.specs.List.{filter};
ghost use Rattle.xml_model.specs.Axes.{axis_nodes, nodes_at, parent_places};
ghost use Rattle.xml_model.specs.Nav.{stored_at, told_at};
ghost use Rattle.xml_model.specs.NavFaults.{Passes};
ghost use Rattle.xml_model.specs.Nodes as nodes;
ghost use Rattle.xq_nodes.specs.Steps as spec;
ghost use Rattle.xq_nodes.specs.Walks.{is_of_texts};

use crate::axes::parents;
use crate::calls::{first_of, kind_of, next_of};
use crate::walks::{IdList, is_attribute};
use std::alloc::Global;
use xml_model::{Id, Nav, NavEnd};
use xq_ast::{Axis, Kind, Sequence, Str, Test};

// Which of the nodes that stand in a node a walk takes. Attributes are not below a node.
#[derive(Clone, Copy, Debug, PartialEq, Eq)]
pub(crate) enum Way {
    Children,
    Attributes,
    Descendants,
}

// ---- tests

fn is_named(on_attributes: bool, kind: Kind) -> bool
    ensures { result ≡ spec.is_named on_attributes kind }
{
    match kind {
        Kind::Document => false,
        Kind::Element => !on_attributes,
        Kind::Attribute => on_attributes,
        Kind::Text => false,
        Kind::Pi => false,
    }
}

pub(crate) fn has_name(wanted: &Option<Str>, name: &Str) -> bool
    ensures { result ≡ nodes.has_name wanted.now name.now }
{
    match wanted {
        None => true,
        Some(wanted) => wanted.as_bytes() == name.as_bytes(),
    }
}

fn is_text(kind: Kind) -> bool
    ensures { result ≡ is_of_texts kind }
{
    match kind {
        Kind::Text => true,
        Kind::Document => false,
        Kind::Element => false,
        Kind::Attribute => false,
        Kind::Pi => false,
    }
}

fn is_instruction(kind: Kind) -> bool
    ensures { result ≡ spec.is_of_instructions kind }
{
    match kind {
        Kind::Pi => true,
        Kind::Document => false,
        Kind::Element => false,
        Kind::Attribute => false,
        Kind::Text => false,
    }
}

// Whether a node passes a name test. Its name is read only where its kind fits and it is asked for.
fn fits_name<N: Nav>(
    nav: &N,
    on_attributes: bool,
    wanted: &Option<Str>,
    n: Id,
) -> Result<bool, NavEnd<N::Fault>>
    ensures gives { IfOk result (λ is. N.honest nav.now → is ≡ (spec.is_named on_attributes (told_at (stored_at (N.forest nav.now) (N.place nav.now n))).kind && nodes.has_name wanted.now (told_at (stored_at (N.forest nav.now) (N.place nav.now n))).name)) }
    ensures fault { IfErr result (Passes (N.passes nav.now)) }
{
    if !is_named(on_attributes, kind_of(nav, n)?) {
        return Ok(false);
    }
    if wanted.is_none() {
        return Ok(true);
    }
    Ok(has_name(wanted, &nav.name(n)?))
}

fn fits<N: Nav>(nav: &N, on_attributes: bool, test: &Test, n: Id) -> Result<bool, NavEnd<N::Fault>>
    ensures gives { IfOk result (λ is. N.honest nav.now → is ≡ spec.fits (N.forest nav.now) on_attributes test.now (N.place nav.now n)) }
    ensures fault { IfErr result (Passes (N.passes nav.now)) }
{
    match test {
        Test::Name { name } => fits_name(nav, on_attributes, name, n),
        Test::AnyNode => Ok(true),
        Test::Text => Ok(is_text(kind_of(nav, n)?)),
        Test::Pi => Ok(is_instruction(kind_of(nav, n)?)),
    }
}

// ---- walks that test as they go

// Adds a node that passes the test.
fn add_fitting<N: Nav>(
    all: &mut IdList,
    nav: &N,
    on_attributes: bool,
    test: &Test,
    n: Id,
) -> Result<(), NavEnd<N::Fault>>
    ensures gives { OnOk result (N.honest nav.now → map (N.place nav.now) all.new ≡ map (N.place nav.now) all.old ++ filter (spec.fits (N.forest nav.now) on_attributes test.now) (N.place nav.now n ∷ [])) }
    ensures fault { IfErr result (Passes (N.passes nav.now)) }
{
    if !fits(nav, on_attributes, test, n)? {
        return Ok(());
    }
    all.push(n)?;
    Ok(())
}

// Adds what comes of a child that stands in a node.
#[cycle(inside)]
fn add_child<N: Nav>(
    all: &mut IdList,
    nav: &N,
    way: Way,
    test: &Test,
    n: Id,
) -> Result<(), NavEnd<N::Fault>>
    ensures gives { OnOk result (N.honest nav.now → map (N.place nav.now) all.new ≡ map (N.place nav.now) all.old ++ filter (spec.fits (N.forest nav.now) (spec.is_way_of_attributes way) test.now) (spec.from_child way (N.forest nav.now) (N.place nav.now n))) }
    ensures fault { IfErr result (Passes (N.passes nav.now)) }
{
    match way {
        Way::Children => add_fitting(all, nav, false, test, n),
        Way::Attributes => Ok(()),
        Way::Descendants => {
            add_fitting(all, nav, false, test, n)?;
            add_inside(all, nav, Way::Descendants, test, n)?;
            Ok(())
        }
    }
}

fn add_attribute<N: Nav>(
    all: &mut IdList,
    nav: &N,
    way: Way,
    test: &Test,
    n: Id,
) -> Result<(), NavEnd<N::Fault>>
    ensures gives { OnOk result (N.honest nav.now → map (N.place nav.now) all.new ≡ map (N.place nav.now) all.old ++ filter (spec.fits (N.forest nav.now) (spec.is_way_of_attributes way) test.now) (spec.from_attribute way (N.place nav.now n))) }
    ensures fault { IfErr result (Passes (N.passes nav.now)) }
{
    match way {
        Way::Children => Ok(()),
        Way::Attributes => add_fitting(all, nav, true, test, n),
        Way::Descendants => Ok(()),
    }
}

// Adds what comes of a node that stands in another one.
#[cycle(inside)]
fn add_one<N: Nav>(
    all: &mut IdList,
    nav: &N,
    way: Way,
    test: &Test,
    n: Id,
) -> Result<(), NavEnd<N::Fault>>
    ensures gives { OnOk result (N.honest nav.now → map (N.place nav.now) all.new ≡ map (N.place nav.now) all.old ++ filter (spec.fits (N.forest nav.now) (spec.is_way_of_attributes way) test.now) (spec.with_way way (N.forest nav.now) (N.place nav.now n))) }
    ensures fault { IfErr result (Passes (N.passes nav.now)) }
{
    if is_attribute(nav, n)? {
        add_attribute(all, nav, way, test, n)?;
        return Ok(());
    }
    add_child(all, nav, way, test, n)?;
    Ok(())
}

// Adds what a way finds from a node and passes the test.
#[cycle(inside)]
fn add_inside<N: Nav>(
    all: &mut IdList,
    nav: &N,
    way: Way,
    test: &Test,
    n: Id,
) -> Result<(), NavEnd<N::Fault>>
    ensures gives { OnOk result (N.honest nav.now → map (N.place nav.now) all.new ≡ map (N.place nav.now) all.old ++ filter (spec.fits (N.forest nav.now) (spec.is_way_of_attributes way) test.now) (spec.inside way (N.forest nav.now) (N.place nav.now n))) }
    ensures fault { IfErr result (Passes (N.passes nav.now)) }
{
    let mut at = first_of(nav, n)?;
    while let Some(m) = at {
        add_one(all, nav, way, test, m)?;
        at = next_of(nav, m)?;
    }
    Ok(())
}

// ---- axes

fn inside_fitting<N: Nav>(
    alloc: Global,
    nav: &N,
    way: Way,
    test: &Test,
    n: Id,
) -> Result<IdList, NavEnd<N::Fault>>
    ensures gives { IfOk result (λ all. N.honest nav.now → map (N.place nav.now) all ≡ filter (spec.fits (N.forest nav.now) (spec.is_way_of_attributes way) test.now) (spec.inside way (N.forest nav.now) (N.place nav.now n))) }
    ensures fault { IfErr result (Passes (N.passes nav.now)) }
{
    let mut all = Sequence::new(alloc);
    add_inside(&mut all, nav, way, test, n)?;
    Ok(all)
}

fn self_fitting<N: Nav>(
    alloc: Global,
    nav: &N,
    test: &Test,
    n: Id,
) -> Result<IdList, NavEnd<N::Fault>>
    ensures gives { IfOk result (λ all. N.honest nav.now → map (N.place nav.now) all ≡ filter (spec.fits (N.forest nav.now) false test.now) (N.place nav.now n ∷ [])) }
    ensures fault { IfErr result (Passes (N.passes nav.now)) }
{
    let mut all = Sequence::new(alloc);
    add_fitting(&mut all, nav, false, test, n)?;
    Ok(all)
}

fn self_or_below<N: Nav>(
    alloc: Global,
    nav: &N,
    test: &Test,
    n: Id,
) -> Result<IdList, NavEnd<N::Fault>>
    ensures gives { IfOk result (λ all. N.honest nav.now → map (N.place nav.now) all ≡ filter (spec.fits (N.forest nav.now) false test.now) (spec.from_child Way.Descendants (N.forest nav.now) (N.place nav.now n))) }
    ensures fault { IfErr result (Passes (N.passes nav.now)) }
{
    let mut all = Sequence::new(alloc);
    add_child(&mut all, nav, Way::Descendants, test, n)?;
    Ok(all)
}

fn parent_fitting<N: Nav>(
    alloc: Global,
    nav: &N,
    test: &Test,
    n: Id,
) -> Result<IdList, NavEnd<N::Fault>>
    ensures gives { IfOk result (λ all. N.honest nav.now → map (N.place nav.now) all ≡ filter (spec.fits (N.forest nav.now) false test.now) (nodes_at parent_places (N.forest nav.now) (N.place nav.now n))) }
    ensures fault { IfErr result (Passes (N.passes nav.now)) }
{
    let mut all = Sequence::new(alloc);
    let found = parents(alloc, nav, n)?;
    for parent in found.as_slice() {
        add_fitting(&mut all, nav, false, test, *parent)?;
    }
    Ok(all)
}

// The nodes of an axis that pass the test, in document order.
pub(crate) fn axis_fitting<N: Nav>(
    alloc: Global,
    nav: &N,
    axis: Axis,
    test: &Test,
    n: Id,
) -> Result<IdList, NavEnd<N::Fault>>
    ensures gives { IfOk result (λ all. N.honest nav.now → map (N.place nav.now) all ≡ filter (spec.fits (N.forest nav.now) (nodes.is_attribute_axis axis) test.now) (axis_nodes axis (N.forest nav.now) (N.place nav.now n))) }
    ensures fault { IfErr result (Passes (N.passes nav.now)) }
{
    match axis {
        Axis::Child => inside_fitting(alloc, nav, Way::Children, test, n),
        Axis::Attribute => inside_fitting(alloc, nav, Way::Attributes, test, n),
        Axis::Descendant => inside_fitting(alloc, nav, Way::Descendants, test, n),
        Axis::DescendantOrSelf => self_or_below(alloc, nav, test, n),
        Axis::Itself => self_fitting(alloc, nav, test, n),
        Axis::Parent => parent_fitting(alloc, nav, test, n),
    }
}
