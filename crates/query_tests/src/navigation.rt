//! What no clause says of navigation: answers over documents that were read, and a `Nav` that fails.
use pyx_text::{PyxFault, PyxReader};
use std::alloc::Global;
use std::cell::Cell;
use std::cmp::Ordering;
use std::process::Abort;
use std::test::Fail;
use xml_model::{Attr, Doc, DocMap, Id, Nav, NavEnd, NoFault, Node, PlacedRef, TreeNav, TreeRows};
use xq_ast::{Axis, Kind, NoMemory, Str, is_document_name};
use xq_nodes::{IdList, merge, on_axis, string_value};

fn read(alloc: Global, text: &str) -> Result<Doc, PyxFault> {
    let mut reader = PyxReader::new(alloc);
    for line in text.split('\n') {
        reader.line(&Str::of(alloc, line)?)?;
    }
    reader.end()
}

/// Gives the name this document, where both are good.
fn keep(alloc: Global, docs: &mut DocMap, name: &str, doc: Doc) -> Result<(), NoMemory> {
    if !is_document_name(name) || !doc.is_valid() {
        return Ok(());
    }
    docs.insert(Str::of(alloc, name)?, doc)
}

/// `e` is `<r>8<b/><i n="w" k="f">7</i></r>`, and `B` is `<a/>`.
pub(crate) fn two_documents(alloc: Global) -> Result<DocMap, PyxFault> {
    let mut docs = DocMap::new(alloc);
    let e = read(alloc, "(r\n-8\n(b\n)b\n(i\nAn w\nAk f\n-7\n)i\n)r")?;
    keep(alloc, &mut docs, "e", e)?;
    keep(alloc, &mut docs, "B", read(alloc, "(a\n)a")?)?;
    Ok(docs)
}

fn id(doc: u32, node: u32) -> Id {
    Id { doc, node }
}

/// The node of this number in the second document, if there is one.
fn node(answer: Result<Option<Id>, NoFault>) -> Option<u32> {
    match answer {
        Ok(Some(n)) => Some(n.node),
        _ => None,
    }
}

#[test]
fn documents_are_numbered_by_their_names(rt: HostRuntime) -> Result<(), Fail> {
    let alloc = rt.alloc();
    let docs = two_documents(alloc)?;
    let nav = TreeNav::of(&docs)?;
    for (name, want) in [("B", Some(id(0, 0))), ("e", Some(id(1, 0))), ("d", None)] {
        assert_eq!(rt; nav.root(&Str::of(alloc, name)?).ok(), Some(want));
    }
    Ok(())
}

/// What stands first in each node, behind it and above it: the document, r, 8, b, i, n, k and 7.
#[test]
fn chains_are_attributes_and_then_children(rt: HostRuntime) -> Result<(), Fail> {
    let docs = two_documents(rt.alloc())?;
    let nav = TreeNav::of(&docs)?;
    for (n, first, next, parent) in [
        (0, Some(1), None, None),
        (1, Some(2), None, Some(0)),
        (2, None, Some(3), Some(1)),
        (3, None, Some(4), Some(1)),
        (4, Some(5), None, Some(1)),
        (5, None, Some(6), Some(4)),
        (6, None, Some(7), Some(4)),
        (7, None, None, Some(4)),
        (8, None, None, None),
    ] {
        assert_eq!(rt; node(nav.first(id(1, n))), first);
        assert_eq!(rt; node(nav.next(id(1, n))), next);
        assert_eq!(rt; node(nav.parent(id(1, n))), parent);
    }
    Ok(())
}

#[test]
fn nodes_tell_kind_name_and_value(rt: HostRuntime) -> Result<(), Fail> {
    let docs = two_documents(rt.alloc())?;
    let nav = TreeNav::of(&docs)?;
    for (n, kind, name, value) in [
        (0, Kind::Document, "", ""),
        (1, Kind::Element, "r", ""),
        (2, Kind::Text, "", "8"),
        (5, Kind::Attribute, "n", "w"),
        (6, Kind::Attribute, "k", "f"),
        (7, Kind::Text, "", "7"),
    ] {
        assert_eq!(rt; nav.kind(id(1, n)).ok(), Some(kind));
        if let (Ok(told), Ok(kept)) = (nav.name(id(1, n)), nav.value(id(1, n))) {
            assert_eq!(rt; told.as_str(), name);
            assert_eq!(rt; kept.as_str(), value);
        }
    }
    Ok(())
}

fn check_order(rt: &(impl Abort + Print), nav: &TreeNav, before: Id, after: Id) {
    assert_eq!(rt; nav.order(before, after).ok(), Some(Ordering::Less));
    assert_eq!(rt; nav.order(after, before).ok(), Some(Ordering::Greater));
    assert_eq!(rt; nav.order(after, after).ok(), Some(Ordering::Equal));
}

/// Attributes, siblings, what is in a node, and two documents.
#[test]
fn nodes_are_in_document_order(rt: HostRuntime) -> Result<(), Fail> {
    let docs = two_documents(rt.alloc())?;
    let nav = TreeNav::of(&docs)?;
    for (before, after) in [
        (id(1, 4), id(1, 5)),
        (id(1, 5), id(1, 6)),
        (id(1, 6), id(1, 7)),
        (id(1, 2), id(1, 3)),
        (id(1, 3), id(1, 7)),
        (id(0, 1), id(1, 0)),
    ] {
        check_order(&rt, &nav, before, after);
    }
    Ok(())
}

/// An attribute and a text that stand alone are trees too, and a root has no parent.
#[test]
fn nodes_that_stand_alone(rt: HostRuntime) -> Result<(), Fail> {
    let alloc = rt.alloc();
    let attr = Attr {
        name: Str::of(alloc, "n")?,
        value: Str::of(alloc, "w")?,
    };
    let rows = TreeRows::of(alloc, PlacedRef::Attribute(&attr))?;
    assert_eq!(rt; rows.kind(0), Kind::Attribute);
    assert_eq!(rt; rows.value(0)?.as_str(), "w");
    assert_eq!(rt; rows.first(0), None);
    assert_eq!(rt; rows.parent(0), None);
    let text = Node::Text {
        value: Str::of(alloc, "7")?,
    };
    let rows = TreeRows::of(alloc, PlacedRef::Node(&text))?;
    assert_eq!(rt; rows.kind(0), Kind::Text);
    assert_eq!(rt; rows.value(0)?.as_str(), "7");
    assert_eq!(rt; rows.next(0), None);
    Ok(())
}

/// The fault of a `Nav` that fails.
#[derive(Clone, Copy, Debug, PartialEq, Eq)]
pub(crate) struct Broken;

/// Plain trees whose calls fail once so many have been answered.
#[derive(Drop)]
pub(crate) struct Failing<'a> {
    nav: TreeNav<'a>,
    left: Cell<u32>,
}

impl<'a> Failing<'a> {
    fn spend(&self) -> Result<(), Broken> {
        let left = self.left.get();
        if left == 0 {
            return Err(Broken);
        }
        self.left.set(left - 1);
        Ok(())
    }
}

impl<'a> Nav for Failing<'a> {
    ghost use Rattle.std.proofs.Common.{ap, arith};
    ghost use Rattle.xml_model.specs.OneNumber.{same_number};
    ghost use Rattle.std.specs.Prelude.{◌-◌, ◌^◌};
    ghost use Rattle.xml_model.specs.Forest.{IsForest};
    ghost use Rattle.xml_model.specs.TreeNodes.{name_at, node_of_id};

    type Fault = Broken;

    ghost passes = { λ f fault. Unit {0} };

    ghost honest = { λ f. IsForest f.nav };

    ghost forest = { λ f. f.nav };

    ghost place = { λ f n. node_of_id f.nav n };

    ghost number = { λ f n. 2 ^ 32 - n.node };

    fn root(&self, name: &Str) -> Result<Option<Id>, Broken> {
        self.spend()?;
        match self.nav.root(name) {
            Ok(root) => Ok(root),
            Err(_) => Err(Broken),
        }
    }

    fn first(&self, n: Id) -> Result<Option<Id>, Broken> {
        self.spend()?;
        match self.nav.first(n) {
            Ok(first) => Ok(first),
            Err(_) => Err(Broken),
        }
    }

    fn next(&self, n: Id) -> Result<Option<Id>, Broken> {
        self.spend()?;
        match self.nav.next(n) {
            Ok(next) => Ok(next),
            Err(_) => Err(Broken),
        }
    }

    fn parent(&self, n: Id) -> Result<Option<Id>, Broken> {
        self.spend()?;
        match self.nav.parent(n) {
            Ok(parent) => Ok(parent),
            Err(_) => Err(Broken),
        }
    }

    fn kind(&self, n: Id) -> Result<Kind, Broken> {
        self.spend()?;
        match self.nav.kind(n) {
            Ok(kind) => Ok(kind),
            Err(_) => Err(Broken),
        }
    }

    fn order(&self, a: Id, b: Id) -> Result<Ordering, Broken> {
        self.spend()?;
        match self.nav.order(a, b) {
            Ok(order) => Ok(order),
            Err(_) => Err(Broken),
        }
    }

    fn name(&self, n: Id) -> Result<Str, NavEnd<Broken>> {
        match self.nav.name(n) {
            Ok(name) => Ok(name),
            Err(NavEnd::NoMemory) => Err(NavEnd::NoMemory),
            Err(NavEnd::Nav(_)) => Err(NavEnd::Nav(Broken)),
        }
    }

    fn value(&self, n: Id) -> Result<Str, NavEnd<Broken>> {
        match self.nav.value(n) {
            Ok(value) => Ok(value),
            Err(NavEnd::NoMemory) => Err(NavEnd::NoMemory),
            Err(NavEnd::Nav(_)) => Err(NavEnd::Nav(Broken)),
        }
    }

    ghost few = { λ f n. Prim.omega arith };

    ghost named = { λ f a b honest same. ap (name_at f.nav) same };

    ghost same = { λ f. same_number f.nav };

    ghost valid = { λ f honest. honest };
}

/// The documents, of which so many calls are answered.
pub(crate) fn failing_after(docs: &DocMap, calls: u32) -> Result<Failing, NoMemory> {
    Ok(Failing {
        nav: TreeNav::of(docs)?,
        left: Cell::new(calls),
    })
}

/// Whether the nodes below the document `e` are found where so many calls are answered.
fn is_found(alloc: Global, docs: &DocMap, calls: u32) -> Result<bool, NoMemory> {
    let nav = failing_after(docs, calls)?;
    match on_axis(alloc, &nav, Axis::Descendant, id(1, 0)) {
        Ok(all) => Ok(all.len() == 5),
        Err(NavEnd::Nav(Broken)) => Ok(false),
        Err(NavEnd::NoMemory) => Err(NoMemory),
    }
}

/// To find the five nodes takes 20 calls: six for what is first, and two for each of seven nodes in a chain.
#[test]
fn a_fault_is_handed_on(rt: HostRuntime) -> Result<(), Fail> {
    let alloc = rt.alloc();
    let docs = two_documents(alloc)?;
    for calls in 0..24 {
        assert_eq!(rt; is_found(alloc, &docs, calls)?, calls >= 20);
    }
    Ok(())
}

fn check_nodes(rt: &(impl Abort + Print), found: Result<IdList, NavEnd<NoFault>>, want: &[u32]) {
    match found {
        Ok(all) => {
            assert_eq!(rt; all.len(), want.len());
            for (n, node) in all.as_slice().iter().zip(want) {
                assert_eq!(rt; *n, id(1, *node));
            }
        }
        Err(_) => assert!(rt; false),
    }
}

/// From r, i and its first attribute.
#[test]
fn axes(rt: HostRuntime) -> Result<(), Fail> {
    let alloc = rt.alloc();
    let docs = two_documents(alloc)?;
    let nav = TreeNav::of(&docs)?;
    for (axis, n, want) in [
        (Axis::Child, 1, [2, 3, 4].as_slice()),
        (Axis::Attribute, 4, [5, 6].as_slice()),
        (Axis::Child, 4, [7].as_slice()),
        (Axis::Descendant, 1, [2, 3, 4, 7].as_slice()),
        (Axis::DescendantOrSelf, 4, [4, 7].as_slice()),
        (Axis::Parent, 5, [4].as_slice()),
        (Axis::Parent, 0, [].as_slice()),
        (Axis::Itself, 5, [5].as_slice()),
        (Axis::Child, 5, [].as_slice()),
    ] {
        check_nodes(&rt, on_axis(alloc, &nav, axis, id(1, n)), want);
    }
    let a = [id(1, 1), id(1, 4), id(1, 5)];
    let b = [id(1, 2), id(1, 4), id(1, 7)];
    check_nodes(&rt, merge(alloc, &nav, &a, &b), &[1, 2, 4, 5, 7]);
    Ok(())
}

#[test]
fn string_values(rt: HostRuntime) -> Result<(), Fail> {
    let alloc = rt.alloc();
    let docs = two_documents(alloc)?;
    let nav = TreeNav::of(&docs)?;
    for (n, want) in [(0, "87"), (1, "87"), (3, ""), (4, "7"), (5, "w"), (7, "7")] {
        match string_value(alloc, &nav, id(1, n)) {
            Ok(text) => assert_eq!(rt; text.as_str(), want),
            Err(_) => assert!(rt; false),
        }
    }
    Ok(())
}
