//! The calls of evaluation on nodes, each with ample memory, over stored and over constructed ones.
use std::alloc::{AllocError, Global};
use std::cmp::Ordering;
use std::process::Abort;
use std::test::Fail;
use xml_model::{Attr, Doc, DocMap, Id, NoFault, Node, PlaceStep, PlacedRef, TreeNav};
use xq_ast::{Axis, Items, NoMemory, Sequence, Str, Test};
use xq_nodes::{
    Copied, EvalEnd, Joining, NodeIds, copy, in_order, made_at, name_of, node_order, tested,
    united, value_of, with_node,
};
use xq_values::{Content, MadeList, MadePlace, MadeRoot, NodeId};

// ---- what is looked at

fn text(alloc: Global, value: &str) -> Result<Node, NoMemory> {
    Ok(Node::Text {
        value: Str::of(alloc, value)?,
    })
}

fn attribute(alloc: Global, name: &str, value: &str) -> Result<Attr, NoMemory> {
    Ok(Attr {
        name: Str::of(alloc, name)?,
        value: Str::of(alloc, value)?,
    })
}

fn element(alloc: Global, name: &str) -> Result<Node, NoMemory> {
    Ok(Node::Element {
        name: Str::of(alloc, name)?,
        attrs: Sequence::new(alloc),
        kids: Items::new(alloc),
    })
}

/// `<a n="1">x</a>`
fn inner(alloc: Global) -> Result<Node, NoMemory> {
    let mut attrs = Sequence::new(alloc);
    attrs.push(attribute(alloc, "n", "1")?)?;
    let mut kids = Items::new(alloc);
    kids.push(text(alloc, "x")?)?;
    Ok(Node::Element {
        name: Str::of(alloc, "a")?,
        attrs,
        kids,
    })
}

/// `<r><a n="1">x</a><b/>y</r>`
fn outer(alloc: Global) -> Result<Node, NoMemory> {
    let mut kids = Items::new(alloc);
    kids.push(inner(alloc)?)?;
    kids.push(element(alloc, "b")?)?;
    kids.push(text(alloc, "y")?)?;
    Ok(Node::Element {
        name: Str::of(alloc, "r")?,
        attrs: Sequence::new(alloc),
        kids,
    })
}

/// The document `d` is `<r><a n="1">x</a><b/>y</r>`. Its nodes are numbered from 0: the document,
/// r, a, n, x, b and y.
fn one_document(alloc: Global) -> Result<DocMap, NoMemory> {
    let mut kids = Items::new(alloc);
    kids.push(outer(alloc)?)?;
    let doc = Doc { kids };
    let mut docs = DocMap::new(alloc);
    if doc.is_valid() {
        docs.insert(Str::of(alloc, "d")?, doc)?;
    }
    Ok(docs)
}

/// The constructed trees are `<a n="1">x</a>`, and an attribute q with the value 7.
fn two_trees(alloc: Global) -> Result<MadeList, NoMemory> {
    let mut made = Items::new(alloc);
    made.push(MadeRoot::Node {
        node: inner(alloc)?,
    })?;
    made.push(MadeRoot::Attribute {
        attr: attribute(alloc, "q", "7")?,
    })?;
    Ok(made)
}

fn stored(number: u32) -> NodeId {
    NodeId::Stored {
        id: Id {
            doc: 0,
            node: number,
        },
    }
}

fn constructed(alloc: Global, tree: usize, steps: &[PlaceStep]) -> Result<NodeId, NoMemory> {
    let mut place = Sequence::new(alloc);
    for step in steps {
        place.push(*step)?;
    }
    Ok(NodeId::Made {
        at: MadePlace { tree, place },
    })
}

fn stored_list(alloc: Global, numbers: &[u32]) -> Result<NodeIds, NoMemory> {
    let mut all = Sequence::new(alloc);
    for number in numbers {
        all.push(stored(*number))?;
    }
    Ok(all)
}

/// The numbers of stored nodes. Of others and of a call that failed there are none.
fn numbers(
    alloc: Global,
    nodes: Result<NodeIds, EvalEnd<NoFault>>,
) -> Result<Vec<u32>, AllocError> {
    let mut all = Vec::new(alloc);
    let Ok(nodes) = nodes else {
        return Ok(all);
    };
    for node in nodes.as_slice() {
        if let NodeId::Stored { id } = node {
            all.push(id.node)?;
        }
    }
    Ok(all)
}

/// The steps to constructed nodes, each list behind the number of its steps. Of a call that failed
/// there are none.
fn steps(
    alloc: Global,
    nodes: Result<NodeIds, EvalEnd<NoFault>>,
) -> Result<Vec<PlaceStep>, AllocError> {
    let mut all = Vec::new(alloc);
    let Ok(nodes) = nodes else {
        return Ok(all);
    };
    for node in nodes.as_slice() {
        if let NodeId::Made { at } = node {
            all.extend_from_slice(at.place.as_slice())?;
        }
    }
    Ok(all)
}

fn check_text(rt: &(impl Abort + Print), answer: Result<Str, EvalEnd<NoFault>>, want: &str) {
    match answer {
        Ok(text) => assert_eq!(rt; text.as_str(), want),
        Err(_) => assert_eq!(rt; "an end", want),
    }
}

fn answered(answer: Result<Content, EvalEnd<NoFault>>) -> Result<Content, NoMemory> {
    match answer {
        Ok(content) => Ok(content),
        Err(_) => Err(NoMemory),
    }
}

// ---- order

fn check_order(rt: &(impl Abort + Print), nav: &TreeNav, a: &NodeId, b: &NodeId, want: Ordering) {
    assert_eq!(rt; node_order(nav, a, b).ok(), Some(want));
}

#[test]
fn stored_nodes_are_before_constructed_ones(rt: HostRuntime) -> Result<(), Fail> {
    let alloc = rt.alloc();
    let docs = one_document(alloc)?;
    let nav = TreeNav::of(&docs)?;
    let root = constructed(alloc, 0, &[])?;
    check_order(&rt, &nav, &stored(2), &stored(5), Ordering::Less);
    check_order(&rt, &nav, &stored(6), &root, Ordering::Less);
    check_order(&rt, &nav, &root, &stored(6), Ordering::Greater);
    Ok(())
}

#[test]
fn constructed_nodes_are_in_order(rt: HostRuntime) -> Result<(), Fail> {
    let alloc = rt.alloc();
    let docs = one_document(alloc)?;
    let nav = TreeNav::of(&docs)?;
    let kid = constructed(alloc, 0, &[PlaceStep::Kid(0)])?;
    let attr = constructed(alloc, 0, &[PlaceStep::Attr(0)])?;
    let later = constructed(alloc, 1, &[])?;
    check_order(&rt, &nav, &attr, &kid, Ordering::Less);
    check_order(&rt, &nav, &kid, &later, Ordering::Less);
    check_order(&rt, &nav, &kid, &kid, Ordering::Equal);
    Ok(())
}

#[test]
fn lists_are_joined_without_duplicates(rt: HostRuntime) -> Result<(), Fail> {
    let alloc = rt.alloc();
    let docs = one_document(alloc)?;
    let nav = TreeNav::of(&docs)?;
    let left = stored_list(alloc, &[1, 2, 5])?;
    let right = stored_list(alloc, &[2, 4, 6])?;
    assert_eq!(rt;
        numbers(alloc, united(alloc, &nav, left, right))?.as_slice(),
        [1, 2, 4, 5, 6].as_slice()
    );
    let mixed = stored_list(alloc, &[6, 2, 4, 2])?;
    assert_eq!(rt;
        numbers(alloc, in_order(alloc, &nav, mixed))?.as_slice(),
        [2, 4, 6].as_slice()
    );
    Ok(())
}

#[test]
fn results_of_many_nodes_are_joined(rt: HostRuntime) -> Result<(), Fail> {
    let alloc = rt.alloc();
    let docs = one_document(alloc)?;
    let nav = TreeNav::of(&docs)?;
    let mut joining = Joining::new(alloc);
    for list in [
        &[4, 6].as_slice(),
        &[1].as_slice(),
        &[].as_slice(),
        &[1, 2, 4].as_slice(),
        &[5].as_slice(),
    ] {
        assert!(rt; joining.push(&nav, stored_list(alloc, list)?).is_ok());
    }
    assert_eq!(rt;
        numbers(alloc, joining.finish(&nav))?.as_slice(),
        [1, 2, 4, 5, 6].as_slice()
    );
    Ok(())
}

// ---- steps

#[test]
fn steps_from_stored_nodes(rt: HostRuntime) -> Result<(), Fail> {
    let alloc = rt.alloc();
    let docs = one_document(alloc)?;
    let nav = TreeNav::of(&docs)?;
    let any = Test::Name { name: None };
    let b = Test::Name {
        name: Some(Str::of(alloc, "b")?),
    };
    for (axis, test, from, want) in [
        (Axis::Child, &any, 1, [2, 5].as_slice()),
        (Axis::Child, &b, 1, [5].as_slice()),
        (Axis::Child, &Test::Text, 1, [6].as_slice()),
        (
            Axis::Descendant,
            &Test::AnyNode,
            0,
            [1, 2, 4, 5, 6].as_slice(),
        ),
        (Axis::Descendant, &Test::Text, 0, [4, 6].as_slice()),
        (Axis::DescendantOrSelf, &any, 1, [1, 2, 5].as_slice()),
        (Axis::Attribute, &any, 2, [3].as_slice()),
        (Axis::Attribute, &b, 2, [].as_slice()),
        (Axis::Parent, &any, 3, [2].as_slice()),
        (Axis::Itself, &Test::Pi, 2, [].as_slice()),
    ] {
        let found = tested(alloc, &nav, &[], axis, test, &stored(from));
        assert_eq!(rt; numbers(alloc, found)?.as_slice(), want);
    }
    Ok(())
}

/// The steps to the nodes that are found on an axis of a constructed element.
fn steps_on(alloc: Global, axis: Axis, test: &Test) -> Result<Vec<PlaceStep>, Fail> {
    let docs = one_document(alloc)?;
    let nav = TreeNav::of(&docs)?;
    let made = two_trees(alloc)?;
    let root = constructed(alloc, 0, &[])?;
    let found = tested(alloc, &nav, made.as_slice(), axis, test, &root);
    Ok(steps(alloc, found)?)
}

#[test]
fn steps_from_a_constructed_element(rt: HostRuntime) -> Result<(), Fail> {
    let alloc = rt.alloc();
    let any = Test::Name { name: None };
    for (axis, test, want) in [
        (Axis::Child, &Test::AnyNode, PlaceStep::Kid(0)),
        (Axis::Attribute, &any, PlaceStep::Attr(0)),
        (Axis::DescendantOrSelf, &Test::Text, PlaceStep::Kid(0)),
    ] {
        assert_eq!(rt; steps_on(alloc, axis, test)?.as_slice(), [want].as_slice());
    }
    Ok(())
}

#[test]
fn parent_of_a_constructed_node(rt: HostRuntime) -> Result<(), Fail> {
    let alloc = rt.alloc();
    let docs = one_document(alloc)?;
    let nav = TreeNav::of(&docs)?;
    let made = two_trees(alloc)?;
    let kid = constructed(alloc, 0, &[PlaceStep::Kid(0)])?;
    let any = Test::Name { name: None };
    let parent = tested(alloc, &nav, made.as_slice(), Axis::Parent, &any, &kid);
    assert_eq!(rt; parent.is_ok_and(|all| all.len() == 1), true);
    Ok(())
}

// ---- what nodes tell

#[test]
fn values_and_names(rt: HostRuntime) -> Result<(), Fail> {
    let alloc = rt.alloc();
    let docs = one_document(alloc)?;
    let nav = TreeNav::of(&docs)?;
    let made = two_trees(alloc)?;
    let made = made.as_slice();
    let root = constructed(alloc, 0, &[])?;
    let attr = constructed(alloc, 1, &[])?;
    for (node, value, name) in [
        (&stored(0), "xy", ""),
        (&stored(1), "xy", "r"),
        (&stored(3), "1", "n"),
        (&root, "x", "a"),
        (&attr, "7", "q"),
    ] {
        check_text(&rt, value_of(alloc, &nav, made, node), value);
        check_text(&rt, name_of(alloc, &nav, made, node), name);
    }
    Ok(())
}

#[test]
fn nodes_come_to_content_as_copies(rt: HostRuntime) -> Result<(), Fail> {
    let alloc = rt.alloc();
    let docs = one_document(alloc)?;
    let nav = TreeNav::of(&docs)?;
    let made = two_trees(alloc)?;
    let made = made.as_slice();
    let attr = constructed(alloc, 1, &[])?;
    let content = answered(with_node(alloc, &nav, made, Content::new(alloc), &attr))?;
    let content = answered(with_node(alloc, &nav, made, content, &stored(0)))?;
    assert_eq!(rt; content.attrs.len(), 1);
    assert_eq!(rt; content.kids.len(), 1);
    assert_eq!(rt; content.late, false);
    Ok(())
}

#[test]
fn what_stands_at_a_place_and_its_copy(rt: HostRuntime) -> Result<(), Fail> {
    let alloc = rt.alloc();
    let docs = one_document(alloc)?;
    let nav = TreeNav::of(&docs)?;
    let made = two_trees(alloc)?;
    let mut place = Sequence::new(alloc);
    place.push(PlaceStep::Attr(0))?;
    let there = made_at(made.as_slice(), &MadePlace { tree: 0, place });
    assert!(rt; matches!(there, Some(PlacedRef::Attribute(attr)) if attr.value.as_str() == "1"));
    let copied = copy(alloc, &nav, Id { doc: 0, node: 4 });
    match &copied {
        Ok(
            Copied::Node {
                node: Node::Text { value },
            },
        ) => assert_eq!(rt; value.as_str(), "x"),
        _ => assert!(rt; false),
    }
    Ok(())
}
