//! What no clause says: that each call answers where there is memory, and that copies share.
ghost use Rattle.std.specs.Prelude.{◌<◌};

use std::alloc::Global;
use std::cmp::Ordering;
use std::collections::BTreeMap;
use std::process::Abort;
use std::sync::Arc;
use std::test::Fail;
use xml_model::{
    Attr, AttrList, Doc, DocChanges, DocMap, Measure, Node, NodeList, Place, PlaceStep, first_line,
    needs, place_order,
};
use xq_ast::{Call, Expr, Items, LockMode, NoMemory, Sequence, Str, Update, is_document_name};

fn attribute(alloc: Global, name: &str, value: &str) -> Result<Attr, NoMemory> {
    Ok(Attr {
        name: Str::of(alloc, name)?,
        value: Str::of(alloc, value)?,
    })
}

fn text(alloc: Global, value: &str) -> Result<Node, NoMemory> {
    Ok(Node::Text {
        value: Str::of(alloc, value)?,
    })
}

fn instruction(alloc: Global, target: &str, value: &str) -> Result<Node, NoMemory> {
    Ok(Node::Pi {
        target: Str::of(alloc, target)?,
        value: Str::of(alloc, value)?,
    })
}

/// An element named `e`.
fn element(alloc: Global, attrs: AttrList, kids: NodeList) -> Result<Node, NoMemory> {
    Ok(Node::Element {
        name: Str::of(alloc, "e")?,
        attrs,
        kids,
    })
}

fn one(alloc: Global, node: Node) -> Result<NodeList, NoMemory> {
    let mut kids: NodeList = Items::new(alloc);
    kids.push(node)?;
    Ok(kids)
}

fn attributes(alloc: Global) -> Result<AttrList, NoMemory> {
    let mut attrs = Sequence::new(alloc);
    attrs.push(attribute(alloc, "x", "1")?)?;
    attrs.push(attribute(alloc, "y", "22")?)?;
    Ok(attrs)
}

/// `<e x="1" y="22"><e>tt</e></e><?q?>zzzz`
fn every_kind(alloc: Global) -> Result<Doc, NoMemory> {
    let inside = one(alloc, text(alloc, "tt")?)?;
    let kids = one(alloc, element(alloc, Sequence::new(alloc), inside)?)?;
    let mut top = one(alloc, element(alloc, attributes(alloc)?, kids)?)?;
    top.push(instruction(alloc, "q", "")?)?;
    top.push(text(alloc, "zzzz")?)?;
    Ok(Doc { kids: top })
}

#[test]
fn attributes_count_and_the_document_does_not(rt: HostRuntime) -> Result<(), Fail> {
    let alloc = rt.alloc();
    let nothing = Measure {
        depth: 0,
        nodes: 0,
        bytes: 0,
    };
    assert_eq!(rt; Doc::empty(alloc).measure(), nothing);
    let want = Measure {
        depth: 2,
        nodes: 7,
        bytes: 9,
    };
    let copy = every_kind(alloc)?.copy(alloc)?;
    assert_eq!(rt; copy.measure(), want);
    assert_eq!(rt; copy.is_valid(), true);
    Ok(())
}

fn check_invalid(rt: &(impl Abort + Print), kids: NodeList) {
    assert_eq!(rt; Doc { kids }.is_valid(), false);
}

#[test]
fn documents_that_are_not_valid(rt: HostRuntime) -> Result<(), Fail> {
    let alloc = rt.alloc();
    check_invalid(&rt, one(alloc, text(alloc, "")?)?);
    check_invalid(&rt, one(alloc, instruction(alloc, "1", "")?)?);
    let mut texts = one(alloc, text(alloc, "a")?)?;
    texts.push(text(alloc, "b")?)?;
    check_invalid(&rt, texts);
    let mut attrs = attributes(alloc)?;
    attrs.push(attribute(alloc, "x", "")?)?;
    let inside = one(alloc, element(alloc, attrs, Items::new(alloc))?)?;
    let outside = element(alloc, Sequence::new(alloc), inside)?;
    check_invalid(&rt, one(alloc, outside)?);
    Ok(())
}

fn place(alloc: Global, steps: &[PlaceStep]) -> Result<Place, NoMemory> {
    let mut place = Sequence::new(alloc);
    for step in steps {
        place.push(*step)?;
    }
    Ok(place)
}

#[test]
fn places_are_in_document_order(rt: HostRuntime) -> Result<(), Fail> {
    let alloc = rt.alloc();
    for (before, after) in [
        ([].as_slice(), [PlaceStep::Kid(0)].as_slice()),
        (
            [PlaceStep::Kid(1)].as_slice(),
            [PlaceStep::Kid(1), PlaceStep::Attr(0)].as_slice(),
        ),
        (
            [PlaceStep::Attr(5)].as_slice(),
            [PlaceStep::Kid(0)].as_slice(),
        ),
        (
            [PlaceStep::Kid(9)].as_slice(),
            [PlaceStep::Kid(10)].as_slice(),
        ),
        (
            [PlaceStep::Kid(0), PlaceStep::Kid(7)].as_slice(),
            [PlaceStep::Kid(1)].as_slice(),
        ),
    ] {
        let first = place(alloc, before)?;
        let second = place(alloc, after)?;
        assert_eq!(rt; place_order(&first, &second), Ordering::Less);
        assert_eq!(rt; place_order(&second, &first), Ordering::Greater);
    }
    Ok(())
}

#[test]
fn a_text_is_cut_at_its_first_newline(rt: HostRuntime) {
    assert_eq!(rt; first_line("").is_none(), true);
    for (text, line, is_ended, rest) in [
        ("a", "a", false, ""),
        ("\n", "", true, ""),
        ("a\r\n\nb\n", "a\r", true, "\nb\n"),
    ] {
        let first = first_line(text).map(|f| (f.line, f.is_ended, f.rest));
        assert_eq!(rt; first, Some((line, is_ended, rest)), "of {text:?}");
    }
}

#[test]
fn calls_need_locks_on_their_names(rt: HostRuntime) -> Result<(), Fail> {
    let alloc = rt.alloc();
    for (call, want) in [
        (
            Call::Load {
                name: Str::new(alloc),
                pyx: Sequence::new(alloc),
            },
            Some(LockMode::X),
        ),
        (
            Call::Create {
                name: Str::new(alloc),
            },
            Some(LockMode::X),
        ),
        (
            Call::Export {
                name: Str::new(alloc),
            },
            Some(LockMode::S),
        ),
        (Call::ShowDocuments, None),
    ] {
        let all = needs(alloc, &call)?;
        let mode = all.as_slice().first().map(|need| need.mode);
        assert_eq!(rt; mode, want);
    }
    Ok(())
}

fn doc(alloc: Global, name: &str) -> Result<Expr, NoMemory> {
    Ok(Expr::Doc {
        name: Str::of(alloc, name)?,
    })
}

/// The names of the needs, each with `S` or `X` behind it.
fn spelled(alloc: Global, call: &Call) -> Result<String, Fail> {
    let mut text = String::new(alloc);
    for need in needs(alloc, call)?.as_slice() {
        text.push_str(need.name.as_str())?;
        text.push_str(match need.mode {
            LockMode::S => " S ",
            LockMode::X => " X ",
        })?;
    }
    Ok(text)
}

#[test]
fn needs_are_in_byte_order_each_once(rt: HostRuntime) -> Result<(), Fail> {
    let alloc = rt.alloc();
    let parts = vec![in alloc; doc(alloc, "c")?, doc(alloc, "a")?, doc(alloc, "c")?]?;
    let query = Call::Query {
        expr: Expr::Seq {
            parts: Items::from_vec(parts),
        },
    };
    assert_eq!(rt; spelled(alloc, &query)?.as_str(), "a S c S ");
    let insert = Call::Update {
        what: Update::Into {
            source: doc(alloc, "b")?,
            target: doc(alloc, "a")?,
        },
    };
    assert_eq!(rt; spelled(alloc, &insert)?.as_str(), "a X b S ");
    let replace = Call::Update {
        what: Update::Replace {
            name: Str::of(alloc, "v")?,
            target: doc(alloc, "d")?,
            by: doc(alloc, "d")?,
        },
    };
    assert_eq!(rt; spelled(alloc, &replace)?.as_str(), "d X ");
    Ok(())
}

/// Puts a document into the changes, or drops it, where the name is a name and the document valid.
fn put(
    alloc: Global,
    changes: &mut DocChanges,
    name: &str,
    doc: Option<Doc>,
) -> Result<(), NoMemory> {
    if !is_document_name(name) {
        return Ok(());
    }
    let name = Str::of(alloc, name)?;
    match doc {
        Some(doc) if doc.is_valid() => changes.insert(name, Some(Arc::new(alloc, doc)?)),
        Some(_) => Ok(()),
        None => changes.insert(name, None),
    }
}

/// A document of one text, the number's digits.
fn numbered(alloc: Global, number: u32) -> Result<Doc, NoMemory> {
    let digits = number.to_string(alloc)?;
    Ok(Doc {
        kids: one(alloc, text(alloc, digits.as_str())?)?,
    })
}

fn number_of(doc: Option<&Doc>) -> Option<u32> {
    match doc?.kids.as_slice().first()? {
        Node::Text { value } => value.as_str().parse::<u32>().ok(),
        _ => None,
    }
}

/// Puts a document without nodes into the map, where the name is a document's name.
fn keep(alloc: Global, docs: &mut DocMap, name: &str) -> Result<(), NoMemory> {
    if !is_document_name(name) {
        return Ok(());
    }
    docs.insert(Str::of(alloc, name)?, Doc::empty(alloc))
}

#[test]
fn documents_are_kept_by_name(rt: HostRuntime) -> Result<(), Fail> {
    let alloc = rt.alloc();
    let mut docs = DocMap::new(alloc);
    for name in ["d", "\u{e9}", "B"] {
        keep(alloc, &mut docs, name)?;
    }
    for (name, want) in docs.names()?.as_slice().iter().zip(&["B", "d", "\u{e9}"]) {
        assert_eq!(rt; name.as_str(), *want);
        assert_eq!(rt; docs.get(name).is_some(), true);
    }
    Ok(())
}

#[test]
fn copies_share_documents(rt: HostRuntime) -> Result<(), Fail> {
    let alloc = rt.alloc();
    let name = Str::of(alloc, "d")?;
    let mut docs = DocMap::new(alloc);
    keep(alloc, &mut docs, "d")?;
    let mut changes = DocChanges::new(alloc);
    put(alloc, &mut changes, "d", None)?;
    assert_eq!(rt; changes.seen(&docs, &name).is_none(), true);
    let dropped = docs.with_changes(&changes)?;
    assert_eq!(rt; dropped.get(&name).is_none(), true);
    assert_eq!(rt; docs.copy()?.get(&name).is_some(), true);
    changes.clear();
    assert_eq!(rt; changes.seen(&docs, &name).is_some(), true);
    Ok(())
}

// A plain table beside a map of documents, whose value is the number that a document's text says.
type Plain = BTreeMap<String, u32>;

// A small generator: its numbers only have to look unordered.
fn draw(state: &mut u32, below: u32) -> u32
    requires { 0 < below }
{
    *state = state.wrapping_mul(1_103_515_245).wrapping_add(12_345);
    (*state >> 16) % below
}

// Makes or drops one document of forty names, in the changes and in the plain table.
fn change_one(
    alloc: Global,
    state: &mut u32,
    number: u32,
    changes: &mut DocChanges,
    plain: &mut Plain,
) -> Result<(), Fail> {
    let place = draw(state, 40);
    let name = format!(in alloc; "d{place}")?;
    if draw(state, 3) == 0 {
        put(alloc, changes, name.as_str(), None)?;
        let _ = plain.remove(name.as_str());
    } else {
        let doc = numbered(alloc, number)?;
        put(alloc, changes, name.as_str(), Some(doc))?;
        let _ = plain.insert(name, number)?;
    }
    Ok(())
}

fn agree(
    rt: &(impl Abort + Eprint),
    alloc: Global,
    docs: &DocMap,
    plain: &Plain,
) -> Result<(), Fail> {
    for place in 0..40u32 {
        let name = format!(in alloc; "d{place}")?;
        let found = number_of(docs.get(&Str::of(alloc, name.as_str())?));
        assert_eq!(rt; found, plain.get(name.as_str()).copied(), "of {name}");
    }
    assert_eq!(rt; docs.names()?.len(), plain.len());
    Ok(())
}

// Changes of many sizes follow one another, so layers of many sizes are made and merged.
#[test]
fn layers_are_one_table(rt: HostRuntime) -> Result<(), Fail> {
    let alloc = rt.alloc();
    let mut state = 7;
    let mut docs = DocMap::new(alloc);
    let mut plain: Plain = BTreeMap::new(alloc);
    for turn in 0..300u32 {
        let mut changes = DocChanges::new(alloc);
        let most = if turn % 7 == 0 { 30 } else { 4 };
        for _ in 0..draw(&mut state, most) {
            change_one(alloc, &mut state, turn, &mut changes, &mut plain)?;
        }
        docs = docs.with_changes(&changes)?;
        agree(&rt, alloc, &docs, &plain)?;
    }
    Ok(())
}
