//! The test that no two attributes of an element get one name, once for each element.
ghost use Rattle.std.specs.Prelude.{◌≡◌, ◌++◌, ◌∷◌, Some, true, IfOk, IfErr, map};
ghost use Rattle.std.specs.FinMap as forests;
ghost use Rattle.xml_model.specs.DocumentOrder.{node_cmp};
ghost use Rattle.xml_model.specs.Edits as spec;
ghost use Rattle.xq_edits.specs.Seen.{change_seen};
ghost use Rattle.xq_edits.specs.Turns.{nodes_of};
ghost use Rattle.xq_nodes.specs.Answers.{IsFault, Looks};
ghost use Rattle.xq_nodes.specs.Joins.{Rises};
ghost use Rattle.xq_nodes.specs.Walks.{is_attribute};

use crate::change::Change;
use crate::names::{is_same, names_twice};
use crate::nav_calls::{kind_of, parent_of};
use std::alloc::Global;
use xml_model::{EditKind, Id, Nav};
use xq_ast::{Code, Kind};
use xq_nodes::EvalEnd;

// Whether an attribute is of this element.
fn is_of<N: Nav>(nav: &N, attribute: Id, element: Id) -> Result<bool, EvalEnd<N::Fault>>
    ensures gives { IfOk result (λ is. N.honest nav.now → is_attribute (N.forest nav.now) (N.place nav.now attribute) ≡ true →
        is ≡ spec.is_same_element (Some (N.place nav.now element)) (spec.element_of (N.place nav.now attribute))) }
    ensures fault { IfErr result (IsFault (N.passes nav.now)) }
{
    let Some(other) = parent_of(nav, attribute)? else {
        return Ok(false);
    };
    is_same(nav, element, other)
}

// Whether the next target is an attribute of the same element. An id that tells the kind of a document
// and has the target's number of a document is an id of no node, since the document itself comes
// before the target. No evaluation gives such an id, and for it there is no answer.
fn goes_on<N: Nav>(nav: &N, target: Id, element: Id, more: &[Id]) -> Result<bool, EvalEnd<N::Fault>>
    requires rising { N.honest nav.now → Rises node_cmp (N.place nav.now target ∷ map (N.place nav.now) more.now) }
    ensures gives { IfOk result (λ is. N.honest nav.now → is_attribute (N.forest nav.now) (N.place nav.now target) ≡ true →
        spec.element_of (N.place nav.now target) ≡ Some (N.place nav.now element) → is ≡ spec.goes_on (N.place nav.now target) (map (N.place nav.now) more.now)) }
    ensures fault { IfErr result (IsFault (N.passes nav.now)) }
{
    let [next, ..] = more else {
        return Ok(false);
    };
    match kind_of(nav, *next)? {
        Kind::Document => {
            if target.doc == next.doc {
                return Err(EvalEnd::NoMemory);
            }
            Ok(false)
        }
        Kind::Attribute => is_of(nav, *next, element),
        Kind::Element => Ok(false),
        Kind::Text => Ok(false),
        Kind::Pi => Ok(false),
    }
}

/// What is done to an attribute by the last change: once it is the last among the attributes of its
/// element, a name that stands twice there is XQDY0025.
pub(crate) fn named_once<N: Nav>(
    alloc: Global,
    nav: &N,
    done: &[Change],
    last: Change,
    more: &[Id],
) -> Result<EditKind, EvalEnd<N::Fault>>
    requires rising { N.honest nav.now → Rises node_cmp (nodes_of (map (change_seen (N.place nav.now)) done.now) ++ N.place nav.now last.node ∷ map (N.place nav.now) more.now) }
    requires attribute { N.honest nav.now → is_attribute (N.forest nav.now) (N.place nav.now last.node) ≡ true }
    ensures { Looks (N.honest nav.now) (N.passes nav.now) (λ what. what) result
        (spec.named_once (forests.get (N.forest nav.now)) (map (change_seen (N.place nav.now)) done.now) (map (N.place nav.now) more.now) (change_seen (N.place nav.now) last)) }
{
    let Some(element) = parent_of(nav, last.node)? else {
        return Ok(last.what);
    };
    if goes_on(nav, last.node, element, more)? {
        return Ok(last.what);
    }
    if names_twice(alloc, nav, element, done, &last)? {
        return Err(EvalEnd::Code(Code::XQDY0025));
    }
    Ok(last.what)
}
