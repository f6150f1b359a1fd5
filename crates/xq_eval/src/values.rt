//! Values that need no other value, and what counts items.
ghost use Rattle.std.specs.Prelude.{◌≡◌, [], ◌∷◌, map, option_map, IfOk, Ok, Err, MatchResult, OnOk};
ghost use Rattle.std.specs.FinMap as forests;
ghost use Rattle.std.specs.Option.{option_copied};
ghost use Rattle.xml_model.specs.Nav.{Stored};
ghost use Rattle.xml_model.specs.Place.{Placed};
ghost use Rattle.xml_model.specs.Items.{Made, string, integer, boolean, construct};
ghost use Rattle.xml_model.specs.Evaluation as spec;
ghost use Rattle.xml_model.specs.FunctionAnswers.{context_item};
ghost use Rattle.xml_model.specs.declared.nav.Id.{Id};
ghost use Rattle.xq_nodes.specs.Answers.{Looks};
ghost use Rattle.xq_values.specs.Gives.{Gives};
ghost use Rattle.xq_values.specs.Seen.{made_seen, root_seen, node_seen};
ghost use Rattle.xq_eval.specs.Scopes.{items_seen, variables_seen, context_seen};
ghost use Rattle.xml_model.specs.Nodes.{nodes_or};
ghost use Rattle.xml_model.specs.Items.{◌>>?◌};
ghost use Rattle.xq_ast.specs.declared.code.Code.TheVariants.{XPTY0020};

use crate::found::Found;
use std::alloc::Global;
use xml_model::{ITEMS_MAX, Nav, SharedText};
use xq_ast::{Code, Items, NoMemory, Sequence, Str};
use xq_functions::{Focus, nodes_or};
use xq_nodes::{EvalEnd, NodeIds};
use xq_values::{
    Item, ItemList, MadeList, MadePlace, MadeRoot, NodeId, SharedItems, ValueEnd, Variable,
};

/// The items, where they are no more than a value may have. Takes no memory.
pub(crate) fn counted(found: Found) -> Result<Found, Code>
    ensures { (place : Id → Stored) (made : Made) → MatchResult result
        (λ all. spec.counted (items_seen place found) made ≡ Ok (items_seen place all, made))
        (λ code. spec.counted (items_seen place found) made ≡ Err code) }
{
    if found.as_slice().len() as u64 > ITEMS_MAX {
        Err(Code::TooManyItems)
    } else {
        Ok(found)
    }
}

/// An item alone.
pub(crate) fn one(alloc: Global, item: Item) -> Result<Found, NoMemory>
    ensures { IfOk result (λ all. all ≡ item ∷ []) }
{
    let mut all = Items::new(alloc);
    all.push(item)?;
    Ok(Found::owned(all))
}

/// A string.
pub(crate) fn text(alloc: Global, value: &Str) -> Result<Found, NoMemory>
    ensures { (place : Id → Stored) → IfOk result (λ all. items_seen place all ≡ string value.now ∷ []) }
{
    let text = SharedText::of(alloc, value.copy()?)?;
    one(alloc, Item::Text { text })
}

/// An integer.
pub(crate) fn integer(alloc: Global, value: &i64) -> Result<Found, NoMemory>
    ensures { (place : Id → Stored) → IfOk result (λ all. items_seen place all ≡ integer value.now ∷ []) }
{
    one(alloc, Item::Int { value: *value })
}

/// A truth value.
pub(crate) fn truth_value(alloc: Global, value: bool) -> Result<Found, NoMemory>
    ensures { (place : Id → Stored) → IfOk result (λ all. items_seen place all ≡ spec.boolean_value value) }
{
    one(alloc, Item::Truth { value })
}

// The value of the last variable with this name.
#[tactic(auto, using(crate::proofs::Turns::later_later))]
fn bound<'a>(variables: &'a [Variable], name: &Str) -> Option<&'a SharedItems>
    ensures { (place : Id → Stored) → option_map (items_seen place) (option_copied result) ≡ spec.bound_value name.now (variables_seen place variables.now) }
{
    let mut found = None;
    for variable in variables {
        if variable.name.as_str() == name.as_str() {
            found = Some(&variable.value);
        }
    }
    found
}

/// The value of a variable, which is shared.
pub(crate) fn variable(alloc: Global, variables: &[Variable], name: &Str) -> Result<Found, NoMemory>
    ensures { (place : Id → Stored) → IfOk result (λ all. items_seen place all ≡ spec.or_nothing (spec.bound_value name.now (variables_seen place variables.now))) }
{
    match bound(variables, name) {
        Some(items) => Ok(Found::shared(items.copy()?)),
        None => Ok(Found::owned(Items::new(alloc))),
    }
}

/// The context item.
pub(crate) fn context(alloc: Global, focus: Option<&Focus>) -> Result<Found, ValueEnd>
    ensures { (place : Id → Stored) → Gives (items_seen place) result (context_item (context_seen place (option_copied focus.entry))) }
{
    match focus {
        None => Err(ValueEnd::Code(Code::XPDY0002)),
        Some(focus) => Ok(one(alloc, focus.item.copy()?)?),
    }
}

/// The context item, which must be a node.
pub(crate) fn context_node(alloc: Global, focus: Option<&Focus>) -> Result<NodeIds, ValueEnd>
    ensures { (place : Id → Stored) → Gives (map (node_seen place)) result (context_item (context_seen place (option_copied focus.entry)) >>? nodes_or XPTY0020) }
{
    let found = context(alloc, focus)?;
    nodes_or(alloc, Code::XPTY0020, found.as_slice())
}

/// The node of the document with this name.
pub(crate) fn document<N: Nav>(
    alloc: Global,
    nav: &N,
    name: &Str,
) -> Result<Found, EvalEnd<N::Fault>>
    ensures { Looks (N.honest nav.now) (N.passes nav.now) (items_seen (N.place nav.now)) result
        (spec.document_node (forests.get (N.forest nav.now)) (forests.get (N.forest nav.now) name.now) name.now) }
{
    match nav.root(name) {
        Ok(Some(id)) => Ok(one(
            alloc,
            Item::Node {
                id: NodeId::Stored { id },
            },
        )?),
        Ok(None) => Err(EvalEnd::Code(Code::FODC0002)),
        Err(fault) => Err(EvalEnd::Nav(fault)),
    }
}

/// One more tree, and its root.
pub(crate) fn constructed(
    alloc: Global,
    made: &mut MadeList,
    root: MadeRoot,
) -> Result<Found, NoMemory>
    ensures { (place : Id → Stored) → IfOk result (λ all. construct (root_seen root) (made_seen made.old) ≡ Ok (items_seen place all, made_seen made.new)) }
{
    let at = MadePlace {
        tree: made.len(),
        place: Sequence::new(alloc),
    };
    made.push(root)?;
    one(
        alloc,
        Item::Node {
            id: NodeId::Made { at },
        },
    )
}
