//! Lists of items and of nodes.
ghost use Rattle.std.specs.Prelude.{◌≡◌, [], ◌∷◌, IfOk, Ok, Err, map, MatchOption, MatchResult};
ghost use Rattle.xml_model.specs.Evaluation as evaluation;
ghost use Rattle.xml_model.specs.Items.{Made, node};
ghost use Rattle.xml_model.specs.Nav.{Stored};
ghost use Rattle.xml_model.specs.Nodes as spec;
ghost use Rattle.xml_model.specs.declared.nav.Id.{Id};
ghost use Rattle.xq_nodes.specs.Answers.{Looks};
ghost use Rattle.xq_values.specs.Gives.{Gives};
ghost use Rattle.xq_values.specs.Seen.{item_seen, node_seen};
ghost use Rattle.xq_functions.specs.NodeItems.{IsNoNode};

use std::alloc::Global;
use xml_model::{ITEMS_MAX, Nav};
use xq_ast::{Code, Items, NoMemory, Sequence};
use xq_nodes::{EvalEnd, NodeIds, in_order, united};
use xq_values::{Item, ItemList, NodeId, SharedItems, ValueEnd};

/// The items, where they are no more than a value may have. Takes no memory.
pub fn counted(items: ItemList) -> Result<ItemList, Code>
    ensures { (place : Id → Stored) (made : Made) → MatchResult result
        (λ all. evaluation.counted (map (item_seen place) items) made ≡ Ok (map (item_seen place) all, made))
        (λ code. evaluation.counted (map (item_seen place) items) made ≡ Err code) }
{
    if items.len() as u64 > ITEMS_MAX {
        Err(Code::TooManyItems)
    } else {
        Ok(items)
    }
}

/// An item as a list.
pub(crate) fn one_item(alloc: Global, item: Item) -> Result<ItemList, NoMemory>
    ensures { IfOk result (λ all. all ≡ item ∷ []) }
{
    let mut all = Items::new(alloc);
    all.push(item)?;
    Ok(all)
}

// The node that an item is.
fn node_of(item: &Item) -> Option<&NodeId>
    ensures { MatchOption result (IsNoNode item.now) (λ id. item.now ≡ Item.Node id.now) }
{
    match item {
        Item::Node { id } => Some(id),
        Item::Text { .. } => None,
        Item::Int { .. } => None,
        Item::Truth { .. } => None,
    }
}

/// The nodes of a list that has nothing else, or the code.
pub fn nodes_or(alloc: Global, code: Code, items: &[Item]) -> Result<NodeIds, ValueEnd>
    ensures { (place : Id → Stored) → Gives (map (node_seen place)) result (spec.nodes_or code (map (item_seen place) items.now)) }
{
    let mut all = Sequence::new(alloc);
    for item in items {
        let Some(id) = node_of(item) else {
            return Err(ValueEnd::Code(code));
        };
        all.push(id.copy()?)?;
    }
    Ok(all)
}

/// Nodes as items.
pub fn node_items(alloc: Global, nodes: NodeIds) -> Result<ItemList, NoMemory>
    ensures { (place : Id → Stored) → IfOk result (λ items. map (item_seen place) items ≡ map node (map (node_seen place) nodes)) }
{
    let mut items = Items::new(alloc);
    for id in nodes.into_vec() {
        items.push(Item::Node { id })?;
    }
    Ok(items)
}

// The nodes of a list that has nothing else, as a `Nav` sees them.
fn nodes_of<N: Nav>(
    alloc: Global,
    _nav: &N,
    code: Code,
    items: &[Item],
) -> Result<NodeIds, ValueEnd>
    ensures { Gives (map (node_seen (N.place _nav.now))) result (spec.nodes_or code (map (item_seen (N.place _nav.now)) items.now)) }
{
    nodes_or(alloc, code, items)
}

// Nodes in document order and those of a list more.
fn united_with<N: Nav>(
    alloc: Global,
    nav: &N,
    left: NodeIds,
    right: &[Item],
) -> Result<NodeIds, EvalEnd<N::Fault>>
    ensures { Looks (N.honest nav.now) (N.passes nav.now) (map (node_seen (N.place nav.now))) result
        (spec.united (map (node_seen (N.place nav.now)) left) (map (item_seen (N.place nav.now)) right.now)) }
{
    let nodes = nodes_of(alloc, nav, Code::XPTY0004, right)?;
    let ordered = in_order(alloc, nav, nodes)?;
    united(alloc, nav, left, ordered)
}

/// The nodes of all lists in document order, each once. The lists have nothing else.
pub fn united_all<N: Nav>(
    alloc: Global,
    nav: &N,
    lists: &[SharedItems],
) -> Result<NodeIds, EvalEnd<N::Fault>>
    ensures { Looks (N.honest nav.now) (N.passes nav.now) (map (node_seen (N.place nav.now))) result
        (spec.united_all [] (map (map (item_seen (N.place nav.now))) lists.now)) }
{
    let mut all: NodeIds = Sequence::new(alloc);
    for list in lists {
        all = united_with(alloc, nav, all, list.as_slice())?;
    }
    Ok(all)
}
