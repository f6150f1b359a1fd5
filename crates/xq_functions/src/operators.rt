//! Operators on values.
ghost use Rattle.std.specs.Prelude.{◌≡◌, IfOk, map};
ghost use Rattle.std.specs.FinMap as forests;
ghost use Rattle.xml_model.specs.Atoms as atoms;
ghost use Rattle.xml_model.specs.Nodes.{atomized};
ghost use Rattle.xq_nodes.specs.Answers.{Looks};
ghost use Rattle.xq_values.specs.Gives.{Gives};
ghost use Rattle.xq_values.specs.Seen.{item_seen, made_seen};
ghost use Rattle.xq_functions.specs.Operands.{integer_items, product_seen, sum_seen};

use crate::atoms::atomized;
use crate::lists::one_item;
use std::alloc::Global;
use xml_model::{Atom, Nav};
use xq_ast::{Code, CompareOp, Items, NoMemory, ProductOp, Sign};
use xq_nodes::EvalEnd;
use xq_values::{
    Item, ItemList, MadeRoot, ValueEnd, added, both_operands, compares, multiplied as product_of,
    range_of, signed,
};

/// `+`, or `-` where `minus` is true, with the value of its right operand.
#[derive(Debug, Drop)]
pub struct SumValue {
    pub minus: bool,
    pub items: ItemList,
}

/// `*`, `idiv` or `mod` with the value of its right operand.
#[derive(Debug, Drop)]
pub struct ProductValue {
    pub op: ProductOp,
    pub items: ItemList,
}

/// Whether some pair of the values' items compares so.
pub fn compared<N: Nav>(
    alloc: Global,
    nav: &N,
    made: &[MadeRoot],
    op: CompareOp,
    left: &[Item],
    right: &[Item],
) -> Result<bool, EvalEnd<N::Fault>>
    ensures { let docs = forests.get (N.forest nav.now) in let seen = map (item_seen (N.place nav.now)) in
        Looks (N.honest nav.now) (N.passes nav.now) (λ b. b) result
        (atoms.compares op (atomized docs (made_seen made.now) (seen left.now)) (atomized docs (made_seen made.now) (seen right.now))) }
{
    let left = atomized(alloc, nav, made, left)?;
    let right = atomized(alloc, nav, made, right)?;
    Ok(compares(op, left.as_slice(), right.as_slice())?)
}

// The integers from one operand to another, as a `Nav` sees them.
fn range_seen<N: Nav>(alloc: Global, _nav: &N, low: i64, high: i64) -> Result<ItemList, ValueEnd>
    ensures { Gives (map (item_seen (N.place _nav.now))) result (atoms.range_of low high) }
{
    range_of(alloc, low, high)
}

// The integers between both operands.
fn range_between<N: Nav>(
    alloc: Global,
    nav: &N,
    low: &[Atom],
    high: &[Atom],
) -> Result<ItemList, ValueEnd>
    ensures { Gives (map (item_seen (N.place nav.now))) result (atoms.operated atoms.range_of low.now high.now) }
{
    match both_operands(low, high)? {
        None => Ok(Items::new(alloc)),
        Some(both) => range_seen(alloc, nav, both.left, both.right),
    }
}

/// The integers from one to another.
pub fn ranged<N: Nav>(
    alloc: Global,
    nav: &N,
    made: &[MadeRoot],
    low: &[Item],
    high: &[Item],
) -> Result<ItemList, EvalEnd<N::Fault>>
    ensures { let docs = forests.get (N.forest nav.now) in let seen = map (item_seen (N.place nav.now)) in
        Looks (N.honest nav.now) (N.passes nav.now) seen result
        (atoms.operated atoms.range_of (atomized docs (made_seen made.now) (seen low.now)) (atomized docs (made_seen made.now) (seen high.now))) }
{
    let low = atomized(alloc, nav, made, low)?;
    let high = atomized(alloc, nav, made, high)?;
    Ok(range_between(alloc, nav, low.as_slice(), high.as_slice())?)
}

// Nothing, or an integer, as a list.
fn integer_list(alloc: Global, found: Option<i64>) -> Result<ItemList, NoMemory>
    ensures { IfOk result (λ all. all ≡ integer_items found) }
{
    match found {
        None => Ok(Items::new(alloc)),
        Some(value) => one_item(alloc, Item::Int { value }),
    }
}

// A value and the right operand behind it.
fn added_to<N: Nav>(
    alloc: Global,
    nav: &N,
    made: &[MadeRoot],
    left: &[Item],
    part: &SumValue,
) -> Result<ItemList, EvalEnd<N::Fault>>
    ensures { let docs = forests.get (N.forest nav.now) in let seen = map (item_seen (N.place nav.now)) in
        Looks (N.honest nav.now) (N.passes nav.now) seen result
        (atoms.operated (atoms.sum_op part.now.minus) (atomized docs (made_seen made.now) (seen left.now)) (atomized docs (made_seen made.now) (seen part.now.items))) }
{
    let left = atomized(alloc, nav, made, left)?;
    let right = atomized(alloc, nav, made, part.items.as_slice())?;
    let found = added(part.minus, left.as_slice(), right.as_slice())?;
    Ok(integer_list(alloc, found)?)
}

/// Operands of `+` and `-`, from the left.
pub fn summed<N: Nav>(
    alloc: Global,
    nav: &N,
    made: &[MadeRoot],
    first: ItemList,
    rest: &[SumValue],
) -> Result<ItemList, EvalEnd<N::Fault>>
    ensures { let docs = forests.get (N.forest nav.now) in let seen = map (item_seen (N.place nav.now)) in
        Looks (N.honest nav.now) (N.passes nav.now) seen result
        (atoms.chained (atomized docs (made_seen made.now)) atoms.sum_op (seen first) (map (sum_seen (N.place nav.now)) rest.now)) }
{
    let mut left = first;
    for part in rest {
        left = added_to(alloc, nav, made, left.as_slice(), part)?;
    }
    Ok(left)
}

// A value and the right operand behind it.
fn multiplied_by<N: Nav>(
    alloc: Global,
    nav: &N,
    made: &[MadeRoot],
    left: &[Item],
    part: &ProductValue,
) -> Result<ItemList, EvalEnd<N::Fault>>
    ensures { let docs = forests.get (N.forest nav.now) in let seen = map (item_seen (N.place nav.now)) in
        Looks (N.honest nav.now) (N.passes nav.now) seen result
        (atoms.operated (atoms.product_op part.now.op) (atomized docs (made_seen made.now) (seen left.now)) (atomized docs (made_seen made.now) (seen part.now.items))) }
{
    let left = atomized(alloc, nav, made, left)?;
    let right = atomized(alloc, nav, made, part.items.as_slice())?;
    let found = product_of(part.op, left.as_slice(), right.as_slice())?;
    Ok(integer_list(alloc, found)?)
}

/// Operands of `*`, `idiv` and `mod`, from the left.
pub fn multiplied<N: Nav>(
    alloc: Global,
    nav: &N,
    made: &[MadeRoot],
    first: ItemList,
    rest: &[ProductValue],
) -> Result<ItemList, EvalEnd<N::Fault>>
    ensures { let docs = forests.get (N.forest nav.now) in let seen = map (item_seen (N.place nav.now)) in
        Looks (N.honest nav.now) (N.passes nav.now) seen result
        (atoms.chained (atomized docs (made_seen made.now)) atoms.product_op (seen first) (map (product_seen (N.place nav.now)) rest.now)) }
{
    let mut left = first;
    for part in rest {
        left = multiplied_by(alloc, nav, made, left.as_slice(), part)?;
    }
    Ok(left)
}

/// What signs make of a value, from the inside out.
pub fn signed_value<N: Nav>(
    alloc: Global,
    nav: &N,
    made: &[MadeRoot],
    signs: &[Sign],
    items: ItemList,
) -> Result<ItemList, EvalEnd<N::Fault>>
    ensures { let docs = forests.get (N.forest nav.now) in let seen = map (item_seen (N.place nav.now)) in
        Looks (N.honest nav.now) (N.passes nav.now) seen result
        (atoms.signed_by (atomized docs (made_seen made.now)) signs.now (seen items)) }
{
    if signs.is_empty() {
        return Ok(items);
    }
    let value = atomized(alloc, nav, made, items.as_slice())?;
    let found = signed(signs, value.as_slice())?;
    Ok(integer_list(alloc, found)?)
}
