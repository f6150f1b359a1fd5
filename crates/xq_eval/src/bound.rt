//! What bindings bind.
ghost use Rattle.std.specs.Prelude.{◌≡◌, ◌<◌, ◌^◌, [], ◌∷◌, pos, IfOk};
ghost use Rattle.xq_eval.specs.Bound.{variable_of, bound_item, bound_of};

use std::alloc::Global;
use xml_model::SharedText;
use xq_ast::{Items, NoMemory, Sequence, Str};
use xq_values::{Bindings, Item, SharedItems, Variable};

/// The names of a `for`: of its item, and of the item's position.
#[derive(Debug, Drop)]
pub(crate) struct Names {
    pub(crate) item: SharedText,
    pub(crate) at: Option<SharedText>,
}

/// A name, to be shared.
pub(crate) fn shared_name(alloc: Global, name: &Str) -> Result<SharedText, NoMemory>
    ensures { IfOk result (λ s. s ≡ name.now) }
{
    SharedText::of(alloc, name.copy()?)
}

fn shared_at(alloc: Global, at: &Option<Str>) -> Result<Option<SharedText>, NoMemory>
    ensures { IfOk result (λ s. s ≡ at.now) }
{
    match at {
        None => Ok(None),
        Some(at) => Ok(Some(shared_name(alloc, at)?)),
    }
}

/// A variable with one item.
pub(crate) fn with_item(alloc: Global, name: &SharedText, item: Item) -> Result<Variable, NoMemory>
    ensures { IfOk result (λ v. v ≡ variable_of name.now (item ∷ [])) }
{
    let mut items = Items::new(alloc);
    items.push(item)?;
    Ok(Variable {
        name: name.copy()?,
        value: SharedItems::of(alloc, items)?,
    })
}

// The variables of an item at a position.
fn of_item(alloc: Global, names: &Names, position: usize, item: &Item) -> Result<Bindings, NoMemory>
    requires { position < 2 ^ 63 }
    ensures { IfOk result (λ all. all ≡ bound_item names.now.item names.now.at position item.now) }
{
    let mut all = Sequence::new(alloc);
    all.push(with_item(alloc, &names.item, item.copy()?)?)?;
    if let Some(at) = &names.at {
        let value = position as i64;
        all.push(with_item(alloc, at, Item::Int { value })?)?;
    }
    Ok(all)
}

/// The variables of each item, one item after another.
pub(crate) fn of_items(
    alloc: Global,
    name: &Str,
    at: &Option<Str>,
    items: &[Item],
) -> Result<Sequence<Bindings>, NoMemory>
    ensures { IfOk result (λ all. all ≡ bound_of name.now at.now 1 items.now) }
{
    let names = Names {
        item: shared_name(alloc, name)?,
        at: shared_at(alloc, at)?,
    };
    let mut all = Sequence::new(alloc);
    for (i, item) in items.iter().enumerate() {
        all.push(of_item(alloc, &names, i + 1, item)?)?;
    }
    Ok(all)
}

/// The variable of a whole value.
pub(crate) fn of_value(
    alloc: Global,
    name: &Str,
    value: SharedItems,
) -> Result<Sequence<Bindings>, NoMemory>
    ensures { IfOk result (λ all. all ≡ (variable_of name.now value ∷ []) ∷ []) }
{
    let mut bound = Sequence::new(alloc);
    bound.push(Variable {
        name: shared_name(alloc, name)?,
        value,
    })?;
    let mut all = Sequence::new(alloc);
    all.push(bound)?;
    Ok(all)
}
