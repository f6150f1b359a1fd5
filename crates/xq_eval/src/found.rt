//! What an expression gives.
ghost use Rattle.std.specs.Prelude.{◌≡◌, length, IfOk};
ghost use Rattle.xq_eval.specs.Kept.{kept_items};

use std::alloc::Global;
use std::marker::Model;
use xq_ast::{Items, NoMemory};
use xq_values::{Item, ItemList, SharedItems};

// New items, or those of a variable, which are shared.
#[derive(Debug, Drop)]
enum Kept {
    Owned(ItemList),
    Shared(SharedItems),
}

/// Items, which contracts see as their list. Those of a variable are shared, and not copied.
#[derive(Debug, Drop)]
pub struct Found {
    kept: Kept,
}

impl Model for Found {
    ghost use Rattle.std.specs.Prelude.{List};
    ghost use Rattle.xq_values.specs.declared.item.Item.{Item};
    ghost use Rattle.xq_eval.specs.Kept.{kept_items};

    ghost Value = { List Item };

    ghost view = { λ f. kept_items f.kept };
}

impl Found {
    /// New items.
    pub fn owned(items: ItemList) -> Found
        ensures { result ≡ items }
    {
        Found {
            kept: Kept::Owned(items),
        }
    }

    /// The items of a variable.
    pub fn shared(items: SharedItems) -> Found
        ensures { result ≡ items }
    {
        Found {
            kept: Kept::Shared(items),
        }
    }

    /// The items.
    pub fn as_slice(&self) -> &[Item]
        ensures { result.now ≡ self.now }
    {
        slice_of(&self.kept)
    }

    /// The items, which are copied where they are shared.
    pub fn into_items(self, alloc: Global) -> Result<ItemList, NoMemory>
        ensures { IfOk result (λ items. items ≡ self) }
    {
        let Found { kept } = self;
        match kept {
            Kept::Owned(items) => Ok(items),
            Kept::Shared(items) => copied(alloc, items.as_slice()),
        }
    }

    /// The items, to be shared.
    pub fn into_shared(self, alloc: Global) -> Result<SharedItems, NoMemory>
        ensures { IfOk result (λ items. items ≡ self) }
    {
        let Found { kept } = self;
        match kept {
            Kept::Owned(items) => SharedItems::of(alloc, items),
            Kept::Shared(items) => Ok(items),
        }
    }
}

fn slice_of(kept: &Kept) -> &[Item]
    ensures { result.now ≡ kept_items kept.now }
{
    match kept {
        Kept::Owned(items) => items.as_slice(),
        Kept::Shared(items) => items.as_slice(),
    }
}

// Copies of items.
fn copied(alloc: Global, items: &[Item]) -> Result<ItemList, NoMemory>
    ensures { IfOk result (λ all. all ≡ items.now) }
{
    let mut all = Items::new(alloc);
    for item in items {
        all.push(item.copy()?)?;
    }
    Ok(all)
}
