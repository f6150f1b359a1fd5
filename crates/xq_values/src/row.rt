//! Variables, tuples and the order of tuples.
ghost use Rattle.std.specs.Prelude.{◌≡◌, IfOk, [], map};
ghost use Rattle.xml_model.specs.Nav.{Stored};
ghost use Rattle.xml_model.specs.Tuples as spec;
ghost use Rattle.xml_model.specs.declared.nav.Id.{Id};
ghost use Rattle.xq_values.specs.Rows.{row_seen};

use crate::item::{Item, ItemList};
use crate::key::keys_order;
use std::alloc::Global;
use std::marker::Model;
use std::sync::Arc;
use xml_model::{Key, SharedText};
use xq_ast::{NoMemory, Sequence};

/// The value of a variable. It never changes, and copies share it.
#[derive(Debug, Drop)]
pub struct SharedItems {
    items: Arc<ItemList>,
}

impl Model for SharedItems {
    ghost use Rattle.std.specs.Prelude.{List};
    ghost use Rattle.xq_values.specs.declared.item.Item.{Item};
    ghost use Rattle.std.specs.Arc.{arc_value};

    ghost Value = { List Item };

    ghost view = { λ s. arc_value s.items };
}

impl SharedItems {
    /// The items, to be shared.
    pub fn of(alloc: Global, items: ItemList) -> Result<SharedItems, NoMemory>
        ensures { IfOk result (λ s. s ≡ items) }
    {
        match Arc::new(alloc, items) {
            Ok(items) => Ok(SharedItems { items }),
            Err(_) => Err(NoMemory),
        }
    }

    pub fn as_slice(&self) -> &[Item]
        ensures { result.now ≡ self.now }
    {
        let items: &ItemList = &self.items;
        items.as_slice()
    }

    /// The same items, which are shared and not copied.
    pub fn copy(&self) -> Result<SharedItems, NoMemory>
        ensures { IfOk result (λ s. s ≡ self.now) }
    {
        match Arc::try_clone(&self.items) {
            Ok(items) => Ok(SharedItems { items }),
            Err(_) => Err(NoMemory),
        }
    }
}

/// A variable and its value.
#[derive(Debug, Drop)]
pub struct Variable {
    pub name: SharedText,
    pub value: SharedItems,
}

impl Variable {
    /// The same variable. Its name and its value are shared.
    pub fn copy(&self) -> Result<Variable, NoMemory>
        ensures { IfOk result (λ v. v ≡ self.now) }
    {
        Ok(Variable {
            name: self.name.copy()?,
            value: self.value.copy()?,
        })
    }
}

/// The variables that are bound, the innermost last.
pub type Bindings = Sequence<Variable>;

/// A tuple that stays: its keys and its variables.
#[derive(Debug, Drop)]
pub struct Row {
    pub keys: Sequence<Key>,
    pub bindings: Bindings,
}

/// The tuples in the order of their keys; ties keep their order.
pub fn sorted(rows: Sequence<Row>, descends: &[bool]) -> Result<Sequence<Row>, NoMemory>
    ensures { (place : Id → Stored) →
        IfOk result (λ all. map (row_seen place) all ≡ spec.rows_placed descends.now (map (row_seen place) rows) []) }
{
    let mut all = rows.into_vec();
    all.sort_by(|a, b| keys_order(descends, a.keys.as_slice(), b.keys.as_slice()))?;
    Ok(Sequence::from_vec(all))
}
