//! Ranges of integers.
ghost use Rattle.std.specs.Prelude.{◌≡◌, ℕ, ◌<◌, ◌^◌, ◌+ℤ◌, pos, map, IfOk, FitsSigned};
ghost use Rattle.std.specs.Int.{w64};
ghost use Rattle.std.specs.List.{range_with_len};
ghost use Rattle.xml_model.specs.Items.{integer};
ghost use Rattle.xml_model.specs.Nav.{Stored};
ghost use Rattle.xml_model.specs.Atoms as spec;
ghost use Rattle.xml_model.specs.declared.nav.Id.{Id};
ghost use Rattle.xq_values.specs.Gives.{Gives};
ghost use Rattle.xq_values.specs.Ranges.{count_of};
ghost use Rattle.xq_values.specs.Seen.{item_seen};

use crate::end::ValueEnd;
use crate::item::{Item, ItemList};
use std::alloc::Global;
use xml_model::ITEMS_MAX;
use xq_ast::{Code, Items, NoMemory};

// How many integers there are from one to another.
fn range_len(low: i64, high: i64) -> Result<u64, Code>
    ensures { result ≡ count_of low high }
{
    if high < low {
        return Ok(0);
    }
    let more = high.abs_diff(low);
    if more >= ITEMS_MAX {
        Err(Code::TooManyItems)
    } else {
        Ok(more + 1)
    }
}

// The integer so many behind another.
fn behind(low: i64, k: u64) -> i64
    requires few { k < 2 ^ 62 }
    requires fits { FitsSigned w64 (low +ℤ pos k) }
    ensures { result ≡ low +ℤ pos k }
{
    low + k as i64
}

// So many integers from this one on.
fn integers(alloc: Global, low: i64, count: u64) -> Result<ItemList, NoMemory>
    requires few { count < 2 ^ 62 }
    requires fits { (k : ℕ) → k < count → FitsSigned w64 (low +ℤ pos k) }
    ensures { (place : Id → Stored) → IfOk result (λ all.
        map (item_seen place) all ≡ map (λ k. integer (low +ℤ pos k)) (range_with_len 0 count)) }
{
    let mut all = Items::new(alloc);
    for k in 0..count {
        let value = behind(low, k);
        all.push(Item::Int { value })?;
    }
    Ok(all)
}

/// The integers from one to another, both among them.
pub fn range_of(alloc: Global, low: i64, high: i64) -> Result<ItemList, ValueEnd>
    ensures { (place : Id → Stored) → Gives (map (item_seen place)) result (spec.range_of low high) }
{
    let count = range_len(low, high)?;
    let all = integers(alloc, low, count)?;
    Ok(all)
}
