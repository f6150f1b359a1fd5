// Keys between neighbours.
ghost use Rattle.std.specs.Prelude.{◌≡◌, ◌+◌, ◌^◌, ◌≤◌, pos, ◌+ℤ◌, ◌<ℤ◌, max, length, IfOk};
ghost use Rattle.std.specs.Option.{option_copied};
ghost use Rattle.order_labels.specs.KeyValue.{IsKey, whole, least_integer};
ghost use Rattle.order_labels.specs.LabelOrder.{code, IsKeyBelow};
ghost use Rattle.order_labels.specs.Neighbours.{AreInOrder, LiesBetween, length_bound};

use crate::NoMemory;
use crate::fraction::{between_fractions, step_down, step_up};
use crate::key::{INTEGER_BOUND, Key, LEAST_INTEGER};
use std::alloc::Global;

/// A key strictly between two neighbours, each of which may be missing. Its code is at most one byte
/// longer than the longer neighbour's, and has at most two bytes where there is none.
pub fn between(alloc: Global, low: Option<&Key>, high: Option<&Key>) -> Result<Key, NoMemory>
    requires { AreInOrder (option_copied low) (option_copied high) }
    ensures between { IfOk result (LiesBetween (option_copied low.entry) (option_copied high.entry)) }
    ensures short { IfOk result (λ k. length (code k) ≤ length_bound (option_copied low.entry) (option_copied high.entry)) }
{
    match (low, high) {
        (None, None) => Ok(Key::whole(alloc, 0)),
        (Some(low), None) => after(alloc, low),
        (None, Some(high)) => before(alloc, high),
        (Some(low), Some(high)) => inside(alloc, low, high),
    }
}

/// A key above another one: `between` without an upper end.
pub fn after(alloc: Global, low: &Key) -> Result<Key, NoMemory>
    ensures above { IfOk result (λ k. IsKeyBelow low.now k) }
    ensures short { IfOk result (λ k. length (code k) ≤ length (code low.now) + 1) }
{
    if low.integer() + 1 < INTEGER_BOUND {
        Ok(next_integer(alloc, low))
    } else {
        higher_fraction(alloc, low)
    }
}

/// The key of the integer that follows another key's.
fn next_integer(alloc: Global, low: &Key) -> Key
    requires { (low.now.integer +ℤ pos 1) <ℤ pos (254 ^ 7) }
    ensures value { result ≡ whole (low.now.integer +ℤ pos 1) }
    ensures key { IsKey result }
    ensures above { IsKeyBelow low.now result }
    ensures short { length (code result) ≤ length (code low.now) + 1 }
{
    Key::whole(alloc, low.integer() + 1)
}

/// A key above another one that has the same integer.
fn higher_fraction(alloc: Global, low: &Key) -> Result<Key, NoMemory>
    ensures key { IfOk result (λ k. IsKey k × (k.integer ≡ low.now.integer)) }
    ensures above { IfOk result (λ k. IsKeyBelow low.now k) }
    ensures short { IfOk result (λ k. length (code k) ≤ length (code low.now) + 1) }
{
    let fraction = step_up(alloc, low.fraction())?;
    Ok(Key::from_parts(low.integer(), fraction))
}

/// A key below another one.
fn before(alloc: Global, high: &Key) -> Result<Key, NoMemory>
    ensures below { IfOk result (λ k. IsKeyBelow k high.now) }
    ensures short { IfOk result (λ k. length (code k) ≤ length (code high.now) + 1) }
{
    if high.integer() == LEAST_INTEGER {
        let fraction = step_down(alloc, high.fraction())?;
        return Ok(Key::from_parts(LEAST_INTEGER, fraction));
    }
    let previous = high.integer() - 1;
    if previous == LEAST_INTEGER {
        // The least integer has a fraction, so that there is a key below it again.
        return least_with_fraction(alloc);
    }
    Ok(Key::whole(alloc, previous))
}

/// A key of the least integer, with a fraction of one byte.
fn least_with_fraction(alloc: Global) -> Result<Key, NoMemory>
    ensures key { IfOk result (λ k. IsKey k × (k.integer ≡ least_integer)) }
    ensures length { IfOk result (λ k. length (code k) ≤ 9) }
{
    let fraction = step_up(alloc, &[])?;
    Ok(Key::from_parts(LEAST_INTEGER, fraction))
}

/// A key between two others.
fn inside(alloc: Global, low: &Key, high: &Key) -> Result<Key, NoMemory>
    requires { IsKeyBelow low.now high.now }
    ensures above { IfOk result (λ k. IsKeyBelow low.now k) }
    ensures below { IfOk result (λ k. IsKeyBelow k high.now) }
    ensures short { IfOk result (λ k. length (code k) ≤ max (length (code low.now)) (length (code high.now)) + 1) }
{
    if low.integer() == high.integer() {
        return inside_integer(alloc, low, high);
    }
    if low.integer() + 1 < high.integer() {
        return Ok(next_integer(alloc, low));
    }
    if high.fraction().is_empty() {
        return higher_fraction(alloc, low);
    }
    Ok(next_integer(alloc, low))
}

/// A key between two others of one integer.
fn inside_integer(alloc: Global, low: &Key, high: &Key) -> Result<Key, NoMemory>
    requires same { low.now.integer ≡ high.now.integer }
    requires in_order { IsKeyBelow low.now high.now }
    ensures above { IfOk result (λ k. IsKeyBelow low.now k) }
    ensures below { IfOk result (λ k. IsKeyBelow k high.now) }
    ensures short { IfOk result (λ k. length (code k) ≤ max (length (code low.now)) (length (code high.now)) + 1) }
{
    let fraction = between_fractions(alloc, low.fraction(), high.fraction())?;
    Ok(Key::from_parts(low.integer(), fraction))
}
