// Fractions of keys: what stands next to one, above and below.
ghost use Rattle.std.specs.Prelude.{◌≡◌, ◌≢◌, ℕ, List, ◌<◌, ◌+◌, ◌≤◌, ◌++◌, ◌∷◌, max, [], length, IfOk};
ghost use Rattle.order_labels.specs.KeyValue.{IsFraction};
ghost use Rattle.order_labels.specs.LabelOrder.{IsBelow};

use crate::NoMemory;
use crate::order::compare;
use std::alloc::Global;
use std::cmp::Ordering;

/// The byte of a fraction that begins at a place where nothing was: it leaves room on both sides.
const MIDDLE: u8 = 128;

/// A fraction just above another one: its last byte that can be higher is one higher, and what
/// followed that byte is gone. Where there is none, a byte is added.
pub(crate) fn step_up(alloc: Global, low: &[u8]) -> Result<Vec<u8>, NoMemory>
    requires { IsFraction low.now }
    ensures fraction { IfOk result (λ v. IsFraction v.items) }
    ensures some { IfOk result (λ v. v.items ≢ []) }
    ensures above { IfOk result (λ v. IsBelow low.now v.items) }
    ensures short { IfOk result (λ v. length v.items ≤ length low.now + 1) }
{
    let mut at = low.len();
    while at > 0 {
        at -= 1;
        let byte = low[at];
        if byte < 255 {
            return with_last(alloc, &low[..at], byte + 1);
        }
    }
    with_last(alloc, low, MIDDLE)
}

/// A fraction just below another one that is not empty: its last byte is one lower, or 2 with one
/// more byte where it would be 2.
pub(crate) fn step_down(alloc: Global, high: &[u8]) -> Result<Vec<u8>, NoMemory>
    requires fraction { IsFraction high.now }
    requires some { high.now ≢ [] }
    ensures fraction { IfOk result (λ v. IsFraction v.items) }
    ensures some { IfOk result (λ v. v.items ≢ []) }
    ensures below { IfOk result (λ v. IsBelow v.items high.now) }
    // What is below `high` and shorter is below the result too.
    ensures near { IfOk result (λ v. (low : List ℕ) → length low < length high.now → IsBelow low high.now → IsBelow low v.items) }
    ensures short { IfOk result (λ v. length v.items ≤ length high.now + 1) }
{
    let last = high.len() - 1;
    let byte = high[last];
    if byte > 3 {
        return with_last(alloc, &high[..last], byte - 1);
    }
    let mut lower = Vec::from_slice(alloc, &high[..last])?;
    lower.push(2)?;
    lower.push(255)?;
    Ok(lower)
}

/// Some bytes of a fraction, and one more at their end.
fn with_last(alloc: Global, front: &[u8], last: u8) -> Result<Vec<u8>, NoMemory>
    ensures { IfOk result (λ v. v.items ≡ front.now ++ last ∷ []) }
{
    let mut bytes = Vec::from_slice(alloc, front)?;
    bytes.push(last)?;
    Ok(bytes)
}

/// A fraction strictly between two others: a step from the longer one where that stays between them,
/// and else the low one with a byte more.
pub(crate) fn between_fractions(alloc: Global, low: &[u8], high: &[u8]) -> Result<Vec<u8>, NoMemory>
    requires low { IsFraction low.now }
    requires high { IsFraction high.now }
    requires in_order { IsBelow low.now high.now }
    ensures fraction { IfOk result (λ v. IsFraction v.items) }
    ensures some { IfOk result (λ v. v.items ≢ []) }
    ensures above { IfOk result (λ v. IsBelow low.now v.items) }
    ensures below { IfOk result (λ v. IsBelow v.items high.now) }
    ensures short { IfOk result (λ v. length v.items ≤ max (length low.now) (length high.now) + 1) }
{
    if low.len() < high.len() {
        return step_down(alloc, high);
    }
    let stepped = step_up(alloc, low)?;
    if let Ordering::Less = compare(stepped.as_slice(), high) {
        return Ok(stepped);
    }
    with_last(alloc, low, MIDDLE)
}
