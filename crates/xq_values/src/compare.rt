//! Comparison.
ghost use Rattle.std.specs.Prelude.{◌≡◌};
ghost use Rattle.xml_model.specs.Atoms as spec;
ghost use Rattle.xml_model.specs.declared.value.Atom.TheVariants as atom;

use crate::cast::{to_boolean, to_integer};
use std::cmp::Ordering;
use xml_model::{Atom, SharedText};
use xq_ast::{Code, CompareOp};

// Whether two values in this order compare so.
fn ordered_by(op: CompareOp, order: Ordering) -> bool
    ensures { result ≡ spec.ordered_by op order }
{
    match op {
        CompareOp::Eq => order.is_eq(),
        CompareOp::Ne => order.is_ne(),
        CompareOp::Lt => order.is_lt(),
        CompareOp::Le => order.is_le(),
        CompareOp::Gt => order.is_gt(),
        CompareOp::Ge => order.is_ge(),
    }
}

fn text_order(a: &SharedText, b: &SharedText) -> Ordering
    ensures { result ≡ spec.text_cmp a.now b.now }
{
    a.as_bytes().cmp(b.as_bytes())
}

fn order_of_untyped(text: &SharedText, right: &Atom) -> Result<Ordering, Code>
    ensures { result ≡ spec.atom_cmp (atom.Untyped text.now) right.now }
{
    match right {
        Atom::Untyped { text: other } => Ok(text_order(text, other)),
        Atom::Text { text: other } => Ok(text_order(text, other)),
        Atom::Int { value } => Ok(to_integer(text.as_str())?.cmp(value)),
        Atom::Truth { value } => Ok(to_boolean(text.as_str())?.cmp(value)),
    }
}

fn order_of_text(text: &SharedText, right: &Atom) -> Result<Ordering, Code>
    ensures { result ≡ spec.atom_cmp (atom.Text text.now) right.now }
{
    match right {
        Atom::Untyped { text: other } => Ok(text_order(text, other)),
        Atom::Text { text: other } => Ok(text_order(text, other)),
        Atom::Int { .. } => Err(Code::XPTY0004),
        Atom::Truth { .. } => Err(Code::XPTY0004),
    }
}

fn order_of_integer(value: i64, right: &Atom) -> Result<Ordering, Code>
    ensures { result ≡ spec.atom_cmp (atom.Int value) right.now }
{
    match right {
        Atom::Untyped { text } => Ok(value.cmp(&to_integer(text.as_str())?)),
        Atom::Text { .. } => Err(Code::XPTY0004),
        Atom::Int { value: other } => Ok(value.cmp(other)),
        Atom::Truth { .. } => Err(Code::XPTY0004),
    }
}

fn order_of_truth(value: bool, right: &Atom) -> Result<Ordering, Code>
    ensures { result ≡ spec.atom_cmp (atom.Truth value) right.now }
{
    match right {
        Atom::Untyped { text } => Ok(value.cmp(&to_boolean(text.as_str())?)),
        Atom::Text { .. } => Err(Code::XPTY0004),
        Atom::Int { .. } => Err(Code::XPTY0004),
        Atom::Truth { value: other } => Ok(value.cmp(other)),
    }
}

fn atom_order(left: &Atom, right: &Atom) -> Result<Ordering, Code>
    ensures { result ≡ spec.atom_cmp left.now right.now }
{
    match left {
        Atom::Untyped { text } => order_of_untyped(text, right),
        Atom::Text { text } => order_of_text(text, right),
        Atom::Int { value } => order_of_integer(*value, right),
        Atom::Truth { value } => order_of_truth(*value, right),
    }
}

// A value of the left side with those of the right, up to the first that is true or fails.
fn some_right(op: CompareOp, left: &Atom, right: &[Atom]) -> Result<bool, Code>
    ensures { result ≡ spec.some_right op left.now right.now }
{
    for atom in right {
        let order = atom_order(left, atom)?;
        if ordered_by(op, order) {
            return Ok(true);
        }
    }
    Ok(false)
}

/// Whether some value of the left side and some of the right side compare so. Pairs are taken left
/// value by left value, and the first that is true or fails ends it. Takes no memory.
pub fn compares(op: CompareOp, left: &[Atom], right: &[Atom]) -> Result<bool, Code>
    ensures { result ≡ spec.compares op left.now right.now }
{
    for atom in left {
        if some_right(op, atom, right)? {
            return Ok(true);
        }
    }
    Ok(false)
}
