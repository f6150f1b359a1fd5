//! Arithmetic on integers of 64 bits.
ghost use Rattle.std.specs.Prelude.{◌≡◌, ℤ, Bool, true, false, Result, ok_or};
ghost use Rattle.xq_ast.specs.declared.code.Code.{Code};
ghost use Rattle.xq_ast.specs.declared.tree.ProductOp.TheVariants.{Times, Idiv, Mod};
ghost use Rattle.xq_ast.specs.declared.code.Code.TheVariants.{FOAR0002};
ghost use Rattle.xml_model.specs.Items.{Items};
ghost use Rattle.xml_model.specs.Atoms as spec;
ghost use Rattle.xq_values.specs.Lists.{one, listed, applied};

use crate::cast::to_integer;
use xml_model::Atom;
use xq_ast::{Code, ProductOp};

/// The operands of an operator.
#[derive(Clone, Copy, Debug, PartialEq, Eq)]
pub struct Operands {
    pub left: i64,
    pub right: i64,
}

// The integer that an operand is made.
fn operand(atom: &Atom) -> Result<i64, Code>
    ensures { result ≡ spec.operand atom.now }
{
    match atom {
        Atom::Untyped { text } => to_integer(text.as_str()),
        Atom::Text { .. } => Err(Code::XPTY0004),
        Atom::Int { value } => Ok(*value),
        Atom::Truth { .. } => Err(Code::XPTY0004),
    }
}

/// The integers that both sides are made, the left first, or nothing where one side is empty.
/// Takes no memory.
pub fn both_operands(left: &[Atom], right: &[Atom]) -> Result<Option<Operands>, Code>
    ensures { (op : ℤ → ℤ → Result Items Code) → applied op result ≡ spec.operated op left.now right.now }
{
    match (left, right) {
        ([], _) => Ok(None),
        ([_, ..], []) => Ok(None),
        ([a], [b]) => {
            let left = operand(a)?;
            let right = operand(b)?;
            Ok(Some(Operands { left, right }))
        }
        _ => Err(Code::XPTY0004),
    }
}

// An integer of 64 bits, where the result was one.
fn within_long(found: Option<i64>) -> Result<i64, Code>
    ensures { result ≡ ok_or found FOAR0002 }
{
    found.ok_or(Code::FOAR0002)
}

fn sum_op(minus: bool, left: i64, right: i64) -> Result<i64, Code>
    ensures { one result ≡ spec.sum_op minus left right }
{
    if minus {
        difference(left, right)
    } else {
        sum(left, right)
    }
}

fn sum(left: i64, right: i64) -> Result<i64, Code>
    ensures { one result ≡ spec.sum_op false left right }
{
    within_long(left.checked_add(right))
}

fn difference(left: i64, right: i64) -> Result<i64, Code>
    ensures { one result ≡ spec.sum_op true left right }
{
    within_long(left.checked_sub(right))
}

fn product(left: i64, right: i64) -> Result<i64, Code>
    ensures { one result ≡ spec.product_op Times left right }
{
    within_long(left.checked_mul(right))
}

// A quotient, truncated towards zero. Only the least integer by -1 is past 64 bits.
fn quotient(left: i64, right: i64) -> Result<i64, Code>
    ensures { one result ≡ spec.product_op Idiv left right }
{
    if right == 0 {
        return Err(Code::FOAR0001);
    }
    within_long(left.checked_div(right))
}

// What a division leaves, with the sign of the dividend. It is 0 where the quotient is past 64 bits.
fn remainder(left: i64, right: i64) -> Result<i64, Code>
    ensures { one result ≡ spec.product_op Mod left right }
{
    if right == 0 {
        return Err(Code::FOAR0001);
    }
    Ok(left.wrapping_rem(right))
}

fn product_op(op: ProductOp, left: i64, right: i64) -> Result<i64, Code>
    ensures { one result ≡ spec.product_op op left right }
{
    match op {
        ProductOp::Times => product(left, right),
        ProductOp::Idiv => quotient(left, right),
        ProductOp::Mod => remainder(left, right),
    }
}

/// `+`, or `-` where `minus` is true. Takes no memory.
pub fn added(minus: bool, left: &[Atom], right: &[Atom]) -> Result<Option<i64>, Code>
    ensures { listed result ≡ spec.operated (spec.sum_op minus) left.now right.now }
{
    match both_operands(left, right)? {
        None => Ok(None),
        Some(both) => Ok(Some(sum_op(minus, both.left, both.right)?)),
    }
}

/// `*`, `idiv` or `mod`. Takes no memory.
pub fn multiplied(op: ProductOp, left: &[Atom], right: &[Atom]) -> Result<Option<i64>, Code>
    ensures { listed result ≡ spec.operated (spec.product_op op) left.now right.now }
{
    match both_operands(left, right)? {
        None => Ok(None),
        Some(both) => Ok(Some(product_op(op, both.left, both.right)?)),
    }
}
