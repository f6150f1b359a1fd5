//! Sums of values.
ghost use Rattle.std.specs.Prelude.{◌≡◌};
ghost use Rattle.xml_model.specs.Atoms as spec;
ghost use Rattle.xq_values.specs.Sums as sums;

use crate::cast::to_integer;
use xml_model::Atom;
use xq_ast::Code;

// The integer that an item of a sum is made.
fn summand(atom: &Atom) -> Result<i64, Code>
    ensures { result ≡ spec.summand atom.now }
{
    match atom {
        Atom::Untyped { text } => to_integer(text.as_str()),
        Atom::Text { .. } => Err(Code::FORG0006),
        Atom::Int { value } => Ok(*value),
        Atom::Truth { .. } => Err(Code::FORG0006),
    }
}

// The total with one integer more, where 64 bits have held all of them.
fn plus(total: Option<i64>, value: i64) -> Option<i64>
    ensures { result ≡ sums.plus total value }
{
    match total {
        None => None,
        Some(total) => total.checked_add(value),
    }
}

/// The sum, from the left. All values are cast, also where 64 bits do not hold the sum. Takes no
/// memory.
pub fn sum_of(atoms: &[Atom]) -> Result<i64, Code>
    ensures { result ≡ spec.sum_of atoms.now }
{
    let mut total: Option<i64> = Some(0);
    for atom in atoms {
        let value = summand(atom)?;
        total = plus(total, value);
    }
    total.ok_or(Code::FOAR0002)
}
