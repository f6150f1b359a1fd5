//! Signs in front of a value.
ghost use Rattle.std.specs.Prelude.{◌≡◌, ◌<◌, length};
ghost use Rattle.xml_model.specs.Atoms as spec;
ghost use Rattle.xq_values.specs.Lists.{listed};
ghost use Rattle.xq_values.specs.Signs.{again, is_minus_at, SignsGive};

use crate::arithmetic::added;
use xml_model::Atom;
use xq_ast::{Code, Sign};

fn is_minus(sign: Sign) -> bool
    ensures { result ≡ spec.is_minus sign }
{
    match sign {
        Sign::Plus => false,
        Sign::Minus => true,
    }
}

// Whether the sign at this place is `-`.
fn minus_at(signs: &[Sign], at: usize) -> bool
    requires { at < length signs.now }
    ensures { result ≡ is_minus_at signs.now at }
{
    is_minus(signs[at])
}

// A sign in front of what the signs behind it gave.
fn signed_again(minus: bool, found: Result<Option<i64>, Code>) -> Result<Option<i64>, Code>
    ensures { listed result ≡ again minus found }
{
    match found {
        Ok(None) => Ok(None),
        Ok(Some(value)) => {
            let zero = [Atom::Int { value: 0 }];
            let operand = [Atom::Int { value }];
            added(minus, &zero, &operand)
        }
        Err(code) => Err(code),
    }
}

/// What the signs make of a value, from the inside out: `-` subtracts from 0. There is one sign at
/// least. Takes no memory.
#[tactic(auto, using(crate::proofs::Signs::last_sign))]
pub fn signed(signs: &[Sign], value: &[Atom]) -> Result<Option<i64>, Code>
    requires { 0 < length signs.now }
    ensures { SignsGive signs.now value.now result }
{
    let zero = [Atom::Int { value: 0 }];
    let mut left = signs.len() - 1;
    let last = minus_at(signs, left);
    let mut found = added(last, &zero, value);
    while left > 0 {
        left -= 1;
        let minus = minus_at(signs, left);
        found = signed_again(minus, found);
    }
    found
}
