// The digits of an integer to the base 254.
ghost use Rattle.std.specs.Prelude.{◌≡◌, ℕ, ◌+◌, ◌^◌, ◌<◌, ◌≤◌, ◌++◌, ◌∷◌, map, IfOk};
ghost use Rattle.order_labels.specs.LabelOrder.{digit_count, digits};
ghost use Rattle.order_labels.specs.Sign.{first_byte, digit_byte, number_code};

use crate::NoMemory;

/// How many different digits there are: a digit is written as a byte that is neither 0 nor 1.
pub(crate) const BASE: u64 = 254;

/// The most digits that an integer of a key has.
const DIGITS_MAX: u32 = 7;

/// Which of the two ways an integer's digits are written.
#[derive(Clone, Copy, Debug, PartialEq, Eq)]
pub(crate) enum Sign {
    FromZero,
    Negative,
}

/// The byte that a digit is written as.
fn digit_byte(sign: Sign, digit: u8) -> u8
    requires { digit < 254 }
    ensures { result ≡ digit_byte sign digit }
{
    match sign {
        Sign::FromZero => digit + 2,
        Sign::Negative => 255 - digit,
    }
}

/// How many digits a number has to the base 254, at least one.
fn digit_count(number: u64) -> u32
    requires { number < 254 ^ 7 }
    ensures count { result ≡ digit_count number }
    ensures few { result ≤ 7 }
    ensures enough { number < 254 ^ result }
{
    for count in 1..DIGITS_MAX {
        if number < BASE.pow(count) {
            return count;
        }
    }
    DIGITS_MAX
}

/// The first byte of an integer's part of a code, which says how many digits follow.
fn first_byte(sign: Sign, count: u32) -> u8
    requires { count ≤ 7 }
    ensures { result ≡ first_byte sign count }
{
    match sign {
        Sign::FromZero => 128 + count as u8,
        Sign::Negative => 128 - count as u8,
    }
}

/// Appends a number: the first byte, and the digits.
pub(crate) fn push_number(out: &mut Vec<u8>, sign: Sign, number: u64) -> Result<(), NoMemory>
    requires { number < 254 ^ 7 }
    ensures { IfOk result (λ _. out.new.items ≡ out.old.items ++ number_code sign number) }
{
    let count = digit_count(number);
    out.push(first_byte(sign, count))?;
    push_digits(out, sign, count, number)
}

/// Appends the `count` digits of a number, highest first.
fn push_digits(out: &mut Vec<u8>, sign: Sign, count: u32, number: u64) -> Result<(), NoMemory>
    requires few { count ≤ 7 }
    requires enough { number < 254 ^ count }
    ensures { IfOk result (λ _. out.new.items ≡ out.old.items ++ map (digit_byte sign) (digits count number)) }
{
    if count == 0 {
        return Ok(());
    }
    let power = BASE.pow(count - 1);
    out.push(digit_byte(sign, (number / power) as u8))?;
    push_digits(out, sign, count - 1, number % power)
}
