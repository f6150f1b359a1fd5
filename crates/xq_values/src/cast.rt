//! Casts of untyped values.
ghost use Rattle.std.specs.Prelude.{◌≡◌, ◌≤◌, length, fold, reverse, pos, neg_ℤ, option_map, ok_or};
ghost use Rattle.std.specs.List.{list_all, prefix_len};
ghost use Rattle.xq_ast.specs.Names as names;
ghost use Rattle.xq_ast.specs.Tokens as tokens;
ghost use Rattle.xml_model.specs.Atoms as spec;
ghost use Rattle.xml_model.specs.Items.{◌>>?◌};
ghost use Rattle.xq_ast.specs.declared.code.Code.TheVariants.{FORG0001};
ghost use Rattle.xq_values.specs.Digits.{up_to};

use xq_ast::{Code, INTEGER_MAX};

fn is_space(byte: u8) -> bool
    ensures { result ≡ tokens.is_space byte }
{
    byte == b' ' || byte == b'\t' || byte == b'\n' || byte == b'\r'
}

fn is_digit(byte: u8) -> bool
    ensures { result ≡ names.is_digit byte }
{
    byte >= b'0' && byte <= b'9'
}

// How many bytes from the first on are white space.
#[tactic(auto, using(crate::proofs::Fronts::prefix_len_le))]
fn spaces_len(bytes: &[u8]) -> usize
    ensures count { result ≡ prefix_len tokens.is_space bytes.now }
    ensures within { result ≤ length bytes.now }
{
    bytes.iter().take_while(|b| is_space(**b)).count()
}

// How many bytes from the last on are white space.
#[tactic(auto, using(crate::proofs::Fronts::suffix_len_le))]
fn spaces_at_end(bytes: &[u8]) -> usize
    ensures count { result ≡ prefix_len tokens.is_space (reverse bytes.now) }
    ensures within { result ≤ length bytes.now }
{
    bytes.iter().rev().take_while(|b| is_space(**b)).count()
}

#[tactic(auto, using(crate::proofs::Fronts::trimmed_is))]
fn trimmed(bytes: &[u8]) -> &[u8]
    ensures { result.now ≡ spec.trimmed bytes.now }
{
    let (_, rest) = bytes.split_at(spaces_len(bytes));
    let (word, _) = rest.split_at(rest.len() - spaces_at_end(rest));
    word
}

// The greatest number that the digits of an integer spell, behind a minus.
const DIGITS_MAX: u64 = INTEGER_MAX + 1;

// The number that these digits spell, where it is not too great.
#[tactic(auto, using(crate::proofs::Fronts::is_within))]
fn value_of(digits: &[u8]) -> Option<u64>
    ensures { result ≡ up_to DIGITS_MAX (Some (fold tokens.digit_more 0 digits.now)) }
{
    let mut value: u64 = 0;
    for digit in digits {
        let more = 10 * u128::from(value) + u128::from(digit.saturating_sub(b'0'));
        if more > u128::from(DIGITS_MAX) {
            return None;
        }
        value = more as u64;
    }
    Some(value)
}

fn are_digits(bytes: &[u8]) -> bool
    ensures { result ≡ list_all names.is_digit bytes.now }
{
    for byte in bytes {
        if !is_digit(*byte) {
            return false;
        }
    }
    true
}

// The number that digits spell, where there is one digit at least, and it is not too great.
#[tactic(auto, using(crate::proofs::Fronts::digits_are))]
fn digits_value(bytes: &[u8]) -> Option<u64>
    ensures { result ≡ up_to DIGITS_MAX (spec.digits_of bytes.now) }
{
    if bytes.is_empty() {
        return None;
    }
    if are_digits(bytes) {
        value_of(bytes)
    } else {
        None
    }
}

#[tactic(auto, using(crate::proofs::Longs::positive_long))]
fn positive(digits: &[u8]) -> Result<i64, Code>
    ensures { result ≡ (ok_or (option_map pos (spec.digits_of digits.now)) FORG0001 >>? spec.long_or FORG0001) }
{
    match digits_value(digits) {
        Some(value) if value <= INTEGER_MAX => Ok(value as i64),
        _ => Err(Code::FORG0001),
    }
}

#[tactic(auto, using(crate::proofs::Longs::negative_long))]
fn negative(digits: &[u8]) -> Result<i64, Code>
    ensures { result ≡ (ok_or (option_map (λ n. neg_ℤ (pos n)) (spec.digits_of digits.now)) FORG0001
        >>? spec.long_or FORG0001) }
{
    match digits_value(digits) {
        Some(value) if value <= INTEGER_MAX => Ok(-(value as i64)),
        Some(_) => Ok(i64::MIN),
        None => Err(Code::FORG0001),
    }
}

fn signed(bytes: &[u8]) -> Result<i64, Code>
    ensures { result ≡ (ok_or (spec.signed_of bytes.now) FORG0001 >>? spec.long_or FORG0001) }
{
    match bytes {
        [b'+', digits @ ..] => positive(digits),
        [b'-', digits @ ..] => negative(digits),
        _ => positive(bytes),
    }
}

/// An untyped value cast to an integer.
pub fn to_integer(text: &str) -> Result<i64, Code>
    ensures { result ≡ spec.to_integer text.now }
{
    signed(trimmed(text.as_bytes()))
}

/// An untyped value cast to a truth value.
pub fn to_boolean(text: &str) -> Result<bool, Code>
    ensures { result ≡ spec.to_boolean text.now }
{
    let word = trimmed(text.as_bytes());
    if word == b"true".as_slice() || word == b"1".as_slice() {
        Ok(true)
    } else if word == b"false".as_slice() || word == b"0".as_slice() {
        Ok(false)
    } else {
        Err(Code::FORG0001)
    }
}
