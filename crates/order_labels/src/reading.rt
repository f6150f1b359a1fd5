// Keys read from their codes, and from labels.
ghost use Rattle.std.specs.Prelude.{◌≡◌, ◌≢◌, ◌^◌, ◌<◌, ◌≤◌, ◌↔◌, pos, ◌≤ℤ◌, ◌<ℤ◌, length, IfOk, IfSome, IfNone, IsTrue};
ghost use Rattle.order_labels.specs.KeyValue.{KeyValue, IsKey, IsFraction, least_integer};
ghost use Rattle.order_labels.specs.LabelOrder.{code};
ghost use Rattle.order_labels.specs.Reading.{sign_of, count_of, digit_of, number_of, integer_of, read_key};

use crate::NoMemory;
use crate::digits::{BASE, Sign};
use crate::key::{Key, LEAST_INTEGER};
use std::alloc::Global;

/// The key with this code, or None where the bytes are no key's code.
pub fn key_from_code(alloc: Global, bytes: &[u8]) -> Result<Option<Key>, NoMemory>
    ensures found { IfOk result (λ found. IfSome found (λ k. code k ≡ bytes.now)) }
    ensures none { IfOk result (λ found. IfNone found ((k : KeyValue) → IsKey k → code k ≢ bytes.now)) }
{
    let integer = read_integer(bytes);
    let fraction = read_fraction(bytes);
    if !is_fraction(fraction) {
        return Ok(None);
    }
    if integer == LEAST_INTEGER && fraction.is_empty() {
        return Ok(None);
    }
    let key = key_of(alloc, integer, fraction)?;
    if has_code(&key, alloc, bytes)? {
        Ok(Some(key))
    } else {
        Ok(None)
    }
}

/// The key of an integer and a fraction.
fn key_of(alloc: Global, integer: i64, fraction: &[u8]) -> Result<Key, NoMemory>
    requires { IsKey (record { integer = integer; fraction = fraction.now }) }
    ensures { IfOk result (λ k. k ≡ record { integer = integer; fraction = fraction.now }) }
{
    let bytes = Vec::from_slice(alloc, fraction)?;
    Ok(Key::from_parts(integer, bytes))
}

/// Whether some bytes are a key's code.
fn has_code(key: &Key, alloc: Global, bytes: &[u8]) -> Result<bool, NoMemory>
    ensures { IfOk result (λ same. IsTrue same ↔ (code key.now ≡ bytes.now)) }
{
    let code = key.code(alloc)?;
    Ok(code.as_slice() == bytes)
}

/// The integer that some bytes say, whether or not they are a code.
fn read_integer(bytes: &[u8]) -> i64
    ensures value { result ≡ (read_key bytes.now).integer }
    ensures from_least { least_integer ≤ℤ result }
    ensures below_bound { result <ℤ pos (254 ^ 7) }
{
    if bytes.is_empty() {
        return 0;
    }
    let rest = &bytes[1..];
    let digits = &rest[..count_of(bytes[0]).min(rest.len())];
    integer_of(sign_of(bytes[0]), number_of(sign_of(bytes[0]), digits))
}

/// The integer of a number.
fn integer_of(sign: Sign, number: u64) -> i64
    requires { number < 254 ^ 7 }
    ensures value { result ≡ integer_of sign number }
    ensures from_least { least_integer ≤ℤ result }
    ensures below_bound { result <ℤ pos (254 ^ 7) }
{
    match sign {
        Sign::FromZero => number as i64,
        Sign::Negative => -1 - number as i64,
    }
}

/// What follows the digits in some bytes, whether or not they are a code.
fn read_fraction(bytes: &[u8]) -> &[u8]
    ensures { result.now ≡ (read_key bytes.now).fraction }
{
    if bytes.is_empty() {
        return bytes;
    }
    let rest = &bytes[1..];
    &rest[count_of(bytes[0]).min(rest.len())..]
}

/// Whether some bytes are a fraction.
fn is_fraction(bytes: &[u8]) -> bool
    ensures { IsTrue result ↔ IsFraction bytes.now }
{
    if bytes.is_empty() {
        return true;
    }
    bytes[bytes.len() - 1] != 2 && bytes.iter().all(|b| *b >= 2)
}

/// The sign that the first byte of a code says.
fn sign_of(first: u8) -> Sign
    ensures { result ≡ sign_of first }
{
    if first < 128 {
        Sign::Negative
    } else {
        Sign::FromZero
    }
}

/// How many digits the first byte of a code says.
fn count_of(first: u8) -> usize
    ensures { result ≡ count_of first }
{
    let count = if first < 128 {
        128 - first
    } else {
        first - 128
    };
    usize::from(count.min(7))
}

/// The digit that a byte says.
fn digit_of(sign: Sign, byte: u8) -> u64
    ensures value { result ≡ digit_of sign byte }
    ensures below { result < 254 }
{
    let digit = match sign {
        Sign::FromZero => byte.saturating_sub(2),
        Sign::Negative => 255 - byte,
    };
    u64::from(digit.min(253))
}

/// The number that has these bytes for digits.
fn number_of(sign: Sign, digits: &[u8]) -> u64
    requires { length digits.now ≤ 7 }
    ensures value { result ≡ number_of sign digits.now }
    ensures below { result < 254 ^ length digits.now }
    ensures bound { result < 254 ^ 7 }
{
    if digits.is_empty() {
        return 0;
    }
    let rest = &digits[1..];
    digit_of(sign, digits[0]) * BASE.pow(rest.len() as u32) + number_of(sign, rest)
}
