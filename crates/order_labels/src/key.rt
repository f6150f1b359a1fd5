// Keys: an integer and a fraction, and their codes.
ghost use Rattle.std.specs.Prelude.{◌≡◌, ◌++◌, ◌∷◌, [], ℤ, pos, negsuc, ◌≤ℤ◌, ◌<ℤ◌, ◌-◌, ◌^◌, IfOk};
ghost use Rattle.order_labels.specs.KeyValue.{whole, IsKey, least_integer};
ghost use Rattle.order_labels.specs.LabelOrder.{code, integer_code, byte_order};

use crate::NoMemory;
use crate::digits::{Sign, push_number};
use crate::order::compare;
use std::alloc::Global;
use std::cmp::Ordering;
use std::marker::Model;

/// The least integer of a key, -254^7.
pub const LEAST_INTEGER: i64 = -68_208_110_101_184_384;

/// One more than the greatest integer of a key: 254^7.
pub const INTEGER_BOUND: i64 = 68_208_110_101_184_384;

/// A key: its integer, and its fraction. Contracts see both as a `KeyValue`.
#[derive(Debug, Drop)]
pub struct Key {
    integer: i64,
    fraction: Vec<u8>,
}

impl Model for Key {
    ghost use Rattle.order_labels.specs.KeyValue.{KeyValue, IsKey};

    ghost Value = { KeyValue };

    ghost view = { λ k. record { integer = k.integer; fraction = k.fraction.items } };

    ghost invariant = { λ k. IsKey (record { integer = k.integer; fraction = k.fraction.items }) };
}

impl Key {
    /// The key of an integer, with no fraction.
    pub fn whole(alloc: Global, integer: i64) -> Key
        requires above_least { least_integer <ℤ integer }
        requires below_bound { integer <ℤ pos (254 ^ 7) }
        ensures value { result ≡ whole integer }
        ensures key { IsKey result }
    {
        Key {
            integer,
            fraction: Vec::new(alloc),
        }
    }

    /// The key of an integer and a fraction.
    pub(crate) fn from_parts(integer: i64, fraction: Vec<u8>) -> Key
        requires { IsKey (record { integer = integer; fraction = fraction.items }) }
        ensures value { result ≡ record { integer = integer; fraction = fraction.items } }
        ensures integer { result.integer ≡ integer }
        ensures fraction { result.fraction ≡ fraction.items }
        ensures key { IsKey result }
    {
        Key { integer, fraction }
    }

    /// The integer, from -254^7 to 254^7 - 1.
    pub fn integer(&self) -> i64
        ensures value { result ≡ self.now.integer }
        ensures key { IsKey self.now }
    {
        self.integer
    }

    /// The bytes of the fraction.
    pub fn fraction(&self) -> &[u8]
        ensures value { result.now ≡ self.now.fraction }
        ensures key { IsKey self.now }
    {
        self.fraction.as_slice()
    }

    /// The bytes of the code.
    pub fn code(&self, alloc: Global) -> Result<Vec<u8>, NoMemory>
        ensures { IfOk result (λ bytes. bytes.items ≡ code self.now) }
    {
        let mut bytes = Vec::new(alloc);
        self.push_code(&mut bytes)?;
        Ok(bytes)
    }

    /// Appends the bytes of the code.
    pub(crate) fn push_code(&self, out: &mut Vec<u8>) -> Result<(), NoMemory>
        ensures code { IfOk result (λ _. out.new.items ≡ out.old.items ++ code self.now) }
        ensures key { IsKey self.now }
    {
        push_integer(out, self.integer)?;
        out.extend_from_slice(self.fraction.as_slice())?;
        Ok(())
    }

    /// A copy.
    pub fn copy(&self) -> Result<Key, NoMemory>
        ensures { IfOk result (λ k. k ≡ self.now) }
    {
        let fraction = self.fraction.clone()?;
        Ok(Key {
            integer: self.integer,
            fraction,
        })
    }
}

/// The order of two keys, which is that of their codes' bytes.
pub fn cmp_keys(a: &Key, b: &Key) -> Ordering
    ensures { result ≡ byte_order (code a.now) (code b.now) }
{
    if a.integer() < b.integer() {
        return Ordering::Less;
    }
    if b.integer() < a.integer() {
        return Ordering::Greater;
    }
    compare(a.fraction(), b.fraction())
}

/// Appends an integer's part of a code.
fn push_integer(out: &mut Vec<u8>, integer: i64) -> Result<(), NoMemory>
    requires from_least { least_integer ≤ℤ integer }
    requires below_bound { integer <ℤ pos (254 ^ 7) }
    ensures { IfOk result (λ _. out.new.items ≡ out.old.items ++ integer_code integer) }
{
    if integer >= 0 {
        push_number(out, Sign::FromZero, integer as u64)
    } else {
        push_number(out, Sign::Negative, (-1 - integer) as u64)
    }
}
