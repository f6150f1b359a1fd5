//! Keys of `order by`, and their order.
ghost use Rattle.std.specs.Prelude.{◌≡◌, Bool, List, []};
ghost use Rattle.xml_model.specs.Tuples as spec;
ghost use Rattle.xml_model.specs.declared.value.Key.TheVariants as keys;
ghost use Rattle.xq_values.specs.Gives.{Gives};

use crate::end::ValueEnd;
use std::cmp::Ordering;
use xml_model::{Atom, Key, KeyType};
use xq_ast::Code;

/// The key that a value is made: an untyped value is ordered as a string.
pub fn key_of(atoms: &[Atom]) -> Result<Key, ValueEnd>
    ensures { Gives (λ k. k) result (spec.key_of atoms.now) }
{
    match atoms {
        [] => Ok(Key::Empty),
        [Atom::Untyped { text }] => Ok(Key::Text { text: text.copy()? }),
        [Atom::Text { text }] => Ok(Key::Text { text: text.copy()? }),
        [Atom::Int { value }] => Ok(Key::Int { value: *value }),
        [Atom::Truth { value }] => Ok(Key::Truth { value: *value }),
        _ => Err(ValueEnd::Code(Code::XPTY0004)),
    }
}

/// The type of a key.
pub fn type_of(key: &Key) -> KeyType
    ensures { result ≡ spec.type_of key.now }
{
    match key {
        Key::Empty => KeyType::Unknown,
        Key::Text { .. } => KeyType::Text,
        Key::Int { .. } => KeyType::Int,
        Key::Truth { .. } => KeyType::Truth,
    }
}

/// The type at a place with one more key. Takes no memory.
pub fn joined_type(earlier: KeyType, key: KeyType) -> Result<KeyType, Code>
    ensures { result ≡ spec.joined_type earlier key }
{
    match (earlier, key) {
        (KeyType::Unknown, _) => Ok(key),
        (_, KeyType::Unknown) => Ok(earlier),
        (KeyType::Text, KeyType::Text) => Ok(KeyType::Text),
        (KeyType::Int, KeyType::Int) => Ok(KeyType::Int),
        (KeyType::Truth, KeyType::Truth) => Ok(KeyType::Truth),
        _ => Err(Code::XPTY0004),
    }
}

fn key_order(a: &Key, b: &Key) -> Ordering
    ensures { result ≡ spec.key_cmp a.now b.now }
{
    match (a, b) {
        (Key::Empty, Key::Empty) => Ordering::Equal,
        (Key::Empty, _) => Ordering::Less,
        (_, Key::Empty) => Ordering::Greater,
        (Key::Text { text: a }, Key::Text { text: b }) => a.as_bytes().cmp(b.as_bytes()),
        (Key::Text { .. }, _) => Ordering::Less,
        (_, Key::Text { .. }) => Ordering::Greater,
        (Key::Int { value: a }, Key::Int { value: b }) => a.cmp(b),
        (Key::Int { .. }, Key::Truth { .. }) => Ordering::Less,
        (Key::Truth { .. }, Key::Int { .. }) => Ordering::Greater,
        (Key::Truth { value: a }, Key::Truth { value: b }) => a.cmp(b),
    }
}

fn turned(descends: bool, order: Ordering) -> Ordering
    ensures { result ≡ spec.turned descends order }
{
    if descends { order.reverse() } else { order }
}

// How no keys stand before some.
fn before_keys(keys: &[Key]) -> Ordering
    ensures { (descends : List Bool) → result ≡ spec.keys_cmp descends [] keys.now }
{
    match keys {
        [] => Ordering::Equal,
        [_, ..] => Ordering::Less,
    }
}

/// How two tuples stand by their keys; the first argument says which of the keys descend.
#[tactic(auto, using(crate::proofs::Keys::greater))]
pub fn keys_order(descends: &[bool], a: &[Key], b: &[Key]) -> Ordering
    ensures { result ≡ spec.keys_cmp descends.now a.now b.now }
{
    let [x, xs @ ..] = a else {
        return before_keys(b);
    };
    let [y, ys @ ..] = b else {
        return Ordering::Greater;
    };
    let [down, downs @ ..] = descends else {
        return match key_order(x, y) {
            Ordering::Equal => keys_order(descends, xs, ys),
            order => order,
        };
    };
    match turned(*down, key_order(x, y)) {
        Ordering::Equal => keys_order(downs, xs, ys),
        order => order,
    }
}
