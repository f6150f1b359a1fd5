// Lists of keys, and keys that are spread evenly: one for each number from 0 on.
ghost use Rattle.std.specs.Prelude.{◌≡◌, length, IfOk};
ghost use Rattle.order_labels.specs.Insertions.{first_keys, IsRising};

use crate::NoMemory;
use crate::key::Key;
use std::alloc::Global;
use std::marker::Model;

/// Some keys, in an order of their own. Contracts see a list of keys.
#[derive(Debug, Drop)]
pub struct KeyList {
    keys: Vec<Key>,
}

impl Model for KeyList {
    ghost use Rattle.std.specs.Prelude.{List};
    ghost use Rattle.order_labels.specs.KeyValue.{KeyValue};

    ghost Value = { List KeyValue };

    ghost view = { λ list. list.keys.items };
}

impl KeyList {
    /// The keys of a `Vec`.
    pub fn from_vec(keys: Vec<Key>) -> KeyList
        ensures { result ≡ keys.items }
    {
        KeyList { keys }
    }

    /// The keys as a `Vec`.
    pub fn into_vec(self) -> Vec<Key>
        ensures { result.items ≡ self }
    {
        self.keys
    }

    /// The keys in their order.
    pub fn as_slice(&self) -> &[Key]
        ensures { result.now ≡ self.now }
    {
        self.keys.as_slice()
    }
}

/// The keys of the integers 0 to `count` - 1, for the children of one node in their order.
pub fn spread(alloc: Global, count: u32) -> Result<KeyList, NoMemory>
    ensures keys { IfOk result (λ list. list ≡ first_keys count) }
    ensures rising { IfOk result IsRising }
{
    let mut keys = Vec::new(alloc);
    for integer in 0..count {
        keys.push(Key::whole(alloc, i64::from(integer)))?;
    }
    Ok(KeyList { keys })
}
