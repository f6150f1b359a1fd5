//! Labels that are never rebuilt.
//!
//! A key is an integer and a fraction, and between any two keys there is another. A label is its
//! parent's label, the code of a key and the byte 1. Contracts see a key as a `KeyValue` and a label
//! as its bytes.
//!
//! `between`, `after` and `spread` make keys; a code is never longer by more than a byte than those
//! beside it. `child` makes labels; `cmp` and `is_ancestor` compare their bytes and take no memory.
//! Every call answers but where memory is refused.
#![tactic(auto)]

mod digits;
mod error;
mod fraction;
mod key;
mod label;
mod laws;
mod list;
mod neighbours;
mod order;
mod reading;

pub use error::NoMemory;
pub use key::{INTEGER_BOUND, Key, LEAST_INTEGER, cmp_keys};
pub use label::{Label, child, cmp, is_ancestor, key_of_child};
pub use laws::{code_order, insertions_keep_keys, label_order, worked_codes};
pub use list::{KeyList, spread};
pub use neighbours::{after, between};
pub use reading::key_from_code;
