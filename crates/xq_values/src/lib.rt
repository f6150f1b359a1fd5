//! Values: what the rules of the language make of items, atomic values, keys and pieces of content
//! once no node has to be looked at any more.
//!
//! Contracts see an `Item` as the definitions see it (`item_seen`), a list as its items and a text
//! as its bytes; a node is an id that stands for a place. Each call answers what `Atoms`,
//! `FunctionAnswers`, `Tuples` and `Constructors` of `xml_model` define: the value or the code. A
//! call that takes memory may also answer `NoMemory` (`Gives`), others never do.
#![tactic(auto)]

mod arithmetic;
mod cast;
mod compare;
mod content;
mod elements;
mod end;
mod item;
mod key;
mod range;
mod row;
mod sign;
mod sum;
mod text;
mod truth;

pub use arithmetic::{Operands, added, both_operands, multiplied};
pub use cast::{to_boolean, to_integer};
pub use compare::compares;
pub use content::{Content, items_make_content};
pub use elements::{element, has_name_twice};
pub use end::ValueEnd;
pub use item::{Item, ItemList, MadeList, MadePlace, MadeRoot, NodeId};
pub use key::{joined_type, key_of, keys_order, type_of};
pub use range::range_of;
pub use row::{Bindings, Row, SharedItems, Variable, sorted};
pub use sign::signed;
pub use sum::sum_of;
pub use text::{
    atom_text, begins_with, char_count, concat_arguments, has_within, limited_text, spaced,
    string_argument,
};
pub use truth::effective_boolean;
