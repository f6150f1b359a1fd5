//! The edits of updates, over any `Nav`.
//!
//! An update's expressions have been evaluated by whoever calls: these functions take the items that
//! they gave and say which nodes are targets, what comes as content, what is done to each target or
//! which code it has, and which edits that makes of each document, as `Edits` of `xml_model` defines
//! it. Where the `Nav` is honest each answer is the defined one (`Looks`), and else, and then too, it
//! may be a fault that passes the `Nav`'s test, or `NoMemory`.
#![tactic(auto)]

mod alone;
mod change;
mod content;
mod copies;
mod documents;
mod inside;
mod laws;
mod names;
mod nav_calls;
mod once;
mod standing;
mod targets;
mod turns;

pub use alone::{insert_beside, insert_into, remove};
pub use change::{Change, ChangeList, NewContent, Removal, Side};
pub use content::{new_content, nodes_alone};
pub use documents::by_document;
pub use laws::{statements_keep_forests, updates_keep_forests};
pub use targets::targets_of;
pub use turns::{may_replace, rename, replacement};
