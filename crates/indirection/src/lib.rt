//! Node numbers: for each node of a document where its descriptor is.
//!
//! The model is a map from numbers to addresses, with the free numbers in the order in which they are given again. It
//! stands in leaves of 340 entries, to which a root and directory pages lead. The calls are `find`, `add`, `change`
//! and `remove`. Each that changes something says which pages it writes, byte by byte (`pages`), and what it does to
//! the map that the pages mean (`meaning`). Each keeps to pages of kinds 6 and 7 and to its fields of the head, and
//! `add` makes at most three pages (`own`). Pages are tested before they are believed, so over pages without a meaning
//! the calls answer Need, Damaged or Spent for a cause that `pages` tells. It stands on `page_bytes` alone.
#![tactic(auto)]

mod forms;
mod growing;
mod laws;
mod map;
mod numbers;
mod reading;
mod writing;

pub use laws::frame_law;
pub use map::{add, change, find, remove};
