//! Versions of pages, and snapshots.
//!
//! `Versions` keeps for each page a chain of versions, the newest first. A version is the commit that made it and the
//! image of the page: its bytes, a slot that has them, or an absence. Contracts see a `Versions` as the chains, the
//! commit number of each open snapshot under its key, and the commit number of what is staged, if anything is.
//! `page_at` answers the newest version that is not after a commit. `stage` puts the changes of a commit in front of
//! the chains, `publish` makes them the newest, `retract` takes them back. After these and after `end_snapshot` a chain
//! has exactly its newest published version, those that an open snapshot sees, and what is staged: nothing that a
//! snapshot sees goes, and nothing else is kept.
//!
//! Only `stage`, `open_snapshot` and `start` take memory, and after a refusal all is as it was. `publish` and
//! `retract` look at the pages that are staged, `end_snapshot` at those that have more than one published version.
#![tactic(auto)]

mod chain;
mod moving;
mod seen;
mod spaces;
mod staging;
mod table;
mod version;
mod versions;

pub use chain::Chain;
pub use spaces::SpaceList;
pub use version::{Image, Version};
pub use versions::Versions;
