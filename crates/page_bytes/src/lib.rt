//! Pages of 4,096 bytes, sets of them, and the workspace in which a call changes them.
//!
//! A `Page` never changes and is shared; a `Draft` is a page that is being written, with the fields of `fields`.
//! Contracts see both as lists of bytes. `Pages` is what page calls read: a finite map of pages, with the spaces that
//! are known whole and the pages that were freed, which tell what is known as absent. A `PageSet` is such a map. A
//! `Workspace` has the pages below, which it was given, and what it knows now. Its calls are `edit`, `fresh`, `free`,
//! `open_space`, `drop_space` and `add`; `finish` lists the pages that differ from those below. They refuse with Need
//! for a page of which nothing is known, with Damaged for one that should be there, with Spent where page numbers end.
//!
//! `text_at` joins the pieces of a text, and `schema_entry` finds the place of a schema entry. They read pages that other
//! crates write, and test each before they believe it.
#![tactic(auto)]

mod changed;
mod changes;
mod end;
mod fields;
mod head;
mod ids;
mod laws;
mod links;
mod lists;
mod page;
mod pages;
mod schema;
mod table;
mod texts;
mod workspace;

pub use end::{NoMemory, PageEnd};
pub use fields::{field_laws, read_bytes, read_u8, read_u16, read_u32, read_u64};
pub use head::{NEXT_PAGE_AT, read_head, tests_head};
pub use ids::{Addr, DocEntry, LAST_LAYER, NodeNo, PageId, SchemaId, Space};
pub use laws::frame_laws;
pub use links::ask;
pub use lists::{ChangeList, PageChange, PageIdList};
pub use page::{Draft, PAGE_BYTES, Page};
pub use pages::{PageSet, Pages};
pub use schema::schema_entry;
pub use texts::{ByteList, TextRef, text_at};
pub use workspace::Workspace;
