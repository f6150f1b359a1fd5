//! A version of a page.

use page_bytes::Page;

/// What a page is at a version: its bytes, the slot that has them, or nothing.
#[derive(Drop)]
pub enum Image {
    Resident(Page),
    Slot(u64),
    Absent,
}

/// The image of a page that a commit made.
#[derive(Drop)]
pub struct Version {
    pub commit: u64,
    pub image: Image,
}
