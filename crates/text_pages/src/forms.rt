//! The form of text pages, as it is read.

use page_bytes::TextRef;

/// The kind of a text page.
pub const TEXT_KIND: u8 = 5;

/// Where a head has the number of the text page that is tried first.
pub const FIRST_AT: usize = 26;

/// Where a text page has the number of its slots.
pub const SLOTS_AT: usize = 2;

/// Where a text page has the place of its lowest piece.
pub const LOWEST_AT: usize = 4;

/// How many bytes of text a piece has at most.
pub const PIECE_MOST: usize = 4074;

/// Where a piece goes on a page: its slot, how many slots the page then has, and where the piece begins.
#[derive(Clone, Copy)]
pub struct Place {
    pub slot: u16,
    pub count: u16,
    pub at: u16,
}

/// What the page that is tried first has for a piece.
#[derive(Clone, Copy)]
pub enum Tried {
    /// There is no such page.
    Absent,
    /// It has no place for the piece, but this much room.
    Full(u16),
    /// It has this place.
    Fits(Place),
}

/// A piece that goes from a page: its slot, where it begins and how long it is, with the page's number of slots and its
/// lowest piece.
#[derive(Clone, Copy)]
pub struct Hole {
    pub slot: u16,
    pub at: u16,
    pub length: u16,
    pub count: u16,
    pub lowest: u16,
}

/// What is known of a piece before it goes: whether it is the only one of its page, its hole, the room that its page has
/// then, and the reference to the next piece.
#[derive(Clone, Copy)]
pub struct Leaving {
    pub only: bool,
    pub hole: Hole,
    pub room: u16,
    pub next: TextRef,
}
