//! The page forms of node numbers, as they are read.
ghost use Rattle.std.specs.Prelude.{◌≡◌, ◌<◌};
ghost use Rattle.indirection.specs.Forms as form;

use page_bytes::Addr;

/// The kind of the root and of directory pages.
pub const DIRECTORY_KIND: u8 = 7;

/// The kind of leaves.
pub const LEAF_KIND: u8 = 6;

/// How many entries a leaf has.
pub const ENTRIES: u32 = 340;

/// How many links the root and a directory page have each.
pub const LINKS: u32 = 511;

/// How many node numbers a document has at most.
pub const MOST_NUMBERS: u32 = 88_781_140;

pub const ROOT_AT: usize = 18;

pub const FIRST_FREE_AT: usize = 34;

pub const HIGHEST_AT: usize = 38;

/// What a number's entry says.
#[derive(Clone, Copy)]
pub enum Entry {
    /// The number is a node's, which is at this address.
    Taken(Addr),
    /// The number is free, and this is the next free number.
    Free(u32),
}

/// A number's leaf: the number of its page, and the number's entry there.
#[derive(Clone, Copy)]
pub struct Leaf {
    pub number: u64,
    pub entry: Entry,
}

/// What the head says of node numbers.
#[derive(Clone, Copy)]
pub struct Numbers {
    pub root: u64,
    pub first_free: u32,
    pub highest: u32,
}

/// Where a link of the root or of a directory page stands.
pub fn link_at(index: u32) -> usize
    requires { index < 511 }
    ensures { result ≡ form.link_at index }
{
    8 + index as usize * 8
}

/// Where an entry of a leaf stands.
pub fn entry_at(index: u32) -> usize
    requires { index < 340 }
    ensures { result ≡ form.entry_at index }
{
    16 + index as usize * 12
}
