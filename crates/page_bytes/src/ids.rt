//! The names of documents' parts: spaces, pages, places in pages, nodes and schema nodes.
ghost use Rattle.std.specs.Prelude.{◌≡◌, ◌^◌, ◌<◌};
ghost use Rattle.page_bytes.specs.PageNumber.{page_number};

/// The number of a node of a document, from 1; 0 is no node.
#[derive(Clone, Copy, Debug, PartialEq, Eq, PartialOrd, Ord)]
pub struct NodeNo(pub u32);

/// The number of a schema node of a document, from 1; 0 is no schema node.
#[derive(Clone, Copy, Debug, PartialEq, Eq, PartialOrd, Ord)]
pub struct SchemaId(pub u32);

/// The pages of one document: the commit that brought the document, and its place among the documents of that commit.
#[derive(Clone, Copy, Debug, PartialEq, Eq, PartialOrd, Ord)]
pub struct Space {
    pub commit: u64,
    pub ordinal: u64,
}

/// A page: its document's space and its number there. Page 0 is the document's head.
#[derive(Clone, Copy, Debug, PartialEq, Eq, PartialOrd, Ord)]
pub struct PageId {
    pub space: Space,
    pub number: u64,
}

/// The last layer of 256 pages that page numbers reach: that of page 2^64 - 1.
pub const LAST_LAYER: u64 = 72_057_594_037_927_935;

/// A place in a document: byte `at` of the page with the number `layer * 256 + page`.
#[derive(Clone, Copy, Debug, PartialEq, Eq, PartialOrd, Ord)]
pub struct Addr {
    pub layer: u64,
    pub page: u8,
    pub at: u16,
}

impl Addr {
    /// The place `at` of the page with this number.
    pub fn of(number: u64, at: u16) -> Addr
        ensures number { page_number result ≡ number }
        ensures at { result.at ≡ at }
    {
        Addr {
            layer: number / 256,
            page: (number % 256) as u8,
            at,
        }
    }

    /// The number of the page.
    pub fn number(&self) -> u64
        requires { page_number self.now < 2 ^ 64 }
        ensures { result ≡ page_number self.now }
    {
        self.layer * 256 + self.page as u64
    }
}

/// What a catalogue has under a document's name: the space of its pages, and whether they keep it in clusters.
#[derive(Clone, Copy, Debug, PartialEq, Eq)]
pub struct DocEntry {
    pub space: Space,
    pub clustered: bool,
}
