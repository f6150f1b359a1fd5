//! How a flat document is read.
ghost use Rattle.flat_doc.specs.Reading.{IsFlatDoc};
ghost use Rattle.flat_doc.specs.Inside.{HasLength};

use crate::forms::{LENGTH_BYTES, PIECE_AT};
use crate::lines::Lines;
use crate::pieces::flat_page;
use page_bytes::{PAGE_BYTES, PageEnd, Pages, Space, read_bytes};
use std::alloc::Global;
use xml_model::Doc;

/// The document that a text of this length spells, all of whose pages are there.
pub fn read_text<P: Pages>(
    alloc: Global,
    pages: &P,
    space: Space,
    length: u64,
) -> Result<Doc, PageEnd>
    requires { HasLength (P.known pages.now) space length }
    ensures { IsFlatDoc (P.known pages.now) space result }
{
    let mut lines = Lines::new(alloc, space);
    let mut left = length;
    let mut number = 0;
    let mut at = PIECE_AT + LENGTH_BYTES;
    while left > 0 {
        let page = match flat_page(pages, space, number) {
            Ok(page) => page,
            Err(end) => return Err(end),
        };
        let count = left.min((PAGE_BYTES - at) as u64) as usize;
        match lines.read(read_bytes(page, at, count)) {
            Ok(()) => {}
            Err(end) => return Err(end),
        }
        left -= count as u64;
        number += 1;
        at = PIECE_AT;
    }
    lines.end()
}
