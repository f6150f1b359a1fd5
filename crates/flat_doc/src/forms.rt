//! The form of flat pages.
ghost use Rattle.std.specs.Prelude.{◌≡◌, [], IfOk};
ghost use Rattle.flat_doc.specs.Pieces as pieces;
ghost use Rattle.flat_doc.specs.Putting.{page_of};

use page_bytes::{Draft, NoMemory};
use std::alloc::Global;

/// The kind of a flat page.
pub const FLAT_KIND: u8 = 1;

/// Where a page's piece begins.
pub const PIECE_AT: usize = 1;

/// How many bytes a page's piece has.
pub const PIECE_BYTES: usize = 4095;

/// How many bytes the length takes, in front of the text.
pub const LENGTH_BYTES: usize = 8;

/// How many pages a text of this length takes, with its length.
pub fn page_count(length: u64) -> u64
    ensures { result ≡ pieces.page_count length }
{
    ((LENGTH_BYTES as u128 + length as u128 + (PIECE_BYTES as u128 - 1))
        / PIECE_BYTES as u128) as u64
}

/// A flat page without text.
pub fn empty_page(alloc: Global) -> Result<Draft, NoMemory>
    ensures { IfOk result (λ page. page ≡ page_of []) }
{
    let mut page = Draft::zero(alloc)?;
    page.write_u8(0, FLAT_KIND);
    Ok(page)
}
