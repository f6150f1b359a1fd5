//! The pages that a flat document takes.
ghost use Rattle.std.specs.Prelude.{◌≡◌, length, IfOk, IfErr, Err};
ghost use Rattle.std.specs.Result.{result_map_both};
ghost use Rattle.flat_doc.specs.Pieces.{is_flat};
ghost use Rattle.flat_doc.specs.Reading as reading;
ghost use Rattle.flat_doc.specs.Inside.{HasLength};

use crate::forms::{FLAT_KIND, PIECE_AT, page_count};
use page_bytes::{PageEnd, PageId, Pages, Space, ask, read_u64};

/// Whether a page is flat.
fn tests_flat(page: &[u8; 4096]) -> bool
    ensures test { result ≡ is_flat page.now }
    ensures long { length page.now ≡ 4096 }
{
    page[0] == FLAT_KIND
}

/// The page with this number, to which page 0 leads.
pub fn flat_page<P: Pages>(pages: &P, space: Space, number: u64) -> Result<&[u8; 4096], PageEnd>
    ensures page { result_map_both (λ page. page.now) (λ end. end) result ≡ reading.flat_page (P.known pages.now) space number }
    ensures long { IfOk result (λ page. length page.now ≡ 4096) }
{
    let first = PageId { space, number: 0 };
    let id = PageId { space, number };
    let page = ask(pages, first, id)?;
    if !tests_flat(page) {
        return Err(PageEnd::Damaged { page: id });
    }
    Ok(page)
}

/// The length of the text, all of whose pages are there.
pub fn text_length<P: Pages>(pages: &P, space: Space) -> Result<u64, PageEnd>
    ensures refused { IfErr result (λ end. reading.flat_text (P.known pages.now) space ≡ Err end) }
    ensures length { IfOk result (λ length. HasLength (P.known pages.now) space length) }
{
    let first = match flat_page(pages, space, 0) {
        Ok(first) => first,
        Err(end) => return Err(end),
    };
    let length = read_u64(first, PIECE_AT);
    let mut left = page_count(length);
    let mut number = 0;
    while left > 0 {
        match flat_page(pages, space, number) {
            Ok(_) => {}
            Err(end) => return Err(end),
        }
        number += 1;
        left -= 1;
    }
    Ok(length)
}
