//! The head of a document's pages, page 0 of its space.
ghost use Rattle.std.specs.Prelude.{◌≡◌, ◌<◌, length, IsTrue, IfOk, OnOk};
ghost use Rattle.std.specs.Result.{result_map_both};
ghost use Rattle.page_bytes.specs.Head.{is_head, next_page, head_in};
ghost use Rattle.page_bytes.specs.Kept.{IsWholeHead};

use crate::end::PageEnd;
use crate::fields::{read_u8, read_u64};
use crate::ids::{PageId, Space};
use crate::links::ask;
use crate::pages::Pages;

/// The kind of a head, its byte 0.
const HEAD_KIND: u8 = 2;

/// Where a head has its next page number, of eight bytes.
pub const NEXT_PAGE_AT: usize = 2;

/// Whether a page passes the test of a head: its kind, and a next page number past 0.
pub fn tests_head(page: &[u8; 4096]) -> bool
    ensures test { result ≡ is_head page.now }
    ensures next { IsTrue result → 0 < next_page page.now }
    ensures long { length page.now ≡ 4096 }
{
    read_u8(page, 0) == HEAD_KIND && read_u64(page, NEXT_PAGE_AT) != 0
}

/// The bytes of a document's head, which has passed its test.
pub fn read_head<P: Pages>(pages: &P, space: Space) -> Result<&[u8; 4096], PageEnd>
    ensures head { result_map_both (λ page. page.now) (λ end. end) result ≡ head_in (P.known pages.now) space }
    ensures test { IfOk result (λ page. IsTrue (is_head page.now)) }
    ensures whole { OnOk result (IsWholeHead (P.known pages.now) space) }
{
    let id = PageId { space, number: 0 };
    let head = ask(pages, id, id)?;
    if !tests_head(head) {
        return Err(PageEnd::Damaged { page: id });
    }
    Ok(head)
}
