//! How pages are asked for by those that lead to them.
ghost use Rattle.std.specs.Prelude.{◌≡◌};
ghost use Rattle.std.specs.Result.{result_map_both};
ghost use Rattle.page_bytes.specs.Links.{asked};

use crate::end::PageEnd;
use crate::ids::PageId;
use crate::pages::Pages;

/// The bytes of a page, to which `from` leads.
pub fn ask<P: Pages>(pages: &P, from: PageId, id: PageId) -> Result<&[u8; 4096], PageEnd>
    ensures { result_map_both (λ page. page.now) (λ end. end) result ≡ asked (P.known pages.now) from id }
{
    if let Some(bytes) = pages.page(id) {
        return Ok(bytes);
    }
    if pages.absent(id) {
        return Err(PageEnd::Damaged { page: from });
    }
    Err(PageEnd::Need { page: id })
}
