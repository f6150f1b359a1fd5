//! How a text is read.
ghost use Rattle.text_pages.specs.Reading.{IsStrAt};

use page_bytes::{PageEnd, PageId, Pages, Space, TextRef, text_at};
use std::alloc::Global;
use xq_ast::Str;

/// The text of a reference, which is UTF-8. Another one damages the page of its first piece.
pub fn read_text<P: Pages>(
    alloc: Global,
    pages: &P,
    space: Space,
    at: TextRef,
) -> Result<Str, PageEnd>
    ensures text { IsStrAt (P.known pages.now) space at result }
{
    let bytes = match text_at(alloc, pages, space, at) {
        Ok(bytes) => bytes,
        Err(end) => return Err(end),
    };
    match String::from_utf8(bytes.into_vec()) {
        Ok(text) => Ok(Str::from_string(text)),
        Err(_) => {
            let page = PageId {
                space,
                number: at.page,
            };
            Err(PageEnd::Damaged { page })
        }
    }
}
