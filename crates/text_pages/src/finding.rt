//! How the head and text pages are asked for.
ghost use Rattle.text_pages.specs.Putting as form;
ghost use Rattle.std.specs.Prelude.{◌≡◌, ◌<◌, ◌≤◌, length, IfOk, OnOk, IsTrue};
ghost use Rattle.std.specs.Result.{result_map_both};
ghost use Rattle.page_bytes.specs.Head.{head_of};
ghost use Rattle.page_bytes.specs.Known.{is_there};
ghost use Rattle.page_bytes.specs.Links.{page_in};
ghost use Rattle.page_bytes.specs.Texts.{has_piece};
ghost use Rattle.text_pages.specs.Slots.{is_writable, may_go};
ghost use Rattle.text_pages.specs.Finding as find;
ghost use Rattle.text_pages.specs.Inside.{IsInside, IsOn, IsLong};

use crate::forms::{FIRST_AT, Tried};
use crate::slots::{place_on, room_of, tests_piece, tests_slot, tests_slots};
use page_bytes::{PageEnd, PageId, Pages, Space, TextRef, ask, read_head, read_u64};

/// The number of the text page that is tried first, by the head; 0 where there is none.
pub fn first_number<P: Pages>(pages: &P, space: Space) -> Result<u64, PageEnd>
    ensures first { result ≡ find.first_in (P.known pages.now) space }
    ensures there { OnOk result (IsTrue (is_there (P.known pages.now) (head_of space))) }
    ensures long { OnOk result (IsLong (P.known pages.now) (head_of space)) }
{
    let head = read_head(pages, space)?;
    Ok(read_u64(head, FIRST_AT))
}

/// The bytes of a text page, to which the page `from` leads.
pub fn text_page<P: Pages>(
    pages: &P,
    space: Space,
    from: u64,
    number: u64,
) -> Result<&[u8; 4096], PageEnd>
    ensures page { result_map_both (λ page. page.now) (λ end. end) result ≡ find.text_page (P.known pages.now) space from number }
    ensures long { OnOk result (IsLong (P.known pages.now) (page_in space number)) }
    ensures slotted { IfOk result (λ page. IsTrue (is_writable page.now)) }
{
    let from = PageId {
        space,
        number: from,
    };
    let id = PageId { space, number };
    let page = ask(pages, from, id)?;
    if !tests_slots(page) {
        return Err(PageEnd::Damaged { page: id });
    }
    Ok(page)
}

/// What the page that is tried first has for a piece of so many bytes.
pub fn try_first<P: Pages>(
    pages: &P,
    space: Space,
    number: u64,
    size: usize,
) -> Result<Tried, PageEnd>
    requires { size ≤ form.MOST_SIZE }
    ensures tried { result ≡ find.tried_in (P.known pages.now) space number size }
    ensures slot { IfOk result (λ tried. IsInside size tried) }
    ensures there { IfOk result (λ tried. IsOn (P.known pages.now) (page_in space number) tried) }
    ensures long { OnOk result (0 < number → IsLong (P.known pages.now) (page_in space number)) }
{
    if number == 0 {
        return Ok(Tried::Absent);
    }
    let page = text_page(pages, space, 0, number)?;
    match place_on(page, size) {
        Some(place) => Ok(Tried::Fits(place)),
        None => Ok(Tried::Full(room_of(page))),
    }
}

/// The room of the page that is tried first, if there is one.
pub fn room_of_first<P: Pages>(pages: &P, space: Space, number: u64) -> Result<Option<u16>, PageEnd>
    ensures { result ≡ find.room_in (P.known pages.now) space number }
{
    if number == 0 {
        return Ok(None);
    }
    let page = text_page(pages, space, 0, number)?;
    Ok(Some(room_of(page)))
}

/// Whether a page with so much room is to be tried first.
pub fn is_roomier(more: u16, than: Option<u16>) -> bool
    ensures { result ≡ find.is_roomier more than }
{
    match than {
        Some(less) => less < more,
        None => true,
    }
}

/// The page of a piece to which the page `from` leads.
pub fn page_of_piece<P: Pages>(
    pages: &P,
    space: Space,
    from: u64,
    at: TextRef,
) -> Result<&[u8; 4096], PageEnd>
    ensures page { result_map_both (λ page. page.now) (λ end. end) result ≡ find.piece_in (P.known pages.now) space from at }
    ensures long { OnOk result (IsLong (P.known pages.now) (page_in space at.page)) }
    ensures slotted { IfOk result (λ page. IsTrue (is_writable page.now)) }
    ensures slot { IfOk result (λ page. IsTrue (has_piece at.slot page.now)) }
    ensures piece { IfOk result (λ page. IsTrue (may_go at.slot page.now)) }
{
    let page = text_page(pages, space, from, at.page)?;
    if !tests_slot(page, at.slot) {
        let from = PageId {
            space,
            number: from,
        };
        return Err(PageEnd::Damaged { page: from });
    }
    if !tests_piece(page, at.slot) {
        let page = PageId {
            space,
            number: at.page,
        };
        return Err(PageEnd::Damaged { page });
    }
    Ok(page)
}
