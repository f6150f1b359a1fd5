//! How pages are asked for, and how a number's entry is found.
ghost use Rattle.std.specs.Prelude.{◌≡◌, ◌<◌, ◌≤◌, ◌*◌, ◌==◌, length, slice_index, IfOk, OnOk, IsTrue};
ghost use Rattle.std.specs.Result.{result_map_both};
ghost use Rattle.indirection.specs.Reading.{numbers_head, linked};
ghost use Rattle.indirection.specs.Finding.{numbers_in, directory_in, leaf_in, entry_of, found_in};
ghost use Rattle.indirection.specs.Owned.{is_number_kind};
ghost use Rattle.indirection.specs.Forms as form;
ghost use Rattle.indirection.specs.Inside.{IsNumberPage};
ghost use Rattle.page_bytes.specs.Kept.{IsWholeHead};

use crate::forms::{
    DIRECTORY_KIND, ENTRIES, Entry, FIRST_FREE_AT, HIGHEST_AT, LEAF_KIND, LINKS, Leaf,
    MOST_NUMBERS, Numbers, ROOT_AT, entry_at, link_at,
};
use page_bytes::{
    Addr, PageEnd, PageId, Pages, Space, ask, read_head, read_u8, read_u32, read_u64,
};

/// Whether a page is of this kind.
fn is_of_kind(page: &[u8; 4096], kind: u8) -> bool
    ensures test { result ≡ (slice_index page.now 0 == kind) }
    ensures long { length page.now ≡ 4096 }
{
    read_u8(page, 0) == kind
}

/// The bytes of the head, which passes its test.
fn head_bytes<P: Pages>(pages: &P, space: Space) -> Result<&[u8; 4096], PageEnd>
    ensures head { result_map_both (λ page. page.now) (λ end. end) result ≡ numbers_head (P.known pages.now) space }
    ensures whole { OnOk result (IsWholeHead (P.known pages.now) space) }
{
    let head = read_head(pages, space)?;
    if read_u32(head, HIGHEST_AT) > MOST_NUMBERS {
        let page = PageId { space, number: 0 };
        return Err(PageEnd::Damaged { page });
    }
    Ok(head)
}

/// The bytes of a page of this kind, to which the page `from` has a link.
pub fn linked_page<P: Pages>(
    pages: &P,
    space: Space,
    kind: u8,
    from: u64,
    number: u64,
) -> Result<&[u8; 4096], PageEnd>
    ensures bytes { result_map_both (λ page. page.now) (λ end. end) result ≡ linked (P.known pages.now) space kind from number }
    ensures page { IsTrue (is_number_kind kind) → OnOk result (IsNumberPage (P.known pages.now) space number) }
{
    let from = PageId {
        space,
        number: from,
    };
    if number == 0 {
        return Err(PageEnd::Damaged { page: from });
    }
    let id = PageId { space, number };
    let bytes = ask(pages, from, id)?;
    if !is_of_kind(bytes, kind) {
        return Err(PageEnd::Damaged { page: id });
    }
    Ok(bytes)
}

/// What the head says of node numbers.
pub fn read_numbers<P: Pages>(pages: &P, space: Space) -> Result<Numbers, PageEnd>
    ensures numbers { result ≡ numbers_in (P.known pages.now) space }
    ensures whole { OnOk result (IsWholeHead (P.known pages.now) space) }
    ensures most { IfOk result (λ numbers. numbers.highest ≤ form.MOST_NUMBERS) }
{
    let head = head_bytes(pages, space)?;
    Ok(Numbers {
        root: read_u64(head, ROOT_AT),
        first_free: read_u32(head, FIRST_FREE_AT),
        highest: read_u32(head, HIGHEST_AT),
    })
}

/// The number of a leaf's directory page, by the root.
pub fn directory_of<P: Pages>(pages: &P, space: Space, root: u64, leaf: u32) -> Result<u64, PageEnd>
    requires { leaf < 511 * 511 }
    ensures { result ≡ directory_in (P.known pages.now) space root leaf }
{
    let bytes = linked_page(pages, space, DIRECTORY_KIND, 0, root)?;
    Ok(read_u64(bytes, link_at(leaf / LINKS)))
}

/// The number of a leaf, by its directory page.
pub fn leaf_of<P: Pages>(
    pages: &P,
    space: Space,
    root: u64,
    directory: u64,
    leaf: u32,
) -> Result<u64, PageEnd>
    ensures { result ≡ leaf_in (P.known pages.now) space root directory leaf }
{
    let bytes = linked_page(pages, space, DIRECTORY_KIND, root, directory)?;
    Ok(read_u64(bytes, link_at(leaf % LINKS)))
}

/// What an entry says.
fn entry_of_fields(space: Space, leaf: u64, page: u64, place: u32) -> Result<Entry, PageEnd>
    ensures { result ≡ entry_of space leaf page place }
{
    if page == 0 {
        return Ok(Entry::Free(place));
    }
    if place > u16::MAX as u32 {
        let page = PageId {
            space,
            number: leaf,
        };
        return Err(PageEnd::Damaged { page });
    }
    Ok(Entry::Taken(Addr {
        layer: page / 256,
        page: (page % 256) as u8,
        at: place as u16,
    }))
}

/// The leaf of a number, with the number's entry.
pub fn find_leaf<P: Pages>(pages: &P, space: Space, root: u64, number: u32) -> Result<Leaf, PageEnd>
    requires above { 0 < number }
    requires below { number ≤ form.MOST_NUMBERS }
    ensures found { result ≡ found_in (P.known pages.now) space root number }
    ensures page { IfOk result (λ leaf. IsNumberPage (P.known pages.now) space leaf.number) }
{
    let index = (number - 1) / ENTRIES;
    let directory = directory_of(pages, space, root, index)?;
    let leaf = leaf_of(pages, space, root, directory, index)?;
    let bytes = linked_page(pages, space, LEAF_KIND, directory, leaf)?;
    let at = entry_at((number - 1) % ENTRIES);
    let entry = entry_of_fields(space, leaf, read_u64(bytes, at), read_u32(bytes, at + 8))?;
    Ok(Leaf {
        number: leaf,
        entry,
    })
}
