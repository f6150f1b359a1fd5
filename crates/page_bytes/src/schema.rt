//! The place of a schema entry.
ghost use Rattle.std.specs.Prelude.{◌≡◌, ◌≤◌, ◌<◌, ◌++◌, ◌∷◌, [], false, IfSome, IfNone, OnOk, IsTrue, vec_len};
ghost use Rattle.std.specs.List.{Contains};
ghost use Rattle.std.specs.Result.{result_map_both};
ghost use Rattle.page_bytes.specs.Schema.{schema_page, entry_count, is_entry, entry_end, entry_among, first_in, looked_on_page, IsSchemaEntry};
ghost use Rattle.page_bytes.specs.SchemaFound.{looked_as};

use crate::end::{NoMemory, PageEnd};
use crate::fields::{read_u8, read_u16, read_u32, read_u64};
use crate::head::read_head;
use crate::ids::{Addr, PageId, SchemaId, Space};
use crate::links::ask;
use crate::pages::Pages;
use std::alloc::Global;

/// The kind of a schema page.
const SCHEMA_KIND: u8 = 3;

/// Where a head has the number of the first schema page.
const FIRST_SCHEMA_PAGE_AT: usize = 10;

/// Where a schema page has the number of its entries, the next schema page, and its entries.
const ENTRIES_AT: usize = 2;

const NEXT_SCHEMA_PAGE_AT: usize = 8;

const FIRST_ENTRY_AT: usize = 16;

/// The bytes of a schema page, to which the page `from` leads.
fn page_of_entries<P: Pages>(
    pages: &P,
    space: Space,
    from: u64,
    number: u64,
) -> Result<&[u8; 4096], PageEnd>
    ensures { result_map_both (λ page. page.now) (λ end. end) result ≡ schema_page (P.known pages.now) space from number }
{
    let from = PageId {
        space,
        number: from,
    };
    let id = PageId { space, number };
    let page = ask(pages, from, id)?;
    if read_u8(page, 0) != SCHEMA_KIND {
        return Err(PageEnd::Damaged { page: id });
    }
    Ok(page)
}

/// Where the entry behind an entry stands, if it passes its test.
fn end_of_entry(page: &[u8; 4096], at: usize) -> Option<usize>
    requires { at ≤ 4096 }
    ensures found { IfSome result (λ end. (IsTrue (is_entry at page.now)) × (end ≡ entry_end at page.now) × (end ≤ 4096)) }
    ensures none { IfNone result (is_entry at page.now ≡ false) }
{
    if at + 26 > 4096 {
        return None;
    }
    let end = at + 26 + read_u8(page, at + 25) as usize;
    if end > 4096 || read_u32(page, at) == 0 {
        return None;
    }
    Some(end)
}

/// Where the entry with an id stands on a schema page, if it is there.
fn entry_on(page: &[u8; 4096], id: PageId, wanted: u32) -> Result<Option<u16>, PageEnd>
    ensures found { result ≡ entry_among id.space id.number (entry_count page.now) 16 page.now wanted }
{
    let mut at = FIRST_ENTRY_AT;
    for _entry in 0..read_u16(page, ENTRIES_AT) {
        let end = match end_of_entry(page, at) {
            Some(end) => end,
            None => return Err(PageEnd::Damaged { page: id }),
        };
        if read_u32(page, at) == wanted {
            return Ok(Some(at as u16));
        }
        at = end;
    }
    Ok(None)
}

/// Where the entry with an id was found, or which page is to be looked at next.
enum Found {
    At(u16),
    Behind(u64),
}

/// Looks for the entry with an id on a schema page, to which the page `from` leads.
fn look_on<P: Pages>(
    pages: &P,
    space: Space,
    from: u64,
    number: u64,
    wanted: u32,
) -> Result<Found, PageEnd>
    ensures { result_map_both (looked_as number) (λ end. end) result ≡ looked_on_page (P.known pages.now) space wanted from number }
{
    let page = page_of_entries(pages, space, from, number)?;
    match entry_on(page, PageId { space, number }, wanted)? {
        Some(at) => Ok(Found::At(at)),
        None => Ok(Found::Behind(read_u64(page, NEXT_SCHEMA_PAGE_AT))),
    }
}

/// The number of the first schema page.
fn first_page<P: Pages>(pages: &P, space: Space) -> Result<u64, PageEnd>
    ensures { result ≡ first_in (P.known pages.now) space }
{
    let head = read_head(pages, space)?;
    Ok(read_u64(head, FIRST_SCHEMA_PAGE_AT))
}

/// Whether a page was passed.
fn is_passed(passed: &[u64], number: u64) -> bool
    ensures { IsTrue result → Contains passed.now number }
{
    passed.contains(&number)
}

/// Notes that a page was passed.
fn pass(passed: &mut Vec<u64>, number: u64) -> Result<(), NoMemory>
    ensures ok { OnOk result (passed.new.items ≡ passed.old.items ++ number ∷ []) }
    ensures longer { OnOk result (vec_len passed.old < vec_len passed.new) }
{
    match passed.push(number) {
        Ok(()) => Ok(()),
        Err(_) => Err(NoMemory),
    }
}

/// The place of the schema entry with an id, or None where there is none.
pub fn schema_entry<P: Pages>(
    alloc: Global,
    pages: &P,
    space: Space,
    id: SchemaId,
) -> Result<Option<Addr>, PageEnd>
    ensures { IsSchemaEntry (P.known pages.now) space id.0 result }
{
    let mut passed = Vec::new(alloc);
    let mut from = 0;
    let mut number = first_page(pages, space)?;
    while number != 0 {
        if is_passed(&passed, number) {
            let page = PageId {
                space,
                number: from,
            };
            return Err(PageEnd::Damaged { page });
        }
        pass(&mut passed, number)?;
        let next = match look_on(pages, space, from, number, id.0) {
            Ok(Found::At(at)) => return Ok(Some(Addr::of(number, at))),
            Ok(Found::Behind(next)) => next,
            Err(end) => return Err(end),
        };
        from = number;
        number = next;
    }
    Ok(None)
}
