//! Texts, which stand in pieces on text pages.
ghost use Rattle.std.specs.Prelude.{◌≡◌, ◌<◌, ◌⊎◌, ◌++◌, IfOk, OnOk, IsTrue, vec_len};
ghost use Rattle.std.specs.Result.{result_map_both};
ghost use Rattle.page_bytes.specs.Texts.{piece_page, piece_text, next_piece, is_readable, has_piece, is_piece, IsTextAt};

use crate::end::{NoMemory, PageEnd};
use crate::fields::{read_bytes, read_u8, read_u16, read_u64};
use crate::ids::{PageId, Space};
use crate::links::ask;
use crate::pages::Pages;
use std::alloc::Global;
use std::marker::Model;

/// A reference to a text, or to the rest of one: the slot of a text page that has its next piece. Page 0 is the empty
/// text.
#[derive(Clone, Copy, Debug, PartialEq, Eq)]
pub struct TextRef {
    pub page: u64,
    pub slot: u16,
}

/// A list of bytes. Contracts see it as such; it is made from a `Vec` and gives it back without taking memory.
#[derive(Drop)]
pub struct ByteList {
    bytes: Vec<u8>,
}

impl Model for ByteList {
    ghost use Rattle.std.specs.Prelude.{ℕ, List};

    ghost Value = { List ℕ };

    ghost view = { λ l. l.bytes.items };
}

impl ByteList {
    /// The list of these bytes.
    pub fn of(bytes: Vec<u8>) -> ByteList
        ensures { result ≡ bytes.items }
    {
        ByteList { bytes }
    }

    /// The bytes.
    pub fn as_slice(&self) -> &[u8]
        ensures { result.now ≡ self.now }
    {
        self.bytes.as_slice()
    }

    /// The bytes, given back.
    pub fn into_vec(self) -> Vec<u8>
        ensures { result.items ≡ self }
    {
        let ByteList { bytes } = self;
        bytes
    }
}

/// The kind of a text page.
const TEXT_KIND: u8 = 5;

/// Where a text page has the number of its slots.
const SLOTS_AT: usize = 2;

/// Whether a page passes the test of a text page that is read.
fn tests_readable(page: &[u8; 4096]) -> bool
    ensures { result ≡ is_readable page.now }
{
    let slots = read_u16(page, SLOTS_AT) as usize;
    read_u8(page, 0) == TEXT_KIND && 8 + slots * 4 <= 4096
}

/// Whether a text page has a piece in a slot.
fn tests_slot(page: &[u8; 4096], slot: u16) -> bool
    requires { IsTrue (is_readable page.now) }
    ensures { result ≡ has_piece slot page.now }
{
    if slot >= read_u16(page, SLOTS_AT) {
        return false;
    }
    read_u16(page, 8 + slot as usize * 4) != 0
}

/// Whether the piece in a slot lies where pieces may.
fn tests_piece(page: &[u8; 4096], slot: u16) -> bool
    requires text_page { IsTrue (is_readable page.now) }
    requires slot { IsTrue (has_piece slot page.now) }
    ensures { result ≡ is_piece slot page.now }
{
    let slots = read_u16(page, SLOTS_AT) as usize;
    let at = read_u16(page, 8 + slot as usize * 4) as usize;
    let length = read_u16(page, 8 + slot as usize * 4 + 2) as usize;
    8 + slots * 4 <= at && length >= 11 && at + length <= 4096
}

/// The page of a piece to which the page `from` leads.
fn page_of_piece<P: Pages>(
    pages: &P,
    space: Space,
    from: u64,
    at: TextRef,
) -> Result<&[u8; 4096], PageEnd>
    ensures page { result_map_both (λ page. page.now) (λ end. end) result ≡ piece_page (P.known pages.now) space from at }
    ensures text_page { IfOk result (λ page. IsTrue (is_readable page.now)) }
    ensures slot { IfOk result (λ page. IsTrue (has_piece at.slot page.now)) }
    ensures piece { IfOk result (λ page. IsTrue (is_piece at.slot page.now)) }
{
    let from = PageId {
        space,
        number: from,
    };
    let id = PageId {
        space,
        number: at.page,
    };
    let page = ask(pages, from, id)?;
    if !tests_readable(page) {
        return Err(PageEnd::Damaged { page: id });
    }
    if !tests_slot(page, at.slot) {
        return Err(PageEnd::Damaged { page: from });
    }
    if !tests_piece(page, at.slot) {
        return Err(PageEnd::Damaged { page: id });
    }
    Ok(page)
}

/// The reference to the piece behind a piece.
fn reference_behind(page: &[u8; 4096], slot: u16) -> TextRef
    requires text_page { IsTrue (is_readable page.now) }
    requires slot { IsTrue (has_piece slot page.now) }
    requires piece { IsTrue (is_piece slot page.now) }
    ensures { result ≡ next_piece slot page.now }
{
    let at = read_u16(page, 8 + slot as usize * 4) as usize;
    TextRef {
        page: read_u64(page, at),
        slot: read_u16(page, at + 8),
    }
}

/// Adds a piece's bytes to a text.
fn add_piece(page: &[u8; 4096], slot: u16, text: &mut Vec<u8>) -> Result<(), NoMemory>
    requires text_page { IsTrue (is_readable page.now) }
    requires slot { IsTrue (has_piece slot page.now) }
    requires piece { IsTrue (is_piece slot page.now) }
    ensures ok { OnOk result (text.new.items ≡ text.old.items ++ piece_text slot page.now) }
    ensures longer { OnOk result (vec_len text.old < vec_len text.new) }
{
    let at = read_u16(page, 8 + slot as usize * 4) as usize;
    let length = read_u16(page, 8 + slot as usize * 4 + 2) as usize;
    let bytes = read_bytes(page, at + 10, length - 10);
    match text.extend_from_slice(bytes) {
        Ok(()) => Ok(()),
        Err(_) => Err(NoMemory),
    }
}

/// A piece that was passed, and how many more are passed until a later one takes its place. Pieces that lead back come
/// to it again.
#[derive(Clone, Copy)]
struct Mark {
    at: TextRef,
    left: u64,
    limit: u64,
}

/// The mark once one more piece was passed.
fn moved_mark(mark: Mark, at: TextRef) -> Mark
    ensures { (result.at ≡ mark.at) ⊎ (result.at ≡ at) }
{
    if mark.left > 0 {
        return Mark {
            left: mark.left - 1,
            ..mark
        };
    }
    let limit = mark.limit.saturating_mul(2);
    Mark {
        at,
        left: limit,
        limit,
    }
}

fn is_same(one: TextRef, other: TextRef) -> bool
    ensures { IsTrue result → one ≡ other }
{
    one == other
}

/// The text from a reference on: its pieces, joined.
pub fn text_at<P: Pages>(
    alloc: Global,
    pages: &P,
    space: Space,
    first: TextRef,
) -> Result<ByteList, PageEnd>
    ensures { IsTextAt (P.known pages.now) space first result }
{
    let mut text = Vec::new(alloc);
    let mut from = first.page;
    let mut at = first;
    let mut mark = Mark {
        at: first,
        left: 1,
        limit: 1,
    };
    while at.page != 0 {
        let page = match page_of_piece(pages, space, from, at) {
            Ok(page) => page,
            Err(end) => return Err(end),
        };
        add_piece(page, at.slot, &mut text)?;
        from = at.page;
        at = reference_behind(page, at.slot);
        if at.page != 0 && is_same(at, mark.at) {
            let page = PageId {
                space,
                number: from,
            };
            return Err(PageEnd::Damaged { page });
        }
        mark = moved_mark(mark, at);
    }
    Ok(ByteList::of(text))
}
