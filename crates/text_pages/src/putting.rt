//! How a text is put on pages.
ghost use Rattle.text_pages.specs.Putting as form;
ghost use Rattle.std.specs.Prelude.{◌≡◌, ◌<◌, ◌≤◌, ◌+◌, ◌*◌, ◌^◌, ℕ, List, Option, length, IfOk, OnOk};
ghost use Rattle.page_bytes.specs.declared.ids.PageId.{PageId};
ghost use Rattle.text_pages.specs.Putting.{new_piece_in, put_on, piece_put_in, piece_of, put_in};
ghost use Rattle.text_pages.specs.Inside.{IsInside, IsOn, IsLong, IsFirstLong};
ghost use Rattle.text_pages.specs.Keeping.{texts_own};
ghost use Rattle.page_bytes.specs.Answers.{Answers};
ghost use Rattle.page_bytes.specs.Head.{head_of};
ghost use Rattle.page_bytes.specs.Links.{page_in};
ghost use Rattle.page_bytes.specs.Own.{KeepsToOwn};

use crate::finding::{first_number, is_roomier, try_first};
use crate::forms::{PIECE_MOST, Tried};
use crate::writing::{new_text_page, write_first, write_piece};
use page_bytes::{PageEnd, Space, TextRef, Workspace};

/// The reference to no piece, which is that of the empty text.
const NOWHERE: TextRef = TextRef { page: 0, slot: 0 };

/// Puts a piece on a new page, which is tried first from then on if it has more room than the page that was tried.
fn put_on_new_page(
    work: &mut Workspace,
    space: Space,
    tried: Option<u16>,
    next: TextRef,
    text: &[u8],
) -> Result<TextRef, PageEnd>
    requires { length text.now ≤ form.PIECE_MOST }
    ensures answer { Answers (new_piece_in work.old space tried next text.now) result work.new }
    ensures number { IfOk result (λ put. put.page < 2 ^ 64) }
{
    let number = new_text_page(work, space, next, text)?;
    let put = TextRef {
        page: number,
        slot: 0,
    };
    if !is_roomier((PIECE_MOST - text.len()) as u16, tried) {
        return Ok(put);
    }
    write_first(work, space, number)?;
    Ok(put)
}

/// Puts a piece on the page that was tried if it fits there, and else on a new one.
fn put_where_tried(
    work: &mut Workspace,
    space: Space,
    number: u64,
    tried: Tried,
    next: TextRef,
    text: &[u8],
) -> Result<TextRef, PageEnd>
    requires size { length text.now ≤ form.PIECE_MOST }
    requires inside { IsInside (10 + length text.now) tried }
    requires there { IsOn work.old.now (page_in space number) tried }
    ensures answer { Answers (put_on work.old space number tried next text.now) result work.new }
    ensures number { IfOk result (λ put. put.page < 2 ^ 64) }
{
    match tried {
        Tried::Absent => put_on_new_page(work, space, None, next, text),
        Tried::Full(room) => put_on_new_page(work, space, Some(room), next, text),
        Tried::Fits(place) => {
            write_piece(work, space, number, place, next, text)?;
            Ok(TextRef {
                page: number,
                slot: place.slot,
            })
        }
    }
}

/// Puts a piece, which has a reference to the next one.
fn put_piece(
    work: &mut Workspace,
    space: Space,
    next: TextRef,
    text: &[u8],
) -> Result<TextRef, PageEnd>
    requires { length text.now ≤ form.PIECE_MOST }
    ensures answer { Answers (piece_put_in work.old space next text.now) result work.new }
    ensures long_head { OnOk result (IsLong work.old.now (head_of space)) }
    ensures long_first { OnOk result (IsFirstLong work.old.now space) }
    ensures number { IfOk result (λ put. put.page < 2 ^ 64) }
{
    let number = first_number(work, space)?;
    let tried = try_first(work, space, number, 10 + text.len())?;
    put_where_tried(work, space, number, tried, next, text)
}

/// A piece of a text by its number.
fn piece(bytes: &[u8], number: usize) -> &[u8]
    requires { number * form.PIECE_MOST < length bytes.now }
    ensures bytes { result.now ≡ piece_of number bytes.now }
    ensures size { length result.now ≤ form.PIECE_MOST }
{
    let start = number * PIECE_MOST;
    if bytes.len() - start < PIECE_MOST {
        return &bytes[start..];
    }
    &bytes[start..start + PIECE_MOST]
}

/// Puts a text, from its last piece to its first.
pub fn put_text(work: &mut Workspace, space: Space, bytes: &[u8]) -> Result<TextRef, PageEnd>
    ensures answer { Answers (put_in work.old space bytes.now) result work.new }
    ensures own { OnOk result ((all : PageId → Option (List ℕ)) → KeepsToOwn texts_own (length bytes.now) work.old work.new all space) }
{
    let mut left = (bytes.len() + (PIECE_MOST - 1)) / PIECE_MOST;
    let mut next = NOWHERE;
    while left > 0 {
        left -= 1;
        match put_piece(work, space, next, piece(bytes, left)) {
            Ok(put) => next = put,
            Err(end) => return Err(end),
        }
    }
    Ok(next)
}
