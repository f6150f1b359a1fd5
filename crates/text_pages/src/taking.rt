//! How a text is taken away.
ghost use Rattle.std.specs.Prelude.{◌≡◌, ◌<◌, ℕ, List, Option, IsTrue, IfOk, OnOk};
ghost use Rattle.page_bytes.specs.declared.ids.PageId.{PageId};
ghost use Rattle.page_bytes.specs.Head.{head_of};
ghost use Rattle.page_bytes.specs.Known.{is_there};
ghost use Rattle.page_bytes.specs.Links.{page_in};
ghost use Rattle.page_bytes.specs.Own.{KeepsToOwn};
ghost use Rattle.text_pages.specs.Taking.{leaving_in, page_freed_in, roomier_in, hole_made_in, piece_gone_in, piece_taken_in, IsRemoved};
ghost use Rattle.text_pages.specs.Inside.{IsHole, IsLong};
ghost use Rattle.text_pages.specs.Keeping.{texts_own};
ghost use Rattle.page_bytes.specs.Answers.{Answers};

use crate::finding::{first_number, is_roomier, page_of_piece, room_of_first};
use crate::forms::{Hole, Leaving};
use crate::slots::{hole_of, is_only_piece, reference_behind, room_of};
use crate::writing::{write_first, write_hole};
use page_bytes::{PageEnd, PageId, Space, TextRef, Workspace};

/// A page goes with its only piece.
fn free_page(work: &mut Workspace, space: Space, number: u64) -> Result<(), PageEnd>
    requires there { IsTrue (is_there work.old.now (page_in space number)) }
    requires beside { 0 < number }
    ensures answer { Answers (page_freed_in work.old space number) result work.new }
    ensures long { OnOk result (IsLong work.old.now (head_of space)) }
{
    let first = first_number(work, space)?;
    work.free(PageId { space, number })?;
    if first != number {
        return Ok(());
    }
    write_first(work, space, 0)
}

/// A page has so much room now, and is tried first if it has more than the one that is.
fn note_room(
    work: &mut Workspace,
    space: Space,
    first: u64,
    number: u64,
    room: u16,
) -> Result<(), PageEnd>
    requires { IsTrue (is_there work.old.now (head_of space)) }
    ensures { Answers (roomier_in work.old space first number room) result work.new }
{
    if first == number {
        return Ok(());
    }
    let tried = room_of_first(work, space, first)?;
    if !is_roomier(room, tried) {
        return Ok(());
    }
    write_first(work, space, number)
}

/// A piece goes from a page on which others stay.
fn make_hole(
    work: &mut Workspace,
    space: Space,
    number: u64,
    hole: &Hole,
    room: u16,
) -> Result<(), PageEnd>
    requires there { IsTrue (is_there work.old.now (page_in space number)) }
    requires inside { IsHole hole.now }
    ensures answer { Answers (hole_made_in work.old space number hole.now room) result work.new }
    ensures long { OnOk result (IsLong work.old.now (head_of space)) }
{
    let first = first_number(work, space)?;
    write_hole(work, space, number, hole)?;
    note_room(work, space, first, number, room)
}

/// What is known of a piece before it goes.
fn look_at_piece(work: &Workspace, space: Space, from: u64, at: TextRef) -> Result<Leaving, PageEnd>
    ensures leaving { result ≡ leaving_in work.now.now space from at }
    ensures there { OnOk result (IsTrue (is_there work.now.now (page_in space at.page))) }
    ensures long { OnOk result (IsLong work.now.now (page_in space at.page)) }
    ensures inside { IfOk result (λ leaving. IsHole leaving.hole) }
{
    let page = page_of_piece(work, space, from, at)?;
    let hole = hole_of(page, at.slot);
    Ok(Leaving {
        only: is_only_piece(page, at.slot),
        hole,
        room: room_of(page) + hole.length,
        next: reference_behind(page, at.slot),
    })
}

/// A piece goes from its page.
fn let_piece_go(
    work: &mut Workspace,
    space: Space,
    number: u64,
    leaving: &Leaving,
) -> Result<(), PageEnd>
    requires there { IsTrue (is_there work.old.now (page_in space number)) }
    requires beside { 0 < number }
    requires inside { IsHole leaving.now.hole }
    ensures answer { Answers (piece_gone_in work.old space number leaving.now) result work.new }
    ensures long { OnOk result (IsLong work.old.now (head_of space)) }
{
    if leaving.only {
        return free_page(work, space, number);
    }
    make_hole(work, space, number, &leaving.hole, leaving.room)
}

/// Takes a piece away, to which the page `from` leads, and gives the reference to the next one.
fn take_piece(
    work: &mut Workspace,
    space: Space,
    from: u64,
    at: TextRef,
) -> Result<TextRef, PageEnd>
    requires { 0 < at.page }
    ensures answer { Answers (piece_taken_in work.old space from at) result work.new }
    ensures long_head { OnOk result (IsLong work.old.now (head_of space)) }
    ensures long_page { OnOk result (IsLong work.old.now (page_in space at.page)) }
{
    let leaving = look_at_piece(work, space, from, at)?;
    let_piece_go(work, space, at.page, &leaving)?;
    Ok(leaving.next)
}

/// Takes a text away, from its first piece to its last.
pub fn remove_text(work: &mut Workspace, space: Space, first: TextRef) -> Result<(), PageEnd>
    ensures answer { IsRemoved work.old space first result work.new }
    ensures own { OnOk result ((all : PageId → Option (List ℕ)) → KeepsToOwn texts_own 0 work.old work.new all space) }
{
    let mut from = first.page;
    let mut at = first;
    while at.page != 0 {
        let next = match take_piece(work, space, from, at) {
            Ok(next) => next,
            Err(end) => return Err(end),
        };
        from = at.page;
        at = next;
    }
    Ok(())
}
