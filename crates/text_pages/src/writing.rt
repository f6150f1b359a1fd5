//! Writes to text pages and to the head.
ghost use Rattle.text_pages.specs.Putting as limits;
ghost use Rattle.std.specs.Prelude.{◌<◌, ◌≤◌, ◌+◌, ◌^◌, length, Ok, IsTrue, IfOk, OnOk, [], ◌∷◌};
ghost use Rattle.page_bytes.specs.Fields.{with_bytes};
ghost use Rattle.page_bytes.specs.Head.{head_of};
ghost use Rattle.page_bytes.specs.Known.{is_there, Keeps};
ghost use Rattle.page_bytes.specs.Links.{page_in};
ghost use Rattle.page_bytes.specs.Refusal.{fresh_refusal};
ghost use Rattle.page_bytes.specs.Work.{with_page, first_bytes, next_in};
ghost use Rattle.text_pages.specs.Slots as form;
ghost use Rattle.text_pages.specs.Putting.{with_first, with_piece_on, with_new_page};
ghost use Rattle.text_pages.specs.Taking.{with_hole};
ghost use Rattle.text_pages.specs.Inside.{IsHole};
ghost use Rattle.page_bytes.specs.Answers.{Answers, unless};

use crate::forms::{FIRST_AT, Hole, Place, TEXT_KIND};
use crate::slots::{close_hole, put_in_place};
use page_bytes::{PageEnd, PageId, Space, TextRef, Workspace};

/// Makes a page the one that is tried first; number 0 makes it none.
pub fn write_first(work: &mut Workspace, space: Space, number: u64) -> Result<(), PageEnd>
    requires { IsTrue (is_there work.old.now (head_of space)) }
    ensures { Answers (Ok (tt, with_first work.old space number)) result work.new }
{
    let draft = work.edit(PageId { space, number: 0 })?;
    draft.write_u64(FIRST_AT, number);
    Ok(())
}

/// Puts a piece on a page that has a place for it.
pub fn write_piece(
    work: &mut Workspace,
    space: Space,
    number: u64,
    place: Place,
    next: TextRef,
    text: &[u8],
) -> Result<(), PageEnd>
    requires there { IsTrue (is_there work.old.now (page_in space number)) }
    requires slot { place.slot < 1022 }
    requires inside { place.at + (10 + length text.now) ≤ 4096 }
    ensures { Answers (Ok (tt, with_piece_on work.old space number place next text.now)) result work.new }
{
    let draft = work.edit(PageId { space, number })?;
    put_in_place(draft, place, next, text);
    Ok(())
}

/// Makes a page that was made just now a text page with one piece.
fn write_only_piece(
    work: &mut Workspace,
    id: PageId,
    next: TextRef,
    text: &[u8],
) -> Result<(), PageEnd>
    requires there { IsTrue (is_there work.old.now id) }
    requires size { length text.now ≤ limits.PIECE_MOST }
    ensures { Answers (Ok (tt, with_page work.old id (form.with_piece (form.only_place text.now) next text.now (with_bytes (first_bytes work.old.now id) 0 (5 ∷ []))))) result work.new }
{
    let at = (4096 - (10 + text.len())) as u16;
    let place = Place {
        slot: 0,
        count: 1,
        at,
    };
    let draft = work.edit(id)?;
    draft.write_u8(0, TEXT_KIND);
    put_in_place(draft, place, next, text);
    Ok(())
}

/// Makes a new text page with one piece.
pub fn new_text_page(
    work: &mut Workspace,
    space: Space,
    next: TextRef,
    text: &[u8],
) -> Result<u64, PageEnd>
    requires { length text.now ≤ limits.PIECE_MOST }
    ensures answer { Answers (unless (fresh_refusal work.old.now space) (next_in work.old space, with_new_page work.old space next text.now)) result work.new }
    ensures head { OnOk result (IsTrue (is_there work.new.now (head_of space))) }
    ensures number { IfOk result (λ number. number < 2 ^ 64) }
{
    let id = work.fresh(space)?;
    write_only_piece(work, id, next, text)?;
    Ok(id.number)
}

/// Takes a piece out of a page.
pub fn write_hole(
    work: &mut Workspace,
    space: Space,
    number: u64,
    hole: &Hole,
) -> Result<(), PageEnd>
    requires there { IsTrue (is_there work.old.now (page_in space number)) }
    requires inside { IsHole hole.now }
    ensures answer { Answers (Ok (tt, with_hole work.old space number hole.now)) result work.new }
    ensures kept { OnOk result (Keeps work.old.now work.new.now) }
{
    let draft = work.edit(PageId { space, number })?;
    close_hole(draft, hole);
    Ok(())
}
