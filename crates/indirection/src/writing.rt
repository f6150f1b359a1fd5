//! Writes to pages that are there, and new pages.
ghost use Rattle.std.specs.Prelude.{◌≡◌, ◌<◌, ◌≤◌, ◌+◌, ◌^◌, Ok, IsTrue, OnOk, IfOk};
ghost use Rattle.page_bytes.specs.Known.{is_there, Keeps};
ghost use Rattle.page_bytes.specs.Refusal.{RefusedBy, fresh_refusal};
ghost use Rattle.page_bytes.specs.Links.{page_in};
ghost use Rattle.indirection.specs.Writing.{with_number, with_entry_in, with_kind};
ghost use Rattle.indirection.specs.Adding.{new_in, child_in};
ghost use Rattle.indirection.specs.Owned.{is_number_kind};
ghost use Rattle.indirection.specs.Inside.{IsNumberPage, TakesLink, HasKept};
ghost use Rattle.page_bytes.specs.Kept.{IsWholeHead};
ghost use Rattle.page_bytes.specs.Answers.{Answers};

use crate::forms::entry_at;
use page_bytes::{PageEnd, PageId, Space, Workspace};

/// Writes an entry of a leaf.
pub fn write_entry(
    work: &mut Workspace,
    space: Space,
    leaf: u64,
    index: u32,
    page: u64,
    place: u32,
) -> Result<(), PageEnd>
    requires there { IsTrue (is_there work.old.now (page_in space leaf)) }
    requires index { index < 340 }
    ensures answer { Answers (Ok (tt, with_entry_in work.old space leaf index page place)) result work.new }
    ensures kept { OnOk result (Keeps work.old.now work.new.now) }
{
    let draft = work.edit(PageId {
        space,
        number: leaf,
    })?;
    let at = entry_at(index);
    draft.write_u64(at, page);
    draft.write_u32(at + 8, place);
    Ok(())
}

/// Writes a number of four bytes.
pub fn write_short(
    work: &mut Workspace,
    space: Space,
    page: u64,
    at: usize,
    value: u32,
) -> Result<(), PageEnd>
    requires there { IsTrue (is_there work.old.now (page_in space page)) }
    requires place { at + 4 ≤ 4096 }
    ensures answer { Answers (Ok (tt, with_number 4 work.old space page at value)) result work.new }
{
    let draft = work.edit(PageId {
        space,
        number: page,
    })?;
    draft.write_u32(at, value);
    Ok(())
}

/// Writes a number of eight bytes.
pub fn write_long(
    work: &mut Workspace,
    space: Space,
    page: u64,
    at: usize,
    value: u64,
) -> Result<(), PageEnd>
    requires there { IsTrue (is_there work.old.now (page_in space page)) }
    requires place { at + 8 ≤ 4096 }
    ensures answer { Answers (Ok (tt, with_number 8 work.old space page at value)) result work.new }
    ensures fits { value < 256 ^ 8 }
{
    let draft = work.edit(PageId {
        space,
        number: page,
    })?;
    draft.write_u64(at, value);
    Ok(())
}

/// Writes the kind of a page.
fn write_kind(work: &mut Workspace, id: PageId, kind: u8) -> Result<(), PageEnd>
    requires { IsTrue (is_there work.old.now id) }
    ensures answer { Answers (Ok (tt, with_kind kind work.old id)) result work.new }
    ensures kept { OnOk result (Keeps work.old.now work.new.now) }
{
    work.edit(id)?.write_u8(0, kind);
    Ok(())
}

/// Makes a new page of this kind.
fn new_page(work: &mut Workspace, space: Space, kind: u8) -> Result<u64, PageEnd>
    ensures answer { Answers (new_in work.old space kind) result work.new }
    ensures kept { OnOk result (Keeps work.old.now work.new.now) }
{
    let id = work.fresh(space)?;
    write_kind(work, id, kind)?;
    Ok(id.number)
}

/// Makes a new page of this kind, and gives the page `parent` a link to it.
pub fn make_child(
    work: &mut Workspace,
    space: Space,
    kind: u8,
    parent: u64,
    at: usize,
) -> Result<u64, PageEnd>
    requires head { IsWholeHead work.old.now space }
    requires kind { IsTrue (is_number_kind kind) }
    requires link { TakesLink work.old.now space parent at }
    requires place { at + 8 ≤ 4096 }
    ensures answer { Answers (child_in work.old space kind parent at) result work.new }
    ensures kept { OnOk result (HasKept 1 work.old work.new space) }
    ensures page { IfOk result (λ number. IsNumberPage work.new.now space number) }
{
    let number = new_page(work, space, kind)?;
    write_long(work, space, parent, at, number)?;
    Ok(number)
}
