//! How a text is replaced.
ghost use Rattle.std.specs.Prelude.{ℕ, List, Option, length, OnOk};
ghost use Rattle.page_bytes.specs.declared.ids.PageId.{PageId};
ghost use Rattle.page_bytes.specs.Own.{KeepsToOwn};
ghost use Rattle.text_pages.specs.Keeping.{texts_own};
ghost use Rattle.text_pages.specs.Taking.{IsReplaced};

use crate::putting::put_text;
use crate::taking::remove_text;
use page_bytes::{PageEnd, Space, TextRef, Workspace};

/// Takes a text away and puts another one, whose reference it gives.
pub fn replace_text(
    work: &mut Workspace,
    space: Space,
    at: TextRef,
    bytes: &[u8],
) -> Result<TextRef, PageEnd>
    ensures pages { IsReplaced work.old space at bytes.now result work.new }
    ensures own { OnOk result ((all : PageId → Option (List ℕ)) → KeepsToOwn texts_own (length bytes.now) work.old work.new all space) }
{
    remove_text(work, space, at)?;
    put_text(work, space, bytes)
}
