//! The calls on texts.
ghost use Rattle.std.specs.Prelude.{◌≡◌, ℕ, List, Option, length, IsSome, OnOk, MatchResult};
ghost use Rattle.std.specs.FinMap as map;
ghost use Rattle.page_bytes.specs.declared.ids.PageId.{PageId};
ghost use Rattle.page_bytes.specs.Own.{KeepsToOwn};
ghost use Rattle.page_bytes.specs.Seen.{seen};
ghost use Rattle.text_pages.specs.Keeping.{texts_own};
ghost use Rattle.text_pages.specs.Meaning.{TextMap, MeansTexts, text_in, IsPut, IsNotPut, IsNotGiven};
ghost use Rattle.page_bytes.specs.Answers.{IsStop, Answers};
ghost use Rattle.text_pages.specs.Putting.{put_in};
ghost use Rattle.text_pages.specs.Taking.{IsRemoved, IsReplaced};
ghost use Rattle.text_pages.specs.Reading.{IsStrAt};

use crate::putting::put_text;
use crate::reading::read_text;
use crate::replacing::replace_text;
use crate::taking::remove_text;
use page_bytes::{PageEnd, Pages, Space, TextRef, Workspace};
use std::alloc::Global;
use xq_ast::Str;

/// Puts a text on pages, and gives its reference. That of the empty text is page 0, slot 0.
pub fn put(work: &mut Workspace, space: Space, bytes: &[u8]) -> Result<TextRef, PageEnd>
    ensures pages { Answers (put_in work.old space bytes.now) result work.new }
    ensures own { OnOk result ((all : PageId → Option (List ℕ)) → KeepsToOwn texts_own (length bytes.now) work.old work.new all space) }
    ensures meaning { (all : PageId → Option (List ℕ)) (texts : TextMap) → MeansTexts (seen work.old.now all space) texts → MatchResult result (λ at. IsPut (seen work.new.now all space) texts bytes.now at) (λ end. IsNotPut work.old.now all space bytes.now end) }
{
    put_text(work, space, bytes)
}

/// The text of a reference. One of page 0 is the empty text's.
pub fn get<P: Pages>(alloc: Global, pages: &P, space: Space, at: TextRef) -> Result<Str, PageEnd>
    ensures text { IsStrAt (P.known pages.now) space at result }
    ensures meaning { (all : PageId → Option (List ℕ)) (texts : TextMap) (text : List ℕ) → MeansTexts (seen (P.known pages.now) all space) texts → text_in texts at ≡ Some text → MatchResult result (λ s. s ≡ text) (λ end. IsNotGiven (P.known pages.now) all space at text end) }
{
    read_text(alloc, pages, space, at)
}

/// Takes a text away. Of a reference of page 0 there is nothing to take.
pub fn remove(work: &mut Workspace, space: Space, at: TextRef) -> Result<(), PageEnd>
    ensures pages { IsRemoved work.old space at result work.new }
    ensures own { OnOk result ((all : PageId → Option (List ℕ)) → KeepsToOwn texts_own 0 work.old work.new all space) }
    ensures meaning { (all : PageId → Option (List ℕ)) (texts : TextMap) → MeansTexts (seen work.old.now all space) texts → IsSome (text_in texts at) → MatchResult result (λ done. MeansTexts (seen work.new.now all space) (map.remove texts at)) (λ end. IsStop work.old.now all space end) }
{
    remove_text(work, space, at)
}

/// Takes a text away and puts another one, whose reference it gives.
pub fn replace(
    work: &mut Workspace,
    space: Space,
    at: TextRef,
    bytes: &[u8],
) -> Result<TextRef, PageEnd>
    ensures pages { IsReplaced work.old space at bytes.now result work.new }
    ensures own { OnOk result ((all : PageId → Option (List ℕ)) → KeepsToOwn texts_own (length bytes.now) work.old work.new all space) }
    ensures meaning { (all : PageId → Option (List ℕ)) (texts : TextMap) → MeansTexts (seen work.old.now all space) texts → IsSome (text_in texts at) → MatchResult result (λ new. IsPut (seen work.new.now all space) (map.remove texts at) bytes.now new) (λ end. IsNotPut work.old.now all space bytes.now end) }
{
    replace_text(work, space, at, bytes)
}
