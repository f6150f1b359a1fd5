//! What the calls that change texts keep.
ghost use Rattle.std.specs.Prelude.{◌≡◌, ℕ, Bool, List, Option, Ok, []};
ghost use Rattle.page_bytes.specs.declared.ids.Space.{Space};
ghost use Rattle.page_bytes.specs.declared.ids.PageId.{PageId};
ghost use Rattle.page_bytes.specs.declared.texts.TextRef.{TextRef};
ghost use Rattle.page_bytes.specs.Work.{Work};
ghost use Rattle.text_pages.specs.Putting.{put_in};
ghost use Rattle.text_pages.specs.Taking.{IsRemoved, IsReplaced};
ghost use Rattle.page_bytes.specs.Seen.{seen, only};
ghost use Rattle.text_pages.specs.Meaning.{IsForm, IsChain, IsOnceEach, TextMap, MeansTexts};
ghost use Rattle.page_bytes.specs.Frames.{Call, before, behind};
ghost use Rattle.text_pages.specs.Sparing.{SparesTexts};
ghost use Rattle.text_pages.specs.Keeping.{KeepsPieces};

/// The laws of what `put`, `remove` and `replace` keep of the pieces, by the clauses `pages`. Where the pages of a set are
/// in the form of texts, whatever the others have, all pieces on them but those of the text that goes are as they were, also
/// pieces that are in no text.
pub fn keeping_laws()
    ensures put { (w new : Work) (all : PageId → Option (List ℕ)) (space : Space) (set : ℕ → Bool) (bytes : List ℕ) (at : TextRef) → IsForm (only set (seen w.now all space)) → put_in w space bytes ≡ Ok (at, new) → KeepsPieces (only set (seen w.now all space)) (seen new.now all space) [] }
    ensures remove { (w new : Work) (all : PageId → Option (List ℕ)) (space : Space) (set : ℕ → Bool) (at : TextRef) (chain : List TextRef) → IsForm (only set (seen w.now all space)) → IsChain (only set (seen w.now all space)) at chain → IsOnceEach chain → IsRemoved w space at (Ok tt) new → KeepsPieces (only set (seen w.now all space)) (seen new.now all space) chain }
    ensures replace { (w new : Work) (all : PageId → Option (List ℕ)) (space : Space) (set : ℕ → Bool) (at : TextRef) (chain : List TextRef) (bytes : List ℕ) (put : TextRef) → IsForm (only set (seen w.now all space)) → IsChain (only set (seen w.now all space)) at chain → IsOnceEach chain → IsReplaced w space at bytes (Ok put) new → KeepsPieces (only set (seen w.now all space)) (seen new.now all space) chain }
{}

/// The law of calls of other structures: where a call keeps to its own, and that has no page of kind 5, no field in such a
/// page, and nothing of the texts' field of the head, the pages mean the same texts after it.
pub fn frame_law()
    ensures { (c : Call) (texts : TextMap) → SparesTexts c → MeansTexts (before c) texts → MeansTexts (behind c) texts }
{}
