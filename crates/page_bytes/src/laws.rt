//! What a call keeps that keeps to its own: pages, texts and schema entries that it has nothing to do with.
ghost use Rattle.std.specs.Prelude.{◌≡◌, ℕ, List, Option, Ok};
ghost use Rattle.page_bytes.specs.declared.ids.Addr.{Addr};
ghost use Rattle.page_bytes.specs.declared.texts.TextRef.{TextRef};
ghost use Rattle.page_bytes.specs.Texts.{IsTextAt};
ghost use Rattle.page_bytes.specs.Schema.{IsSchemaEntry};
ghost use Rattle.page_bytes.specs.Frames.{Call, Keeps, before, behind, IsSpared, SparesText, SparesSchema};

/// The laws of calls that keep to their own. A page that isn't of a call's kinds, has none of its fields and was made
/// before it stays; so does a text that stands on such pages, and the place of a schema entry, also where the call writes
/// other fields of schema pages.
pub fn frame_laws()
    ensures page { (c : Call) (n : ℕ) → Keeps c → IsSpared c n → behind c n ≡ before c n }
    ensures text { (c : Call) (at : TextRef) (text : List ℕ) → SparesText c at → IsTextAt c.old.now c.space at (Ok text) → IsTextAt c.new.now c.space at (Ok text) }
    ensures schema_entry { (c : Call) (id : ℕ) (place : Option Addr) → SparesSchema c id → IsSchemaEntry c.old.now c.space id (Ok place) → IsSchemaEntry c.new.now c.space id (Ok place) }
{}
