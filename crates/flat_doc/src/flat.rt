//! The two calls.
ghost use Rattle.std.specs.Prelude.{◌≡◌, List, ℕ, Option, OnOk, IfErr, MatchResult};
ghost use Rattle.page_bytes.specs.declared.ids.PageId.{PageId};
ghost use Rattle.page_bytes.specs.declared.end.PageEnd.TheVariants.{NoMemory as out_of_memory};
ghost use Rattle.page_bytes.specs.Answers.{IsStop};
ghost use Rattle.page_bytes.specs.Seen.{seen};
ghost use Rattle.xml_model.specs.declared.node.Doc.{Doc};
ghost use Rattle.xml_model.specs.Document.{IsValid};
ghost use Rattle.xml_model.specs.Pyx.{pyx, text_of};
ghost use Rattle.flat_doc.specs.Putting.{with_text};
ghost use Rattle.flat_doc.specs.Reading.{IsFlatDoc};
ghost use Rattle.flat_doc.specs.Meaning.{HasText, StandsForFlat};

use crate::pieces::text_length;
use crate::putting::{pages_of, put_pages};
use crate::reading::read_text;
use crate::typed::document;
use page_bytes::{NoMemory, PageEnd, Pages, Space, Workspace};
use std::alloc::Global;
use xml_model::Doc;

/// Puts a document's canonical text on the pages of a space, which is opened anew: what it had before is gone. After want of
/// memory the workspace is of no use, and the caller drops it.
pub fn put_flat(alloc: Global, doc: &Doc, space: Space, work: &mut Workspace) -> Result<(), PageEnd>
    ensures pages { OnOk result (work.new ≡ with_text work.old space (text_of (pyx doc.now))) }
    ensures err { IfErr result (λ end. end ≡ out_of_memory) }
    ensures text { OnOk result ((all : PageId → Option (List ℕ)) → HasText (seen work.new.now all space) (text_of (pyx doc.now))) }
    ensures meaning { IsValid doc.now → OnOk result ((all : PageId → Option (List ℕ)) → StandsForFlat (seen work.new.now all space) doc.now) }
{
    document(doc);
    match pages_of(alloc, doc) {
        Ok(pages) => put_pages(work, space, pages),
        Err(NoMemory) => Err(PageEnd::NoMemory),
    }
}

/// The document that stands on the pages of a space.
pub fn get_flat<P: Pages>(alloc: Global, pages: &P, space: Space) -> Result<Doc, PageEnd>
    ensures doc { IsFlatDoc (P.known pages.now) space result }
    ensures meaning { (all : PageId → Option (List ℕ)) (doc : Doc) → StandsForFlat (seen (P.known pages.now) all space) doc → MatchResult result (λ read. read ≡ doc) (λ end. IsStop (P.known pages.now) all space end) }
{
    match text_length(pages, space) {
        Ok(length) => read_text(alloc, pages, space, length),
        Err(end) => Err(end),
    }
}
