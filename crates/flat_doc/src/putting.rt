//! How a flat document is put on pages.
ghost use Rattle.std.specs.Prelude.{◌≡◌, ◌<◌, ◌^◌, true, length, IfOk, IfErr, OnOk};
ghost use Rattle.std.specs.FinMap as map;
ghost use Rattle.page_bytes.specs.declared.end.PageEnd.TheVariants.{NoMemory as out_of_memory};
ghost use Rattle.page_bytes.specs.Work.{with_space};
ghost use Rattle.xml_model.specs.Pyx.{pyx, text_of};
ghost use Rattle.flat_doc.specs.Putting.{flat_pages, with_pages_from};

use crate::sink::FlatSink;
use page_bytes::{Draft, NoMemory, PageEnd, PageId, Space, Workspace};
use pyx_text::write_doc;
use std::alloc::Global;
use xml_model::Doc;

/// The pages of a document's canonical text.
pub fn pages_of(alloc: Global, doc: &Doc) -> Result<Vec<Draft>, NoMemory>
    ensures pages { IfOk result (λ pages. pages.items ≡ flat_pages (text_of (pyx doc.now))) }
    ensures length { OnOk result (length (text_of (pyx doc.now)) < 2 ^ 64) }
{
    let mut sink = FlatSink::new(alloc)?;
    match write_doc(doc, &mut sink) {
        Ok(()) => sink.finish(),
        Err(_) => Err(NoMemory),
    }
}

/// Opens the space anew, with these pages from page 0 on.
pub fn put_pages(work: &mut Workspace, space: Space, pages: Vec<Draft>) -> Result<(), PageEnd>
    ensures ok { OnOk result (work.new ≡ with_pages_from (with_space work.old space) space 0 pages.items) }
    ensures err { IfErr result (λ end. end ≡ out_of_memory) }
{
    work.open_space(space)?;
    put_all(work, space, pages)
}

// Puts these pages in a space that is whole, from page 0 on.
fn put_all(work: &mut Workspace, space: Space, pages: Vec<Draft>) -> Result<(), PageEnd>
    requires { map.contains_key work.old.now.whole space ≡ true }
    ensures ok { OnOk result (work.new ≡ with_pages_from work.old space 0 pages.items) }
    ensures err { IfErr result (λ end. end ≡ out_of_memory) }
{
    let mut number = 0;
    let mut rest = pages.into_iter();
    while let Some(page) = rest.next() {
        match work.edit(PageId { space, number }) {
            Ok(draft) => *draft = page,
            Err(end) => return Err(end),
        }
        number += 1;
    }
    rest.destroy_empty();
    Ok(())
}
