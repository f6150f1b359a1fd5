//! Documents on flat pages: texts that end at the edges of pages, short ones over long ones, and pages that are no document's.
use byte_edge::MemSink;
use flat_doc::{get_flat, put_flat};
use page_bytes::{
    Draft, NoMemory, Page, PageEnd, PageId, PageSet, Pages, Space, Workspace, read_u64,
};
use pyx_text::{PyxReader, write_doc};
use std::alloc::Global;
use std::test::Fail;
use xml_model::Doc;
use xq_ast::Str;

const SPACE: Space = Space {
    commit: 3,
    ordinal: 1,
};

fn id(number: u64) -> PageId {
    PageId {
        space: SPACE,
        number,
    }
}

// The document whose canonical text has so many bytes: the empty one, or one text.
fn document(alloc: Global, size: usize) -> Result<Doc, Fail> {
    let mut reader = PyxReader::new(alloc);
    let mut line = Str::new(alloc);
    line.push_str("-")?;
    for _ in 2..size {
        line.push_str("x")?;
    }
    if size > 0 {
        reader.line(&line)?;
    }
    Ok(reader.end()?)
}

fn same(alloc: Global, first: &Doc, second: &Doc) -> Result<bool, Fail> {
    let mut one = MemSink::of(alloc, Vec::new(alloc));
    let mut other = MemSink::of(alloc, Vec::new(alloc));
    let _ = write_doc(first, &mut one).ok().ok_or("no text")?;
    let _ = write_doc(second, &mut other).ok().ok_or("no text")?;
    Ok(one.bytes() == other.bytes())
}

// Whether a document of this size that is put is read again.
fn is_read_again(alloc: Global, work: &mut Workspace, size: usize) -> Result<bool, Fail> {
    let doc = document(alloc, size)?;
    put_flat(alloc, &doc, SPACE, work)?;
    same(alloc, &doc, &get_flat(alloc, &*work, SPACE)?)
}

// Whether page 0 states this length, the last page is there, and the one past it isn't.
fn stands(work: &Workspace, length: u64, last: u64, past: u64) -> bool {
    let Some(head) = work.page(id(0)) else {
        return false;
    };
    read_u64(head, 1) == length && work.page(id(last)).is_some() && work.absent(id(past))
}

#[test]
fn texts_end_at_the_edges_of_pages(rt: HostRuntime) -> Result<(), Fail> {
    let cases = [
        (0, 0, 1),
        (4087, 0, 1),
        (4088, 1, 2),
        (8182, 1, 2),
        (8183, 2, 3),
    ];
    for (size, last, past) in cases {
        let mut work = Workspace::over(rt.alloc(), PageSet::new(rt.alloc()));
        assert!(rt; is_read_again(rt.alloc(), &mut work, size)?);
        assert!(rt; stands(&work, size as u64, last, past));
    }
    Ok(())
}

#[test]
fn longer_text_is_gone(rt: HostRuntime) -> Result<(), Fail> {
    let mut work = Workspace::over(rt.alloc(), PageSet::new(rt.alloc()));
    for (size, last, past) in [(8183, 2, 3), (4088, 1, 2), (4087, 0, 1), (0, 0, 1)] {
        assert!(rt; is_read_again(rt.alloc(), &mut work, size)?);
        assert!(rt; stands(&work, size as u64, last, past));
    }
    Ok(())
}

// Pages 0 and 1, of these kinds. Page 0 states this length and begins with this text.
fn pages(
    alloc: Global,
    kind: u8,
    next: u8,
    length: u64,
    text: &[u8; 3],
) -> Result<PageSet, NoMemory> {
    let mut first = Draft::zero(alloc)?;
    first.write_u8(0, kind);
    first.write_u64(1, length);
    first.write_bytes(9, text);
    let mut second = Draft::zero(alloc)?;
    second.write_u8(0, next);
    let mut set = PageSet::new(alloc);
    set.put(id(0), Page::of(alloc, first)?)?;
    set.put(id(1), Page::of(alloc, second)?)?;
    Ok(set)
}

#[test]
fn pages_of_no_document_are_damaged_or_others_are_needed(rt: HostRuntime) -> Result<(), Fail> {
    let damaged = Some(PageEnd::Damaged { page: id(0) });
    let cases = [
        (1, 9, 3, b"-a\n", None),
        (9, 1, 3, b"-a\n", damaged),
        (1, 9, 4088, b"-a\n", Some(PageEnd::Damaged { page: id(1) })),
        (1, 1, 8183, b"-a\n", Some(PageEnd::Need { page: id(2) })),
        (1, 1, u64::MAX, b"-a\n", Some(PageEnd::Need { page: id(2) })),
        (1, 1, 3, b"-\xff\n", damaged),
        (1, 1, 3, b"a-\n", damaged),
        (1, 1, 3, b"(a\n", damaged),
    ];
    for (kind, next, length, text, end) in cases {
        let set = pages(rt.alloc(), kind, next, length, text)?;
        assert_eq!(rt; get_flat(rt.alloc(), &set, SPACE).err(), end);
    }
    Ok(())
}

#[test]
fn absent_page_damages_the_first(rt: HostRuntime) -> Result<(), Fail> {
    let alloc = rt.alloc();
    let mut work = Workspace::over(alloc, PageSet::new(alloc));
    assert!(rt; is_read_again(alloc, &mut work, 4087)?);
    work.edit(id(0))?.write_u64(1, 4088);
    let damaged = Some(PageEnd::Damaged { page: id(0) });
    assert_eq!(rt; get_flat(alloc, &work, SPACE).err(), damaged);
    Ok(())
}
