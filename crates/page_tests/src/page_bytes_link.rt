// Texts and schema entries found over pages of any bytes.
use page_bytes::{
    Addr, Draft, NoMemory, Page, PageEnd, PageId, PageSet, SchemaId, Space, TextRef, schema_entry,
    text_at,
};
use std::alloc::Global;
use std::test::Fail;

const SPACE: Space = Space {
    commit: 1,
    ordinal: 0,
};

fn id(number: u64) -> PageId {
    PageId {
        space: SPACE,
        number,
    }
}

// A page of zeros with these bytes at these places.
fn page_with(alloc: Global, bytes: &[(usize, u8)]) -> Result<Page, NoMemory> {
    let mut draft = Draft::zero(alloc)?;
    for (at, byte) in bytes {
        if *at < 4096 {
            draft.write_u8(*at, *byte);
        }
    }
    Page::of(alloc, draft)
}

// A text page with one slot, whose piece at 4,000 has 3 bytes of text and is this long.
fn text_page(alloc: Global, kind: u8, length: u8, next: TextRef) -> Result<Page, NoMemory> {
    let bytes = [
        (0, kind),
        (3, 1),
        (8, 15),
        (9, 160),
        (11, length),
        (4007, (next.page % 256) as u8),
        (4009, (next.slot % 256) as u8),
        (4010, 7),
        (4011, 8),
        (4012, 9),
    ];
    page_with(alloc, &bytes)
}

fn to(page: u64, slot: u16) -> TextRef {
    TextRef { page, slot }
}

// Pages 3 and 4, of which the first leads to the second, and the second where it is told.
fn two_pages(alloc: Global, kind: u8, length: u8, next: TextRef) -> Result<PageSet, NoMemory> {
    let mut set = PageSet::new(alloc);
    set.put(id(3), text_page(alloc, 5, 13, to(4, 0))?)?;
    set.put(id(4), text_page(alloc, kind, length, next)?)?;
    Ok(set)
}

fn count_from(alloc: Global, set: &PageSet, at: TextRef) -> Result<usize, PageEnd> {
    let text = text_at(alloc, set, SPACE, at)?;
    Ok(text.as_slice().len())
}

#[test]
fn pieces_of_a_text_are_joined(rt: HostRuntime) -> Result<(), Fail> {
    let set = two_pages(rt.alloc(), 5, 12, to(0, 0))?;
    let text = text_at(rt.alloc(), &set, SPACE, to(3, 0))?;
    assert_eq!(rt; text.as_slice(), [7, 8, 9, 7, 8].as_slice());
    let rest = text_at(rt.alloc(), &set, SPACE, to(4, 0))?;
    assert_eq!(rt; rest.into_vec().len(), 2);
    assert_eq!(rt; count_from(rt.alloc(), &set, to(0, 0)), Ok(0));
    Ok(())
}

#[test]
fn pieces_that_lead_back_or_outside_are_damaged(rt: HostRuntime) -> Result<(), Fail> {
    let cases = [
        (5, 12, to(3, 0), PageEnd::Damaged { page: id(4) }),
        (5, 12, to(4, 0), PageEnd::Damaged { page: id(4) }),
        (5, 12, to(3, 1), PageEnd::Damaged { page: id(4) }),
        (5, 10, to(0, 0), PageEnd::Damaged { page: id(4) }),
        (5, 97, to(0, 0), PageEnd::Damaged { page: id(4) }),
        (4, 12, to(0, 0), PageEnd::Damaged { page: id(4) }),
        (5, 12, to(9, 0), PageEnd::Need { page: id(9) }),
    ];
    for (kind, length, next, end) in cases {
        let set = two_pages(rt.alloc(), kind, length, next)?;
        assert_eq!(rt; count_from(rt.alloc(), &set, to(3, 0)), Err(end));
    }
    Ok(())
}

// A head with a schema page 1, whose two entries have names of 2 bytes and lead on to page 2, with one entry.
fn schema_pages(alloc: Global, next: u8) -> Result<PageSet, NoMemory> {
    let head = [(0, 2), (9, 9), (17, 1)];
    let first = [(0, 3), (3, 2), (15, 2), (19, 5), (41, 2), (47, 6)];
    let second = [(0, 3), (3, 1), (15, next), (19, 7)];
    let mut set = PageSet::new(alloc);
    set.put(id(0), page_with(alloc, &head)?)?;
    set.put(id(1), page_with(alloc, &first)?)?;
    set.put(id(2), page_with(alloc, &second)?)?;
    Ok(set)
}

#[test]
fn schema_entries_are_found_where_they_stand(rt: HostRuntime) -> Result<(), Fail> {
    let set = schema_pages(rt.alloc(), 0)?;
    let cases = [
        (5, Some(Addr::of(1, 16))),
        (6, Some(Addr::of(1, 44))),
        (7, Some(Addr::of(2, 16))),
        (8, None),
        (0, None),
    ];
    for (wanted, place) in cases {
        assert_eq!(rt;
            schema_entry(rt.alloc(), &set, SPACE, SchemaId(wanted)),
            Ok(place)
        );
    }
    let back = schema_pages(rt.alloc(), 1)?;
    let damaged = Err(PageEnd::Damaged { page: id(2) });
    assert_eq!(rt;
        schema_entry(rt.alloc(), &back, SPACE, SchemaId(8)),
        damaged
    );
    Ok(())
}
