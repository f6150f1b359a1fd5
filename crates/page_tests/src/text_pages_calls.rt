// Texts on pages: each call with ample memory, beside a plain map, and damaged pages.
use page_bytes::{
    Draft, NoMemory, Page, PageEnd, PageId, PageSet, Pages, Space, TextRef, Workspace, read_u16,
    read_u64,
};
use std::alloc::Global;
use std::test::Fail;
use text_pages::{get, put, remove, replace};
use xq_ast::Str;

const SPACE: Space = Space {
    commit: 2,
    ordinal: 1,
};

fn id(number: u64) -> PageId {
    PageId {
        space: SPACE,
        number,
    }
}

fn to(page: u64, slot: u16) -> TextRef {
    TextRef { page, slot }
}

// A head with this next page number and this text page that is tried first.
fn head(alloc: Global, next: u64, first: u64) -> Result<Page, NoMemory> {
    let mut draft = Draft::zero(alloc)?;
    draft.write_u8(0, 2);
    draft.write_u64(2, next);
    draft.write_u64(26, first);
    Page::of(alloc, draft)
}

fn empty_document(alloc: Global) -> Result<Workspace, NoMemory> {
    let mut set = PageSet::new(alloc);
    set.put(id(0), head(alloc, 1, 0)?)?;
    Ok(Workspace::over(alloc, set))
}

// A text of so many letters.
fn letters(alloc: Global, seed: u64, length: usize) -> Result<Vec<u8>, Fail> {
    let mut bytes = Vec::new(alloc);
    let mut state = seed;
    for _ in 0..length {
        state = next_random(state);
        bytes.push(b'a' + (state % 26) as u8)?;
    }
    Ok(bytes)
}

// A number that looks random, by the one before it.
fn next_random(state: u64) -> u64 {
    let mixed = state ^ (state << 13);
    let mixed = mixed ^ (mixed >> 7);
    mixed ^ (mixed << 17)
}

// The next page number, the page that is tried first, and the number of slots of page 1.
fn counts(work: &Workspace) -> Result<(u64, u64, u16), Fail> {
    let head = work.page(id(0)).ok_or("no head")?;
    let page = work.page(id(1)).ok_or("no page 1")?;
    Ok((read_u64(head, 2), read_u64(head, 26), read_u16(page, 2)))
}

fn is_text(alloc: Global, work: &Workspace, at: TextRef, bytes: &[u8]) -> Result<bool, PageEnd> {
    let text = get(alloc, work, SPACE, at)?;
    Ok(text.as_bytes() == bytes)
}

#[test]
fn one_piece_or_two(rt: HostRuntime) -> Result<(), Fail> {
    let cases = [
        (4074, to(1, 0), 2),
        (4075, to(2, 0), 3),
        (8148, to(2, 0), 3),
        (8149, to(3, 0), 4),
    ];
    for (length, at, next) in cases {
        let mut work = empty_document(rt.alloc())?;
        let bytes = letters(rt.alloc(), 7, length)?;
        assert_eq!(rt; put(&mut work, SPACE, bytes.as_slice()), Ok(at));
        assert_eq!(rt; counts(&work)?, (next, 1, 1));
        assert_eq!(rt; is_text(rt.alloc(), &work, at, bytes.as_slice()), Ok(true));
    }
    Ok(())
}

#[test]
fn empty_text_is_nowhere(rt: HostRuntime) -> Result<(), Fail> {
    let alloc = rt.alloc();
    let mut work = Workspace::over(alloc, PageSet::new(alloc));
    assert_eq!(rt; put(&mut work, SPACE, b""), Ok(to(0, 0)));
    assert_eq!(rt; is_text(alloc, &work, to(0, 0), b""), Ok(true));
    assert_eq!(rt; is_text(alloc, &work, to(0, 9), b""), Ok(true));
    assert_eq!(rt; remove(&mut work, SPACE, to(0, 0)), Ok(()));
    assert_eq!(rt; replace(&mut work, SPACE, to(0, 3), b""), Ok(to(0, 0)));
    Ok(())
}

#[test]
fn text_that_is_not_utf8_is_damaged(rt: HostRuntime) -> Result<(), Fail> {
    let alloc = rt.alloc();
    let mut work = empty_document(alloc)?;
    let at = put(&mut work, SPACE, &[97, 255, 98])?;
    assert_eq!(rt; at, to(1, 0));
    let damaged = Err(PageEnd::Damaged { page: id(1) });
    assert_eq!(rt; is_text(alloc, &work, at, b"a"), damaged);
    Ok(())
}

#[test]
fn text_stands_on_many_pages(rt: HostRuntime) -> Result<(), Fail> {
    let mut work = empty_document(rt.alloc())?;
    let bytes = letters(rt.alloc(), 11, 100000)?;
    let at = put(&mut work, SPACE, bytes.as_slice())?;
    assert_eq!(rt; at, to(25, 0));
    assert_eq!(rt; is_text(rt.alloc(), &work, at, bytes.as_slice()), Ok(true));
    assert_eq!(rt; remove(&mut work, SPACE, at), Ok(()));
    assert_eq!(rt; work.absent(id(1)), true);
    assert_eq!(rt;
        is_text(rt.alloc(), &work, at, b""),
        Err(PageEnd::Damaged { page: id(25) })
    );
    Ok(())
}

// The fields of two bytes of page 1 at these places.
fn fields(work: &Workspace, places: &[usize], wanted: &[u16]) -> bool {
    let Some(page) = work.page(id(1)) else {
        return false;
    };
    for (at, number) in places.iter().zip(wanted.iter()) {
        if *at > 4094 || read_u16(page, *at) != *number {
            return false;
        }
    }
    true
}

#[test]
fn pieces_move_up_and_slots_are_used_again(rt: HostRuntime) -> Result<(), Fail> {
    let alloc = rt.alloc();
    let mut work = empty_document(alloc)?;
    assert_eq!(rt; put(&mut work, SPACE, b"one"), Ok(to(1, 0)));
    assert_eq!(rt; put(&mut work, SPACE, b"second"), Ok(to(1, 1)));
    assert_eq!(rt; put(&mut work, SPACE, b"third"), Ok(to(1, 2)));
    assert_eq!(rt; remove(&mut work, SPACE, to(1, 1)), Ok(()));
    let places = [2, 4, 8, 10, 12, 14, 16, 18];
    let wanted = [3, 4068, 4083, 13, 0, 0, 4068, 15];
    assert!(rt; fields(&work, &places, &wanted));
    assert_eq!(rt; is_text(alloc, &work, to(1, 2), b"third"), Ok(true));
    assert_eq!(rt; replace(&mut work, SPACE, to(1, 2), b"new"), Ok(to(1, 1)));
    assert_eq!(rt; is_text(alloc, &work, to(1, 1), b"new"), Ok(true));
    Ok(())
}

#[test]
fn page_goes_with_its_last_piece(rt: HostRuntime) -> Result<(), Fail> {
    let alloc = rt.alloc();
    let mut work = empty_document(alloc)?;
    let bytes = letters(alloc, 3, 4000)?;
    assert_eq!(rt; put(&mut work, SPACE, bytes.as_slice()), Ok(to(1, 0)));
    assert_eq!(rt; put(&mut work, SPACE, bytes.as_slice()), Ok(to(2, 0)));
    assert_eq!(rt; counts(&work)?, (3, 1, 1));
    assert_eq!(rt; remove(&mut work, SPACE, to(1, 0)), Ok(()));
    assert_eq!(rt; work.absent(id(1)), true);
    assert_eq!(rt; put(&mut work, SPACE, b"again"), Ok(to(3, 0)));
    Ok(())
}

// A text page of this kind with the slots 0 and 1, whose pieces of 12 bytes stand at 4,000 and 4,020 and lead on.
fn text_page(alloc: Global, kind: u8, first: TextRef, second: TextRef) -> Result<Page, NoMemory> {
    let mut draft = Draft::zero(alloc)?;
    draft.write_u8(0, kind);
    let slots = [(2, 2), (4, 4000), (8, 4000), (10, 12), (12, 4020), (14, 12)];
    for (at, number) in slots {
        if at <= 4094 {
            draft.write_u16(at, number);
        }
    }
    for (at, next) in [(4000, first), (4020, second)] {
        if at <= 4086 {
            draft.write_u64(at, next.page);
            draft.write_u16(at + 8, next.slot);
        }
    }
    draft.write_bytes(4010, b"ab");
    draft.write_bytes(4030, b"cd");
    Page::of(alloc, draft)
}

// A document whose pages 3 and 4 are text pages. Slot 0 of page 3 leads to slot 0 of page 4, and that where it is told.
fn two_pages(alloc: Global, kind: u8, next: TextRef) -> Result<PageSet, NoMemory> {
    let mut set = PageSet::new(alloc);
    set.put(id(0), head(alloc, 9, 3)?)?;
    set.put(id(3), text_page(alloc, 5, to(4, 0), to(3, 0))?)?;
    set.put(id(4), text_page(alloc, kind, next, to(0, 0))?)?;
    Ok(set)
}

fn got_from(alloc: Global, kind: u8, next: TextRef, at: TextRef) -> Result<Str, PageEnd> {
    let set = two_pages(alloc, kind, next)?;
    get(alloc, &set, SPACE, at)
}

fn removed_from(alloc: Global, kind: u8, next: TextRef, at: TextRef) -> Result<(), PageEnd> {
    let mut work = Workspace::over(alloc, two_pages(alloc, kind, next)?);
    remove(&mut work, SPACE, at)
}

#[test]
fn chains_that_lead_back_end(rt: HostRuntime) {
    let cases = [
        (5, to(3, 0), to(3, 0), PageEnd::Damaged { page: id(4) }),
        (5, to(4, 0), to(3, 0), PageEnd::Damaged { page: id(4) }),
        (5, to(3, 1), to(3, 0), PageEnd::Damaged { page: id(3) }),
        (5, to(4, 7), to(3, 0), PageEnd::Damaged { page: id(4) }),
        (5, to(7, 0), to(3, 0), PageEnd::Need { page: id(7) }),
        (4, to(0, 0), to(3, 0), PageEnd::Damaged { page: id(4) }),
        (5, to(0, 0), to(4, 2), PageEnd::Damaged { page: id(4) }),
        (5, to(0, 0), to(8, 0), PageEnd::Need { page: id(8) }),
    ];
    for (kind, next, at, end) in cases {
        let got = got_from(rt.alloc(), kind, next, at);
        assert!(rt; got.is_err());
        assert_eq!(rt; removed_from(rt.alloc(), kind, next, at), Err(end));
    }
}

#[test]
fn pages_that_are_not_there_are_needed_or_damaged(rt: HostRuntime) -> Result<(), Fail> {
    let alloc = rt.alloc();
    let mut work = Workspace::over(alloc, PageSet::new(alloc));
    let needed = PageEnd::Need { page: id(0) };
    assert_eq!(rt; put(&mut work, SPACE, b"text"), Err(needed));
    work.open_space(SPACE)?;
    let damaged = PageEnd::Damaged { page: id(0) };
    assert_eq!(rt; put(&mut work, SPACE, b"text"), Err(damaged));
    let cases = [
        (9, 6, Err(PageEnd::Need { page: id(6) })),
        (0, 3, Err(PageEnd::Damaged { page: id(0) })),
        (9, 3, Ok(to(3, 2))),
        (u64::MAX, 3, Ok(to(3, 2))),
        (u64::MAX, 0, Err(PageEnd::Spent { number: u64::MAX })),
        (9, 4, Err(PageEnd::Damaged { page: id(4) })),
    ];
    for (next, first, wanted) in cases {
        let mut set = two_pages(alloc, 6, to(0, 0))?;
        set.put(id(0), head(alloc, next, first)?)?;
        let mut work = Workspace::over(alloc, set);
        assert_eq!(rt; put(&mut work, SPACE, b"text"), wanted);
    }
    Ok(())
}

// How many pages so many texts of 20 bytes take.
fn pages_taken(alloc: Global, count: u64) -> Result<u64, Fail> {
    let mut work = empty_document(alloc)?;
    for _ in 0..count {
        let _ = put(&mut work, SPACE, b"twenty bytes of text")?;
    }
    let head = work.page(id(0)).ok_or("no head")?;
    Ok(read_u64(head, 2).saturating_sub(1))
}

// A page holds 120 pieces of 30 bytes with their slots, so such a text takes less than 35 bytes.
#[test]
fn small_texts_take_little_space(rt: HostRuntime) -> Result<(), Fail> {
    let pages = pages_taken(rt.alloc(), 2000)?;
    assert_eq!(rt; pages, 17);
    Ok(())
}
