// The workspace and page sets: each call with ample memory, and each refusal.
use page_bytes::{
    Addr, ChangeList, Draft, NoMemory, Page, PageEnd, PageId, PageIdList, PageSet, Pages, Space,
    Workspace, read_bytes, read_u8, read_u16, read_u32, read_u64,
};
use std::alloc::Global;
use std::test::Fail;

const FIRST: Space = Space {
    commit: 1,
    ordinal: 0,
};

const SECOND: Space = Space {
    commit: 1,
    ordinal: 1,
};

const LATER: Space = Space {
    commit: 2,
    ordinal: 0,
};

const HEAD_KIND: u8 = 2;

fn id(space: Space, number: u64) -> PageId {
    PageId { space, number }
}

// A page of this kind with this number at byte 2.
fn page(alloc: Global, kind: u8, number: u64) -> Result<Page, NoMemory> {
    let mut draft = Draft::zero(alloc)?;
    draft.write_u8(0, kind);
    draft.write_u64(2, number);
    Page::of(alloc, draft)
}

// In two spaces a head with the next page number 3, and pages 1 and 2.
fn two_documents(alloc: Global) -> Result<PageSet, NoMemory> {
    let mut set = PageSet::new(alloc);
    for space in [FIRST, SECOND] {
        for (number, kind) in [(0, HEAD_KIND), (1, 4), (2, 5)] {
            set.put(id(space, number), page(alloc, kind, 3)?)?;
        }
    }
    Ok(set)
}

// What is done to a workspace. An edit writes a page's kind.
#[derive(Clone, Copy)]
enum Step {
    Edit(PageId, u8),
    Fresh(Space),
    Free(PageId),
    Open(Space),
    Leave(Space),
    AddBoth,
    Copy,
}

fn take(alloc: Global, work: &mut Workspace, step: Step) -> Result<(), PageEnd> {
    match step {
        Step::Edit(page, kind) => work.edit(page)?.write_u8(0, kind),
        Step::Fresh(space) => {
            let _page = work.fresh(space)?;
        }
        Step::Free(page) => work.free(page)?,
        Step::Open(space) => work.open_space(space)?,
        Step::Leave(space) => work.drop_space(space),
        Step::AddBoth => work.add(two_documents(alloc)?)?,
        Step::Copy => *work = work.copy()?,
    }
    Ok(())
}

fn worked(alloc: Global, below: &PageSet, steps: &[Step]) -> Result<Workspace, PageEnd> {
    let mut work = Workspace::over(alloc, below.copy()?);
    for step in steps {
        take(alloc, &mut work, *step)?;
    }
    Ok(work)
}

// A change as it is listed: the page, and its kind unless it is gone.
#[derive(Clone, Copy, Debug, PartialEq, Eq)]
struct Listed {
    page: PageId,
    kind: Option<u8>,
}

fn changed(space: Space, number: u64, kind: Option<u8>) -> Listed {
    Listed {
        page: id(space, number),
        kind,
    }
}

fn is_listed(list: &ChangeList, wanted: &[Listed]) -> bool {
    let changes = list.as_slice();
    if changes.len() != wanted.len() {
        return false;
    }
    for (change, listed) in changes.iter().zip(wanted.iter()) {
        let kind = match &change.page {
            Some(page) => Some(read_u8(page.bytes(), 0)),
            None => None,
        };
        if change.id != listed.page || kind != listed.kind {
            return false;
        }
    }
    true
}

// Whether these steps over these pages give these changes.
fn gives(
    alloc: Global,
    below: &PageSet,
    steps: &[Step],
    wanted: &[Listed],
) -> Result<bool, PageEnd> {
    let list = worked(alloc, below, steps)?.finish()?;
    Ok(is_listed(&list, wanted))
}

#[test]
fn changes_are_listed(rt: HostRuntime) -> Result<(), Fail> {
    let alloc = rt.alloc();
    let both = two_documents(alloc)?;
    let edited = [
        Step::Edit(id(FIRST, 1), 9),
        Step::Edit(id(SECOND, 1), 4),
        Step::Fresh(FIRST),
        Step::Copy,
        Step::Free(id(FIRST, 2)),
    ];
    let one = [
        changed(FIRST, 0, Some(HEAD_KIND)),
        changed(FIRST, 1, Some(9)),
        changed(FIRST, 2, None),
        changed(FIRST, 3, Some(0)),
    ];
    assert_eq!(rt; gives(alloc, &both, &edited, &one), Ok(true));
    let opened = [
        Step::Edit(id(FIRST, 1), 9),
        Step::Leave(FIRST),
        Step::Open(SECOND),
        Step::Edit(id(SECOND, 0), 7),
        Step::Free(id(SECOND, 0)),
        Step::Open(LATER),
        Step::Edit(id(LATER, 0), HEAD_KIND),
        Step::Copy,
    ];
    let two = [
        changed(SECOND, 0, None),
        changed(SECOND, 1, None),
        changed(SECOND, 2, None),
        changed(LATER, 0, Some(HEAD_KIND)),
    ];
    assert_eq!(rt; gives(alloc, &both, &opened, &two), Ok(true));
    let added = [Step::Open(SECOND), Step::AddBoth, Step::Free(id(FIRST, 1))];
    let three = [
        changed(FIRST, 1, None),
        changed(SECOND, 0, None),
        changed(SECOND, 1, None),
        changed(SECOND, 2, None),
    ];
    let none = PageSet::new(alloc);
    assert_eq!(rt; gives(alloc, &none, &added, &three), Ok(true));
    Ok(())
}

#[test]
fn pages_are_there_absent_or_unknown(rt: HostRuntime) -> Result<(), Fail> {
    let alloc = rt.alloc();
    let steps = [Step::Free(id(FIRST, 2)), Step::Open(LATER)];
    let work = worked(alloc, &two_documents(alloc)?, &steps)?;
    assert!(rt; work.page(id(FIRST, 1)).is_some());
    assert!(rt; work.absent(id(FIRST, 2)), "freed");
    assert!(rt; work.absent(id(LATER, 7)), "its space is whole");
    assert!(rt; !work.absent(id(FIRST, 3)), "never seen");
    assert!(rt; work.page(id(FIRST, 3)).is_none());
    Ok(())
}

// What `fresh` answers over a head of this kind with this next number.
fn fresh_over(alloc: Global, kind: u8, next: u64) -> Result<PageId, PageEnd> {
    let mut set = PageSet::new(alloc);
    set.put(id(FIRST, 0), page(alloc, kind, next)?)?;
    let mut work = Workspace::over(alloc, set);
    work.fresh(FIRST)
}

#[test]
fn fresh_needs_a_head_with_a_next_number(rt: HostRuntime) {
    let damaged = Err(PageEnd::Damaged { page: id(FIRST, 0) });
    let spent = Err(PageEnd::Spent { number: u64::MAX });
    let cases = [
        (HEAD_KIND, 1, Ok(id(FIRST, 1))),
        (HEAD_KIND, u64::MAX - 1, Ok(id(FIRST, u64::MAX - 1))),
        (HEAD_KIND, u64::MAX, spent),
        (HEAD_KIND, 0, damaged),
        (1, 3, damaged),
    ];
    for (kind, next, answer) in cases {
        assert_eq!(rt; fresh_over(rt.alloc(), kind, next), answer);
    }
}

#[test]
fn refused_calls_name_the_page(rt: HostRuntime) {
    let alloc = rt.alloc();
    let needed = PageEnd::Need { page: id(FIRST, 0) };
    let damaged = PageEnd::Damaged { page: id(FIRST, 0) };
    let mut work = Workspace::over(alloc, PageSet::new(alloc));
    assert_eq!(rt; work.fresh(FIRST), Err(needed));
    assert_eq!(rt; work.free(id(FIRST, 0)), Err(needed));
    assert!(rt; work.open_space(FIRST).is_ok());
    assert_eq!(rt; work.fresh(FIRST), Err(damaged));
    assert_eq!(rt; work.free(id(FIRST, 0)), Err(damaged));
}

#[test]
fn fields_are_big_endian(rt: HostRuntime) -> Result<(), Fail> {
    let mut draft = Draft::zero(rt.alloc())?;
    draft.write_u16(1, 0x0102);
    draft.write_u32(4, 0x0304_0506);
    draft.write_u64(4088, 0x0708_090a_0b0c_0d0e);
    draft.fill(20, 2, 9);
    draft.move_bytes(4, 22, 4);
    let bytes = draft.bytes();
    assert_eq!(rt;
        read_bytes(bytes, 0, 8),
        [0, 1, 2, 0, 3, 4, 5, 6].as_slice()
    );
    assert_eq!(rt; read_bytes(bytes, 20, 6), [9, 9, 3, 4, 5, 6].as_slice());
    assert_eq!(rt; read_u16(bytes, 1), 0x0102);
    assert_eq!(rt; read_u32(bytes, 4), 0x0304_0506);
    assert_eq!(rt; read_u64(bytes, 4088), 0x0708_090a_0b0c_0d0e);
    Ok(())
}

#[test]
fn pages_rise_by_space_then_number(rt: HostRuntime) {
    assert!(rt; id(FIRST, 9) < id(SECOND, 1));
    assert!(rt; id(SECOND, 9) < id(LATER, 0));
    assert!(rt; id(LATER, 0) < id(LATER, 1));
    let place = Addr::of(513, 40);
    assert_eq!(rt; (place.layer, place.page), (2, 1));
    assert_eq!(rt; place.number(), 513);
}

fn crosses_threads<T: Send + Sync>(value: T) -> T {
    value
}

#[test]
fn pages_and_lists_cross_threads(rt: HostRuntime) -> Result<(), Fail> {
    let alloc = rt.alloc();
    let shared = crosses_threads(page(alloc, 4, 0)?);
    assert_eq!(rt; read_u8(shared.copy()?.bytes(), 0), 4);
    let set = crosses_threads(PageSet::new(alloc));
    let work = crosses_threads(Workspace::over(alloc, set));
    let list = crosses_threads(work.finish()?);
    assert_eq!(rt; list.into_vec().len(), 0);
    let ids = crosses_threads(PageIdList::of(vec![in alloc; id(FIRST, 1)]?));
    assert_eq!(rt; (ids.as_slice().len(), ids.into_vec().len()), (1, 1));
    Ok(())
}
