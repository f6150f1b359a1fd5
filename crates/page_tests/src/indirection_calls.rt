// Node numbers: each call with ample memory, numbers given again, and damaged pages.
use indirection::{add, change, find, remove};
use page_bytes::{
    Addr, Draft, LAST_LAYER, NoMemory, NodeNo, Page, PageEnd, PageId, PageSet, Pages, Space,
    Workspace, read_u64,
};
use std::alloc::Global;
use std::test::Fail;

const SPACE: Space = Space {
    commit: 3,
    ordinal: 1,
};

fn id(number: u64) -> PageId {
    PageId {
        space: SPACE,
        number,
    }
}

// A head with this next page number, root, first free number and highest number.
fn head(alloc: Global, next: u64, root: u64, free: u32, highest: u32) -> Result<Page, NoMemory> {
    let mut draft = Draft::zero(alloc)?;
    draft.write_u8(0, 2);
    draft.write_u64(2, next);
    draft.write_u64(18, root);
    draft.write_u32(34, free);
    draft.write_u32(38, highest);
    Page::of(alloc, draft)
}

// A page of this kind with a number at a place.
fn page(alloc: Global, kind: u8, at: usize, number: u64) -> Result<Page, NoMemory> {
    let mut draft = Draft::zero(alloc)?;
    draft.write_u8(0, kind);
    if at <= 4088 {
        draft.write_u64(at, number);
    }
    Page::of(alloc, draft)
}

fn empty_document(alloc: Global) -> Result<Workspace, NoMemory> {
    let mut set = PageSet::new(alloc);
    set.put(id(0), head(alloc, 1, 0, 0, 0)?)?;
    Ok(Workspace::over(alloc, set))
}

// The address that the tests give the node of a number.
fn address(number: u32) -> Addr {
    Addr::of(number as u64 + 7, (number % 4096) as u16)
}

fn added(work: &mut Workspace, to: Addr) -> Result<NodeNo, PageEnd> {
    if to.layer > LAST_LAYER || to.number() == 0 {
        return Err(PageEnd::NoMemory);
    }
    add(work, SPACE, to)
}

fn changed(work: &mut Workspace, number: u32, to: Addr) -> Result<(), PageEnd> {
    if to.layer > LAST_LAYER || to.number() == 0 {
        return Err(PageEnd::NoMemory);
    }
    change(work, SPACE, NodeNo(number), to)
}

#[test]
fn removed_number_is_given_again(rt: HostRuntime) -> Result<(), Fail> {
    let mut work = empty_document(rt.alloc())?;
    for number in 1..4 {
        assert_eq!(rt; added(&mut work, address(number)), Ok(NodeNo(number)));
    }
    assert_eq!(rt; changed(&mut work, 3, address(8)), Ok(()));
    assert_eq!(rt; remove(&mut work, SPACE, NodeNo(2)), Ok(()));
    assert_eq!(rt; find(&work, SPACE, NodeNo(2)), Ok(None));
    assert_eq!(rt; added(&mut work, address(9)), Ok(NodeNo(2)));
    assert_eq!(rt; find(&work, SPACE, NodeNo(1)), Ok(Some(address(1))));
    assert_eq!(rt; find(&work, SPACE, NodeNo(2)), Ok(Some(address(9))));
    assert_eq!(rt; find(&work, SPACE, NodeNo(3)), Ok(Some(address(8))));
    Ok(())
}

// With as many numbers as one directory page has, the next one makes a directory page and a leaf.
#[test]
fn numbers_stand_in_two_directory_pages(rt: HostRuntime) -> Result<(), Fail> {
    let alloc = rt.alloc();
    let mut set = PageSet::new(alloc);
    set.put(id(0), head(alloc, 9, 1, 0, 340 * 511)?)?;
    set.put(id(1), page(alloc, 7, 8, 2)?)?;
    let mut work = Workspace::over(alloc, set);
    let next = NodeNo(340 * 511 + 1);
    assert_eq!(rt; added(&mut work, address(5)), Ok(next));
    assert_eq!(rt; find(&work, SPACE, next), Ok(Some(address(5))));
    let head = work.page(id(0)).ok_or("no head")?;
    assert_eq!(rt; read_u64(head, 2), 11);
    Ok(())
}

fn needed(number: u64) -> Result<Option<Addr>, PageEnd> {
    Err(PageEnd::Need { page: id(number) })
}

// Fields of the head, the root, a directory page and a leaf, in pages 0, 1, 2 and 3.
#[derive(Clone, Copy)]
struct Fields {
    next: u64,
    root: u64,
    free: u32,
    highest: u32,
    root_kind: u8,
    directory: u64,
    directory_kind: u8,
    leaf: u64,
    leaf_kind: u8,
    entry: u64,
}

const SOUND: Fields = Fields {
    next: 4,
    root: 1,
    free: 0,
    highest: 1,
    root_kind: 7,
    directory: 2,
    directory_kind: 7,
    leaf: 3,
    leaf_kind: 6,
    entry: 5,
};

// The first of these pages, as many as this.
fn first_pages(alloc: Global, fields: &Fields, count: u64) -> Result<PageSet, NoMemory> {
    let forms = [
        (1, fields.root_kind, 8, fields.directory),
        (2, fields.directory_kind, 8, fields.leaf),
        (3, fields.leaf_kind, 16, fields.entry),
    ];
    let mut set = PageSet::new(alloc);
    for (number, kind, at, link) in forms {
        if number < count {
            set.put(id(number), page(alloc, kind, at, link)?)?;
        }
    }
    if count > 0 {
        let first = head(alloc, fields.next, fields.root, fields.free, fields.highest)?;
        set.put(id(0), first)?;
    }
    Ok(set)
}

fn pages_of(alloc: Global, fields: &Fields) -> Result<PageSet, NoMemory> {
    first_pages(alloc, fields, 4)
}

#[test]
fn pages_that_are_not_there_are_needed(rt: HostRuntime) -> Result<(), Fail> {
    for count in 0..4 {
        let set = first_pages(rt.alloc(), &SOUND, count)?;
        assert_eq!(rt; find(&set, SPACE, NodeNo(1)), needed(count));
    }
    let all = pages_of(rt.alloc(), &SOUND)?;
    assert_eq!(rt; find(&all, SPACE, NodeNo(1)), Ok(Some(Addr::of(5, 0))));
    Ok(())
}

fn found_over(alloc: Global, fields: &Fields) -> Result<Option<Addr>, PageEnd> {
    let set = pages_of(alloc, fields)?;
    find(&set, SPACE, NodeNo(1))
}

fn added_over(alloc: Global, fields: &Fields) -> Result<NodeNo, PageEnd> {
    let mut work = Workspace::over(alloc, pages_of(alloc, fields)?);
    added(&mut work, Addr::of(9, 32))
}

#[test]
fn broken_pages_are_damaged(rt: HostRuntime) {
    let cases = [
        (Fields { next: 0, ..SOUND }, 0),
        (
            Fields {
                highest: 88781141,
                ..SOUND
            },
            0,
        ),
        (Fields { root: 0, ..SOUND }, 0),
        (
            Fields {
                root_kind: 5,
                ..SOUND
            },
            1,
        ),
        (
            Fields {
                directory: 0,
                ..SOUND
            },
            1,
        ),
        (
            Fields {
                directory_kind: 6,
                ..SOUND
            },
            2,
        ),
        (Fields { leaf: 0, ..SOUND }, 2),
        (Fields { leaf: 2, ..SOUND }, 2),
    ];
    for (fields, number) in &cases {
        let damaged = Err(PageEnd::Damaged { page: id(*number) });
        assert_eq!(rt; found_over(rt.alloc(), fields), damaged);
    }
}

#[test]
fn broken_free_lists_are_damaged(rt: HostRuntime) {
    let cases = [
        (
            Fields { free: 2, ..SOUND },
            Err(PageEnd::Damaged { page: id(0) }),
        ),
        (
            Fields { free: 1, ..SOUND },
            Err(PageEnd::Damaged { page: id(0) }),
        ),
        (
            Fields {
                highest: 88781140,
                ..SOUND
            },
            Err(PageEnd::Damaged { page: id(0) }),
        ),
        (
            Fields {
                next: u64::MAX,
                highest: 340,
                ..SOUND
            },
            Err(PageEnd::Spent { number: u64::MAX }),
        ),
        (
            Fields {
                free: 1,
                entry: 0,
                ..SOUND
            },
            Ok(NodeNo(1)),
        ),
        (SOUND, Ok(NodeNo(2))),
    ];
    for (fields, wanted) in &cases {
        assert_eq!(rt; added_over(rt.alloc(), fields), *wanted);
    }
}
