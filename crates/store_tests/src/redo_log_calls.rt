// The log: each call with ample memory, and a device that fails at each of its calls.
ghost use Rattle.std.specs.Prelude.{◌≡◌, ◌≤◌, [], IfOk, IfSome, All, length};
ghost use Rattle.page_device.specs.MemDevice.{contents_of, MayLeave};
ghost use Rattle.redo_log.specs.Append.{IsAtRest};

mod reading;

use page_bytes::{ChangeList, DocEntry, Draft, Page, PageChange, PageId, Space};
use page_device::{
    CallKind, Device, Fail as Planned, FailList, FileDevice, LONGEST, MemDevice, Str as Folder,
    Which,
};
use redo_log::{AppendEnd, Change, LogEnd, LogName, LogNameList, append, build, settle};
use std::alloc::{AllocError, Global};
use std::test::Fail;
use xq_ast::{NoMemory, Str};

// What a log begins with, before its first gate: its head, of generation 1, commit 0 and empty tables.
const HEAD: [u8; 41] = [
    1, 88, 68, 66, 76, 79, 71, 48, 49, 0, 0, 0, 0, 0, 0, 0, 1, 0, 0, 0, 0, 0, 0, 0, 0, 0, 0, 0, 0,
    0, 0, 0, 0, 0, 0, 0, 0, 0, 0, 0, 0,
];

// A log with this head and a closed gate, on a device whose sync of this number fails, and that stops after so many calls.
fn new_log(alloc: Global, sync: u64, stop: Option<u64>) -> Result<MemDevice, AllocError>
    ensures { IfOk result (λ m. IfSome (contents_of m) (λ c. IsAtRest (record { file = Which.LogA; at = 41 }) c (MayLeave m))) }
{
    let mut log = Vec::from_slice(alloc, &HEAD)?;
    log.push(0)?;
    let fails = vec![in alloc;
        Planned {
            kind: CallKind::Sync,
            number: sync
        },
    ]?;
    Ok(MemDevice::of(
        alloc,
        Vec::new(alloc),
        log,
        Vec::new(alloc),
        FailList::of(fails),
        stop,
    ))
}

fn first_end() -> LogEnd
    ensures { result ≡ record { file = Which.LogA; at = 41 } }
{
    LogEnd {
        file: Which::LogA,
        at: 41,
    }
}

fn no_changes(alloc: Global, commit: u64) -> Change
    ensures { result.names ≡ [] }
{
    Change {
        commit,
        names: LogNameList::of(Vec::new(alloc)),
        pages: ChangeList::of(Vec::new(alloc)),
    }
}

// The log from the first gate on.
fn read_log<D: Device>(device: &mut D, into: &mut [u8; 36]) -> Option<usize> {
    device.read(Which::LogA, 41, into).ok()
}

// The record of commit 1 without changes, behind its gate: 24, 1, and zeros.
const FIRST_RECORD: [u8; 33] = [
    0, 0, 0, 0, 0, 0, 0, 24, 0, 0, 0, 0, 0, 0, 0, 1, 0, 0, 0, 0, 0, 0, 0, 0, 0, 0, 0, 0, 0, 0, 0,
    0, 0,
];

fn is_first_record(bytes: &[u8; 36]) -> bool {
    bytes[0] == 1 && bytes[1..34] == FIRST_RECORD[0..33]
}

#[test]
fn forty_two_bytes_of_a_new_log_become_seventy_five(rt: HostRuntime) -> Result<(), Fail> {
    let alloc = rt.alloc();
    let mut device = new_log(alloc, 0, None)?;
    let mut end = first_end();
    let body = build(alloc, &no_changes(alloc, 1))?;
    assert_eq!(rt; append(&mut device, &mut end, &body), Ok(()));
    assert_eq!(rt;
        end,
        LogEnd {
            file: Which::LogA,
            at: 74
        }
    );
    let mut bytes = [9; 36];
    assert_eq!(rt; read_log(&mut device, &mut bytes), Some(34));
    assert!(rt; is_first_record(&bytes));
    Ok(())
}

#[test]
fn a_second_sync_that_fails_is_a_doubt_that_settles_with_yes(rt: HostRuntime) -> Result<(), Fail> {
    let alloc = rt.alloc();
    let mut device = new_log(alloc, 2, None)?;
    let mut end = first_end();
    let body = build(alloc, &no_changes(alloc, 1))?;
    let Err(AppendEnd::Doubt) = append(&mut device, &mut end, &body) else {
        return Err(NoMemory.into());
    };
    assert_eq!(rt; end.at, 41);
    assert_eq!(rt; settle(&mut device, &mut end, &body).ok(), Some(true));
    assert_eq!(rt; end.at, 74);
    let mut bytes = [9; 36];
    assert_eq!(rt; read_log(&mut device, &mut bytes), Some(34));
    assert!(rt; is_first_record(&bytes));
    Ok(())
}

#[test]
fn an_append_that_failed_may_be_tried_again(rt: HostRuntime) -> Result<(), Fail> {
    let alloc = rt.alloc();
    let mut device = new_log(alloc, 1, None)?;
    let mut end = first_end();
    let body = build(alloc, &no_changes(alloc, 1))?;
    let Err(AppendEnd::Failed) = append(&mut device, &mut end, &body) else {
        return Err(NoMemory.into());
    };
    assert_eq!(rt; append(&mut device, &mut end, &body), Ok(()));
    let mut bytes = [9; 36];
    assert_eq!(rt; read_log(&mut device, &mut bytes), Some(34));
    assert!(rt; is_first_record(&bytes));
    Ok(())
}

#[test]
fn a_log_is_spent_one_past_its_last_length(rt: HostRuntime) -> Result<(), Fail> {
    let alloc = rt.alloc();
    let folder = Folder::of(format!(in alloc; "no_such_folder")?);
    let mut device = FileDevice::of(&rt, alloc, folder);
    let body = build(alloc, &no_changes(alloc, 1))?;
    for (at, want) in [
        (LONGEST - 34, AppendEnd::Failed),
        (LONGEST - 33, AppendEnd::Spent { number: LONGEST }),
        (LONGEST, AppendEnd::Spent { number: LONGEST }),
        (u64::MAX, AppendEnd::Spent { number: LONGEST }),
    ] {
        let mut end = LogEnd {
            file: Which::LogB,
            at,
        };
        assert_eq!(rt; append(&mut device, &mut end, &body), Err(want));
        assert_eq!(rt; end.at, at);
    }
    assert_eq!(rt; device.faults(), 1);
    Ok(())
}

// A name that is dropped, one that is set, a page that is gone, and one with 4,096 bytes of 7.
fn change_of_each_kind(alloc: Global) -> Result<Change, Fail>
    ensures { IfOk result (λ c. All (λ n. length n.name ≤ 255) c.names) }
{
    let space = Space {
        commit: 3,
        ordinal: 0,
    };
    let entry = DocEntry {
        space,
        clustered: true,
    };
    let names = vec![in alloc;
        LogName {
            name: Str::of(alloc, "a")?,
            entry: None
        },
        LogName {
            name: Str::of(alloc, "b")?,
            entry: Some(entry)
        },
    ]?;
    let mut draft = Draft::zero(alloc)?;
    draft.fill(0, 4096, 7);
    let gone = PageId {
        space: Space {
            commit: 2,
            ordinal: 0,
        },
        number: 1,
    };
    let pages = vec![in alloc;
        PageChange {
            id: gone,
            page: None
        },
        PageChange {
            id: PageId { space, number: 0 },
            page: Some(Page::of(alloc, draft)?)
        },
    ]?;
    Ok(Change {
        commit: 3,
        names: LogNameList::of(names),
        pages: ChangeList::of(pages),
    })
}

// The same record, as the page on the store has it: behind its gate, up to the image.
const WRITTEN: [&str; 12] = [
    "00 00 00 00 00 00 10 61",
    "00 00 00 00 00 00 00 03",
    "00 00 00 00 00 00 00 02",
    "00 01 61",
    "01 01 62",
    "00 00 00 00 00 00 00 03 00 00 00 00 00 00 00 00",
    "01",
    "00 00 00 00 00 00 00 02",
    "00 00 00 00 00 00 00 02 00 00 00 00 00 00 00 00 00 00 00 00 00 00 00 01",
    "00",
    "00 00 00 00 00 00 00 03 00 00 00 00 00 00 00 00 00 00 00 00 00 00 00 00",
    "01",
];

fn push_hex(out: &mut Vec<u8>, line: &str) -> Result<(), Fail> {
    for digits in line.split(' ') {
        out.push(u8::from_str_radix(digits, 16)?)?;
    }
    Ok(())
}

#[test]
fn a_record_has_the_bytes_of_the_page_on_the_store(rt: HostRuntime) -> Result<(), Fail> {
    let alloc = rt.alloc();
    let mut want = Vec::new(alloc);
    for line in WRITTEN {
        push_hex(&mut want, line)?;
    }
    for _ in 0..4096 {
        want.push(7)?;
    }
    want.push(0)?;
    let change = change_of_each_kind(alloc)?;
    let body = build(alloc, &change)?;
    assert!(rt; body.tail() == want.as_slice());
    Ok(())
}
