// What is read of a log, and the first wrong field.
ghost use Rattle.std.specs.Prelude.{◌≡◌, ◌≤◌, IfOk, IfSome, All, length};
ghost use Rattle.page_device.specs.MemDevice.{contents_of, MayLeave};
ghost use Rattle.redo_log.specs.Append.{IsAtRest};

use super::{change_of_each_kind, first_end, new_log};
use page_bytes::{ChangeList, DocEntry, Draft, Page, PageChange, PageId, PageIdList, Space};
use page_device::{Device, FailList, MemDevice, Pick, Which};
use redo_log::{
    Change, LogBase, LogBody, LogEnd, LogName, LogNameList, ScanEnd, append, build, scan,
};
use std::alloc::Global;
use std::test::Fail;
use xq_ast::Str;

fn space(commit: u64) -> Space {
    Space { commit, ordinal: 0 }
}

fn flat(commit: u64) -> Option<DocEntry> {
    Some(DocEntry {
        space: space(commit),
        clustered: false,
    })
}

fn page(commit: u64, number: u64) -> PageId {
    PageId {
        space: space(commit),
        number,
    }
}

// A document that comes with this commit, with one page.
fn arrival(alloc: Global, commit: u64, name: &str) -> Result<Change, Fail>
    requires { length name.now ≤ 255 }
    ensures { IfOk result (λ c. All (λ n. length n.name ≤ 255) c.names) }
{
    let name = Str::of(alloc, name)?;
    let names = vec![in alloc;
        LogName {
            name,
            entry: flat(commit)
        },
    ]?;
    let bytes = Page::of(alloc, Draft::zero(alloc)?)?;
    let pages = vec![in alloc;
        PageChange {
            id: page(commit, 0),
            page: Some(bytes)
        },
    ]?;
    Ok(Change {
        commit,
        names: LogNameList::of(names),
        pages: ChangeList::of(pages),
    })
}

// How many of three appends are acknowledged.
fn acknowledged<D: Device>(device: &mut D, end: &mut LogEnd, bodies: [&LogBody; 3]) -> usize
    requires { IfSome (D.contents device.old) (λ c. IsAtRest end.old c (D.may_leave device.old)) }
{
    let [first, second, third] = bodies;
    let Ok(()) = append(device, end, first) else {
        return 0;
    };
    let Ok(()) = append(device, end, second) else {
        return 1;
    };
    let Ok(()) = append(device, end, third) else {
        return 2;
    };
    3
}

// An empty store before its first commit.
fn empty(alloc: Global) -> LogBase {
    LogBase {
        commit: 0,
        entries: LogNameList::of(Vec::new(alloc)),
        pages: PageIdList::of(Vec::new(alloc)),
    }
}

// How many records a scan finds, where they are the first ones of the three, with their pages.
fn found(alloc: Global, device: &mut MemDevice) -> Option<usize> {
    let scanned = scan(alloc, device, Which::LogA, 41, &empty(alloc)).ok()?;
    for (i, change) in scanned.changes.as_slice().iter().enumerate() {
        let commit = i as u64 + 1;
        if change.commit != commit || change.names.as_slice().len() != 1 {
            return None;
        }
        let [only] = change.pages.as_slice() else {
            return None;
        };
        if only.id != page(commit, 0) || only.page.is_none() {
            return None;
        }
    }
    Some(scanned.changes.as_slice().len())
}

#[test]
fn a_crash_at_each_call_of_three_appends_leaves_those_acknowledged(
    rt: HostRuntime,
) -> Result<(), Fail> {
    let alloc = rt.alloc();
    let first = build(alloc, &arrival(alloc, 1, "a")?)?;
    let second = build(alloc, &arrival(alloc, 2, "b")?)?;
    let third = build(alloc, &arrival(alloc, 3, "c")?)?;
    for stop in 0..=12 {
        for pick in [Pick::Old, Pick::New, Pick::Ones] {
            let mut device = new_log(alloc, 0, Some(stop))?;
            let mut end = first_end();
            let count = acknowledged(&mut device, &mut end, [&first, &second, &third]);
            assert_eq!(rt; count, stop as usize / 4);
            let mut left = device.crash(pick);
            let records = found(alloc, &mut left);
            assert!(rt; records == Some(count) || records == Some(count + 1));
        }
    }
    Ok(())
}

// A store with a document that the record drops, and one that loses a page by it.
fn base(alloc: Global) -> Result<LogBase, Fail> {
    let entries = vec![in alloc;
        LogName {
            name: Str::of(alloc, "a")?,
            entry: flat(1)
        },
        LogName {
            name: Str::of(alloc, "c")?,
            entry: flat(2)
        },
    ]?;
    let pages = vec![in alloc; page(1, 0), page(2, 0), page(2, 1)]?;
    Ok(LogBase {
        commit: 2,
        entries: LogNameList::of(entries),
        pages: PageIdList::of(pages),
    })
}

// A log that is the record alone, behind an open gate.
fn record(alloc: Global) -> Result<Vec<u8>, Fail> {
    let body = build(alloc, &change_of_each_kind(alloc)?)?;
    let mut log = vec![in alloc; 1]?;
    log.extend_from_slice(body.tail())?;
    Ok(log)
}

#[derive(Clone, Copy, Debug, PartialEq, Eq)]
enum Outcome {
    Wrong(u64),
    Records(usize, u64),
    Other,
}

fn scanned_to(alloc: Global, log: Vec<u8>) -> Result<Outcome, Fail> {
    let fails = FailList::of(Vec::new(alloc));
    let mut device = MemDevice::of(alloc, Vec::new(alloc), Vec::new(alloc), log, fails, None);
    Ok(
        match scan(alloc, &mut device, Which::LogB, 0, &base(alloc)?) {
            Ok(scanned) => Outcome::Records(scanned.changes.as_slice().len(), scanned.end.at),
            Err(
                ScanEnd::NotAStore {
                    file: Which::LogB,
                    at,
                },
            ) => Outcome::Wrong(at),
            Err(_) => Outcome::Other,
        },
    )
}

fn with_byte(alloc: Global, at: usize, byte: u8) -> Result<Outcome, Fail> {
    let mut log = record(alloc)?;
    if let Some(place) = log.as_mut_slice().get_mut(at) {
        *place = byte;
    }
    scanned_to(alloc, log)
}

fn cut_off(alloc: Global, long: usize) -> Result<Outcome, Fail> {
    let mut log = record(alloc)?;
    log.truncate(long);
    scanned_to(alloc, log)
}

#[test]
fn a_record_is_read_and_a_closed_one_is_not(rt: HostRuntime) -> Result<(), Fail> {
    let alloc = rt.alloc();
    assert_eq!(rt;
        scanned_to(alloc, record(alloc)?)?,
        Outcome::Records(1, 4202)
    );
    assert_eq!(rt; with_byte(alloc, 0, 0)?, Outcome::Records(0, 0));
    assert_eq!(rt; with_byte(alloc, 0, 255)?, Outcome::Records(0, 0));
    // The name that is dropped comes again, with the new space.
    assert_eq!(rt; with_byte(alloc, 30, b'a')?, Outcome::Records(1, 4202));
    assert_eq!(rt; with_byte(alloc, 4201, 9)?, Outcome::Records(1, 4202));
    Ok(())
}

// A byte of the record's log, what it is instead, and the field that is then wrong.
const WRONG: [(usize, u8, u64); 30] = [
    // The length, the commit, and how many names change.
    (8, 0, 1),
    (1, 1, 1),
    (16, 4, 9),
    (9, 1, 9),
    (24, 3, 49),
    (24, 1, 36),
    // The drop: its kind, its name's length, its name.
    (25, 2, 25),
    (25, 1, 28),
    (26, 0, 26),
    (26, 2, 26),
    (27, b'z', 26),
    (27, b'c', 29),
    // The set: its kind, its name's length, its name, its space and its form.
    (28, 7, 28),
    (28, 0, 29),
    (29, 0, 29),
    (30, b'c', 31),
    (30, 255, 29),
    (30, 31, 29),
    (38, 2, 31),
    (46, 5, 81),
    (47, 2, 47),
    // How many pages change.
    (55, 3, 4202),
    (55, 1, 1),
    // The page that is gone: its space, its number, its kind.
    (63, 9, 56),
    (71, 1, 56),
    (79, 9, 56),
    (79, 0, 56),
    (80, 2, 80),
    (80, 1, 4177),
    // The gate behind the record.
    (4202, 1, 4203),
];

// The page with an image: its space, its number, its kind.
const WRONG_IMAGE: [(usize, u8, u64); 5] = [
    (88, 2, 81),
    (96, 1, 81),
    (104, 1, 29),
    (105, 0, 81),
    (105, 2, 105),
];

#[test]
fn one_wrong_byte_is_named_by_its_field(rt: HostRuntime) -> Result<(), Fail> {
    let alloc = rt.alloc();
    for (at, byte, want) in WRONG {
        assert_eq!(rt;
            with_byte(alloc, at, byte)?,
            Outcome::Wrong(want),
            "at {at}"
        );
    }
    for (at, byte, want) in WRONG_IMAGE {
        assert_eq!(rt;
            with_byte(alloc, at, byte)?,
            Outcome::Wrong(want),
            "at {at}"
        );
    }
    Ok(())
}

// Where the log is cut off, and the field that then runs past the end.
const CUT: [(usize, u64); 26] = [
    (0, 0),
    (1, 1),
    (8, 1),
    (9, 9),
    (16, 9),
    (17, 17),
    (25, 25),
    (26, 26),
    (27, 27),
    (28, 28),
    (30, 30),
    (31, 31),
    (38, 31),
    (39, 39),
    (47, 47),
    (48, 48),
    (56, 56),
    (64, 64),
    (72, 72),
    (80, 80),
    (81, 81),
    (89, 89),
    (105, 105),
    (106, 106),
    (4201, 106),
    (4202, 4202),
];

#[test]
fn a_field_that_runs_past_the_end_is_named(rt: HostRuntime) -> Result<(), Fail> {
    let alloc = rt.alloc();
    for (long, want) in CUT {
        assert_eq!(rt;
            cut_off(alloc, long)?,
            Outcome::Wrong(want),
            "cut at {long}"
        );
    }
    Ok(())
}
