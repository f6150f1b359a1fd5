// Checkpoints: a crash at each device call, with a snapshot open and twice in a row; a head in doubt; where generations end.
ghost use Rattle.std.specs.Prelude.{◌≡◌, ◌≤◌, All, IfOk, None, length, true};

mod quiet;
mod store;

use page_bytes::{DocEntry, NoMemory};
use page_device::{CallKind, Device, Fail as Planned, FailList, MemDevice, Pick, Which};
use quiet::Quiet;
use redo_log::{LogName, LogNameList};
use slot_store::{CheckEnd, Log, PageTable, SlotState, checkpoint, settle_head};
use std::alloc::{AllocError, Global};
use std::test::Fail;
use store::{Mark, Store, id};
use xq_ast::{SpentKind, Str};

// The log of a new store: its gate, its head of generation 1, commit 0 and empty tables, and the first record's gate.
const NEW_LOG: [u8; 42] = [
    1, 88, 68, 66, 76, 79, 71, 48, 49, 0, 0, 0, 0, 0, 0, 0, 1, 0, 0, 0, 0, 0, 0, 0, 0, 0, 0, 0, 0,
    0, 0, 0, 0, 0, 0, 0, 0, 0, 0, 0, 0, 0,
];

// The files of a new store, which fail at these calls, and at all after so many.
fn new_device(alloc: Global, fails: FailList, stop: Option<u64>) -> Result<Quiet, AllocError> {
    let log = Vec::from_slice(alloc, &NEW_LOG)?;
    let other = vec![in alloc; 0]?;
    let device = MemDevice::of(alloc, Vec::new(alloc), log, other, fails, stop);
    Ok(Quiet { device })
}

fn state_of(alloc: Global, generation: u64) -> SlotState
    ensures doubt { result.doubt ≡ None }
    ensures generation { result.generation ≡ generation }
{
    SlotState {
        log: Log::A,
        generation,
        table: PageTable::new(alloc),
        doubt: None,
    }
}

// The catalogue of one flat document.
fn catalogue(alloc: Global) -> Result<LogNameList, Fail>
    ensures { IfOk result (λ l. All (λ n. length n.name ≤ 255) l) }
{
    let entry = DocEntry {
        space: id(0).space,
        clustered: false,
    };
    let names = vec![in alloc;
        LogName {
            name: Str::of(alloc, "a")?,
            entry: Some(entry)
        },
    ]?;
    Ok(LogNameList::of(names))
}

// Whether a checkpoint of the newest commit is done.
fn is_done(
    alloc: Global,
    device: &mut Quiet,
    state: &mut SlotState,
    store: &Store,
) -> Result<bool, Fail>
    requires { state.old.doubt ≡ None }
    ensures { IfOk result (λ done. done ≡ true → state.new.doubt ≡ None) }
{
    let names = catalogue(alloc)?;
    let mut plan = store.plan(alloc, state, &names)?;
    match checkpoint(device, state, &mut plan) {
        Ok(()) => Ok(true),
        Err(_) => Ok(false),
    }
}

const FIRST: [Mark; 2] = [Mark { page: 0, byte: 1 }, Mark { page: 1, byte: 2 }];

const SECOND: [Mark; 1] = [Mark { page: 0, byte: 3 }];

// How many of two checkpoints are done, with a snapshot of the first commit open.
fn count_done(alloc: Global, device: &mut Quiet) -> Result<usize, Fail> {
    let mut store = Store::new(alloc);
    let mut state = state_of(alloc, 1);
    store.commit(alloc, &FIRST)?;
    let _key = store.open()?;
    if !is_done(alloc, device, &mut state, &store)? {
        return Ok(0);
    }
    store.commit(alloc, &SECOND)?;
    if !is_done(alloc, device, &mut state, &store)? {
        return Ok(1);
    }
    Ok(2)
}

// A head whose gate is open: the last byte of its generation, of the number of its pages, and of the slots of two.
#[derive(Clone, Copy)]
struct Found {
    generation: u8,
    pages: u8,
    slots: [u8; 2],
}

fn head_in(device: &mut MemDevice, file: Which) -> Option<Found> {
    let mut bytes = [0; 124];
    let _count = device.read(file, 0, &mut bytes).ok()?;
    if bytes[0] != 1 {
        return None;
    }
    Some(Found {
        generation: bytes[16],
        pages: bytes[40],
        slots: [bytes[91], bytes[123]],
    })
}

fn later(first: Option<Found>, second: Option<Found>) -> Option<Found> {
    match (first, second) {
        (Some(a), Some(b)) if a.generation < b.generation => Some(b),
        (Some(a), _) => Some(a),
        (None, b) => b,
    }
}

fn byte_in(device: &mut MemDevice, slot: u8) -> Option<u8> {
    let mut byte = [0];
    let _count = device
        .read(Which::Slots, slot as u64 * 4096, &mut byte)
        .ok()?;
    Some(byte[0])
}

// The generation that counts, and the first byte of each page; 0 and 0 of none.
fn counting(device: &mut MemDevice) -> Option<[u8; 3]> {
    let first = head_in(device, Which::LogA);
    let second = head_in(device, Which::LogB);
    let head = later(first, second)?;
    match head.pages {
        0 => Some([head.generation, 0, 0]),
        _ => {
            let [one, two] = head.slots;
            let one = byte_in(device, one)?;
            let two = byte_in(device, two)?;
            Some([head.generation, one, two])
        }
    }
}

// What counts once so many checkpoints are done, and one more.
const COUNTING: [[u8; 3]; 4] = [[1, 0, 0], [2, 1, 2], [3, 3, 2], [3, 3, 2]];

#[test]
fn a_crash_at_each_call_of_two_checkpoints_leaves_one_head_whole(
    rt: HostRuntime,
) -> Result<(), Fail> {
    let alloc = rt.alloc();
    for stop in 0..=24 {
        for pick in [Pick::Old, Pick::New, Pick::Ones] {
            let none = FailList::of(Vec::new(alloc));
            let mut device = new_device(alloc, none, Some(stop))?;
            let count = count_done(alloc, &mut device)?;
            let want = if stop < 11 {
                0
            } else if stop < 24 {
                1
            } else {
                2
            };
            assert_eq!(rt; count, want);
            let Quiet { device } = device;
            let mut left = device.crash(pick);
            let found = counting(&mut left);
            assert!(rt; found == Some(COUNTING[want]) || found == Some(COUNTING[want + 1]));
        }
    }
    Ok(())
}

#[test]
fn a_gates_sync_that_fails_is_a_doubt_that_settles_with_yes(rt: HostRuntime) -> Result<(), Fail> {
    let alloc = rt.alloc();
    let fails = vec![in alloc;
        Planned {
            kind: CallKind::Sync,
            number: 4
        },
    ]?;
    let mut device = new_device(alloc, FailList::of(fails), None)?;
    let mut store = Store::new(alloc);
    let mut state = state_of(alloc, 1);
    store.commit(alloc, &FIRST)?;
    let names = catalogue(alloc)?;
    let mut plan = store.plan(alloc, &state, &names)?;
    let Err(CheckEnd::Doubt) = checkpoint(&mut device, &mut state, &mut plan) else {
        return Err(NoMemory.into());
    };
    assert_eq!(rt; state.generation, 1);
    assert_eq!(rt; settle_head(&mut device, &mut state).ok(), Some(true));
    assert_eq!(rt; state.generation, 2);
    assert_eq!(rt; state.log, Log::B);
    assert_eq!(rt; state.table.slot_of(id(0)), Some(0));
    assert_eq!(rt; state.table.slot_of(id(1)), Some(1));
    assert_eq!(rt; counting(&mut device.device), Some(COUNTING[1]));
    Ok(())
}

#[test]
fn no_generation_comes_after_the_last(rt: HostRuntime) -> Result<(), Fail> {
    let alloc = rt.alloc();
    let none = FailList::of(Vec::new(alloc));
    let mut device = new_device(alloc, none, None)?;
    let mut store = Store::new(alloc);
    let mut state = state_of(alloc, u64::MAX - 1);
    store.commit(alloc, &FIRST)?;
    assert!(rt; is_done(alloc, &mut device, &mut state, &store)?);
    assert_eq!(rt; state.generation, u64::MAX);
    let names = catalogue(alloc)?;
    let mut plan = store.plan(alloc, &state, &names)?;
    assert!(rt; plan.placed().is_empty());
    let want = CheckEnd::Spent {
        kind: SpentKind::Generation,
        number: u64::MAX,
    };
    assert_eq!(rt; checkpoint(&mut device, &mut state, &mut plan), Err(want));
    assert_eq!(rt; state.generation, u64::MAX);
    Ok(())
}
