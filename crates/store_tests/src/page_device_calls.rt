// The device in memory and over files: what it fails at, and what a crash leaves.
ghost use Rattle.std.specs.Prelude.{IfOk, IfSome};
ghost use Rattle.page_device.specs.MemDevice.{contents_of, MayLeave};
ghost use Rattle.page_device.specs.Gate.{IsAtRest};

use page_device::{
    CallKind, Device, Fail as Planned, FailList, FileDevice, GateEnd, MemDevice, Pick, Str, Which,
    settle_gate, write_and_sync, write_behind_gate,
};
use std::alloc::{AllocError, Global};
use std::fs;
use std::test::Fail;

const FOLDER: &str = "page_device_test";

fn is_send<T: Send>(_: &T) {}

// Six synced bytes of slots, and then writes that overlap, grow the file and leave a gap.
fn unsynced(alloc: Global) -> Result<MemDevice, AllocError> {
    let slots = vec![in alloc; 1, 2, 3, 4, 5, 6]?;
    let log = vec![in alloc; 0]?;
    let fails = FailList::of(Vec::new(alloc));
    let mut device = MemDevice::of(alloc, slots, log, Vec::new(alloc), fails, None);
    for (at, bytes) in [(2, [7, 7]), (3, [8, 8]), (9, [9, 9])] {
        let _ = device.write_at(Which::Slots, at, &bytes);
    }
    let _ = device.write_at(Which::LogA, 0, &[1]);
    let _ = device.sync(Which::LogA);
    Ok(device)
}

#[test]
fn each_pick_leaves_its_image(rt: HostRuntime) -> Result<(), Fail> {
    let alloc = rt.alloc();
    let cases = [
        (Pick::Old, [1, 2, 3, 4, 5, 6, 50, 50, 50, 50, 50], 6),
        (Pick::New, [1, 2, 7, 8, 8, 6, 0, 0, 0, 9, 9], 11),
        (
            Pick::Ones,
            [1, 2, 255, 255, 255, 6, 255, 255, 255, 255, 255],
            11,
        ),
    ];
    for (pick, want, long) in cases {
        let device = unsynced(alloc)?;
        is_send(&device);
        let mut left = device.crash(pick);
        let mut bytes = [50; 11];
        assert_eq!(rt; left.len(Which::Slots).ok(), Some(long));
        assert_eq!(rt;
            left.read(Which::Slots, 0, &mut bytes).ok(),
            Some(long as usize)
        );
        assert_eq!(rt; bytes, want);
        let mut gate = [50; 2];
        assert_eq!(rt; left.read(Which::LogA, 0, &mut gate).ok(), Some(1));
        assert_eq!(rt; gate, [1, 50]);
        assert_eq!(rt; left.faults(), 0);
    }
    Ok(())
}

#[test]
fn calls_fail_by_kind_and_number(rt: HostRuntime) -> Result<(), Fail> {
    let alloc = rt.alloc();
    let fails = vec![in alloc;
        Planned {
            kind: CallKind::Write,
            number: 2
        },
        Planned {
            kind: CallKind::Sync,
            number: 1
        },
        Planned {
            kind: CallKind::Read,
            number: 2
        },
        Planned {
            kind: CallKind::Len,
            number: 1
        },
    ]?;
    let mut device = MemDevice::of(
        alloc,
        Vec::new(alloc),
        Vec::new(alloc),
        Vec::new(alloc),
        FailList::of(fails),
        None,
    );
    let mut bytes = [0; 4];
    assert!(rt; device.write_at(Which::LogB, 0, &[1, 2]).is_ok());
    assert!(rt; device.write_at(Which::LogB, 0, &[3, 3, 3]).is_err());
    assert!(rt; device.sync(Which::LogB).is_err());
    assert!(rt; device.len(Which::LogB).is_err());
    assert_eq!(rt; device.faults(), 3);
    assert_eq!(rt; device.len(Which::LogB).ok(), Some(2));
    assert_eq!(rt; device.read(Which::LogB, 1, &mut bytes).ok(), Some(1));
    assert_eq!(rt; bytes, [2, 0, 0, 0]);
    assert!(rt; device.read(Which::LogB, 0, &mut bytes).is_err());
    assert!(rt; device.sync(Which::LogB).is_ok());
    assert_eq!(rt; device.faults(), 4);
    Ok(())
}

#[test]
fn no_call_succeeds_after_the_stop(rt: HostRuntime) -> Result<(), Fail> {
    let alloc = rt.alloc();
    let fails = FailList::of(Vec::new(alloc));
    assert_eq!(rt; fails.into_vec().len(), 0);
    let fails = FailList::of(Vec::new(alloc));
    let mut device = MemDevice::of(
        alloc,
        Vec::new(alloc),
        Vec::new(alloc),
        Vec::new(alloc),
        fails,
        Some(3),
    );
    assert!(rt; write_and_sync(&mut device, Which::Slots, 0, &[1]).is_ok());
    assert!(rt; device.len(Which::Slots).is_ok());
    let mut byte = [0];
    assert!(rt; device.read(Which::Slots, 0, &mut byte).is_err());
    assert!(rt; device.write_at(Which::LogA, 0, &[1]).is_err());
    assert!(rt; device.sync(Which::LogA).is_err());
    assert!(rt; device.len(Which::LogA).is_err());
    assert_eq!(rt; device.faults(), 4);
    Ok(())
}

#[test]
fn a_folder_keeps_its_files(rt: HostRuntime) -> Result<(), Fail> {
    let alloc = rt.alloc();
    let _ = fs::remove_dir_all(&rt, FOLDER);
    let folder = format!(in alloc; "{FOLDER}")?;
    let mut missing = FileDevice::of(&rt, alloc, Str::of(folder.clone()?));
    assert!(rt; missing.sync(Which::Slots).is_err());
    assert_eq!(rt; missing.faults(), 1);
    fs::create_dir(&rt, FOLDER)?;
    let mut device = FileDevice::of(&rt, alloc, Str::of(folder.clone()?));
    is_send(&device);
    assert_eq!(rt; device.len(Which::LogB).ok(), Some(0));
    assert!(rt; write_and_sync(&mut device, Which::LogA, 3, &[7, 8]).is_ok());
    assert!(rt; missing.len(Which::Slots).is_err());
    assert_eq!(rt; device.faults(), 0);
    drop(device);
    let text = Str::of(folder);
    assert_eq!(rt; text.as_str(), FOLDER);
    let mut device = FileDevice::of(&rt, alloc, Str::of(text.into_string()));
    let mut bytes = [9; 8];
    assert_eq!(rt; device.read(Which::LogA, 1, &mut bytes).ok(), Some(4));
    assert_eq!(rt; bytes, [0, 0, 7, 8, 9, 9, 9, 9]);
    assert_eq!(rt; device.read(Which::Slots, 0, &mut bytes).ok(), Some(0));
    assert_eq!(rt; fs::metadata(&rt, "page_device_test/loga.xdb")?.len(), 5);
    fs::remove_dir_all(&rt, FOLDER)?;
    Ok(())
}

// A log that is one closed gate, on a device whose sync of this number fails.
fn one_gate(alloc: Global, sync: u64) -> Result<MemDevice, AllocError>
    ensures { IfOk result (λ m. IfSome (contents_of m) (λ c. IsAtRest Which.LogA 0 c (MayLeave m))) }
{
    let log = vec![in alloc; 0]?;
    let fails = vec![in alloc;
        Planned {
            kind: CallKind::Sync,
            number: sync
        },
    ]?;
    Ok(MemDevice::of(
        alloc,
        Vec::new(alloc),
        log,
        Vec::new(alloc),
        FailList::of(fails),
        None,
    ))
}

#[test]
fn a_body_is_written_behind_its_gate(rt: HostRuntime) -> Result<(), Fail> {
    let alloc = rt.alloc();
    for (sync, want, open) in [
        (0, Ok(()), true),
        (1, Err(GateEnd::Failed), false),
        (2, Err(GateEnd::Doubt), true),
    ] {
        let mut device = one_gate(alloc, sync)?;
        assert_eq!(rt;
            write_behind_gate(&mut device, Which::LogA, 0, &[7, 0]),
            want
        );
        assert_eq!(rt; settle_gate(&mut device, Which::LogA, 0).ok(), Some(open));
        let mut bytes = [9; 4];
        assert_eq!(rt; device.read(Which::LogA, 0, &mut bytes).ok(), Some(3));
        assert_eq!(rt; bytes, [if open { 1 } else { 0 }, 7, 0, 9]);
    }
    Ok(())
}
