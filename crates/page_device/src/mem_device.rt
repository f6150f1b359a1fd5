// The device over files in memory.
ghost use Rattle.std.specs.Prelude.{◌≡◌, ◌++◌, [], ◌∷◌, ◌≤◌, ◌+◌, ◌↔◌, length, OnOk, OnErr, IfOk, IfSome, IsErr, IsSome, Some, None, is_some, List};
ghost use Rattle.page_device.specs.Image.{Image, bytes_of, with_bytes, IsBounded, SameOthers};
ghost use Rattle.page_device.specs.Write.{overlay};
ghost use Rattle.page_device.specs.Device.{Reads, TornIn, TornImage, Follows, Same, Shrinks, KeepsOthers, FileIs, Elapses, HasCause, Rose};
ghost use Rattle.page_device.specs.Memory.{Held, Disk, image_of, held_of, held_by, disk_after, now_of, opened, picked, held_after_sync, Writes, after_write, after_sync};
ghost use Rattle.page_device.specs.Plan.{Fails, passed, new_plan};
ghost use Rattle.page_device.specs.declared.memory.Done.TheVariants.{Wrote, Synced};

use crate::device::{Device, Failed, LONGEST, Which};
use crate::memory::{Done, Files, Pick, Versions, read_into};
use crate::plan::{CallKind, FailList, Plan};
use std::alloc::{AllocError, Global};

/// Three files in memory, with a record of all writes and syncs, from which the images at each moment follow.
#[derive(Drop)]
pub struct MemDevice {
    alloc: Global,
    // what the files held at first, all of it synced
    first: Files,
    // nothing before the first write
    versions: Option<Versions>,
    done: Vec<Done>,
    plan: Plan,
    failed: u64,
    ghost held: { held_of first versions ≡ held_by (disk_after (image_of first) done.items) },
    ghost bounded: { IsBounded (now_of (disk_after (image_of first) done.items)) },
}

impl MemDevice {
    ghost use Rattle.page_device.specs.MemDevice.{disk_of, plan_of, faults_of, MayLeave};

    /// Files with these bytes, all of them synced. The calls of `fails` fail, and with `stop` all calls but `faults` that
    /// come after so many of them.
    pub fn of(
        alloc: Global,
        slots: Vec<u8>,
        log_a: Vec<u8>,
        log_b: Vec<u8>,
        fails: FailList,
        stop: Option<u64>,
    ) -> MemDevice
        requires slots { length slots.items ≤ LONGEST }
        requires log_a { length log_a.items ≤ LONGEST }
        requires log_b { length log_b.items ≤ LONGEST }
        ensures disk { disk_of result ≡ opened (record { slots = slots.items; log_a = log_a.items; log_b = log_b.items }) }
        ensures plan { plan_of result ≡ new_plan fails stop }
        ensures faults { faults_of result ≡ 0 }
    {
        let first = Files {
            slots,
            log_a,
            log_b,
        };
        MemDevice {
            alloc,
            first,
            versions: None,
            done: Vec::new(alloc),
            plan: Plan::of(fails, stop),
            failed: 0,
        }
    }

    fn fail(&mut self) -> Failed
        ensures same { (self.new.first ≡ self.old.first) × (self.new.done ≡ self.old.done) }
        ensures plan { plan_of self.new ≡ plan_of self.old }
        ensures rose { (self.old.failed ≤ self.new.failed) × Rose self.old.failed self.new.failed }
    {
        self.failed = self.failed.saturating_add(1);
        Failed
    }

    // Counts the call, and fails where the plan says so.
    fn begin(&mut self, kind: CallKind) -> Result<(), Failed>
        ensures same { (self.new.first ≡ self.old.first) × (self.new.done ≡ self.old.done) }
        ensures plan { plan_of self.new ≡ passed kind (plan_of self.old) }
        ensures planned { IsErr result ↔ Fails kind (plan_of self.old) }
        ensures faults { OnOk result (self.new.failed ≡ self.old.failed) }
        ensures cause { HasCause self.old.failed self.new.failed result }
    {
        if self.plan.pass(kind) {
            return Err(self.fail());
        }
        Ok(())
    }

    /// What a crash leaves, as a device that is synced and does not fail: the unsynced bytes as last synced, as written, or
    /// each of them 255.
    pub fn crash(self, pick: Pick) -> MemDevice
        ensures image { MayLeave self (picked (disk_of self) pick) }
        ensures disk { disk_of result ≡ opened (picked (disk_of self) pick) }
        ensures plan { plan_of result ≡ new_plan [] None }
        ensures faults { faults_of result ≡ 0 }
    {
        let MemDevice {
            alloc,
            first,
            versions,
            done: _,
            plan: _,
            failed: _,
        } = self;
        let Files {
            slots,
            log_a,
            log_b,
        } = match versions {
            Some(versions) => versions.pick(pick),
            None => first,
        };
        MemDevice::of(
            alloc,
            slots,
            log_a,
            log_b,
            FailList::of(Vec::new(alloc)),
            None,
        )
    }

    // The files as they are read.
    fn now(&self) -> &Files
        ensures { image_of result.now ≡ now_of (disk_of self.now) }
    {
        match &self.versions {
            Some(versions) => &versions.now,
            None => &self.first,
        }
    }

    // Makes the versions before the first write.
    fn make_versions(&mut self) -> Result<(), AllocError>
        ensures same { (self.new.first ≡ self.old.first) × (self.new.done ≡ self.old.done) }
        ensures plan { (self.new.plan ≡ self.old.plan) × (self.new.failed ≡ self.old.failed) }
        ensures made { OnOk result (IsSome self.new.versions) }
    {
        if self.versions.is_none() {
            self.versions = Some(Versions::of(self.alloc, &self.first)?);
        }
        Ok(())
    }

    // Does a write and records it, or nothing where the memory for it is refused.
    fn record_write(&mut self, file: Which, at: usize, bytes: &[u8]) -> Result<(), AllocError>
        requires { at + length bytes.now ≤ LONGEST }
        ensures first { self.new.first ≡ self.old.first }
        ensures plan { (self.new.plan ≡ self.old.plan) × (self.new.failed ≡ self.old.failed) }
        ensures ok { OnOk result (Writes file at bytes.now self.old.done.items self.new.done.items) }
        ensures err { OnErr result (self.new.done.items ≡ self.old.done.items) }
    {
        self.make_versions()?;
        let copy = bytes.to_vec(self.alloc)?;
        self.done.reserve(1)?;
        let Some(versions) = &mut self.versions else {
            unreachable!()
        };
        versions.write(file, at, bytes)?;
        self.done.push_reserved(Done::Wrote {
            file,
            at: at as u64,
            bytes: copy,
        });
        Ok(())
    }

    // Does a sync and records it, or nothing where the memory for it is refused.
    fn record_sync(&mut self, file: Which) -> Result<(), AllocError>
        ensures first { self.new.first ≡ self.old.first }
        ensures plan { (self.new.plan ≡ self.old.plan) × (self.new.failed ≡ self.old.failed) }
        ensures ok { OnOk result (self.new.done.items ≡ self.old.done.items ++ Synced file ∷ []) }
        ensures err { OnErr result (self.new.done.items ≡ self.old.done.items) }
    {
        self.done.reserve(1)?;
        sync_versions(self.alloc, &self.first, &mut self.versions, file)?;
        self.done.push_reserved(Done::Synced { file });
        Ok(())
    }
}

impl MemDevice {
    ghost use Rattle.page_device.specs.MemDevice.{plan_of};

    fn try_write(&mut self, file: Which, at: u64, bytes: &[u8]) -> Result<(), Failed>
        requires { at + length bytes.now ≤ LONGEST }
        ensures first { self.new.first ≡ self.old.first }
        ensures ok { OnOk result (Writes file at bytes.now self.old.done.items self.new.done.items) }
        ensures err { OnErr result (self.new.done.items ≡ self.old.done.items) }
        ensures plan { plan_of self.new ≡ passed CallKind.Write (plan_of self.old) }
        ensures planned { Fails CallKind.Write (plan_of self.old) → IsErr result }
        ensures faults { OnOk result (self.new.failed ≡ self.old.failed) }
        ensures cause { HasCause self.old.failed self.new.failed result }
    {
        self.begin(CallKind::Write)?;
        let Ok(()) = self.record_write(file, at as usize, bytes) else {
            return Err(self.fail());
        };
        Ok(())
    }

    fn try_sync(&mut self, file: Which) -> Result<(), Failed>
        ensures first { self.new.first ≡ self.old.first }
        ensures ok { OnOk result (self.new.done.items ≡ self.old.done.items ++ Synced file ∷ []) }
        ensures err { OnErr result (self.new.done.items ≡ self.old.done.items) }
        ensures plan { plan_of self.new ≡ passed CallKind.Sync (plan_of self.old) }
        ensures planned { Fails CallKind.Sync (plan_of self.old) → IsErr result }
        ensures faults { OnOk result (self.new.failed ≡ self.old.failed) }
        ensures cause { HasCause self.old.failed self.new.failed result }
    {
        self.begin(CallKind::Sync)?;
        let Ok(()) = self.record_sync(file) else {
            return Err(self.fail());
        };
        Ok(())
    }
}

impl Device for MemDevice {
    ghost use Rattle.page_device.specs.MemDevice.{contents_of, MayLeave, moment_of, LeftSince, faults_of, disk_of, plan_of};
    ghost use Rattle.page_device.specs.Memory.{image_of};
    ghost use Rattle.page_device.specs.MemoryLaws.{told_image, counts_now_of, only_now_of, later_less_of, bounded_of};

    ghost contents = { contents_of };

    ghost may_leave = { MayLeave };

    ghost moment = { moment_of };

    ghost left_since = { LeftSince };

    ghost failures = { faults_of };

    ghost told_now = { λ m c is. told_image (image_of m.first) m.done.items c is };

    ghost counts_now = { λ m t c le now. counts_now_of (image_of m.first) m.done.items t c le now };

    ghost only_now = { λ m c was. only_now_of (image_of m.first) m.done.items c was };

    ghost later_less = { λ m t u c le was. later_less_of (image_of m.first) m.done.items t u c le was };

    ghost bounded = { λ m t c was. bounded_of (image_of m.first) m.done.items t c m.bounded was };

    // It fails exactly where the plan says so.
    fn read(&mut self, file: Which, at: u64, into: &mut [u8]) -> Result<usize, Failed>
        requires { at + length into.old ≤ LONGEST }
        ensures planned { IsErr result ↔ Fails CallKind.Read (plan_of self.old) }
        ensures plan { plan_of self.new ≡ passed CallKind.Read (plan_of self.old) }
        ensures disk { disk_of self.new ≡ disk_of self.old }
        ensures within { IfOk result (λ n. n ≤ length into.old) }
        ensures bytes { IfOk result (λ n. IfSome (contents_of self.old) (λ c. Reads (bytes_of c file) at into.new n)) }
        ensures contents { contents_of self.new ≡ contents_of self.old }
        ensures crash { Same (MayLeave self.old) (MayLeave self.new) }
        ensures time { Elapses (moment_of self.old) (moment_of self.new) (LeftSince self.old) (LeftSince self.new) (MayLeave self.new) }
        ensures faults { OnOk result (faults_of self.new ≡ faults_of self.old) }
        ensures cause { HasCause (faults_of self.old) (faults_of self.new) result }
    {
        self.begin(CallKind::Read)?;
        Ok(read_into(self.now().file(file), at as usize, into))
    }

    // It fails where the plan says so, and else only where memory is refused, and then does nothing.
    fn write_at(&mut self, file: Which, at: u64, bytes: &[u8]) -> Result<(), Failed>
        requires { at + length bytes.now ≤ LONGEST }
        ensures planned { Fails CallKind.Write (plan_of self.old) → IsErr result }
        ensures plan { plan_of self.new ≡ passed CallKind.Write (plan_of self.old) }
        ensures done { OnOk result (disk_of self.new ≡ after_write (disk_of self.old) file at bytes.now) }
        ensures stays { OnErr result (disk_of self.new ≡ disk_of self.old) }
        ensures written { OnOk result (IfSome (contents_of self.old) (λ c. contents_of self.new ≡ Some (with_bytes c file (overlay (bytes_of c file) at bytes.now)))) }
        ensures torn { OnErr result (IfSome (contents_of self.old) (λ c. (d : Image) × (contents_of self.new ≡ Some d) × TornIn file at (length bytes.now) c d)) }
        ensures told { is_some (contents_of self.new) ≡ is_some (contents_of self.old) }
        ensures crash { Follows (TornImage file at (length bytes.now) (contents_of self.new)) (MayLeave self.old) (MayLeave self.new) }
        ensures others { KeepsOthers file (MayLeave self.old) (MayLeave self.new) }
        ensures time { Elapses (moment_of self.old) (moment_of self.new) (LeftSince self.old) (LeftSince self.new) (MayLeave self.new) }
        ensures faults { OnOk result (faults_of self.new ≡ faults_of self.old) }
        ensures cause { HasCause (faults_of self.old) (faults_of self.new) result }
    {
        self.try_write(file, at, bytes)
    }

    // It fails where the plan says so, and else only where memory is refused, and then does nothing.
    fn sync(&mut self, file: Which) -> Result<(), Failed>
        ensures planned { Fails CallKind.Sync (plan_of self.old) → IsErr result }
        ensures plan { plan_of self.new ≡ passed CallKind.Sync (plan_of self.old) }
        ensures done { OnOk result (disk_of self.new ≡ after_sync (disk_of self.old) file) }
        ensures stays { OnErr result (disk_of self.new ≡ disk_of self.old) }
        ensures durable { OnOk result (IfSome (contents_of self.old) (λ c. FileIs file (bytes_of c file) (MayLeave self.new))) }
        ensures contents { OnOk result (contents_of self.new ≡ contents_of self.old) }
        ensures failed { OnErr result (IfSome (contents_of self.old) (λ c. (d : Image) × (contents_of self.new ≡ Some d) × SameOthers file c d)) }
        ensures told { is_some (contents_of self.new) ≡ is_some (contents_of self.old) }
        ensures crash { Shrinks (MayLeave self.old) (MayLeave self.new) }
        ensures others { KeepsOthers file (MayLeave self.old) (MayLeave self.new) }
        ensures time { Elapses (moment_of self.old) (moment_of self.new) (LeftSince self.old) (LeftSince self.new) (MayLeave self.new) }
        ensures faults { OnOk result (faults_of self.new ≡ faults_of self.old) }
        ensures cause { HasCause (faults_of self.old) (faults_of self.new) result }
    {
        self.try_sync(file)
    }

    // It fails exactly where the plan says so.
    fn len(&mut self, file: Which) -> Result<u64, Failed>
        ensures planned { IsErr result ↔ Fails CallKind.Len (plan_of self.old) }
        ensures plan { plan_of self.new ≡ passed CallKind.Len (plan_of self.old) }
        ensures disk { disk_of self.new ≡ disk_of self.old }
        ensures within { IfOk result (λ n. n ≤ LONGEST) }
        ensures length { IfOk result (λ n. IfSome (contents_of self.old) (λ c. n ≡ length (bytes_of c file))) }
        ensures contents { contents_of self.new ≡ contents_of self.old }
        ensures crash { Same (MayLeave self.old) (MayLeave self.new) }
        ensures time { Elapses (moment_of self.old) (moment_of self.new) (LeftSince self.old) (LeftSince self.new) (MayLeave self.new) }
        ensures faults { OnOk result (faults_of self.new ≡ faults_of self.old) }
        ensures cause { HasCause (faults_of self.old) (faults_of self.new) result }
    {
        self.begin(CallKind::Len)?;
        Ok(self.now().file(file).len() as u64)
    }

    fn faults(&self) -> u64 {
        self.failed
    }
}

// A sync of the versions, where there are any.
fn sync_versions(
    alloc: Global,
    first: &Files,
    versions: &mut Option<Versions>,
    file: Which,
) -> Result<(), AllocError>
    ensures ok { OnOk result (held_of first.now versions.new ≡ held_after_sync (held_of first.now versions.old) file) }
    ensures err { OnErr result (held_of first.now versions.new ≡ held_of first.now versions.old) }
{
    let _ = &first.slots;
    match versions {
        Some(versions) => versions.sync(alloc, file),
        None => Ok(()),
    }
}
