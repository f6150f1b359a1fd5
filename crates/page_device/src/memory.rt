// What a device in memory keeps of its three files.
ghost use Rattle.std.specs.Prelude.{◌≡◌, ◌+◌, ◌-◌, ◌≤◌, ◌++◌, length, take, drop, replicate, vec_capacity, IfOk, OnOk, OnErr};
ghost use Rattle.page_device.specs.Image.{bytes_of, with_bytes};
ghost use Rattle.page_device.specs.Write.{overlay, filled};
ghost use Rattle.page_device.specs.Device.{Reads};

use crate::device::{LONGEST, Which};
use std::alloc::{AllocError, Global};

/// The three files.
#[derive(Drop)]
pub struct Files {
    pub(crate) slots: Vec<u8>,
    pub(crate) log_a: Vec<u8>,
    pub(crate) log_b: Vec<u8>,
}

impl Files {
    ghost use Rattle.page_device.specs.Memory.{image_of, room_of};

    pub(crate) fn file(&self, which: Which) -> &Vec<u8>
        ensures { result.now.items ≡ bytes_of (image_of self.now) which }
    {
        match which {
            Which::Slots => &self.slots,
            Which::LogA => &self.log_a,
            Which::LogB => &self.log_b,
        }
    }

    fn set(&mut self, which: Which, bytes: Vec<u8>)
        ensures { image_of self.new ≡ with_bytes (image_of self.old) which bytes.items }
    {
        match which {
            Which::Slots => self.slots = bytes,
            Which::LogA => self.log_a = bytes,
            Which::LogB => self.log_b = bytes,
        }
    }

    // Takes the memory that a file of this length needs.
    fn reserve(&mut self, which: Which, long: usize) -> Result<(), AllocError>
        ensures same { image_of self.new ≡ image_of self.old }
        ensures room { OnOk result (long ≤ room_of self.new which) }
    {
        match which {
            Which::Slots => reserve_to(&mut self.slots, long),
            Which::LogA => reserve_to(&mut self.log_a, long),
            Which::LogB => reserve_to(&mut self.log_b, long),
        }
    }

    fn write(&mut self, which: Which, at: usize, bytes: &[u8])
        requires fits { at + length bytes.now ≤ LONGEST }
        requires room { at + length bytes.now ≤ room_of self.old which }
        ensures { image_of self.new ≡ with_bytes (image_of self.old) which (overlay (bytes_of (image_of self.old) which) at bytes.now) }
    {
        match which {
            Which::Slots => write_over(&mut self.slots, at, bytes),
            Which::LogA => write_over(&mut self.log_a, at, bytes),
            Which::LogB => write_over(&mut self.log_b, at, bytes),
        }
    }

    fn fill(&mut self, which: Which, at: usize, count: usize)
        requires fits { at + count ≤ LONGEST }
        requires room { at + count ≤ room_of self.old which }
        ensures { image_of self.new ≡ with_bytes (image_of self.old) which (filled (bytes_of (image_of self.old) which) at count) }
    {
        match which {
            Which::Slots => fill_over(&mut self.slots, at, count),
            Which::LogA => fill_over(&mut self.log_a, at, count),
            Which::LogB => fill_over(&mut self.log_b, at, count),
        }
    }

    pub(crate) fn copy(&self, alloc: Global) -> Result<Files, AllocError>
        ensures { IfOk result (λ f. image_of f ≡ image_of self.now) }
    {
        Ok(Files {
            slots: self.slots.to_vec(alloc)?,
            log_a: self.log_a.to_vec(alloc)?,
            log_b: self.log_b.to_vec(alloc)?,
        })
    }
}

/// What a crash may leave: the unsynced bytes as last synced, as written, or each of them 255.
#[derive(Clone, Copy, Debug, PartialEq, Eq)]
pub enum Pick {
    Old,
    New,
    Ones,
}

/// One entry of the record: a write that was done, or a sync.
#[derive(Drop)]
pub enum Done {
    Wrote {
        file: Which,
        at: u64,
        bytes: Vec<u8>,
    },
    Synced {
        file: Which,
    },
}

/// The files as they are read, as they were last synced, and with each unsynced byte at 255.
#[derive(Drop)]
pub struct Versions {
    pub(crate) now: Files,
    pub(crate) synced: Files,
    pub(crate) ones: Files,
}

impl Versions {
    ghost use Rattle.page_device.specs.Memory.{image_of, held_of_versions, held_after_write, held_after_sync, picked_of};

    /// All of them the same.
    pub(crate) fn of(alloc: Global, files: &Files) -> Result<Versions, AllocError>
        ensures now { IfOk result (λ v. image_of v.now ≡ image_of files.now) }
        ensures synced { IfOk result (λ v. image_of v.synced ≡ image_of files.now) }
        ensures ones { IfOk result (λ v. image_of v.ones ≡ image_of files.now) }
    {
        Ok(Versions {
            now: files.copy(alloc)?,
            synced: files.copy(alloc)?,
            ones: files.copy(alloc)?,
        })
    }

    /// A write, or nothing where the memory for it is refused.
    pub(crate) fn write(&mut self, file: Which, at: usize, bytes: &[u8]) -> Result<(), AllocError>
        requires { at + length bytes.now ≤ LONGEST }
        ensures ok { OnOk result (held_of_versions self.new ≡ held_after_write (held_of_versions self.old) file at bytes.now) }
        ensures err { OnErr result (held_of_versions self.new ≡ held_of_versions self.old) }
    {
        let end = at + bytes.len();
        self.now.reserve(file, end)?;
        self.ones.reserve(file, end)?;
        self.now.write(file, at, bytes);
        self.ones.fill(file, at, bytes.len());
        Ok(())
    }

    /// A sync, or nothing where the memory for it is refused.
    pub(crate) fn sync(&mut self, alloc: Global, file: Which) -> Result<(), AllocError>
        ensures ok { OnOk result (held_of_versions self.new ≡ held_after_sync (held_of_versions self.old) file) }
        ensures err { OnErr result (held_of_versions self.new ≡ held_of_versions self.old) }
    {
        let synced = self.now.file(file).to_vec(alloc)?;
        let ones = self.now.file(file).to_vec(alloc)?;
        self.synced.set(file, synced);
        self.ones.set(file, ones);
        Ok(())
    }

    /// The version that is picked.
    pub(crate) fn pick(self, pick: Pick) -> Files
        ensures { image_of result ≡ picked_of (held_of_versions self) pick }
    {
        let Versions { now, synced, ones } = self;
        match pick {
            Pick::Old => synced,
            Pick::New => now,
            Pick::Ones => ones,
        }
    }
}

fn reserve_to(file: &mut Vec<u8>, long: usize) -> Result<(), AllocError>
    ensures same { file.new.items ≡ file.old.items }
    ensures room { OnOk result (long ≤ vec_capacity file.new) }
{
    file.reserve(long.saturating_sub(file.len()))
}

// Writes over what is there and past the end, where there is room.
fn write_over(file: &mut Vec<u8>, at: usize, bytes: &[u8])
    requires fits { at + length bytes.now ≤ LONGEST }
    requires room { at + length bytes.now ≤ vec_capacity file.old }
    ensures { file.new.items ≡ overlay file.old.items at bytes.now }
{
    if bytes.is_empty() {
        return;
    }
    grow(file, at + bytes.len(), 0);
    put(file.as_mut_slice(), at, bytes);
}

fn put(file: &mut [u8], at: usize, bytes: &[u8])
    requires { at + length bytes.now ≤ length file.old }
    ensures { file.new ≡ take at file.old ++ bytes.now ++ drop (at + length bytes.now) file.old }
{
    file[at..at + bytes.len()].copy_from_slice(bytes);
}

// The same, with each byte of the range and of the gap before it at 255.
fn fill_over(file: &mut Vec<u8>, at: usize, count: usize)
    requires fits { at + count ≤ LONGEST }
    requires room { at + count ≤ vec_capacity file.old }
    ensures { file.new.items ≡ filled file.old.items at count }
{
    if count == 0 {
        return;
    }
    grow(file, at + count, 255);
    fill(file.as_mut_slice(), at, count);
}

fn fill(file: &mut [u8], at: usize, count: usize)
    requires { at + count ≤ length file.old }
    ensures { file.new ≡ take at file.old ++ replicate count 255 ++ drop (at + count) file.old }
{
    file[at..at + count].fill(255);
}

// Makes a shorter file this long, where there is room.
fn grow(file: &mut Vec<u8>, long: usize, byte: u8)
    requires { long ≤ vec_capacity file.old }
    ensures { file.new.items ≡ file.old.items ++ replicate (long - length file.old.items) byte }
{
    if file.len() < long {
        let grown = file.resize(long, byte);
        let Ok(()) = grown else { unreachable!() };
    }
}

/// Reads from a place on to the front of a buffer.
pub(crate) fn read_into(file: &[u8], at: usize, into: &mut [u8]) -> usize
    ensures within { result ≤ length into.old }
    ensures read { Reads file.now at into.new result }
{
    if at >= file.len() {
        return 0;
    }
    let count = into.len().min(file.len() - at);
    into[..count].copy_from_slice(&file[at..at + count]);
    count
}
