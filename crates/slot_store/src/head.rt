//! Writing a head behind a closed gate, through a buffer of bounded size.
ghost use Rattle.std.specs.Prelude.{◌≡◌, ◌≤◌, ◌+◌, ◌*◌, ◌++◌, ◌∷◌, [], List, ℕ, Some, IfSome, is_some, IfOk, OnOk, length};
ghost use Rattle.std.specs.List.{flat_map};
ghost use Rattle.page_device.specs.Image.{Image, bytes_of};
ghost use Rattle.page_device.specs.Device.{FileIs, HasCause};
ghost use Rattle.page_device.specs.Run.{Each, LeavesOnly};
ghost use Rattle.slot_store.specs.Planned.{placed_bytes};
ghost use Rattle.slot_store.specs.Steps.{From, HasGate, BehindGate, BeginsWith, Stands};

use crate::planning::{BUFFER_BYTES, Placed};
use crate::spelling::{ROW_BYTES, fill_rows};
use page_device::{Device, Failed, LONGEST, Which};

/// Writes a head behind the gate of a file: its front, its rows, the first record's gate as 0. Then syncs the file.
pub fn write_head<D: Device>(
    device: &mut D,
    file: Which,
    front: &[u8],
    rows: &[Placed],
    buffer: &mut [u8],
) -> Result<(), Failed>
    requires fits { length front.now + length rows.now * 32 + 2 ≤ LONGEST }
    requires buffer { length buffer.old ≡ BUFFER_BYTES }
    requires gate { IfSome (D.contents device.old) (HasGate file) }
    ensures buffer { length buffer.new ≡ length buffer.old }
    ensures told { is_some (D.contents device.new) ≡ is_some (D.contents device.old) }
    ensures contents { OnOk result (IfSome (D.contents device.old) (λ c. (d : Image) × (D.contents device.new ≡ Some d) × Stands file ((front.now ++ flat_map placed_bytes rows.now) ++ 0 ∷ []) c d × FileIs file (bytes_of d file) (D.may_leave device.new))) }
    ensures images { Each (D.may_leave device.new) (From (BehindGate file) (D.may_leave device.old)) }
    ensures any_moment { LeavesOnly D.moment D.left_since device.old device.new (From (BehindGate file) (D.may_leave device.old)) }
    ensures cause { HasCause (D.failures device.old) (D.failures device.new) result }
{
    let at = 1 + front.len() as u64;
    put(device, file, 1, front)?;
    let end = write_rows(device, file, at, rows, buffer)?;
    put(device, file, end, &[0])?;
    device.sync(file)
}

// Writes rows from a place on, as many at a time as the buffer holds, and says where they end.
fn write_rows<D: Device>(
    device: &mut D,
    file: Which,
    at: u64,
    rows: &[Placed],
    buffer: &mut [u8],
) -> Result<u64, Failed>
    requires place { 1 ≤ at }
    requires fits { at + length rows.now * 32 ≤ LONGEST }
    requires buffer { length buffer.old ≡ BUFFER_BYTES }
    ensures end { IfOk result (λ end. end ≡ at + length rows.now * 32) }
    ensures buffer { length buffer.new ≡ length buffer.old }
    ensures told { is_some (D.contents device.new) ≡ is_some (D.contents device.old) }
    ensures begins { OnOk result (IfSome (D.contents device.old) (λ c. (front rest : List ℕ) → length front ≡ at → bytes_of c file ≡ front ++ rest → BeginsWith file (front ++ flat_map placed_bytes rows.now) c (D.contents device.new))) }
    ensures images { Each (D.may_leave device.new) (From (BehindGate file) (D.may_leave device.old)) }
    ensures any_moment { LeavesOnly D.moment D.left_since device.old device.new (From (BehindGate file) (D.may_leave device.old)) }
    ensures cause { HasCause (D.failures device.old) (D.failures device.new) result }
{
    let mut place = 0;
    while place < rows.len() {
        let next = rows.len().min(place + BUFFER_BYTES / ROW_BYTES);
        let there = at + (place * ROW_BYTES) as u64;
        write_some(device, file, there, &rows[place..next], buffer)?;
        place = next;
    }
    Ok(at + (rows.len() * ROW_BYTES) as u64)
}

// Writes rows that fit the buffer.
fn write_some<D: Device>(
    device: &mut D,
    file: Which,
    at: u64,
    rows: &[Placed],
    buffer: &mut [u8],
) -> Result<(), Failed>
    requires place { 1 ≤ at }
    requires fits { at + length rows.now * 32 ≤ LONGEST }
    requires buffer { length rows.now * 32 ≤ length buffer.old }
    ensures buffer { length buffer.new ≡ length buffer.old }
    ensures told { is_some (D.contents device.new) ≡ is_some (D.contents device.old) }
    ensures begins { OnOk result (IfSome (D.contents device.old) (λ c. (front rest : List ℕ) → length front ≡ at → bytes_of c file ≡ front ++ rest → BeginsWith file (front ++ flat_map placed_bytes rows.now) c (D.contents device.new))) }
    ensures images { Each (D.may_leave device.new) (From (BehindGate file) (D.may_leave device.old)) }
    ensures any_moment { LeavesOnly D.moment D.left_since device.old device.new (From (BehindGate file) (D.may_leave device.old)) }
    ensures cause { HasCause (D.failures device.old) (D.failures device.new) result }
{
    fill_rows(buffer, rows);
    put(device, file, at, &buffer[..rows.len() * ROW_BYTES])
}

// One write behind the gate.
fn put<D: Device>(device: &mut D, file: Which, at: u64, bytes: &[u8]) -> Result<(), Failed>
    requires place { 1 ≤ at }
    requires fits { at + length bytes.now ≤ LONGEST }
    ensures told { is_some (D.contents device.new) ≡ is_some (D.contents device.old) }
    ensures begins { OnOk result (IfSome (D.contents device.old) (λ c. (front rest : List ℕ) → length front ≡ at → bytes_of c file ≡ front ++ rest → BeginsWith file (front ++ bytes.now) c (D.contents device.new))) }
    ensures images { Each (D.may_leave device.new) (From (BehindGate file) (D.may_leave device.old)) }
    ensures any_moment { LeavesOnly D.moment D.left_since device.old device.new (From (BehindGate file) (D.may_leave device.old)) }
    ensures cause { HasCause (D.failures device.old) (D.failures device.new) result }
{
    device.write_at(file, at, bytes)
}
