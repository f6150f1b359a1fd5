//! Three files under one clock, which a program reads, writes and syncs, and what a crash may leave of them.
//!
//! The model is the trait `Device`: the contents as read, where the device tells them; the images, which are what a crash
//! now may leave of all three files; the images that a crash at some moment since a time might have left; the moment; the
//! count of faults. `MemDevice` keeps its files in memory, fails where it is told to, and can be crashed. `FileDevice` is
//! over three files of a folder, and tells no contents.
//!
//! `write_and_sync` is one write and one sync. `write_behind_gate` writes a body behind a closed gate and opens the gate, so
//! that at each moment the body is there or not; `settle_gate` says what became of a gate in doubt. They are over any
//! device. Every refusal of a device is `Failed`, and comes only where the count of faults rose.
#![tactic(auto)]

mod device;
mod file_device;
mod gating;
mod mem_device;
mod memory;
mod plan;
mod text;
mod through;

pub use device::{Device, Failed, LONGEST, Which};
pub use file_device::FileDevice;
pub use gating::{GateEnd, settle_gate, write_behind_gate};
pub use mem_device::MemDevice;
pub use memory::Pick;
pub use plan::{CallKind, Fail, FailList};
pub use text::Str;
pub use through::write_and_sync;
