//! Where bytes come in and go out: the traits `Source` and `Sink`, and what reads and writes over them.
//!
//! A source has, for contracts, the bytes that it has left and a count of its faults; a sink has the bytes
//! written and such a count. The bytes are told or not told, as by an adapter over a real file. `read_all`
//! takes all bytes up to a limit, `write_all` puts all bytes, and `Pending` with `send_bytes` and `flush` is a
//! buffer before a sink. A fault is answered only where the count rose.
//! `MemSource` and `MemSink` stand in memory and fail at stated calls; `StdSource` and `StdSink` pass on what
//! a reader and a writer of std tell.
#![tactic(auto)]

mod faults;
mod mem_sink;
mod mem_source;
mod pending;
mod reading;
mod sink;
mod source;
mod std_edge;
mod writing;

pub use mem_sink::MemSink;
pub use mem_source::MemSource;
pub use pending::{PENDING_BYTES_MAX, Pending, flush, send_byte, send_bytes};
pub use reading::{ReadEnd, read_all};
pub use sink::Sink;
pub use source::{Failed, Source};
pub use std_edge::{StdSink, StdSource};
pub use writing::{WriteFault, write_all};
