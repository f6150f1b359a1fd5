// A small buffer before a sink, so that the sink is called for large pieces alone.
ghost use Rattle.std.specs.Prelude.{◌≡◌, ◌<◌, ◌++◌, ◌∷◌, [], length, OnOk, nat_lt};
ghost use Rattle.byte_edge.specs.Sending.{Sends, stage};

use crate::sink::Sink;
use crate::writing::{WriteFault, write_all};
use std::marker::Model;

/// The most bytes that wait.
pub const PENDING_BYTES_MAX: usize = 8192;

/// Bytes that wait to be put, at most `PENDING_BYTES_MAX` of them. Contracts see them as a list.
/// What was sent is what was written and what waits: `flush` puts the rest. It takes no memory.
#[derive(Drop)]
pub struct Pending {
    bytes: [u8; PENDING_BYTES_MAX],
    len: usize,
}

impl Model for Pending {
    ghost use Rattle.byte_edge.specs.declared.pending.TheConstants.{PENDING_BYTES_MAX};
    ghost use Rattle.std.specs.Prelude.{List, ℕ, take, ◌≤◌};

    ghost Value = { List ℕ };

    ghost view = { λ p. take p.len p.bytes };

    ghost invariant = { λ p. p.len ≤ PENDING_BYTES_MAX };
}

impl Pending {
    /// No bytes.
    pub fn new() -> Pending
        ensures { result ≡ [] }
    {
        Pending {
            bytes: [0; PENDING_BYTES_MAX],
            len: 0,
        }
    }

    fn waiting(&self) -> &[u8]
        ensures { result.now ≡ self.now }
    {
        &self.bytes[..self.len]
    }

    fn has_room(&self) -> bool
        ensures { result ≡ nat_lt (length self.now) PENDING_BYTES_MAX }
    {
        self.len < PENDING_BYTES_MAX
    }

    fn push(&mut self, byte: u8)
        requires { length self.old < PENDING_BYTES_MAX }
        ensures { self.new ≡ self.old ++ byte ∷ [] }
    {
        self.bytes[self.len] = byte;
        self.len += 1;
    }

    fn clear(&mut self)
        ensures { self.new ≡ [] }
    {
        self.len = 0;
    }
}

/// Puts what waits. After a fault a prefix of it was appended, and the rest is lost.
pub fn flush<W: Sink>(to: &mut W, pending: &mut Pending) -> Result<(), WriteFault>
    ensures sends { Sends result []
        (stage (W.written to.old) (W.faults to.old) pending.old)
        (stage (W.written to.new) (W.faults to.new) pending.new) }
    ensures empty { OnOk result (pending.new ≡ []) }
{
    write_all(to, pending.waiting())?;
    pending.clear();
    Ok(())
}

// Puts what waits, where there is no room for a byte more.
fn make_room<W: Sink>(to: &mut W, pending: &mut Pending) -> Result<(), WriteFault>
    ensures sends { Sends result []
        (stage (W.written to.old) (W.faults to.old) pending.old)
        (stage (W.written to.new) (W.faults to.new) pending.new) }
    ensures room { OnOk result (length pending.new < PENDING_BYTES_MAX) }
{
    if pending.has_room() {
        return Ok(());
    }
    flush(to, pending)
}

/// Sends a byte: it waits, or where the buffer is full what waits is put first.
pub fn send_byte<W: Sink>(to: &mut W, pending: &mut Pending, byte: u8) -> Result<(), WriteFault>
    ensures { Sends result (byte ∷ [])
        (stage (W.written to.old) (W.faults to.old) pending.old)
        (stage (W.written to.new) (W.faults to.new) pending.new) }
{
    make_room(to, pending)?;
    pending.push(byte);
    Ok(())
}

/// Sends bytes, one after another.
pub fn send_bytes<W: Sink>(
    to: &mut W,
    pending: &mut Pending,
    bytes: &[u8],
) -> Result<(), WriteFault>
    ensures { Sends result bytes.now
        (stage (W.written to.old) (W.faults to.old) pending.old)
        (stage (W.written to.new) (W.faults to.new) pending.new) }
{
    for byte in bytes {
        send_byte(to, pending, *byte)?;
    }
    Ok(())
}
