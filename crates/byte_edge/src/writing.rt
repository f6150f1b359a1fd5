// Writing all bytes to a sink.
ghost use Rattle.std.specs.Prelude.{◌≡◌, OnOk};
ghost use Rattle.std.specs.Io.KnownBytes.{append_known};
ghost use Rattle.byte_edge.specs.Faults.{HasCause};
ghost use Rattle.byte_edge.specs.Took.{AppendedPrefix};

use crate::sink::Sink;
use thiserror::Error;

/// A sink failed before all bytes were written.
#[derive(Clone, Copy, Debug, PartialEq, Eq, Error)]
#[error("the sink failed")]
pub struct WriteFault;

/// Puts all bytes. After a fault a prefix of them was appended.
pub fn write_all<W: Sink>(to: &mut W, bytes: &[u8]) -> Result<(), WriteFault>
    ensures all { OnOk result (W.written to.new ≡ append_known (W.written to.old) bytes.now) }
    ensures prefix { AppendedPrefix bytes.now (W.written to.old) (W.written to.new) }
    ensures cause { HasCause (W.faults to.old) (W.faults to.new) result }
{
    let mut at = 0;
    while at < bytes.len() {
        let Ok(count) = to.put(&bytes[at..]) else {
            return Err(WriteFault);
        };
        at += count;
    }
    Ok(())
}
