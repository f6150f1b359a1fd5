// The adapters over a reader and a writer of std: the trusted edge. They tell no contents, and pass on what std tells.
ghost use Rattle.std.specs.Prelude.{◌≡◌, ◌<◌, ◌≤◌, length, IfOk};
ghost use Rattle.std.specs.Io.KnownBytes.{ReadConsumes, WriteAppends};
ghost use Rattle.byte_edge.specs.Faults.{HasCause};

use crate::faults::next_count;
use crate::sink::Sink;
use crate::source::{Failed, Source};
use std::io::{Error, ErrorKind, Read, Write};

// How often in a row a call that a signal interrupts is made. After that it is a fault.
const TRIES: u32 = 1000;

/// A source over a reader of std.
#[derive(Drop)]
pub struct StdSource<R> {
    reader: R,
    failed: u64,
}

impl<R: Read> StdSource<R> {
    ghost use Rattle.byte_edge.specs.Edge.{reader_of, source_faults};

    /// A source of the bytes that this reader has left.
    pub fn of(reader: R) -> StdSource<R>
        ensures reader { reader_of result ≡ reader }
        ensures faults { source_faults result ≡ 0 }
    {
        StdSource { reader, failed: 0 }
    }
}

impl<R: Read> Source for StdSource<R> {
    ghost use Rattle.std.specs.Prelude.{None};
    ghost use Rattle.byte_edge.specs.Edge.{reader_of, source_faults};

    ghost rest = { λ _. None };

    ghost faults = { source_faults };

    fn take(&mut self, into: &mut [u8]) -> Result<usize, Failed>
        ensures within { IfOk result (λ n. n ≤ length into.old) }
        ensures cause { HasCause (source_faults self.old) (source_faults self.new) result }
        ensures passes_on { ReadConsumes (R.remaining (reader_of self.old)) (R.remaining (reader_of self.new)) result into.new }
    {
        let answer = read_some(&mut self.reader, into);
        if answer.is_err() {
            self.failed = next_count(self.failed);
        }
        answer
    }
}

/// A sink over a writer of std. What a writer with a buffer holds back is written where it is dropped or flushed.
#[derive(Drop)]
pub struct StdSink<W> {
    writer: W,
    failed: u64,
}

impl<W: Write> StdSink<W> {
    ghost use Rattle.byte_edge.specs.Edge.{writer_of, sink_faults};

    /// A sink that appends to this writer.
    pub fn of(writer: W) -> StdSink<W>
        ensures writer { writer_of result ≡ writer }
        ensures faults { sink_faults result ≡ 0 }
    {
        StdSink { writer, failed: 0 }
    }

    /// The writer, as it is.
    pub fn into_writer(self) -> W
        ensures { result ≡ writer_of self }
    {
        let StdSink { writer, failed: _ } = self;
        writer
    }
}

impl<W: Write> Sink for StdSink<W> {
    ghost use Rattle.std.specs.Prelude.{None};
    ghost use Rattle.byte_edge.specs.Edge.{writer_of, sink_faults};

    ghost written = { λ _. None };

    ghost faults = { sink_faults };

    fn put(&mut self, bytes: &[u8]) -> Result<usize, Failed>
        ensures within { IfOk result (λ n. n ≤ length bytes.now) }
        ensures some { IfOk result (λ n. 0 < length bytes.now → 0 < n) }
        ensures cause { HasCause (sink_faults self.old) (sink_faults self.new) result }
        ensures passes_on { WriteAppends (W.contents (writer_of self.old)) (W.contents (writer_of self.new)) result bytes.now }
    {
        let answer = write_some(&mut self.writer, bytes);
        if answer.is_err() {
            self.failed = next_count(self.failed);
        }
        answer
    }
}

// One read, which is made again where a signal interrupts it.
fn read_some<R: Read>(reader: &mut R, into: &mut [u8]) -> Result<usize, Failed>
    ensures within { IfOk result (λ n. n ≤ length into.old) }
    ensures passes_on { ReadConsumes (R.remaining reader.old) (R.remaining reader.new) result into.new }
{
    'tries: for _ in 0..TRIES {
        match reader.read(into) {
            Ok(count) => return Ok(count),
            Err(error) if is_interrupted(&error) => {}
            Err(_) => return Err(Failed),
        }
    }
    Err(Failed)
}

// One write, which is made again where a signal interrupts it. A writer that takes nothing of some bytes has failed.
fn write_some<W: Write>(writer: &mut W, bytes: &[u8]) -> Result<usize, Failed>
    ensures within { IfOk result (λ n. n ≤ length bytes.now) }
    ensures some { IfOk result (λ n. 0 < length bytes.now → 0 < n) }
    ensures passes_on { WriteAppends (W.contents writer.old) (W.contents writer.new) result bytes.now }
{
    'tries: for _ in 0..TRIES {
        match writer.write(bytes) {
            Ok(0) if !bytes.is_empty() => return Err(Failed),
            Ok(count) => return Ok(count),
            Err(error) if is_interrupted(&error) => {}
            Err(_) => return Err(Failed),
        }
    }
    Err(Failed)
}

fn is_interrupted(error: &Error) -> bool {
    error.kind() == ErrorKind::Interrupted
}
