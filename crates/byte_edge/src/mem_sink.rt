// A sink that keeps its bytes in memory.
ghost use Rattle.std.specs.Prelude.{◌≡◌, ◌<◌, ◌≤◌, ◌++◌, [], length, take, IsTrue, IsErr, IfOk, OnOk, OnErr};
ghost use Rattle.std.specs.Io.KnownBytes.{append_known};
ghost use Rattle.byte_edge.specs.Faults.{HasCause, Rises, up};
ghost use Rattle.byte_edge.specs.Memory.{is_failing};

use crate::faults::next_count;
use crate::sink::Sink;
use crate::source::Failed;
use std::alloc::Global;
use std::marker::Model;

/// A sink that keeps its bytes, tells them, and fails at stated calls. Growth that is refused is a fault.
#[derive(Drop)]
pub struct MemSink {
    kept: Vec<u8>,
    failing: Vec<u64>,
    made: u64,
    failed: u64,
}

impl Model for MemSink {
    ghost use Rattle.byte_edge.specs.Memory.{Store};

    ghost Value = { Store };

    ghost view = { λ s. record { bytes = s.kept.items; fails = s.failing.items; calls = s.made; faults = s.failed } };
}

impl MemSink {
    /// An empty sink. `fails` names the calls that fail, from 1.
    pub fn of(alloc: Global, fails: Vec<u64>) -> MemSink
        ensures { result ≡ record { bytes = []; fails = fails.items; calls = 0; faults = 0 } }
    {
        MemSink {
            kept: Vec::new(alloc),
            failing: fails,
            made: 0,
            failed: 0,
        }
    }

    /// The bytes written so far.
    pub fn bytes(&self) -> &[u8]
        ensures { result.now ≡ self.now.bytes }
    {
        &self.kept
    }

    fn fail(&mut self) -> Failed
        ensures counted { self.new ≡ record self.old { faults = up self.old.faults } }
        ensures rose { Rises self.old.faults self.new.faults }
    {
        self.failed = next_count(self.failed);
        Failed
    }
}

impl Sink for MemSink {
    ghost use Rattle.std.specs.Prelude.{Some};

    ghost written = { λ s. Some s.bytes };

    ghost faults = { λ s. s.faults };

    fn put(&mut self, bytes: &[u8]) -> Result<usize, Failed>
        ensures within { IfOk result (λ n. n ≤ length bytes.now) }
        ensures some { IfOk result (λ n. 0 < length bytes.now → 0 < n) }
        ensures appended { IfOk result (λ n. Some self.new.bytes ≡ append_known (Some self.old.bytes) (take n bytes.now)) }
        ensures stays { OnErr result (Some self.new.bytes ≡ Some self.old.bytes) }
        ensures cause { HasCause self.old.faults self.new.faults result }
        // What this sink adds: it takes all bytes, and a call that is to fail does.
        ensures fails { IsTrue (is_failing self.old.fails self.old.calls) → IsErr result }
        ensures count { IfOk result (λ n. n ≡ length bytes.now) }
        ensures ok { OnOk result (self.new ≡ record self.old { bytes = self.old.bytes ++ bytes.now; calls = up self.old.calls }) }
        ensures err { OnErr result (self.new ≡ record self.old { calls = up self.old.calls; faults = up self.old.faults }) }
    {
        self.made = next_count(self.made);
        if self.failing.contains(&self.made) {
            return Err(self.fail());
        }
        if self.kept.extend_from_slice(bytes).is_err() {
            return Err(self.fail());
        }
        Ok(bytes.len())
    }
}
