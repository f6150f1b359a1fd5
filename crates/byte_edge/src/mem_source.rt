// A source over bytes in memory.
ghost use Rattle.std.specs.Prelude.{◌≡◌, ◌<◌, ◌≤◌, ◌↔◌, ◌++◌, length, take, drop, min, IsTrue, IsErr, IfOk, OnOk, OnErr};
ghost use Rattle.std.specs.Io.KnownBytes.{prepend_known, IsAtEnd};
ghost use Rattle.byte_edge.specs.Faults.{HasCause, up};
ghost use Rattle.byte_edge.specs.Memory.{is_failing};

use crate::faults::next_count;
use crate::source::{Failed, Source};
use std::marker::Model;

/// A source that holds its bytes, tells them, and fails at stated calls.
#[derive(Drop)]
pub struct MemSource {
    held: Vec<u8>,
    at: usize,
    failing: Vec<u64>,
    made: u64,
    failed: u64,
}

impl Model for MemSource {
    ghost use Rattle.std.specs.Prelude.{◌≤◌, drop, length};
    ghost use Rattle.byte_edge.specs.Memory.{Supply};

    ghost Value = { Supply };

    ghost view = { λ s. record { rest = drop s.at s.held.items; fails = s.failing.items; calls = s.made; faults = s.failed } };

    ghost invariant = { λ s. s.at ≤ length s.held.items };
}

impl MemSource {
    /// A source of these bytes. `fails` names the calls that fail, from 1.
    pub fn of(bytes: Vec<u8>, fails: Vec<u64>) -> MemSource
        ensures { result ≡ record { rest = bytes.items; fails = fails.items; calls = 0; faults = 0 } }
    {
        MemSource {
            held: bytes,
            at: 0,
            failing: fails,
            made: 0,
            failed: 0,
        }
    }
}

impl Source for MemSource {
    ghost use Rattle.std.specs.Prelude.{Some};

    ghost rest = { λ s. Some s.rest };

    ghost faults = { λ s. s.faults };

    fn take(&mut self, into: &mut [u8]) -> Result<usize, Failed>
        ensures within { IfOk result (λ n. n ≤ length into.old) }
        ensures taken { IfOk result (λ n. Some self.old.rest ≡ prepend_known (take n into.new) (Some self.new.rest)) }
        ensures end { IfOk result (λ n. n ≡ 0 → 0 < length into.old → IsAtEnd (Some self.old.rest)) }
        ensures stays { OnErr result (Some self.new.rest ≡ Some self.old.rest) }
        ensures cause { HasCause self.old.faults self.new.faults result }
        // What this source adds: each answer follows from its value.
        ensures fails { IsErr result ↔ IsTrue (is_failing self.old.fails self.old.calls) }
        ensures count { IfOk result (λ n. n ≡ min (length into.old) (length self.old.rest)) }
        ensures handed { IfOk result (λ n. into.new ≡ take n self.old.rest ++ drop n into.old) }
        ensures ok { OnOk result (self.new ≡ record self.old { rest = drop (length into.old) self.old.rest; calls = up self.old.calls }) }
        ensures err { OnErr result (self.new ≡ record self.old { calls = up self.old.calls; faults = up self.old.faults }) }
    {
        self.made = next_count(self.made);
        if self.failing.contains(&self.made) {
            self.failed = next_count(self.failed);
            return Err(Failed);
        }
        let count = copy_front(&self.held[self.at..], into);
        self.at += count;
        Ok(count)
    }
}

// Copies to the front of a buffer as many bytes as both have.
fn copy_front(bytes: &[u8], into: &mut [u8]) -> usize
    ensures count { result ≡ min (length into.old) (length bytes.now) }
    ensures copied { into.new ≡ take result bytes.now ++ drop result into.old }
{
    let count = into.len().min(bytes.len());
    into[..count].copy_from_slice(&bytes[..count]);
    count
}
