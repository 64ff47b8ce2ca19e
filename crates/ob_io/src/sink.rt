//! Where bytes go.
ghost use Rattle.std.specs.Prelude.{◌≡◌, ◌⊎◌, ℕ, ◌+◌, ◌-◌, ◌^◌, ◌<◌, ◌≤◌, ◌↔◌, ◌==◌, min, List, [], Some, length, IfOk, IsErr, IsTrue};
ghost use Rattle.std.specs.List.{list_any};
ghost use Rattle.std.specs.Io.{WritesAtMost};
ghost use Rattle.std.specs.Io.KnownBytes.{WriteAppends};
ghost use Rattle.ob_io.specs.Causes.{HasCause};
ghost use Rattle.ob_io.specs.Memory.{SinkState};

use ob_base::{Failed, NoMemory};
use std::alloc::Global;
use std::io::Write;
use std::marker::Model;

/// Where bytes go.
pub trait Sink {
    ghost use Rattle.std.specs.Prelude.{ℕ, List, Option};

    // The bytes that it took, where they are known.
    ghost written: { Self → Option (List ℕ) };

    // How many of its calls failed.
    ghost faults: { Self → ℕ };

    /// Takes bytes from the front of `piece` and tells how many: at least one of a piece that isn't empty.
    fn write(&mut self, piece: &[u8]) -> Result<usize, Failed>
        ensures bound { WritesAtMost result piece.now }
        ensures some { 0 < length piece.now → IfOk result (λ n. 0 < n) }
        ensures bytes { WriteAppends (written self.old) (written self.new) result piece.now }
        ensures cause { HasCause (faults self.old) (faults self.new) result };
}

/// A sink in memory that is full after so many bytes, some of whose calls fail.
#[derive(Drop)]
pub struct MemSink {
    bytes: Vec<u8>,
    room: usize,
    fail: Vec<u64>,
    calls: u64,
    faults: u64,
}

impl Model for MemSink {
    ghost use Rattle.std.specs.Prelude.{◌+◌, ◌≤◌, vec_len, vec_capacity};
    ghost use Rattle.ob_io.specs.Memory.{SinkState};

    ghost Value = { SinkState };

    ghost view = { λ k. record { written = k.bytes.items; room = k.room; fail = k.fail.items; calls = k.calls; faults = k.faults } };

    ghost invariant = { λ k. vec_len k.bytes + k.room ≤ vec_capacity k.bytes };
}

impl MemSink {
    /// An empty sink that takes `room` bytes. Its calls, counted from 1, fail where `fail` has their number.
    pub fn new(alloc: Global, room: usize, fail: Vec<u64>) -> Result<MemSink, NoMemory>
        ensures { IfOk result (λ k. k ≡ record
            { written = []; room = room; fail = fail.items; calls = 0; faults = 0 }) }
    {
        let Ok(bytes) = Vec::with_capacity(alloc, room) else {
            return Err(NoMemory);
        };
        Ok(MemSink {
            bytes,
            room,
            fail,
            calls: 0,
            faults: 0,
        })
    }

    /// What it took.
    pub fn bytes(&self) -> &[u8]
        ensures { result.now ≡ self.now.written }
    {
        self.bytes.as_slice()
    }
}

impl Sink for MemSink {
    ghost written = { λ k. Some k.written };

    ghost faults = { λ k. k.faults };

    fn write(&mut self, piece: &[u8]) -> Result<usize, Failed>
        ensures bound { WritesAtMost result piece.now }
        ensures some { 0 < length piece.now → IfOk result (λ n. 0 < n) }
        ensures bytes { WriteAppends (Some self.old.written) (Some self.new.written) result
            piece.now }
        ensures cause { HasCause self.old.faults self.new.faults result }
        ensures calls { self.new.calls ≡ min (self.old.calls + 1) (2 ^ 64 - 1) }
        ensures fail { self.new.fail ≡ self.old.fail }
        ensures fails { IsErr result ↔
            (IsTrue (list_any (λ n. n == self.new.calls) self.old.fail)
            ⊎ ((self.old.room ≡ 0) × (0 < length piece.now))) }
        ensures most { IfOk result (λ n. n ≡ min (length piece.now) self.old.room) }
        ensures room { self.new.room + length self.new.written ≡ self.old.room
            + length self.old.written }
    {
        self.calls = self.calls.saturating_add(1);
        if self.fail.contains(&self.calls) || (self.room == 0 && !piece.is_empty()) {
            self.faults = self.faults.saturating_add(1);
            return Err(Failed);
        }
        let n = piece.len().min(self.room);
        let Ok(()) = self.bytes.extend_from_slice(&piece[..n]) else {
            unreachable!()
        };
        self.room -= n;
        Ok(n)
    }
}

/// A sink over a writer of std. It tells what the writer tells; a writer that takes nothing has failed.
#[derive(Drop)]
pub struct StdSink<W> {
    inner: W,
    faults: u64,
}

impl<W: Write> StdSink<W> {
    /// A sink that goes on after what `inner` took.
    pub fn new(inner: W) -> StdSink<W>
        ensures written { ⟦<StdSink<W> as Sink>⟧.written result ≡ W.contents inner }
        ensures faults { ⟦<StdSink<W> as Sink>⟧.faults result ≡ 0 }
    {
        StdSink { inner, faults: 0 }
    }
}

impl<W: Write> Sink for StdSink<W> {
    ghost written = { λ k. W.contents k.inner };

    ghost faults = { λ k. k.faults };

    fn write(&mut self, piece: &[u8]) -> Result<usize, Failed> {
        match self.inner.write(piece) {
            Ok(n) if n > 0 || piece.is_empty() => Ok(n),
            _ => {
                self.faults = self.faults.saturating_add(1);
                Err(Failed)
            }
        }
    }
}
