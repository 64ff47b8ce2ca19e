//! Where bytes come from.
ghost use Rattle.std.specs.Prelude.{◌≡◌, ℕ, ◌+◌, ◌-◌, ◌^◌, ◌≤◌, ◌↔◌, ◌==◌, min, List, Option, Some, length, drop, IfOk, IsErr, IsTrue, vec_len};
ghost use Rattle.std.specs.List.{list_any};
ghost use Rattle.std.specs.Result.{result_unwrap_or};
ghost use Rattle.std.specs.Io.{ReadsAtMost};
ghost use Rattle.std.specs.Io.KnownBytes.{ReadConsumes};
ghost use Rattle.ob_io.specs.Causes.{HasCause};
ghost use Rattle.ob_io.specs.Memory.{SourceState};

use ob_base::Failed;
use std::io::Read;
use std::marker::Model;

/// Where bytes come from.
pub trait Source {
    ghost use Rattle.std.specs.Prelude.{ℕ, List, Option};

    // The bytes still to come, where they are known.
    ghost left: { Self → Option (List ℕ) };

    // How many bytes its last call gave: none where it failed.
    ghost gave: { Self → ℕ };

    // How many of its calls failed.
    ghost faults: { Self → ℕ };

    /// Moves bytes to the front of `buf` and tells how many. None in a buffer that isn't empty are the end.
    fn read(&mut self, buf: &mut [u8]) -> Result<usize, Failed>
        ensures bound { ReadsAtMost result buf.new }
        ensures bytes { ReadConsumes (left self.old) (left self.new) result buf.new }
        ensures gave { gave self.new ≡ result_unwrap_or result 0 }
        ensures cause { HasCause (faults self.old) (faults self.new) result };
}

/// A source over bytes in memory, some of whose calls fail.
#[derive(Drop)]
pub struct MemSource {
    bytes: Vec<u8>,
    at: usize,
    gave: usize,
    fail: Vec<u64>,
    calls: u64,
    faults: u64,
}

impl Model for MemSource {
    ghost use Rattle.std.specs.Prelude.{◌≤◌, drop, vec_len};
    ghost use Rattle.ob_io.specs.Memory.{SourceState};

    ghost Value = { SourceState };

    ghost view = { λ s. record { left = drop s.at s.bytes.items; gave = s.gave; fail = s.fail.items; calls = s.calls; faults = s.faults } };

    ghost invariant = { λ s. s.at ≤ vec_len s.bytes };
}

impl MemSource {
    /// A source of these bytes. Its calls, counted from 1, fail where `fail` has their number.
    pub fn new(bytes: Vec<u8>, fail: Vec<u64>) -> MemSource
        ensures { result ≡ record
            { left = bytes.items; gave = 0; fail = fail.items; calls = 0; faults = 0 } }
    {
        MemSource {
            bytes,
            at: 0,
            gave: 0,
            fail,
            calls: 0,
            faults: 0,
        }
    }
}

impl Source for MemSource {
    ghost left = { λ s. Some s.left };

    ghost gave = { λ s. s.gave };

    ghost faults = { λ s. s.faults };

    fn read(&mut self, buf: &mut [u8]) -> Result<usize, Failed>
        ensures bound { ReadsAtMost result buf.new }
        ensures bytes { ReadConsumes (Some self.old.left) (Some self.new.left) result buf.new }
        ensures gave { self.new.gave ≡ result_unwrap_or result 0 }
        ensures cause { HasCause self.old.faults self.new.faults result }
        ensures calls { self.new.calls ≡ min (self.old.calls + 1) (2 ^ 64 - 1) }
        ensures fail { self.new.fail ≡ self.old.fail }
        ensures fails { IsErr result ↔ IsTrue (list_any (λ n. n == self.new.calls) self.old.fail) }
        ensures most { IfOk result (λ n. n ≡ min (length buf.old) (length self.old.left)) }
    {
        self.calls = self.calls.saturating_add(1);
        if self.fail.contains(&self.calls) {
            self.gave = 0;
            self.faults = self.faults.saturating_add(1);
            return Err(Failed);
        }
        let left = &self.bytes.as_slice()[self.at..];
        let n = buf.len().min(left.len());
        buf[..n].copy_from_slice(&left[..n]);
        self.at += n;
        self.gave = n;
        Ok(n)
    }
}

/// A source over a reader of std. It tells what the reader tells.
#[derive(Drop)]
pub struct StdSource<R> {
    inner: R,
    gave: usize,
    faults: u64,
}

impl<R: Read> StdSource<R> {
    /// A source of what `inner` still gives.
    pub fn new(inner: R) -> StdSource<R>
        ensures left { ⟦<StdSource<R> as Source>⟧.left result ≡ R.remaining inner }
        ensures gave { ⟦<StdSource<R> as Source>⟧.gave result ≡ 0 }
        ensures faults { ⟦<StdSource<R> as Source>⟧.faults result ≡ 0 }
    {
        StdSource {
            inner,
            gave: 0,
            faults: 0,
        }
    }
}

impl<R: Read> Source for StdSource<R> {
    ghost left = { λ s. R.remaining s.inner };

    ghost gave = { λ s. s.gave };

    ghost faults = { λ s. s.faults };

    fn read(&mut self, buf: &mut [u8]) -> Result<usize, Failed> {
        match self.inner.read(buf) {
            Ok(n) => {
                self.gave = n;
                Ok(n)
            }
            Err(_) => {
                self.gave = 0;
                self.faults = self.faults.saturating_add(1);
                Err(Failed)
            }
        }
    }
}
