//! A source in memory.

ghost use Rattle.std.specs.Prelude.{◌≡◌, ◌≤◌, ◌<◌, ◌+◌, ◌↔◌, ℕ, List, length, drop, Option, IsTrue, IsErr, IfOk, OnErr};
ghost use Rattle.vbm_ports.specs.Counts.{counted, Rose};
ghost use Rattle.vbm_memdisk.specs.Streams.{Input, given_count, IsSpent};
ghost use Rattle.vbm_ports.specs.Stream.{Takes};

use std::marker::Model;
use vbm_ports::{Bytes, Failed, Source};

/// A source in memory, which gives its bytes in pieces and may fail after some of them.
#[derive(Drop)]
pub struct MemSource {
    bytes: Bytes,
    taken: usize,
    piece: usize,
    fail_after: Option<u64>,
    faults: u64,
}

impl Model for MemSource {
    ghost use Rattle.std.specs.Prelude.{◌≤◌, ◌<◌, drop, length};
    ghost use Rattle.vbm_memdisk.specs.Streams.{Input};

    ghost Value = { Input };

    ghost view = { λ source. record { rest = drop source.taken source.bytes; taken = source.taken; piece = source.piece; fail_after = source.fail_after; faults = source.faults } };

    ghost invariant = { λ source. (source.taken ≤ length source.bytes) × (0 < source.piece) };
}

impl MemSource {
    /// A source of these bytes, at most `piece` in one take, which fails once the first `fail_after` bytes are out.
    pub fn new(bytes: Bytes, piece: usize, fail_after: Option<u64>) -> MemSource
        requires { 0 < piece }
        ensures { result ≡ record { rest = bytes; taken = 0; piece = piece; fail_after = fail_after; faults = 0 } }
    {
        MemSource {
            bytes,
            taken: 0,
            piece,
            fail_after,
            faults: 0,
        }
    }

    // Counts a failure.
    fn fail(&mut self) -> Failed
        ensures only { self.new ≡ record self.old { faults = counted self.old.faults } }
        ensures no_fall { self.old.faults ≤ self.new.faults }
    {
        self.faults = self.faults.saturating_add(1);
        Failed
    }

    // Whether all bytes before the failure are out.
    fn is_spent(&self) -> bool
        ensures { IsTrue result ↔ IsSpent self.now }
    {
        match self.fail_after {
            None => false,
            Some(last) => self.taken as u64 >= last,
        }
    }

    // How many of n bytes are given.
    fn room(&self, n: usize) -> usize
        ensures { result ≡ given_count self.now n }
    {
        let n = n.min(self.piece).min(self.bytes.len() - self.taken);
        match self.fail_after {
            None => n,
            Some(last) => {
                let left = last.saturating_sub(self.taken as u64);
                if (n as u64) < left { n } else { left as usize }
            }
        }
    }
}

impl Source for MemSource {
    ghost tells = { Unit {0} };

    ghost rest = { λ source. source.rest };

    ghost faults = { λ source. source.faults };

    fn take(&mut self, out: &mut [u8]) -> Result<usize, Failed>
        requires { 0 < length out.old }
        ensures ok { Unit {0} → IfOk result (λ n. Takes self.old.rest self.new.rest out.old out.new n) }
        ensures err { Unit {0} → OnErr result (self.new.rest ≡ self.old.rest) }
        ensures bound { IfOk result (λ n. n ≤ length out.old) }
        ensures faults { self.old.faults ≤ self.new.faults }
        ensures cause { OnErr result (Rose self.old.faults self.new.faults) }
        ensures no_fault { IfOk result (λ _. self.new.faults ≡ self.old.faults) }
        // It gives all that it may at once, and changes nothing else.
        ensures amount { IfOk result (λ n. n ≡ given_count self.old (length out.old)) }
        ensures took { IfOk result (λ n. self.new ≡ record self.old { rest = drop n self.old.rest; taken = self.old.taken + n }) }
        ensures failed { OnErr result (self.new ≡ record self.old { faults = counted self.old.faults }) }
        // It fails exactly where all bytes before the failure are out.
        ensures spent { IsErr result ↔ IsSpent self.old }
    {
        if self.is_spent() {
            return Err(self.fail());
        }
        let n = self.room(out.len());
        let rest = &self.bytes.as_slice()[self.taken..];
        out[..n].copy_from_slice(&rest[..n]);
        self.taken += n;
        Ok(n)
    }
}
