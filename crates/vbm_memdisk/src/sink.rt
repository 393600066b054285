//! A sink in memory.

ghost use Rattle.std.specs.Prelude.{◌≡◌, ◌≤◌, ◌<◌, ◌↔◌, ◌⊎◌, ℕ, List, [], ◌++◌, length, take, IfOk, OnErr, IsErr, Option};
ghost use Rattle.vbm_ports.specs.Counts.{counted, Rose};
ghost use Rattle.vbm_memdisk.specs.Streams.{Output, room_below};

use std::alloc::Global;
use std::marker::Model;
use vbm_ports::{Failed, Sink};

/// A sink in memory, which takes bytes up to a limit.
#[derive(Drop)]
pub struct MemSink {
    bytes: Vec<u8>,
    limit: Option<u64>,
    faults: u64,
    refused: u64,
}

impl Model for MemSink {
    ghost use Rattle.vbm_memdisk.specs.Streams.{Output};

    ghost Value = { Output };

    ghost view = { λ sink. record { written = sink.bytes.items; limit = sink.limit; faults = sink.faults; refused = sink.refused } };
}

impl MemSink {
    /// A sink that has nothing and takes at most `limit` bytes.
    pub fn new(alloc: Global, limit: Option<u64>) -> MemSink
        ensures { result ≡ record { written = []; limit = limit; faults = 0; refused = 0 } }
    {
        MemSink {
            bytes: Vec::new(alloc),
            limit,
            faults: 0,
            refused: 0,
        }
    }

    /// Lends what was written.
    pub fn written(&self) -> &[u8]
        ensures { result.now ≡ self.now.written }
    {
        self.bytes.as_slice()
    }

    /// How many puts found no memory.
    pub fn refused(&self) -> u64
        ensures { result ≡ self.now.refused }
    {
        self.refused
    }

    // Counts a failure.
    fn fail(&mut self) -> Failed
        ensures only { self.new ≡ record self.old { faults = counted self.old.faults } }
        ensures no_fall { self.old.faults ≤ self.new.faults }
    {
        self.faults = self.faults.saturating_add(1);
        Failed
    }

    // How many of n bytes fit below the limit.
    fn room(&self, n: usize) -> usize
        ensures { result ≡ room_below self.now.limit (length self.now.written) n }
    {
        match self.limit {
            None => n,
            Some(limit) => {
                let left = limit.saturating_sub(self.bytes.len() as u64);
                if (n as u64) < left { n } else { left as usize }
            }
        }
    }
}

impl Sink for MemSink {
    ghost tells = { Unit {0} };

    ghost written = { λ sink. sink.written };

    ghost faults = { λ sink. sink.faults };

    fn put(&mut self, bytes: &[u8]) -> Result<usize, Failed>
        requires { 0 < length bytes.now }
        ensures ok { Unit {0} → IfOk result (λ n. self.new.written ≡ self.old.written ++ take n bytes.now) }
        ensures err { Unit {0} → OnErr result (self.new.written ≡ self.old.written) }
        ensures bound { IfOk result (λ n. (0 < n) × (n ≤ length bytes.now)) }
        ensures faults { self.old.faults ≤ self.new.faults }
        ensures cause { OnErr result (Rose self.old.faults self.new.faults) }
        ensures no_fault { IfOk result (λ _. self.new.faults ≡ self.old.faults) }
        ensures limit { self.new.limit ≡ self.old.limit }
        // It takes all that fit below the limit, and changes nothing else.
        ensures amount { IfOk result (λ n. n ≡ room_below self.old.limit (length self.old.written) (length bytes.now)) }
        ensures took { IfOk result (λ n. self.new ≡ record self.old { written = self.old.written ++ take n bytes.now }) }
        ensures failed { OnErr result (self.new ≡ record self.old { faults = counted self.old.faults; refused = self.new.refused }) }
        // It fails exactly where the limit is reached, or where it finds no memory, which it counts.
        ensures full { room_below self.old.limit (length self.old.written) (length bytes.now) ≡ 0
            → IsErr result }
        ensures why { IsErr result
            → (room_below self.old.limit (length self.old.written) (length bytes.now) ≡ 0)
            ⊎ Rose self.old.refused self.new.refused }
    {
        let n = self.room(bytes.len());
        if n == 0 {
            return Err(self.fail());
        }
        if self.bytes.extend_from_slice(&bytes[..n]).is_err() {
            self.refused = self.refused.saturating_add(1);
            return Err(self.fail());
        }
        Ok(n)
    }
}
