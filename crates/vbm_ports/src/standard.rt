//! Standard input and standard output. They tell nothing of content.

ghost use Rattle.std.specs.Prelude.{◌≡◌, ◌≤◌, []};
ghost use Rattle.vbm_ports.specs.Counts.{Rose};

use crate::retried::{read_some, write_some};
use crate::{Failed, Sink, Source};
use std::io::{Input, Print};

/// Standard input.
#[derive(Drop)]
pub struct StdinSource<'a, R: Input> {
    rt: &'a R,
    reader: R::Reader,
    faults: u64,
}

impl<'a, R: Input> StdinSource<'a, R> {
    /// The standard input of the runtime.
    pub fn new(rt: &'a R) -> StdinSource<'a, R>
        ensures { ⟦<StdinSource<'a, R> as Source>⟧.faults result ≡ 0 }
    {
        StdinSource {
            rt,
            reader: rt.reader(),
            faults: 0,
        }
    }
}

impl<R: Input> Source for StdinSource<'_, R> {
    ghost tells = { ⊥ };

    ghost rest = { λ _. [] };

    ghost faults = { λ source. source.faults };

    fn take(&mut self, out: &mut [u8]) -> Result<usize, Failed> {
        let outcome = read_some(&mut self.reader, out);
        if outcome.is_err() {
            self.faults = self.faults.saturating_add(1);
        }
        outcome
    }
}

/// Standard output, which is not buffered.
#[derive(Drop)]
pub struct StdoutSink<'a, R: Print> {
    rt: &'a R,
    faults: u64,
}

impl<'a, R: Print> StdoutSink<'a, R> {
    /// The standard output of the runtime.
    pub fn new(rt: &'a R) -> StdoutSink<'a, R>
        ensures { ⟦<StdoutSink<'a, R> as Sink>⟧.faults result ≡ 0 }
    {
        StdoutSink { rt, faults: 0 }
    }
}

impl<R: Print> Sink for StdoutSink<'_, R> {
    ghost tells = { ⊥ };

    ghost written = { λ _. [] };

    ghost faults = { λ sink. sink.faults };

    fn put(&mut self, bytes: &[u8]) -> Result<usize, Failed> {
        let outcome = write_some(self.rt, bytes);
        if outcome.is_err() {
            self.faults = self.faults.saturating_add(1);
        }
        outcome
    }
}
