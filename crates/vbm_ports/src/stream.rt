//! Input and output.

ghost use Rattle.std.specs.Prelude.{◌≡◌, ◌<◌, ◌≤◌, ℕ, List, ◌++◌, length, take, IfOk, OnOk, OnErr};
ghost use Rattle.vbm_ports.specs.Counts.{Rose};
ghost use Rattle.vbm_ports.specs.Stream.{Takes, IsProperPrefix};

use crate::Failed;

/// Bytes that come in.
pub trait Source {
    /// Whether the source tells its bytes: always or never, by its type.
    ghost tells: { Type 0 };

    /// What is left.
    ghost rest: { Self → List ℕ };

    /// How many calls failed.
    ghost faults: { Self → ℕ };

    /// Takes the next bytes; none means the end of input. A take that fails takes nothing.
    fn take(&mut self, out: &mut [u8]) -> Result<usize, Failed>
        requires { 0 < length out.old }
        ensures ok { tells → IfOk result (λ n. Takes (rest self.old) (rest self.new) out.old out.new n) }
        ensures err { tells → OnErr result (rest self.new ≡ rest self.old) }
        ensures bound { IfOk result (λ n. n ≤ length out.old) }
        ensures faults { faults self.old ≤ faults self.new }
        ensures cause { OnErr result (Rose (faults self.old) (faults self.new)) }
        ensures no_fault { IfOk result (λ _. faults self.new ≡ faults self.old) };
}

/// A place for bytes that go out.
pub trait Sink {
    /// Whether the sink tells its bytes: always or never, by its type.
    ghost tells: { Type 0 };

    /// What was written.
    ghost written: { Self → List ℕ };

    /// How many calls failed.
    ghost faults: { Self → ℕ };

    /// Writes some of the first bytes, at least one. A put that fails writes nothing.
    fn put(&mut self, bytes: &[u8]) -> Result<usize, Failed>
        requires { 0 < length bytes.now }
        ensures ok { tells → IfOk result (λ n. written self.new ≡ written self.old ++ take n bytes.now) }
        ensures err { tells → OnErr result (written self.new ≡ written self.old) }
        ensures bound { IfOk result (λ n. (0 < n) × (n ≤ length bytes.now)) }
        ensures faults { faults self.old ≤ faults self.new }
        ensures cause { OnErr result (Rose (faults self.old) (faults self.new)) }
        ensures no_fault { IfOk result (λ _. faults self.new ≡ faults self.old) };
}

/// Writes all bytes. A sink that fails has got a proper prefix of them.
pub fn put_all<K: Sink>(sink: &mut K, bytes: &[u8]) -> Result<(), Failed>
    ensures ok { K.tells → OnOk result (K.written sink.new ≡ K.written sink.old ++ bytes.now) }
    ensures err { K.tells → OnErr result ((front : List ℕ) × IsProperPrefix front bytes.now
        × (K.written sink.new ≡ K.written sink.old ++ front)) }
    ensures faults { K.faults sink.old ≤ K.faults sink.new }
    ensures cause { OnErr result (Rose (K.faults sink.old) (K.faults sink.new)) }
    ensures no_fault { OnOk result (K.faults sink.new ≡ K.faults sink.old) }
{
    let mut done = 0;
    while done < bytes.len() {
        done += sink.put(&bytes[done..])?;
    }
    Ok(())
}
