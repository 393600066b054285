//! Calls of the system that go on after an interruption.

ghost use Rattle.std.specs.Prelude.{◌<◌, ◌≤◌, length, IfOk};

use crate::Failed;
use std::io::{ErrorKind, Print, Read};

/// Reads some of the bytes that come next; none means the end.
pub(crate) fn read_some<F: Read>(file: &mut F, out: &mut [u8]) -> Result<usize, Failed>
    ensures { IfOk result (λ n. n ≤ length out.old) }
{
    for _ in 0..u64::MAX {
        match file.read(out) {
            Ok(n) => return Ok(n),
            Err(error) if error.kind() == ErrorKind::Interrupted => {}
            Err(_) => return Err(Failed),
        }
    }
    Err(Failed)
}

/// Writes some of the first bytes, at least one. A call that takes nothing has failed.
pub(crate) fn write_some<R: Print>(rt: &R, bytes: &[u8]) -> Result<usize, Failed>
    ensures { IfOk result (λ n. (0 < n) × (n ≤ length bytes.now)) }
{
    for _ in 0..u64::MAX {
        match rt.write_some(bytes) {
            Ok(0) => return Err(Failed),
            Ok(n) => return Ok(n),
            Err(error) if error.kind() == ErrorKind::Interrupted => {}
            Err(_) => return Err(Failed),
        }
    }
    Err(Failed)
}
