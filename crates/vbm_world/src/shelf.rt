//! Shelves with a file more, and with a file less.

ghost use Rattle.std.specs.Prelude.{◌≡◌, IfOk, Some, None};
ghost use Rattle.vbm_named.specs.Names.{Rises};
ghost use Rattle.vbm_world.specs.World.{with_shelved};
ghost use Rattle.vbm_world.specs.Seen.{on_shelf, file_name};

use crate::world::{Shelf, ShelfFile, Shelved};
use std::alloc::Global;
use vbm_named::names;
use vbm_ports::{NoMemory, Text};

// The files of a shelf and one more, whose name no file has.
pub(crate) fn with_file(
    alloc: Global,
    files: &[ShelfFile],
    name: &[u8],
    content: Shelved,
) -> Result<Shelf, NoMemory>
    requires absent { on_shelf files.now name.now ≡ None }
    requires order { Rises file_name files.now }
    ensures holds { IfOk result (λ all. on_shelf all ≡ with_shelved (on_shelf files.now) name.now (Some content)) }
    ensures order { IfOk result (λ all. Rises file_name all) }
{
    let name = Text::new(alloc, name)?;
    names::with(alloc, files, ShelfFile { name, content })
}

// The files of a shelf but for that of a name.
pub(crate) fn without_file(
    alloc: Global,
    files: &[ShelfFile],
    name: &[u8],
) -> Result<Shelf, NoMemory>
    requires order { Rises file_name files.now }
    ensures holds { IfOk result (λ all. on_shelf all ≡ with_shelved (on_shelf files.now) name.now None) }
    ensures order { IfOk result (λ all. Rises file_name all) }
{
    names::without(alloc, files, name)
}
