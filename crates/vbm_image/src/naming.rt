//! The names of inner images.

ghost use Rattle.std.specs.Prelude.{◌≡◌, IfOk, IsTrue};
ghost use Rattle.vbm_ports.specs.Names.{is_inner_name};
ghost use Rattle.vbm_image.specs.InnerName.{inner_name_of};

use std::alloc::Global;
use uuid::Uuid;
use vbm_ports::{NoMemory, Text};

/// The name of the file of the inner image with this identifier: the identifier in braces, and `.vdi`.
pub fn inner_name(alloc: Global, id: Uuid) -> Result<Text, NoMemory>
    ensures name { IfOk result (λ name. name ≡ inner_name_of id) }
    ensures inner { IfOk result (λ name. IsTrue (is_inner_name name)) }
{
    in_braces(alloc, id)
}

fn in_braces(alloc: Global, id: Uuid) -> Result<Text, NoMemory>
    ensures { IfOk result (λ name. name ≡ inner_name_of id) }
{
    let name = format!(in alloc; "{{{id}}}.vdi").map_err(|_| NoMemory)?;
    Text::new(alloc, name.as_bytes())
}
