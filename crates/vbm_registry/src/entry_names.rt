//! Names in their order.

ghost use Rattle.std.specs.Prelude.{◌≡◌, IfOk, IsTrue};
ghost use Rattle.vbm_ports.specs.Names.{is_medium_name, is_short_name};
ghost use Rattle.vbm_named.specs.Names.{is_before as before};
ghost use Rattle.vbm_registry.specs.Grammar.{name_after, last_name as last_name_of};
ghost use Rattle.vbm_registry.specs.Given.{Gives};

use crate::cursor::{Fields, Stop};
use std::alloc::Global;
use vbm_named::Named;
use vbm_named::names::is_before;
use vbm_ports::{Text, names_machine, names_medium};

/// The name of the last item, or the empty one.
pub fn last_name<T: Named>(items: &[T]) -> &[u8]
    ensures { result.now ≡ last_name_of T.name_of items.now }
{
    match items {
        [.., last] => last.name(),
        [] => &[],
    }
}

/// Reads a medium's name that comes after an earlier one.
#[tactic(auto, unfolding(crate::specs::Grammar::name_after))]
pub fn read_medium_name(alloc: Global, earlier: &[u8], fields: &mut Fields) -> Result<Text, Stop>
    ensures gives { Gives result fields.new ((name_after is_medium_name earlier.now).read fields.old) }
    ensures after { IfOk result (λ name. IsTrue (before earlier.now name)) }
{
    let start = fields.bad();
    let name = fields.text(alloc)?;
    if names_medium(name.bytes()) && is_before(earlier, name.bytes()) {
        Ok(name)
    } else {
        Err(Stop::Left(start.left))
    }
}

/// Reads a machine's or a snapshot's name that comes after an earlier one.
#[tactic(auto, unfolding(crate::specs::Grammar::name_after))]
pub fn read_short_name(alloc: Global, earlier: &[u8], fields: &mut Fields) -> Result<Text, Stop>
    ensures gives { Gives result fields.new ((name_after is_short_name earlier.now).read fields.old) }
    ensures after { IfOk result (λ name. IsTrue (before earlier.now name)) }
{
    let start = fields.bad();
    let name = fields.text(alloc)?;
    if names_machine(name.bytes()) && is_before(earlier, name.bytes()) {
        Ok(name)
    } else {
        Err(Stop::Left(start.left))
    }
}
