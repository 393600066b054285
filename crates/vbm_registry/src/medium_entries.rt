//! Media as a library's file lists them.

ghost use Rattle.std.specs.Prelude.{◌≡◌, IsFalse};
ghost use Rattle.vbm_named.specs.Names.{has_name, Rises};
ghost use Rattle.vbm_registry.specs.Library.{medium_entry_name};
ghost use Rattle.vbm_registry.specs.Built.{is_built_mode as built_mode};
ghost use Rattle.vbm_registry.specs.Grammar.{mode_field, medium_entry, mode_at as mode_in, mode_of as coded_mode};
ghost use Rattle.vbm_registry.specs.Given.{GivesField};

use crate::cursor::{BadField, Fields, Stop};
use crate::entry_names::{last_name, read_medium_name};
use crate::features::Features;
use crate::lists::Reader;
use crate::media::Medium;
use std::alloc::Global;
use vbm_modes::Mode;

/// The mode of the medium at a place; out of range that of none.
pub fn mode_at(media: &[Medium], place: u32) -> Mode
    ensures { result ≡ mode_in media.now place }
{
    match media.get(place as usize) {
        Some(medium) => medium.mode,
        None => Mode::Readonly,
    }
}

fn is_built_mode(built: Features, mode: Mode) -> bool
    ensures { result ≡ built_mode built mode }
{
    match mode {
        Mode::Normal => true,
        Mode::Immutable | Mode::MultiAttach => built.layered_modes,
        Mode::Writethrough | Mode::Readonly => built.shared_modes,
    }
}

// The mode of a number; that of the last one for those past it.
fn mode_of(code: u8) -> Mode
    ensures { result ≡ coded_mode code }
{
    match code {
        0 => Mode::Normal,
        1 => Mode::Immutable,
        2 => Mode::Writethrough,
        3 => Mode::MultiAttach,
        _ => Mode::Readonly,
    }
}

#[tactic(auto, unfolding(crate::specs::Grammar::mode_field))]
fn read_mode(built: Features, fields: &mut Fields) -> Result<Mode, BadField>
    ensures { GivesField result fields.new ((mode_field built).read fields.old) }
{
    let start = fields.bad();
    let code = fields.u8()?;
    let mode = mode_of(code);
    if code <= 4 && is_built_mode(built, mode) {
        Ok(mode)
    } else {
        Err(start)
    }
}

/// Reads media.
#[derive(Drop)]
pub struct MediumReader {
    pub built: Features,
}

impl Reader for MediumReader {
    ghost use Rattle.std.specs.Prelude.{IsFalse};
    ghost use Rattle.vbm_named.specs.Names.{has_name, Rises};
    ghost use Rattle.vbm_registry.specs.Library.{medium_entry_name};
    ghost use Rattle.vbm_registry.specs.Grammar.{medium_entry};

    type Item = Medium;

    ghost item = { λ r. medium_entry r.built };

    ghost follows = { λ _ before. Rises medium_entry_name before };

    ghost fixed = { λ _. 0 };

    ghost apart = { λ before m. IsFalse (has_name medium_entry_name m.name before) };

    #[tactic(auto, unfolding(crate::specs::Grammar::medium_entry))]
    fn next(
        &mut self,
        alloc: Global,
        before: &[Medium],
        fields: &mut Fields,
    ) -> Result<Medium, Stop> {
        let name = read_medium_name(alloc, last_name(before), fields)?;
        let mode = read_mode(self.built, fields)?;
        Ok(Medium { name, mode })
    }
}
