//! The change of a medium's mode, plain and slow: it copies all disks.

ghost use Rattle.std.specs.Prelude.{◌≡◌, if◌then◌else◌, IfOk};
ghost use Rattle.std.specs.Str.{bytes_eq};
ghost use Rattle.vbm_named.specs.Names.{change_by};
ghost use Rattle.vbm_world.specs.World.{medium_name};
ghost use Rattle.vbm_world.specs.Media.{set_mode};
ghost use Rattle.vbm_world.specs.Seen.{seen, outcome_of};

use crate::command::{Answer, Refusal};
use crate::media::Stepped;
use crate::world::{World, WorldMedia, WorldMedium};
use std::alloc::Global;
use vbm_modes::Mode;
use vbm_named::names::is_same;
use vbm_ports::{Copied, NoMemory, Sequence};

// A medium, in another mode if it has the name.
fn with_mode(
    alloc: Global,
    medium: &WorldMedium,
    name: &[u8],
    mode: Mode,
) -> Result<WorldMedium, NoMemory>
    ensures { IfOk result (λ copy. copy ≡ (if bytes_eq medium.now.name name.now then record medium.now { mode = mode } else medium.now)) }
{
    let mut copy = medium.copied(alloc)?;
    if is_same(medium.name.bytes(), name) {
        copy.mode = mode;
    }
    Ok(copy)
}

// Media, where that of a name is in another mode.
fn all_with_mode(
    alloc: Global,
    media: &[WorldMedium],
    name: &[u8],
    mode: Mode,
) -> Result<WorldMedia, NoMemory>
    ensures { IfOk result (λ all. all ≡ change_by medium_name name.now (λ medium. record medium { mode = mode }) media.now) }
{
    let mut all = Sequence::new(alloc);
    for medium in media {
        all.push(with_mode(alloc, medium, name, mode)?)?;
    }
    Ok(all)
}

impl World {
    pub(crate) fn set_mode(&self, alloc: Global, name: &[u8], mode: Mode) -> Stepped
        ensures outcome { IfOk result (λ r. outcome_of r ≡ set_mode (seen self.now) name.now mode) }
        ensures shelf { IfOk result (λ r. r.0.shelf ≡ self.now.shelf) }
    {
        if self.medium(name).is_none() {
            return self.refused(alloc, Refusal::NoSuchMedium);
        }
        if self.is_in_use(name) {
            return self.refused(alloc, Refusal::InUse);
        }
        let media = all_with_mode(alloc, self.media.as_slice(), name, mode)?;
        let shelf = self.shelf.copied(alloc)?;
        Ok((self.replaced(alloc, media, shelf)?, Answer::Done))
    }
}
