//! Snapshots as a library's file lists them.

ghost use Rattle.std.specs.Prelude.{◌≡◌, ◌+◌, ◌≤◌, ◌<◌, nat_eq, length, IfOk, IfSome};
ghost use Rattle.indexmap.specs.IndexMap.{get};
ghost use Rattle.vbm_world.specs.declared.limits.TheConstants.{PLACE_LIMIT};
ghost use Rattle.vbm_registry.specs.Grammar.{list_place, parent_field, place_list};
ghost use Rattle.vbm_registry.specs.Summaries.{TellsBases, AreParentsOf};
ghost use Rattle.vbm_registry.specs.Given.{Gives, GivesField};

use crate::cursor::{BadField, Fields, Stop};
use crate::entry_names::{last_name, read_short_name};
use crate::library::Inner;
use crate::lists::{Reader, read_list};
use crate::media::Medium;
use crate::parents::{Parents, add_parent, is_good_parent};
use crate::slot_entries::SlotReader;
use indexmap::IndexMap;
use std::alloc::Global;
use vbm_machines::{Slots, Snapshot};
use vbm_world::PLACE_LIMIT;

/// Reads a place in a list, or none.
#[tactic(auto, unfolding(crate::specs::Grammar::list_place))]
pub fn read_list_place(fields: &mut Fields) -> Result<Option<u32>, BadField>
    ensures { GivesField result fields.new (list_place.read fields.old) }
{
    match fields.u16()? {
        0xFFFF => Ok(None),
        place => Ok(Some(place as u32)),
    }
}

/// Reads the snapshots of a machine.
#[derive(Drop)]
pub struct SnapshotReader<'a> {
    pub media: &'a [Medium],
    pub inners: &'a [Inner],
    pub bases: &'a IndexMap<u64, u32>,
    /// How many places the snapshots of the machines before have.
    pub places: usize,
    /// The same with those of this machine's snapshots so far.
    pub used: usize,
    pub parents: Parents,
}

#[tactic(auto, unfolding(crate::specs::Grammar::parent_field))]
fn read_parent(
    parents: &Parents,
    before: &[Snapshot],
    fields: &mut Fields,
) -> Result<Option<u32>, BadField>
    requires { AreParentsOf parents.now before.now }
    ensures gives { GivesField result fields.new ((parent_field (length parents.now.ends.items) before.now).read fields.old) }
    ensures within { IfOk result (λ parent. IfSome parent (λ p. p < length parents.now.ends.items)) }
{
    let start = fields.bad();
    let parent = read_list_place(fields)?;
    if is_good_parent(before.len(), parents.rooted, &parents.ends, parent) {
        Ok(parent)
    } else {
        Err(start)
    }
}

#[tactic(auto, unfolding(crate::specs::Grammar::place_list))]
fn read_places(alloc: Global, reader: &SnapshotReader, fields: &mut Fields) -> Result<Slots, Stop>
    requires tells { TellsBases (get nat_eq reader.now.bases.now) reader.now.inners.now }
    requires used { reader.now.used ≤ PLACE_LIMIT }
    ensures gives { Gives result fields.new ((place_list reader.now.media.now reader.now.inners.now reader.now.used).read fields.old) }
    ensures few { IfOk result (λ slots. reader.now.used + length slots ≤ PLACE_LIMIT) }
{
    let start = fields.left();
    let count = fields.u8()?;
    if reader.used + count as usize > PLACE_LIMIT {
        return Err(Stop::Left(start));
    }
    let mut slots = SlotReader {
        of_snapshot: true,
        media: reader.media,
        inners: reader.inners,
        bases: reader.bases,
    };
    read_list(alloc, &mut slots, count as u16, fields)
}

impl<'a> Reader for SnapshotReader<'a> {
    ghost use Rattle.std.specs.Prelude.{length, IsFalse};
    ghost use Rattle.vbm_named.specs.Names.{has_name};
    ghost use Rattle.vbm_registry.specs.Grammar.{snapshot_entry, snapshot_entry_name};
    ghost use Rattle.vbm_registry.specs.Summaries.{HasReadSnapshots};

    type Item = Snapshot;

    ghost item = { λ r. snapshot_entry r.media.now r.inners.now r.places (length r.parents.ends.items) };

    ghost follows = { λ r before. HasReadSnapshots r before };

    ghost fixed = { λ r. r.places };

    ghost apart = { λ before s. IsFalse (has_name snapshot_entry_name s.name before) };

    #[tactic(auto, unfolding(crate::specs::Grammar::snapshot_entry))]
    fn next(
        &mut self,
        alloc: Global,
        before: &[Snapshot],
        fields: &mut Fields,
    ) -> Result<Snapshot, Stop> {
        let name = read_short_name(alloc, last_name(before), fields)?;
        let parent = read_parent(&self.parents, before, fields)?;
        let slots = read_places(alloc, self, fields)?;
        self.used += slots.len();
        add_parent(&mut self.parents, before.len() as u16, parent);
        Ok(Snapshot {
            name,
            parent,
            slots,
        })
    }
}
