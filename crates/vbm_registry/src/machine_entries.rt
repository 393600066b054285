//! Machines as a library's file lists them.

ghost use Rattle.std.specs.Prelude.{◌≡◌, ◌+◌, ◌≤◌, nat_eq, length, IfOk};
ghost use Rattle.indexmap.specs.IndexMap.{get};
ghost use Rattle.vbm_world.specs.declared.limits.TheConstants.{SNAPSHOT_LIMIT, PLACE_LIMIT};
ghost use Rattle.vbm_registry.specs.Built.{limit_if};
ghost use Rattle.vbm_registry.specs.Grammar.{is_current as current, current_field, snapshot_list, slot_list, places_listed};
ghost use Rattle.vbm_registry.specs.Summaries.{TellsBases};
ghost use Rattle.vbm_registry.specs.Given.{Gives, GivesField};

use crate::cursor::{BadField, Fields, Stop};
use crate::entry_names::{last_name, read_short_name};
use crate::features::Features;
use crate::library::Inner;
use crate::lists::{Reader, read_list, read_named};
use crate::media::Medium;
use crate::parents::no_parents;
use crate::slot_entries::SlotReader;
use crate::snapshot_entries::{SnapshotReader, read_list_place};
use indexmap::IndexMap;
use std::alloc::Global;
use vbm_machines::{Machine, Slots, Snapshots};
use vbm_world::SNAPSHOT_LIMIT;

/// A limit, or 0 where the part is not in use.
pub fn limit(built: bool, limit: usize) -> usize
    ensures { result ≡ limit_if built limit }
{
    if built { limit } else { 0 }
}

fn is_current(count: usize, place: Option<u32>) -> bool
    ensures { result ≡ current count place }
{
    match place {
        None => count == 0,
        Some(place) => (place as usize) < count,
    }
}

#[tactic(auto, unfolding(crate::specs::Grammar::current_field))]
fn read_current(count: usize, fields: &mut Fields) -> Result<Option<u32>, BadField>
    ensures { GivesField result fields.new ((current_field count).read fields.old) }
{
    let start = fields.bad();
    let current = read_list_place(fields)?;
    if is_current(count, current) {
        Ok(current)
    } else {
        Err(start)
    }
}

/// Reads machines.
#[derive(Drop)]
pub struct MachineReader<'a> {
    pub built: Features,
    pub media: &'a [Medium],
    pub inners: &'a [Inner],
    pub bases: &'a IndexMap<u64, u32>,
    /// How many snapshots the machines so far have.
    pub snapshots: usize,
    /// How many places those have.
    pub places: usize,
}

#[tactic(auto, unfolding(crate::specs::Grammar::snapshot_list))]
fn read_snapshots(
    alloc: Global,
    reader: &mut MachineReader,
    fields: &mut Fields,
) -> Result<Snapshots, Stop>
    requires tells { TellsBases (get nat_eq reader.old.bases.now) reader.old.inners.now }
    requires snapshots { reader.old.snapshots ≤ SNAPSHOT_LIMIT }
    requires places { reader.old.places ≤ PLACE_LIMIT }
    ensures gives { Gives result fields.new
        ((snapshot_list reader.old.built reader.old.media.now reader.old.inners.now reader.old.snapshots reader.old.places).read fields.old) }
    ensures snapshots { IfOk result (λ xs. (reader.new.snapshots ≡ reader.old.snapshots + length xs) × (reader.new.snapshots ≤ SNAPSHOT_LIMIT)) }
    ensures places { IfOk result (λ xs. (reader.new.places ≡ reader.old.places + places_listed xs) × (reader.new.places ≤ PLACE_LIMIT)) }
    ensures same { IfOk result (λ _. (reader.new.built ≡ reader.old.built) × (reader.new.media.now ≡ reader.old.media.now)
        × (reader.new.inners.now ≡ reader.old.inners.now) × (reader.new.bases.now ≡ reader.old.bases.now)) }
{
    let start = fields.left();
    let count = fields.u16()?;
    if reader.snapshots + count as usize > limit(reader.built.snapshots, SNAPSHOT_LIMIT) {
        return Err(Stop::Left(start));
    }
    let mut snapshots = SnapshotReader {
        media: reader.media,
        inners: reader.inners,
        bases: reader.bases,
        places: reader.places,
        used: reader.places,
        parents: no_parents(alloc, count)?,
    };
    let list = read_named(alloc, &mut snapshots, count, fields)?;
    reader.snapshots += count as usize;
    reader.places = snapshots.used;
    Ok(list)
}

#[tactic(auto, unfolding(crate::specs::Grammar::slot_list))]
fn read_own_slots(alloc: Global, reader: &MachineReader, fields: &mut Fields) -> Result<Slots, Stop>
    requires { TellsBases (get nat_eq reader.now.bases.now) reader.now.inners.now }
    ensures { Gives result fields.new ((slot_list reader.now.built reader.now.media.now reader.now.inners.now).read fields.old) }
{
    let count = fields.limited_u8(limit(reader.built.slots, 255))?;
    let mut slots = SlotReader {
        of_snapshot: false,
        media: reader.media,
        inners: reader.inners,
        bases: reader.bases,
    };
    read_list(alloc, &mut slots, count as u16, fields)
}

impl<'a> Reader for MachineReader<'a> {
    ghost use Rattle.std.specs.Prelude.{IsFalse};
    ghost use Rattle.vbm_named.specs.Names.{has_name};
    ghost use Rattle.vbm_registry.specs.Grammar.{machine_entry, machine_entry_name};
    ghost use Rattle.vbm_registry.specs.Summaries.{HasReadMachines};

    type Item = Machine;

    ghost item = { λ r. machine_entry r.built r.media.now r.inners.now };

    ghost follows = { λ r before. HasReadMachines r before };

    ghost fixed = { λ _. 0 };

    ghost apart = { λ before m. IsFalse (has_name machine_entry_name m.name before) };

    #[tactic(auto, unfolding(crate::specs::Grammar::machine_entry))]
    fn next(
        &mut self,
        alloc: Global,
        before: &[Machine],
        fields: &mut Fields,
    ) -> Result<Machine, Stop> {
        let name = read_short_name(alloc, last_name(before), fields)?;
        let slots = read_own_slots(alloc, self, fields)?;
        let snapshots = read_snapshots(alloc, self, fields)?;
        let current = read_current(snapshots.len(), fields)?;
        Ok(Machine {
            name,
            running: false,
            slots,
            snapshots,
            current,
        })
    }
}
