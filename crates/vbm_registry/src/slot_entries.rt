//! Slots of machines and places of snapshots, as a library's file lists them.

ghost use Rattle.std.specs.Prelude.{◌≡◌, ◌&&◌, nat_eq, nat_lt, nat_le};
ghost use Rattle.indexmap.specs.IndexMap.{get};
ghost use Rattle.vbm_world.specs.World.{is_immutable as immutable};
ghost use Rattle.vbm_registry.specs.Held.{may_hold as holds};
ghost use Rattle.vbm_registry.specs.Grammar.{held_fields, held_of as coded_held, next_port, port_after, has_place as takes_place, other_medium, flag_field, autoreset_field};
ghost use Rattle.vbm_registry.specs.Summaries.{TellsBases};
ghost use Rattle.vbm_registry.specs.Given.{GivesField};

use crate::cursor::{BadField, Fields, Stop};
use crate::inner_entries::{base_of_number, is_layered};
use crate::library::Inner;
use crate::lists::Reader;
use crate::media::Medium;
use crate::medium_entries::mode_at;
use indexmap::IndexMap;
use std::alloc::Global;
use vbm_machines::{Held, Slot};
use vbm_modes::Mode;
use vbm_world::PORT_LIMIT;

fn is_next(before: &[Slot], port: u8) -> bool
    ensures { result ≡ nat_le (next_port before.now) port }
{
    match before {
        [.., last] => last.port < port,
        [] => true,
    }
}

#[tactic(auto, unfolding(crate::specs::Grammar::port_after))]
fn read_port(before: &[Slot], fields: &mut Fields) -> Result<u8, BadField>
    ensures { GivesField result fields.new ((port_after before.now).read fields.old) }
{
    let start = fields.bad();
    let port = fields.u8()?;
    if is_next(before, port) && port < PORT_LIMIT {
        Ok(port)
    } else {
        Err(start)
    }
}

fn has_place(slots: &[Slot], medium: u32) -> bool
    ensures { result ≡ takes_place medium slots.now }
{
    slots.iter().any(|slot| slot.medium == medium)
}

#[tactic(auto, unfolding(crate::specs::Grammar::other_medium))]
fn read_other_medium(count: usize, before: &[Slot], fields: &mut Fields) -> Result<u32, BadField>
    ensures { GivesField result fields.new ((other_medium count before.now).read fields.old) }
{
    let start = fields.bad();
    let medium = fields.u16()? as u32;
    if (medium as usize) < count && !has_place(before, medium) {
        Ok(medium)
    } else {
        Err(start)
    }
}

#[tactic(auto, unfolding(crate::specs::Grammar::flag_field))]
fn read_flag(fields: &mut Fields) -> Result<bool, BadField>
    ensures { GivesField result fields.new (flag_field.read fields.old) }
{
    let start = fields.bad();
    match fields.u8()? {
        0 => Ok(false),
        1 => Ok(true),
        _ => Err(start),
    }
}

fn is_immutable(mode: Mode) -> bool
    ensures { result ≡ immutable mode }
{
    matches!(mode, Mode::Immutable)
}

#[tactic(auto, unfolding(crate::specs::Grammar::autoreset_field))]
fn read_autoreset(mode: Mode, fields: &mut Fields) -> Result<bool, BadField>
    ensures { GivesField result fields.new ((autoreset_field mode).read fields.old) }
{
    let start = fields.bad();
    let on = read_flag(fields)?;
    if on && !is_immutable(mode) {
        return Err(start);
    }
    Ok(on)
}

// Whether a slot may use the medium's own image, or a place of a snapshot.
fn may_hold_directly(of_snapshot: bool, mode: Mode) -> bool
    ensures { result ≡ holds of_snapshot mode (coded_held 0 0) }
{
    match mode {
        Mode::Normal => !of_snapshot,
        Mode::Writethrough | Mode::Readonly => true,
        Mode::Immutable | Mode::MultiAttach => false,
    }
}

// Whether a slot may hold what this number stands for.
fn may_hold(of_snapshot: bool, mode: Mode, kind: u8) -> bool
    ensures { result ≡ (nat_lt kind 3 && holds of_snapshot mode (coded_held kind 0)) }
{
    match kind {
        0 => may_hold_directly(of_snapshot, mode),
        1 => is_layered(mode),
        2 => of_snapshot && matches!(mode, Mode::Normal),
        _ => false,
    }
}

/// Reads slots of machines, or places of snapshots.
#[derive(Drop)]
pub struct SlotReader<'a> {
    pub of_snapshot: bool,
    pub media: &'a [Medium],
    pub inners: &'a [Inner],
    pub bases: &'a IndexMap<u64, u32>,
}

#[tactic(auto, unfolding(crate::specs::Grammar::held_fields))]
fn read_held(reader: &SlotReader, medium: u32, fields: &mut Fields) -> Result<Held, BadField>
    requires { TellsBases (get nat_eq reader.now.bases.now) reader.now.inners.now }
    ensures { GivesField result fields.new ((held_fields reader.now.of_snapshot reader.now.media.now reader.now.inners.now medium).read fields.old) }
{
    let start = fields.bad();
    let kind = fields.u8()?;
    if !may_hold(reader.of_snapshot, mode_at(reader.media, medium), kind) {
        return Err(start);
    }
    match kind {
        0 => Ok(Held::Direct),
        1 => {
            let start = fields.bad();
            let number = fields.u64()?;
            match base_of_number(reader.bases, number) {
                Some(place) if place == medium => Ok(Held::Own(number)),
                _ => Err(start),
            }
        }
        _ => Ok(Held::Base),
    }
}

impl<'a> Reader for SlotReader<'a> {
    ghost use Rattle.std.specs.Prelude.{nat_eq};
    ghost use Rattle.indexmap.specs.IndexMap.{get};
    ghost use Rattle.vbm_registry.specs.Grammar.{slot_entry};
    ghost use Rattle.vbm_registry.specs.Summaries.{TellsBases};

    type Item = Slot;

    ghost item = { λ r. slot_entry r.of_snapshot r.media.now r.inners.now };

    ghost follows = { λ r _. TellsBases (get nat_eq r.bases.now) r.inners.now };

    ghost fixed = { λ _. 0 };

    ghost apart = { λ _ _. Unit {0} };

    #[tactic(auto, unfolding(crate::specs::Grammar::slot_entry))]
    fn next(&mut self, _alloc: Global, before: &[Slot], fields: &mut Fields) -> Result<Slot, Stop> {
        let port = read_port(before, fields)?;
        let medium = read_other_medium(self.media.len(), before, fields)?;
        let autoreset = read_autoreset(mode_at(self.media, medium), fields)?;
        let held = read_held(self, medium, fields)?;
        Ok(Slot {
            port,
            medium,
            autoreset,
            held,
        })
    }
}
