//! The fields of a library's file behind its head.

ghost use Rattle.std.specs.Prelude.{◌≡◌, nat_eq, IfOk};
ghost use Rattle.indexmap.specs.IndexMap.{get};
ghost use Rattle.vbm_named.specs.Names.{has_name};
ghost use Rattle.vbm_registry.specs.Library.{medium_entry_name};
ghost use Rattle.vbm_registry.specs.Grammar.{medium_list, inner_list, machine_list, new_name, making_field, merging_list, counters, lists, library_fields};
ghost use Rattle.vbm_registry.specs.Summaries.{TellsBases};
ghost use Rattle.vbm_registry.specs.Given.{Gives, GivesBy, GivesFieldBy};

use crate::cursor::{BadField, Fields, Stop};
use crate::features::Features;
use crate::inner_entries::{InnerReader, read_ref};
use crate::library::{Inner, Inners, Library, Merging, Mergings};
use crate::lists::{Reader, read_list, read_named};
use crate::machine_entries::{MachineReader, limit};
use crate::media::{Media, Medium};
use crate::medium_entries::MediumReader;
use indexmap::IndexMap;
use std::alloc::Global;
use uuid::Uuid;
use vbm_ids::NUMBER_LIMIT;
use vbm_machines::Machines;
use vbm_ports::{Text, names_medium};
use vbm_world::{MACHINE_LIMIT, MEDIA_LIMIT, PORT_LIMIT};

#[tactic(auto, unfolding(crate::specs::Grammar::medium_list))]
fn read_media(alloc: Global, built: Features, fields: &mut Fields) -> Result<Media, Stop>
    ensures { Gives result fields.new ((medium_list built).read fields.old) }
{
    let count = fields.limited_u16(MEDIA_LIMIT)?;
    read_named(alloc, &mut MediumReader { built }, count, fields)
}

/// Inner images, and the place of the medium below each by its number.
#[derive(Drop)]
struct BasedInners {
    inners: Inners,
    bases: IndexMap<u64, u32>,
}

#[tactic(auto, unfolding(crate::specs::Grammar::inner_list))]
fn read_inners(
    alloc: Global,
    built: Features,
    media: &[Medium],
    inner: u64,
    fields: &mut Fields,
) -> Result<BasedInners, Stop>
    ensures gives { GivesBy (λ b. b.inners) result fields.new ((inner_list built media.now inner).read fields.old) }
    ensures tells { IfOk result (λ b. TellsBases (get nat_eq b.bases) b.inners) }
{
    let count = fields.limited_u16(limit(built.inner_images, 65535))?;
    let mut reader = InnerReader {
        media,
        inner,
        bases: IndexMap::new(alloc),
    };
    let inners = read_list(alloc, &mut reader, count, fields)?;
    let InnerReader { bases, .. } = reader;
    Ok(BasedInners { inners, bases })
}

#[tactic(auto, unfolding(crate::specs::Grammar::machine_list))]
fn read_machines(
    alloc: Global,
    built: Features,
    media: &[Medium],
    inners: &[Inner],
    bases: &IndexMap<u64, u32>,
    fields: &mut Fields,
) -> Result<Machines, Stop>
    requires { TellsBases (get nat_eq bases.now) inners.now }
    ensures { Gives result fields.new ((machine_list built media.now inners.now).read fields.old) }
{
    let count = fields.limited_u16(limit(built.machines, MACHINE_LIMIT))?;
    let mut reader = MachineReader {
        built,
        media,
        inners,
        bases,
        snapshots: 0,
        places: 0,
    };
    read_named(alloc, &mut reader, count, fields)
}

fn has_medium(media: &Media, name: &[u8]) -> bool
    ensures { result ≡ has_name medium_entry_name name.now media.now }
{
    match media.find(name) {
        Some(_) => true,
        None => false,
    }
}

#[tactic(auto, unfolding(crate::specs::Grammar::new_name))]
fn read_new_name(alloc: Global, media: &Media, fields: &mut Fields) -> Result<Text, Stop>
    ensures { Gives result fields.new ((new_name media.now).read fields.old) }
{
    let start = fields.left();
    let name = fields.text(alloc)?;
    if names_medium(name.bytes()) && !has_medium(media, name.bytes()) {
        Ok(name)
    } else {
        Err(Stop::Left(start))
    }
}

#[tactic(auto, unfolding(crate::specs::Grammar::making_field, crate::specs::Parts::items))]
fn read_making(
    alloc: Global,
    built: Features,
    media: &Media,
    fields: &mut Fields,
) -> Result<Option<Text>, Stop>
    ensures { Gives result fields.new ((making_field built media.now).read fields.old) }
{
    let start = fields.left();
    match fields.u8()? {
        0 => Ok(None),
        1 if built.makings => Ok(Some(read_new_name(alloc, media, fields)?)),
        _ => Err(Stop::Left(start)),
    }
}

/// Reads mergings.
#[derive(Drop)]
struct MergingReader {}

impl Reader for MergingReader {
    ghost use Rattle.vbm_registry.specs.Grammar.{merging_entry};

    type Item = Merging;

    ghost item = { λ _ _. merging_entry };

    ghost follows = { λ _ _. Unit {0} };

    ghost fixed = { λ _. 0 };

    ghost apart = { λ _ _. Unit {0} };

    #[tactic(auto, unfolding(crate::specs::Grammar::merging_entry))]
    fn next(
        &mut self,
        _alloc: Global,
        _before: &[Merging],
        fields: &mut Fields,
    ) -> Result<Merging, Stop> {
        let parent = read_ref(fields)?;
        let child = fields.u64()?;
        let number = fields.u64()?;
        Ok(Merging {
            parent,
            child,
            number,
        })
    }
}

#[tactic(auto, unfolding(crate::specs::Grammar::merging_list))]
fn read_mergings(alloc: Global, built: Features, fields: &mut Fields) -> Result<Mergings, Stop>
    ensures { Gives result fields.new ((merging_list built).read fields.old) }
{
    let count = fields.limited_u8(limit(built.mergings, PORT_LIMIT as usize))?;
    read_list(alloc, &mut MergingReader {}, count as u16, fields)
}

// The seed of identifiers, and how many were drawn.
#[derive(Clone, Copy)]
struct Counters {
    seed: Uuid,
    next: u64,
    inner: u64,
}

#[tactic(auto, unfolding(crate::specs::Grammar::counters, crate::specs::Grammar::drawn_field))]
fn read_counters(fields: &mut Fields) -> Result<Counters, BadField>
    ensures { GivesFieldBy (λ c. (c.seed, (c.next, c.inner))) result fields.new (counters.read fields.old) }
{
    let seed = fields.seed()?;
    let next = fields.limited_u64(NUMBER_LIMIT)?;
    let inner = fields.limited_u64(NUMBER_LIMIT)?;
    Ok(Counters {
        seed: Uuid::from_bytes(seed),
        next,
        inner,
    })
}

// The three long lists.
#[derive(Drop)]
struct Lists {
    media: Media,
    inners: Inners,
    machines: Machines,
}

#[tactic(auto, unfolding(crate::specs::Grammar::lists))]
fn read_lists(
    alloc: Global,
    built: Features,
    inner: u64,
    fields: &mut Fields,
) -> Result<Lists, Stop>
    ensures { GivesBy (λ l. (l.media, (l.inners, l.machines))) result fields.new ((lists built inner).read fields.old) }
{
    let media = read_media(alloc, built, fields)?;
    let BasedInners { inners, bases } = read_inners(alloc, built, media.as_slice(), inner, fields)?;
    let machines = read_machines(
        alloc,
        built,
        media.as_slice(),
        inners.as_slice(),
        &bases,
        fields,
    )?;
    Ok(Lists {
        media,
        inners,
        machines,
    })
}

/// Reads the fields behind the head.
#[tactic(auto, unfolding(crate::specs::Grammar::library_fields))]
pub fn read_library(alloc: Global, built: Features, fields: &mut Fields) -> Result<Library, Stop>
    ensures { Gives result fields.new ((library_fields built).read fields.old) }
{
    let counters = read_counters(fields)?;
    let lists = read_lists(alloc, built, counters.inner, fields)?;
    let making = read_making(alloc, built, &lists.media, fields)?;
    let merging = read_mergings(alloc, built, fields)?;
    Ok(Library {
        seed: counters.seed,
        next: counters.next,
        inner: counters.inner,
        media: lists.media,
        inners: lists.inners,
        machines: lists.machines,
        making,
        merging,
    })
}
