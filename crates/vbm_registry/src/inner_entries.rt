//! Inner images as a library's file lists them.

ghost use Rattle.std.specs.Prelude.{◌≡◌, List, ℕ, nat_eq, nat_le};
ghost use Rattle.indexmap.specs.IndexMap.{get};
ghost use Rattle.vbm_world.specs.World.{is_layered as layered};
ghost use Rattle.vbm_registry.specs.declared.library.Inner.{Inner};
ghost use Rattle.vbm_registry.specs.Grammar.{ref_numbers, ref_field, base_of, may_stand as stands, next_number, inner_number};
ghost use Rattle.vbm_registry.specs.Summaries.{TellsBases};
ghost use Rattle.vbm_registry.specs.Given.{GivesField};

use crate::cursor::{BadField, Fields, Stop};
use crate::library::{ImageRef, Inner};
use crate::lists::Reader;
use crate::media::Medium;
use crate::medium_entries::mode_at;
use indexmap::IndexMap;
use std::alloc::Global;
use vbm_modes::Mode;

#[tactic(auto, unfolding(crate::specs::Grammar::ref_numbers))]
fn read_ref_numbers(fields: &mut Fields) -> Result<ImageRef, BadField>
    ensures { GivesField result fields.new (ref_numbers.read fields.old) }
{
    let start = fields.bad();
    match fields.u8()? {
        0 => Ok(ImageRef::Medium(fields.u16()? as u32)),
        1 => Ok(ImageRef::Inner(fields.u64()?)),
        _ => Err(start),
    }
}

/// Reads which image is meant. All of it is one field.
#[tactic(auto, unfolding(crate::specs::Grammar::ref_field))]
pub fn read_ref(fields: &mut Fields) -> Result<ImageRef, BadField>
    ensures { GivesField result fields.new (ref_field.read fields.old) }
{
    let start = fields.bad();
    match read_ref_numbers(fields) {
        Ok(image) => Ok(image),
        Err(_) => Err(start),
    }
}

/// Whether machines may have images of their own over a medium of this mode.
pub fn is_layered(mode: Mode) -> bool
    ensures { result ≡ layered mode }
{
    matches!(mode, Mode::Normal | Mode::Immutable | Mode::MultiAttach)
}

fn may_stand(media: &[Medium], base: Option<u32>) -> bool
    ensures { result ≡ stands media.now base }
{
    match base {
        None => false,
        Some(place) => (place as usize) < media.len() && is_layered(mode_at(media, place)),
    }
}

fn is_next(before: &[Inner], number: u64) -> bool
    ensures { result ≡ nat_le (next_number before.now) number }
{
    match before {
        [.., last] => last.number < number,
        [] => true,
    }
}

#[tactic(auto, unfolding(crate::specs::Grammar::inner_number))]
fn read_number(inner: u64, before: &[Inner], fields: &mut Fields) -> Result<u64, BadField>
    ensures { GivesField result fields.new ((inner_number inner before.now).read fields.old) }
{
    let start = fields.bad();
    let number = fields.u64()?;
    if is_next(before, number) && number < inner {
        Ok(number)
    } else {
        Err(start)
    }
}

/// The place of the medium below an inner image, by its number.
pub fn base_of_number(bases: &IndexMap<u64, u32>, number: u64) -> Option<u32>
    ensures { result ≡ get nat_eq bases.now number }
{
    match bases.get(&number) {
        Some(place) => Some(*place),
        None => None,
    }
}

fn base_below(bases: &IndexMap<u64, u32>, image: ImageRef) -> Option<u32>
    ensures { (inners : List Inner) → TellsBases (get nat_eq bases.now) inners → result ≡ base_of inners image }
{
    match image {
        ImageRef::Medium(place) => Some(place),
        ImageRef::Inner(number) => base_of_number(bases, number),
    }
}

/// Reads inner images, and keeps the place of the medium below each.
#[derive(Drop)]
pub struct InnerReader<'a> {
    pub media: &'a [Medium],
    pub inner: u64,
    pub bases: IndexMap<u64, u32>,
}

impl<'a> Reader for InnerReader<'a> {
    ghost use Rattle.std.specs.Prelude.{nat_eq};
    ghost use Rattle.indexmap.specs.IndexMap.{get};
    ghost use Rattle.vbm_registry.specs.Grammar.{inner_entry};
    ghost use Rattle.vbm_registry.specs.Summaries.{TellsBases};

    type Item = Inner;

    ghost item = { λ r. inner_entry r.media.now r.inner };

    ghost follows = { λ r before. TellsBases (get nat_eq r.bases) before };

    ghost fixed = { λ _. 0 };

    ghost apart = { λ _ _. Unit {0} };

    #[tactic(auto, unfolding(crate::specs::Grammar::inner_entry))]
    fn next(
        &mut self,
        _alloc: Global,
        before: &[Inner],
        fields: &mut Fields,
    ) -> Result<Inner, Stop> {
        let number = read_number(self.inner, before, fields)?;
        let start = fields.left();
        let parent = read_ref(fields)?;
        let below = base_below(&self.bases, parent);
        if !may_stand(self.media, below) {
            return Err(Stop::Left(start));
        }
        match below {
            None => Err(Stop::Left(start)),
            Some(place) => {
                if self.bases.insert(number, place).is_err() {
                    return Err(Stop::NoMemory);
                }
                Ok(Inner { number, parent })
            }
        }
    }
}
