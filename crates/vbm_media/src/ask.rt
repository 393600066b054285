//! Commands that ask: a store answers them without its disk.

ghost use Rattle.std.specs.Prelude.{◌≡◌, false, map, IfOk, IfErr};
ghost use Rattle.vbm_ports.specs.Files.{Files};
ghost use Rattle.vbm_registry.specs.Library.{medium_entry_name};
ghost use Rattle.vbm_registry.specs.Named.{named};
ghost use Rattle.vbm_registry.specs.Rules.{IsLibrary};
ghost use Rattle.vbm_standing.specs.Headers.{variant_of as variant_by_type};
ghost use Rattle.vbm_standing.specs.Meaning.{is_frozen_in};
ghost use Rattle.vbm_world.specs.declared.command.Command.TheVariants.{ShowMediumInfo, ListHdds};
ghost use Rattle.vbm_world.specs.declared.command.Answer.TheVariants as answers;
ghost use Rattle.vbm_store.specs.Serves.{IsSoundStore, Holds};
ghost use Rattle.vbm_store.specs.Undone.{has_failed};
ghost use Rattle.vbm_store.specs.Steps.{Answers, Refuses};

use std::alloc::Global;
use vbm_header::ImageType;
use vbm_image::Image;
use vbm_named::names::find;
use vbm_ports::{Names, NoMemory, Text};
use vbm_registry::{Library, Media, Medium};
use vbm_store::{Store, Undone, is_frozen};
use vbm_volume::Variant;
use vbm_world::{Answer, Refusal};

fn variant_of(image_type: ImageType) -> Variant
    ensures { result ≡ variant_by_type image_type }
{
    match image_type {
        ImageType::Dynamic | ImageType::Differencing => Variant::Standard,
        ImageType::Fixed => Variant::Fixed,
    }
}

fn info(library: &Library, medium: &Medium, image: &Image) -> Answer
    requires { IsLibrary (named library.now) }
    ensures { result ≡ answers.Info image.now.header.id image.now.header.modify medium.now.mode
        (variant_by_type image.now.header.image_type) image.now.header.capacity (is_frozen_in (named library.now).machines medium.now) }
{
    let header = &image.header;
    Answer::Info {
        id: header.id,
        modify: header.modify,
        mode: medium.mode,
        variant: variant_of(header.image_type),
        capacity: header.capacity,
        frozen: is_frozen(library, medium),
    }
}

/// The answer to `showmediuminfo`.
pub fn answer_show(store: &Store, name: &[u8]) -> Result<Answer, Undone<Refusal>>
    requires sound { IsSoundStore store.now }
    ensures answer { (files : Files) → Holds store.now.library store.now.images files
        → IfOk result (Answers files store.now (ShowMediumInfo name.now)) }
    ensures refused { (files : Files) → Holds store.now.library store.now.images files
        → IfErr result (Refuses files store.now (ShowMediumInfo name.now)) }
    ensures no_fault { has_failed result ≡ false }
{
    let Some(medium) = store.library.media.find(name) else {
        return Err(Undone::Refused(Refusal::NoSuchMedium));
    };
    let Some(image) = find(store.images.as_slice(), name) else {
        return Err(Undone::Refused(Refusal::NoSuchMedium));
    };
    Ok(info(&store.library, medium, image))
}

fn media_names(alloc: Global, media: &Media) -> Result<Names, NoMemory>
    ensures { IfOk result (λ names. names ≡ map medium_entry_name media.now) }
{
    let mut names = Names::new(alloc);
    for i in 0..media.len() {
        names.push(Text::new(alloc, media.get(i).name.bytes())?)?;
    }
    Ok(names)
}

/// The answer to `list hdds`.
pub fn answer_list(alloc: Global, store: &Store) -> Result<Answer, NoMemory>
    ensures { (files : Files) → IfOk result (Answers files store.now ListHdds) }
{
    Ok(Answer::MediaList(media_names(alloc, &store.library.media)?))
}
