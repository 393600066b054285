//! Copies of a library for a list of media that got a medium, or lost one.

ghost use Rattle.std.specs.Prelude.{◌≡◌, map, IfOk};
ghost use Rattle.std.specs.List.{AllByRecursion};
ghost use Rattle.vbm_machines.specs.Renumbering.{place_after};
ghost use Rattle.vbm_registry.specs.declared.library.Inner.{Inner};
ghost use Rattle.vbm_registry.specs.declared.library.Merging.{Merging};
ghost use Rattle.vbm_registry.specs.Renumbered.{ref_moved, inner_moved, merging_moved, library_moved, IsLowRef, HasLowPlaces};

use crate::library::{ImageRef, Inner, Inners, Library, Merging, Mergings};
use std::alloc::Global;
use vbm_machines::{Renumbering, renumbered};
use vbm_ports::{Copied, NoMemory, Sequence};

fn ref_moved(renumbering: Renumbering, image: ImageRef) -> ImageRef
    requires { IsLowRef image }
    ensures { result ≡ ref_moved (place_after renumbering) image }
{
    match image {
        ImageRef::Medium(place) => ImageRef::Medium(renumbering.place(place)),
        ImageRef::Inner(number) => ImageRef::Inner(number),
    }
}

fn inners_moved(
    alloc: Global,
    renumbering: Renumbering,
    inners: &[Inner],
) -> Result<Inners, NoMemory>
    requires { AllByRecursion (λ (x : Inner). IsLowRef x.parent) inners.now }
    ensures { IfOk result (λ all. all ≡ map (inner_moved (place_after renumbering)) inners.now) }
{
    let mut all = Sequence::new(alloc);
    let mut rest = inners;
    while let [inner, after @ ..] = rest {
        all.push(Inner {
            parent: ref_moved(renumbering, inner.parent),
            ..*inner
        })?;
        rest = after;
    }
    Ok(all)
}

fn mergings_moved(
    alloc: Global,
    renumbering: Renumbering,
    mergings: &[Merging],
) -> Result<Mergings, NoMemory>
    requires { AllByRecursion (λ (j : Merging). IsLowRef j.parent) mergings.now }
    ensures { IfOk result (λ all. all ≡ map (merging_moved (place_after renumbering)) mergings.now) }
{
    let mut all = Sequence::new(alloc);
    let mut rest = mergings;
    while let [merging, after @ ..] = rest {
        all.push(Merging {
            parent: ref_moved(renumbering, merging.parent),
            ..*merging
        })?;
        rest = after;
    }
    Ok(all)
}

/// A copy whose places of media are what they become.
pub(crate) fn moved(
    alloc: Global,
    renumbering: Renumbering,
    library: &Library,
) -> Result<Library, NoMemory>
    requires { HasLowPlaces library.now }
    ensures { IfOk result (λ l. l ≡ library_moved (place_after renumbering) library.now) }
{
    Ok(Library {
        seed: library.seed,
        next: library.next,
        inner: library.inner,
        media: library.media.copied(alloc)?,
        inners: inners_moved(alloc, renumbering, library.inners.as_slice())?,
        machines: renumbered(alloc, renumbering, &library.machines)?,
        making: Copied::copied(&library.making, alloc)?,
        merging: mergings_moved(alloc, renumbering, library.merging.as_slice())?,
    })
}
