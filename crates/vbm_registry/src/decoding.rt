//! A library from the bytes of its file.

ghost use Rattle.std.specs.Prelude.{◌≡◌, IfOk, Ok};
ghost use Rattle.vbm_registry.specs.declared.library.Library.{Library};
ghost use Rattle.vbm_registry.specs.declared.features.TheConstants.{BUILT};
ghost use Rattle.vbm_registry.specs.Spelling.{spelling};
ghost use Rattle.vbm_registry.specs.Grammar.{library_fields, whole, library_in, IsDecoded};
ghost use Rattle.vbm_registry.specs.PlaceRules.{keeps_places as keeps_all_places};
ghost use Rattle.vbm_registry.specs.Given.{GivesWhole, Decodes};

use crate::cursor::{Fields, Stop};
use crate::fault::DecodeFault;
use crate::features::{BUILT, Features};
use crate::library::{LONGEST_LIBRARY, Library};
use crate::library_fields::read_library;
use crate::places::keeps_places;
use std::alloc::Global;

const HEAD: &[u8; 8] = b"VBMLIB01";

fn read_whole(alloc: Global, built: Features, bytes: &[u8]) -> Result<Library, Stop>
    ensures { GivesWhole result (whole keeps_all_places ((library_fields built).read bytes.now)) }
{
    let mut fields = Fields::new(bytes);
    let library = read_library(alloc, built, &mut fields)?;
    if fields.left() != 0 {
        return Err(Stop::Left(fields.left()));
    }
    if keeps_places(alloc, &library)? {
        Ok(library)
    } else {
        Err(Stop::Left(0))
    }
}

#[tactic(auto, unfolding(crate::specs::Grammar::library_in))]
fn read_file(alloc: Global, built: Features, bytes: &[u8]) -> Result<Library, DecodeFault>
    ensures { Decodes result (library_in built keeps_all_places bytes.now) }
{
    if !bytes.starts_with(HEAD) {
        return Err(DecodeFault::Bad(0));
    }
    if bytes.len() > LONGEST_LIBRARY {
        return Err(DecodeFault::Bad(LONGEST_LIBRARY as u32));
    }
    match read_whole(alloc, built, &bytes[HEAD.len()..]) {
        Ok(library) => Ok(library),
        Err(Stop::NoMemory) => Err(DecodeFault::NoMemory),
        Err(Stop::Left(left)) => Err(DecodeFault::Bad(bytes.len().saturating_sub(left) as u32)),
    }
}

/// The library that a file holds, where these parts of it may be in use.
///
/// A file that does not begin as a library's does is bad at 0, and one of more than [`LONGEST_LIBRARY`] bytes at that place. Otherwise the
/// fault is at the first field that breaks a rule or that the file is too short for, at the first byte after the last field, or at the
/// file's end where the library as a whole breaks the rules on places.
pub fn decode_with(alloc: Global, built: Features, bytes: &[u8]) -> Result<Library, DecodeFault>
    ensures exact { Decodes result (library_in built keeps_all_places bytes.now) }
    ensures spelled { IfOk result (λ l. IsDecoded built keeps_all_places l × (bytes.now ≡ spelling l)) }
    ensures only { (l : Library) → IsDecoded built keeps_all_places l → bytes.now ≡ spelling l → Decodes result (Ok l) }
{
    read_file(alloc, built, bytes)
}

/// The library that a file holds, as [`decode_with`] finds it where the parts of [`BUILT`] are in use.
pub fn decode(alloc: Global, bytes: &[u8]) -> Result<Library, DecodeFault>
    ensures exact { Decodes result (library_in BUILT keeps_all_places bytes.now) }
    ensures spelled { IfOk result (λ l. IsDecoded BUILT keeps_all_places l × (bytes.now ≡ spelling l)) }
    ensures only { (l : Library) → IsDecoded BUILT keeps_all_places l → bytes.now ≡ spelling l → Decodes result (Ok l) }
{
    decode_with(alloc, BUILT, bytes)
}
