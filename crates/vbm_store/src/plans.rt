//! The changes that commands commit.

ghost use Rattle.std.specs.Prelude.{◌≡◌, ◌+◌, ◌-◌, ◌*◌, ◌<◌, ◌≤◌, ◌^◌, [], ◌∷◌, ◌++◌, length, IfOk, OnOk, IsTrue, Ok};
ghost use Rattle.vbm_ports.specs.Names.{is_medium_name};
ghost use Rattle.vbm_header.specs.declared.ImageType.TheVariants.{Dynamic};
ghost use Rattle.vbm_header.specs.Written.{header_bytes};
ghost use Rattle.vbm_intent.specs.declared.change.Change.TheVariants.{Write, Fill, Cut};
ghost use Rattle.vbm_intent.specs.Changes.{of_file, IsAllowed};
ghost use Rattle.vbm_intent.specs.Plan.{body_size};
ghost use Rattle.vbm_volume.specs.Like.{map_end};
ghost use Rattle.vbm_volume.specs.Made.{IsNewHeader};
ghost use Rattle.vbm_registry.specs.Library.{library_name};
ghost use Rattle.vbm_registry.specs.Spelling.{spelling};
ghost use Rattle.vbm_registry.specs.declared.features.TheConstants.{BUILT as built};
ghost use Rattle.vbm_registry.specs.Grammar.{library_in, library_off};
ghost use Rattle.vbm_registry.specs.PlaceRules.{keeps_places};
ghost use Rattle.vbm_store.specs.Serves.{IsWritable};
ghost use Rattle.vbm_store.specs.Plans.{library_changes, gap_changes, front_changes, image_changes, EndsBy};
ghost use Rattle.vbm_intent.specs.declared.limits.TheConstants.{MOST_CHANGES};
ghost use Rattle.vbm_registry.specs.declared.library.TheConstants.{LONGEST_LIBRARY};

use std::alloc::Global;
use vbm_header::{Header, WRITTEN_LEN, write_header};
use vbm_intent::{Change, Plan};
use vbm_ports::{Bytes, LIBRARY_NAME, NoMemory, Text};
use vbm_registry::{Library, encode};

// Each of these adds a change behind the others of its file.

fn push_write(alloc: Global, plan: &mut Plan, name: &[u8], bytes: Bytes) -> Result<(), NoMemory>
    requires allowed { IsAllowed (Write name.now 0 bytes) }
    requires apart { of_file name.now plan.old.changes ≡ [] }
    requires bytes { length bytes ≤ LONGEST_LIBRARY }
    requires small { body_size plan.old.changes ≤ 2 ^ 24 }
    requires few { length plan.old.changes < MOST_CHANGES }
    ensures ok { OnOk result (plan.new.changes ≡ plan.old.changes ++ Write name.now 0 bytes ∷ []) }
    ensures behind { OnOk result (EndsBy (length bytes) (of_file name.now plan.new.changes)) }
    ensures size { OnOk result (body_size plan.new.changes ≤ body_size plan.old.changes + length bytes + 100) }
    ensures count { OnOk result (length plan.new.changes ≡ length plan.old.changes + 1) }
{
    let name = Text::new(alloc, name)?;
    plan.push(Change::Write { name, at: 0, bytes })
}

fn push_fill(
    alloc: Global,
    plan: &mut Plan,
    name: &[u8],
    at: u64,
    len: u64,
    byte: u8,
) -> Result<(), NoMemory>
    requires allowed { IsAllowed (Fill name.now at len byte) }
    requires apart { EndsBy at (of_file name.now plan.old.changes) }
    requires small { body_size plan.old.changes ≤ 2 ^ 24 }
    requires few { length plan.old.changes < MOST_CHANGES }
    ensures ok { OnOk result (plan.new.changes ≡ plan.old.changes ++ Fill name.now at len byte ∷ []) }
    ensures behind { OnOk result (EndsBy (at + len) (of_file name.now plan.new.changes)) }
    ensures size { OnOk result (body_size plan.new.changes ≤ body_size plan.old.changes + 100) }
    ensures count { OnOk result (length plan.new.changes ≡ length plan.old.changes + 1) }
{
    let name = Text::new(alloc, name)?;
    plan.push(Change::Fill {
        name,
        at,
        len,
        byte,
    })
}

fn push_cut(alloc: Global, plan: &mut Plan, name: &[u8], len: u64) -> Result<(), NoMemory>
    requires allowed { IsAllowed (Cut name.now len) }
    requires apart { EndsBy len (of_file name.now plan.old.changes) }
    requires small { body_size plan.old.changes ≤ 2 ^ 24 }
    requires few { length plan.old.changes < MOST_CHANGES }
    ensures ok { OnOk result (plan.new.changes ≡ plan.old.changes ++ Cut name.now len ∷ []) }
    ensures size { OnOk result (body_size plan.new.changes ≤ body_size plan.old.changes + 100) }
    ensures count { OnOk result (length plan.new.changes ≡ length plan.old.changes + 1) }
{
    let name = Text::new(alloc, name)?;
    plan.push(Change::Cut { name, len })
}

/// Adds the writing of the library, as it is with every machine off.
pub fn plan_library(alloc: Global, plan: &mut Plan, library: &Library) -> Result<(), NoMemory>
    requires library { IsWritable library.now }
    requires apart { of_file library_name plan.old.changes ≡ [] }
    requires small { body_size plan.old.changes ≤ 2 ^ 22 }
    requires few { length plan.old.changes ≤ 2 ^ 15 }
    ensures ok { OnOk result (plan.new.changes ≡ plan.old.changes ++ library_changes library.now) }
    ensures again { OnOk result (library_in built keeps_places (spelling library.now) ≡ Ok (library_off library.now)) }
{
    let bytes = encode(alloc, library)?;
    let len = bytes.len() as u64;
    push_write(alloc, plan, LIBRARY_NAME, bytes)?;
    push_cut(alloc, plan, LIBRARY_NAME, len)
}

/// The plan that writes the library, as it is with every machine off, and no more.
pub fn library_plan(alloc: Global, library: &Library) -> Result<Plan, NoMemory>
    requires library { IsWritable library.now }
    ensures { IfOk result (λ plan. plan.changes ≡ library_changes library.now) }
{
    let mut plan = Plan::new(alloc);
    plan_library(alloc, &mut plan, library)?;
    Ok(plan)
}

// The header, zeros up to the block map, and a map of free blocks.
fn plan_front(alloc: Global, plan: &mut Plan, name: &[u8], header: &Header) -> Result<(), NoMemory>
    requires name { IsTrue (is_medium_name name.now) }
    requires header { IsNewHeader header.now }
    requires apart { of_file name.now plan.old.changes ≡ [] }
    requires small { body_size plan.old.changes ≤ 2 ^ 22 }
    requires few { length plan.old.changes ≤ 2 ^ 15 }
    ensures ok { OnOk result (plan.new.changes ≡ plan.old.changes ++ front_changes name.now header.now) }
    ensures behind { OnOk result (EndsBy (map_end header.now) (of_file name.now plan.new.changes)) }
    ensures size { OnOk result (body_size plan.new.changes ≤ body_size plan.old.changes + 800) }
    ensures count { OnOk result (length plan.new.changes ≡ length plan.old.changes + 3) }
{
    let mut start = [0; WRITTEN_LEN];
    write_header(header, &mut start);
    let bytes = Bytes::from_slice(alloc, &start)?;
    let off_blocks = u64::from(header.off_blocks);
    let map_len = 4 * u64::from(header.blocks);
    let written = WRITTEN_LEN as u64;
    push_write(alloc, plan, name, bytes)?;
    push_fill(alloc, plan, name, written, off_blocks - written, 0)?;
    push_fill(alloc, plan, name, off_blocks, map_len, 255)
}

// Zeros from the end of the block map to the data.
fn plan_gap(alloc: Global, plan: &mut Plan, name: &[u8], header: &Header) -> Result<(), NoMemory>
    requires name { IsTrue (is_medium_name name.now) }
    requires header { IsNewHeader header.now }
    requires apart { EndsBy (map_end header.now) (of_file name.now plan.old.changes) }
    requires small { body_size plan.old.changes ≤ 2 ^ 23 }
    requires few { length plan.old.changes ≤ 2 ^ 15 + 10 }
    ensures ok { OnOk result (plan.new.changes ≡ plan.old.changes ++ gap_changes name.now header.now) }
    ensures behind { OnOk result (EndsBy (header.now).off_data (of_file name.now plan.new.changes)) }
    ensures size { OnOk result (body_size plan.new.changes ≤ body_size plan.old.changes + 100) }
    ensures count { OnOk result (length plan.new.changes ≤ length plan.old.changes + 1) }
{
    let map_end = u64::from(header.off_blocks) + 4 * u64::from(header.blocks);
    let off_data = u64::from(header.off_data);
    if map_end < off_data {
        return push_fill(alloc, plan, name, map_end, off_data - map_end, 0);
    }
    Ok(())
}

/// Adds the making of an image whose blocks are all free: at most five changes, and 1000 bytes.
pub fn plan_image(
    alloc: Global,
    plan: &mut Plan,
    name: &[u8],
    header: &Header,
) -> Result<(), NoMemory>
    requires name { IsTrue (is_medium_name name.now) }
    requires header { IsNewHeader header.now }
    requires apart { of_file name.now plan.old.changes ≡ [] }
    requires small { body_size plan.old.changes ≤ 2 ^ 22 }
    requires few { length plan.old.changes ≤ 2 ^ 15 }
    ensures ok { OnOk result (plan.new.changes ≡ plan.old.changes ++ image_changes name.now header.now) }
    ensures size { OnOk result (body_size plan.new.changes ≤ body_size plan.old.changes + 1000) }
    ensures count { OnOk result (length plan.new.changes ≤ length plan.old.changes + 5) }
{
    plan_front(alloc, plan, name, header)?;
    plan_gap(alloc, plan, name, header)?;
    push_cut(alloc, plan, name, u64::from(header.off_data))
}
