//! The making of an image in a plan.

ghost use Rattle.std.specs.Prelude.{◌≡◌, ◌≢◌, ◌+◌, ◌≤◌, ℕ, List, [], ◌∷◌, ◌++◌, length, Option, OnOk, OnErr};
ghost use Rattle.vbm_ports.specs.Names.{IsStoreName};
ghost use Rattle.vbm_intent.specs.declared.change.Change.TheVariants.{Cut};
ghost use Rattle.vbm_intent.specs.Changes.{log_name, of_file};
ghost use Rattle.vbm_intent.specs.Plan.{body_size};
ghost use Rattle.vbm_intent.specs.declared.limits.TheConstants.{LONGEST_BODY, MOST_CHANGES};
ghost use Rattle.vbm_volume.specs.Made.{IsLaidOut};
ghost use Rattle.vbm_image.specs.Creating.{creating, creating_map, creating_gap, Creates};

use vbm_header::{Header, WRITTEN_LEN, write_header};
use vbm_intent::Plan;
use vbm_ports::NoMemory;

/// How many bytes of a plan the making of an image takes at most.
const ROOM: u32 = 1000;

/// Adds the making of an image whose blocks are all free, from any old file: at most five changes, and 1000 bytes. Where there
/// is no memory the plan is as before.
pub fn plan_create(plan: &mut Plan, name: &[u8], header: &Header) -> Result<(), NoMemory>
    requires name { IsStoreName name.now }
    requires not_log { name.now ≢ log_name }
    requires header { IsLaidOut header.now }
    requires none { of_file name.now plan.old.changes ≡ [] }
    requires small { body_size plan.old.changes + 1000 ≤ LONGEST_BODY }
    requires few { length plan.old.changes + 5 ≤ MOST_CHANGES }
    ensures ok { OnOk result (plan.new.changes ≡ plan.old.changes ++ creating name.now header.now) }
    ensures err { OnErr result (plan.new ≡ plan.old) }
    ensures size { OnOk result (body_size plan.new.changes ≤ body_size plan.old.changes + 1000) }
    ensures count { OnOk result (length plan.new.changes ≤ length plan.old.changes + 5) }
    ensures spare { plan.old.spare ≤ plan.new.spare + 1000 }
    ensures creates { (file : Option (List ℕ)) → Creates name.now header.now file }
{
    plan.reserve(5, ROOM)?;
    push_map(plan, name, header);
    push_gap(plan, name, header);
    push_end(plan, name, header);
    Ok(())
}

// Each of these adds changes in the room that is there, behind those of the same file that were added before.

// The header, zeros up to the block map, and a map of free blocks.
fn push_map(plan: &mut Plan, name: &[u8], header: &Header)
    requires name { IsStoreName name.now }
    requires not_log { name.now ≢ log_name }
    requires header { IsLaidOut header.now }
    requires before { of_file name.now plan.old.changes ≡ [] }
    requires small { body_size plan.old.changes + 800 ≤ LONGEST_BODY }
    requires few { length plan.old.changes + 3 ≤ MOST_CHANGES }
    requires room { 800 ≤ plan.old.spare }
    ensures changes { plan.new.changes ≡ plan.old.changes ++ creating_map name.now header.now }
    ensures size { body_size plan.new.changes ≤ body_size plan.old.changes + 800 }
    ensures spare { plan.old.spare ≤ plan.new.spare + 800 }
{
    let mut start = [0; WRITTEN_LEN];
    write_header(header, &mut start);
    let written = WRITTEN_LEN as u64;
    let off_blocks = header.off_blocks as u64;
    let map_len = 4 * header.blocks as u64;
    plan.push_write(name, 0, &start);
    plan.push_fill(name, written, off_blocks - written, 0);
    plan.push_fill(name, off_blocks, map_len, 255);
}

// Zeros from the end of the block map to the data.
fn push_gap(plan: &mut Plan, name: &[u8], header: &Header)
    requires name { IsStoreName name.now }
    requires not_log { name.now ≢ log_name }
    requires header { IsLaidOut header.now }
    requires before { of_file name.now plan.old.changes ≡ creating_map name.now header.now }
    requires small { body_size plan.old.changes + 100 ≤ LONGEST_BODY }
    requires few { length plan.old.changes + 1 ≤ MOST_CHANGES }
    requires room { 100 ≤ plan.old.spare }
    ensures changes { plan.new.changes ≡ plan.old.changes ++ creating_gap name.now header.now }
    ensures size { body_size plan.new.changes ≤ body_size plan.old.changes + 100 }
    ensures count { length plan.new.changes ≤ length plan.old.changes + 1 }
    ensures spare { plan.old.spare ≤ plan.new.spare + 100 }
{
    let map_end = header.off_blocks as u64 + 4 * header.blocks as u64;
    let off_data = header.off_data as u64;
    if map_end < off_data {
        plan.push_fill(name, map_end, off_data - map_end, 0);
    }
}

// The end, where the data begins.
fn push_end(plan: &mut Plan, name: &[u8], header: &Header)
    requires name { IsStoreName name.now }
    requires not_log { name.now ≢ log_name }
    requires header { IsLaidOut header.now }
    requires before { of_file name.now plan.old.changes
        ≡ creating_map name.now header.now ++ creating_gap name.now header.now }
    requires small { body_size plan.old.changes + 100 ≤ LONGEST_BODY }
    requires few { length plan.old.changes + 1 ≤ MOST_CHANGES }
    requires room { 100 ≤ plan.old.spare }
    ensures changes { plan.new.changes ≡ plan.old.changes ++ Cut name.now header.now.off_data ∷ [] }
    ensures size { body_size plan.new.changes ≤ body_size plan.old.changes + 100 }
    ensures spare { plan.old.spare ≤ plan.new.spare + 100 }
{
    plan.push_cut(name, header.off_data as u64);
}
