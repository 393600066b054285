//! The commit of staged entries.

ghost use Rattle.std.specs.Prelude.{◌≡◌, ◌+◌, ◌*◌, ◌≤◌, ◌<◌, ℕ, List, [], ◌∷◌, ◌++◌, length, OnOk, OnErr};
ghost use Rattle.byteorder.specs.Endian.{little_bytes};
ghost use Rattle.vbm_intent.specs.declared.change.Change.TheVariants.{Write};
ghost use Rattle.vbm_intent.specs.declared.limits.TheConstants.{LONGEST_BODY, MOST_CHANGES};
ghost use Rattle.vbm_intent.specs.Changes.{of_file, IsAllowed, IsApart};
ghost use Rattle.vbm_intent.specs.Plan.{text_size, body_size};
ghost use Rattle.vbm_image.specs.Image.{IsInForm, FitsOver};
ghost use Rattle.vbm_image.specs.Settling.{allocated_with, settling, settled, Settles, TakesAsSettled};

use crate::image::Image;
use vbm_header::field_allocated;
use vbm_intent::Plan;
use vbm_ports::NoMemory;

/// Where cBlocksAllocated stands in a file.
const ALLOCATED_AT: u64 = 388;

/// Adds the settling of an image's staged entries: a change for each, and one for the greater cBlocksAllocated, with at most 100
/// bytes each. Where there is no memory the plan is as before.
pub fn plan_pending(plan: &mut Plan, image: &Image) -> Result<(), NoMemory>
    requires form { IsInForm image.now }
    requires none { of_file image.now.name plan.old.changes ≡ [] }
    requires small { body_size plan.old.changes + 100 * (length image.now.pending.staged + 1) ≤ LONGEST_BODY }
    requires few { length plan.old.changes + (length image.now.pending.staged + 1) ≤ MOST_CHANGES }
    ensures ok { OnOk result (plan.new.changes
        ≡ plan.old.changes ++ settling image.now.name image.now.header image.now.pending.staged) }
    ensures err { OnErr result (plan.new ≡ plan.old) }
    ensures settles { (f : List ℕ) → FitsOver image.now.header image.now.pending.staged image.now.used f
        → Settles image.now.name image.now.header image.now.pending.staged f }
{
    let count = image.pending.len() as u32;
    plan.reserve(count + 1, 100 * (count + 1))?;
    push_pending(plan, image);
    Ok(())
}

/// Adds the settling as `plan_pending` does, in the room that is there. It takes no memory.
pub fn push_pending(plan: &mut Plan, image: &Image)
    requires form { IsInForm image.now }
    requires none { of_file image.now.name plan.old.changes ≡ [] }
    requires small { body_size plan.old.changes + body_size (settling image.now.name image.now.header image.now.pending.staged) ≤ LONGEST_BODY }
    requires few { length plan.old.changes + length (settling image.now.name image.now.header image.now.pending.staged) ≤ MOST_CHANGES }
    requires room { body_size (settling image.now.name image.now.header image.now.pending.staged) ≤ plan.old.spare }
    ensures changes { plan.new.changes
        ≡ plan.old.changes ++ settling image.now.name image.now.header image.now.pending.staged }
    ensures spare { plan.old.spare
        ≤ plan.new.spare + body_size (settling image.now.name image.now.header image.now.pending.staged) }
{
    if image.pending.len() == 0 {
        return;
    }
    push_number(
        plan,
        image.name.bytes(),
        ALLOCATED_AT,
        allocated_after(image),
    );
    let off_blocks = image.header.off_blocks as u64;
    for i in 0..image.pending.len() {
        let (block, at) = image.pending.entry(i);
        push_number(plan, image.name.bytes(), off_blocks + 4 * block as u64, at);
    }
}

// Adds the writing of a number of four bytes.
fn push_number(plan: &mut Plan, name: &[u8], at: u64, n: u32)
    requires allowed { IsAllowed (Write name.now at (little_bytes 4 n)) }
    requires apart { IsApart (of_file name.now (plan.old.changes ++ Write name.now at (little_bytes 4 n) ∷ [])) }
    requires small { body_size plan.old.changes + text_size (Write name.now at (little_bytes 4 n)) ≤ LONGEST_BODY }
    requires few { length plan.old.changes < MOST_CHANGES }
    requires room { text_size (Write name.now at (little_bytes 4 n)) ≤ plan.old.spare }
    ensures changes { plan.new.changes ≡ plan.old.changes ++ Write name.now at (little_bytes 4 n) ∷ [] }
    ensures count { length plan.new.changes ≡ length plan.old.changes + 1 }
    ensures spare { plan.old.spare ≤ plan.new.spare + text_size (Write name.now at (little_bytes 4 n)) }
{
    let (_, bytes) = field_allocated(n);
    plan.push_write(name, at, &bytes);
}

// cBlocksAllocated with the staged positions.
fn allocated_after(image: &Image) -> u32
    requires { IsInForm image.now }
    ensures { result ≡ allocated_with image.now.header.allocated image.now.pending.staged }
{
    let mut allocated = image.header.allocated;
    for i in 0..image.pending.len() {
        let (_, at) = image.pending.entry(i);
        allocated = allocated.max(at + 1);
    }
    allocated
}

/// Takes the staged entries of an image as settled, when their changes were committed. It takes no memory.
pub fn take_as_settled(image: &mut Image)
    requires form { IsInForm image.old }
    ensures takes { TakesAsSettled image.old image.new }
    ensures form { IsInForm image.new }
    ensures fits { (f : List ℕ) → FitsOver image.old.header image.old.pending.staged image.old.used f
        → FitsOver image.new.header image.new.pending.staged image.new.used (settled image.old.header image.old.pending.staged f) }
{
    image.header.allocated = allocated_after(image);
    image.pending.clear();
}
