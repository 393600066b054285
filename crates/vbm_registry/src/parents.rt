//! Where the parents of snapshots lead.

ghost use Rattle.std.specs.Prelude.{◌≡◌, ◌==◌, if◌then◌else◌, Some, ◌<◌, ℕ, length, IfOk, IfSome, IsTrue, is_none, List, ◌++◌, ◌∷◌, []};
ghost use Rattle.vbm_machines.specs.declared.Snapshot.{Snapshot};
ghost use Rattle.vbm_registry.specs.Grammar.{is_good, lead, ends_of, has_root};
ghost use Rattle.vbm_registry.specs.Summaries.{HasEnds, AreParentsOf};

use std::alloc::Global;
use vbm_ports::NoMemory;

/// Whether the parent of the snapshot at a place is none, and the first such, or in range and closing no circle. `ends` has where the
/// parents so far lead.
pub fn is_good_parent(at: usize, rooted: bool, ends: &[u16], parent: Option<u32>) -> bool
    ensures good { (f : ℕ → ℕ) → HasEnds f ends.now → result ≡ is_good (length ends.now) at rooted f parent }
    ensures within { IsTrue result → IfSome parent (λ p. p < length ends.now) }
{
    match parent {
        None => !rooted,
        Some(parent) => (parent as usize) < ends.len() && ends[parent as usize] as usize != at,
    }
}

// Where a place ends, once what ended at `at` ends at `end`.
fn led(at: u16, end: u16, place: u16) -> u16
    ensures { result ≡ (if place == at then end else place) }
{
    if place == at { end } else { place }
}

// Leads the places that end at a snapshot to where its parent leads.
fn lead_from(at: u16, parent: u32, ends: &mut [u16])
    requires { parent < length ends.old }
    ensures agrees { (f : ℕ → ℕ) → HasEnds f ends.old → HasEnds (lead at (Some parent) f) ends.new }
    ensures length { length ends.new ≡ length ends.old }
{
    let end = ends[parent as usize];
    for place in ends.iter_mut() {
        *place = led(at, end, *place);
    }
}

// The same for a snapshot that may have no parent.
fn lead_on(at: u16, parent: Option<u32>, ends: &mut Vec<u16>)
    requires { IfSome parent (λ p. p < length ends.old.items) }
    ensures agrees { (f : ℕ → ℕ) → HasEnds f ends.old.items → HasEnds (lead at parent f) ends.new.items }
    ensures length { length ends.new.items ≡ length ends.old.items }
{
    if let Some(parent) = parent {
        lead_from(at, parent, ends);
    }
}

// Where no parent leads: each place is its own end.
fn own_ends(alloc: Global, count: u16) -> Result<Vec<u16>, NoMemory>
    ensures { IfOk result (λ ends. (length ends.items ≡ count) × HasEnds (λ place. place) ends.items) }
{
    let mut ends = Vec::new(alloc);
    for i in 0..count {
        if ends.push(i).is_err() {
            return Err(NoMemory);
        }
    }
    Ok(ends)
}

fn is_root(parent: Option<u32>) -> bool
    ensures { result ≡ is_none parent }
{
    matches!(parent, None)
}

/// Where the parents of a machine's snapshots lead, as far as they are known, and whether one of them is none.
#[derive(Drop)]
pub struct Parents {
    pub ends: Vec<u16>,
    pub rooted: bool,
}

/// The parents of so many snapshots, of which none is known.
pub fn no_parents(alloc: Global, count: u16) -> Result<Parents, NoMemory>
    ensures { IfOk result (λ parents. (length parents.ends.items ≡ count) × AreParentsOf parents []) }
{
    Ok(Parents {
        ends: own_ends(alloc, count)?,
        rooted: false,
    })
}

/// Takes in the parent of the next snapshot.
pub fn add_parent(parents: &mut Parents, at: u16, parent: Option<u32>)
    requires { IfSome parent (λ p. p < length parents.old.ends.items) }
    ensures ends { (before : List Snapshot) (s : Snapshot) → length before ≡ at → s.parent ≡ parent
        → HasEnds (ends_of before) parents.old.ends.items → HasEnds (ends_of (before ++ s ∷ [])) parents.new.ends.items }
    ensures rooted { (before : List Snapshot) (s : Snapshot) → s.parent ≡ parent
        → parents.old.rooted ≡ has_root before → parents.new.rooted ≡ has_root (before ++ s ∷ []) }
    ensures count { length parents.new.ends.items ≡ length parents.old.ends.items }
{
    lead_on(at, parent, &mut parents.ends);
    parents.rooted |= is_root(parent);
}
