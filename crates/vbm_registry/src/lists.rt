//! Lists of items, each of which may depend on those before it.

ghost use Rattle.std.specs.Prelude.{◌≡◌, ◌<◌, ◌^◌, ℕ, List, ◌++◌, ◌∷◌, [], IfOk, IsFalse, length};
ghost use Rattle.vbm_named.specs.Names.{has_name};
ghost use Rattle.vbm_registry.specs.Parts.{FilePart, items};
ghost use Rattle.vbm_registry.specs.Given.{Gives};

use crate::cursor::{Fields, Stop};
use std::alloc::Global;
use vbm_named::{ByName, Named};
use vbm_ports::Sequence;

/// What reads the items of a list, one after the other.
pub trait Reader {
    type Item: Drop;

    /// The item after these.
    ghost item: { Self → List Self.Item → FilePart Self.Item };

    /// What the reader knows once it has read these.
    ghost follows: { Self → List Self.Item → Type 0 };

    /// A number that stays.
    ghost fixed: { Self → ℕ };

    /// What an item has that comes after these.
    ghost apart: { List Self.Item → Self.Item → Type 0 };

    /// Reads the next item.
    fn next(
        &mut self,
        alloc: Global,
        before: &[Self::Item],
        fields: &mut Fields,
    ) -> Result<Self::Item, Stop>
        requires few { length before.now < 2 ^ 16 }
        requires follows { follows self.old before.now }
        ensures gives { Gives result fields.new ((item self.old before.now).read fields.old) }
        ensures same { IfOk result (λ _. item self.new ≡ item self.old) }
        ensures fixed { IfOk result (λ _. fixed self.new ≡ fixed self.old) }
        ensures follows { IfOk result (λ x. follows self.new (before.now ++ x ∷ [])) }
        ensures apart { IfOk result (λ x. apart before.now x) };
}

/// Reads so many items.
pub fn read_list<R: Reader>(
    alloc: Global,
    reader: &mut R,
    count: u16,
    fields: &mut Fields,
) -> Result<Sequence<R::Item>, Stop>
    requires { R.follows reader.old [] }
    ensures gives { Gives result fields.new ((items (R.item reader.old) count).read fields.old) }
    ensures follows { IfOk result (λ xs. R.follows reader.new xs) }
    ensures same { IfOk result (λ _. R.item reader.new ≡ R.item reader.old) }
    ensures fixed { IfOk result (λ _. R.fixed reader.new ≡ R.fixed reader.old) }
    ensures count { IfOk result (λ xs. length xs ≡ count) }
{
    let mut list = Sequence::new(alloc);
    for _ in 0..count {
        let item = reader.next(alloc, list.as_slice(), fields)?;
        list.push(item)?;
    }
    Ok(list)
}

/// Reads so many items that have names.
pub fn read_named<R: Reader>(
    alloc: Global,
    reader: &mut R,
    count: u16,
    fields: &mut Fields,
) -> Result<ByName<R::Item>, Stop>
where
    R::Item: Named,
    requires start { R.follows reader.old [] }
    requires apart { (before : List R.Item) (x : R.Item) → R.apart before x → IsFalse (has_name R.Item.name_of (R.Item.name_of x) before) }
    ensures gives { Gives result fields.new ((items (R.item reader.old) count).read fields.old) }
    ensures follows { IfOk result (λ xs. R.follows reader.new xs) }
    ensures same { IfOk result (λ _. R.item reader.new ≡ R.item reader.old) }
    ensures fixed { IfOk result (λ _. R.fixed reader.new ≡ R.fixed reader.old) }
    ensures count { IfOk result (λ xs. length xs ≡ count) }
{
    let mut list = ByName::new(alloc);
    for _ in 0..count {
        let item = reader.next(alloc, list.as_slice(), fields)?;
        list.push(item)?;
    }
    Ok(list)
}
