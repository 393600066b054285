//! Names, and lists in the order of names.

ghost use Rattle.std.specs.Prelude.{◌≡◌, IfOk, List, ℕ};
ghost use Rattle.std.specs.Str.{bytes_eq};
ghost use Rattle.std.specs.Option.{option_copied};
ghost use Rattle.vbm_named.specs.Names.{is_before as before, find_by, put_by, without};

use std::alloc::Global;
use std::cmp::Ordering;
use vbm_ports::{Copied, NoMemory, Sequence};

/// A type whose values have names.
pub trait Named {
    ghost name_of: { Self → List ℕ };

    /// The name.
    fn name(&self) -> &[u8]
        ensures { result.now ≡ name_of self.now };
}

/// Whether two names are one.
pub fn is_same(a: &[u8], b: &[u8]) -> bool
    ensures { result ≡ bytes_eq a.now b.now }
{
    a == b
}

/// Whether a name comes before another, by their bytes.
pub fn is_before(a: &[u8], b: &[u8]) -> bool
    ensures { result ≡ before a.now b.now }
{
    matches!(a.cmp(b), Ordering::Less)
}

/// Lends the first item of a name.
pub fn find<'a, T: Named>(items: &'a [T], name: &[u8]) -> Option<&'a T>
    ensures { option_copied result ≡ find_by T.name_of name.now items.now }
{
    items.iter().find(|item| is_same(item.name(), name))
}

/// A list with one more item in its place.
#[tactic(auto, unfolding(crate::specs::Names::put_by))]
pub fn with<T: Named + Copied + Drop>(
    alloc: Global,
    items: &[T],
    item: T,
) -> Result<Sequence<T>, NoMemory>
    ensures { IfOk result (λ all. all ≡ put_by T.name_of item items.now) }
{
    let mut all = Sequence::new(alloc);
    let mut rest = items;
    while let [first, after @ ..] = rest {
        if is_before(item.name(), first.name()) {
            break;
        }
        all.push(first.copied(alloc)?)?;
        rest = after;
    }
    all.push(item)?;
    while let [first, after @ ..] = rest {
        all.push(first.copied(alloc)?)?;
        rest = after;
    }
    Ok(all)
}

/// A list without the items of a name.
pub fn without<T: Named + Copied + Drop>(
    alloc: Global,
    items: &[T],
    name: &[u8],
) -> Result<Sequence<T>, NoMemory>
    ensures { IfOk result (λ all. all ≡ without T.name_of name.now items.now) }
{
    let mut all = Sequence::new(alloc);
    for item in items {
        if !is_same(item.name(), name) {
            all.push(item.copied(alloc)?)?;
        }
    }
    Ok(all)
}
