ghost use Rattle.std.specs.Prelude.{◌≡◌};

use crate::hash_key::HashKey;
use indexmap::IndexSet;
use std::alloc::{AllocError, Global};
use std::hash::Hash;

/// Hashes a table by another key. Its elements keep their places.
pub(crate) fn rehash<T: Eq + Hash + Drop>(
    alloc: Global,
    each: &mut IndexSet<T, HashKey>,
    key: HashKey,
) -> Result<(), AllocError>
    ensures { each.new.keys ≡ each.old.keys }
{
    let count = each.len();
    let mut rehashed = IndexSet::with_capacity_and_hasher(alloc, count, key)?;
    rehashed.append(each)?;
    *each = rehashed;
    Ok(())
}
