//! Writes into ordered maps and lists, in functions of their own: so their callers let go of no value but their own.
ghost use Rattle.std.specs.Prelude.{◌≡◌, ◌++◌, ◌∷◌, [], OnOk, OnErr, Some};
ghost use Rattle.std.specs.BTreeMap as tree;

use std::alloc::AllocError;
use std::collections::BTreeMap;

/// Puts the value under the key, in the place of the one that stands there. Refused, it leaves the map.
pub(crate) fn put<K: Ord + Drop, V: Drop>(
    map: &mut BTreeMap<K, V>,
    key: K,
    value: V,
) -> Result<(), AllocError>
    ensures updates { OnOk result (tree.Updates K.cmp map.old map.new key (Some value)) }
    ensures entries { OnOk result (map.new.entries ≡ tree.insert_entry K.cmp map.old.entries key value) }
    ensures err { OnErr result (tree.IsUnchanged map.old map.new) }
    ensures ordered { tree.IsOrdered K.cmp map.new }
    ensures was_ordered { tree.IsOrdered K.cmp map.old }
{
    map.insert(key, value)?;
    Ok(())
}

/// Puts the item at the end.
pub(crate) fn push<T: Drop>(items: &mut Vec<T>, item: T) -> Result<(), AllocError>
    ensures { OnOk result (items.new.items ≡ items.old.items ++ item ∷ []) }
{
    items.push(item)?;
    Ok(())
}
