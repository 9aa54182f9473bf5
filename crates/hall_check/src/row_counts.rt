//! How many rows there are of each key.
ghost use Rattle.std.specs.Prelude.{◌≡◌, ◌+◌, ◌<◌, Some, IfOk, OnOk};
ghost use Rattle.std.specs.BTreeMap as tree;
ghost use Rattle.hall_check.specs.Tally.{IsTally, counted_of};

use std::alloc::{AllocError, Global};
use std::collections::BTreeMap;

/// A key by which rows are counted.
pub(crate) trait KeyOf<T>: Ord + Drop + Sized {
    // The row's key.
    ghost key_of: { T → Self };

    /// The row's key.
    fn of(row: &T) -> Result<Self, AllocError>
        ensures { IfOk result (λ key. key ≡ key_of row.now) };
}

/// How many of the rows there are of each key.
pub(crate) fn tally<T, K: KeyOf<T>>(
    alloc: Global,
    rows: &[T],
) -> Result<BTreeMap<K, u64>, AllocError>
    ensures { IfOk result (λ counts. IsTally K.cmp K.key_of rows.now counts.entries) }
{
    let mut counts = BTreeMap::new(alloc);
    for row in rows {
        count_one(&mut counts, K::of(row)?)?;
    }
    Ok(counts)
}

/// Counts one row more of the key.
fn count_one<K: Ord + Drop>(counts: &mut BTreeMap<K, u64>, key: K) -> Result<(), AllocError>
    requires { counted_of K.cmp counts.old.entries key < usize.MAX }
    ensures { OnOk result (tree.Updates K.cmp counts.old counts.new key
        (Some (counted_of K.cmp counts.old.entries key + 1))) }
{
    let count = count_at(counts, &key);
    counts.insert(key, count + 1)?;
    Ok(())
}

/// How many rows were counted of the key.
pub(crate) fn count_at<K: Ord + Drop>(counts: &BTreeMap<K, u64>, key: &K) -> u64
    ensures { result ≡ counted_of K.cmp counts.now.entries key.now }
{
    match counts.get(key) {
        Some(count) => *count,
        None => 0,
    }
}
