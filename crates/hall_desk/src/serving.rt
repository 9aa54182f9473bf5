//! Whether a store still serves.
ghost use Rattle.std.specs.Prelude.{◌≡◌, IfOk, IsTrue, false, ⊤};
ghost use Rattle.hall_store.specs.Store.{CanFailIn, Fails, Kept, Served};

use hall_policy::Key;
use hall_store::{ReadStore, StoreFault};
use std::alloc::{AllocError, Global};

/// A key to ask for. Whether somebody has it doesn't matter.
const PROBE: &str = "whether-the-store-serves";

/// Whether the store still serves, as a look-up of one person tells: it says no only over a store that can fail.
pub(crate) fn still_serves<S: ReadStore>(alloc: Global, store: &mut S) -> Result<bool, AllocError>
    ensures kept { Kept (S.content store.old) (S.content store.new) }
    ensures serves { IfOk result (λ yes. (S.content store.new).honest → IsTrue yes → (S.content store.new).serves) }
    ensures shut { IfOk result (λ yes. yes ≡ false → CanFailIn (S.content store.old) (S.content store.new)) }
{
    match probe(alloc, store) {
        Ok(()) => Ok(true),
        Err(StoreFault::Failed) => Ok(false),
        Err(StoreFault::Memory) => Err(AllocError),
    }
}

/// Looks up one person.
fn probe<S: ReadStore>(alloc: Global, store: &mut S) -> Result<(), StoreFault>
    ensures kept { Kept (S.content store.old) (S.content store.new) }
    ensures served { Served (S.content store.new) result (λ _ _. ⊤) }
    ensures fault { Fails (CanFailIn (S.content store.old) (S.content store.new)) result }
{
    let Some(key) = Key::new(String::from_str(alloc, PROBE)?) else {
        unreachable!()
    };
    let _ = store.person_by_key(alloc, &key)?;
    Ok(())
}
