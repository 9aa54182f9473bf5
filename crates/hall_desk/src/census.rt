//! How many people and rounds a hall knows.
ghost use Rattle.std.specs.Prelude.{◌≡◌};
ghost use Rattle.hall_store.specs.Store.{CanFailIn, Kept, Served, Fails};
ghost use Rattle.hall_desk.specs.Census.{census_of};

use hall_store::{ReadStore, StoreFault};
use std::alloc::Global;

/// How many people and rounds a hall knows.
#[derive(Clone, Copy)]
pub struct Census {
    pub people: u64,
    pub rounds: u64,
}

impl Census {
    /// How many the store's world holds.
    pub(crate) fn of<S: ReadStore>(alloc: Global, store: &mut S) -> Result<Census, StoreFault>
        ensures kept { Kept (S.content store.old) (S.content store.new) }
        ensures served { Served (S.content store.new) result (λ world census. census ≡ census_of world) }
        ensures fault { Fails (CanFailIn (S.content store.old) (S.content store.new)) result }
    {
        let people = store.people(alloc)?.len() as u64;
        let rounds = store.rounds(alloc)?.len() as u64;
        Ok(Census { people, rounds })
    }
}
