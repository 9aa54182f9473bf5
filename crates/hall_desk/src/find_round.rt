//! The round of an id.
ghost use Rattle.hall_store.specs.Store.{Kept, Served, IsRoundKept};
ghost use Rattle.hall_desk.specs.Plans.{FailsIn};

use hall_policy::{RoundId, RoundRow};
use hall_store::{ReadStore, StoreFault};
use std::alloc::Global;

/// What is kept of the round. In a sane world that is nothing, or a round with its lists.
pub(crate) fn find_round<S: ReadStore>(
    alloc: Global,
    store: &mut S,
    id: &RoundId,
) -> Result<Option<RoundRow>, StoreFault>
    ensures kept { Kept (S.content store.old) (S.content store.new) }
    ensures fault { FailsIn (S.content store.old) (S.content store.new) result }
    ensures served { Served (S.content store.new) result (λ world found. IsRoundKept world id.now found) }
{
    store.round(alloc, id)
}
