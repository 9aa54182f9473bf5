//! All that is kept, row by row.
use crate::fault::StoreFault;
use crate::store::ReadStore;
use hall_policy::{AnswerRow, Entry, PlaceKey, ProtestRow, TesterKey};
use std::alloc::Global;

/// An entry of a round's list, under its key.
pub type Place = (PlaceKey, Entry);

/// A tester of a round under its key, beside which there is nothing to tell.
pub type Tester = (TesterKey, ());

/// A hall's world of which each row can be read, also where it isn't sane: who asks whether it is gets this.
///
/// When that holds what a call says is as of a `ReadStore`.
pub trait WholeStore: ReadStore {
    ghost use Rattle.std.specs.Prelude.{◌≡◌};
    ghost use Rattle.std.specs.FinMap.{entries, values};
    ghost use Rattle.hall_store.specs.Store.{CanFailIn, Kept, Served, Fails};
    ghost use Rattle.hall_store.specs.Whole.{AreUnderOwnKeys};

    /// Tells a proof that each row of the world stands under its own key.
    fn under_own_keys(&self)
        ensures { (Self.content self.now).honest → (Self.content self.now).serves
            → AreUnderOwnKeys (Self.content self.now).world };

    /// Each entry of each round's list, in the order of their keys; of a draft too, and of a round that isn't there.
    fn all_places(&mut self, alloc: Global) -> Result<Vec<Place>, StoreFault>
        ensures kept { Kept (Self.content self.old) (Self.content self.new) }
        ensures served { Served (Self.content self.new) result (λ world places. places.items ≡ entries world.places) }
        ensures fault { Fails (CanFailIn (Self.content self.old) (Self.content self.new)) result };

    /// Each tester of each round, in the order of their keys; of a round that isn't there too.
    fn all_testers(&mut self, alloc: Global) -> Result<Vec<Tester>, StoreFault>
        ensures kept { Kept (Self.content self.old) (Self.content self.new) }
        ensures served { Served (Self.content self.new) result
            (λ world testers. testers.items ≡ entries world.testers) }
        ensures fault { Fails (CanFailIn (Self.content self.old) (Self.content self.new)) result };

    /// All answers, in the order of their keys.
    fn all_answers(&mut self, alloc: Global) -> Result<Vec<AnswerRow>, StoreFault>
        ensures kept { Kept (Self.content self.old) (Self.content self.new) }
        ensures served { Served (Self.content self.new) result (λ world rows. rows.items ≡ values world.answers) }
        ensures fault { Fails (CanFailIn (Self.content self.old) (Self.content self.new)) result };

    /// All protests, in the order of their keys.
    fn all_protests(&mut self, alloc: Global) -> Result<Vec<ProtestRow>, StoreFault>
        ensures kept { Kept (Self.content self.old) (Self.content self.new) }
        ensures served { Served (Self.content self.new) result (λ world rows. rows.items ≡ values world.protests) }
        ensures fault { Fails (CanFailIn (Self.content self.old) (Self.content self.new)) result };
}
