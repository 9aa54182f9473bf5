//! Records that are added to their tables, inside a transaction.
ghost use Rattle.std.specs.Prelude.{◌≡◌, ◌⊎◌};
ghost use Rattle.sqlite.specs.Effect.{Database};
ghost use Rattle.sqlite.specs.Held.{state};
ghost use Rattle.hall_policy.specs.Sink.{HasTaken};
ghost use Rattle.hall_sql.specs.FillCause.{IsNextRefused};
ghost use Rattle.hall_sql.specs.WriteCause.{InsideFails};
ghost use Rattle.hall_sql.specs.Cause.{IsStoreCause};
ghost use Rattle.hall_sql.specs.Inside.{LeadsUncommitted, DoesInside};

use hall_store::StoreFault;
use sqlite::{Alter, Transaction};
use std::alloc::Global;

/// A record that is added to its table.
pub(crate) trait Added: Sized {
    // The tables before, the record, the tables after.
    ghost adds: { Database → Self → Database → Type 0 };

    // The statement that adds the record is refused over the tables.
    ghost refuses: { Self → Database → Type 0 };

    /// Adds it under a new key, inside a transaction.
    fn add<S: Alter>(&self, tx: &mut Transaction<'_, S>, alloc: Global) -> Result<(), StoreFault>
        ensures same_reference { tx.new.conn.ghost_name ≡ tx.old.conn.ghost_name }
        ensures carries { LeadsUncommitted (state S.Store tx.old.conn.now) (state S.Store tx.new.conn.now) }
        ensures done { DoesInside (state S.Store tx.old.conn.now) (state S.Store tx.new.conn.now)
            (λ a b. adds a self.now b) result }
        ensures cause { InsideFails (state S.Store tx.old.conn.now) (state S.Store tx.new.conn.now)
            (IsStoreCause (state S.Store tx.old.conn.now) (state S.Store tx.new.conn.now)
            ⊎ refuses self.now (state S.Store tx.old.conn.now).now) result };
}

/// Adds them, one after another.
pub(crate) fn add_each<S: Alter, T: Added>(
    tx: &mut Transaction<'_, S>,
    alloc: Global,
    records: &[T],
) -> Result<(), StoreFault>
    ensures same_reference { tx.new.conn.ghost_name ≡ tx.old.conn.ghost_name }
    ensures carries { LeadsUncommitted (state S.Store tx.old.conn.now) (state S.Store tx.new.conn.now) }
    ensures done { DoesInside (state S.Store tx.old.conn.now) (state S.Store tx.new.conn.now)
        (λ a b. HasTaken T.adds a records.now b) result }
    ensures cause { InsideFails (state S.Store tx.old.conn.now) (state S.Store tx.new.conn.now)
        (IsStoreCause (state S.Store tx.old.conn.now) (state S.Store tx.new.conn.now)
        ⊎ IsNextRefused T.adds T.refuses records.now (state S.Store tx.old.conn.now).now) result }
{
    for record in records {
        record.add(tx, alloc)?;
    }
    Ok(())
}
