//! The table of testers.
ghost use Rattle.std.specs.Prelude.{◌≡◌, ◌↔◌, ◌⊎◌, false, [], ◌∷◌, map, AllPairs, IfOk, IfErr};
ghost use Rattle.std.specs.FinMap.{empty, entries};
ghost use Rattle.sqlite.specs.Held.{state};
ghost use Rattle.sqlite.specs.declared.types.Value.TheVariants.{Text};
ghost use Rattle.hall_store.specs.Store.{AreTestersOf};
ghost use Rattle.hall_store.specs.declared.fault.StoreFault.TheVariants.{Memory};
ghost use Rattle.hall_sql.specs.Cause.{IsStoreCause};
ghost use Rattle.hall_sql.specs.Inside.{LeadsUncommitted, DoesInside};
ghost use Rattle.hall_sql.specs.RoundColumns.{tester_params};
ghost use Rattle.hall_sql.specs.RoundPuts.{DropsTesters, PutsTester, PutsTesters, PutsTesterList};
ghost use Rattle.hall_sql.specs.Rows.{tester_in};
ghost use Rattle.hall_sql.specs.Standing.{IsHall};
ghost use Rattle.hall_sql.specs.Testers.{AreNamed};
ghost use Rattle.hall_sql.specs.Reads.{ReadsRows};
ghost use Rattle.hall_sql.specs.WriteCause.{RunFails, InsideFails, TesterIsRefused, TesterListIsRefused};

use crate::calls::write_in;
use crate::reads::read;
use crate::record::Tester;
use hall_policy::{Name, RoundId};
use hall_store::StoreFault;
use sqlite::{Alter, Connection, Transaction, params};
use std::alloc::Global;

/// The testers of a round, in the order of their names.
const TESTERS_OF: &str = "SELECT round, name FROM testers WHERE round = ?1 ORDER BY name";

/// The testers of the round under their keys, in the order of their names.
fn keyed_testers<S: Alter>(
    conn: &mut Connection<S>,
    alloc: Global,
    round: &RoundId,
) -> Result<Vec<Tester>, StoreFault>
    requires hall { IsHall (state S.Store conn.old) }
    ensures { ReadsRows tester_in TESTERS_OF.now (Text round.now ∷ []) (state S.Store conn.old) (state S.Store conn.new)
        result (λ world testers. AreNamed world round.now testers.items) }
{
    let _schema = conn.schema();
    read(conn, alloc, TESTERS_OF, params![round.as_str()])
}

/// The name of each tester.
fn names_of(alloc: Global, testers: Vec<Tester>) -> Result<Vec<Name>, StoreFault>
    ensures names { IfOk result (λ names. names.items ≡ map (λ tester. tester.0.name) testers.items) }
    ensures memory { IfErr result (λ fault. fault ≡ Memory) }
{
    let mut names = Vec::new(alloc);
    for (key, _) in testers {
        if names.push(key.name).is_err() {
            return Err(StoreFault::Memory);
        }
    }
    Ok(names)
}

/// The names of the round's testers, in their order.
pub(crate) fn testers_of<S: Alter>(
    conn: &mut Connection<S>,
    alloc: Global,
    round: &RoundId,
) -> Result<Vec<Name>, StoreFault>
    requires hall { IsHall (state S.Store conn.old) }
    ensures { ReadsRows tester_in TESTERS_OF.now (Text round.now ∷ []) (state S.Store conn.old) (state S.Store conn.new)
        result (λ world names. AreTestersOf world round.now names.items) }
{
    let testers = keyed_testers(conn, alloc, round)?;
    names_of(alloc, testers)
}

/// All testers, in the order of their keys.
const ALL_TESTERS: &str = "SELECT round, name FROM testers ORDER BY round, name";

/// All testers under their keys, in the order of the keys.
pub(crate) fn all_testers<S: Alter>(
    conn: &mut Connection<S>,
    alloc: Global,
) -> Result<Vec<Tester>, StoreFault>
    requires hall { IsHall (state S.Store conn.old) }
    ensures { ReadsRows tester_in ALL_TESTERS.now [] (state S.Store conn.old) (state S.Store conn.new) result
        (λ world testers. testers.items ≡ entries world.testers) }
{
    let _schema = conn.schema();
    read(conn, alloc, ALL_TESTERS, &[])
}

/// Whether any round has testers.
pub(crate) fn has_testers<S: Alter>(
    conn: &mut Connection<S>,
    alloc: Global,
) -> Result<bool, StoreFault>
    requires hall { IsHall (state S.Store conn.old) }
    ensures { ReadsRows tester_in ALL_TESTERS.now [] (state S.Store conn.old) (state S.Store conn.new) result
        (λ world has. (has ≡ false) ↔ (world.testers ≡ empty)) }
{
    Ok(!all_testers(conn, alloc)?.is_empty())
}

/// The testers of a round are taken out.
const DROP_TESTERS: &str = "DELETE FROM testers WHERE round = ?1";

/// Takes out the testers of the round.
fn drop_testers<S: Alter>(tx: &mut Transaction<'_, S>, round: &RoundId) -> Result<(), StoreFault>
    ensures same_reference { tx.new.conn.ghost_name ≡ tx.old.conn.ghost_name }
    ensures carries { LeadsUncommitted (state S.Store tx.old.conn.now) (state S.Store tx.new.conn.now) }
    ensures done { DoesInside (state S.Store tx.old.conn.now) (state S.Store tx.new.conn.now)
        (DropsTesters round.now) result }
    ensures cause { InsideFails (state S.Store tx.old.conn.now) (state S.Store tx.new.conn.now)
        (RunFails DROP_TESTERS.now (Text round.now ∷ []) (state S.Store tx.old.conn.now)
        (state S.Store tx.new.conn.now)) result }
{
    write_in(tx, DROP_TESTERS, params![round.as_str()])
}

/// One more tester of a round.
const ADD_TESTER: &str = "INSERT INTO testers (round, name) VALUES (?1, ?2)";

/// Stores that the person tests the round.
fn put_tester<S: Alter>(
    tx: &mut Transaction<'_, S>,
    round: &RoundId,
    name: &Name,
) -> Result<(), StoreFault>
    ensures same_reference { tx.new.conn.ghost_name ≡ tx.old.conn.ghost_name }
    ensures carries { LeadsUncommitted (state S.Store tx.old.conn.now) (state S.Store tx.new.conn.now) }
    ensures done { DoesInside (state S.Store tx.old.conn.now) (state S.Store tx.new.conn.now)
        (PutsTester round.now name.now) result }
    ensures cause { InsideFails (state S.Store tx.old.conn.now) (state S.Store tx.new.conn.now)
        (RunFails ADD_TESTER.now (tester_params round.now name.now)
        (state S.Store tx.old.conn.now) (state S.Store tx.new.conn.now)) result }
{
    write_in(tx, ADD_TESTER, params![round.as_str(), name.as_str()])
}

/// Stores the testers of a round that has none.
fn put_testers<S: Alter>(
    tx: &mut Transaction<'_, S>,
    round: &RoundId,
    names: &[Name],
) -> Result<(), StoreFault>
    requires different { AllPairs (λ a b. ¬ (a ≡ b)) names.now }
    ensures same_reference { tx.new.conn.ghost_name ≡ tx.old.conn.ghost_name }
    ensures carries { LeadsUncommitted (state S.Store tx.old.conn.now) (state S.Store tx.new.conn.now) }
    ensures done { DoesInside (state S.Store tx.old.conn.now) (state S.Store tx.new.conn.now)
        (PutsTesters round.now names.now) result }
    ensures cause { InsideFails (state S.Store tx.old.conn.now) (state S.Store tx.new.conn.now)
        (IsStoreCause (state S.Store tx.old.conn.now) (state S.Store tx.new.conn.now)
        ⊎ TesterIsRefused round.now names.now (state S.Store tx.old.conn.now).now) result }
{
    for name in names {
        put_tester(tx, round, name)?;
    }
    Ok(())
}

/// Stores the round's testers in the place of those before.
pub(crate) fn put_tester_list<S: Alter>(
    tx: &mut Transaction<'_, S>,
    round: &RoundId,
    names: &[Name],
) -> Result<(), StoreFault>
    requires different { AllPairs (λ a b. ¬ (a ≡ b)) names.now }
    ensures same_reference { tx.new.conn.ghost_name ≡ tx.old.conn.ghost_name }
    ensures carries { LeadsUncommitted (state S.Store tx.old.conn.now) (state S.Store tx.new.conn.now) }
    ensures done { DoesInside (state S.Store tx.old.conn.now) (state S.Store tx.new.conn.now)
        (PutsTesterList round.now names.now) result }
    ensures cause { InsideFails (state S.Store tx.old.conn.now) (state S.Store tx.new.conn.now)
        (IsStoreCause (state S.Store tx.old.conn.now) (state S.Store tx.new.conn.now)
        ⊎ TesterListIsRefused round.now names.now (state S.Store tx.old.conn.now).now) result }
{
    drop_testers(tx, round)?;
    put_testers(tx, round, names)
}
