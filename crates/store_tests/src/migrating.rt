//! Migrations from the tables of the first version: whole, refused, and stopped.
use crate::files::{Image, Stopped, empty_image, migrate_in};
use crate::stops::world_in;
use crate::tables::{ROWS, TABLES, connection, over};
use crate::work::{Work, see_stops};
use crate::world::world_text;
use hall_sql::{Declined, Migrated, OldStore, Taken, migrate};
use hall_store::StoreFault;
use sqlite::{Connection, MemStore};
use std::alloc::AllocGlobal;
use std::process::Abort;

/// What the statements do before the first that names testers.
fn without_testers<'a>(rt: &impl Abort, statements: &'a str, word: &str) -> &'a str {
    statements.split_once(word).expect(rt, "testers").0
}

/// The rows of the first version.
fn old_rows(rt: &impl Abort) -> &'static str {
    without_testers(rt, ROWS, ";\nINSERT INTO testers")
}

/// How many they are.
const OLD_ROWS: u64 = 16;

/// The store of the first version in the tables of the connection, where they are its own.
fn taken(conn: Connection<MemStore>) -> Option<OldStore<MemStore>> {
    match OldStore::over(conn) {
        Ok(Taken::Old(store)) => Some(store),
        Ok(Taken::Other(conn)) => {
            drop(conn);
            None
        }
        Err(Declined { conn, fault }) => {
            drop(conn);
            drop(fault);
            None
        }
    }
}

/// A hall of the first version.
fn source(rt: &(impl AllocGlobal + Abort)) -> OldStore<MemStore> {
    let tables = without_testers(rt, TABLES, ";\nCREATE TABLE testers");
    taken(connection(rt, &[tables, old_rows(rt)])).expect(rt, "source")
}

/// What the rows tell in the tables of today.
fn world_told(rt: &(impl AllocGlobal + Abort)) -> String {
    let mut store = over(connection(rt, &[TABLES, old_rows(rt)])).expect(rt, "store");
    world_text(rt, &mut store)
}

/// What becomes of a migration into the tables that the statements make, and the world that is told then.
fn migrated_into(
    rt: &(impl AllocGlobal + Abort),
    old: &mut OldStore<MemStore>,
    statements: &[&str],
) -> (Result<Migrated, StoreFault>, String) {
    let mut store = over(connection(rt, statements)).expect(rt, "target");
    let migrated = migrate(rt.alloc(), old, &mut store);
    (migrated, world_text(rt, &mut store))
}

fn is_done(migrated: &Result<Migrated, StoreFault>, count: u64) -> bool {
    match migrated {
        Ok(Migrated::Done(done)) => *done == count,
        _ => false,
    }
}

#[test]
fn a_target_is_filled_once_and_left_where_it_holds_others(rt: HostRuntime) {
    let mut old = source(&rt);
    let told = world_told(&rt);
    let (migrated, world) = migrated_into(&rt, &mut old, &[TABLES]);
    assert!(&rt; is_done(&migrated, OLD_ROWS) && world.as_str() == told.as_str());
    let (migrated, world) = migrated_into(&rt, &mut old, &[TABLES, old_rows(&rt)]);
    assert!(&rt; is_done(&migrated, 0) && world.as_str() == told.as_str());
    for other in [ROWS, "INSERT INTO people VALUES ('kim', 'kim-key-1', 8)"] {
        let mut before = over(connection(&rt, &[TABLES, other])).expect(&rt, "target");
        let before = world_text(&rt, &mut before);
        let (migrated, world) = migrated_into(&rt, &mut old, &[TABLES, other]);
        assert!(&rt; matches!(&migrated, Ok(Migrated::Occupied)));
        assert!(&rt; world.as_str() == before.as_str());
    }
}

/// A migration into empty files, and what the hall there tells then.
#[derive(Drop)]
struct Migrating {
    told: String,
}

impl Work for Migrating {
    fn name(&self) -> &str {
        "migrating"
    }

    /// It sees too that the source is as it was.
    fn is_told<R: AllocGlobal + Abort>(&self, rt: &R, files: &mut Stopped) -> bool {
        let mut old = source(rt);
        let is_told = match migrate_in(rt, files, &mut old) {
            Some(migrated) => is_done(&migrated, OLD_ROWS),
            None => false,
        };
        let (migrated, world) = migrated_into(rt, &mut old, &[TABLES]);
        assert!(rt; is_done(&migrated, OLD_ROWS) && world.as_str() == self.told.as_str());
        is_told
    }

    fn is_kept<R: AllocGlobal + Abort>(&self, rt: &R, left: &Image) -> bool {
        let world = world_in(rt, left);
        let is_kept = world.as_str() == self.told.as_str();
        assert!(rt; is_kept || world.is_empty(), "{world}");
        is_kept
    }
}

#[test]
fn a_stop_leaves_the_target_empty_or_whole(rt: HostRuntime) {
    let told = world_told(&rt);
    see_stops(&rt, &Migrating { told }, &empty_image(&rt));
}
