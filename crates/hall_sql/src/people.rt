//! The table of people.
ghost use Rattle.std.specs.Prelude.{◌≡◌, ◌⊎◌, IsTrue, IfOk, [], ◌∷◌};
ghost use Rattle.std.specs.FinMap.{get, values};
ghost use Rattle.sqlite.specs.Held.{state};
ghost use Rattle.sqlite.specs.State.{HasCleanDisk};
ghost use Rattle.sqlite.specs.Values.{bound};
ghost use Rattle.hall_store.specs.Store.{Fails};
ghost use Rattle.hall_store.specs.declared.change.Change.TheVariants.{Import};
ghost use Rattle.hall_sql.specs.Columns.{person_params, roles_code};
ghost use Rattle.hall_sql.specs.Standing.{IsHall};
ghost use Rattle.hall_sql.specs.Content.{MakesInTables};
ghost use Rattle.hall_sql.specs.Inside.{LeadsUncommitted, MakesInside, Changes, ToldByQuery, AddsPerson, DoesInside};
ghost use Rattle.hall_sql.specs.Rows.{person_in};
ghost use Rattle.hall_sql.specs.Reads.{ReadsTable};
ghost use Rattle.hall_sql.specs.Cause.{IsStoreCause};
ghost use Rattle.hall_sql.specs.Versions.{IsAnyHall};
ghost use Rattle.hall_sql.specs.WriteCause.{RunFails, IsUnfound, ImportsOne, PersonIsRefused, ImportFails};
ghost use Rattle.hall_sql.specs.WriteCause.{InsideFails};

use crate::calls::{ask_in, fault_of, live, write_in};
use crate::reads::read_any;
use crate::record::{at_most_one, read_all};
use hall_policy::{Name, People, Person, SomeRoles};
use hall_store::StoreFault;
use sqlite::types::{ToSql, ValueRef};
use sqlite::{Alter, Connection, Transaction, params};
use std::alloc::Global;

/// The person of a name.
pub(crate) const PERSON: &str = "SELECT name, pass, roles FROM people WHERE name = ?1";

/// Who has a key.
pub(crate) const PERSON_BY_KEY: &str = "SELECT name, pass, roles FROM people WHERE pass = ?1";

/// The next people after a name, in the order of their names: as many as are read at once.
pub(crate) const PEOPLE_AFTER: &str =
    "SELECT name, pass, roles FROM people WHERE name > ?1 ORDER BY name LIMIT 200";

/// All people, in the order of their names.
const ALL_PEOPLE: &str = "SELECT name, pass, roles FROM people ORDER BY name";

/// All people, in the order of their names, of either version.
pub(crate) fn all_people<S: Alter>(
    conn: &mut Connection<S>,
    alloc: Global,
) -> Result<Vec<Person>, StoreFault>
    requires hall { IsAnyHall (state S.Store conn.old) }
    ensures { ReadsTable person_in ALL_PEOPLE.now (state S.Store conn.old) (state S.Store conn.new) result
        (λ world people. people.items ≡ values world.people) }
{
    let _schema = conn.schema();
    read_any(conn, alloc, ALL_PEOPLE, &[])
}

/// The person of the name, as the transaction has it.
fn person_in<S: Alter>(
    tx: &mut Transaction<'_, S>,
    alloc: Global,
    name: &Name,
) -> Result<Option<Person>, StoreFault>
    ensures same_reference { tx.new.conn.ghost_name ≡ tx.old.conn.ghost_name }
    ensures carries { LeadsUncommitted (state S.Store tx.old.conn.now) (state S.Store tx.new.conn.now) }
    ensures done { HasCleanDisk (state S.Store tx.new.conn.now) → IsTrue (state S.Store tx.old.conn.now).in_transaction
        → IfOk result (λ found. MakesInside (ToldByQuery (λ world. found ≡ get world.people name.now))
        (state S.Store tx.old.conn.now) (state S.Store tx.new.conn.now)) }
    ensures cause { InsideFails (state S.Store tx.old.conn.now) (state S.Store tx.new.conn.now)
        (IsStoreCause (state S.Store tx.old.conn.now) (state S.Store tx.new.conn.now)
        ⊎ IsUnfound name.now (state S.Store tx.old.conn.now) (state S.Store tx.new.conn.now)) result }
{
    let rows = ask_in(tx, PERSON, params![name.as_str()])?;
    at_most_one(read_all(alloc, &rows)?)
}

/// The sum of the roles.
fn roles_code(roles: SomeRoles) -> u32
    ensures { result ≡ roles_code roles }
{
    let roles = roles.get();
    u32::from(roles.director)
        + 2 * u32::from(roles.author)
        + 4 * u32::from(roles.referee)
        + 8 * u32::from(roles.entrant)
}

/// The columns of a person.
fn columns(person: &Person) -> [ValueRef<'_>; 3]
    ensures { bound result ≡ person_params person.now }
{
    [
        person.name.as_str().to_sql(),
        person.key.as_str().to_sql(),
        roles_code(person.roles).to_sql(),
    ]
}

/// One more person.
const ADD_PERSON: &str = "INSERT INTO people (name, pass, roles) VALUES (?1, ?2, ?3)";

/// Adds a person whose name is unknown.
pub(crate) fn add_person<S: Alter>(
    tx: &mut Transaction<'_, S>,
    person: &Person,
) -> Result<(), StoreFault>
    ensures same_reference { tx.new.conn.ghost_name ≡ tx.old.conn.ghost_name }
    ensures carries { LeadsUncommitted (state S.Store tx.old.conn.now) (state S.Store tx.new.conn.now) }
    ensures done { DoesInside (state S.Store tx.old.conn.now) (state S.Store tx.new.conn.now)
        (AddsPerson person.now) result }
    ensures cause { InsideFails (state S.Store tx.old.conn.now) (state S.Store tx.new.conn.now)
        (RunFails ADD_PERSON.now (person_params person.now) (state S.Store tx.old.conn.now)
        (state S.Store tx.new.conn.now)) result }
{
    person.in_range();
    write_in(tx, ADD_PERSON, &columns(person))
}

/// Adds the person where the name is unknown.
fn import_one<S: Alter>(
    tx: &mut Transaction<'_, S>,
    alloc: Global,
    person: &Person,
) -> Result<(), StoreFault>
    ensures same_reference { tx.new.conn.ghost_name ≡ tx.old.conn.ghost_name }
    ensures carries { LeadsUncommitted (state S.Store tx.old.conn.now) (state S.Store tx.new.conn.now) }
    ensures done { DoesInside (state S.Store tx.old.conn.now) (state S.Store tx.new.conn.now)
        (Changes (Import (person.now ∷ []))) result }
    ensures row { DoesInside (state S.Store tx.old.conn.now) (state S.Store tx.new.conn.now)
        (ImportsOne person.now) result }
    ensures cause { InsideFails (state S.Store tx.old.conn.now) (state S.Store tx.new.conn.now)
        (IsStoreCause (state S.Store tx.old.conn.now) (state S.Store tx.new.conn.now)
        ⊎ PersonIsRefused person.now (state S.Store tx.old.conn.now) (state S.Store tx.new.conn.now)) result }
{
    match person_in(tx, alloc, &person.name)? {
        Some(_) => Ok(()),
        None => add_person(tx, person),
    }
}

/// Adds those whose names are unknown.
fn import_all<S: Alter>(
    tx: &mut Transaction<'_, S>,
    alloc: Global,
    people: &[Person],
) -> Result<(), StoreFault>
    ensures same_reference { tx.new.conn.ghost_name ≡ tx.old.conn.ghost_name }
    ensures carries { LeadsUncommitted (state S.Store tx.old.conn.now) (state S.Store tx.new.conn.now) }
    ensures done { DoesInside (state S.Store tx.old.conn.now) (state S.Store tx.new.conn.now)
        (Changes (Import people.now)) result }
    ensures cause { InsideFails (state S.Store tx.old.conn.now) (state S.Store tx.new.conn.now)
        (ImportFails S.Store people.now (state S.Store tx.old.conn.now) (state S.Store tx.new.conn.now)) result }
{
    for person in people {
        import_one(tx, alloc, person)?;
    }
    Ok(())
}

/// Adds the people of the list whose names are unknown: all of them or none.
pub(crate) fn import<S: Alter>(
    conn: &mut Connection<S>,
    alloc: Global,
    people: &People,
) -> Result<(), StoreFault>
    requires hall { IsHall (state S.Store conn.old) }
    ensures wrote { MakesInTables (Import people.now) (state S.Store conn.old) (state S.Store conn.new) result }
    ensures cause { HasCleanDisk (state S.Store conn.new) → Fails (ImportFails S.Store people.now
        (state S.Store conn.old) (state S.Store conn.new)) result }
{
    if !conn.is_autocommit() {
        return Err(StoreFault::Failed);
    }
    live(conn);
    let mut tx = conn.transaction();
    import_all(&mut tx, alloc, people.as_slice())?;
    match tx.commit() {
        Ok(()) => Ok(()),
        Err(error) => Err(fault_of(&error)),
    }
}
