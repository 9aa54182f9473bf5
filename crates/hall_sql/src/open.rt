//! The hall's tables in the files at a path, and in memory.
ghost use Rattle.std.specs.Prelude.{IsTrue, ◌≡◌, IfOk, IfErr, IfSome};
ghost use Rattle.sqlite.specs.Held.{state};
ghost use Rattle.sqlite.specs.Steps.{over_memory};
ghost use Rattle.hall_store.specs.Maps.{empty_world};
ghost use Rattle.hall_store.specs.Store.{Fails};
ghost use Rattle.hall_sql.specs.Tables.{hall_schema};
ghost use Rattle.hall_sql.specs.Standing.{IsBareDatabase};
ghost use Rattle.hall_sql.specs.Content.{content_of};
ghost use Rattle.hall_sql.specs.Migrate.{old_content_of};
ghost use Rattle.hall_sql.specs.Stopped.{IsAtRest, StopsAreFound, StopsFind, StopsHold, StopsLeave};
ghost use Rattle.hall_sql.specs.Rows.{world_of};
ghost use Rattle.sqlite.specs.Files.{file_state};
ghost use Rattle.sqlite_store.specs.FileStore.{view};
ghost use Rattle.sqlite_trees.specs.View.{IsClean};
ghost use Rattle.hall_sql.specs.Opened.{IsCauseAt, IsCauseThere, IsOldAsked, OpensAt, OpensThere, Starts, StartsOld};
ghost use Rattle.hall_sql.specs.Opened.{MemoryServes, OneWorldIsFound};
ghost use Rattle.hall_sql.specs.declared.open.OpenFault.TheVariants.{Unopened};

use crate::declined::Declined;
use crate::given_back::GivenBack;
use crate::old_store::{OldStore, Taken};
use crate::schema::{is_analyzed, is_old_schema};
use crate::sight::Sight;
use crate::sql_store::SqlStore;
use hall_store::StoreFault;
use sqlite::{Alter, Connection, Error, FileStore, MemStore};
use sqlite_disk::Disk;
use std::alloc::Global;
use std::io;

/// Why the files at a path give no store.
#[derive(Drop)]
pub enum OpenFault {
    /// There is no file.
    Missing,
    /// The files can't be opened, or hold no database; and what is seen of them then.
    Unopened(Error, Sight),
    /// The database has the tables of the first version.
    Old,
    /// The database has the tables that SQLite's `ANALYZE` makes.
    Analyzed,
    /// The database has other tables than the hall's, or they can't be made.
    Refused(StoreFault),
}

/// Files, each under its path, and the database files among them.
///
/// What is asked of them may change them, so that a contract tells what was asked, and in which order.
pub trait PathFiles<S: Alter> {
    ghost use Rattle.std.specs.Prelude.{◌≡◌, List, ℕ, Bool, IfOk, IfErr, IfSome, None};
    ghost use Rattle.std.specs.declared.io.Error.{Error as ReadError};
    ghost use Rattle.sqlite.specs.Recovery.{Image};
    ghost use Rattle.sqlite.specs.Held.{Held, state};
    ghost use Rattle.sqlite.specs.declared.error.Error.{Error};
    ghost use Rattle.hall_sql.specs.Opened.{IsImageFound};
    ghost use Rattle.hall_sql.specs.declared.sight.Sight.{Sight};

    /// The log and the database file at a path.
    ghost image_at: { List ℕ → Image };

    /// Asked whether there is no file at the path, they tell so.
    ghost tells: { Self → List ℕ → Bool → Self → Type 0 };

    /// Asked for the bytes of the file at the path, they give these.
    ghost gives: { Self → List ℕ → List ℕ → Self → Type 0 };

    /// Asked for the bytes of the file at the path, they give none, by this error.
    ghost withholds: { Self → List ℕ → ReadError → Self → Type 0 };

    /// Asked for the database at the path, they hand out this one.
    ghost opens: { Self → List ℕ → Held S → Self → Type 0 };

    /// Asked for the database at the path, they refuse by this error.
    ghost refuses: { Self → List ℕ → Error → Self → Type 0 };

    /// Asked what is seen of the file at the path, they tell this.
    ghost sees: { Self → List ℕ → Sight → Self → Type 0 };

    /// Given this database back, they let go of it.
    ghost closes: { Self → Held S → Self → Type 0 };

    /// Whether there is no file at the path.
    fn is_missing(&mut self, path: &str) -> bool
        ensures { tells self.old path.now result self.new };

    /// The bytes of the file at the path.
    fn read(&mut self, path: &str) -> io::Result<Vec<u8>>
        ensures given { IfOk result (λ bytes. gives self.old path.now bytes.items self.new) }
        ensures withheld { IfErr result (λ error. withholds self.old path.now error self.new) };

    /// The database at the path, which is made where there is none.
    fn open(&mut self, path: &str) -> Result<Connection<S>, Error>
        ensures opened { IfOk result (λ conn. opens self.old path.now conn self.new) }
        ensures found { IfOk result (λ conn. IsImageFound (image_at path.now) (state S.Store conn)) }
        ensures refused { IfErr result (λ error. refuses self.old path.now error self.new) };

    /// What is seen of the file at the path, and beside it.
    fn look(&mut self, path: &str) -> Sight
        ensures { sees self.old path.now result self.new };

    /// Takes a database back, as it was left, and leaves nothing in its place. No body can reach what it is given.
    fn close(&mut self, left: &mut Option<GivenBack<Connection<S>>>)
        ensures closed { IfSome left.old (λ back. closes self.old back.conn self.new) }
        ensures taken { left.new ≡ None };
}

/// Gives the files a database back, as it was left.
pub fn give_back<S: Alter + Drop, F: PathFiles<S>>(files: &mut F, conn: Connection<S>)
    ensures { F.closes files.old conn files.new }
{
    files.close(&mut Some(GivenBack::new(conn)));
}

/// Why there is no database at the path, by the error and by what is seen there.
pub(crate) fn unopened<S: Alter, F: PathFiles<S>>(
    files: &mut F,
    path: &str,
    error: Error,
) -> OpenFault
    ensures { (sight : Sight) × F.sees files.old path.now sight files.new × (result ≡ Unopened error sight) }
{
    let sight = files.look(path);
    OpenFault::Unopened(error, sight)
}

/// The hall's tables in the files at the path, made there where there is none.
pub fn open_at<S: Alter + Drop, F: PathFiles<S>>(
    files: &mut F,
    path: &str,
) -> Result<SqlStore<S>, OpenFault>
    ensures opened { IfOk result (λ store.
        OpensAt S.Store F.image_at F.opens files.old path.now store files.new) }
    ensures starts { IfOk result (λ store. Starts (F.image_at path.now) (content_of (state S.Store store))) }
    ensures cause { IfErr result
        (IsCauseAt S.Store F.image_at F.refuses F.sees F.opens F.closes files.old path.now files.new) }
{
    let conn = match files.open(path) {
        Ok(conn) => conn,
        Err(error) => return Err(unopened(files, path, error)),
    };
    let is_old = is_old_schema(conn.schema());
    let is_analyzed = is_analyzed(conn.schema());
    match SqlStore::over(conn) {
        Ok(store) => Ok(store),
        Err(Declined { conn, fault }) => {
            give_back(files, conn);
            if is_old {
                return Err(OpenFault::Old);
            }
            if is_analyzed {
                return Err(OpenFault::Analyzed);
            }
            Err(OpenFault::Refused(fault))
        }
    }
}

/// The hall's tables in the files at the path, which are there.
pub fn open_there<S: Alter + Drop, F: PathFiles<S>>(
    files: &mut F,
    path: &str,
) -> Result<SqlStore<S>, OpenFault>
    ensures opened { IfOk result (λ store.
        OpensThere S.Store F.image_at F.tells F.opens files.old path.now store files.new) }
    ensures starts { IfOk result (λ store. Starts (F.image_at path.now) (content_of (state S.Store store))) }
    ensures cause { IfErr result
        (IsCauseThere S.Store F.image_at F.tells F.refuses F.sees F.opens F.closes files.old path.now files.new) }
{
    if files.is_missing(path) {
        return Err(OpenFault::Missing);
    }
    open_at(files, path)
}

/// The tables of the first version in the files at the path: none where there is no file, or it has other tables.
pub fn open_old<S: Alter + Drop, F: PathFiles<S>>(
    files: &mut F,
    path: &str,
) -> Result<Option<OldStore<S>>, OpenFault>
    ensures asked { IsOldAsked S.Store F.image_at F.tells F.refuses F.sees F.opens F.closes
        files.old path.now result files.new }
    ensures starts { IfOk result (λ found. IfSome found (λ store.
        StartsOld (F.image_at path.now) (old_content_of (state S.Store store)))) }
{
    if files.is_missing(path) {
        return Ok(None);
    }
    match files.open(path) {
        Ok(conn) => match OldStore::over(conn) {
            Ok(Taken::Old(store)) => Ok(Some(store)),
            Ok(Taken::Other(conn)) => {
                give_back(files, conn);
                Ok(None)
            }
            Err(Declined { conn, fault }) => {
                give_back(files, conn);
                Err(OpenFault::Refused(fault))
            }
        },
        Err(error) => Err(unopened(files, path, error)),
    }
}

/// The hall's tables in memory, without a row.
pub fn open_in_memory(alloc: Global) -> Result<SqlStore<MemStore>, StoreFault>
    ensures empty { IfOk result (λ store. (content_of (state over_memory store)).world ≡ empty_world) }
    ensures bare { IfOk result (λ store. IsBareDatabase hall_schema (state over_memory store).now) }
    ensures cause { Fails ⊥ result }
{
    let conn = Connection::open_in_memory(alloc)?;
    match SqlStore::over(conn) {
        Ok(store) => Ok(store),
        Err(Declined { conn, fault }) => {
            drop(conn);
            Err(fault)
        }
    }
}

/// Files that hold a world are found to hold no other; and over memory, a store is honest and serves.
pub fn law_opened()
    ensures found { OneWorldIsFound }
    ensures memory { MemoryServes }
{}

/// Tells a proof that a stop between two calls leaves the tables as they are.
fn at_rest<S: Alter + Drop>(store: &SqlStore<S>)
    ensures { IsAtRest (state S.Store store.now) }
{
    store.in_hall();
}

/// Lets go of the store. Where the device was honest, the world that is found in the files as a stop leaves them is one
/// that a stop might leave of the store; and while it serves, they hold the store's own world, and no other.
pub fn let_go<D: Disk + Drop>(store: SqlStore<FileStore<D>>) -> FileStore<D>
    ensures stopped { IsClean (view result) → StopsAreFound result (file_state store) }
    ensures left { IsClean (view result) → StopsLeave result (content_of (file_state store)) }
    ensures holds { IsClean (view result) → IsTrue (file_state store).is_open
        → StopsHold result (world_of (file_state store).now.trees) }
    ensures rested { IsClean (view result) → IsTrue (file_state store).is_open
        → StopsFind result (world_of (file_state store).now.trees) }
{
    at_rest(&store);
    let conn = store.into_connection();
    let _schema = conn.schema();
    conn.into_store()
}
