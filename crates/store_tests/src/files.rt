//! The two files of a database in memory, which may fail from some call on.
use crate::lent::Lent;
use crate::tables::{Ask, ask_over};
use hall_sql::{Migrated, OldStore, SqlStore, migrate};
use hall_store::StoreFault;
use sqlite::{Alter, Connection, FileStore, Files, MemStore, Options};
use sqlite_disk::{Crash, Disk, Fuse, Memory};
use std::alloc::AllocGlobal;
use std::process::Abort;

/// Two files, each of which serves so many calls.
pub(crate) type Stopped = Files<Fuse<Memory>>;

/// What two files hold.
#[derive(Drop)]
pub(crate) struct Image {
    log: Vec<u8>,
    db: Vec<u8>,
}

pub(crate) fn empty_image(rt: &impl AllocGlobal) -> Image {
    Image {
        log: Vec::new(rt.alloc()),
        db: Vec::new(rt.alloc()),
    }
}

/// A file that holds the bytes, and serves so many calls.
fn fused(rt: &(impl AllocGlobal + Abort), bytes: &[u8], calls: u64) -> Fuse<Memory> {
    let mut file = Memory::new(rt.alloc());
    file.write_at(0, bytes).expect(rt, "memory");
    file.sync().expect(rt, "memory");
    Fuse::new(file, calls)
}

/// One of the two files.
#[derive(Clone, Copy)]
pub(crate) enum Part {
    Log,
    Database,
}

/// More calls than a command makes of a file.
pub(crate) const MOST_CALLS: u64 = 2000;

/// Files that hold the image, and serve so many calls each.
fn with_calls(
    rt: &(impl AllocGlobal + Abort),
    image: &Image,
    log_calls: u64,
    db_calls: u64,
) -> Stopped {
    Files {
        log: fused(rt, image.log.as_slice(), log_calls),
        db: fused(rt, image.db.as_slice(), db_calls),
    }
}

/// Files that hold the image, and serve each call.
pub(crate) fn whole(rt: &(impl AllocGlobal + Abort), image: &Image) -> Stopped {
    with_calls(rt, image, u64::MAX, u64::MAX)
}

/// Files that hold the image, one of which serves so many calls and the other one each.
pub(crate) fn stopped(
    rt: &(impl AllocGlobal + Abort),
    image: &Image,
    part: Part,
    calls: u64,
) -> Stopped {
    match part {
        Part::Log => with_calls(rt, image, calls, u64::MAX),
        Part::Database => with_calls(rt, image, u64::MAX, calls),
    }
}

fn bytes_of(rt: &(impl AllocGlobal + Abort), file: &Fuse<Memory>) -> Vec<u8> {
    let mut bytes = Vec::new(rt.alloc());
    bytes
        .extend_from_slice(file.inner().bytes())
        .expect(rt, "memory");
    bytes
}

/// What the files hold where the process ends.
pub(crate) fn image_of(rt: &(impl AllocGlobal + Abort), files: &Stopped) -> Image {
    Image {
        log: bytes_of(rt, &files.log),
        db: bytes_of(rt, &files.db),
    }
}

/// What the files hold where the process ends, and where the machine does: then all that wasn't synced is lost.
pub(crate) fn images_after(rt: &(impl AllocGlobal + Abort), files: &mut Stopped) -> [Image; 2] {
    let killed = image_of(rt, files);
    files.log.crash();
    files.db.crash();
    [killed, image_of(rt, files)]
}

/// Whether the file serves no further call.
fn is_used_up(file: &mut Fuse<Memory>) -> bool {
    !file.may_be_used() || file.len().is_err()
}

/// Whether one of the files serves no further call.
pub(crate) fn is_blown(files: &mut Stopped) -> bool {
    is_used_up(&mut files.log) || is_used_up(&mut files.db)
}

/// A database in files that are lent to it.
type Lending<'a> = FileStore<Lent<'a, Fuse<Memory>>>;

/// The database in the files, which copies its log into the file after each write.
fn connected<'a>(rt: &impl AllocGlobal, files: &'a mut Stopped) -> Option<Connection<Lending<'a>>> {
    let lent = Files {
        log: Lent::new(&mut files.log),
        db: Lent::new(&mut files.db),
    };
    if !lent.log.may_be_used() || !lent.db.may_be_used() {
        return None;
    }
    let mut options = Options::new(7);
    options.checkpoint_frames = 1;
    Connection::open_files(rt.alloc(), lent, options).ok()
}

/// Asks it of the hall in the files, made there where there is none. Whether it could be asked.
pub(crate) fn ask_in<A: Ask>(
    rt: &(impl AllocGlobal + Abort),
    files: &mut Stopped,
    ask: &mut A,
) -> bool {
    match connected(rt, files) {
        Some(conn) => ask_over(rt, conn, ask),
        None => false,
    }
}

/// Migrates the store into the database in the files. What became of it, where that could be opened.
pub(crate) fn migrate_in(
    rt: &(impl AllocGlobal + Abort),
    files: &mut Stopped,
    old: &mut OldStore<MemStore>,
) -> Option<Result<Migrated, StoreFault>> {
    let conn = connected(rt, files)?;
    match SqlStore::over(conn) {
        Ok(mut store) => Some(migrate(rt.alloc(), old, &mut store)),
        Err(_) => None,
    }
}

fn count_tables<S: Alter + Drop>(rt: &impl Abort, mut conn: Connection<S>) -> i64 {
    let row = conn.query_row(
        "SELECT count(*) FROM sqlite_schema WHERE type = 'table'",
        &[],
    );
    row.expect(rt, "row").get(0).expect(rt, "count")
}

/// How many tables stand in the files.
pub(crate) fn tables_in(rt: &(impl AllocGlobal + Abort), image: &Image) -> i64 {
    let mut files = whole(rt, image);
    count_tables(rt, connected(rt, &mut files).expect(rt, "opened again"))
}
