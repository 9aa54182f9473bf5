//! The files of this machine, of which one database is read into memory and opened there: no byte of them is changed.
ghost use Rattle.std.specs.Prelude.{◌≡◌, [], Some};
ghost use Rattle.hall_sql.specs.PathCalls.{named};

use crate::copied::Copied;
use crate::copied_database::CopiedConnection;
use crate::given_back::GivenBack;
use crate::open::PathFiles;
use crate::path_calls::PathCalls;
use crate::sight::Sight;
use sqlite::{Error, ErrorCode, FileStore, Start};
use std::fs::File;
use std::io;

/// The files of this machine, of which one database is read into memory, with its log, and opened there: what it held,
/// `B` stands for. Until it is given back, no other program has the database open.
///
/// As of `SystemFiles`, no clause ties a path to what the machine has there; the history of `PathCalls` tells which
/// path was asked for by which call, and what it told.
#[derive(Drop)]
pub struct CopiedFiles<'r, B: Start> {
    start: Option<B>,
    lock: Option<File>,
    calls: PathCalls<'r>,
}

impl<'r, B: Start> CopiedFiles<'r, B> {
    /// The files that the runtime has, of which nobody has asked anything yet.
    pub fn new(rt: &'r HostRuntime, start: B) -> CopiedFiles<'r, B>
        ensures { (named result.calls.log ≡ []) × (result.start ≡ Some start) }
    {
        CopiedFiles {
            start: Some(start),
            lock: None,
            calls: PathCalls::none(rt),
        }
    }
}

impl<B: Start> PathFiles<FileStore<Copied<B>>> for CopiedFiles<'_, B> {
    ghost use Rattle.std.specs.Prelude.{◌≡◌, ◌⊎◌, [], None, IsSome, Ok, Err};
    ghost use Rattle.sqlite.specs.WalFiles.{image_at};
    ghost use Rattle.hall_sql.specs.PathCalls.{WasCalled, cannot_open};
    ghost use Rattle.hall_sql.specs.declared.path_calls.PathCall.TheVariants as PathCall;

    ghost image_at = { λ path. image_at B.Start };

    ghost tells = { λ old path missing new. (new.start ≡ old.start)
        × WasCalled (PathCall.IsMissing missing) old.calls path new.calls };

    ghost gives = { λ old path bytes new. (new.start ≡ old.start)
        × ((read : _) × (read.items ≡ bytes) × WasCalled (PathCall.Read (Ok read)) old.calls path new.calls) };

    ghost withholds = { λ old path error new. (new.start ≡ old.start)
        × WasCalled (PathCall.Read (Err error)) old.calls path new.calls };

    ghost opens = { λ old path conn new. IsSome old.start × (new.start ≡ None)
        × WasCalled (PathCall.Open (Ok tt)) old.calls path new.calls };

    // One database is handed out, and no other is asked for.
    ghost refuses = { λ old path error new. ((old.start ≡ None) × (new.calls ≡ old.calls) × (error ≡ cannot_open))
        ⊎ WasCalled (PathCall.Open (Err error)) old.calls path new.calls };

    ghost sees = { λ old path sight new. (new.start ≡ old.start)
        × WasCalled (PathCall.Look sight) old.calls path new.calls };

    ghost closes = { λ old conn new. WasCalled PathCall.Close old.calls [] new.calls };

    fn is_missing(&mut self, path: &str) -> bool {
        self.calls.is_missing(path)
    }

    fn read(&mut self, path: &str) -> io::Result<Vec<u8>> {
        self.calls.read(path)
    }

    fn open(&mut self, path: &str) -> Result<CopiedConnection<B>, Error> {
        if self.start.take().is_none() {
            return Err(Error::SqliteFailure(ErrorCode::CannotOpen));
        }
        let (file, conn) = self.calls.open_copies(path)?;
        self.lock = Some(file);
        Ok(conn)
    }

    fn look(&mut self, path: &str) -> Sight {
        self.calls.look(path)
    }

    fn close(&mut self, left: &mut Option<GivenBack<CopiedConnection<B>>>) {
        self.calls.close(left);
        self.lock = None;
    }
}
