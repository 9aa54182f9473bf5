//! What this machine was asked of its paths, and what it told: a history that only proofs read.
ghost use Rattle.std.specs.Prelude.{◌≡◌, [], None, IfOk};
ghost use Rattle.sqlite.specs.Files.{file_state};
ghost use Rattle.sqlite.specs.WalFiles.{image_at};
ghost use Rattle.hall_sql.specs.Copied.{AreCopies};
ghost use Rattle.hall_sql.specs.Opened.{IsImageFound};
ghost use Rattle.hall_sql.specs.PathCalls.{IsRefusedFor, WasCalled, WasOpened, named};
ghost use Rattle.hall_sql.specs.ServedFiles.{AreServed};

use crate::copied_database::{CopiedConnection, read_database};
use crate::file_calls::{Noted, note};
use crate::given_back::GivenBack;
use crate::served_files::{ServedConnection, open_served};
use crate::sight::{Sight, look_at};
use http_server::Log;
use sqlite::{Error, Start};
use std::fs::File;
use std::io::ErrorKind;
use std::{fs, io};

/// A call that was made of files, with what it told.
#[derive(Drop)]
pub enum PathCall {
    /// Whether there is no file.
    IsMissing(bool),
    /// The bytes of one.
    Read(io::Result<Vec<u8>>),
    /// A database: it was handed out, or refused.
    Open(Result<(), Error>),
    /// What is seen of a file that gave none.
    Look(Sight),
    /// One was given back. It stands beside no path.
    Close,
}

/// The calls, each beside the path that it named, in order. Who asks the system writes them, and nobody else can.
#[derive(Drop)]
pub struct PathCalls<'r> {
    rt: &'r HostRuntime,
    log: Log<Noted, PathCall>,
}

impl<'r> PathCalls<'r> {
    /// No call yet, of the files that the runtime has.
    pub(crate) fn none(rt: &'r HostRuntime) -> PathCalls<'r>
        ensures { named result.log ≡ [] }
    {
        PathCalls {
            rt,
            log: Log::new(),
        }
    }

    /// Adds this call, which named the path.
    fn add(&mut self, path: &str, call: &PathCall)
        ensures { WasCalled call.now self.old path.now self.new }
    {
        self.log = self.log.and(&note(path.as_bytes()), call);
    }

    /// Asks the system whether there is no file at the path.
    pub(crate) fn is_missing(&mut self, path: &str) -> bool
        ensures { WasCalled (PathCall.IsMissing result) self.old path.now self.new }
    {
        // It isn't opened: a pipe would wait for its other end.
        let found = fs::metadata(self.rt, path);
        let missing = matches!(found, Err(error) if error.kind() == ErrorKind::NotFound);
        self.add(path, &PathCall::IsMissing(missing));
        missing
    }

    /// Asks the system for the bytes of the file at the path.
    pub(crate) fn read(&mut self, path: &str) -> io::Result<Vec<u8>>
        ensures { WasCalled (PathCall.Read result) self.old path.now self.new }
    {
        let call = PathCall::Read(fs::read(self.rt, path));
        self.add(path, &call);
        match call {
            PathCall::Read(told) => told,
            _ => unreachable!(),
        }
    }

    /// Asks the system for the database at the path, whose files hold what `B` stands for. What is left of files that
    /// give none goes no further.
    pub(crate) fn open<B: Start>(
        &mut self,
        path: &str,
        start: B,
    ) -> Result<ServedConnection<B>, Error>
        ensures called { WasOpened self.old path.now result self.new }
        ensures found { IfOk result (λ conn. IsImageFound (image_at B.Start) (file_state conn)) }
        ensures refused { IsRefusedFor (λ conn. conn) AreServed result }
    {
        match open_served(self.rt, path, start) {
            Ok(conn) => {
                self.add(path, &PathCall::Open(Ok(())));
                Ok(conn)
            }
            Err((error, _left)) => {
                self.add(path, &PathCall::Open(Err(error)));
                Err(error)
            }
        }
    }

    /// Asks the system for the database at the path, in copies of its files, which hold what `B` stands for, and for
    /// its file, which is locked.
    pub(crate) fn open_copies<B: Start>(
        &mut self,
        path: &str,
    ) -> Result<(File, CopiedConnection<B>), Error>
        ensures called { WasOpened self.old path.now result self.new }
        ensures found { IfOk result (λ it. IsImageFound (image_at B.Start) (file_state it.1)) }
        ensures refused { IsRefusedFor (λ it. it.1) AreCopies result }
    {
        match read_database(self.rt, path) {
            Ok((file, conn)) => {
                self.add(path, &PathCall::Open(Ok(())));
                Ok((file, conn))
            }
            Err((error, _left)) => {
                self.add(path, &PathCall::Open(Err(error)));
                Err(error)
            }
        }
    }

    /// Asks the system what is seen of the file at the path, and beside it.
    pub(crate) fn look(&mut self, path: &str) -> Sight
        ensures { WasCalled (PathCall.Look result) self.old path.now self.new }
    {
        let sight = look_at(self.rt, path).unwrap_or(Sight::Nothing);
        self.add(path, &PathCall::Look(sight));
        sight
    }

    /// Takes a database back. Nobody can reach what it is given.
    pub(crate) fn close<C: Drop>(&mut self, left: &mut Option<GivenBack<C>>)
        ensures called { WasCalled PathCall.Close self.old [] self.new }
        ensures taken { left.new ≡ None }
    {
        *left = None;
        self.add("", &PathCall::Close);
    }
}
