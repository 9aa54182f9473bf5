//! What the program is run over.
use hall_grid::Counted;
use hall_http::Host;
use hall_sql::PathFiles;
use sqlite::Alter;
use std::io::{Read, Write};

/// The kinds of a machine's parts.
pub trait Machine {
    /// The store of a database that is migrated.
    type Old: Alter + Drop;

    /// The files that such a database is asked for among.
    type Sources: PathFiles<Self::Old> + Drop;

    /// The store of any other database.
    type Kept: Alter + Drop;

    /// The files that any other database, and each list, is asked for among.
    type Files: PathFiles<Self::Kept> + Drop;

    /// Its ports and its clock.
    type Host: Host + Drop;

    /// Where lists and requests are read.
    type Input: Read + Drop;

    /// Where what a command finds is written.
    type Output: Write + Drop;

    /// Where a fault is told.
    type Error: Write + Drop;
}

/// A machine: its files, its host and its streams.
#[derive(Drop)]
pub struct Parts<M: Machine> {
    pub sources: M::Sources,
    pub files: M::Files,
    pub host: M::Host,
    pub input: Counted<M::Input>,
    pub output: Counted<M::Output>,
    pub error: Counted<M::Error>,
}
