//! The hall's world in SQL tables.
#![tactic(auto)]

mod added;
mod adoption;
mod answers;
mod bad_rows;
mod bounds;
mod calls;
mod copied;
mod copied_database;
mod copied_files;
mod counts;
mod declined;
mod feed;
mod file_calls;
mod fill;
mod given_back;
mod laws;
mod looks;
mod losable;
mod make;
mod migration;
mod old_store;
mod open;
mod open_read;
mod path_calls;
mod people;
mod protests;
mod puzzles;
mod reads;
mod record;
mod round_writes;
mod rounds;
mod same;
mod scan;
mod schema;
mod served_files;
mod sight;
mod sql_store;
mod system_files;
mod tables;
mod testers;
mod whole;

pub use adoption::{adopt, adopt_old};
pub use bad_rows::{BadRows, is_whole};
pub use copied::Copied;
pub use copied_files::CopiedFiles;
pub use declined::Declined;
pub use file_calls::{FileCall, FileCalls};
pub use given_back::GivenBack;
pub use laws::law_statements;
pub use losable::Losable;
pub use migration::Migrated;
pub use old_store::{OldStore, Taken, migrate};
pub use open::{
    OpenFault, PathFiles, give_back, law_opened, open_at, open_in_memory, open_old, open_there,
};
pub use open_read::{FoundHall, open_to_read};
pub use path_calls::{PathCall, PathCalls};
pub use served_files::ServedFile;
pub use sight::Sight;
pub use sql_store::SqlStore;
pub use system_files::SystemFiles;
pub use tables::HallTable;
