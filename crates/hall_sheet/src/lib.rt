//! Entry lists and round sheets, read from the bytes of a file.
#![tactic(auto)]

mod entry;
mod fault;
mod laws;
mod list;
mod sheet;
mod start;
mod table;
mod version;
mod words;
mod zone;

pub use fault::{Field, Refusal, SheetFault};
pub use laws::law_zone;
pub use list::read_people;
pub use sheet::read_round;
