//! A search for the fillings of a board that obey rules: none, one, or more than one.
//!
//! A kind of puzzle says what is right by an `impl Rules`; [`search`] is proved once, for every kind.
#![tactic(auto)]

mod choice;
mod deduce;
mod explore;
mod outcome;
mod partial;
mod paused;
mod rules;
mod searched;
mod visit;

pub use deduce::{Deduce, Finding, Look, Pass, settle, sweep};
pub use explore::search;
pub use outcome::Outcome;
pub use partial::{Mark, Partial};
pub use paused::{Search, Searching};
pub use rules::{Rules, Step};
pub use searched::{Searched, Visits};
