//! The points of a contest round: an entrant's total, the standings, and their table.
#![tactic(auto)]

mod entrant;
mod laws;
mod points;
mod progress;
mod ranking;
mod rulings;
mod table;
mod tally;
mod totals;
mod tries;

pub use laws::law_totals;
pub use points::total;
pub use ranking::{Line, standings};
pub use table::table_text;
pub use tally::Tally;
