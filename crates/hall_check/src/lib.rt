//! Whether all that a hall keeps is sane, sentence by sentence.
#![tactic(auto)]

mod ask_answers;
mod ask_people;
mod ask_places;
mod ask_protests;
mod ask_puzzles;
mod ask_rounds;
mod ask_rows;
mod ask_testers;
mod counting_keys;
mod counts;
mod halves;
mod puzzle_states;
mod ranges;
mod ranked_answers;
mod row_counts;
mod sanity;
mod sentence;
mod sentences;
mod whole;

pub use puzzle_states::States;
pub use sanity::{Checked, check};
pub use sentence::{Breaches, Sentence, Spot};
