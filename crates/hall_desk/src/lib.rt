//! One request to the hall: what is asked, decided, changed and answered.
#![tactic(auto)]

mod answers;
mod census;
mod certify_puzzle;
mod copies;
mod desk;
mod find_round;
mod found_state;
mod handler;
mod import;
pub mod laws;
mod lines;
mod list_puzzles;
mod list_rounds;
mod listing;
mod memo;
mod memos;
mod plan;
mod planning;
mod prepared;
mod preparing;
mod protest;
mod protests;
mod publish;
mod put_puzzle;
mod put_round;
mod puzzle_search;
mod read_puzzle;
mod read_round;
mod release;
mod release_faults;
mod released_rounds;
mod reply;
mod request_at;
mod round_copy;
mod rows;
mod rule_protest;
mod search;
mod search_outcome;
mod seed;
mod serving;
mod slices;
mod solutions;
mod step;
mod submit;
mod table;
mod table_copy;
mod tabling;
mod telling;
mod together;
mod under_way;
mod verdict;
mod wanted_search;

pub use census::Census;
pub use desk::Desk;
pub use found_state::{FoundState, find_state, is_open};
pub use plan::Plan;
pub use prepared::Prepared;
pub use release_faults::is_one;
pub use reply::{
    AnswerLine, AnswersText, ProtestLine, PuzzleLine, Reply, RoundLine, ShownPuzzle, ShownRound,
    StateName, TableText,
};
pub use rows::Rows;
pub use search::certify;
pub use telling::Telling;
pub use together::take;
pub use verdict::judge;
