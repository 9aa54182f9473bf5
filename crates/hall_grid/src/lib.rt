//! Boards, puzzle texts, fillings and answer texts.
#![tactic(auto)]

mod answer;
mod board;
mod body;
mod counted;
mod fault;
mod filling;
mod form;
mod graph;
mod laws;
mod neighbour;
mod puzzle;
mod region;
mod rule;
mod text;
mod write;

pub use answer::{parse_answer, write_answer};
pub use board::{Clue, Kind, Size};
pub use counted::Counted;
pub use fault::TextFault;
pub use filling::Filling;
pub use graph::{Graph, components, labels_differ, reached};
pub use laws::law_texts;
pub use neighbour::{dot_ends, neighbours, sides};
pub use puzzle::Puzzle;
pub use region::{reach, regions};
pub use rule::{Broken, Rule};
pub use text::parse_puzzle;
pub use write::write_puzzle;
