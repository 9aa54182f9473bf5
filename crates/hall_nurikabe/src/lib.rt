//! Nurikabe: the judge, and the rules as a search asks them.
#![tactic(auto)]

mod between;
mod blocks;
mod branch;
mod colour;
mod cut;
mod deduce;
mod exits;
mod follow;
mod forced;
mod givens;
mod group;
mod island;
mod judge;
mod position;
mod region;
mod round;
mod rules;
mod steps;
mod trial;
mod turn;

pub use givens::start;
pub use judge::broken;
pub use rules::NurikabeRules;
