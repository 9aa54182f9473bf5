//! Slitherlink: the judge, and the rules as a search asks them.
#![tactic(auto)]

mod chain;
mod close;
mod colour;
mod count;
mod dot;
mod early;
mod ends;
mod follow;
mod judge;
mod lines;
mod position;
mod queue;
mod rules;
mod scratch;
mod setting;
mod trial;

pub use judge::broken;
pub use rules::{SlitherRules, start};
