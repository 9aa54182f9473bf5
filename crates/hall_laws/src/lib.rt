//! Laws over all crates below: what a server sent, what a later open of its file finds, what is hidden from all but
//! directors, and that keys are told to nobody.
#![tactic(auto)]

mod laws;

pub use laws::{law_acknowledged, law_files, law_keys, law_order, law_roles};
