//! What several test crates and the program `probe` share: a store that fails, and the bytes of a request.
#![tactic(auto)]

mod limited_store;
mod request;

pub use crate::limited_store::LimitedStore;
pub use crate::request::request_text;
