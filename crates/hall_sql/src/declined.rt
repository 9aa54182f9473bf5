//! A connection that wasn't taken over.
use hall_store::StoreFault;
use sqlite::{Alter, Connection};

/// A connection that no store takes over, and why.
#[derive(Drop)]
pub struct Declined<S: Alter> {
    pub conn: Connection<S>,
    pub fault: StoreFault,
}
