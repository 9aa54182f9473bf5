//! What came of working on what a request needs.

/// What came of working on what a request needs.
#[derive(Clone, Copy, Debug, PartialEq, Eq)]
pub enum Prepared {
    /// Nothing is left to do for it.
    Ready,
    /// Its search is under way, or waits for its place; or a table, or a listing of answers, is being made, its own or
    /// one before it.
    Waits,
    /// Memory or the store failed.
    Refused,
}
