//! What a search may answer.

use hall_grid::Filling;

/// What a search found.
#[derive(Drop)]
pub enum Outcome {
    /// No filling solves.
    None,
    /// This filling alone solves.
    One(Filling),
    /// These two fillings solve, and they differ.
    More(Filling, Filling),
    /// The budget of visits didn't suffice.
    GaveUp,
}
