//! The choices that a search made.

use crate::partial::Mark;

/// A value that a search chose for a place, and how long the trail was before.
#[derive(Clone, Copy)]
pub(crate) struct Choice {
    pub(crate) mark: Mark,
    pub(crate) place: usize,
    pub(crate) value: u8,
}
