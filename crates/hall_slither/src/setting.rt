//! Sides with their values.

/// A side and a value that it has.
#[derive(Clone, Copy)]
pub(crate) struct Setting {
    pub(crate) side: usize,
    pub(crate) value: u8,
}
