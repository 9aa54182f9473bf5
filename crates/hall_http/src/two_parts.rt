//! Bytes in two parts.
ghost use Rattle.std.specs.Prelude.{◌≡◌, ◌≤◌, ◌++◌, length, string_bytes};

use std::marker::Model;

/// Bytes in two parts, of which the second is kept as it was made: a long one isn't copied. A contract sees them all.
#[derive(Drop)]
pub struct TwoParts {
    front: String,
    rest: Vec<u8>,
}

impl Model for TwoParts {
    ghost use Rattle.std.specs.Prelude.{◌≤◌, ◌++◌, ℕ, List, length, string_bytes};

    ghost Value = { List ℕ };

    ghost view = { λ p. string_bytes p.front ++ p.rest.items };

    // So that a place in it can be counted.
    ghost invariant = { λ p. length (string_bytes p.front ++ p.rest.items) ≤ 18446744073709551615 };
}

impl TwoParts {
    /// These.
    pub(crate) fn new(front: String, rest: Vec<u8>) -> TwoParts
        requires { length (string_bytes front ++ rest.items) ≤ 18446744073709551615 }
        ensures { result ≡ string_bytes front ++ rest.items }
    {
        TwoParts { front, rest }
    }

    /// How many bytes it has.
    pub(crate) fn len(&self) -> usize
        ensures { result ≡ length self.now }
    {
        self.front.len() + self.rest.len()
    }

    /// Both, one after the other.
    pub(crate) fn both(&self) -> (&[u8], &[u8])
        ensures { result.0.now ++ result.1.now ≡ self.now }
    {
        (self.front.as_str().as_bytes(), self.rest.as_slice())
    }
}
