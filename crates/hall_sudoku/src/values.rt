//! Sets of values of a cell.
ghost use Rattle.std.specs.Prelude.{◌≡◌, ◌≢◌, ◌↔◌, ◌⊎◌, ◌<◌, ◌^◌, ℕ, IsTrue, IfSome, IfNone};
ghost use Rattle.hall_sudoku.specs.Values.{Has, HasTwo};

use std::marker::Model;

/// A set of values below 32, one bit for each.
#[derive(Clone, Copy)]
pub(crate) struct Values {
    bits: u32,
}

impl Model for Values {
    ghost use Rattle.std.specs.Prelude.{ℕ, ◌<◌, ◌^◌};

    ghost Value = { ℕ };

    ghost view = { λ s. s.bits };

    ghost invariant = { λ s. s.bits < 2 ^ 32 };

    ghost inverse = { λ n. record { bits = n } };
}

impl Values {
    /// No value.
    pub(crate) fn none() -> Values
        ensures { (v : ℕ) → Has result v → ⊥ }
    {
        Values { bits: 0 }
    }

    /// The values below `count`.
    pub(crate) fn below(count: u8) -> Values
        requires { count < 32 }
        ensures { (v : ℕ) → Has result v ↔ (v < count) }
    {
        Values {
            bits: (1 << count) - 1,
        }
    }

    /// This value alone.
    pub(crate) fn of(value: u8) -> Values
        requires { value < 32 }
        ensures { (v : ℕ) → Has result v ↔ (v ≡ value) }
    {
        Values { bits: 1 << value }
    }

    /// The values of either.
    pub(crate) fn or(self, other: Values) -> Values
        ensures { (v : ℕ) → Has result v ↔ (Has self v ⊎ Has other v) }
    {
        Values {
            bits: self.bits | other.bits,
        }
    }

    /// The values of both.
    pub(crate) fn and(self, other: Values) -> Values
        ensures { (v : ℕ) → Has result v ↔ (Has self v × Has other v) }
    {
        Values {
            bits: self.bits & other.bits,
        }
    }

    /// The values that the other doesn't have.
    pub(crate) fn without(self, other: Values) -> Values
        ensures { (v : ℕ) → Has result v ↔ (Has self v × (Has other v → ⊥)) }
    {
        Values {
            bits: self.bits & !other.bits,
        }
    }

    /// Whether the value is one of them; it is below 32.
    pub(crate) fn contains(self, value: u8) -> bool
        requires { value < 32 }
        ensures { IsTrue result ↔ Has self value }
    {
        self.bits & (1 << value) != 0
    }

    /// Whether there is no value.
    pub(crate) fn is_empty(self) -> bool
        ensures { IsTrue result ↔ ((v : ℕ) → Has self v → ⊥) }
    {
        self.bits == 0
    }

    /// The least value.
    pub(crate) fn least(self) -> Option<u8>
        ensures some { IfSome result (λ v. Has self v × (v < 32)) }
        ensures none { IfNone result ((v : ℕ) → Has self v → ⊥) }
    {
        if self.bits == 0 {
            return None;
        }
        Some(self.bits.trailing_zeros() as u8)
    }

    /// The only value, `None` where there are two; the set is not empty.
    pub(crate) fn only(self) -> Option<u8>
        requires some { ((v : ℕ) → Has self v → ⊥) → ⊥ }
        ensures some { IfSome result (λ v. Has self v × ((w : ℕ) → Has self w → w ≡ v)) }
        ensures none { IfNone result (HasTwo self) }
    {
        let value = self.least()?;
        if self.bits == 1 << value {
            Some(value)
        } else {
            None
        }
    }

    /// Whether there are two values.
    pub(crate) fn has_two(self) -> bool
        ensures { IsTrue result → HasTwo self }
    {
        !self.is_empty() && self.only().is_none()
    }

    /// How many values there are.
    pub(crate) fn count(self) -> u32 {
        self.bits.count_ones()
    }
}
