//! Entrants with their totals, one after another.
ghost use Rattle.std.specs.Prelude.{◌≡◌, ◌++◌, ◌∷◌, [], OnOk, OnErr};

use hall_policy::Name;
use std::alloc::{AllocError, Global};
use std::marker::Model;

/// Entrants with their totals; a contract sees the list.
#[derive(Drop)]
pub(crate) struct Totals {
    list: Vec<(Name, i64)>,
}

impl Model for Totals {
    ghost use Rattle.std.specs.Prelude.{List, ℕ, ℤ};

    ghost Value = { List (List ℕ × ℤ) };

    ghost view = { λ t. t.list.items };
}

impl Totals {
    /// Of nobody.
    pub(crate) fn new(alloc: Global) -> Totals
        ensures { result ≡ [] }
    {
        Totals {
            list: Vec::new(alloc),
        }
    }

    /// Puts an entrant's total at the end. Refused, it leaves the others.
    pub(crate) fn push(&mut self, entrant: (Name, i64)) -> Result<(), AllocError>
        ensures ok { OnOk result (self.new ≡ self.old ++ entrant ∷ []) }
        ensures err { OnErr result (self.new ≡ self.old) }
    {
        self.list.push(entrant)?;
        Ok(())
    }

    /// The list.
    pub(crate) fn into_list(self) -> Vec<(Name, i64)>
        ensures { result.items ≡ self }
    {
        let Totals { list } = self;
        list
    }
}
