//! What is known of the protests of each entrant.
ghost use Rattle.std.specs.Prelude.{◌≡◌, ◌<◌, ◌+◌, ◌+ℤ◌, [], ℕ, List, pos, Some, OnOk, OnErr};
ghost use Rattle.hall_policy.specs.World.{ruling_points};
ghost use Rattle.hall_score.specs.Rulings.{rulings_at, points_ruled, count_ruled};

use crate::entrant::Rulings;
use hall_policy::{Name, ProtestRow, ruling_points};
use std::alloc::{AllocError, Global};
use std::collections::BTreeMap;
use std::marker::Model;

impl Rulings {
    /// Of no protest.
    pub(crate) fn none() -> Rulings
        ensures count { result.count ≡ 0 }
        ensures points { result.points ≡ pos 0 }
    {
        Rulings {
            count: 0,
            points: 0,
        }
    }

    /// These and another protest.
    pub(crate) fn with(&self, row: &ProtestRow) -> Rulings
        requires { self.now.count < 4294967295 }
        ensures count { result.count ≡ self.now.count + 1 }
        ensures points { result.points ≡ self.now.points +ℤ ruling_points row.now.ruling }
    {
        Rulings {
            count: self.count + 1,
            points: self.points + i64::from(ruling_points(&row.ruling)),
        }
    }
}

/// What is known of the protests of each entrant with one; a contract sees the list, by name.
#[derive(Drop)]
pub(crate) struct RulingsByEntrant {
    map: BTreeMap<Name, Rulings>,
}

impl Model for RulingsByEntrant {
    ghost use Rattle.std.specs.Prelude.{List, ℕ};
    ghost use Rattle.hall_score.specs.declared.entrant.Rulings.{Rulings};

    ghost Value = { List (List ℕ × Rulings) };

    ghost view = { λ r. r.map.entries };
}

impl RulingsByEntrant {
    /// Of nobody.
    pub(crate) fn new(alloc: Global) -> RulingsByEntrant
        ensures { result ≡ [] }
    {
        RulingsByEntrant {
            map: BTreeMap::new(alloc),
        }
    }

    /// What is known of the entrant's protests.
    pub(crate) fn at(&self, name: &Name) -> Rulings
        ensures count { result.count ≡ count_ruled (rulings_at self.now name.now) }
        ensures points { result.points ≡ points_ruled (rulings_at self.now name.now) }
    {
        match self.map.get(name) {
            Some(found) => *found,
            None => Rulings::none(),
        }
    }

    /// Puts what is known of the entrant's protests. Refused, it leaves the others.
    pub(crate) fn put(&mut self, name: &Name, next: Rulings) -> Result<(), AllocError>
        ensures here { OnOk result (rulings_at self.new name.now ≡ Some next) }
        ensures others { OnOk result ((other : List ℕ) → ¬ (other ≡ name.now)
            → rulings_at self.new other ≡ rulings_at self.old other) }
        ensures err { OnErr result (self.new ≡ self.old) }
    {
        let name = name.clone()?;
        self.map.insert(name, next)?;
        Ok(())
    }
}
