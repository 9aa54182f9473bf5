//! The roles of a person.
ghost use Rattle.std.specs.Prelude.{◌≡◌, ◌↔◌, IsSome, IfSome};
ghost use Rattle.hall_policy.specs.HasRole.{HasRole};

use crate::record::Roles;
use std::marker::Model;

/// Roles of which one is held at least.
#[derive(Clone, Copy, Debug, PartialEq, Eq)]
pub struct SomeRoles {
    roles: Roles,
}

impl Model for SomeRoles {
    ghost use Rattle.hall_policy.specs.declared.record.Roles.{Roles};
    ghost use Rattle.hall_policy.specs.HasRole.{HasRole};

    ghost Value = { Roles };

    ghost view = { λ r. r.roles };

    ghost invariant = { λ r. HasRole r.roles };

    ghost inverse = { λ r. record { roles = r } };
}

impl SomeRoles {
    /// The roles, where one of them is held.
    pub fn new(roles: Roles) -> Option<SomeRoles>
        ensures some { IsSome result ↔ HasRole roles }
        ensures value { IfSome result (λ some. some ≡ roles) }
    {
        if roles.director || roles.author || roles.referee || roles.entrant {
            Some(SomeRoles { roles })
        } else {
            None
        }
    }

    /// The roles.
    pub fn get(self) -> Roles
        ensures value { result ≡ self }
        ensures some { HasRole result }
    {
        self.roles
    }
}
