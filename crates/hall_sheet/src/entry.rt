//! One person's line of an entry list.
ghost use Rattle.std.specs.Prelude.{◌≡◌, IfSome};
ghost use Rattle.csv.specs.Records.{fields_of};
ghost use Rattle.hall_policy.specs.HasRole.{HasRole};
ghost use Rattle.hall_policy.specs.Reading.{or_fault};
ghost use Rattle.hall_sheet.specs.Given.{Gives};
ghost use Rattle.hall_sheet.specs.declared.fault.Refusal.TheVariants.{Syntax};
ghost use Rattle.hall_sheet.specs.People.{three_in, filled_in, spelled_in, is_header, roles_in_text};
ghost use Rattle.hall_sheet.specs.Entry.{line_seen, with_role};

use crate::fault::{Field, Refusal, SheetFault};
use crate::words::checked;
use csv::StringRecord;
use hall_policy::{Person, Roles, SomeRoles};
use std::alloc::Global;

/// The fields of a line of an entry list.
#[derive(Clone, Copy)]
pub(crate) struct Line<'a> {
    name: &'a str,
    key: &'a str,
    roles: &'a str,
}

/// The fields of a row that has three.
pub(crate) fn read_line(row: &StringRecord) -> Result<Line<'_>, SheetFault>
    ensures { Gives line_seen result (or_fault Syntax (three_in (fields_of row.now))) }
{
    match (row.len(), row.get(0), row.get(1), row.get(2)) {
        (3, Some(name), Some(key), Some(roles)) => Ok(Line { name, key, roles }),
        _ => Err(SheetFault::Refused(Refusal::Syntax)),
    }
}

impl Line<'_> {
    /// Whether it is the list's first one.
    pub(crate) fn is_header(&self) -> bool
        ensures { result ≡ is_header (line_seen self.now) }
    {
        self.name == "name" && self.key == "key" && self.roles == "roles"
    }

    /// Refuses the first field that is empty.
    fn check_filled(&self) -> Result<(), SheetFault>
        ensures { Gives (λ filled. filled) result (filled_in (line_seen self.now)) }
    {
        let empty = if self.name.is_empty() {
            Field::Name
        } else if self.key.is_empty() {
            Field::Key
        } else if self.roles.is_empty() {
            Field::Roles
        } else {
            return Ok(());
        };
        Err(SheetFault::Refused(Refusal::Missing(empty)))
    }

    /// The person whose line it is, or what is wrong with its fields.
    pub(crate) fn person(&self, alloc: Global) -> Result<Person, SheetFault>
        ensures { Gives (λ person. person) result (spelled_in (line_seen self.now)) }
    {
        self.check_filled()?;
        let name = checked(alloc, self.name, Refusal::Range(Field::Name))?;
        let key = checked(alloc, self.key, Refusal::Range(Field::Key))?;
        match read_some_roles(self.roles) {
            Some(roles) => Ok(Person { name, key, roles }),
            None => Err(SheetFault::Refused(Refusal::Range(Field::Roles))),
        }
    }
}

const NO_ROLES: Roles = Roles {
    director: false,
    author: false,
    referee: false,
    entrant: false,
};

/// The roles with the one that the word names, where it names one that isn't there yet.
fn with_role(roles: Roles, word: &str) -> Option<Roles>
    ensures value { result ≡ with_role roles word.now }
    ensures some { IfSome result (λ roles. HasRole roles) }
{
    if word == "director" && !roles.director {
        Some(Roles {
            director: true,
            ..roles
        })
    } else if word == "author" && !roles.author {
        Some(Roles {
            author: true,
            ..roles
        })
    } else if word == "referee" && !roles.referee {
        Some(Roles {
            referee: true,
            ..roles
        })
    } else if word == "entrant" && !roles.entrant {
        Some(Roles {
            entrant: true,
            ..roles
        })
    } else {
        None
    }
}

/// The roles that words joined by `+` name, where each word names one and none stands twice.
fn read_roles(text: &str) -> Option<Roles>
    ensures value { result ≡ roles_in_text text.now }
    ensures some { IfSome result (λ roles. HasRole roles) }
{
    let mut roles = NO_ROLES;
    let mut rest = text;
    while let Some((word, more)) = rest.split_once('+') {
        roles = with_role(roles, word)?;
        rest = more;
    }
    with_role(roles, rest)
}

/// The roles that words joined by `+` name, of which there is one at least.
fn read_some_roles(text: &str) -> Option<SomeRoles>
    ensures { result ≡ roles_in_text text.now }
{
    SomeRoles::new(read_roles(text)?)
}
