//! What is asked of people.
use crate::ask_rows::Asked;
use crate::counts::Asking;
use crate::sentence::Sentence;
use hall_policy::Person;
use std::alloc::AllocError;

impl Asked for Person {
    ghost use Rattle.hall_check.specs.Checks.{SaysOfPerson};

    ghost says = { SaysOfPerson };

    fn is_true(&self, asking: &Asking, sentence: Sentence) -> Result<bool, AllocError> {
        match sentence {
            Sentence::OwnKey => Ok(asking.people_with(&self.key) <= 1),
            Sentence::RolesApart => {
                let roles = self.roles.get();
                Ok(!(roles.director && roles.entrant))
            }
            _ => Ok(false),
        }
    }
}
