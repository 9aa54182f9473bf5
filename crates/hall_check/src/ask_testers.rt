//! What is asked of the testers of rounds.
use crate::ask_rows::Asked;
use crate::counts::Asking;
use crate::sentence::Sentence;
use hall_store::Tester;
use std::alloc::AllocError;

impl Asked for Tester {
    ghost use Rattle.hall_check.specs.Checks.{SaysOfTester};

    ghost says = { SaysOfTester };

    fn is_true(&self, asking: &Asking, sentence: Sentence) -> Result<bool, AllocError> {
        match sentence {
            Sentence::TesterHome => Ok(asking.whole.round(&self.0.round).is_some()),
            Sentence::TesterThere => Ok(asking.whole.person(&self.0.name).is_some()),
            _ => Ok(false),
        }
    }
}
