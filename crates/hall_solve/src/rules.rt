//! What a kind of puzzle tells a search.
ghost use Rattle.std.specs.Prelude.{◌≡◌, ◌↔◌, ℕ, ◌+◌, ◌-◌, ◌^◌, ◌<◌, List, Option, IfOk, OnErr, IfSome, IfNone, IsTrue};
ghost use Rattle.std.specs.Prelude.{length};
ghost use Rattle.hall_solve.specs.Question.{Question, IsSameQuestion, IsQuestionFilling, IsPartial};
ghost use Rattle.hall_solve.specs.Question.{IsHopeless, IsOpen, IsWhole, Narrows};
ghost use Rattle.hall_solve.specs.Trail.{Grows};

use crate::partial::Partial;
use hall_grid::Filling;
use std::alloc::{AllocError, Global};

/// What one visit to a partial filling found.
#[derive(Clone, Copy, Debug, PartialEq, Eq)]
pub enum Step {
    /// A solution may extend it.
    Live,
    /// No solution extends it.
    Dead,
}

/// The rules of one puzzle, as a search asks them.
pub trait Rules {
    /// What is to be solved.
    ghost question: { Self → Question };

    /// What `propagate` leaves where it finds no more: no deduction of these to apply.
    /// It says nothing where a kind doesn't give it.
    ghost settled: { Self → List (Option ℕ) → Type 0 } = { λ _ _. Unit {0} };

    /// How often `propagate` was called.
    ghost visits: { Self → ℕ };

    /// How often `accepts` was called.
    ghost asked: { Self → ℕ };

    /// How many places a filling has.
    fn cells(&self) -> usize
        ensures { result ≡ (question self.now).cells };

    /// How many values a place may have; they are numbered from 0.
    fn values(&self) -> u8
        ensures { result ≡ (question self.now).values };

    /// How many visits were made: calls of `propagate`.
    fn visits(&self) -> u64
        ensures { result ≡ visits self.now };

    /// How many whole fillings were asked about: calls of `accepts`.
    fn asked(&self) -> u64
        ensures { result ≡ asked self.now };

    /// Visits a partial filling: sets what follows from what is set, or finds that nothing solves it.
    ///
    /// Where memory is refused it is a partial filling that `Live` could have left. Whatever it answers,
    /// what was set keeps its value, and its place on the trail.
    fn propagate(&mut self, alloc: Global, partial: &mut Partial) -> Result<Step, AllocError>
        requires countable { visits self.old < 2 ^ 64 - 1 }
        requires partial { IsPartial (question self.old) partial.old.places }
        ensures live { IfOk result (λ step. step ≡ Step.Live
            → Narrows (question self.old) partial.old.places partial.new.places) }
        ensures settled { IfOk result (λ step. step ≡ Step.Live → settled self.old partial.new.places) }
        ensures dead { IfOk result (λ step. step ≡ Step.Dead → IsHopeless (question self.old) partial.old.places) }
        ensures err { OnErr result (Narrows (question self.old) partial.old.places partial.new.places) }
        ensures grows { Grows partial.old partial.new }
        ensures counted { visits self.new ≡ visits self.old + 1 }
        ensures not_asked { asked self.new ≡ asked self.old }
        ensures same { IsSameQuestion (question self.old) (question self.new) };

    /// Whether the filling is right.
    fn accepts(&mut self, alloc: Global, filling: &Filling) -> Result<bool, AllocError>
        requires countable { asked self.old < 2 ^ 64 - 1 }
        requires filling { IsQuestionFilling (question self.old) filling.now }
        ensures right { IfOk result (λ yes. IsTrue yes ↔ (question self.old).right filling.now) }
        ensures counted { asked self.new ≡ asked self.old + 1 }
        ensures not_visited { visits self.new ≡ visits self.old }
        ensures same { IsSameQuestion (question self.old) (question self.new) };

    /// The place to try values at, `None` where every place is set.
    ///
    /// Any place that isn't set will do. The one with the fewest values left keeps a search short.
    fn branch_place(&self, partial: &Partial) -> Option<usize>
        requires partial { IsPartial (question self.now) partial.now.places }
        ensures unset { IfSome result (IsOpen partial.now.places) }
        ensures whole { IfNone result (IsWhole partial.now.places) }
    {
        partial.first_unset()
    }

    /// Whether it sees at once that the value at the place can't stand, so that no visit is needed to tell.
    ///
    /// A `true` is sure. A kind that doesn't give it has every value visited.
    fn refuses(&self, partial: &Partial, place: usize) -> bool
        requires partial { IsPartial (question self.now) partial.now.places }
        requires place { place < length partial.now.places }
        ensures hopeless { IsTrue result → IsHopeless (question self.now) partial.now.places }
    {
        false
    }
}
