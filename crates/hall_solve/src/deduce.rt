//! Deductions: one finding at a time, a pass over all places to look, and passes until nothing follows.
//!
//! A deduction is a type of its own under [`Look`]; [`sweep`] goes once over its spots. One that
//! sets many places at a time writes a pass of its own. A kind's [`Deduce::pass`] tries one after
//! another, and [`settle`] calls it until a pass sets nothing.
ghost use Rattle.std.specs.Prelude.{◌≡◌, ℕ, ◌<◌, List, Option, IfOk, OnErr};
ghost use Rattle.hall_solve.specs.Question.{Question, IsPartial, IsHopeless, Narrows};
ghost use Rattle.hall_solve.specs.Deduction.{IsSound, IsDeduced};
ghost use Rattle.hall_solve.specs.Trail.{Grows};

use crate::partial::Partial;
use crate::rules::Step;
use std::alloc::{AllocError, Global};

/// What a look at one spot found.
#[derive(Clone, Copy, PartialEq, Eq)]
pub enum Finding {
    /// Nothing new.
    Nothing,
    /// Every solution has this value at this place, which is open.
    Must(usize, u8),
    /// There is no solution.
    Impossible,
}

/// What one pass of deductions came to.
#[derive(Clone, Copy, Debug, PartialEq, Eq)]
pub enum Pass {
    /// Nothing follows, and nothing was set.
    Settled,
    /// At least one place was set.
    Advanced,
    /// There is no solution.
    Dead,
}

/// A deduction that looks at one spot at a time, such as a cell, a block or a number.
pub trait Look {
    /// What is to be solved.
    ghost question: { Self → Question };

    /// How many spots there are.
    ghost spots: { Self → ℕ };

    /// How many spots there are to look at.
    fn spots(&self) -> usize
        ensures { result ≡ spots self.now };

    /// What follows at the spot. It may try values, and leaves the partial filling as it was.
    fn look(&self, alloc: Global, partial: &mut Partial, spot: usize) -> Result<Finding, AllocError>
        requires partial { IsPartial (question self.now) partial.old.places }
        requires spot { spot < spots self.now }
        ensures sound { IfOk result (IsSound (question self.now) partial.old.places) }
        ensures kept { partial.new ≡ partial.old };
}

/// Deductions about a partial filling.
pub trait Deduce {
    /// What passes work in, kept from one to the next. No promise rests on it.
    type Scratch;

    /// What is to be solved.
    ghost question: { Self → Question };

    /// The partial fillings of which these deductions leave none to apply.
    ghost settled: { Self → List (Option ℕ) → Type 0 } = { λ _ _. Unit {0} };

    /// One pass: sets places that follow.
    fn pass(
        &self,
        alloc: Global,
        partial: &mut Partial,
        scratch: &mut Self::Scratch,
    ) -> Result<Pass, AllocError>
        requires { IsPartial (question self.now) partial.old.places }
        ensures deduced { IfOk result (IsDeduced (question self.now) partial.old.places partial.new.places) }
        ensures settled { IfOk result (λ pass. pass ≡ Pass.Settled → settled self.now partial.new.places) }
        ensures err { OnErr result (Narrows (question self.now) partial.old.places partial.new.places) }
        ensures grows { Grows partial.old partial.new };
}

/// Looks at each spot once, and sets at once what each look finds.
pub fn sweep<L: Look>(
    alloc: Global,
    deduction: &L,
    partial: &mut Partial,
) -> Result<Pass, AllocError>
    requires { IsPartial (L.question deduction.now) partial.old.places }
    ensures deduced { IfOk result (IsDeduced (L.question deduction.now) partial.old.places partial.new.places) }
    ensures err { OnErr result (Narrows (L.question deduction.now) partial.old.places partial.new.places) }
    ensures grows { Grows partial.old partial.new }
{
    let mut pass = Pass::Settled;
    for spot in 0..deduction.spots() {
        match deduction.look(alloc, partial, spot)? {
            Finding::Nothing => {}
            Finding::Must(place, value) => {
                partial.set(place, value);
                pass = Pass::Advanced;
            }
            Finding::Impossible => return Ok(Pass::Dead),
        }
    }
    Ok(pass)
}

/// Makes passes until nothing more follows.
pub fn settle<D: Deduce>(
    alloc: Global,
    deductions: &D,
    partial: &mut Partial,
    scratch: &mut D::Scratch,
) -> Result<Step, AllocError>
    requires { IsPartial (D.question deductions.now) partial.old.places }
    ensures live { IfOk result (λ step. step ≡ Step.Live
        → Narrows (D.question deductions.now) partial.old.places partial.new.places) }
    ensures settled { IfOk result (λ step. step ≡ Step.Live → D.settled deductions.now partial.new.places) }
    ensures dead { IfOk result (λ step. step ≡ Step.Dead → IsHopeless (D.question deductions.now) partial.old.places) }
    ensures err { OnErr result (Narrows (D.question deductions.now) partial.old.places partial.new.places) }
    ensures grows { Grows partial.old partial.new }
{
    'settling: loop {
        match deductions.pass(alloc, partial, scratch)? {
            Pass::Settled => return Ok(Step::Live),
            Pass::Advanced => {}
            Pass::Dead => return Ok(Step::Dead),
        }
    }
}
