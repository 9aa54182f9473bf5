//! Boards on which some places are set.
ghost use Rattle.hall_solve.specs.Question.{Extends, IsOpen, IsWhole};
ghost use Rattle.hall_solve.specs.Trail.{IsTrailed, IsUndone};
ghost use Rattle.std.specs.Prelude.{◌≡◌, ◌≢◌, ◌≤◌, ℕ, ◌<◌, ◌++◌, ◌∷◌, [], Some, None, IfOk, IfSome, IfNone};
ghost use Rattle.std.specs.Prelude.{length, drop, replicate, slice_index_or, slice_set};

use hall_grid::Filling;
use std::alloc::{AllocError, Global};
use std::marker::Model;

/// A board whose places have a value or are unset, with the trail of those that were set.
///
/// The trail has each place that is set once, in the order in which they were set.
#[derive(Drop)]
pub struct Partial {
    places: Vec<Option<u8>>,
    trail: Vec<usize>,
}

impl Model for Partial {
    ghost use Rattle.std.specs.Prelude.{◌≤◌, length, vec_capacity};
    ghost use Rattle.hall_solve.specs.Trail.{Trailed, IsTrailed};

    ghost Value = { Trailed };

    ghost view = { λ a. record { places = a.places.items; trail = a.trail.items } };

    ghost invariant = { λ a. IsTrailed (record { places = a.places.items; trail = a.trail.items })
        × (length a.places.items ≤ vec_capacity a.trail) };
}

/// How long a trail was: [`Partial::undo_to`] goes back to it.
#[derive(Clone, Copy)]
pub struct Mark {
    length: usize,
}

impl Model for Mark {
    ghost use Rattle.std.specs.Prelude.{ℕ};

    ghost Value = { ℕ };

    ghost view = { λ a. a.length };

    ghost inverse = { λ n. record { length = n } };
}

impl Partial {
    /// A board of this many places, all unset. It takes the memory for their trail at once.
    pub fn new(alloc: Global, len: usize) -> Result<Self, AllocError>
        ensures list { IfOk result (λ p. p.places ≡ replicate len None) }
        ensures trail { IfOk result (λ p. p.trail ≡ []) }
        ensures trailed { IfOk result IsTrailed }
        ensures len { IfOk result (λ p. length p.places ≡ len) }
        ensures unset { IfOk result (λ p. (i : ℕ) → slice_index_or p.places i None ≡ None) }
    {
        Ok(Partial {
            places: vec![in alloc; None; len]?,
            trail: Vec::with_capacity(alloc, len)?,
        })
    }

    /// How many places the board has.
    pub fn len(&self) -> usize
        ensures { result ≡ length self.now.places }
    {
        self.places.len()
    }

    /// What each place has.
    pub fn as_slice(&self) -> &[Option<u8>]
        ensures { result.now ≡ self.now.places }
    {
        &self.places
    }

    /// What the place has.
    pub fn get(&self, place: usize) -> Option<u8>
        requires { place < length self.now.places }
        ensures { result ≡ slice_index_or self.now.places place None }
    {
        self.places[place]
    }

    /// Sets a place that is unset. It takes no memory.
    pub fn set(&mut self, place: usize, value: u8)
        requires unset { IsOpen self.old.places place }
        ensures places { self.new.places ≡ slice_set self.old.places place (Some value) }
        ensures trail { self.new.trail ≡ self.old.trail ++ place ∷ [] }
    {
        self.places[place] = Some(value);
        let _ = self.trail.push(place);
    }

    /// How long the trail is.
    pub fn mark(&self) -> Mark
        ensures mark { result ≡ length self.now.trail }
        ensures trailed { IsTrailed self.now }
    {
        Mark {
            length: self.trail.len(),
        }
    }

    /// The places that are set, in the order in which they were.
    pub fn trail(&self) -> &[usize]
        ensures { result.now ≡ self.now.trail }
    {
        self.trail.as_slice()
    }

    /// The places that were set since the trail was so long, in order.
    pub fn since(&self, mark: Mark) -> &[usize]
        requires { mark ≤ length self.now.trail }
        ensures set { result.now ≡ drop mark self.now.trail }
    {
        &self.trail[mark.length..]
    }

    /// Clears the places that were set since the trail was so long. It takes no memory.
    pub fn undo_to(&mut self, mark: Mark)
        requires { mark ≤ length self.old.trail }
        ensures undone { IsUndone mark self.old self.new }
        ensures before { IsTrailed self.old }
        ensures trailed { IsTrailed self.new }
    {
        while self.trail.len() > mark.length {
            if let Some(place) = self.trail.pop() {
                self.places[place] = None;
            }
        }
    }

    /// The first place that is unset.
    pub fn first_unset(&self) -> Option<usize>
        ensures unset { IfSome result (IsOpen self.now.places) }
        ensures first { IfSome result (λ i. (k : ℕ) → k < i → slice_index_or self.now.places k None ≢ None) }
        ensures whole { IfNone result (IsWhole self.now.places) }
    {
        for (place, value) in self.places.iter().enumerate() {
            if value.is_none() {
                return Some(place);
            }
        }
        None
    }

    /// The filling, where every place is set.
    pub fn filling(&self, alloc: Global) -> Result<Filling, AllocError>
        requires { IsWhole self.now.places }
        ensures length { IfOk result (λ f. length f ≡ length self.now.places) }
        ensures extends { IfOk result (λ f. Extends f self.now.places) }
    {
        let mut values = Vec::with_capacity(alloc, self.places.len())?;
        for place in &self.places {
            values.push(place.unwrap())?;
        }
        Ok(Filling::new(values))
    }
}
