//! The places of those who wait for the same, in the order in which they came.
ghost use Rattle.std.specs.Prelude.{◌≡◌, ◌≢◌, ◌≤◌, ◌<◌, ◌++◌, ℕ, [], IfOk, IfSome, true, length};
ghost use Rattle.std.proofs.Props.{props};
ghost use Rattle.std.specs.VecDeque.{deque_capacity};
ghost use Rattle.hall_http.specs.Limits.{most_connections};
ghost use Rattle.hall_http.specs.Line.{IsLineSoFar, WereLines, called_by, has};
ghost use Rattle.hall_http.specs.declared.queue.Motion.TheVariants as Motion;

use crate::clients::MOST_CLIENTS;
use http_server::Log;
use std::alloc::{AllocError, Global};
use std::collections::VecDeque;

/// What a place does in a line.
#[derive(Clone, Copy)]
pub(crate) enum Motion {
    /// It comes, and stands behind all others.
    Comes,
    /// It is called, and goes.
    Called,
    /// It goes without being called.
    Skipped,
}

/// Places in the order in which they came, each once.
#[derive(Drop)]
pub(crate) struct Queue {
    waiting: VecDeque<usize>,
    /// All that they did. Only proofs read it.
    motions: Log<usize, Motion>,
    ghost line: { IsLineSoFar motions.items waiting.items } by { Prim.hlevel props },
    ghost always: { ∥ WereLines motions.items ∥₁ },
    ghost within: { (place : ℕ) → has waiting.items place ≡ true → place < most_connections },
    ghost room: { most_connections ≤ deque_capacity waiting },
}

impl Queue {
    ghost use Rattle.hall_http.specs.Queue.{ComeBehind, HasCome, HasGone, IsFirst, called, waits_in};

    /// None waits yet.
    pub(crate) fn new(alloc: Global) -> Result<Queue, AllocError>
        ensures { IfOk result (λ queue. queue.motions.items ≡ []) }
    {
        Ok(Queue {
            waiting: VecDeque::with_capacity(alloc, MOST_CLIENTS)?,
            motions: Log::new(),
        })
    }

    /// How many wait.
    pub(crate) fn len(&self) -> usize
        ensures { result ≡ length self.now.waiting.items }
    {
        self.waiting.len()
    }

    /// The one that came first of those that wait.
    pub(crate) fn first(&self) -> Option<usize>
        ensures { IfSome result (IsFirst self.now) }
    {
        self.waiting.front().copied()
    }

    /// The place comes, behind all others; unless it waits already.
    pub(crate) fn push(&mut self, place: usize)
        requires { place < most_connections }
        ensures came { HasCome self.old place self.new }
        ensures waits { waits_in self.new place ≡ true }
        ensures behind { ComeBehind self.old self.new }
    {
        if !self.waiting.contains(&place) {
            self.waiting.push_back_reserved(place);
            self.motions = self.motions.and(&place, &Motion::Comes);
        }
    }

    /// The one that came first of those that wait goes, called or not.
    pub(crate) fn pop(&mut self, place: usize, motion: Motion)
        requires first { IsFirst self.old place }
        requires goes { motion ≢ Motion.Comes }
        ensures gone { HasGone self.old place motion self.new }
        ensures called { called self.new ≡ called self.old ++ called_by place motion }
    {
        let _first = self.waiting.pop_front();
        self.motions = self.motions.and(&place, &motion);
    }
}
