//! Where the constraints of a frontier hold.

ghost use Rattle.std.specs.Prelude.{◌≡◌, ◌↔◌, ◌<◌, [], ◌∷◌, ◌++◌, Contains, IsTrue, OnOk, OnErr, ℕ};
ghost use Rattle.std.specs.Prelude.{◌≤◌, IfSome, IfNone};
ghost use Rattle.nll_problem.specs.At.{at_rank};
ghost use Rattle.nll_problem.specs.declared.at.At.{At as places};
ghost use Rattle.nll_core.specs.Frontiers.{as_places, IsAscending};
ghost use Rattle.nll_problem.specs.declared.at.At.TheVariants as ats;

use nll_problem::At;
use nll_sets::Memory;
use std::alloc::Global;
use std::marker::Model;

/// Points, ascending, at least one, borrowed.
#[derive(Drop)]
pub struct Points<'p> {
    first: u32,
    others: &'p [u32],
}

impl<'p> Model for Points<'p> {
    ghost use Rattle.std.specs.Prelude.{List, ℕ, ◌∷◌};
    ghost use Rattle.nll_core.specs.Frontiers.{IsAscending};

    ghost Value = { List ℕ };

    ghost view = { λ p. p.first ∷ p.others.now };

    ghost invariant = { λ p. IsAscending (p.first ∷ p.others.now) };
}

impl<'p> Points<'p> {
    /// A point, and those after it.
    pub fn of(first: u32, others: &'p [u32]) -> Points<'p>
        requires { IsAscending (first ∷ others.now) }
        ensures { result ≡ first ∷ others.now }
    {
        Points { first, others }
    }

    /// The least point from one number up to another.
    pub fn next_in(&self, from: u32, last: u32) -> Option<u32>
        ensures some { IfSome result (λ s. Contains self.now s × (from ≤ s) × (s ≤ last)) }
        ensures least { IfSome result (λ s. (x : ℕ) → Contains self.now x → from ≤ x → s ≤ x) }
        ensures none { IfNone result ((x : ℕ) → Contains self.now x → from ≤ x → last < x) }
    {
        if from > last {
            return None;
        }
        let Some(start) = self.next_from(from) else {
            return None;
        };
        if start > last {
            return None;
        }
        Some(start)
    }

    // The least point that isn't below a number.
    fn next_from(&self, from: u32) -> Option<u32>
        ensures some { IfSome result (λ s. Contains self.now s × (from ≤ s)) }
        ensures least { IfSome result (λ s. (x : ℕ) → Contains self.now x → from ≤ x → s ≤ x) }
        ensures none { IfNone result ((x : ℕ) → Contains self.now x → x < from) }
    {
        if from <= self.first {
            return Some(self.first);
        }
        let at = self.others.partition_point(|point| *point < from);
        if at < self.others.len() {
            Some(self.others[at])
        } else {
            None
        }
    }
}

/// All points, or points, ascending: all points come first. There is at least one place.
#[derive(Drop)]
pub struct Places {
    // Most lists have one place: it takes no memory.
    first: At,
    // The points after it.
    others: Vec<u32>,
}

impl Model for Places {
    ghost use Rattle.std.specs.Prelude.{List};
    ghost use Rattle.nll_problem.specs.declared.at.At.{At as places};
    ghost use Rattle.nll_core.specs.Frontiers.{behind_place, Ascend};

    ghost Value = { List places };

    ghost view = { λ p. behind_place p.first p.others.items };

    ghost invariant = { λ p. Ascend p.first p.others.items };
}

impl Places {
    /// One place. Takes no memory.
    pub fn of(alloc: Global, at: At) -> Places
        ensures { result ≡ at ∷ [] }
    {
        Places {
            first: at,
            others: Vec::new(alloc),
        }
    }

    /// Adds a place at the end.
    ///
    /// # Errors
    /// - `Memory`: the places are as before.
    pub fn push(&mut self, at: At) -> Result<(), Memory>
        requires { (x : places) → Contains self.old x → at_rank x < at_rank at }
        ensures ok { OnOk result (self.new ≡ self.old ++ at ∷ []) }
        ensures err { OnErr result (self.new ≡ self.old) }
    {
        match at {
            // It comes after no place.
            At::All => unreachable!(),
            At::Point(point) => {
                self.others.push(point)?;
                Ok(())
            }
        }
    }

    /// Whether all points are among them.
    pub fn has_all(&self) -> bool
        ensures { IsTrue result ↔ Contains self.now ats.All }
    {
        match self.first {
            At::All => true,
            At::Point(_) => false,
        }
    }

    /// The points, where all points aren't among them.
    pub fn points(&self) -> Points<'_>
        requires { Contains self.now ats.All → ⊥ }
        ensures { self.now ≡ as_places result }
    {
        match self.first {
            At::All => unreachable!(),
            At::Point(first) => Points::of(first, &self.others),
        }
    }
}
