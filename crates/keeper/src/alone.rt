//! One keeper alone: an engine of one owner is solved without threads.

ghost use Rattle.std.specs.Prelude.{◌≡◌, ◌↔◌, [], ◌∷◌, IfOk};
ghost use Rattle.fixpoint.specs.Finishing.{AreRanked};
ghost use Rattle.fixpoint.specs.Rules.{IsLeast};
ghost use Rattle.fixpoint.specs.Logs.{AreSound, IsTold, log_of, part};

use crate::book::Book;
use crate::engine::Engine;
use crate::settle::settle;
use nll_sets::Memory;
use std::alloc::Global;

/// The log of the only owner of an engine. It tells exactly the least solution, and is as sound and
/// ranked as the logs of a run.
///
/// # Errors
/// - `Memory`.
pub fn solve<E: Engine>(alloc: Global, engine: &E) -> Result<Vec<E::Growth>, Memory>
    requires { E.rules.parts engine.now ≡ 1 }
    ensures exact { IfOk result (λ log. (f : E.Fact)
        → IsTold E.rules log.items f ↔ IsLeast E.rules engine.now f) }
    ensures sound { IfOk result (λ log. AreSound E.rules engine.now (log.items ∷ [])
        (λ i j. part E.rules engine.now i (log_of (log.items ∷ []) j))) }
    ensures ranked { IfOk result (λ log. AreRanked E.rules engine.now (log.items ∷ [])) }
{
    let mut book = Book::new(alloc, engine, 0)?;
    let mut store = engine.store(alloc, 0)?;
    let mut due = Vec::new(alloc);
    engine.begin(0, &mut due)?;
    settle::<E>(&mut book, &mut store, &mut due)?;
    Ok(book.into_log())
}
