//! What an owner owns.

ghost use Rattle.std.specs.Prelude.{OnOk, Contains};
ghost use Rattle.keeper.specs.Engine.{GotOwn};

use crate::engine::Owners;
use nll_sets::Memory;

/// Appends those facts of a list that are an owner's. An engine may list what it finds so.
///
/// # Errors
/// - `Memory`.
pub fn push_own<E: Owners>(
    engine: &E,
    me: u16,
    facts: &[E::Fact],
    found: &mut Vec<E::Fact>,
) -> Result<(), Memory>
    requires { (f : E.Fact) → Contains facts.now f → E.rules.proper engine.now f }
    ensures { OnOk result (GotOwn E.rules engine.now me facts.now
        found.old.items found.new.items) }
{
    for fact in facts {
        if engine.owner(fact) == me {
            found.push(*fact)?;
        }
    }
    Ok(())
}
