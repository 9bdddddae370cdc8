//! The replay of a schedule.

ghost use Rattle.std.specs.Prelude.{◌≡◌, false, length, OnOk, IfOk, IfErr};
ghost use Rattle.nll_owner.specs.Tables.{AreTables};
ghost use Rattle.fixpoint.specs.declared.error.PartError.TheVariants.{Memory as memory};
ghost use Rattle.nll_model.specs.Events.{AreSteps};
ghost use Rattle.nll_model.specs.Replaying.{IsReplay};
ghost use Rattle.nll_model.specs.declared.error.ModelError.TheVariants.{Owner};

use crate::error::ModelError;
use crate::event::Event;
use crate::outcome::{Replay, Step};
use crate::world::World;
use nll_cut::Cut;
use nll_owner::{OwnerError, Tables};
use nll_problem::Problem;
use std::alloc::Global;

/// Replays a schedule from the first state of a world: the answer of each event, none where it
/// wasn't possible, and the balance and the values at the end.
///
/// # Errors
/// - `Owner(Memory)`, and no other.
pub fn replay(
    alloc: Global,
    problem: &Problem,
    cut: &Cut,
    events: &[Event],
) -> Result<Replay, ModelError>
    requires { length cut.now.list ≡ problem.now.regions }
    ensures replay { IfOk result (λ r. IsReplay problem.now cut.now events.now
        r.answers.items r.balance r.values) }
    ensures memory { IfErr result (λ error. error ≡ Owner memory) }
{
    match Tables::of(alloc, problem, cut) {
        Ok(tables) => replay_on(alloc, problem, cut, &tables, events),
        Err(error) => Err(ModelError::from(error)),
    }
}

// Like `replay`, on tables that are borrowed.
fn replay_on(
    alloc: Global,
    problem: &Problem,
    cut: &Cut,
    tables: &Tables,
    events: &[Event],
) -> Result<Replay, ModelError>
    requires cut { length cut.now.list ≡ problem.now.regions }
    requires tables { AreTables problem.now cut.now tables.now }
    ensures replay { IfOk result (λ r. IsReplay problem.now cut.now events.now
        r.answers.items r.balance r.values) }
    ensures memory { IfErr result (λ error. error ≡ Owner memory) }
{
    let mut world = match World::on(alloc, problem, cut, tables) {
        Ok(world) => world,
        Err(error) => return Err(ModelError::from(error)),
    };
    match take_all(alloc, &mut world, events) {
        Ok(answers) => match world.values(alloc) {
            Ok(values) => Ok(Replay {
                answers,
                balance: world.balance(),
                values,
            }),
            Err(error) => Err(ModelError::from(error)),
        },
        Err(error) => Err(ModelError::Owner(error)),
    }
}

// Takes a world through the events of a schedule.
fn take_all(
    alloc: Global,
    world: &mut World,
    events: &[Event],
) -> Result<Vec<Option<Step>>, OwnerError>
    requires { world.old.broken ≡ false }
    ensures steps { IfOk result
        (λ answers. AreSteps world.old.state events.now answers.items world.new.state) }
    ensures others { OnOk result (world.new ≡ record world.old { state = world.new.state }) }
    ensures memory { IfErr result (λ error. error ≡ memory) }
{
    let mut answers = Vec::new(alloc);
    for event in events {
        let answer = match world.step(*event) {
            Ok(answer) => Some(answer),
            Err(ModelError::NotNow) => None,
            Err(ModelError::Owner(error)) => return Err(error),
        };
        answers.push(answer)?;
    }
    Ok(answers)
}
