//! How many edges leave a point.

ghost use Rattle.std.specs.Prelude.{◌≡◌, ◌<◌, ◌≤◌, ◌^◌, ◌==◌, ◌∷◌, [], false, length, true, IfOk};
ghost use Rattle.indexmap.specs.IndexSet.{insert_all};
ghost use Rattle.nll_body.specs.Exits.{edges_from};
ghost use Rattle.nll_body.specs.Effects.{other_block};
ghost use Rattle.nll_body.specs.Flat.{statement_in};
ghost use Rattle.nll_body.specs.Statements.{is_terminator};

use crate::flat::Stmt;
use crate::statements::Statements;
use indexmap::IndexSet;
use nll_sets::Memory;
use std::alloc::Global;

/// How a statement or terminator goes on.
#[derive(Clone, Copy)]
pub struct Exits {
    /// Whether the block ends with it.
    pub ends: bool,
    /// How many edges leave its point: one, or one for each block to which a terminator goes on.
    pub edges: usize,
}

impl Statements {
    /// How a statement goes on. It allocates only where a `switch` has more than two blocks.
    ///
    /// # Cost
    /// Linear in the targets (not proved).
    pub fn exits(&self, alloc: Global, statement: &Stmt) -> Result<Exits, Memory>
        ensures ends { IfOk result
            (λ e. e.ends ≡ is_terminator (statement_in self.now statement.now)) }
        ensures edges { IfOk result
            (λ e. e.edges ≡ edges_from (statement_in self.now statement.now)) }
        ensures few { IfOk result (λ e. e.edges < 2 ^ 63) }
    {
        match statement {
            Stmt::Goto(_) | Stmt::Drop(_, _) => Ok(ending(1)),
            Stmt::DropUnwind(_, block, unwind) => Ok(ending(exit_count(*block, Some(*unwind)))),
            Stmt::Switch(number) => match self.switch(*number) {
                Some(switch) => Ok(ending(distinct(alloc, self.blocks(switch.blocks))?)),
                None => Ok(going_on()),
            },
            Stmt::Call(number) => match self.call(*number) {
                Some(call) => Ok(ending(exit_count(call.target, call.unwind))),
                None => Ok(going_on()),
            },
            Stmt::Return | Stmt::Stop => Ok(ending(0)),
            _ => Ok(going_on()),
        }
    }
}

// A statement behind which the block goes on.
fn going_on() -> Exits
    ensures ends { result.ends ≡ false }
    ensures edges { result.edges ≡ 1 }
{
    Exits {
        ends: false,
        edges: 1,
    }
}

// A terminator that this many edges leave.
fn ending(edges: usize) -> Exits
    ensures ends { result.ends ≡ true }
    ensures edges { result.edges ≡ edges }
{
    Exits { ends: true, edges }
}

// How many numbers a number and the other one are, where there is one.
fn exit_count(number: u32, other: Option<u32>) -> usize
    ensures distinct { result
        ≡ length (insert_all (λ b c. b == c) [] (number ∷ other_block other)) }
    ensures few { result ≤ 2 }
{
    match other {
        Some(other) if other != number => 2,
        _ => 1,
    }
}

// How many numbers these are, each counted once.
fn distinct(alloc: Global, numbers: &[u32]) -> Result<usize, Memory>
    ensures distinct { IfOk result (λ n. n ≡ length (insert_all (λ b c. b == c) [] numbers.now)) }
    ensures few { IfOk result (λ n. n < 2 ^ 63) }
{
    match numbers {
        [] => Ok(0),
        [_] => Ok(1),
        [number, other] => Ok(exit_count(*number, Some(*other))),
        _ => {
            let mut known = IndexSet::new(alloc);
            let count = insert_numbers(numbers, &mut known);
            // Early drop.
            drop(known);
            count
        }
    }
}

// Inserts numbers into an empty set, and answers how many it has then.
fn insert_numbers(numbers: &[u32], known: &mut IndexSet<u32>) -> Result<usize, Memory>
    requires { known.old.keys ≡ [] }
    ensures distinct { IfOk result (λ n. n ≡ length (insert_all (λ b c. b == c) [] numbers.now)) }
    ensures few { IfOk result (λ n. n < 2 ^ 63) }
{
    for number in numbers {
        known.insert(*number)?;
    }
    Ok(known.len())
}
