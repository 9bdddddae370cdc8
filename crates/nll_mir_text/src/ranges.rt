//! Whether the targets of a statement are blocks.

ghost use Rattle.std.specs.Prelude.{◌≡◌, ◌∷◌, nat_lt};
ghost use Rattle.std.specs.List.{list_all};
ghost use Rattle.nll_body.specs.Effects.{other_block, targets};
ghost use Rattle.nll_body.specs.Flat.{statement_in};

use nll_body::{Statements, Stmt};

// Whether a number is below an end.
fn is_below(number: u32, end: usize) -> bool
    ensures { result ≡ nat_lt number end }
{
    (number as usize) < end
}

// Whether all of these are below a number.
fn all_below(numbers: &[u32], end: usize) -> bool
    ensures { result ≡ list_all (λ n. nat_lt n end) numbers.now }
{
    for number in numbers {
        if !is_below(*number, end) {
            return false;
        }
    }
    true
}

// Whether a block, and the other one where there is one, are among the first this many.
fn exits_are_blocks(count: usize, block: u32, unwind: Option<u32>) -> bool
    ensures { result ≡ list_all (λ x. nat_lt x count) (block ∷ other_block unwind) }
{
    match unwind {
        Some(other) => is_below(block, count) & is_below(other, count),
        None => is_below(block, count),
    }
}

/// Whether the blocks to which a statement goes on are among the first this many.
pub fn targets_are_blocks(count: u32, statements: &Statements, statement: &Stmt) -> bool
    ensures { result ≡ list_all (λ x. nat_lt x count)
        (targets (statement_in statements.now statement.now)) }
{
    let count = count as usize;
    match statement {
        Stmt::Goto(block) | Stmt::Drop(_, block) => is_below(*block, count),
        Stmt::DropUnwind(_, block, unwind) => exits_are_blocks(count, *block, Some(*unwind)),
        Stmt::Switch(number) => match statements.switch(*number) {
            Some(switch) => all_below(statements.blocks(switch.blocks), count),
            None => true,
        },
        Stmt::Call(number) => match statements.call(*number) {
            Some(call) => exits_are_blocks(count, call.target, call.unwind),
            None => true,
        },
        _ => true,
    }
}
