//! The points of a body by the variables that they use, drop or define.

ghost use Rattle.std.specs.Prelude.{◌≡◌, ◌+◌, [], length, map, replicate, Contains, IfOk, OnOk};
ghost use Rattle.nll_live.specs.Live.{DropsAt, UsesAt};
ghost use Rattle.nll_live.specs.Gathering.{AreListed, AscendBelow, Lists};
ghost use Rattle.nll_live.specs.Lows.{AreDefined};

use nll_body::Body;
use nll_sets::Memory;
use std::alloc::Global;

/// For each variable the points that use it.
pub(crate) fn uses_by_variable(alloc: Global, body: &Body) -> Result<Vec<Vec<u32>>, Memory>
    ensures { IfOk result (λ lists. AreListed (length body.now.variables) (UsesAt body.now)
        (length body.now.points) (map (λ list. list.items) lists.items)) }
{
    let mut lists = empty_lists(alloc, body.variables())?;
    let mut used = Vec::new(alloc);
    for point in 0..body.points() {
        used.clear();
        body.uses(point, &mut used)?;
        list_at_all(&mut lists, used.as_slice(), point)?;
    }
    Ok(lists)
}

/// For each variable the points that drop it.
pub(crate) fn drops_by_variable(alloc: Global, body: &Body) -> Result<Vec<Vec<u32>>, Memory>
    ensures { IfOk result (λ lists. AreListed (length body.now.variables) (DropsAt body.now)
        (length body.now.points) (map (λ list. list.items) lists.items)) }
{
    let mut lists = empty_lists(alloc, body.variables())?;
    for point in 0..body.points() {
        let Some(variable) = body.drops(point) else {
            continue;
        };
        list_at(&mut lists, variable, point)?;
    }
    Ok(lists)
}

/// For each variable the points that define it, ascending.
pub(crate) fn definitions_by_variable(alloc: Global, body: &Body) -> Result<Vec<Vec<u32>>, Memory>
    ensures { IfOk result (λ lists. AreDefined body.now (map (λ list. list.items) lists.items)) }
{
    let mut lists = empty_lists(alloc, body.variables())?;
    for point in 0..body.points() {
        let Some(variable) = body.defines(point) else {
            continue;
        };
        list_at(&mut lists, variable, point)?;
    }
    Ok(lists)
}

// This many empty lists.
fn empty_lists(alloc: Global, count: usize) -> Result<Vec<Vec<u32>>, Memory>
    ensures { IfOk result (λ lists. map (λ list. list.items) lists.items ≡ replicate count []) }
{
    let mut lists = Vec::with_capacity(alloc, count)?;
    for _ in 0..count {
        lists.push(Vec::new(alloc))?;
    }
    Ok(lists)
}

// Adds a point to the lists of these variables.
fn list_at_all(lists: &mut Vec<Vec<u32>>, variables: &[u32], point: u32) -> Result<(), Memory>
    ensures { OnOk result (Lists (Contains variables.now) point
        (map (λ list. list.items) lists.old.items) (map (λ list. list.items) lists.new.items)) }
{
    for variable in variables {
        list_at(lists, *variable, point)?;
    }
    Ok(())
}

// Adds a point to the list of a variable, where there is one.
fn list_at(lists: &mut Vec<Vec<u32>>, variable: u32, point: u32) -> Result<(), Memory>
    ensures lists { OnOk result (Lists (λ x. x ≡ variable) point
        (map (λ list. list.items) lists.old.items) (map (λ list. list.items) lists.new.items)) }
    ensures ascending { OnOk result (AscendBelow point (map (λ list. list.items) lists.old.items)
        → AscendBelow (point + 1) (map (λ list. list.items) lists.new.items)) }
{
    if (variable as usize) < lists.len() {
        let list = &mut lists[variable as usize];
        list.push(point)?;
    }
    Ok(())
}
