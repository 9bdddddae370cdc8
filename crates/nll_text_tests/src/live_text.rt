//! Where the variables of a body are live, and its base elements, as text: by `nll_live`, and by
//! the plain program.
ghost use Rattle.std.specs.Prelude.{◌≡◌, ◌<◌, length, IfOk};
ghost use Rattle.nll_live.specs.LiveSets.{AreLiveSets};

use crate::live_rounds::{is_flagged, live_by_rounds};
use nll_body::Body;
use nll_format::{TextError, TextKind};
use nll_live::{LiveSets, bases, live_runs, liveness};
use nll_mir_text::read_mir;
use nll_problem::{BaseRun, RegionId};
use nll_sets::Memory;
use std::alloc::{AllocError, Global};

// What the value of a variable is kept for.
#[derive(Clone, Copy)]
enum KeptFor {
    Uses,
    Drops,
}

// Writes pairs of a region and a point, by their numbers.
fn write_pairs(out: &mut String, pairs: &[(RegionId, u32)]) -> Result<(), AllocError> {
    for (region, point) in pairs {
        write!(out, "({}, {point})", region.0)?;
    }
    Ok(())
}

// ---- by `nll_live`

// Whether a variable is use-live, or drop-live, at a point.
fn is_live(body: &Body, sets: &LiveSets, variable: u32, kept: KeptFor, point: u32) -> bool
    requires sets { AreLiveSets body.now sets.now }
    requires variable { variable < length body.now.variables }
    requires point { point < length body.now.points }
{
    match kept {
        KeptFor::Uses => sets.use_live(variable, point),
        KeptFor::Drops => sets.drop_live(variable, point),
    }
}

// Writes the points where a variable is live.
fn write_live(
    out: &mut String,
    body: &Body,
    sets: &LiveSets,
    variable: u32,
    kept: KeptFor,
) -> Result<(), AllocError>
    requires sets { AreLiveSets body.now sets.now }
    requires variable { variable < length body.now.variables }
{
    for point in 0..body.points() {
        if is_live(body, sets, variable, kept, point) {
            write!(out, " {point}")?;
        }
    }
    Ok(())
}

// Writes where each variable is use-live, and where it is drop-live.
fn write_variables(out: &mut String, body: &Body, sets: &LiveSets) -> Result<(), AllocError>
    requires { AreLiveSets body.now sets.now }
{
    for variable in 0..body.variables() {
        write!(out, "_{variable}:")?;
        write_live(out, body, sets, variable as u32, KeptFor::Uses)?;
        out.push(';')?;
        write_live(out, body, sets, variable as u32, KeptFor::Drops)?;
        out.push('|')?;
    }
    Ok(())
}

// Appends the base elements of a run.
fn push_run(pairs: &mut Vec<(RegionId, u32)>, run: &BaseRun) -> Result<(), AllocError> {
    for point in run.first..run.end {
        pairs.push((run.region, point))?;
    }
    Ok(())
}

// The base elements of runs, ascending, each once.
fn pairs_of(alloc: Global, runs: &[BaseRun]) -> Result<Vec<(RegionId, u32)>, AllocError> {
    let mut pairs = Vec::new(alloc);
    for run in runs {
        push_run(&mut pairs, run)?;
    }
    pairs.sort_unstable();
    pairs.dedup();
    Ok(pairs)
}

// Writes the base elements of a body that are found by runs, where they are others than these.
fn write_others(
    alloc: Global,
    out: &mut String,
    body: &Body,
    pairs: &[(RegionId, u32)],
) -> Result<(), Memory> {
    let runs = live_runs(alloc, body)?;
    let found = pairs_of(alloc, runs.as_slice())?;
    drop(runs);
    let written = if found.as_slice() == pairs {
        Ok(())
    } else {
        write_pairs(out, found.as_slice())
    };
    drop(found);
    written?;
    Ok(())
}

// Writes the base elements of a body.
fn write_bases(alloc: Global, out: &mut String, body: &Body, sets: &LiveSets) -> Result<(), Memory>
    requires { AreLiveSets body.now sets.now }
{
    let pairs = bases(alloc, body, sets)?;
    let written = write_pairs(out, pairs.as_slice());
    let others = write_others(alloc, out, body, pairs.as_slice());
    drop(pairs);
    written?;
    others
}

// Where the variables of a body are live, and its base elements.
fn told_over(alloc: Global, body: &Body, sets: &LiveSets) -> Result<String, Memory>
    requires { AreLiveSets body.now sets.now }
{
    let mut out = String::new(alloc);
    let variables = write_variables(&mut out, body, sets);
    let bases = write_bases(alloc, &mut out, body, sets);
    variables?;
    bases.and(Ok(out))
}

// Like `told_over`, by `nll_live`'s calls.
fn told(alloc: Global, body: &Body) -> Result<String, Memory> {
    let sets = liveness(alloc, body)?;
    let told = told_over(alloc, body, &sets);
    drop(sets);
    told
}

// ---- by the plain program

// Whether a point uses a variable.
fn uses(alloc: Global, body: &Body, variable: u32, point: u32) -> Result<bool, Memory>
    requires { point < length body.now.points }
{
    let mut used = Vec::new(alloc);
    let told = body.uses(point, &mut used);
    let is_used = used.contains(&variable);
    drop(used);
    told.and(Ok(is_used))
}

// Whether a point uses, or drops, a variable.
fn is_end(
    alloc: Global,
    body: &Body,
    variable: u32,
    kept: KeptFor,
    point: u32,
) -> Result<bool, Memory>
    requires { point < length body.now.points }
{
    match kept {
        KeptFor::Uses => uses(alloc, body, variable, point),
        KeptFor::Drops => Ok(body.drops(point) == Some(variable)),
    }
}

// Flags the points that use, or drop, a variable.
fn ends(alloc: Global, body: &Body, variable: u32, kept: KeptFor) -> Result<Vec<bool>, Memory>
    ensures { IfOk result (λ ends. length ends.items ≡ length body.now.points) }
{
    let mut ends = Vec::new(alloc);
    for point in 0..body.points() {
        let is_end = is_end(alloc, body, variable, kept, point)?;
        ends.push(is_end)?;
    }
    Ok(ends)
}

// Flags the points where a variable is use-live, or drop-live.
fn flags_by_rounds(
    alloc: Global,
    body: &Body,
    variable: u32,
    kept: KeptFor,
) -> Result<Vec<bool>, Memory> {
    let ends = ends(alloc, body, variable, kept)?;
    let flags = live_by_rounds(alloc, body, variable, ends.as_slice());
    drop(ends);
    flags
}

// Writes the points that are flagged.
fn write_flagged(out: &mut String, points: u32, flags: &[bool]) -> Result<(), AllocError> {
    for point in 0..points {
        if is_flagged(flags, point) {
            write!(out, " {point}")?;
        }
    }
    Ok(())
}

// Appends the pairs of a region and the flagged points.
fn push_points(
    pairs: &mut Vec<(RegionId, u32)>,
    region: RegionId,
    points: u32,
    flags: &[bool],
) -> Result<(), AllocError> {
    for point in 0..points {
        if is_flagged(flags, point) {
            pairs.push((region, point))?;
        }
    }
    Ok(())
}

// Like `push_points`, for some regions.
fn push_pairs(
    pairs: &mut Vec<(RegionId, u32)>,
    regions: &[RegionId],
    points: u32,
    flags: &[bool],
) -> Result<(), AllocError> {
    for region in regions {
        push_points(pairs, *region, points, flags)?;
    }
    Ok(())
}

// Writes where a variable is live, and appends the pairs of these regions and those points.
fn add_kept(
    alloc: Global,
    out: &mut String,
    pairs: &mut Vec<(RegionId, u32)>,
    body: &Body,
    (variable, kept): (u32, KeptFor),
    regions: &[RegionId],
) -> Result<(), Memory> {
    let flags = flags_by_rounds(alloc, body, variable, kept)?;
    let written = write_flagged(out, body.points(), flags.as_slice());
    let pushed = push_pairs(pairs, regions, body.points(), flags.as_slice());
    drop(flags);
    written?;
    pushed?;
    Ok(())
}

// Like `add_kept`, for all that a variable is kept for.
fn add_variable(
    alloc: Global,
    out: &mut String,
    pairs: &mut Vec<(RegionId, u32)>,
    body: &Body,
    variable: u32,
) -> Result<(), Memory>
    requires { variable < length body.now.variables }
{
    write!(out, "_{variable}:")?;
    let regions = body.var_regions(alloc, variable)?;
    let kept = (variable, KeptFor::Uses);
    let added = add_kept(alloc, out, pairs, body, kept, regions.as_slice());
    drop(regions);
    added?;
    out.push(';')?;
    let regions = body.var_drop_regions(alloc, variable)?;
    let kept = (variable, KeptFor::Drops);
    let added = add_kept(alloc, out, pairs, body, kept, regions.as_slice());
    drop(regions);
    added?;
    out.push('|')?;
    Ok(())
}

// Like `add_variable`, for each variable.
fn add_variables(
    alloc: Global,
    out: &mut String,
    pairs: &mut Vec<(RegionId, u32)>,
    body: &Body,
) -> Result<(), Memory> {
    for variable in 0..body.variables() {
        add_variable(alloc, out, pairs, body, variable as u32)?;
    }
    Ok(())
}

// Where the variables of a body are live, and its base elements, by the plain program.
fn told_by_rounds(alloc: Global, body: &Body) -> Result<String, Memory> {
    let mut out = String::new(alloc);
    let mut pairs = Vec::new(alloc);
    let added = add_variables(alloc, &mut out, &mut pairs, body);
    pairs.sort_unstable();
    pairs.dedup();
    let written = write_pairs(&mut out, pairs.as_slice());
    drop(pairs);
    added?;
    written?;
    Ok(out)
}

// ---- by both

// What each program reports of a body.
fn told_by_both(alloc: Global, body: &Body) -> Result<(String, String), Memory> {
    let told = told(alloc, body)?;
    match told_by_rounds(alloc, body) {
        Ok(plain) => Ok((told, plain)),
        Err(memory) => {
            drop(told);
            Err(memory)
        }
    }
}

/// What each program reports of a text's body, the plain one last: for each variable the points
/// where it is use-live, and those where it is drop-live; and then the base elements.
pub fn live_by_both(alloc: Global, text: &[u8]) -> Result<(String, String), TextError> {
    let body = read_mir(alloc, text)?;
    let told = told_by_both(alloc, &body);
    drop(body);
    match told {
        Ok(both) => Ok(both),
        Err(_) => Err(TextError {
            line: 0,
            kind: TextKind::Memory,
        }),
    }
}
