//! The report of values.

ghost use Rattle.std.specs.Prelude.{◌≡◌, ℕ, ◌<◌, ◌≤◌, ◌++◌, ◌∷◌, ◌+◌, length, IfOk, OnOk};
ghost use Rattle.std.specs.Fmt.{decimal};
ghost use Rattle.std.specs.List.{flat_map};
ghost use Rattle.nll_sets.specs.ElementSet.{elements};
ghost use Rattle.nll_sets.specs.Runs.{first_of, last_of, numbers_in, numbers_of};
ghost use Rattle.nll_core.specs.Values.{IsHeld, IsShaped, set_of};
ghost use Rattle.nll_answer.specs.Report.{IsValuesReport, element_text, point_text, value_line};
ghost use Rattle.nll_answer.specs.Report.{value_lines};

use itoa::write_digits;
use nll_core::{Element, Memory, Problem, RegionId, Run, Values};
use nll_format::{Labels, PointName};
use std::alloc::Global;

/// Prints the report of values: a line for each region.
///
/// # Shape
/// Lines in region order; each has the region's name, a colon, then each element of its value after
/// one space: points ascending, as `7` or, where the labels have blocks, as `bb2/1`; then ends as
/// `end('a)` in the order of the universal regions.
pub fn values_text(
    alloc: Global,
    problem: &Problem,
    labels: &Labels,
    values: &Values,
) -> Result<Vec<u8>, Memory>
    requires shaped { IsShaped problem.now values.now }
    requires named { length labels.now.names ≡ problem.now.regions }
    ensures { IfOk result (λ bytes.
        IsValuesReport problem.now labels.now (IsHeld values.now) bytes.items) }
{
    region_lines(alloc, problem.points(), problem.regions(), labels, values)
}

/// The lines of the regions, in region order, with this many points.
pub(crate) fn region_lines(
    alloc: Global,
    points: u32,
    regions: u32,
    labels: &Labels,
    values: &Values,
) -> Result<Vec<u8>, Memory>
    requires valued { length values.now ≡ regions }
    requires named { length labels.now.names ≡ regions }
    requires ends { (r : ℕ) → r < regions → length (set_of values.now r) ≤ points + regions }
    ensures { IfOk result (λ bytes.
        bytes.items ≡ value_lines points regions labels.now (λ r. elements (set_of values.now r))) }
{
    let mut out = Vec::new(alloc);
    for number in 0..regions {
        push_line(&mut out, labels, values, points, RegionId(number))?;
    }
    Ok(out)
}

// Appends the line of a region.
fn push_line(
    out: &mut Vec<u8>,
    labels: &Labels,
    values: &Values,
    points: u32,
    region: RegionId,
) -> Result<(), Memory>
    requires region { region < length values.now }
    requires named { region < length labels.now.names }
    requires ends { length (set_of values.now region) ≤ points + length labels.now.names }
    ensures { OnOk result (out.new.items ≡ out.old.items
        ++ value_line labels.now points region (elements (set_of values.now region))) }
{
    out.extend_from_slice(b"'")?;
    out.extend_from_slice(labels.region(region).as_bytes())?;
    out.extend_from_slice(b":")?;
    push_runs(out, labels, points, values.runs(region))?;
    out.extend_from_slice(b"\n")?;
    Ok(())
}

// Appends the elements of runs, each after a space.
fn push_runs(out: &mut Vec<u8>, labels: &Labels, points: u32, runs: &[Run]) -> Result<(), Memory>
    requires fit { (k : ℕ) → k < length runs.now → (first_of runs.now k ≤ last_of runs.now k)
        × (last_of runs.now k < points + length labels.now.names) }
    requires room { (k : ℕ) → k < length runs.now → last_of runs.now k + 1 < 4294967296 }
    ensures { OnOk result (out.new.items ≡ out.old.items
        ++ flat_map (λ e. 32 ∷ element_text labels.now points e) (numbers_in runs.now)) }
{
    for run in runs {
        push_run(out, labels, points, *run)?;
    }
    Ok(())
}

// Appends the elements of a run, each after a space.
fn push_run(out: &mut Vec<u8>, labels: &Labels, points: u32, run: Run) -> Result<(), Memory>
    requires proper { run.first ≤ run.last }
    requires within { run.last < points + length labels.now.names }
    requires room { run.last + 1 < 4294967296 }
    ensures { OnOk result (out.new.items ≡ out.old.items
        ++ flat_map (λ e. 32 ∷ element_text labels.now points e) (numbers_of run)) }
{
    for number in run.first..run.last + 1 {
        push_element(out, labels, points, Element(number))?;
    }
    Ok(())
}

// Appends a space and an element.
fn push_element(
    out: &mut Vec<u8>,
    labels: &Labels,
    points: u32,
    element: Element,
) -> Result<(), Memory>
    requires { element < points + length labels.now.names }
    ensures { OnOk result (out.new.items
        ≡ out.old.items ++ 32 ∷ element_text labels.now points element) }
{
    if element.0 < points {
        push_point(out, labels.point(element.0))
    } else {
        out.extend_from_slice(b" end('")?;
        out.extend_from_slice(labels.region(RegionId(element.0 - points)).as_bytes())?;
        out.extend_from_slice(b")")?;
        Ok(())
    }
}

// Appends a space and a point.
fn push_point(out: &mut Vec<u8>, point: PointName) -> Result<(), Memory>
    ensures { OnOk result (out.new.items ≡ out.old.items ++ 32 ∷ point_text point) }
{
    match point {
        PointName::Number(number) => push_number(out, b' ', number),
        PointName::Block(block, place) => {
            out.extend_from_slice(b" b")?;
            push_number(out, b'b', block)?;
            push_number(out, b'/', place)
        }
    }
}

// Appends a sign and a number.
fn push_number(out: &mut Vec<u8>, sign: u8, number: u32) -> Result<(), Memory>
    ensures { OnOk result (out.new.items ≡ out.old.items ++ sign ∷ decimal number) }
{
    // A number of 32 bits has ten digits at most.
    let mut text = [sign; 11];
    let start = write_digits(number as u64, &mut text, 11);
    out.extend_from_slice(&text[start - 1..])?;
    Ok(())
}
