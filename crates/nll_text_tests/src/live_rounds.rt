//! Where one variable is live, by rounds over all points until one changes nothing.
//!
//! This is the plain program with which tests compare `nll_live`'s: it knows no predecessors, no
//! marks and no runs.

ghost use Rattle.std.specs.Prelude.{◌≡◌, ◌↔◌, ◌<◌, ℕ, true, false, length, IsTrue, Contains, IfOk};
ghost use Rattle.nll_sets.specs.ElementSet.{flag};
ghost use Rattle.nll_live.specs.Live.{DefinesAt, GoesOnUndefined, IsLive};
ghost use Rattle.nll_text_tests.specs.LiveRounds.{Flags, GoesOnToFlagged, IsNew, unflagged};

use nll_body::Body;
use nll_sets::Memory;
use std::alloc::Global;

/// The points from which a flagged one is reachable by a path on which no point before the last
/// defines the variable.
///
/// # Errors
/// `Memory` alone.
///
/// # Cost
/// A round goes over all points, and each round but the last flags one more (not proved).
///
/// # Source
/// RFC 2094, "Liveness".
pub fn live_by_rounds(
    alloc: Global,
    body: &Body,
    variable: u32,
    ends: &[bool],
) -> Result<Vec<bool>, Memory>
    requires { length ends.now ≡ length body.now.points }
    ensures { IfOk result (λ flags. (p : ℕ) → (flag flags.items p ≡ true)
        ↔ IsLive body.now (λ q. flag ends.now q ≡ true) variable p) }
{
    let mut flags = Vec::from_slice(alloc, ends)?;
    while round(body, variable, &mut flags) {}
    Ok(flags)
}

// Flags points that go on to flagged ones and don't define the variable. Answers whether one is
// new.
fn round(body: &Body, variable: u32, flags: &mut Vec<bool>) -> bool
    requires { length flags.old.items ≡ length body.now.points }
    ensures flags { Flags body.now variable flags.old.items flags.new.items }
    ensures same { result ≡ false → flags.new.items ≡ flags.old.items }
    ensures fewer { result ≡ true → unflagged flags.new.items < unflagged flags.old.items }
    ensures closed { result ≡ false → (p q : ℕ) → flag flags.old.items q ≡ true
        → GoesOnUndefined body.now variable p q → flag flags.old.items p ≡ true }
{
    let mut changed = false;
    for point in 0..body.points() {
        let new = visit(body, variable, flags, point);
        changed |= new;
    }
    changed
}

// Flags a point, where it goes on to a flagged one and doesn't define the variable. Answers whether
// it is new.
fn visit(body: &Body, variable: u32, flags: &mut Vec<bool>, point: u32) -> bool
    requires width { length flags.old.items ≡ length body.now.points }
    requires point { point < length body.now.points }
    ensures flags { Flags body.now variable flags.old.items flags.new.items }
    ensures same { result ≡ false → flags.new.items ≡ flags.old.items }
    ensures fewer { result ≡ true → unflagged flags.new.items < unflagged flags.old.items }
    ensures closed { result ≡ false → (q : ℕ) → flag flags.old.items q ≡ true
        → GoesOnUndefined body.now variable point q → flag flags.old.items point ≡ true }
{
    if !is_new(body, variable, flags.as_slice(), point) {
        return false;
    }
    flags[point as usize] = true;
    true
}

// Whether a point isn't flagged, goes on to a flagged one and doesn't define the variable.
fn is_new(body: &Body, variable: u32, flags: &[bool], point: u32) -> bool
    requires { point < length body.now.points }
    ensures { IsTrue result ↔ IsNew body.now variable flags.now point }
{
    if is_flagged(flags, point) {
        return false;
    }
    goes_on(body, variable, flags, point)
}

// Whether a point goes on to a flagged one and doesn't define the variable.
fn goes_on(body: &Body, variable: u32, flags: &[bool], point: u32) -> bool
    requires { point < length body.now.points }
    ensures { IsTrue result ↔ GoesOnToFlagged body.now variable flags.now point }
{
    if defines(body, variable, point) {
        return false;
    }
    let graph = body.graph();
    is_any(flags, graph.next_of(point))
}

// Whether one of the points is flagged.
fn is_any(flags: &[bool], points: &[u32]) -> bool
    ensures { IsTrue result ↔ ((q : ℕ) × (flag flags.now q ≡ true) × Contains points.now q) }
{
    for point in points {
        if is_flagged(flags, *point) {
            return true;
        }
    }
    false
}

/// Whether a point is flagged.
pub(crate) fn is_flagged(flags: &[bool], point: u32) -> bool
    ensures { IsTrue result ↔ (flag flags.now point ≡ true) }
{
    if (point as usize) < flags.len() {
        return flags[point as usize];
    }
    false
}

// Whether a point defines the variable.
fn defines(body: &Body, variable: u32, point: u32) -> bool
    requires { point < length body.now.points }
    ensures { IsTrue result ↔ DefinesAt body.now variable point }
{
    match body.defines(point) {
        Some(defined) => defined == variable,
        None => false,
    }
}
