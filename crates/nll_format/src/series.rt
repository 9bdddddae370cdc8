//! Names that are numbered one after another.

ghost use Rattle.std.specs.Prelude.{◌≡◌, ◌↔◌, ◌+◌, ◌-◌, ◌++◌, ◌≤◌, length, take};
ghost use Rattle.std.specs.Prelude.{IfSome, IsTrue, decimal};
ghost use Rattle.nll_format.specs.Names.{IsNumbered};

use nll_text::number_in_front;

/// Names in a row that differ in the number at their ends alone, which goes up by one.
#[derive(Clone, Copy)]
pub(crate) struct Series {
    /// The index of the first one.
    pub at: usize,
    /// How many bytes of each come before the number.
    pub front: usize,
    /// The number of the first one.
    pub number: u32,
}

// Splits a name behind this many bytes, if the rest is a number.
fn split(name: &[u8], front: usize) -> Option<(&[u8], u32)>
    ensures { IfSome result (λ p. (length p.0.now ≡ front) × (name.now ≡ p.0.now ++ decimal p.1)) }
{
    let (bytes, digits) = name.split_at_checked(front)?;
    let (number, rest) = number_in_front(digits)?;
    if rest.is_empty() {
        Some((bytes, number))
    } else {
        None
    }
}

// How many bytes come before the digits at the end.
fn len_of_front(name: &[u8]) -> usize {
    let mut front = 0;
    for place in 0..name.len() {
        if !name[place].is_ascii_digit() {
            front = place + 1;
        }
    }
    front
}

// Whether bytes are the same as others. They are few: they are compared one after another.
fn are_same(bytes: &[u8], others: &[u8]) -> bool
    ensures { IsTrue result ↔ (bytes.now ≡ others.now) }
{
    if bytes.len() != others.len() {
        return false;
    }
    for place in 0..bytes.len() {
        if bytes[place] != others[place] {
            return false;
        }
    }
    true
}

impl Series {
    /// The series that a name at an index begins, if a number is at its end.
    pub fn of(name: &[u8], at: usize) -> Option<Series>
        ensures { IfSome result (λ s. (s.at ≡ at) × IsNumbered s.front name.now name.now s.number) }
    {
        let front = len_of_front(name);
        let (_, number) = split(name, front)?;
        Some(Series { at, front, number })
    }

    /// The index of a name that is or would be in the series, of which the first is given.
    pub fn place(&self, first: &[u8], name: &[u8]) -> Option<usize>
        ensures { let s = self.now in IfSome result (λ i. (s.at ≤ i)
            × IsNumbered s.front first.now name.now (s.number + (i - s.at))) }
    {
        let (bytes, number) = split(name, self.front)?;
        let (front, _) = first.split_at_checked(self.front)?;
        if !are_same(bytes, front) {
            return None;
        }
        let step = number.checked_sub(self.number)?;
        self.at.checked_add(step as usize)
    }
}
