//! What follows the first word of a line: regions, and then numbers.

ghost use Rattle.nll_format.specs.Parts as shapes;
ghost use Rattle.nll_format.specs.Parts.{ReadsParts};

use nll_text::{is_gap, number_at, region_at};

/// Nothing.
pub fn nothing(rest: &[u8]) -> Option<()>
    ensures { ReadsParts shapes.no_parts (λ n. n) rest.now result }
{
    if !is_gap(rest) {
        return None;
    }
    Some(())
}

/// One number.
pub fn number(rest: &[u8]) -> Option<u32>
    ensures { ReadsParts shapes.one_number (λ n. n) rest.now result }
{
    let (point, rest) = number_at(rest)?;
    nothing(rest)?;
    Some(point)
}

/// Two numbers.
pub fn two_numbers(rest: &[u8]) -> Option<(u32, u32)>
    ensures { ReadsParts shapes.two_numbers (λ n. n) rest.now result }
{
    let (first, rest) = number_at(rest)?;
    let second = number(rest)?;
    Some((first, second))
}

/// One region's name.
pub fn region(rest: &[u8]) -> Option<&[u8]>
    ensures { ReadsParts shapes.one_region (λ x. x.now) rest.now result }
{
    let (name, rest) = region_at(rest)?;
    nothing(rest)?;
    Some(name)
}

/// Two regions' names.
pub fn two_regions(rest: &[u8]) -> Option<(&[u8], &[u8])>
    ensures { ReadsParts shapes.two_regions (λ n. (n.0.now, n.1.now)) rest.now result }
{
    let (first, rest) = region_at(rest)?;
    let second = region(rest)?;
    Some((first, second))
}

/// A region's name and a number.
pub fn region_number(rest: &[u8]) -> Option<(&[u8], u32)>
    ensures { ReadsParts shapes.region_number (λ n. (n.0.now, n.1)) rest.now result }
{
    let (name, rest) = region_at(rest)?;
    let point = number(rest)?;
    Some((name, point))
}
