//! Where the regions of a struct's field are in the row of the struct.

ghost use Rattle.std.specs.Prelude.{◌≡◌, ◌++◌, ℕ, IfOk, List, OnOk, length, map, option_map};
ghost use Rattle.nll_types.specs.Declarations.{structs_of};
ghost use Rattle.nll_types.specs.Rows.{region_row, region_rows};
ghost use Rattle.nll_types.specs.Structs.{field_type, put_in, put_in_all, region_in};
ghost use Rattle.nll_types.specs.Types.{TypeTrees};
ghost use Rattle.nll_types.specs.Views.{tree, trees};
ghost use Rattle.nll_rules.specs.TypeRows.{IsUseRow, argument_row, own_row, row_from};

use nll_problem::RegionId;
use nll_sets::Memory;
use nll_types::{Structs, Ty};
use std::alloc::Global;

/// The row of a use of a struct: the rows of its type arguments, one after another, and then its
/// region arguments.
#[derive(Clone, Copy)]
pub(crate) struct UseRow<'a> {
    /// How many regions the row has.
    pub(crate) count: usize,
    /// Where the rows of the type arguments begin, and the last of them ends.
    pub(crate) starts: &'a [usize],
    /// Where the region arguments begin.
    pub(crate) regions: usize,
}

impl<'a> UseRow<'a> {
    // The number of a template for what a region of a field's type becomes.
    fn region(&self, region: RegionId) -> usize
        ensures { (row : List ℕ) → length row ≡ self.now.count
            → region_in row result ≡ region_in (own_row self.now row) region }
    {
        if region.0 == 0 {
            return 0;
        }
        let place = self.regions.saturating_add((region.0 - 1) as usize);
        if place < self.count { place + 1 } else { 0 }
    }

    // Appends the numbers of the regions of the argument for a type parameter.
    fn push_argument(&self, parameter: usize, template: &mut Vec<usize>) -> Result<(), Memory>
        ensures { OnOk result ((row : List ℕ) → length row ≡ self.now.count
            → row_from row template.new.items
            ≡ row_from row template.old.items ++ argument_row self.now row parameter) }
    {
        let next = parameter.saturating_add(1);
        if next >= self.starts.len() {
            return Ok(());
        }
        let end = self.starts[next].min(self.count);
        let from = self.starts[parameter].min(end);
        for place in from..end {
            template.push(place + 1)?;
        }
        Ok(())
    }
}

// Appends to a template what makes the row of a field's type, as it is declared, of the row of
// each use of its struct.
#[cycle(field_rows)]
fn push_field(ty: &Ty, arguments: &UseRow<'_>, template: &mut Vec<usize>) -> Result<(), Memory>
    ensures { OnOk result ((row rs : List ℕ) (ts : TypeTrees) → IsUseRow arguments.now row rs ts
        → row_from row template.new.items
        ≡ row_from row template.old.items ++ region_row (put_in rs ts (tree ty.now))) }
{
    match ty {
        Ty::Int => Ok(()),
        Ty::Parameter(number) => arguments.push_argument(*number, template),
        Ty::Reference(region, _, target) => {
            push_field(target, arguments, template)?;
            template.push(arguments.region(*region))?;
            Ok(())
        }
        Ty::Tuple(parts) => push_fields(parts.as_slice(), arguments, template),
        Ty::Named(_, regions, parts) => {
            push_fields(parts.as_slice(), arguments, template)?;
            push_regions(regions.as_slice(), arguments, template)
        }
        Ty::Function(inputs, output) => {
            push_fields(inputs.as_slice(), arguments, template)?;
            push_field(output, arguments, template)
        }
    }
}

// Appends what makes the rows of types, one after another.
#[cycle(field_rows)]
fn push_fields(
    parts: &[Ty],
    arguments: &UseRow<'_>,
    template: &mut Vec<usize>,
) -> Result<(), Memory>
    ensures { OnOk result ((row rs : List ℕ) (ts : TypeTrees) → IsUseRow arguments.now row rs ts
        → row_from row template.new.items
        ≡ row_from row template.old.items ++ region_rows (put_in_all rs ts (trees parts.now))) }
{
    for part in parts {
        push_field(part, arguments, template)?;
    }
    Ok(())
}

// Appends the numbers of what regions of a field's type become.
fn push_regions(
    regions: &[RegionId],
    arguments: &UseRow<'_>,
    template: &mut Vec<usize>,
) -> Result<(), Memory>
    ensures { OnOk result ((row : List ℕ) → length row ≡ arguments.now.count
        → row_from row template.new.items ≡ row_from row template.old.items
        ++ map (region_in (own_row arguments.now row)) regions.now) }
{
    for region in regions {
        template.push(arguments.region(*region))?;
    }
    Ok(())
}

/// The template of a field of a struct, where it has the field: it makes the field's row of the row
/// of each use of the struct.
///
/// # Cost
/// Linear in the field's type as it is declared, and in what is made (not proved).
pub(crate) fn field_template(
    alloc: Global,
    structs: &Structs,
    named: usize,
    arguments: &UseRow<'_>,
    place: usize,
) -> Result<Option<Vec<usize>>, Memory>
    ensures { IfOk result (λ o. (row rs : List ℕ) (ts : TypeTrees)
        → IsUseRow arguments.now row rs ts → option_map (λ v. row_from row v.items) o
        ≡ option_map region_row (field_type (structs_of structs.now) named rs ts place)) }
{
    match structs.field(named, place) {
        Some(ty) => {
            let mut template = Vec::new(alloc);
            push_field(ty, arguments, &mut template)?;
            Ok(Some(template))
        }
        None => Ok(None),
    }
}
