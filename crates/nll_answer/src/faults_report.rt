//! The report of faults.

ghost use Rattle.std.specs.Prelude.{◌≡◌, ◌<◌, ◌++◌, length, All, IfOk, OnOk, string_bytes};
ghost use Rattle.nll_answer.specs.Report.{fault_line, faults_report};

use nll_core::{Memory, RegionId};
use nll_format::Labels;
use std::alloc::{AllocError, Global};
use std::fmt::Write;

/// Prints the report of faults: a line for each, in their order, or the line `ok` where there is
/// none.
pub fn faults_text(
    alloc: Global,
    labels: &Labels,
    faults: &[(RegionId, RegionId)],
) -> Result<Vec<u8>, Memory>
    requires { All (λ fault. (fault.0 < length labels.now.names)
        × (fault.1 < length labels.now.names)) faults.now }
    ensures { IfOk result (λ bytes. bytes.items ≡ faults_report labels.now faults.now) }
{
    let mut out = String::new(alloc);
    if faults.is_empty() {
        out.push_str("ok\n")?;
    }
    for (longer, shorter) in faults {
        push_fault(&mut out, labels, *longer, *shorter)?;
    }
    Ok(out.into_bytes())
}

// Appends the line of a fault.
fn push_fault(
    out: &mut String,
    labels: &Labels,
    longer: RegionId,
    shorter: RegionId,
) -> Result<(), AllocError>
    requires longer { longer < length labels.now.names }
    requires shorter { shorter < length labels.now.names }
    ensures { OnOk result (string_bytes out.new
        ≡ string_bytes out.old ++ fault_line labels.now (longer, shorter)) }
{
    let longer = labels.region(longer);
    let shorter = labels.region(shorter);
    write!(out, "fault '{longer}")?;
    write!(out, " must outlive '{shorter}")?;
    out.push_str("\n")?;
    Ok(())
}
