//! The program `nllc`.
#![tactic(auto)]

use std::process::ExitCode;

fn main(rt: HostRuntime) -> ExitCode {
    ExitCode::from(nll_report::run_in_process(&rt, &mut rt.stdout(), &mut rt.stderr()))
}
