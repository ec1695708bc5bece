//! The command-line program of the compiler back end. Faults are reported on standard error, and the status is the
//! exit code.
#![tactic(auto)]

use std::process::ExitCode;
use tool_host::run;

fn main(rt: HostRuntime) -> ExitCode {
    run(&rt, rt.stderr())
}
