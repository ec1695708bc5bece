//! Runs the top call on the rows of files, which docs/ROWS.md describes: on the files that the arguments name, in the
//! current directory. For each file it prints the number of runs that came out as expected, and each run that didn't.
//! Behind them it runs the program on the same arguments, which are no command: with the fault's line on standard
//! output, and its exit code as this program's.
#![tactic(auto)]

mod part;
mod pieces;
mod row;
mod run;

use crate::row::rows_of;
use crate::run::{Tally, run_row};
use anyhow::{Context, bail};
use std::alloc::Global;
use std::process::ExitCode;
use std::{env, fs};

/// Runs the rows of a file, and gives how many of their runs didn't come out as written.
fn run_file(rt: &HostRuntime, alloc: Global, name: &str) -> anyhow::Result<u32> {
    let text = fs::read_to_string(rt, name)?;
    let rows = rows_of(alloc, text.as_str()).context(format_args!("{name}"))?;
    let mut tally = Tally::default();
    for row in &rows {
        run_row(rt, alloc, row, &mut tally)?;
    }
    let as_written = tally.as_written;
    println!(rt; "{name} {as_written}")?;
    Ok(tally.others)
}

fn main(rt: HostRuntime) -> anyhow::Result<ExitCode> {
    let mut others = 0u32;
    for name in env::args(&rt)?.skip(1) {
        others = others.saturating_add(run_file(&rt, rt.alloc(), name.as_str())?);
    }
    if others != 0 {
        bail!("{others} runs didn't come out as written");
    }
    Ok(tool_host::run(&rt, rt.stdout()))
}
