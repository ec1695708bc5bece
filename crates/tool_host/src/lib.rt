//! The command-line tool on a host system: the command-line arguments, standard input and standard output. The
//! contract of a run is that of the call to the driver; no contract covers what the host reads and writes.
#![tactic(auto)]

use base_io::std_sink::StdSink;
use base_io::std_source::StdSource;
use cli::fault::Fault;
use std::io::Write;
use std::process::ExitCode;
use std::{env, io};
pub use tool_driver::driver as driver;
use tool_driver::driver::mirdwarf;
use tool_driver::telling::tell;

/// Runs the command in the program's arguments on standard input and output, and returns its status as the exit code.
/// A fault is reported by a line on `faults`.
pub fn run<W: Write + Drop>(rt: &HostRuntime, faults: W) -> ExitCode {
    let mut input = StdSource::new(rt.stdin());
    let mut output = StdSink::new(rt.stdout());
    let mut faults = StdSink::new(faults);
    let status = match words(rt) {
        Ok(words) => mirdwarf(rt.alloc(), &words, &mut input, &mut output, &mut faults),
        Err(fault) => tell(fault, &mut faults),
    };
    ExitCode::from(status.number())
}

/// The arguments after the program's name.
fn words(rt: &HostRuntime) -> Result<Vec<String>, Fault> {
    let mut words = Vec::new(rt.alloc());
    for word in env::args(rt).map_err(word_fault)?.skip(1) {
        if words.push(word).is_err() {
            return Err(Fault::Memory);
        }
    }
    Ok(words)
}

/// The fault for arguments that couldn't be read: want of memory, or a word that is no UTF-8 and so no word of a
/// command.
fn word_fault(error: io::Error) -> Fault {
    if error.kind() == io::ErrorKind::OutOfMemory {
        Fault::Memory
    } else {
        Fault::Usage
    }
}
