//! Byte sources and sinks: the compiler's input and output.
//!
//! A `Source` yields bytes piece by piece, and a `Sink` accepts them piece by piece. Contracts see two properties of
//! each: the bytes (those left in a source, those written to a sink), if the type makes them known, and a count of
//! faults, which never falls. `Failed` is returned only if the count rose, so that generic code can't report a fault
//! that didn't happen.
//!
//! `read_all` reads a source to its end, within a limit, and `write_all` writes a piece whole. `MemorySource` and
//! `MemorySink` are over memory: their bytes are known and their faults are planned. `StdSource` and `StdSink` are
//! over readers and writers of the standard library: their bytes aren't known, and they are the trusted edge.
#![tactic(auto)]

pub mod bytes;
mod calls;
pub mod fault;
pub mod memory_sink;
pub mod memory_source;
pub mod reading;
pub mod sink;
pub mod source;
pub mod std_sink;
pub mod std_source;
pub mod writing;
