//! Programs read from inputs.

use base_io::bytes::{Bytes, CallNumbers};
use base_io::memory_source::MemorySource;
use read_input::input::read_input;
use std::alloc::{AllocError, Global};
use std::fmt::Write;
use std::process::Abort;
use std::test::Fail;

/// A function without a body's items but a return.
const RETURN: &str = "---\r
name: f
body: |
  bb.0:
    PseudoRET
...";

/// Three functions, of which the second one has a debug value, so that it and the third one wait for metadata.
const WAITING: &str = "---
name: f
body: |
  bb.0:
    PseudoRET
...
---
name: g
body: |
  bb.0:
    DBG_VALUE $x10, $noreg, !1, !DIExpression()
    PseudoRET
...
---
name: h
body: |
  bb.0:
    PseudoRET
...
";

/// Texts, how many bytes are within the limit, and which call of the input fails; and how many functions are read, or
/// why none is.
const INPUTS: &[(&str, u8, u64, &str)] = &[
    ("", 0, 0, "0"),
    ("# c", 3, 0, "0"),
    ("# c\n", 3, 0, "the input is too long"),
    ("junk", 3, 0, "the input is too long"),
    ("junk", 4, 0, "line 1 is refused: BadDocument"),
    ("junk", 4, 1, "reading failed"),
    ("junk", 4, 2, "reading failed"),
    (RETURN, 46, 0, "1"),
    (RETURN, 45, 0, "the input is too long"),
    (WAITING, 186, 0, "3"),
];

/// Appends how many functions are read, or why none is.
fn push_read(
    alloc: Global,
    told: &mut String,
    text: &str,
    limit: u8,
    fails: u64,
) -> Result<(), AllocError> {
    let bytes = Bytes::from_slice(alloc, text.as_bytes())?;
    let mut input = MemorySource::new(bytes, CallNumbers::from_slice(alloc, &[fails])?);
    match read_input(alloc, false, &mut input, usize::from(limit)) {
        Ok(program) => write!(told, "{}", program.functions.len()),
        Err(error) => write!(told, "{error}"),
    }
}

/// Whether this is what is told of an input.
fn is_read(
    alloc: Global,
    text: &str,
    limit: u8,
    fails: u64,
    wanted: &str,
) -> Result<bool, AllocError> {
    let mut told = String::new(alloc);
    push_read(alloc, &mut told, text, limit, fails)?;
    Ok(told.as_str() == wanted)
}

/// The number of the first row of which something else is told.
fn other_input(alloc: Global, rows: &[(&str, u8, u64, &str)]) -> Result<Option<usize>, AllocError> {
    for (row, (text, limit, fails, wanted)) in rows.iter().enumerate() {
        if !is_read(alloc, text, *limit, *fails, wanted)? {
            return Ok(Some(row));
        }
    }
    Ok(None)
}

#[test]
fn reads_inputs(rt: HostRuntime) -> Result<(), Fail> {
    assert_eq!(rt; other_input(rt.alloc(), INPUTS)?, None);
    Ok(())
}
