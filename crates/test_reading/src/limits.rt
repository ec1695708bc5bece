//! Limits whose texts have thousands of lines: at its limit each text is read, and at one more it is refused.

use read_program::error::ParseError;
use read_program::program::read_program;
use read_refusal::first::Refusal;
use read_refusal::kind::RefusalKind;
use std::alloc::{AllocError, Global};
use std::fmt::Write;
use std::test::Fail;

/// A text with something that is counted: lines before, numbered lines, and lines behind.
struct Row {
    before: &'static str,
    /// What stands in a numbered line before and behind its number.
    line: (&'static str, &'static str),
    /// The first number.
    first: usize,
    /// How many numbered lines there may be.
    most: usize,
    /// At which line one more is refused.
    refused_at: u32,
}

/// The head of a function up to its first label, which is line 4.
const HEAD: &str = "---\nname: f\nbody: |\n  bb.0:\n";

const ROWS: [Row; 4] = [
    // labels
    Row {
        before: "---\nname: f\nbody: |\n",
        line: ("  bb.", ":\n"),
        first: 0,
        most: 1024,
        refused_at: 1028,
    },
    // variables
    Row {
        before: HEAD,
        line: ("    DBG_VALUE $x10, $noreg, !", ", !DIExpression()\n"),
        first: 100,
        most: 1024,
        refused_at: 1029,
    },
    // numbers on items
    Row {
        before: HEAD,
        line: ("    $x10 = ADDI $x10, 1, debug-instr-number ", "\n"),
        first: 1,
        most: 4096,
        refused_at: 4101,
    },
    // constants
    Row {
        before: HEAD,
        line: ("    $x10 = ADDI $x0, ", "\n"),
        first: 0,
        most: 256,
        refused_at: 261,
    },
];

/// Appends a row's text with so many numbered lines.
fn push_text(text: &mut String, row: &Row, count: usize) -> Result<(), AllocError> {
    text.push_str(row.before)?;
    for k in 0..count {
        text.push_str(row.line.0)?;
        write!(text, "{}", row.first.wrapping_add(k))?;
        text.push_str(row.line.1)?;
    }
    text.push_str("    PseudoRET\n...\n")
}

/// The refusal of a row's text with so many numbered lines.
fn refusal(alloc: Global, row: &Row, count: usize) -> Result<Option<Refusal>, Fail> {
    let mut text = String::new(alloc);
    push_text(&mut text, row, count)?;
    let bytes = text.as_bytes();
    if bytes.len() >= 1 << 31 {
        return Err(Fail::from("a text of this size"));
    }
    match read_program(alloc, false, bytes) {
        Ok(_) => Ok(None),
        Err(ParseError::Refused(refusal)) => Ok(Some(refusal)),
        Err(ParseError::Memory) => Err(Fail::from("memory ran out")),
    }
}

/// Whether as many lines as there may be are read, and one more is refused where a row says.
fn is_limit(alloc: Global, row: &Row) -> Result<bool, Fail> {
    let wanted = Refusal {
        line: row.refused_at,
        kind: RefusalKind::TooMany,
    };
    let most = refusal(alloc, row, row.most)?;
    let beyond = refusal(alloc, row, row.most.wrapping_add(1))?;
    Ok(most == None && beyond == Some(wanted))
}

/// Where one more than the limit of the first row that isn't so is refused.
fn other_limit(alloc: Global, rows: &[Row]) -> Result<Option<u32>, Fail> {
    for row in rows {
        if !is_limit(alloc, row)? {
            return Ok(Some(row.refused_at));
        }
    }
    Ok(None)
}

#[test]
fn one_more_is_refused(rt: HostRuntime) -> Result<(), Fail> {
    assert_eq!(rt; other_limit(rt.alloc(), &ROWS)?, None);
    Ok(())
}
