//! The source positions for the rows of a function, and the table of a program without functions.

use base_ids::function_ids::BlockIndex;
use base_list::List;
use dwarf_line_table::file::SourceFile;
use dwarf_line_table::line_table::NumberedTable;
use dwarf_line_table::scope_line::ScopeLine;
use prologue_rows::laws::{rows_begin_at_prologues, rows_give_places};
use prologue_rows::lines::lines_of;
use prologue_rows::table::line_table;
use prologue_rows::words::{SourceWord, SourceWords};
use read_metadata::metadata::read_meta;
use std::alloc::{AllocError, Global};
use std::test::Fail;

/// Addresses, blocks, lines and columns of words: three of a prologue, then blocks that begin with a word of line 0.
const WORDS: &[(u64, u32, u32, u32)] = &[
    (0, 0, 0, 0),
    (4, 0, 7, 1),
    (8, 0, 0, 0),
    (12, 1, 0, 4),
    (16, 1, 3, 1),
    (20, 1, 0, 0),
    (24, 2, 0, 0),
    (28, 2, 5, 2),
];

/// Addresses, lines and columns of the rows of a function at line 1.
const ROWS: &[(u64, u32, u32)] = &[
    (0, 1, 0),
    (12, 1, 0),
    (16, 3, 1),
    (20, 0, 0),
    (24, 0, 0),
    (28, 5, 2),
];

/// A line and a column without a scope.
fn line_of(line: u32, column: u32) -> ScopeLine {
    ScopeLine {
        line,
        column,
        scope: None,
    }
}

/// The words.
fn words(alloc: Global) -> Result<SourceWords, AllocError> {
    let mut words = SourceWords::new(alloc);
    for (address, block, line, column) in WORDS {
        words.push(SourceWord {
            address: *address,
            block: BlockIndex(*block),
            line: *line,
            column: *column,
            scope: None,
        })?;
    }
    Ok(words)
}

/// Whether source positions are the wanted ones.
fn are_wanted(lines: &[SourceWord]) -> bool {
    if lines.len() != ROWS.len() {
        return false;
    }
    for (word, (address, line, column)) in lines.iter().zip(ROWS) {
        if word.address != *address || word.line != *line || word.column != *column {
            return false;
        }
    }
    true
}

/// Whether a table has one file, which has no name, and nothing else.
fn is_empty(made: &NumberedTable) -> bool {
    let table = &made.table;
    if !table.sequences.is_empty() || !made.numbers.is_empty() || table.dirs.len() != 1 {
        return false;
    }
    match table.files.as_slice() {
        [file] => file.name.as_slice() == b"unknown".as_slice() && file.dir == 0,
        _ => false,
    }
}

#[test]
fn heads_have_the_line_of_the_function(rt: HostRuntime) -> Result<(), Fail> {
    rows_give_places();
    rows_begin_at_prologues();
    let alloc = rt.alloc();
    let words = words(alloc)?;
    let lines = lines_of(alloc, &line_of(1, 0), 0, words.as_slice())?;
    assert!(rt; are_wanted(lines.as_slice()));
    Ok(())
}

#[test]
fn a_file_without_a_name_is_unknown(rt: HostRuntime) -> Result<(), Fail> {
    let alloc = rt.alloc();
    let meta = read_meta(alloc, &List::new(alloc))?;
    let unit = SourceFile {
        name: List::new(alloc),
        dir: List::new(alloc),
    };
    assert!(rt; is_empty(&line_table(alloc, &unit, &[], &meta)?));
    Ok(())
}
