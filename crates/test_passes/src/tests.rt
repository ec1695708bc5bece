//! The rows, one after the other.

use crate::parts::made;
use crate::rows::{ROWS, Row};
use std::alloc::Global;
use std::test::Fail;

/// Whether a part makes of a row's function what the row says.
fn is_as_shown(alloc: Global, row: &Row) -> Result<bool, Fail> {
    let text = made(alloc, &row.part, row.text)?;
    Ok(text.as_slice() == row.wanted.as_bytes())
}

/// What the first row shows that isn't so.
fn other_row(alloc: Global, rows: &[Row]) -> Result<Option<&'static str>, Fail> {
    for row in rows {
        if !is_as_shown(alloc, row)? {
            return Ok(Some(row.shows));
        }
    }
    Ok(None)
}

#[test]
fn parts_make_of_functions_what_the_rows_say(rt: HostRuntime) -> Result<(), Fail> {
    assert_eq!(rt; other_row(rt.alloc(), ROWS)?, None);
    Ok(())
}
