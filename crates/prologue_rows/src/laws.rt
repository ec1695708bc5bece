//! Laws about a program's rows, each the contract of a function that does nothing.

ghost use Rattle.prologue_rows.specs.Laws.{RowsGivePlaces, RowsBeginAtPrologues};

/// The rows of a function give each address the file, line and column that a row for each of its source positions
/// would give it.
pub fn rows_give_places()
    ensures { RowsGivePlaces }
{}

/// The first row of a function is at its first address, with its own line. The second one is at its first word behind
/// the prologue, and has line 0 only if the function's own line is 0.
pub fn rows_begin_at_prologues()
    ensures { RowsBeginAtPrologues }
{}
