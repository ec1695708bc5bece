//! Functions with what their rows and entries say of the source.

use dwarf_line_table::file::SourceFile;
use dwarf_line_table::source_and_code::SourceAndCode;

/// A function with its own line, and the files that its entries name.
#[derive(Clone, Copy)]
pub struct LinedFunction<'a> {
    /// The function as it was read, and its machine code.
    pub function: SourceAndCode<'a>,
    /// The line at which the function's scope begins, from 1; 0 if it has none.
    pub line: u32,
    /// The files of the declarations and calls in its debugging information entries, in the order of the entries.
    pub declared: &'a [SourceFile],
}
