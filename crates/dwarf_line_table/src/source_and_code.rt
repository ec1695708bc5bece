//! Functions as they were read, with their machine code.

use emit_code::code::Code;
use mir_func::func::Func;

/// A function as it was read, and its machine code.
#[derive(Clone, Copy)]
pub struct SourceAndCode<'a> {
    /// The function as it was read.
    pub source: &'a Func,
    /// Its machine code.
    pub code: &'a Code,
}
