//! Theorems on the outputs of programs that were read. Each is the contract of an empty function.

ghost use Rattle.compile_output_proof.specs.Laws.{OutputsArePrintable};
ghost use Rattle.compile_output_proof.specs.Lines.{OutputsTellLines};
ghost use Rattle.compile_output_proof.specs.Inlined.{OutputsTellInlinedLines};

/// The output of a program that was read is printable, so its text is the text of no other printable output.
pub fn outputs_are_printable()
    ensures { OutputsArePrintable }
{}

/// `.debug_line` of the output of a program that was read is exact: for the address of each byte of code it has the
/// line, column and file of the first code of the source at or after the byte's origin. It has no row for an address
/// from the end of `.text` on.
pub fn outputs_tell_lines()
    ensures { OutputsTellLines }
{}

/// `.debug_rnglists` of the output of a program that was read, if there is one, is exact: the address of a byte of code
/// is in the range list of an instance exactly if the byte's line was inlined through the instance's call. The entries
/// of `.debug_info` are those of these instances.
pub fn outputs_tell_inlined_lines()
    ensures { OutputsTellInlinedLines }
{}
