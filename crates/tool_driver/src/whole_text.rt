//! Reading a text whole, for the command that reads its metadata a second time.

ghost use Rattle.std.specs.Prelude.{◌≡◌, ◌≤◌, length, IfOk, IfErr};
ghost use Rattle.readback_strip.specs.readback_functions.Bytes.{AreBytes};
ghost use Rattle.tool_driver.specs.Answer.{block_lines, HasFunctions};
ghost use Rattle.tool_driver.specs.Limits.{INPUT_LIMIT};
ghost use Rattle.tool_driver.specs.Run.{HasReadLines};
ghost use Rattle.tool_driver.specs.steps.Ends.{HasReadNone, RefusesText};
ghost use Rattle.tool_driver.specs.Stream.{change};

use crate::driver::{LIMIT, some_function};
use base_io::reading::{ReadError, read_all};
use base_io::source::Source;
use cli::fault::Fault;
use read_documents::frame::documents;
use read_documents::parts::Documents;
use read_metadata::read_lexer_crate::line::Lines;
use read_program::error::ParseError;
use read_program::program::{Program, read_program};
use std::alloc::Global;

/// The program in a text.
#[derive(Drop)]
pub(crate) struct TextProgram {
    /// The lines of its IR block.
    pub lines: Lines,
    /// The program.
    pub program: Program,
}

/// The program in an input, which is read to its end, and has a function; `linked` is whether the linked language is
/// read.
pub(crate) fn read_whole<S: Source>(
    alloc: Global,
    linked: bool,
    input: &mut S,
) -> Result<TextProgram, Fault>
    ensures ok { IfOk result (λ t. HasReadLines linked (change S.left S.faults input.old input.new) t.lines t.program) }
    ensures err { IfErr result (HasReadNone linked (change S.left S.faults input.old input.new)) }
    ensures counts { S.faults input.old ≤ S.faults input.new }
{
    match read_all(alloc, input, LIMIT) {
        Ok(text) => program_in(alloc, linked, text.as_slice()),
        Err(ReadError::Failed) => Err(Fault::Read),
        Err(ReadError::TooLong) => Err(Fault::TooLong),
        Err(ReadError::Memory) => Err(Fault::Memory),
    }
}

/// The program in a text, which has a function.
fn program_in(alloc: Global, linked: bool, text: &[u8]) -> Result<TextProgram, Fault>
    requires { length text.now ≤ INPUT_LIMIT }
    ensures ok { IfOk result (λ t. HasFunctions linked text.now t.program × (t.lines ≡ block_lines linked text.now)) }
    ensures err { IfErr result (RefusesText linked text.now) }
    ensures bytes { AreBytes text.now }
{
    match read_program(alloc, linked, text) {
        Ok(program) => {
            let program = some_function(program)?;
            with_lines(alloc, linked, text, program)
        }
        Err(ParseError::Refused(refusal)) => Err(Fault::Refused(refusal)),
        Err(ParseError::Memory) => Err(Fault::Memory),
    }
}

/// A program with the lines of the IR block of its text.
fn with_lines(
    alloc: Global,
    linked: bool,
    text: &[u8],
    program: Program,
) -> Result<TextProgram, Fault>
    requires { length text.now ≤ INPUT_LIMIT }
    ensures ok { IfOk result (λ t. (t.program ≡ program) × (t.lines ≡ block_lines linked text.now)) }
    ensures err { IfErr result (λ fault. fault ≡ Fault.Memory) }
{
    let Documents {
        meta,
        functions: _,
        bad: _,
    } = documents(alloc, linked, text)?;
    Ok(TextProgram {
        lines: meta,
        program,
    })
}
