//! The call that reads a program from an input.

ghost use Rattle.std.specs.Prelude.{◌≡◌, ◌+◌, ◌^◌, ◌<◌, ◌≤◌, ℕ, Bool, List, length, take, IfOk, OnOk};
ghost use Rattle.std.specs.Prelude.{OnErr, Ok, All};
ghost use Rattle.base_io.specs.Faults.{CountRose};
ghost use Rattle.base_io.specs.Told.{Takes, IsAtEnd};
ghost use Rattle.read_input.specs.Input.{Answers, AnswersText};
ghost use Rattle.read_input.specs.Reading.{IsReadingOf};

use crate::error::InputError;
use crate::reader::ProgramReader;
use base_io::fault::Failed;
use base_io::source::Source;
use read_program::error::ParseError;
use read_program::program::Program;
use std::alloc::Global;

/// How many bytes the first piece has at most.
const FIRST_CHUNK: usize = 4 * 1024;

/// How many bytes a piece has at most.
const CHUNK: usize = 64 * 1024;

/// Reads an input to its end, and gives the program in it; `linked` is whether the linked language is read. Each
/// iteration takes a byte or ends, and no more than one byte beyond the limit is read.
///
/// `Failed`: a read failed. `TooLong`: the input had more than `limit` bytes, and `limit + 1` of them were read. Both
/// come before any refusal.
pub fn read_input<S: Source>(
    alloc: Global,
    linked: bool,
    input: &mut S,
    limit: usize,
) -> Result<Program, InputError>
    requires { limit < 2 ^ 31 }
    ensures answers { Answers linked (S.left input.old) (S.left input.new) (S.faults input.old) (S.faults input.new)
        limit result }
    ensures counts { S.faults input.old ≤ S.faults input.new }
{
    let mut chunk = Vec::new(alloc);
    let mut reader = ProgramReader::new(alloc, linked);
    let mut taken = 0;
    while taken <= limit {
        chunk.resize(piece_size(taken, limit + 1 - taken), 0)?;
        let count = read_piece(input, &mut chunk)?;
        if count == 0 {
            return finished(alloc, reader);
        }
        taken += count;
        reader.feed(alloc, &chunk.as_slice()[..count])?;
    }
    Err(InputError::TooLong)
}

/// How many bytes are read next at most, where so many were taken and so many may be left: as many again, within bounds.
fn piece_size(taken: usize, left: usize) -> usize
    requires { 0 < left }
    ensures some { 0 < result }
    ensures within { result ≤ left }
{
    taken.clamp(FIRST_CHUNK, CHUNK).min(left)
}

/// Reads a piece into the front of a chunk, and gives its length. 0 is the end of the input.
fn read_piece<S: Source>(input: &mut S, chunk: &mut Vec<u8>) -> Result<usize, Failed>
    requires { 0 < length chunk.old.items }
    ensures length { length chunk.new.items ≡ length chunk.old.items }
    ensures within { IfOk result (λ n. n ≤ length chunk.new.items) }
    ensures takes { IfOk result (λ n. Takes (S.left input.old) (S.left input.new) (take n chunk.new.items)) }
    ensures bytes { All (λ b. b < 256) chunk.new.items }
    ensures end { result ≡ Ok 0 → IsAtEnd (S.left input.new) }
    ensures kept { OnErr result (S.left input.new ≡ S.left input.old) }
    ensures steady { OnOk result (S.faults input.new ≡ S.faults input.old) }
    ensures failed { OnErr result (CountRose (S.faults input.old) (S.faults input.new)) }
    ensures counts { S.faults input.old ≤ S.faults input.new }
{
    input.read(chunk.as_mut_slice())
}

/// The answer of a reader that was given a whole text.
fn finished(alloc: Global, reader: ProgramReader) -> Result<Program, InputError>
    requires { reader.program.lines + 1 < 2 ^ 32 }
    ensures { (linked : Bool) (text : List ℕ) → IsReadingOf linked reader text → AnswersText linked text result }
{
    match reader.finish(alloc) {
        Ok(program) => Ok(program),
        Err(ParseError::Refused(refusal)) => Err(InputError::Refused(refusal)),
        Err(ParseError::Memory) => Err(InputError::Memory),
    }
}
