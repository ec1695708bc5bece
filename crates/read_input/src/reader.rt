//! The reader of a program's bytes, as they come.

ghost use Rattle.std.specs.Prelude.{◌≡◌, ◌+◌, ◌^◌, ◌<◌, ◌≤◌, ◌++◌, ◌∷◌, ℕ, Bool, List, [], length, OnOk, None};
ghost use Rattle.read_program.specs.Program.{ReadsText, UnlessMemory};
ghost use Rattle.read_input.specs.Reading.{IsReadingOf, IsSettled, AnswersAs};

use crate::partial::PartialProgram;
use base_list::List;
use read_documents::text::{line_feed, without_carriage_return};
use read_program::error::ParseError;
use read_program::program::Program;
use std::alloc::{AllocError, Global};
use std::mem;

/// A reader of a program's bytes.
#[derive(Drop)]
pub struct ProgramReader {
    /// The bytes behind the last LF.
    pub line: List<u8>,
    /// What the lines before them say.
    pub program: PartialProgram,
}

impl ProgramReader {
    /// The reader before the first byte; `linked` is whether the linked language is read.
    pub fn new(alloc: Global, linked: bool) -> ProgramReader
        ensures reading { IsReadingOf linked result [] }
        ensures lines { result.program.lines ≡ 0 }
    {
        ProgramReader {
            line: List::new(alloc),
            program: PartialProgram::new(alloc, linked),
        }
    }

    /// Takes the next bytes.
    pub fn feed(&mut self, alloc: Global, bytes: &[u8]) -> Result<(), AllocError>
        requires { self.old.program.lines + length bytes.now < 2 ^ 32 }
        ensures lines { OnOk result (self.new.program.lines ≤ self.old.program.lines + length bytes.now) }
        ensures reading { OnOk result ((linked : Bool) (front : List ℕ) → IsReadingOf linked self.old front →
            IsReadingOf linked self.new (front ++ bytes.now)) }
    {
        let mut rest = bytes;
        while self.program.refused.is_none() {
            let Some(end) = line_feed(rest) else {
                return self.line.extend_from_slice(rest);
            };
            self.end_line(alloc, &rest[..end])?;
            rest = &rest[end + 1..];
        }
        Ok(())
    }

    /// Takes the line that has these bytes at its end, at its LF. One that is whole in them isn't copied.
    fn end_line(&mut self, alloc: Global, end: &[u8]) -> Result<(), AllocError>
        requires unrefused { self.old.program.refused ≡ None }
        requires few { self.old.program.lines + 1 < 2 ^ 32 }
        ensures lines { OnOk result (self.new.program.lines ≡ self.old.program.lines + 1) }
        ensures reading { OnOk result ((linked : Bool) (front : List ℕ) →
            IsReadingOf linked (record self.old { line = self.old.line ++ end.now }) front →
            IsReadingOf linked self.new (front ++ 10 ∷ [])) }
    {
        if self.line.is_empty() {
            return self.program.take(alloc, without_carriage_return(end));
        }
        self.line.extend_from_slice(end)?;
        self.end_held_line(alloc)
    }

    /// Takes the line whose bytes have come, at its LF.
    fn end_held_line(&mut self, alloc: Global) -> Result<(), AllocError>
        requires unrefused { self.old.program.refused ≡ None }
        requires few { self.old.program.lines + 1 < 2 ^ 32 }
        ensures lines { OnOk result (self.new.program.lines ≡ self.old.program.lines + 1) }
        ensures reading { OnOk result ((linked : Bool) (front : List ℕ) → IsReadingOf linked self.old front →
            IsReadingOf linked self.new (front ++ 10 ∷ [])) }
    {
        let mut line = mem::replace(&mut self.line, List::new(alloc));
        let text = without_carriage_return(line.as_slice());
        self.program.take(alloc, text)?;
        line.items.clear();
        self.line = line;
        Ok(())
    }

    /// The program in the bytes that were taken, which are all. The error is the first refusal, or want of memory.
    pub fn finish(self, alloc: Global) -> Result<Program, ParseError>
        requires { self.program.lines + 1 < 2 ^ 32 }
        ensures { (linked : Bool) (text : List ℕ) → IsReadingOf linked self text →
            UnlessMemory result (ReadsText linked text result) }
    {
        let ProgramReader { line, mut program } = self;
        program.take_last(alloc, line.as_slice())?;
        program.end(alloc)?;
        answer(program)
    }
}

/// The answer of what was read, where all was read.
fn answer(program: PartialProgram) -> Result<Program, ParseError>
    requires { IsSettled program }
    ensures { AnswersAs program.functions program.meta program.refused result }
{
    let PartialProgram {
        lines: _,
        scan: _,
        meta,
        functions,
        refused,
    } = program;
    if let Some(refusal) = refused {
        return Err(ParseError::Refused(refusal));
    }
    match meta {
        Some(meta) => Ok(Program { functions, meta }),
        None => unreachable!(),
    }
}
