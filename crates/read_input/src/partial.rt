//! What was read of a program, line by line.

ghost use Rattle.std.specs.Prelude.{◌≡◌, ◌==◌, ◌+◌, ◌^◌, ◌<◌, ◌∷◌, [], ℕ, true, false, List, None, is_some};
ghost use Rattle.std.specs.Prelude.{unwrap_or, IfOk, IfSome, OnOk, All};
ghost use Rattle.std.specs.Str.Lines.{lines};
ghost use Rattle.read_metadata.specs.Metadata.{metadata_of};
ghost use Rattle.read_documents.specs.declared.parts.Documents.{Documents};
ghost use Rattle.read_documents.specs.steps.Scan.{start};
ghost use Rattle.read_input.specs.Reading.{Knows, HasReadAll, Stops, Ends, IsSettled};
ghost use Rattle.read_input.specs.Unmarked.{IsOnly};

use crate::unmarked::parse_unmarked;
use base_list::List;
use read_documents::parts::FunctionDocument;
use read_documents::scan::Scan;
use read_documents::text::trimmed;
use read_lexer::line::Lines;
use read_metadata::metadata::{Metadata, read_meta};
use read_program::closing::Parsed;
use read_program::error::ParseError;
use read_program::program::{MAX_FUNCTIONS, ParsedFunctions, read_functions};
use read_refusal::first::Refusal;
use read_refusal::kind::RefusalKind;
use std::alloc::{AllocError, Global};
use std::mem;

/// What was read of a program. Once a line is refused, nothing more is.
#[derive(Drop)]
pub struct PartialProgram {
    /// How many lines were read.
    pub lines: u32,
    /// The documents so far: the lines of the block until it closes, and the functions that wait for it.
    pub scan: Scan,
    /// The metadata, once the block has closed.
    pub meta: Option<Metadata>,
    /// The functions that were read.
    pub functions: ParsedFunctions,
    /// The first refusal, if one came.
    pub refused: Option<Refusal>,
}

impl PartialProgram {
    /// Nothing yet; `linked` is whether the linked language is read.
    pub fn new(alloc: Global, linked: bool) -> PartialProgram
        ensures { result ≡ record { lines = 0; scan = start linked; meta = None; functions = []; refused = None } }
    {
        PartialProgram {
            lines: 0,
            scan: Scan::new(alloc, linked),
            meta: None,
            functions: List::new(alloc),
            refused: None,
        }
    }

    /// Takes the next line, without its ending.
    pub fn take(&mut self, alloc: Global, text: &[u8]) -> Result<(), AllocError>
        requires unrefused { self.old.refused ≡ None }
        requires few { self.old.lines + 1 < 2 ^ 32 }
        ensures lines { OnOk result (self.new.lines ≡ self.old.lines + 1) }
        ensures known { OnOk result ((documents : Documents) (behind : List (List ℕ)) →
            Knows self.old documents (text.now ∷ behind) → Knows self.new documents behind) }
    {
        self.lines += 1;
        let text = trimmed(text);
        if let Some(bad) = self.scan.fault(self.lines, text) {
            return self.stop(alloc, bad);
        }
        let waited = self.scan.functions.len();
        self.scan.take(alloc, self.lines, text)?;
        if self.is_due() {
            return self.read_on(alloc);
        }
        if waited == 0 {
            return self.read_early(alloc);
        }
        Ok(())
    }

    /// Whether the block has closed, and its metadata or a function waits to be read.
    fn is_due(&self) -> bool
        ensures { result ≡ true → (self.now.scan.had_block ≡ true) × (self.now.scan.in_block ≡ false) }
    {
        let is_behind_block = self.scan.had_block && !self.scan.in_block;
        is_behind_block && (self.meta.is_none() || !self.scan.functions.is_empty())
    }

    /// Reads the function that waits alone for the metadata, if it is the same whatever the metadata is.
    fn read_early(&mut self, alloc: Global) -> Result<(), AllocError>
        requires unrefused { self.old.refused ≡ None }
        ensures lines { self.new.lines ≡ self.old.lines }
        ensures known { OnOk result ((documents : Documents) (behind : List (List ℕ)) →
            Knows self.old documents behind → Knows self.new documents behind) }
    {
        if MAX_FUNCTIONS <= self.functions.len() {
            return Ok(());
        }
        match early(alloc, self.scan.functions.as_slice())? {
            Some(parsed) => {
                self.scan.functions = List::new(alloc);
                self.functions.push(parsed)
            }
            None => Ok(()),
        }
    }

    /// Takes the bytes behind the last LF, which are a line if there are any.
    pub fn take_last(&mut self, alloc: Global, line: &[u8]) -> Result<(), AllocError>
        requires few { self.old.lines + 1 < 2 ^ 32 }
        ensures { OnOk result (All (λ b. (b == 10) ≡ false) line.now → (documents : Documents) →
            Knows self.old documents (lines line.now) → Knows self.new documents []) }
    {
        if self.refused.is_some() {
            return Ok(());
        }
        if line.is_empty() {
            return Ok(());
        }
        self.take(alloc, line)
    }

    /// Reads what is left where no line is.
    pub fn end(&mut self, alloc: Global) -> Result<(), AllocError>
        ensures settled { OnOk result (IsSettled self.new) }
        ensures ends { OnOk result ((documents : Documents) → Knows self.old documents [] → Ends self.new documents) }
    {
        if self.refused.is_some() {
            return Ok(());
        }
        match self.scan.fault_at_end(self.lines) {
            Some(bad) => self.stop(alloc, bad),
            None => self.read_on(alloc),
        }
    }

    /// Reads the metadata, if it wasn't read, and the functions that wait for it.
    fn read_on(&mut self, alloc: Global) -> Result<(), AllocError>
        ensures lines { self.new.lines ≡ self.old.lines }
        ensures known { OnOk result (is_some self.new.meta ≡ true) }
        ensures read { OnOk result (HasReadAll self.old self.new) }
    {
        let meta = metadata(alloc, self.meta.take(), &self.scan.meta)?;
        self.scan.meta = List::new(alloc);
        let waiting = mem::replace(&mut self.scan.functions, List::new(alloc));
        let before = mem::replace(&mut self.functions, List::new(alloc));
        match read_functions(alloc, waiting.as_slice(), &meta, before) {
            Ok(functions) => {
                self.meta = Some(meta);
                self.functions = functions;
                self.refused = None;
                Ok(())
            }
            Err(ParseError::Refused(refusal)) => {
                self.meta = Some(meta);
                self.refused = Some(refusal);
                Ok(())
            }
            Err(ParseError::Memory) => Err(AllocError),
        }
    }

    /// Ends reading at a line where the text is no sequence of documents. A function that waits and is refused comes
    /// before it.
    fn stop(&mut self, alloc: Global, bad: u32) -> Result<(), AllocError>
        ensures lines { self.new.lines ≡ self.old.lines }
        ensures refused { OnOk result (is_some self.new.refused ≡ true) }
        ensures stops { OnOk result (Stops self.old bad self.new.refused) }
    {
        self.read_on(alloc)?;
        let bad = Refusal {
            line: bad,
            kind: RefusalKind::BadDocument,
        };
        self.refused = Some(self.refused.unwrap_or(bad));
        Ok(())
    }
}

/// The function of the only document of these, if there is one and it is the same whatever the metadata is.
fn early(alloc: Global, documents: &[FunctionDocument]) -> Result<Option<Parsed>, AllocError>
    ensures { IfOk result (λ read. IfSome read (λ p. IsOnly documents.now p)) }
{
    if documents.len() != 1 {
        return Ok(None);
    }
    parse_unmarked(alloc, &documents[0])
}

/// The metadata that was read, or else that in the lines of the block.
fn metadata(alloc: Global, read: Option<Metadata>, block: &Lines) -> Result<Metadata, AllocError>
    ensures { IfOk result (λ meta. meta ≡ unwrap_or read (metadata_of block.now)) }
{
    match read {
        Some(meta) => Ok(meta),
        None => read_meta(alloc, block),
    }
}
