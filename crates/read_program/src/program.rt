//! The program in a text.

ghost use Rattle.std.specs.Prelude.{◌≡◌, ◌^◌, ◌<◌, length, Ok};
ghost use Rattle.read_program.specs.Program.{program_of, FunctionsFrom, ReadsText, UnlessMemory};

use crate::closing::Parsed;
use crate::error::ParseError;
use crate::parse::parse;
use base_list::List;
use read_documents::frame::documents;
use read_documents::parts::{Documents, FunctionDocument};
use read_metadata::metadata::{Metadata, read_meta};
use read_refusal::first::Refusal;
use read_refusal::kind::RefusalKind;
use std::alloc::Global;

/// The greatest number of functions in a text.
pub const MAX_FUNCTIONS: usize = 256;

/// Functions in the order of the text.
pub type ParsedFunctions = List<Parsed>;

/// The program in a text: its functions, and the metadata of its IR block (LLVM: the machine functions of a module,
/// `MachineModuleInfo`).
#[derive(Drop)]
pub struct Program {
    /// The functions in the order of the text.
    pub functions: ParsedFunctions,
    /// The metadata that they share.
    pub meta: Metadata,
}

/// The functions of documents in order, behind those that were read before, up to the first document that is refused.
pub fn read_functions(
    alloc: Global,
    documents: &[FunctionDocument],
    meta: &Metadata,
    mut functions: ParsedFunctions,
) -> Result<ParsedFunctions, ParseError>
    ensures { UnlessMemory result (FunctionsFrom meta.now functions documents.now result) }
{
    for document in documents {
        if MAX_FUNCTIONS <= functions.len() {
            return Err(ParseError::Refused(Refusal {
                line: document.opened,
                kind: RefusalKind::TooMany,
            }));
        }
        match parse(alloc, document, meta) {
            Ok(parsed) => functions.push(parsed)?,
            Err(error) => return Err(error),
        }
    }
    Ok(functions)
}

/// The program with these functions and this metadata, if the text is a sequence of documents.
fn whole(
    functions: ParsedFunctions,
    meta: Metadata,
    bad: Option<u32>,
) -> Result<Program, ParseError>
    ensures { result ≡ program_of meta bad (Ok functions) }
{
    match bad {
        None => Ok(Program { functions, meta }),
        Some(line) => Err(ParseError::Refused(Refusal {
            line,
            kind: RefusalKind::BadDocument,
        })),
    }
}

/// The program in a text of fewer than 2^31 bytes; `linked` is whether the linked language is read. The error is the
/// first refusal, of a line with the lowest number of its causes, or want of memory. Refused is a line of a function,
/// the opening line of a function above the limit, or the first line where the text is no sequence of documents. (YAML
/// 1.2; LLVM, Machine IR (MIR) Format Reference Manual.)
pub fn read_program(alloc: Global, linked: bool, text: &[u8]) -> Result<Program, ParseError>
    requires { length text.now < 2 ^ 31 }
    ensures { UnlessMemory result (ReadsText linked text.now result) }
{
    let Documents {
        meta,
        functions,
        bad,
    } = documents(alloc, linked, text)?;
    let meta = read_meta(alloc, &meta)?;
    let functions = read_functions(alloc, functions.as_slice(), &meta, List::new(alloc))?;
    whole(functions, meta, bad)
}
