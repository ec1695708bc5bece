//! The relocatable object of an output.

ghost use Rattle.std.specs.Prelude.{◌≡◌, ◌+◌, ◌<◌, ◌≤◌, ◌^◌, length, All, IfOk, IsErrOf};
ghost use Rattle.elf_object.specs.Standard.{SHN_LORESERVE};
ghost use Rattle.elf_object.specs.Spelling.{spelling};
ghost use Rattle.elf_object.specs.Grammar.{IsNamed, IsAligned, IsObject};
ghost use Rattle.object_command.specs.Calls;
ghost use Rattle.object_command.specs.Object.{symbols_of, relocations_of, object_of};
ghost use Rattle.object_command.specs.Object.{HaveSymbolNames, IsObjectOf, HasLargeObject};
ghost use Rattle.object_command.specs.declared.object.ObjectError.TheVariants.{Memory};

use crate::calls::{CallSite, call_sites};
use crate::names::have_symbol_names;
use crate::sections::{push_code, push_debug, push_symbols};
use crate::symbols::link;
use elf_object::object::{Bytes, Object, Sections};
use elf_object::relocations::Relocation;
use elf_object::size::object_size;
use elf_object::symbols::{Symbol, symbol_names_size};
use elf_object::write::write_object;
use listing_text::output::Output;
use std::alloc::{AllocError, Global};
use thiserror::Error;

/// Why an output has no object.
#[derive(Clone, Copy, Debug, PartialEq, Eq, Error)]
pub enum ObjectError {
    /// A function's name, or the name of a function that is called, is empty or has a zero byte; or code has a half of
    /// a symbol's address, for which there is no relocation.
    #[error("a name can't be a symbol's")]
    SymbolName,
    /// The object would have 2^31 bytes or more.
    #[error("the object is too large")]
    TooLarge,
    /// Memory ran out.
    #[error("out of memory")]
    Memory,
}

impl From<AllocError> for ObjectError {
    ghost from_gives = { λ _ e. e ≡ Memory };

    fn from(_: AllocError) -> ObjectError {
        ObjectError::Memory
    }
}

/// The file of the object of an output. The error is `SymbolName` exactly if a function's name, or the name of a
/// function that is called, is empty or has a zero byte, or code has a half of a symbol's address, and otherwise
/// `TooLarge` exactly if the file would have 2^31 bytes or more.
pub fn object(alloc: Global, output: Output) -> Result<Bytes, ObjectError>
    ensures object { IfOk result (IsObjectOf output) }
    ensures symbol_name { IsErrOf result ObjectError.SymbolName → HaveSymbolNames output.functions → ⊥ }
    ensures too_large { IsErrOf result ObjectError.TooLarge → HasLargeObject output }
{
    let sites = call_sites(alloc, output.functions.as_slice())?;
    if !have_symbol_names(output.functions.as_slice(), sites.as_slice()) {
        return Err(ObjectError::SymbolName);
    }
    write(alloc, output, sites.as_slice())
}

/// The file of the object of an output whose names can be symbols', with its call sites.
fn write(alloc: Global, output: Output, sites: &[CallSite]) -> Result<Bytes, ObjectError>
    requires names { HaveSymbolNames output.functions }
    requires sites { sites.now ≡ Calls.call_sites output.functions }
    ensures object { IfOk result (IsObjectOf output) }
    ensures named { IsErrOf result ObjectError.SymbolName → ⊥ }
    ensures too_large { IsErrOf result ObjectError.TooLarge → HasLargeObject output }
{
    match make(alloc, output, sites) {
        Ok(object) => file(alloc, &object),
        Err(error) => Err(error),
    }
}

/// The file of an object, whose sections' names have no zero byte and whose alignments multiples of 8 meet. The error
/// `TooLarge` is that it would have 2^31 bytes or more.
fn file(alloc: Global, object: &Object) -> Result<Bytes, ObjectError>
    requires names { All IsNamed object.now.sections }
    requires alignments { All IsAligned object.now.sections }
    requires count { length object.now.sections + 2 < SHN_LORESERVE }
    ensures object { IfOk result (IsObject object.now) }
    ensures named { IsErrOf result ObjectError.SymbolName → ⊥ }
    ensures too_large { IsErrOf result ObjectError.TooLarge → 2 ^ 31 ≤ length (spelling object.now) }
{
    if object_size(object).is_none() {
        return Err(ObjectError::TooLarge);
    }
    Ok(write_object(alloc, object)?)
}

/// The object of an output, with its call sites. The error `TooLarge` is that its file would have 2^31 bytes or more.
fn make(alloc: Global, output: Output, sites: &[CallSite]) -> Result<Object, ObjectError>
    requires { sites.now ≡ Calls.call_sites output.functions }
    ensures object { IfOk result (λ o. o ≡ object_of output) }
    ensures named { IsErrOf result ObjectError.SymbolName → ⊥ }
    ensures too_large { IsErrOf result ObjectError.TooLarge → 2 ^ 31 ≤ length (spelling (object_of output)) }
{
    match link(alloc, output.functions.as_slice(), sites) {
        Ok((symbols, relocations)) => {
            linked(alloc, output, symbols.as_slice(), relocations.as_slice())
        }
        Err(error) => Err(error),
    }
}

/// The object of an output, with its symbols and relocations.
fn linked(
    alloc: Global,
    output: Output,
    symbols: &[Symbol],
    relocations: &[Relocation],
) -> Result<Object, ObjectError>
    requires symbols { symbols.now ≡ symbols_of output.functions }
    requires relocations { relocations.now ≡ relocations_of output.functions }
    ensures object { IfOk result (λ o. o ≡ object_of output) }
    ensures named { IsErrOf result ObjectError.SymbolName → ⊥ }
    ensures too_large { IsErrOf result ObjectError.TooLarge → 2 ^ 31 ≤ length (spelling (object_of output)) }
{
    if symbol_names_size(symbols).is_none() {
        return Err(ObjectError::TooLarge);
    }
    let Output {
        text,
        abbreviations,
        info,
        rows,
        loclists,
        frame: _,
        ranges: _,
        functions: _,
    } = output;
    let mut sections = Sections::new(alloc);
    push_code(alloc, &mut sections, text, relocations)?;
    push_debug(alloc, &mut sections, abbreviations, info, rows, loclists)?;
    push_symbols(alloc, &mut sections, symbols)?;
    Ok(Object { flags: 0, sections })
}
