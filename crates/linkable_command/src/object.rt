//! The object of an output that a linker places.

ghost use Rattle.std.specs.Prelude.{◌≡◌, ◌+◌, ◌<◌, ◌≤◌, ◌^◌, ◌++◌, length, All, OnOk, IfOk, IsErrOf};
ghost use Rattle.elf_linkable.specs.Linkable.{object_of, section_symbols, IsLinkableFile};
ghost use Rattle.elf_object.specs.Grammar.{IsName};
ghost use Rattle.elf_object.specs.Spelling.{spelling};
ghost use Rattle.elf_object.specs.Symbols.{LocalsFirst};
ghost use Rattle.linkable_command.specs.References.{references};
ghost use Rattle.linkable_command.specs.Symbols.{named_symbols};
ghost use Rattle.linkable_command.specs.Linkable.{output_relocations};
ghost use Rattle.linkable_command.specs.Linkable.{AreWritable, HasLargeLinkable, HaveLinkableNames};
ghost use Rattle.linkable_command.specs.Linkable.{IsLinkableObject};
ghost use Rattle.linkable_command.specs.steps.Sections.{AreFew, IsPlain};

use crate::fits::{sections_fit, symbols_fit};
use crate::names::have_linkable_names;
use crate::reference::{Reference, references};
use crate::sections::{section_count, sections};
use crate::symbols::link;
use crate::tables::DebugTables;
use elf_content::content::Relocations;
use elf_linkable::object::linkable_object;
use elf_linkable::section::{LinkableSections, Symbols, section_symbols};
use elf_object::object::Bytes;
use elf_object::size::object_size;
use elf_object::symbols::{Symbol, symbol_names_size};
use elf_object::write::write_object;
use listing_text::output::Output;
use object_command::object::ObjectError;
use object_command::symbols::MAX_SYMBOLS;
use std::alloc::{AllocError, Global};

/// The file of the object of an output that a linker places, with these location lists, and the contents of its other
/// debug sections. `flags` are those of the processor, constants `EF_RISCV_..`. The error is `SymbolName` exactly if a
/// function's name, or a name to which code refers, is empty or has a zero byte, or code refers to a constant of a
/// pool, and otherwise `TooLarge` exactly if the file would have 2^31 bytes or more.
pub fn linkable(
    alloc: Global,
    flags: u32,
    output: Output,
    lists: Bytes,
    t: &DebugTables,
) -> Result<Bytes, ObjectError>
    requires { AreWritable t.now }
    ensures object { IfOk result (IsLinkableObject flags output lists t.now) }
    ensures symbol_name { IsErrOf result ObjectError.SymbolName → HaveLinkableNames output.functions → ⊥ }
    ensures too_large { IsErrOf result ObjectError.TooLarge → HasLargeLinkable flags output lists t.now }
{
    let referred = references(alloc, output.functions.as_slice())?;
    if !have_linkable_names(output.functions.as_slice(), referred.as_slice()) {
        return Err(ObjectError::SymbolName);
    }
    write(alloc, flags, output, lists, t, referred.as_slice())
}

/// The file of an output whose names can be symbols', with its references.
fn write(
    alloc: Global,
    flags: u32,
    output: Output,
    lists: Bytes,
    t: &DebugTables,
    referred: &[Reference],
) -> Result<Bytes, ObjectError>
    requires tables { AreWritable t.now }
    requires names { HaveLinkableNames output.functions }
    requires referred { referred.now ≡ references output.functions }
    ensures object { IfOk result (IsLinkableObject flags output lists t.now) }
    ensures named { IsErrOf result ObjectError.SymbolName → ⊥ }
    ensures too_large { IsErrOf result ObjectError.TooLarge → HasLargeLinkable flags output lists t.now }
{
    let before = section_count(&t.frames);
    let linkages = t.linkages.as_slice();
    match link(
        alloc,
        before,
        linkages,
        output.functions.as_slice(),
        referred,
    ) {
        Ok((named, relocations)) => linked(alloc, flags, output, lists, t, named, relocations),
        Err(error) => Err(error),
    }
}

/// The file of an output, with the symbols of its names and its relocations.
fn linked(
    alloc: Global,
    flags: u32,
    output: Output,
    lists: Bytes,
    t: &DebugTables,
    named: Symbols,
    relocations: Relocations,
) -> Result<Bytes, ObjectError>
    requires tables { AreWritable t.now }
    requires names { HaveLinkableNames output.functions }
    requires symbols { named ≡ named_symbols t.now.linkages output.functions }
    requires relocations { relocations ≡ output_relocations output t.now }
    ensures object { IfOk result (IsLinkableObject flags output lists t.now) }
    ensures named { IsErrOf result ObjectError.SymbolName → ⊥ }
    ensures too_large { IsErrOf result ObjectError.TooLarge → HasLargeLinkable flags output lists t.now }
{
    let Output {
        text,
        abbreviations: _,
        info: _,
        rows: _,
        loclists: _,
        frame: _,
        ranges: _,
        functions: _,
    } = output;
    let sections = sections(alloc, relocations, text, lists, t)?;
    let mut symbols = section_symbols(alloc, sections.as_slice())?;
    append(&mut symbols, named)?;
    file(alloc, flags, sections, symbols.as_slice())
}

/// Appends symbols.
fn append(all: &mut Symbols, more: Symbols) -> Result<(), AllocError>
    ensures { OnOk result (all.new ≡ all.old ++ more) }
{
    for symbol in more.into_vec() {
        all.push(symbol)?;
    }
    Ok(())
}

/// The file of sections and symbols. The error `TooLarge` is that it would have 2^31 bytes or more.
fn file(
    alloc: Global,
    flags: u32,
    sections: LinkableSections,
    symbols: &[Symbol],
) -> Result<Bytes, ObjectError>
    requires few { AreFew sections }
    requires plain { All IsPlain sections }
    requires locals { LocalsFirst symbols.now }
    requires names { All (λ s. IsName s.name) symbols.now }
    ensures file { IfOk result (IsLinkableFile flags sections symbols.now) }
    ensures named { IsErrOf result ObjectError.SymbolName → ⊥ }
    ensures too_large { IsErrOf result ObjectError.TooLarge →
        2 ^ 31 ≤ length (spelling (object_of flags sections symbols.now)) }
{
    sections_fit(sections.as_slice());
    symbols_fit(symbols);
    if symbols.len() >= MAX_SYMBOLS {
        return Err(ObjectError::TooLarge);
    }
    if symbol_names_size(symbols).is_none() {
        return Err(ObjectError::TooLarge);
    }
    let object = linkable_object(alloc, flags, sections, symbols)?;
    if object_size(&object).is_none() {
        return Err(ObjectError::TooLarge);
    }
    Ok(write_object(alloc, &object)?)
}
