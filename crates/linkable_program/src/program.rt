//! The object of a program that was compiled.

ghost use Rattle.std.specs.Prelude.{◌≡◌, ◌<◌, ◌≤◌, ◌^◌, length, All, IfOk, IsErrOf};
ghost use Rattle.compile_program.specs.Program.{IsCompilationOf};
ghost use Rattle.compile_program.specs.read_proof.Read.{IsReadProgram};
ghost use Rattle.linkable_command.specs.Linkable.{HaveLinkableNames};
ghost use Rattle.dwarf_base.specs.Limits.{SECTION_LIMIT};
ghost use Rattle.dwarf_loclists.specs.Ranges.{ArePlaces, Ascend};
ghost use Rattle.sized_lists.specs.Grammar.{IsSizedSection};
ghost use Rattle.sized_lists.specs.Sized;
ghost use Rattle.sized_lists.specs.Spelling.{spelling as lists_spelling};
ghost use Rattle.linkable_program.specs.Program.{AreTablesOf, AreTablesOfLarge, AreListsOf, AreListsOfLarge};
ghost use Rattle.linkable_program.specs.Program.{AreListSizesOf};
ghost use Rattle.linkable_program.specs.Program.{IsLinkableLarge, IsLinkableOf};

use crate::sizes::sizes;
use crate::tables::tables;
use compile_program::compile::{Compilation, with_code};
use compile_program::read_program_crate::program::Program;
use dwarf_loclists::range::RangeLists;
use elf_object::object::Bytes;
use kept_lists::lists::all_kept_lists;
use linkable_command::object::linkable;
use linkable_command::tables::DebugTables;
use object_command::object::ObjectError;
use pass_list::kind::PassKind;
use read_debug_nodes::metadata::read_debug_metadata;
use read_metadata::read_lexer_crate::line::Lines;
use rv64_instr::reg::Reg;
use sized_lists::list::sized;
use sized_lists::section::write_sized_lists;
use std::alloc::{AllocError, Global};

/// The file of the object that a linker places of a program, whose IR block has these lines, and which was compiled
/// after these passes with registers that may be spilled, with `.debug_frame` if it is asked for. `flags` are those of the processor, constants
/// `EF_RISCV_..`. The error is `SymbolName` only if a function's name, or a name to which code refers, can't be a
/// symbol's, and `TooLarge` only if a section or the file would have 2^31 bytes or more.
pub fn linkable_of(
    alloc: Global,
    lines: &Lines,
    program: &Program,
    compilation: Compilation,
    with_frame: bool,
    flags: u32,
    _passes: &[PassKind],
    _reserve: &[Reg],
) -> Result<Bytes, ObjectError>
    requires read { IsReadProgram program.now }
    requires compilation { IsCompilationOf _reserve.now _passes.now program.now compilation }
    ensures object { IfOk result (IsLinkableOf lines.now program.now compilation with_frame flags) }
    ensures symbol_name { IsErrOf result ObjectError.SymbolName →
        HaveLinkableNames compilation.output.functions → ⊥ }
    ensures large { IsErrOf result ObjectError.TooLarge →
        IsLinkableLarge lines.now program.now compilation with_frame flags }
{
    match compiled_tables(
        alloc,
        lines,
        program,
        &compilation,
        with_frame,
        _passes,
        _reserve,
    ) {
        Ok(tables) => with_tables(
            alloc,
            lines,
            program,
            compilation,
            with_frame,
            flags,
            &tables,
            _passes,
            _reserve,
        ),
        Err(error) => Err(error),
    }
}

/// The file of the object of a compiled program with these contents of debug sections.
fn with_tables(
    alloc: Global,
    lines: &Lines,
    program: &Program,
    compilation: Compilation,
    with_frame: bool,
    flags: u32,
    tables: &DebugTables,
    _passes: &[PassKind],
    _reserve: &[Reg],
) -> Result<Bytes, ObjectError>
    requires read { IsReadProgram program.now }
    requires compilation { IsCompilationOf _reserve.now _passes.now program.now compilation }
    requires tables { AreTablesOf lines.now program.now compilation with_frame tables.now }
    ensures object { IfOk result (IsLinkableOf lines.now program.now compilation with_frame flags) }
    ensures symbol_name { IsErrOf result ObjectError.SymbolName →
        HaveLinkableNames compilation.output.functions → ⊥ }
    ensures large { IsErrOf result ObjectError.TooLarge →
        IsLinkableLarge lines.now program.now compilation with_frame flags }
{
    match lists(
        alloc,
        lines,
        program,
        &compilation,
        with_frame,
        _passes,
        _reserve,
    ) {
        Ok(lists) => {
            let Compilation {
                output,
                functions: _,
            } = compilation;
            linkable(alloc, flags, output, lists, tables)
        }
        Err(error) => Err(error),
    }
}

/// The contents of the debug sections of a compiled program.
fn compiled_tables(
    alloc: Global,
    lines: &Lines,
    program: &Program,
    compilation: &Compilation,
    with_frame: bool,
    _passes: &[PassKind],
    _reserve: &[Reg],
) -> Result<DebugTables, ObjectError>
    requires read { IsReadProgram program.now }
    requires compilation { IsCompilationOf _reserve.now _passes.now program.now compilation.now }
    ensures tables { IfOk result (AreTablesOf lines.now program.now compilation.now with_frame) }
    ensures named { IsErrOf result ObjectError.SymbolName → ⊥ }
    ensures large { IsErrOf result ObjectError.TooLarge → AreTablesOfLarge lines.now program.now compilation.now with_frame }
{
    let compiled = with_code(
        alloc,
        program.functions.as_slice(),
        compilation.functions.as_slice(),
    )?;
    let text_len = compilation.output.text.len() as u32;
    tables(
        alloc,
        lines,
        compiled.as_slice(),
        &program.meta,
        text_len,
        with_frame,
    )
}

/// The location lists of a compiled program that are true in every frame. The error `TooLarge` is that they would have
/// 2^31 bytes or more.
fn lists(
    alloc: Global,
    lines: &Lines,
    program: &Program,
    compilation: &Compilation,
    with_frame: bool,
    _passes: &[PassKind],
    _reserve: &[Reg],
) -> Result<Bytes, ObjectError>
    requires read { IsReadProgram program.now }
    requires compilation { IsCompilationOf _reserve.now _passes.now program.now compilation.now }
    ensures lists { IfOk result (AreListsOf lines.now program.now compilation.now with_frame) }
    ensures named { IsErrOf result ObjectError.SymbolName → ⊥ }
    ensures large { IsErrOf result ObjectError.TooLarge → AreListsOfLarge lines.now program.now compilation.now with_frame }
{
    let lists = all_kept_lists(
        alloc,
        compilation.functions.as_slice(),
        compilation.output.functions.as_slice(),
    )?;
    let count = lists.len();
    let sizes = compiled_sizes(
        alloc,
        lines,
        program,
        compilation,
        with_frame,
        count,
        _passes,
        _reserve,
    )?;
    list_section(alloc, lists, sizes.as_slice())
}

/// The sizes of the variables of a compiled program, by the numbers of their location lists, of which there are so many.
/// The error is out of memory.
fn compiled_sizes(
    alloc: Global,
    lines: &Lines,
    program: &Program,
    compilation: &Compilation,
    with_frame: bool,
    count: usize,
    _passes: &[PassKind],
    _reserve: &[Reg],
) -> Result<Vec<u64>, AllocError>
    requires read { IsReadProgram program.now }
    requires compilation { IsCompilationOf _reserve.now _passes.now program.now compilation.now }
    ensures { IfOk result (λ sizes. AreListSizesOf lines.now program.now compilation.now with_frame count sizes.items) }
{
    let compiled = with_code(
        alloc,
        program.functions.as_slice(),
        compilation.functions.as_slice(),
    )?;
    let code_len = compilation.output.text.len() as u32;
    let debug = read_debug_metadata(alloc, lines)?;
    let sizes = sizes(
        alloc,
        &debug,
        compiled.as_slice(),
        &program.meta,
        code_len,
        with_frame,
        count,
    )?;
    Ok(sizes)
}

/// The section of location lists with the sizes of their variables. The error `TooLarge` is that it would have 2^31
/// bytes or more.
fn list_section(alloc: Global, lists: RangeLists, sizes: &[u64]) -> Result<Bytes, ObjectError>
    requires ascend { All Ascend lists }
    requires places { All ArePlaces lists }
    requires small { All (λ n. n < 2 ^ 61) sizes.now }
    ensures section { IfOk result (λ bytes. IsSizedSection bytes (Sized.sized sizes.now 0 lists)) }
    ensures named { IsErrOf result ObjectError.SymbolName → ⊥ }
    ensures large { IsErrOf result ObjectError.TooLarge →
        SECTION_LIMIT ≤ length (lists_spelling (Sized.sized sizes.now 0 lists)) }
{
    let sized = sized(alloc, lists, sizes)?;
    let written = write_sized_lists(alloc, sized.as_slice())?;
    match written {
        Some(bytes) => Ok(bytes),
        None => Err(ObjectError::TooLarge),
    }
}
