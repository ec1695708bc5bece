//! Compilation of a program to its output.

ghost use Rattle.std.specs.Prelude.{◌≡◌, ◌-◌, ◌^◌, ◌<◌, ◌≤◌, ◌⊎◌, [], true, false, is_some, All, IfOk, IfSome, IsErrOf};
ghost use Rattle.std.specs.Prelude.{length, map};
ghost use Rattle.pass_list.specs.Names.{AreDistinct};
ghost use Rattle.compile_function.specs.Passed.{steps_of};
ghost use Rattle.compile_program.specs.Program.{IsOutputOf, IsCompilationOf, HasLargeFrame, HasLargeSection};
ghost use Rattle.compile_program.specs.Program.{HaveRegisters, HasVirtualRegister, HasLargeFrameSection};
ghost use Rattle.compile_program.specs.Program.{HasLargeInlinedSection};
ghost use Rattle.compile_program.specs.steps.Described.{IsDescription, IsLargeDescription};
ghost use Rattle.compile_function.specs.dwarf_line_table.Program.{MAX_FUNCTIONS};
ghost use Rattle.compile_function.specs.dwarf_unit.Unit.{program_variables};
ghost use Rattle.compile_program.specs.steps.CompilationState.{AreMade};
ghost use Rattle.dwarf_base.specs.Limits.{SECTION_LIMIT};
ghost use Rattle.compile_function.specs.dwarf_sections.Frame.{IsOfFunction, IsFrameSection, IsLargeFrameSection};
ghost use Rattle.compile_function.specs.read_proof.Read.{IsReadProgram};

use crate::function::made_of;
use compile_function::compiled_function::{CompiledFunction, CompiledFunctions};
use compile_function::dwarf_line_table_crate::source_and_code::SourceAndCode;
use compile_function::dwarf_sections_crate::inlined::{InlinedSections, inlined};
use compile_function::dwarf_sections_crate::sections::{SectionError, frame, info, loclists, rows};
use compile_function::emit::EmittedFunctions;
use compile_function::error::CompileError;
use compile_function::lists::all_lists;
use compile_function::read_program_crate::closing::Parsed;
use compile_function::read_program_crate::program::Program;
use dwarf_info::abbreviation::{write_abbrev, write_inlined_abbrev};
use listing_text::output::{Bytes, Output};
use pass_list::kind::PassKind;
use read_metadata::metadata::Metadata;
use rv64_instr::reg::Reg;
use std::alloc::{AllocError, Global};

/// A compiled program.
#[derive(Drop)]
pub struct Compilation {
    /// Its sections and its listing.
    pub output: Output,
    /// What is made of each of its functions, in their order.
    pub functions: CompiledFunctions,
}

/// Compiles a program that was read. Each function is run through linear scan and the passes and its frame added, and
/// they are laid out from address 0. The location lists are those of the variables of the source function. `reserve` is
/// the registers that may be spilled. The error is `NoRegister` if linear scan leaves a virtual register in some
/// function, otherwise `FrameTooLarge` if some function's frame would have more than 2,032 bytes, and otherwise
/// `SectionTooLarge`, only if a section of functions that the passes may make would have 2^31 bytes or more.
/// The sections `.debug_frame` and `.debug_rnglists` aren't among the sections.
pub fn compile(
    alloc: Global,
    program: &Program,
    passes: &[PassKind],
    reserve: &[Reg],
) -> Result<Compilation, CompileError>
    requires read { IsReadProgram program.now }
    requires distinct { AreDistinct passes.now }
    ensures output { IfOk result (λ c. IsOutputOf (steps_of reserve.now passes.now) program.now c.output) }
    ensures compilation { IfOk result (IsCompilationOf reserve.now passes.now program.now) }
    ensures no_frame_section { IfOk result (λ c. is_some c.output.frame ≡ false) }
    ensures no_ranges_section { IfOk result (λ c. is_some c.output.ranges ≡ false) }
    ensures no_register { IsErrOf result CompileError.NoRegister →
        HasVirtualRegister reserve.now program.now.functions }
    ensures frame_too_large { IsErrOf result CompileError.FrameTooLarge →
        HasLargeFrame (steps_of reserve.now passes.now) program.now.functions }
    ensures registers_first { IsErrOf result CompileError.FrameTooLarge →
        HaveRegisters reserve.now program.now.functions }
    ensures section_too_large { IsErrOf result CompileError.SectionTooLarge →
        HasLargeSection (steps_of reserve.now passes.now) program.now }
{
    let made = made_of(
        alloc,
        &program.meta,
        program.functions.as_slice(),
        passes,
        reserve,
    )?;
    compiled(alloc, program, made, false, false, passes, reserve)
}

/// Compiles a program likewise, with the section `.debug_frame` and with inlined functions, if they are asked for.
/// Their sections may be those that are too large.
pub fn compile_with(
    alloc: Global,
    program: &Program,
    with_frame: bool,
    with_inline: bool,
    passes: &[PassKind],
    reserve: &[Reg],
) -> Result<Compilation, CompileError>
    requires read { IsReadProgram program.now }
    requires distinct { AreDistinct passes.now }
    ensures output { IfOk result (λ c. IsOutputOf (steps_of reserve.now passes.now) program.now c.output) }
    ensures frame_section { IfOk result (λ c. is_some c.output.frame ≡ with_frame) }
    ensures ranges_section { IfOk result (λ c. is_some c.output.ranges ≡ with_inline) }
    ensures no_register { IsErrOf result CompileError.NoRegister →
        HasVirtualRegister reserve.now program.now.functions }
    ensures frame_too_large { IsErrOf result CompileError.FrameTooLarge →
        HasLargeFrame (steps_of reserve.now passes.now) program.now.functions }
    ensures registers_first { IsErrOf result CompileError.FrameTooLarge →
        HaveRegisters reserve.now program.now.functions }
    ensures section_too_large { IsErrOf result CompileError.SectionTooLarge →
        HasLargeSection (steps_of reserve.now passes.now) program.now
        ⊎ (((with_frame ≡ true) × HasLargeFrameSection (steps_of reserve.now passes.now) program.now)
        ⊎ ((with_inline ≡ true) × HasLargeInlinedSection (steps_of reserve.now passes.now) program.now)) }
{
    let made = made_of(
        alloc,
        &program.meta,
        program.functions.as_slice(),
        passes,
        reserve,
    )?;
    compiled(
        alloc,
        program,
        made,
        with_frame,
        with_inline,
        passes,
        reserve,
    )
}

/// Makes all sections of a program, of its functions as compiled after passes, with `.debug_frame` and with inlined
/// functions if they are asked for.
#[tactic(auto, using(crate::proofs::Compiled::emitted_section))]
fn compiled(
    alloc: Global,
    program: &Program,
    made: EmittedFunctions,
    with_frame: bool,
    with_inline: bool,
    _passes: &[PassKind],
    _reserve: &[Reg],
) -> Result<Compilation, CompileError>
    requires read { IsReadProgram program.now }
    requires made { AreMade program.now.meta _reserve.now _passes.now program.now.functions made }
    ensures output { IfOk result (λ c. IsOutputOf (steps_of _reserve.now _passes.now) program.now c.output) }
    ensures compilation { IfOk result (IsCompilationOf _reserve.now _passes.now program.now) }
    ensures frame_section { IfOk result (λ c. is_some c.output.frame ≡ with_frame) }
    ensures ranges_section { IfOk result (λ c. is_some c.output.ranges ≡ with_inline) }
    ensures registers { IsErrOf result CompileError.NoRegister → ⊥ }
    ensures no_frame { IsErrOf result CompileError.FrameTooLarge → ⊥ }
    ensures section_too_large { IsErrOf result CompileError.SectionTooLarge →
        HasLargeSection (steps_of _reserve.now _passes.now) program.now
        ⊎ (((with_frame ≡ true) × HasLargeFrameSection (steps_of _reserve.now _passes.now) program.now)
        ⊎ ((with_inline ≡ true) × HasLargeInlinedSection (steps_of _reserve.now _passes.now) program.now)) }
{
    let meta = &program.meta;
    let EmittedFunctions {
        text,
        list_count: _,
        listings,
        functions,
    } = made;
    let output = {
        let compiled = with_code(alloc, program.functions.as_slice(), functions.as_slice())?;
        let compiled = compiled.as_slice();
        let lists = all_lists(alloc, functions.as_slice())?;
        let described = describe(alloc, compiled, meta, text.len() as u32, with_inline)?;
        let Description {
            abbreviations,
            info,
            rows,
            ranges,
        } = described;
        Output {
            info,
            rows,
            ranges,
            loclists: loclists(alloc, &lists)?,
            frame: frame_if(alloc, compiled, with_frame)?,
            abbreviations,
            text,
            functions: listings,
        }
    };
    Ok(Compilation { output, functions })
}

/// The sections that describe functions and their lines.
#[derive(Debug, Drop)]
pub struct Description {
    /// `.debug_abbrev`.
    pub abbreviations: Bytes,
    /// `.debug_info`.
    pub info: Bytes,
    /// `.debug_line`.
    pub rows: Bytes,
    /// `.debug_rnglists`, if inlined functions are asked for.
    pub ranges: Option<Bytes>,
}

/// The sections that describe functions, with `text_len` bytes of code, with inlined functions if they are asked for.
fn describe(
    alloc: Global,
    functions: &[SourceAndCode],
    meta: &Metadata,
    text_len: u32,
    with_inline: bool,
) -> Result<Description, SectionError>
    requires variables { length (program_variables functions.now) < 2 ^ 32 - 2 }
    requires functions { length functions.now ≤ MAX_FUNCTIONS }
    ensures present { IfOk result (λ d. is_some d.ranges ≡ with_inline) }
    ensures described { IfOk result (IsDescription meta.now text_len functions.now) }
    ensures info_small { IfOk result (λ d. length d.info < SECTION_LIMIT) }
    ensures rows_small { IfOk result (λ d. length d.rows < SECTION_LIMIT) }
    ensures ranges_small { IfOk result (λ d. IfSome d.ranges (λ bytes. length bytes < SECTION_LIMIT)) }
    ensures large { IsErrOf result SectionError.TooLarge →
        IsLargeDescription with_inline meta.now text_len functions.now }
{
    if with_inline {
        return describe_inlined(alloc, functions, meta, text_len);
    }
    describe_plain(alloc, functions, meta, text_len)
}

/// The sections with inlined functions.
fn describe_inlined(
    alloc: Global,
    functions: &[SourceAndCode],
    meta: &Metadata,
    text_len: u32,
) -> Result<Description, SectionError>
    requires variables { length (program_variables functions.now) < 2 ^ 32 - 2 }
    requires functions { length functions.now ≤ MAX_FUNCTIONS }
    ensures present { IfOk result (λ d. is_some d.ranges ≡ true) }
    ensures described { IfOk result (IsDescription meta.now text_len functions.now) }
    ensures info_small { IfOk result (λ d. length d.info < SECTION_LIMIT) }
    ensures rows_small { IfOk result (λ d. length d.rows < SECTION_LIMIT) }
    ensures ranges_small { IfOk result (λ d. IfSome d.ranges (λ bytes. length bytes < SECTION_LIMIT)) }
    ensures large { IsErrOf result SectionError.TooLarge →
        IsLargeDescription true meta.now text_len functions.now }
{
    let InlinedSections { info, rows, ranges } = inlined(alloc, functions, meta, text_len)?;
    Ok(Description {
        abbreviations: write_inlined_abbrev(alloc)?,
        info,
        rows,
        ranges: Some(ranges),
    })
}

/// The sections without inlined functions.
fn describe_plain(
    alloc: Global,
    functions: &[SourceAndCode],
    meta: &Metadata,
    text_len: u32,
) -> Result<Description, SectionError>
    requires variables { length (program_variables functions.now) < 2 ^ 32 - 2 }
    requires functions { length functions.now ≤ MAX_FUNCTIONS }
    ensures present { IfOk result (λ d. is_some d.ranges ≡ false) }
    ensures described { IfOk result (IsDescription meta.now text_len functions.now) }
    ensures info_small { IfOk result (λ d. length d.info < SECTION_LIMIT) }
    ensures rows_small { IfOk result (λ d. length d.rows < SECTION_LIMIT) }
    ensures ranges_small { IfOk result (λ d. IfSome d.ranges (λ bytes. length bytes < SECTION_LIMIT)) }
    ensures large { IsErrOf result SectionError.TooLarge →
        IsLargeDescription false meta.now text_len functions.now }
{
    Ok(Description {
        info: info(alloc, functions, meta, text_len)?,
        rows: rows(alloc, functions, meta)?,
        abbreviations: write_abbrev(alloc)?,
        ranges: None,
    })
}

/// The section `.debug_frame` of functions, if it is asked for.
fn frame_if(
    alloc: Global,
    functions: &[SourceAndCode],
    with_frame: bool,
) -> Result<Option<Bytes>, SectionError>
    requires { All (λ c. IsOfFunction c.code.now) functions.now }
    ensures present { IfOk result (λ o. is_some o ≡ with_frame) }
    ensures section { IfOk result (λ o. IfSome o (IsFrameSection [] (map (λ c. c.code.now) functions.now))) }
    ensures small { IfOk result (λ o. IfSome o (λ bytes. length bytes < SECTION_LIMIT)) }
    ensures large { IsErrOf result SectionError.TooLarge →
        (with_frame ≡ true) × IsLargeFrameSection [] (map (λ c. c.code.now) functions.now) }
{
    if with_frame {
        Ok(Some(frame(alloc, functions)?))
    } else {
        Ok(None)
    }
}

/// Pairs functions with their machine code.
pub fn with_code<'a>(
    alloc: Global,
    sources: &'a [Parsed],
    functions: &'a [CompiledFunction],
) -> Result<Vec<SourceAndCode<'a>>, AllocError>
    requires { length sources.now ≡ length functions.now }
    ensures sources { IfOk result (λ compiled.
        map (λ c. c.source.now) compiled.items ≡ map (λ p. p.func) sources.now) }
    ensures codes { IfOk result (λ compiled.
        map (λ c. c.code.now) compiled.items ≡ map (λ f. f.code) functions.now) }
{
    let mut compiled = Vec::new(alloc);
    for index in 0..sources.len() {
        compiled.push(SourceAndCode {
            source: &sources[index].func,
            code: &functions[index].code,
        })?;
    }
    Ok(compiled)
}
