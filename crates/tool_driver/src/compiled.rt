//! The output texts of the commands that compile.

ghost use Rattle.std.specs.Prelude.{◌≡◌, true, false, Some, None, is_some, IfOk, IfErr};
ghost use Rattle.report_command.specs.ProgramReport.{IsReportText};
ghost use Rattle.selftest_command.specs.run_command.Source.{IsRunOfProgram};
ghost use Rattle.cli.specs.Command.{IsWithin};
ghost use Rattle.cli.specs.declared.command.Command.TheVariants as command;
ghost use Rattle.tool_driver.specs.Answer.{IsTestText};
ghost use Rattle.tool_driver.specs.steps.Ends.{RefusesToCompile, RefusesToWrite, RefusesToWriteOf};
ghost use Rattle.tool_driver.specs.Compiled.{flags_of, plan_steps, IsCompiledBy, IsPlainOutputOf, IsCompiledText};
ghost use Rattle.tool_driver.specs.Compiled.{IsListingText, IsObjectFile, IsLinkableFileOf};
ghost use Rattle.selftest_command.specs.run_command.Program.{IsOutputOf, IsCompilationOf};
ghost use Rattle.readback_strip.specs.read_proof.Read.{IsReadProgram};

use cli::command::{CompilePlan, LinkableForm, ObjectPlan, PassPipeline, RunPlan, TestPlan};
use cli::fault::Fault;
use elf_object::constants::EF_RISCV_FLOAT_ABI_DOUBLE;
use linkable_program::program::linkable_of;
use listing_text::print::{print_listing, print_output};
use mir_printer::text::Text;
use object_command::object::{ObjectError, object};
use read_metadata::read_lexer_crate::line::Lines;
use read_program::program::Program;
use report_command::report::report;
use selftest_command::run_command_crate::compile::{Compilation, compile, compile_with};
use selftest_command::run_command_crate::error::CompileError;
use selftest_command::run_command_crate::name::is_unknown;
use selftest_command::run_command_crate::run::run;
use selftest_command::text::self_test;
use std::alloc::Global;

/// The text of `compile`: the sections, `.debug_frame` and `.debug_rnglists` among them if they are asked for, and the
/// listing of a program after passes.
pub fn compiled_text(alloc: Global, program: &Program, asked: &CompilePlan) -> Result<Text, Fault>
    requires { IsReadProgram program.now }
    ensures ok { IfOk result (IsCompiledText asked.now.frame asked.now.inline (plan_steps asked.now.plan) program.now) }
    ensures err { IfErr result (RefusesToWrite (command.Compile asked.now) program.now) }
{
    let compilation = compilation_asked(alloc, program, asked)?;
    Ok(print_output(alloc, &compilation.output)?)
}

/// The text of `listing`: the listing alone of a program after passes.
pub fn listing_text(alloc: Global, program: &Program, plan: &PassPipeline) -> Result<Text, Fault>
    requires { IsReadProgram program.now }
    ensures ok { IfOk result (IsListingText (plan_steps plan.now) program.now) }
    ensures err { IfErr result (RefusesToCompile plan.now program.now) }
{
    let compilation = compilation(alloc, program, plan)?;
    Ok(print_listing(alloc, compilation.output.functions.as_slice())?)
}

/// The text of `report`: the report of a program after passes.
pub fn report_text(alloc: Global, program: &Program, plan: &PassPipeline) -> Result<Text, Fault>
    requires { IsReadProgram program.now }
    ensures ok { IfOk result (IsReportText plan.now.reserve plan.now.passes program.now) }
    ensures err { IfErr result (RefusesToCompile plan.now program.now) }
{
    let compilation = compilation(alloc, program, plan)?;
    Ok(report(alloc, &compilation)?)
}

/// The bytes of `object` without `--linkable`: the object of a program after passes.
pub fn object_text(alloc: Global, program: &Program, asked: &ObjectPlan) -> Result<Text, Fault>
    requires read { IsReadProgram program.now }
    requires form { asked.now.form ≡ None }
    ensures ok { IfOk result (IsObjectFile (plan_steps asked.now.plan) program.now) }
    ensures err { IfErr result (RefusesToWrite (command.Object asked.now) program.now) }
{
    match compilation(alloc, program, &asked.plan) {
        Ok(compilation) => object_in(alloc, program, asked, compilation),
        Err(fault) => Err(fault),
    }
}

/// The object of a compiled program.
fn object_in(
    alloc: Global,
    _program: &Program,
    _asked: &ObjectPlan,
    compilation: Compilation,
) -> Result<Text, Fault>
    requires form { _asked.now.form ≡ None }
    requires output { IsPlainOutputOf (plan_steps _asked.now.plan) _program.now compilation.output }
    ensures ok { IfOk result (IsObjectFile (plan_steps _asked.now.plan) _program.now) }
    ensures err { IfErr result (RefusesToWrite (command.Object _asked.now) _program.now) }
{
    let Compilation {
        output,
        functions: _,
    } = compilation;
    match object(alloc, output) {
        Ok(bytes) => Ok(bytes),
        Err(ObjectError::SymbolName) => Err(Fault::SymbolName),
        Err(ObjectError::TooLarge) => Err(Fault::SectionTooLarge),
        Err(ObjectError::Memory) => Err(Fault::Memory),
    }
}

/// The bytes of `object` with `--linkable`: the object that a linker places of a program after passes, whose IR block
/// has these lines.
pub fn linkable_text(
    alloc: Global,
    lines: &Lines,
    program: &Program,
    asked: &ObjectPlan,
    form: LinkableForm,
) -> Result<Text, Fault>
    requires read { IsReadProgram program.now }
    requires form { asked.now.form ≡ Some form }
    ensures ok { IfOk result (IsLinkableFileOf form asked.now.plan lines.now program.now) }
    ensures err { IfErr result (RefusesToWriteOf (command.Object asked.now) lines.now program.now) }
{
    match compilation(alloc, program, &asked.plan) {
        Ok(compilation) => linkable_in(alloc, lines, program, asked, form, compilation),
        Err(fault) => Err(fault),
    }
}

/// The object of a compiled program that a linker places.
fn linkable_in(
    alloc: Global,
    lines: &Lines,
    program: &Program,
    asked: &ObjectPlan,
    form: LinkableForm,
    compilation: Compilation,
) -> Result<Text, Fault>
    requires read { IsReadProgram program.now }
    requires form { asked.now.form ≡ Some form }
    requires compilation { IsCompiledBy asked.now.plan program.now compilation }
    ensures ok { IfOk result (IsLinkableFileOf form asked.now.plan lines.now program.now) }
    ensures err { IfErr result (RefusesToWriteOf (command.Object asked.now) lines.now program.now) }
{
    match linkable_of(
        alloc,
        lines,
        program,
        compilation,
        form.frame,
        flags_of(form),
        asked.plan.passes.as_slice(),
        asked.plan.reserve.as_slice(),
    ) {
        Ok(bytes) => Ok(bytes),
        Err(ObjectError::SymbolName) => Err(Fault::SymbolName),
        Err(ObjectError::TooLarge) => Err(Fault::SectionTooLarge),
        Err(ObjectError::Memory) => Err(Fault::Memory),
    }
}

/// The flags of the processor of an object that a linker places.
fn flags_of(form: LinkableForm) -> u32
    ensures { result ≡ flags_of form }
{
    if form.float_abi {
        EF_RISCV_FLOAT_ABI_DOUBLE
    } else {
        0
    }
}

/// The text of `run`: the requested run of one of a program's functions after passes.
pub fn run_text(alloc: Global, program: &Program, asked: RunPlan) -> Result<Text, Fault>
    requires { IsReadProgram program.now }
    ensures ok { IfOk result (IsRunOfProgram (plan_steps asked.plan) program.now asked.name asked.steps
        asked.symbols asked.arguments asked.answers) }
    ensures err { IfErr result (RefusesToWrite (command.Run asked) program.now) }
{
    if is_unknown(program.functions.as_slice(), asked.name.as_slice()) {
        return Err(Fault::UnknownFunction);
    }
    match compilation(alloc, program, &asked.plan) {
        Ok(compilation) => run_of(alloc, program, &compilation, asked),
        Err(fault) => Err(fault),
    }
}

/// The text of the requested run of a compiled program.
fn run_of(
    alloc: Global,
    _program: &Program,
    compilation: &Compilation,
    asked: RunPlan,
) -> Result<Text, Fault>
    requires output { IsOutputOf (plan_steps asked.plan) _program.now compilation.now.output }
    requires compilation { IsCompilationOf asked.plan.reserve asked.plan.passes _program.now compilation.now }
    ensures ok { IfOk result (IsRunOfProgram (plan_steps asked.plan) _program.now asked.name asked.steps
        asked.symbols asked.arguments asked.answers) }
    ensures err { IfErr result (RefusesToWrite (command.Run asked) _program.now) }
{
    let RunPlan {
        name,
        steps,
        plan: _plan,
        arguments,
        answers,
        symbols,
    } = asked;
    match run(
        alloc,
        compilation,
        name.as_slice(),
        steps,
        symbols,
        arguments.as_slice(),
        answers,
    ) {
        Ok(Some(text)) => Ok(text),
        Ok(None) => Err(Fault::UnknownFunction),
        Err(_) => Err(Fault::Memory),
    }
}

/// The text of `selftest`: the requested self-test. The error is always `Memory`, also if its function takes 2^64 - 1
/// steps before it reaches a line of its machine code: no generated function has a virtual register, or a frame or a
/// section that is too large.
pub fn test_text(alloc: Global, asked: &TestPlan) -> Result<Text, Fault>
    requires { IsWithin asked.now.function }
    ensures ok { IfOk result (IsTestText asked.now) }
    ensures err { IfErr result (λ f. f ≡ Fault.Memory) }
{
    match self_test(
        alloc,
        asked.function.number,
        asked.function.blocks,
        asked.plan.passes.as_slice(),
        asked.plan.reserve.as_slice(),
    ) {
        Ok(Some(text)) => Ok(text),
        Ok(None) => Err(Fault::Memory),
        Err(error) => match error {
            CompileError::NoRegister => Err(Fault::NoRegister),
            CompileError::FrameTooLarge => Err(Fault::FrameTooLarge),
            CompileError::SectionTooLarge => Err(Fault::SectionTooLarge),
            CompileError::Memory => Err(Fault::Memory),
        },
    }
}

/// A program compiled after passes.
fn compilation(alloc: Global, program: &Program, plan: &PassPipeline) -> Result<Compilation, Fault>
    requires { IsReadProgram program.now }
    ensures output { IfOk result (λ c. IsOutputOf (plan_steps plan.now) program.now c.output) }
    ensures compilation { IfOk result (IsCompilationOf plan.now.reserve plan.now.passes program.now) }
    ensures no_frame_section { IfOk result (λ c. is_some c.output.frame ≡ false) }
    ensures no_ranges_section { IfOk result (λ c. is_some c.output.ranges ≡ false) }
    ensures err { IfErr result (RefusesToCompile plan.now program.now) }
{
    match compile(
        alloc,
        program,
        plan.passes.as_slice(),
        plan.reserve.as_slice(),
    ) {
        Ok(compilation) => Ok(compilation),
        Err(CompileError::NoRegister) => Err(Fault::NoRegister),
        Err(CompileError::FrameTooLarge) => Err(Fault::FrameTooLarge),
        Err(CompileError::SectionTooLarge) => Err(Fault::SectionTooLarge),
        Err(CompileError::Memory) => Err(Fault::Memory),
    }
}

/// A program compiled after passes, with the sections that are asked for.
fn compilation_asked(
    alloc: Global,
    program: &Program,
    asked: &CompilePlan,
) -> Result<Compilation, Fault>
    requires { IsReadProgram program.now }
    ensures output { IfOk result (λ c. IsOutputOf (plan_steps asked.now.plan) program.now c.output) }
    ensures frame_section { IfOk result (λ c. is_some c.output.frame ≡ asked.now.frame) }
    ensures ranges_section { IfOk result (λ c. is_some c.output.ranges ≡ asked.now.inline) }
    ensures err { IfErr result (RefusesToWrite (command.Compile asked.now) program.now) }
{
    match compile_with(
        alloc,
        program,
        asked.frame,
        asked.inline,
        asked.plan.passes.as_slice(),
        asked.plan.reserve.as_slice(),
    ) {
        Ok(compilation) => Ok(compilation),
        Err(error) => match error {
            CompileError::NoRegister => Err(Fault::NoRegister),
            CompileError::FrameTooLarge => Err(Fault::FrameTooLarge),
            CompileError::SectionTooLarge => Err(Fault::SectionTooLarge),
            CompileError::Memory => Err(Fault::Memory),
        },
    }
}
