//! The text of a self-test.

ghost use Rattle.std.specs.Prelude.{◌<◌, ◌≤◌, [], All, IfNone, IfOk, IfSome, IsErrOf, length};
ghost use Rattle.dwarf_loclists.specs.Ranges.{Ascend, ArePlaces};
ghost use Rattle.selftest_proof.specs.Together.{RunsLong};
ghost use Rattle.gen_program.specs.Program.{generated_program};
ghost use Rattle.mir_func.specs.Resolve.{resolve};
ghost use Rattle.gen_function.specs.Generator.{generated};
ghost use Rattle.gen_program.specs.read_program.declared.closing.Parsed.{Parsed};
ghost use Rattle.run_command.specs.Program.{CompiledFunction};
ghost use Rattle.sem_interpreter.specs.StandsFor.{AreCounted};
ghost use Rattle.pass_list.specs.Names.{AreDistinct};
ghost use Rattle.run_command.specs.Program.{HasVirtualRegister, HasLargeFrame, HasLargeSection, steps_of};
ghost use Rattle.selftest_command.specs.Tested.{IsSelfTestOf};
ghost use Rattle.selftest_command.specs.steps.First.{TestsFirst, FirstGoesApart};

use gen_program::program::generated_program;
use gen_program::read_program_crate::program::Program;
use mir_printer::text::Text;
use pass_list::kind::PassKind;
use run_command::compile::{Compilation, compile};
use run_command::dwarf_unit_crate::variables::variables;
use run_command::error::CompileError;
use rv64_instr::reg::Reg;
use selftest_proof::selftest_count_crate::text::self_test_text;
use std::alloc::{AllocError, Global};

/// The text of a self-test of the function that is generated from a number, with `blocks` blocks: it is compiled with
/// passes, and its machine code runs in lockstep with it for at most 10,000 steps. It is `None` only if the function
/// makes 2^64 - 1 steps or more meanwhile.
#[tactic(auto, using(crate::proofs::Joined::joined))]
pub fn self_test(
    alloc: Global,
    number: u32,
    blocks: u32,
    passes: &[PassKind],
    reserve: &[Reg],
) -> Result<Option<Text>, CompileError>
    requires number { number < 65537 }
    requires some { 1 ≤ blocks }
    requires few { blocks ≤ 512 }
    requires distinct { AreDistinct passes.now }
    ensures text { IfOk result (λ o.
        IfSome o (IsSelfTestOf reserve.now passes.now number blocks)) }
    ensures long { IfOk result (λ o. IfNone o (RunsLong (generated number blocks) (resolve []))) }
    ensures no_register { IsErrOf result CompileError.NoRegister →
        HasVirtualRegister reserve.now (generated_program number blocks).functions }
    ensures frame_too_large { IsErrOf result CompileError.FrameTooLarge →
        HasLargeFrame (steps_of reserve.now passes.now) (generated_program number blocks).functions }
    ensures section_too_large { IsErrOf result CompileError.SectionTooLarge →
        HasLargeSection (steps_of reserve.now passes.now) (generated_program number blocks) }
{
    let program = generated_program(alloc, number, blocks)?;
    let compilation = compile(alloc, &program, passes, reserve)?;
    let text = first_tested(alloc, &program, &compilation)?;
    Ok(text)
}

/// The text of a self-test of a program's first function.
fn first_tested(
    alloc: Global,
    program: &Program,
    compilation: &Compilation,
) -> Result<Option<Text>, AllocError>
    requires functions { 0 < length program.now.functions }
    requires compiled { 0 < length compilation.now.functions }
    requires counted { All (λ (p : Parsed). AreCounted p.func.blocks) program.now.functions }
    requires readable { All (λ (f : CompiledFunction). All (λ ranges. Ascend ranges × ArePlaces ranges) f.lists)
        compilation.now.functions }
    ensures text { IfOk result (λ o. IfSome o (TestsFirst program.now compilation.now)) }
    ensures apart { IfOk result (λ o. IfNone o (FirstGoesApart program.now compilation.now)) }
{
    let source = &program.functions.as_slice()[0];
    let function = &compilation.functions.as_slice()[0];
    let parts = variables(alloc, source.func.blocks.as_slice())?;
    self_test_text(
        alloc,
        &source.func,
        &source.subs,
        &function.code,
        &function.lists,
        parts.as_slice(),
    )
}
