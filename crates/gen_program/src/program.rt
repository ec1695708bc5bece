//! The program of a generated function.

ghost use Rattle.std.specs.Prelude.{◌≡◌, ◌<◌, ◌≤◌, IfOk};
ghost use Rattle.gen_program.specs.Program.{generated_program};
ghost use Rattle.read_proof.specs.Read.{IsReadProgram};

use gen_function::generator::generate;
use mir_exposure::exposure::Exposure;
use mir_pool::constant::Pool;
use mir_substitution::substitutions::Substitutions;
use read_lexer::line::Lines;
use read_metadata::metadata::read_meta;
use read_proof::read_program_crate::closing::Parsed;
use read_proof::read_program_crate::program::{ParsedFunctions, Program};
use std::alloc::{AllocError, Global};

/// The program whose one function is generated from a number below 65,537, with 1 to 512 blocks. It has no metadata and
/// no debug value substitutions.
pub fn generated_program(alloc: Global, number: u32, blocks: u32) -> Result<Program, AllocError>
    requires number { number < 65537 }
    requires some { 1 ≤ blocks }
    requires few { blocks ≤ 512 }
    ensures is { IfOk result (λ p. p ≡ generated_program number blocks) }
    ensures read { IfOk result IsReadProgram }
{
    let parsed = Parsed {
        func: generate(alloc, number, blocks)?,
        subs: Substitutions::new(alloc),
        pool: Pool::new(alloc),
        exposure: Exposure::Nothing,
    };
    let mut functions = ParsedFunctions::new(alloc);
    functions.push(parsed)?;
    Ok(Program {
        functions,
        meta: read_meta(alloc, &Lines::new(alloc))?,
    })
}
