//! Scratch registers.

ghost use Rattle.std.specs.Prelude.{◌≡◌, ◌<◌, ◌∷◌, [], filter, not, IfOk};
ghost use Rattle.spill_rule.specs.pass_trait.Causes.{is_named, scratch_of};
ghost use Rattle.spill_rule.specs.Choice.{first_scratch, second_scratch};

use pass_liveness::mir_func_crate::func::Func;
use pass_liveness::rv64_instr_crate::reg::{Reg, Registers, physical};
use spill_rule::named::is_named;
use std::alloc::{AllocError, Global};

/// The lowest two of x5, x6, x7 and x28 to x31 that no code of a function names, or fewer if there are fewer.
pub fn scratch_of(alloc: Global, f: &Func) -> Result<Registers, AllocError>
    ensures { IfOk result (λ registers. registers ≡ scratch_of f.now) }
{
    let mut registers = temporaries(alloc)?;
    keep_free(f, &mut registers.items);
    registers.items.truncate(2);
    Ok(registers)
}

/// The candidates for scratch registers.
fn temporaries(alloc: Global) -> Result<Registers, AllocError>
    ensures { IfOk result (λ registers. registers ≡ 5 ∷ 6 ∷ 7 ∷ 28 ∷ 29 ∷ 30 ∷ 31 ∷ []) }
{
    Registers::from_slice(
        alloc,
        &[
            register(5),
            register(6),
            register(7),
            register(28),
            register(29),
            register(30),
            register(31),
        ],
    )
}

fn keep_free(f: &Func, registers: &mut Vec<Reg>)
    ensures { registers.new.items ≡ filter (λ r. not (is_named f.now r)) registers.old.items }
{
    registers.retain(|r| !is_named(f, *r));
}

/// The first of the scratch registers, or x0 if there is none.
pub fn first_scratch(scratch: &[Reg]) -> Reg
    ensures { result ≡ first_scratch scratch.now }
{
    match scratch.first() {
        Some(r) => *r,
        None => register(0),
    }
}

/// The second of the scratch registers, or x0 if there is none.
pub fn second_scratch(scratch: &[Reg]) -> Reg
    ensures { result ≡ second_scratch scratch.now }
{
    match scratch.split_first() {
        Some((_first, rest)) => first_scratch(rest),
        None => register(0),
    }
}

/// The register xN.
pub fn register(n: u32) -> Reg
    requires { n < 32 }
    ensures { result ≡ n }
{
    match physical(n) {
        Some(r) => r,
        None => unreachable!(),
    }
}
