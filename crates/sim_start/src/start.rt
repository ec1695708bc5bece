//! The start of a run.

ghost use Rattle.std.specs.Prelude.{◌≡◌, ◌<◌, ℕ, [], slice_index};
ghost use Rattle.sim_start.specs.InitialMachine.{start_register, other_register};

use rv64_instr::start::{Cells, Start};
use rv64_instr::symbol::SymbolAddresses;
use std::alloc::Global;

/// The content of x1 at the start: the return address.
const RETURN_ADDRESS: u64 = 4_294_967_296;

/// The content of x2 at the start: the stack pointer.
const STACK_POINTER: u64 = 1_048_576;

/// The start of a run with these addresses of symbols, and with arguments, which are in x10 and the registers after it.
/// Memory is 0. It takes no memory.
pub fn start_with(alloc: Global, symbols: SymbolAddresses, arguments: &[u64]) -> Start
    ensures regs { (r : ℕ) → r < 32 → slice_index result.regs r ≡ start_register arguments.now r }
    ensures memory { result.memory ≡ [] }
    ensures symbols { result.symbols ≡ symbols }
{
    Start {
        regs: registers(arguments),
        memory: Cells::new(alloc),
        symbols,
    }
}

fn registers(arguments: &[u64]) -> [u64; 32]
    ensures { (r : ℕ) → r < 32 → slice_index result r ≡ start_register arguments.now r }
{
    let mut regs = [0u64; 32];
    for r in 0..32 {
        regs[r] = register(arguments, r);
    }
    regs
}

/// The content of a register at the start.
fn register(arguments: &[u64], r: usize) -> u64
    requires { r < 32 }
    ensures { result ≡ start_register arguments.now r }
{
    match r {
        0 => 0,
        1 => RETURN_ADDRESS,
        2 => STACK_POINTER,
        _ => other_register(arguments, r),
    }
}

/// The content of a register from x3 on: an argument, or 1000 plus the register's number.
fn other_register(arguments: &[u64], r: usize) -> u64
    requires { r < 32 }
    ensures { result ≡ other_register arguments.now r }
{
    if 10 <= r && r - 10 < arguments.len() {
        arguments[r - 10]
    } else {
        1000 + r as u64
    }
}
