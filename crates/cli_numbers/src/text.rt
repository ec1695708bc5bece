//! Lists of registers that may be reserved.

ghost use Rattle.std.specs.Prelude.{◌≡◌, ◌↔◌, ℕ, List, map, IfOk, Some};
ghost use Rattle.cli_numbers.specs.Reserve.{AreNamed, IsAnother, IsReserveText};

use crate::list::pieces;
use crate::name::register;
use rv64_instr::reg::{Reg, Registers};
use std::alloc::{AllocError, Global};

/// The registers in a text, as `x8,x18`: one or more, separated by commas, all of which may be reserved, each once.
/// `None` if the text is no such list.
pub fn reserve_list(alloc: Global, text: &str) -> Result<Option<Registers>, AllocError>
    ensures { IfOk result (λ o. (registers : List ℕ) → (o ≡ Some registers) ↔ IsReserveText text.now registers) }
{
    let pieces = pieces(alloc, text)?;
    each_register(alloc, &pieces)
}

/// The register that each word names; `None` if a word is no name of a register that may be reserved, or repeats one.
fn each_register(alloc: Global, words: &[&str]) -> Result<Option<Registers>, AllocError>
    ensures { IfOk result (λ o. (registers : List ℕ) →
        (o ≡ Some registers) ↔ AreNamed (map (λ w. w.now) words.now) registers) }
{
    let mut registers = Registers::new(alloc);
    for word in words {
        match another(word, registers.as_slice()) {
            Some(register) => registers.push(register)?,
            None => return Ok(None),
        }
    }
    Ok(Some(registers))
}

/// The register that a word names, if it isn't among these.
fn another(word: &str, registers: &[Reg]) -> Option<Reg>
    ensures { (r : ℕ) → (result ≡ Some r) ↔ IsAnother registers.now word.now r }
{
    let register = register(word)?;
    if registers.contains(&register) {
        None
    } else {
        Some(register)
    }
}
