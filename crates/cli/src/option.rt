//! One option with its value.

ghost use Rattle.std.specs.Prelude.{◌≡◌, ◌↔◌, List, ℕ, Some, IfOk};
ghost use Rattle.rv64_instr.specs.declared.symbol.Symbol.{Symbol};
ghost use Rattle.pass_list.specs.declared.kind.PassKind.{PassKind};
ghost use Rattle.cli.specs.Options.{IsWordOf};
ghost use Rattle.cli.specs.declared.option.CommandOption.{CommandOption};
ghost use Rattle.cli.specs.declared.option.CommandOption.TheVariants.{Passes, Reserve, Symbols};

use cli_numbers::list::{Numbers, option};
use cli_numbers::symbols::symbol_addresses;
use cli_numbers::text::reserve_list;
use pass_list::kind::is_same;
use pass_list::list::PassList;
use pass_list::text::pass_list;
use rv64_instr::reg::Registers;
use rv64_instr::symbol::SymbolAddresses;
use std::alloc::{AllocError, Global};

/// The greatest number of arguments.
const MAX_ARGUMENTS: usize = 8;

/// The greatest number of return values of calls.
const MAX_ANSWERS: usize = 64;

/// An option with its value.
#[derive(Debug, Drop)]
pub enum CommandOption {
    /// `--passes=` and a list of passes.
    Passes(PassList),
    /// `--reserve=` and the registers that may be spilled.
    Reserve(Registers),
    /// `--args=` and the arguments of the function, one to eight.
    Arguments(Numbers),
    /// `--answers=` and the return values of calls, one to 64.
    Answers(Numbers),
    /// `--frame`: with the section `.debug_frame`.
    Frame,
    /// `--inline`: with inlined functions, and the section `.debug_rnglists`.
    Inline,
    /// `--linked`: functions are read in the linked language.
    Linked,
    /// `--linkable`: an object that a linker places.
    Linkable,
    /// `--abi=lp64d`: an object whose functions may be called with floating-point numbers in registers.
    FloatAbi,
    /// `--symbols=` and the addresses of symbols.
    Symbols(SymbolAddresses),
}

/// The option that a word is; `None` if it is none.
pub fn command_option(alloc: Global, word: &str) -> Result<Option<CommandOption>, AllocError>
    ensures { IfOk result (λ o. (given : CommandOption) → (o ≡ Some given) ↔ IsWordOf given word.now) }
{
    if is_same(word, "--frame") {
        return Ok(Some(CommandOption::Frame));
    }
    if is_same(word, "--inline") {
        return Ok(Some(CommandOption::Inline));
    }
    if is_same(word, "--linked") {
        return Ok(Some(CommandOption::Linked));
    }
    if is_same(word, "--linkable") {
        return Ok(Some(CommandOption::Linkable));
    }
    if is_same(word, "--abi=lp64d") {
        return Ok(Some(CommandOption::FloatAbi));
    }
    if let Some(list) = passes(word) {
        return Ok(Some(CommandOption::Passes(list)));
    }
    if let Some(registers) = reserve(alloc, word)? {
        return Ok(Some(CommandOption::Reserve(registers)));
    }
    if let Some(values) = option(alloc, word, "--args=", MAX_ARGUMENTS)? {
        return Ok(Some(CommandOption::Arguments(values)));
    }
    if let Some(values) = option(alloc, word, "--answers=", MAX_ANSWERS)? {
        return Ok(Some(CommandOption::Answers(values)));
    }
    if let Some(pairs) = symbols(alloc, word)? {
        return Ok(Some(CommandOption::Symbols(pairs)));
    }
    Ok(None)
}

/// The list of passes in a word, as `--passes=copy,fold` or `--passes=none`.
fn passes(word: &str) -> Option<PassList>
    ensures { (list : List PassKind) → (result ≡ Some list) ↔ IsWordOf (Passes list) word.now }
{
    match word.strip_prefix("--passes=") {
        None => None,
        Some(text) => pass_list(text),
    }
}

/// The registers in a word, as `--reserve=x8,x18`.
fn reserve(alloc: Global, word: &str) -> Result<Option<Registers>, AllocError>
    ensures { IfOk result (λ o. (registers : List ℕ) → (o ≡ Some registers) ↔ IsWordOf (Reserve registers) word.now) }
{
    match word.strip_prefix("--reserve=") {
        Some(text) => reserve_list(alloc, text),
        None => Ok(None),
    }
}

/// The addresses of symbols in a word, as `--symbols=g=4096,%const.0=8`.
fn symbols(alloc: Global, word: &str) -> Result<Option<SymbolAddresses>, AllocError>
    ensures { IfOk result (λ o. (pairs : List (Symbol × ℕ)) → (o ≡ Some pairs) ↔ IsWordOf (Symbols pairs) word.now) }
{
    match word.strip_prefix("--symbols=") {
        Some(text) => symbol_addresses(alloc, text),
        None => Ok(None),
    }
}
