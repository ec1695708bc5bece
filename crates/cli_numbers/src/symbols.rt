//! Lists of symbols and their addresses.

ghost use Rattle.std.specs.Prelude.{◌≡◌, ◌↔◌, ℕ, All, IfOk, IsTrue, List, Some, false, map};
ghost use Rattle.std.specs.List.{list_all};
ghost use Rattle.std.specs.Fmt.{decimal};
ghost use Rattle.rv64_instr.specs.declared.symbol.Symbol.{Symbol};
ghost use Rattle.rv64_instr.specs.Linked.{is_same_symbol};
ghost use Rattle.cli_numbers.specs.Symbols.{
  is_plain,
  is_plain_name,
  symbol_name,
  global_named,
  pair_text,
  CanBeNamed,
  CanBeGiven,
  IsConstantOf,
  AreOthers,
  IsAnotherPair,
  ArePairs,
  IsAddressText,
};

use crate::list::pieces;
use crate::number::number;
use rv64_instr::linked::is_same;
use rv64_instr::name::Name;
use rv64_instr::symbol::{Symbol, SymbolAddresses};
use std::alloc::{AllocError, Global};

/// The greatest number of a constant.
const MAX_CONSTANT: u64 = 4_294_967_295;

/// The symbols in a text and their addresses, as `g=4096,%const.0=8`: one or more pairs, separated by commas, each of
/// another symbol. `None` if the text is no such list.
pub fn symbol_addresses(alloc: Global, text: &str) -> Result<Option<SymbolAddresses>, AllocError>
    ensures { IfOk result (λ o. (pairs : List (Symbol × ℕ)) → (o ≡ Some pairs) ↔ IsAddressText text.now pairs) }
{
    let pieces = pieces(alloc, text)?;
    each_pair(alloc, &pieces)
}

/// The pair that each text is; `None` if a text is none, or repeats a symbol.
fn each_pair(alloc: Global, texts: &[&str]) -> Result<Option<SymbolAddresses>, AllocError>
    ensures { IfOk result (λ o. (pairs : List (Symbol × ℕ)) →
        (o ≡ Some pairs) ↔ ArePairs (map (λ t. t.now) texts.now) pairs) }
{
    let mut pairs = SymbolAddresses::new(alloc);
    for text in texts {
        match another(alloc, text, pairs.as_slice())? {
            Some(pair) => pairs.push(pair)?,
            None => return Ok(None),
        }
    }
    Ok(Some(pairs))
}

/// The pair that a text is, if its symbol isn't among these.
fn another(
    alloc: Global,
    text: &str,
    pairs: &[(Symbol, u64)],
) -> Result<Option<(Symbol, u64)>, AllocError>
    ensures { IfOk result (λ o. (p : Symbol × ℕ) → (o ≡ Some p) ↔ IsAnotherPair pairs.now text.now p) }
{
    match pair(alloc, text)? {
        Some(found) => Ok(if_new(found, pairs)),
        None => Ok(None),
    }
}

/// The pair, if its symbol isn't among these.
fn if_new(found: (Symbol, u64), pairs: &[(Symbol, u64)]) -> Option<(Symbol, u64)>
    ensures { (p : Symbol × ℕ) → (result ≡ Some p) ↔ ((found ≡ p) × All (λ q. AreOthers q found) pairs.now) }
{
    if is_new(&found.0, pairs) {
        Some(found)
    } else {
        None
    }
}

/// Whether no pair is of a symbol.
fn is_new(symbol: &Symbol, pairs: &[(Symbol, u64)]) -> bool
    ensures { IsTrue result ↔ All (λ q. is_same_symbol q.0 symbol.now ≡ false) pairs.now }
{
    pairs.iter().all(|pair| is_other(&pair.0, symbol))
}

fn is_other(one: &Symbol, other: &Symbol) -> bool
    ensures { IsTrue result ↔ (is_same_symbol one.now other.now ≡ false) }
{
    !is_same(one, other)
}

/// The symbol and the address of a text.
fn pair(alloc: Global, text: &str) -> Result<Option<(Symbol, u64)>, AllocError>
    ensures { IfOk result (λ o. (p : Symbol × ℕ) →
        (o ≡ Some p) ↔ ((text.now ≡ pair_text p) × CanBeGiven p)) }
{
    match text.split_once('=') {
        Some((name, digits)) => parts(alloc, name, digits),
        None => Ok(None),
    }
}

/// The symbol of a name, and the address of digits.
fn parts(alloc: Global, name: &str, digits: &str) -> Result<Option<(Symbol, u64)>, AllocError>
    ensures { IfOk result (λ o. (p : Symbol × ℕ) →
        (o ≡ Some p) ↔ ((name.now ≡ symbol_name p.0) × (digits.now ≡ decimal p.1) × CanBeGiven p)) }
{
    match number(digits, u64::MAX) {
        Some(address) => with_address(alloc, name, address),
        None => Ok(None),
    }
}

/// The symbol of a name, with an address.
fn with_address(
    alloc: Global,
    name: &str,
    address: u64,
) -> Result<Option<(Symbol, u64)>, AllocError>
    ensures { IfOk result (λ o. (p : Symbol × ℕ) →
        (o ≡ Some p) ↔ ((name.now ≡ symbol_name p.0) × CanBeNamed p.0 × (address ≡ p.1))) }
{
    match symbol(alloc, name)? {
        Some(found) => Ok(Some((found, address))),
        None => Ok(None),
    }
}

/// The symbol of a name.
fn symbol(alloc: Global, name: &str) -> Result<Option<Symbol>, AllocError>
    ensures { IfOk result (λ o. (y : Symbol) →
        (o ≡ Some y) ↔ ((name.now ≡ symbol_name y) × CanBeNamed y)) }
{
    match name.strip_prefix("%const.") {
        Some(digits) => Ok(constant(digits)),
        None => global(alloc, name),
    }
}

/// The constant whose number these digits are.
fn constant(digits: &str) -> Option<Symbol>
    ensures { (y : Symbol) → (result ≡ Some y) ↔ IsConstantOf digits.now y }
{
    match number(digits, MAX_CONSTANT) {
        Some(n) => Some(Symbol::Constant(n as u32)),
        None => None,
    }
}

/// The global of a name.
fn global(alloc: Global, name: &str) -> Result<Option<Symbol>, AllocError>
    ensures { IfOk result (λ o. o ≡ global_named name.now) }
{
    if is_plain_name(name.as_bytes()) {
        Ok(Some(Symbol::Global(Name::from_slice(alloc, name.as_bytes())?)))
    } else {
        Ok(None)
    }
}

/// Whether a name can stand in such a list.
fn is_plain_name(name: &[u8]) -> bool
    ensures { result ≡ is_plain_name name.now }
{
    0 < name.len() && !name.starts_with(b"%") && are_plain(name)
}

fn are_plain(name: &[u8]) -> bool
    ensures { result ≡ list_all is_plain name.now }
{
    name.iter().all(|b| is_plain(*b))
}

fn is_plain(b: u8) -> bool
    ensures { result ≡ is_plain b }
{
    b != b',' && b != b'='
}
