//! The bytes of a symbol table, and of the table of its names: the contents of two sections (gABI, "Symbol Table").

ghost use Rattle.std.specs.Prelude.{◌≡◌, ◌+◌, ◌*◌, ◌^◌, ◌<◌, ◌≤◌, ◌↔◌, ◌++◌, length, OnOk, IfOk, IfSome, IsNone};
ghost use Rattle.elf_object.specs.Spelling.{text};
ghost use Rattle.elf_object.specs.Symbols;
ghost use Rattle.elf_object.specs.Symbols.{binding_number, type_number, name_text, name_offset, symbols_from};
ghost use Rattle.elf_object.specs.Symbols.{is_local, locals_first, LocalsFirst, symbol_names, symbol_table};

use crate::constants::*;
use crate::object::{Bytes, Name};
use base_list::List;
use dwarf_base::limits::SECTION_LIMIT;
use std::alloc::{AllocError, Global};

/// Where a symbol is seen.
#[derive(Clone, Copy, Debug, PartialEq, Eq)]
pub enum Binding {
    /// In its own file.
    Local,
    /// In each file.
    Global,
    /// In each file, unless a global one has its name.
    Weak,
}

/// What a symbol is.
#[derive(Clone, Copy, Debug, PartialEq, Eq)]
pub enum SymbolType {
    /// Nothing is said.
    NoType,
    /// A function.
    Function,
    /// A section.
    Section,
}

/// A symbol. Its number in the table is one more than its index, since the null symbol is the first.
#[derive(Debug, Drop)]
pub struct Symbol {
    /// Its name, without a zero byte. It is empty if the symbol is a section.
    pub name: Name,
    /// Where it is seen.
    pub binding: Binding,
    /// What it is.
    pub symbol_type: SymbolType,
    /// The index of its section, and `SHN_UNDEF` if no section of the file defines it.
    pub section: u16,
    /// Its offset in its section, in bytes.
    pub value: u64,
    /// Its size in bytes.
    pub size: u64,
}

/// Whether local symbols stand before all others.
pub fn are_locals_first(symbols: &[Symbol]) -> bool
    ensures { result ≡ locals_first symbols.now }
{
    let mut others = false;
    for symbol in symbols {
        if !is_local(symbol.binding) {
            others = true;
        } else if others {
            return false;
        }
    }
    true
}

/// Whether a binding is that of local symbols.
fn is_local(binding: Binding) -> bool
    ensures { result ≡ is_local binding }
{
    match binding {
        Binding::Local => true,
        Binding::Global | Binding::Weak => false,
    }
}

/// The size of the table of the symbols' names in bytes. `None` if and only if it is 2^31 or more. It takes no memory.
pub fn symbol_names_size(symbols: &[Symbol]) -> Option<u32>
    ensures none { IsNone result ↔ (2 ^ 31 ≤ length (symbol_names symbols.now)) }
    ensures size { IfSome result (λ size. size ≡ length (symbol_names symbols.now)) }
{
    let mut size: usize = 1;
    for symbol in symbols {
        size = name_len(symbol.name.as_slice()).saturating_add(size);
        if size >= SECTION_LIMIT {
            return None;
        }
    }
    Some(size as u32)
}

/// The bytes of the table of the symbols' names. The error is out of memory.
pub fn write_symbol_names(alloc: Global, symbols: &[Symbol]) -> Result<Bytes, AllocError>
    ensures { IfOk result (λ bytes. bytes ≡ symbol_names symbols.now) }
{
    let mut out = Vec::new(alloc);
    out.push(0)?;
    for symbol in symbols {
        push_name(&mut out, symbol.name.as_slice())?;
    }
    Ok(List::from(out))
}

/// The bytes of the symbol table. The first symbols are the local ones. The error is out of memory.
pub fn write_symbols(alloc: Global, symbols: &[Symbol]) -> Result<Bytes, AllocError>
    requires locals { LocalsFirst symbols.now }
    requires names { length (symbol_names symbols.now) < 2 ^ 32 }
    ensures { IfOk result (λ bytes. bytes ≡ symbol_table symbols.now) }
{
    let mut out = Vec::new(alloc);
    out.extend_from_slice(&NULL_SYMBOL)?;
    let mut at: u32 = 1;
    for symbol in symbols {
        push_symbol(&mut out, offset_of(at, symbol.name.as_slice()), symbol)?;
        at += name_len(symbol.name.as_slice()) as u32;
    }
    Ok(List::from(out))
}

/// The null symbol.
static NULL_SYMBOL: [u8; 24] = [0; 24];

/// Appends a name, unless it is empty.
fn push_name(out: &mut Vec<u8>, name: &[u8]) -> Result<(), AllocError>
    ensures { OnOk result (out.new.items ≡ out.old.items ++ name_text name.now) }
{
    match name {
        [] => Ok(()),
        _ => {
            out.extend_from_slice(name)?;
            out.push(0)?;
            Ok(())
        }
    }
}

/// The bytes that a name takes in the table of names.
fn name_len(name: &[u8]) -> usize
    ensures { result ≡ length (name_text name.now) }
{
    match name {
        [] => 0,
        _ => name.len() + 1,
    }
}

/// The offset of a name in the table of names, after names that end at an offset.
fn offset_of(at: u32, name: &[u8]) -> u32
    ensures { result ≡ name_offset at name.now }
{
    match name {
        [] => 0,
        _ => at,
    }
}

/// Appends a symbol, with the offset of its name in the table of names.
#[tactic(auto, unfolding(crate::specs::Symbols::symbol))]
fn push_symbol(out: &mut Vec<u8>, name: u32, symbol: &Symbol) -> Result<(), AllocError>
    ensures { OnOk result (out.new.items ≡ out.old.items ++ Symbols.symbol name symbol.now) }
{
    out.extend_from_slice(&name.to_le_bytes())?;
    out.push(16 * number_of_binding(symbol.binding) + number_of_type(symbol.symbol_type))?;
    out.push(STV_DEFAULT)?;
    out.extend_from_slice(&symbol.section.to_le_bytes())?;
    out.extend_from_slice(&symbol.value.to_le_bytes())?;
    out.extend_from_slice(&symbol.size.to_le_bytes())?;
    Ok(())
}

/// The number of a binding.
fn number_of_binding(binding: Binding) -> u8
    ensures exact { result ≡ binding_number binding }
    ensures within { result < 3 }
{
    match binding {
        Binding::Local => STB_LOCAL,
        Binding::Global => STB_GLOBAL,
        Binding::Weak => STB_WEAK,
    }
}

/// The number of a symbol's type.
fn number_of_type(symbol_type: SymbolType) -> u8
    ensures exact { result ≡ type_number symbol_type }
    ensures within { result < 4 }
{
    match symbol_type {
        SymbolType::NoType => STT_NOTYPE,
        SymbolType::Function => STT_FUNC,
        SymbolType::Section => STT_SECTION,
    }
}
