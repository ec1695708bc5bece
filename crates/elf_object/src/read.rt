//! The reader of objects.

ghost use Rattle.std.specs.Prelude.{◌≡◌, ◌+◌, ◌*◌, ◌-◌, ◌≤◌, ℕ, length, IfOk, Err, MatchResult};
ghost use Rattle.elf_object.specs.declared.object.Object.{Object};
ghost use Rattle.elf_object.specs.declared.read.ReadError.TheVariants.{Fault, Memory};
ghost use Rattle.elf_object.specs.Grammar.{IsObject};
ghost use Rattle.elf_object.specs.FirstFault;
ghost use Rattle.elf_object.specs.FirstFault.{table_in, names_in, IsRight};
ghost use Rattle.elf_object.specs.steps.Told.{section_told, sections_told, object_told};

use crate::fault::{behind, first_fault, front, name_len, section_bytes};
use crate::number::{u16_at, u32_at, u64_at};
use crate::object::{Object, Section, Sections};
use base_list::List;
use std::alloc::{AllocError, Global};

/// Why no object was read.
#[derive(Clone, Copy, Debug, PartialEq, Eq)]
pub enum ReadError {
    /// The bytes aren't a file that the writer writes. The first wrong field begins at this byte, counted from 0.
    Fault(usize),
    /// Memory ran out.
    Memory,
}

impl From<AllocError> for ReadError {
    ghost from_gives = { λ _ e. e ≡ Memory };

    fn from(_: AllocError) -> ReadError {
        ReadError::Memory
    }
}

/// The object of a file, as `write_object` writes it.
pub fn read_object(alloc: Global, bytes: &[u8]) -> Result<Object, ReadError>
    // The bytes are those of what is read.
    ensures object { IfOk result (λ o. IsObject o bytes.now) }
    // Of the bytes of an object this object is read, as long as there is memory.
    ensures only { (o : Object) → IsObject o bytes.now → MatchResult result (λ read. read ≡ o) (λ e. e ≡ Memory) }
    // Of anything else the error is the first wrong field.
    ensures fault { (at : ℕ) → result ≡ Err (Fault at) → FirstFault.FirstFault bytes.now at }
{
    match first_fault(bytes) {
        Some(at) => Err(ReadError::Fault(at)),
        None => Ok(object(alloc, bytes)?),
    }
}

/// The object that the headers of a file tell.
fn object(alloc: Global, bytes: &[u8]) -> Result<Object, AllocError>
    requires { IsRight bytes.now }
    ensures { IfOk result (λ o. o ≡ object_told bytes.now) }
{
    let table = u64_at(bytes, 40) as usize;
    let count = u16_at(bytes, 60) as usize;
    let names = section_bytes(bytes, table + 64 * (count - 1));
    let sections = sections(alloc, bytes, names, table, count)?;
    Ok(Object {
        flags: u32_at(bytes, 48),
        sections,
    })
}

/// The sections but for that of the names, by the section header table at an offset with so many headers. `names` is
/// the bytes of the last section.
fn sections(
    alloc: Global,
    bytes: &[u8],
    names: &[u8],
    table: usize,
    count: usize,
) -> Result<Sections, AllocError>
    requires names { names.now ≡ names_in bytes.now }
    requires table { table ≡ table_in bytes.now }
    requires few { 2 ≤ count }
    requires within { table + 64 * count ≤ length bytes.now }
    ensures { IfOk result (λ sections. sections ≡ sections_told bytes.now (count - 2)) }
{
    let mut sections = Sections::new(alloc);
    for index in 0..count - 2 {
        sections.push(section(alloc, bytes, names, table + 64 * (index + 1))?)?;
    }
    Ok(sections)
}

/// The section with the header at an offset.
fn section(alloc: Global, bytes: &[u8], names: &[u8], header: usize) -> Result<Section, AllocError>
    requires { header + 64 ≤ length bytes.now }
    ensures { IfOk result (λ s. s ≡ section_told names.now header bytes.now) }
{
    let name_at = u32_at(bytes, header);
    let len = name_len(names, name_at as usize);
    Ok(Section {
        name: List::from_slice(alloc, front(behind(names, u64::from(name_at)), len as u64))?,
        section_type: u32_at(bytes, header + 4),
        flags: u64_at(bytes, header + 8),
        link: u32_at(bytes, header + 40),
        info: u32_at(bytes, header + 44),
        alignment: u64_at(bytes, header + 48),
        entry_size: u64_at(bytes, header + 56),
        bytes: List::from_slice(alloc, section_bytes(bytes, header))?,
    })
}
