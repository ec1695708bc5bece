//! The writer of objects.

ghost use Rattle.std.specs.Prelude.{◌≡◌, ◌+◌, ◌^◌, ◌<◌, ◌++◌, [], ◌∷◌, length, replicate, All, OnOk, IfOk};
ghost use Rattle.elf_object.specs.Standard;
ghost use Rattle.elf_object.specs.Spelling;
ghost use Rattle.elf_object.specs.Spelling.{text, contents, headers, spelling};
ghost use Rattle.elf_object.specs.Grammar.{IsNamed, IsAligned, FitsHeader, IsObject};

use crate::constants::*;
use crate::header::{push_file_header, push_section_header};
use crate::object::{Bytes, Object, Section};
use crate::size::{SHSTRTAB, aligned, object_size, padding};
use base_list::List;
use std::alloc::{AllocError, Global};

/// Zero bytes before a multiple of 8.
static ZEROS: [u8; 7] = [0; 7];
/// The header of the null section (gABI, "Sections").
static NULL_HEADER: [u8; 64] = [0; 64];

/// The file of an object. The error is out of memory.
pub fn write_object(alloc: Global, o: &Object) -> Result<Bytes, AllocError>
    // The sections' names have no zero byte.
    requires names { All IsNamed o.now.sections }
    // They may begin at any multiple of 8.
    requires alignments { All IsAligned o.now.sections }
    // These two are what `object_size` tests.
    requires count { length o.now.sections + 2 < Standard.SHN_LORESERVE }
    requires size { length (spelling o.now) < 2 ^ 31 }
    ensures bytes { IfOk result (λ bytes. bytes ≡ spelling o.now) }
    // It is in the grammar, and its object is this one.
    ensures object { IfOk result (λ bytes. IsObject o.now bytes) }
{
    let size = object_size(o).unwrap();
    let names = section_names(alloc, o.sections.as_slice())?;
    let bytes = write_file(alloc, o, &names, size)?;
    Ok(bytes)
}

/// The section of the sections' names.
fn section_names(alloc: Global, sections: &[Section]) -> Result<Section, AllocError>
    ensures { IfOk result (λ names. names ≡ Spelling.section_names sections.now) }
{
    let bytes = names_table(alloc, sections)?;
    Ok(Section {
        name: List::from_slice(alloc, &SHSTRTAB)?,
        section_type: SHT_STRTAB,
        flags: 0,
        link: 0,
        info: 0,
        alignment: 1,
        entry_size: 0,
        bytes,
    })
}

/// The table of the sections' names.
fn names_table(alloc: Global, sections: &[Section]) -> Result<Bytes, AllocError>
    ensures { IfOk result (λ table. table ≡ (Spelling.section_names sections.now).bytes) }
{
    let mut table = Vec::new(alloc);
    table.push(0)?;
    for section in sections {
        push_text(&mut table, section.name.as_slice())?;
    }
    push_text(&mut table, &SHSTRTAB)?;
    Ok(List::from(table))
}

/// The file of an object, with the section of its names and its size in bytes.
fn write_file(alloc: Global, o: &Object, names: &Section, size: u32) -> Result<Bytes, AllocError>
    requires names { names.now ≡ Spelling.section_names o.now.sections }
    requires count { length o.now.sections + 2 < Standard.SHN_LORESERVE }
    requires size { size ≡ length (spelling o.now) }
    ensures bytes { IfOk result (λ bytes. bytes ≡ spelling o.now) }
    ensures flags { OnOk result (o.now.flags < 2 ^ 32) }
    ensures fits { OnOk result (All FitsHeader o.now.sections) }
{
    let sections = o.sections.as_slice();
    let count = sections.len() + 2;
    let table = size as usize - SHDR_SIZE as usize * count;
    let mut out = Vec::with_capacity(alloc, size as usize)?;
    push_file_header(&mut out, o.flags, table as u64, count as u16)?;
    push_contents(&mut out, sections, names)?;
    push_padding(&mut out)?;
    out.extend_from_slice(&NULL_HEADER)?;
    push_headers(&mut out, sections, names)?;
    Ok(List::from(out))
}

/// Appends the bytes of sections and of one more, each at the next multiple of 8.
fn push_contents(out: &mut Vec<u8>, sections: &[Section], last: &Section) -> Result<(), AllocError>
    ensures { OnOk result (out.new.items
        ≡ out.old.items ++ contents (length out.old.items) (sections.now ++ last.now ∷ [])) }
{
    for section in sections {
        push_bytes(out, section)?;
    }
    push_bytes(out, last)?;
    Ok(())
}

/// Appends a section's bytes at the next multiple of 8.
fn push_bytes(out: &mut Vec<u8>, section: &Section) -> Result<(), AllocError>
    ensures { OnOk result (out.new.items
        ≡ out.old.items ++ replicate (Spelling.padding (length out.old.items)) 0 ++ section.now.bytes) }
{
    push_padding(out)?;
    out.extend_from_slice(section.bytes.as_slice())?;
    Ok(())
}

/// Appends zero bytes up to the next multiple of 8.
fn push_padding(out: &mut Vec<u8>) -> Result<(), AllocError>
    ensures { OnOk result (out.new.items
        ≡ out.old.items ++ replicate (Spelling.padding (length out.old.items)) 0) }
{
    let n = padding(out.len());
    out.extend_from_slice(&ZEROS[..n])?;
    Ok(())
}

/// Appends the headers of sections and of one more.
fn push_headers(out: &mut Vec<u8>, sections: &[Section], last: &Section) -> Result<(), AllocError>
    requires names { length (Spelling.section_names sections.now).bytes < 2 ^ 32 }
    requires size { 64 + length (contents 64 (sections.now ++ last.now ∷ [])) < 2 ^ 32 }
    ensures bytes { OnOk result (out.new.items ≡ out.old.items ++ headers 1 64 (sections.now ++ last.now ∷ [])) }
    ensures fits { OnOk result (All FitsHeader sections.now) }
{
    let mut name_at: u32 = 1;
    let mut at = EHDR_SIZE as usize;
    for section in sections {
        let start = aligned(at);
        push_section_header(out, name_at, start as u64, section)?;
        let name_len = section.name.len();
        let bytes_len = section.bytes.len();
        name_at += name_len as u32 + 1;
        at = start + bytes_len;
    }
    let last_start = aligned(at);
    push_section_header(out, name_at, last_start as u64, last)?;
    Ok(())
}

/// Appends a string of a string table.
fn push_text(out: &mut Vec<u8>, name: &[u8]) -> Result<(), AllocError>
    ensures { OnOk result (out.new.items ≡ out.old.items ++ text name.now) }
{
    out.extend_from_slice(name)?;
    out.push(0)?;
    Ok(())
}
