//! The size of an object, and where its parts lie.

ghost use Rattle.std.specs.Prelude.{◌≡◌, ◌+◌, ◌^◌, ◌<◌, ◌≤◌, ◌++◌, [], ◌∷◌, ◌⊎◌, ◌↔◌, length, codes, IfSome, IsNone};
ghost use Rattle.std.specs.List.{flat_map};
ghost use Rattle.elf_object.specs.declared.object.Section.{Section};
ghost use Rattle.elf_object.specs.Standard;
ghost use Rattle.elf_object.specs.Spelling;
ghost use Rattle.elf_object.specs.Spelling.{text, names_of, string_table, contents, spelling};

use crate::constants::*;
use crate::object::{Object, Section};
use dwarf_base::limits::SECTION_LIMIT;

/// The name of the section of the sections' names (gABI, "Special Sections").
pub static SHSTRTAB: [u8; 9] = *b".shstrtab";

/// The size of an object's file in bytes. `None` if and only if it is 2^31 or more, or the object has more sections
/// than a header counts. It takes no memory.
pub fn object_size(o: &Object) -> Option<u32>
    ensures none { IsNone result ↔ ((2 ^ 31 ≤ length (spelling o.now))
        ⊎ (Standard.SHN_LORESERVE ≤ length o.now.sections + 2)) }
    ensures size { IfSome result (λ size. size ≡ length (spelling o.now)) }
    ensures count { IfSome result (λ size. length o.now.sections + 2 < Standard.SHN_LORESERVE) }
    ensures below { IfSome result (λ size. length (spelling o.now) < 2 ^ 31) }
{
    let sections = o.sections.as_slice();
    if sections.len() >= SHN_LORESERVE as usize - 2 {
        return None;
    }
    let names = names_len(sections)?;
    let end = contents_end(sections)?;
    let size = aligned(aligned(end) + names) + SHDR_SIZE as usize * (sections.len() + 2);
    if size < SECTION_LIMIT {
        Some(size as u32)
    } else {
        None
    }
}

/// The number of bytes from an offset up to the next multiple of 8.
pub fn padding(at: usize) -> usize
    ensures exact { result ≡ Spelling.padding at }
    ensures within { result < 8 }
{
    (8 - at % 8) % 8
}

/// The next multiple of 8.
pub fn aligned(at: usize) -> usize
    requires { at < 2 ^ 63 }
    ensures { result ≡ Spelling.aligned at }
{
    at + padding(at)
}

/// The bytes of the table of the sections' names. `None` if and only if they are 2^31 or more.
fn names_len(sections: &[Section]) -> Option<usize>
    ensures none { IsNone result ↔ (2 ^ 31 ≤ length (string_table (names_of sections.now ++ codes ".shstrtab" ∷ []))) }
    ensures len { IfSome result (λ len. len ≡ length (string_table (names_of sections.now ++ codes ".shstrtab" ∷ []))) }
{
    let mut len = 1 + SHSTRTAB.len() + 1;
    for section in sections {
        len = section.name.len().saturating_add(len + 1);
        if len >= SECTION_LIMIT {
            return None;
        }
    }
    Some(len)
}

/// Where the sections' bytes end in the file. `None` if and only if that is 2^31 or more.
fn contents_end(sections: &[Section]) -> Option<usize>
    ensures none { IsNone result ↔ (2 ^ 31 ≤ 64 + length (contents 64 sections.now)) }
    ensures end { IfSome result (λ end. end ≡ 64 + length (contents 64 sections.now)) }
{
    let mut at = EHDR_SIZE as usize;
    for section in sections {
        at = section.bytes.len().saturating_add(aligned(at));
        if at >= SECTION_LIMIT {
            return None;
        }
    }
    Some(at)
}
