//! Whether names can be strings of a string table.

ghost use Rattle.std.specs.Prelude.{◌↔◌, IsTrue, All};
ghost use Rattle.elf_object.specs.Grammar.{IsName, IsNamed};

use crate::object::Section;

/// Whether a name has no zero byte.
pub fn is_name(name: &[u8]) -> bool
    ensures { IsTrue result ↔ IsName name.now }
{
    for byte in name {
        if *byte == 0 {
            return false;
        }
    }
    true
}

/// Whether the sections' names have no zero byte.
pub fn are_named(sections: &[Section]) -> bool
    ensures { IsTrue result ↔ All IsNamed sections.now }
{
    for section in sections {
        if !is_name(section.name.as_slice()) {
            return false;
        }
    }
    true
}
