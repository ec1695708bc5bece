//! Whether sections may begin at any multiple of 8.

ghost use Rattle.std.specs.Prelude.{◌≡◌, ◌↔◌, IsTrue, All};
ghost use Rattle.elf_object.specs.Grammar;
ghost use Rattle.elf_object.specs.Grammar.{IsAligned};

use crate::object::Section;

/// Whether each multiple of 8 is one of this alignment: 1, 2, 4 or 8, or 0, which is as 1 (gABI, "Section Header").
pub fn is_alignment(alignment: u64) -> bool
    ensures { result ≡ Grammar.is_alignment alignment }
{
    alignment == 0 || (alignment == 1 || (alignment == 2 || (alignment == 4 || alignment == 8)))
}

/// Whether the sections may begin at any multiple of 8, as in a file they do.
pub fn are_aligned(sections: &[Section]) -> bool
    ensures { IsTrue result ↔ All IsAligned sections.now }
{
    for section in sections {
        if !is_aligned(section) {
            return false;
        }
    }
    true
}

/// Whether a section may begin at any multiple of 8.
fn is_aligned(section: &Section) -> bool
    ensures { IsTrue result ↔ IsAligned section.now }
{
    is_alignment(section.alignment)
}
