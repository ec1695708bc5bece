//! The text of sections.

ghost use Rattle.std.specs.Prelude.{◌≡◌, ◌++◌, OnOk};
ghost use Rattle.listing_text.specs.Output.{section_text, section_if, sections_text};

use crate::hex::push_hex_lines;
use crate::output::{Bytes, Output};
use mir_printer::text::{Text, push_decimal, push_str};
use std::alloc::AllocError;

/// Appends the sections of an output.
pub(crate) fn push_sections(text: &mut Text, output: &Output) -> Result<(), AllocError>
    ensures { OnOk result (text.new ≡ text.old ++ sections_text output.now) }
{
    push_section(text, ".text", &output.text)?;
    push_section(text, ".debug_abbrev", &output.abbreviations)?;
    push_section(text, ".debug_info", &output.info)?;
    push_section(text, ".debug_line", &output.rows)?;
    push_section(text, ".debug_loclists", &output.loclists)?;
    push_section_if(text, ".debug_frame", &output.frame)?;
    push_section_if(text, ".debug_rnglists", &output.ranges)
}

/// Appends a section, if there is one.
fn push_section_if(text: &mut Text, name: &str, bytes: &Option<Bytes>) -> Result<(), AllocError>
    ensures { OnOk result (text.new ≡ text.old ++ section_if name.now bytes.now) }
{
    match bytes {
        Some(bytes) => push_section(text, name, bytes),
        None => Ok(()),
    }
}

/// Appends a section: a line with its name and its length in bytes, and its bytes in hexadecimal.
fn push_section(text: &mut Text, name: &str, bytes: &Bytes) -> Result<(), AllocError>
    ensures { OnOk result (text.new ≡ text.old ++ section_text name.now bytes.now) }
{
    push_str(text, "section ")?;
    push_str(text, name)?;
    push_str(text, " ")?;
    push_decimal(text, bytes.len())?;
    text.push(b'\n')?;
    push_hex_lines(text, bytes.as_slice())
}
