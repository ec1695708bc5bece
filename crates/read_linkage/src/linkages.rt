//! The linkages of the functions that lines define.

ghost use Rattle.std.specs.Prelude.{◌≡◌, IfOk, OnOk};
ghost use Rattle.read_linkage.specs.Lines;
ghost use Rattle.read_linkage.specs.Lines.{with_linked};

use crate::line::linked_name;
use crate::linkage::{Linkage, Linkages, LinkedName};
use read_metadata::read_lexer_crate::line::Line;
use std::alloc::{AllocError, Global};

/// The functions of which a line says another linkage than the usual one. The error is out of memory.
pub fn read_linkages(alloc: Global, lines: &[Line]) -> Result<Linkages, AllocError>
    ensures { IfOk result (λ linkages. linkages ≡ Lines.linkages_of lines.now) }
{
    let mut linkages = Linkages::new(alloc);
    for line in lines {
        keep(&mut linkages, linked_name(alloc, line.text.as_slice())?)?;
    }
    Ok(linkages)
}

/// Appends a function with its linkage, if there is one.
fn keep(linkages: &mut Linkages, linked: Option<LinkedName>) -> Result<(), AllocError>
    ensures { OnOk result (linkages.new ≡ with_linked linkages.old linked) }
{
    match linked {
        None => Ok(()),
        Some(linked) => linkages.push(linked),
    }
}

/// The linkage of the first function of a name, if a line says another than the usual one. It takes no memory.
pub fn linkage_named(linkages: &[LinkedName], name: &[u8]) -> Option<Linkage>
    ensures { result ≡ Lines.linkage_named linkages.now name.now }
{
    for linked in linkages {
        if linked.name.as_slice() == name {
            return Some(linked.linkage);
        }
    }
    None
}
