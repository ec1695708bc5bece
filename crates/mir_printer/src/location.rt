//! Debug locations.

ghost use Rattle.std.specs.Prelude.{◌≡◌, ◌++◌, OnOk, OnErr};
ghost use Rattle.mir_printer.specs.Growth.{GrownFrom};
ghost use Rattle.mir_printer.specs.Spelling.{inlined_at_text, location_text};

use crate::text::{Text, push_numbered, push_str};
use base_ids::metadata::NodeId;
use mir_func::location::{InlineLoc, Loc};
use std::alloc::AllocError;

/// Appends the debug location that an item carries.
pub(crate) fn push_location(text: &mut Text, loc: &Loc) -> Result<(), AllocError>
    ensures ok { OnOk result (text.new ≡ text.old ++ location_text loc.now) }
    ensures err { OnErr result (GrownFrom text.old text.new) }
{
    match loc {
        Loc::Absent => Ok(()),
        Loc::Node(n) => push_numbered(text, ", debug-location !", n.number()),
        Loc::Inline(inline) => push_inline(text, inline),
    }
}

fn push_inline(text: &mut Text, inline: &InlineLoc) -> Result<(), AllocError>
    ensures ok { OnOk result (text.new ≡ text.old ++ location_text (Loc.Inline inline.now)) }
    ensures err { OnErr result (GrownFrom text.old text.new) }
{
    push_numbered(text, ", debug-location !DILocation(line: ", inline.line)?;
    push_numbered(text, ", column: ", inline.column)?;
    push_numbered(text, ", scope: !", inline.scope.number())?;
    push_inlined_at(text, &inline.inlined_at)?;
    push_str(text, ")")
}

fn push_inlined_at(text: &mut Text, inlined_at: &Option<NodeId>) -> Result<(), AllocError>
    ensures ok { OnOk result (text.new ≡ text.old ++ inlined_at_text inlined_at.now) }
    ensures err { OnErr result (GrownFrom text.old text.new) }
{
    match inlined_at {
        None => Ok(()),
        Some(n) => push_numbered(text, ", inlinedAt: !", n.number()),
    }
}
