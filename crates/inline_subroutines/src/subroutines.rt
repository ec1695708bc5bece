//! The inlined subroutines of a function.

ghost use Rattle.std.specs.Prelude.{[], length, ◌≡◌, IfOk, OnOk};
ghost use Rattle.inline_subroutines.specs.Subroutines.{AreOfInstances, AreSubroutines};
ghost use Rattle.inline_subroutines.specs.steps.Known.{AreSubprograms};

use crate::subprogram::Subprograms;
use crate::subroutine::{InlinedSubroutine, InlinedSubroutines};
use dwarf_rnglists::range::AddressRanges;
use inline_instances::dwarf_line_table_crate::source_and_code::SourceAndCode;
use inline_instances::instance::Instance;
use inline_instances::instances::inlined_code;
use read_metadata::metadata::Metadata;
use std::alloc::{AllocError, Global};

/// The inlined subroutines of a function, with what is known of subprograms. The error is out of memory.
pub fn subroutines(
    alloc: Global,
    subprograms: &mut Subprograms,
    function: &SourceAndCode,
    meta: &Metadata,
) -> Result<InlinedSubroutines, AllocError>
    requires { AreSubprograms meta.now [] subprograms.old.known }
    ensures subroutines { IfOk result (AreSubroutines meta.now function.now) }
    ensures scopes { OnOk result (AreSubprograms meta.now [] subprograms.new.known) }
{
    let code = inlined_code(alloc, function, meta)?;
    let ranges = code.ranges.as_slice();
    with_subprograms(alloc, subprograms, meta, code.instances.as_slice(), ranges)
}

/// Instances with their subprograms and their ranges.
fn with_subprograms(
    alloc: Global,
    subprograms: &mut Subprograms,
    meta: &Metadata,
    instances: &[Instance],
    ranges: &[AddressRanges],
) -> Result<InlinedSubroutines, AllocError>
    requires scopes { AreSubprograms meta.now [] subprograms.old.known }
    requires ranges { length ranges.now ≡ length instances.now }
    ensures subroutines { IfOk result (AreOfInstances meta.now instances.now ranges.now) }
    ensures scopes { OnOk result (AreSubprograms meta.now [] subprograms.new.known) }
{
    let mut made = InlinedSubroutines::new(alloc);
    for (index, instance) in instances.iter().enumerate() {
        made.push(InlinedSubroutine {
            call: instance.call,
            parent: instance.parent,
            subprogram: subprograms.of(alloc, meta, instance.scope)?,
            ranges: ranges[index].copy()?,
        })?;
    }
    Ok(made)
}
