//! Inlined subroutines, by hand from DWARF 5 section 3.3.8.2.

use dwarf_line_table::source_and_code::SourceAndCode;
use emit_function::code::code_of;
use inline_instances::instance::InlinedCode;
use inline_instances::instances::inlined_code;
use inline_instances::laws::{
    each_call_has_an_instance, ranges_are_of_inlined_code, ranges_ascend,
};
use read_metadata::metadata::Metadata;
use read_program::closing::Parsed;
use read_program::program::read_program;
use std::alloc::Global;
use std::test::Fail;

/// A function with code of two calls, of which the second one is in the code of the first.
const TEXT: &str = "--- |
  define i64 @f(i64 %n) !dbg !2 { ret i64 0 }
  !2 = distinct !DISubprogram(name: \"f\", line: 20)
  !3 = distinct !DISubprogram(name: \"square\", line: 5)
  !5 = !DILocation(line: 21, column: 4, scope: !2)
  !10 = distinct !DILocation(line: 22, column: 7, scope: !2)
  !11 = !DILocation(line: 6, column: 3, scope: !3, inlinedAt: !10)
  !12 = distinct !DILocation(line: 7, column: 9, scope: !3, inlinedAt: !10)
  !13 = !DILocation(line: 11, column: 2, scope: !2, inlinedAt: !12)
...
---
name: f
body: |
  bb.0:
    $x10 = ADDI $x10, 1, debug-location !11
    $x10 = ADDI $x10, 1, debug-location !5
    $x10 = ADDI $x10, 1, debug-location !13
    $x10 = ADDI $x10, 1, debug-location !11
    PseudoRET implicit $x10, debug-location !5
...
";

/// The calls of the instances, how many of them are around each, and the ends of their ranges.
const INSTANCES: &[(u32, usize, &[(u64, u64)])] = &[
    (10, 0, &[(0, 4), (8, 16)]),
    (12, 1, &[(8, 12)]),
];

/// Whether an instance has this call, and its parent is the one before it, if it has a parent.
fn is_call(inlined: &InlinedCode, index: usize, call: u32, around: usize) -> bool {
    let Some(instance) = inlined.instances.as_slice().get(index) else {
        return false;
    };
    let placed = match instance.parent {
        None => around == 0,
        Some(parent) => around > 0 && parent == around - 1,
    };
    placed && instance.call.number() == call
}

/// Whether the ranges of an instance have these ends.
fn has_ranges(inlined: &InlinedCode, index: usize, ends: &[(u64, u64)]) -> bool {
    let Some(ranges) = inlined.ranges.as_slice().get(index) else {
        return false;
    };
    for (at, (lo, hi)) in ends.iter().enumerate() {
        match ranges.as_slice().get(at) {
            Some(range) => {
                if range.lo != *lo || range.hi != *hi {
                    return false;
                }
            }
            None => return false,
        }
    }
    ranges.len() == ends.len()
}

/// Whether the instances are those of the table.
fn are_instances(inlined: &InlinedCode) -> bool {
    for (index, (call, around, ends)) in INSTANCES.iter().enumerate() {
        if !is_call(inlined, index, *call, *around) || !has_ranges(inlined, index, ends) {
            return false;
        }
    }
    inlined.instances.len() == INSTANCES.len() && inlined.ranges.len() == INSTANCES.len()
}

fn has_instances(alloc: Global, parsed: &Parsed, meta: &Metadata) -> Result<bool, Fail> {
    let code = code_of(alloc, &parsed.func, 0)?;
    let function = SourceAndCode {
        source: &parsed.func,
        code: &code,
    };
    let inlined = inlined_code(alloc, &function, meta)?;
    Ok(are_instances(&inlined))
}

/// Whether the function of a text has the instances of the table.
fn has_instances_of_text(alloc: Global, text: &str) -> Result<bool, Fail> {
    if text.len() >= 1_000 {
        return Err(Fail::from("a long text"));
    }
    let program = read_program(alloc, false, text.as_bytes())?;
    match program.functions.as_slice() {
        [parsed] => has_instances(alloc, parsed, &program.meta),
        _ => Ok(false),
    }
}

#[test]
fn instances_have_their_parents_and_ranges(rt: HostRuntime) -> Result<(), Fail> {
    ranges_are_of_inlined_code();
    ranges_ascend();
    each_call_has_an_instance();
    assert!(rt; has_instances_of_text(rt.alloc(), TEXT)?);
    Ok(())
}
