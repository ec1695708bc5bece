//! The scopes of functions in texts, by hand from the LLVM Language Reference Manual ("DILocation", "DILexicalBlock",
//! "DILexicalBlockFile") and from DWARF 5 sections 3.3.8.2 and 3.5.

use base_ids::metadata::NodeId;
use dwarf_line_table::source_and_code::SourceAndCode;
use emit_function::code::code_of;
use read_metadata::metadata::Metadata;
use read_program::closing::Parsed;
use read_program::program::read_program;
use scope_ranges::laws::{each_scope_is_there, ranges_are_of_scoped_code};
use scope_ranges::scope::Scopes;
use scope_ranges::scopes::scopes;
use std::alloc::Global;
use std::collections::BTreeSet;
use std::test::Fail;

/// A function with a block in a block, and in the inner one a function that was inlined, with a block of its own. The
/// node 5 is a `DILexicalBlockFile`.
const NESTED: &str = "--- |
  define i64 @f(i64 %n) !dbg !2 { ret i64 0 }
  !2 = distinct !DISubprogram(name: \"f\", line: 20)
  !3 = distinct !DISubprogram(name: \"square\", line: 5)
  !4 = distinct !DILexicalBlock(scope: !2, line: 21)
  !5 = !DILexicalBlockFile(scope: !4, discriminator: 0)
  !6 = distinct !DILexicalBlock(scope: !5, line: 22)
  !7 = distinct !DILexicalBlock(scope: !3, line: 6)
  !10 = !DILocation(line: 20, column: 1, scope: !2)
  !11 = !DILocation(line: 21, column: 2, scope: !5)
  !12 = !DILocation(line: 22, column: 3, scope: !6)
  !13 = distinct !DILocation(line: 22, column: 4, scope: !6)
  !14 = !DILocation(line: 6, column: 5, scope: !7, inlinedAt: !13)
  !15 = !DILocation(line: 5, column: 5, scope: !3, inlinedAt: !13)
...
---
name: f
body: |
  bb.0:
    $x10 = ADDI $x10, 1, debug-location !11
    $x10 = ADDI $x10, 1, debug-location !10
    $x10 = ADDI $x10, 1, debug-location !12
    $x10 = ADDI $x10, 1, debug-location !14
    $x10 = ADDI $x10, 1, debug-location !15
    $x10 = ADDI $x10, 1, debug-location !12
    $x10 = ADDI $x10, 1, debug-location !11
    PseudoRET implicit $x10, debug-location !10
...
";

/// A function whose metadata leads round in blocks and in calls, and to a node that isn't there: only the block 5 has a
/// way to the function.
const ROUND: &str = "--- |
  define i64 @f(i64 %n) !dbg !2 { ret i64 0 }
  !2 = distinct !DISubprogram(name: \"f\", line: 20)
  !3 = distinct !DISubprogram(name: \"square\", line: 5)
  !4 = distinct !DILexicalBlock(scope: !6, line: 21)
  !5 = distinct !DILexicalBlock(scope: !2, line: 21)
  !6 = distinct !DILexicalBlock(scope: !4, line: 22)
  !7 = distinct !DILexicalBlock(scope: !9, line: 22)
  !10 = !DILocation(line: 20, column: 1, scope: !4)
  !11 = !DILocation(line: 21, column: 2, scope: !5)
  !12 = !DILocation(line: 22, column: 3, scope: !7)
  !13 = distinct !DILocation(line: 22, column: 4, scope: !5, inlinedAt: !13)
  !14 = !DILocation(line: 6, column: 5, scope: !3, inlinedAt: !13)
...
---
name: f
body: |
  bb.0:
    $x10 = ADDI $x10, 1, debug-location !11
    $x10 = ADDI $x10, 1, debug-location !10
    $x10 = ADDI $x10, 1, debug-location !11
    $x10 = ADDI $x10, 1, debug-location !12
    $x10 = ADDI $x10, 1, debug-location !11
    $x10 = ADDI $x10, 1, debug-location !14
    $x10 = ADDI $x10, 1, debug-location !11
    PseudoRET implicit $x10, debug-location !11
...
";

/// A scope: its node, the node of its call or 0, how many scopes stand up to the one around it, and the ends of its
/// ranges.
type Row = (u32, u32, usize, &'static [(u64, u64)]);

const NESTED_SCOPES: &[Row] = &[
    (4, 0, 0, &[(0, 4), (8, 28)]),
    (6, 0, 1, &[(8, 24)]),
    (3, 13, 2, &[(12, 20)]),
    (7, 13, 3, &[(12, 16)]),
];

const ROUND_SCOPES: &[Row] = &[(5, 0, 0, &[(0, 4), (8, 12), (16, 20), (24, 32)])];

/// The number of a node, and 0 of none.
fn number(node: Option<NodeId>) -> u32 {
    match node {
        Some(node) => node.number(),
        None => 0,
    }
}

/// Whether a scope has these nodes, and stands in the last of so many scopes.
fn is_placed(scopes: &Scopes, index: usize, node: u32, call: u32, around: usize) -> bool {
    let Some(scope) = scopes.as_slice().get(index) else {
        return false;
    };
    let placed = match scope.parent {
        None => around == 0,
        Some(parent) => around > 0 && parent == around - 1,
    };
    placed && number(scope.place.node) == node && number(scope.place.inlined_at) == call
}

/// Whether the ranges of a scope have these ends.
fn has_ranges(scopes: &Scopes, index: usize, ends: &[(u64, u64)]) -> bool {
    let Some(scope) = scopes.as_slice().get(index) else {
        return false;
    };
    for (at, (lo, hi)) in ends.iter().enumerate() {
        match scope.ranges.as_slice().get(at) {
            Some(range) => {
                if range.lo != *lo || range.hi != *hi {
                    return false;
                }
            }
            None => return false,
        }
    }
    scope.ranges.len() == ends.len()
}

/// Whether the scopes are those of a table.
fn are_scopes(scopes: &Scopes, rows: &[Row]) -> bool {
    for (index, (node, call, around, ends)) in rows.iter().enumerate() {
        if !is_placed(scopes, index, *node, *call, *around) || !has_ranges(scopes, index, ends) {
            return false;
        }
    }
    scopes.len() == rows.len()
}

fn has_scopes(
    alloc: Global,
    parsed: &Parsed,
    meta: &Metadata,
    file: u32,
    rows: &[Row],
) -> Result<bool, Fail> {
    let code = code_of(alloc, &parsed.func, 0)?;
    let function = SourceAndCode {
        source: &parsed.func,
        code: &code,
    };
    let mut files = BTreeSet::new(alloc);
    files.insert(file)?;
    let found = scopes(alloc, &function, meta, &files)?;
    Ok(are_scopes(&found, rows))
}

/// Whether the function of a text, in which one node is a `DILexicalBlockFile`, has the scopes of a table.
fn has_scopes_of_text(alloc: Global, text: &str, file: u32, rows: &[Row]) -> Result<bool, Fail> {
    if text.len() >= 2_000 {
        return Err(Fail::from("a long text"));
    }
    let program = read_program(alloc, false, text.as_bytes())?;
    match program.functions.as_slice() {
        [parsed] => has_scopes(alloc, parsed, &program.meta, file, rows),
        _ => Ok(false),
    }
}

#[test]
fn scopes_stand_in_scopes(rt: HostRuntime) -> Result<(), Fail> {
    ranges_are_of_scoped_code();
    each_scope_is_there();
    assert!(rt; has_scopes_of_text(rt.alloc(), NESTED, 5, NESTED_SCOPES)?);
    assert!(rt; has_scopes_of_text(rt.alloc(), ROUND, 0, ROUND_SCOPES)?);
    Ok(())
}
