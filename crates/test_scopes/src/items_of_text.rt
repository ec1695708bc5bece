//! What stands inside the functions of texts, by hand from the LLVM Language Reference Manual ("DILocalVariable",
//! "DILexicalBlock", "DILexicalBlockFile") and from DWARF 5 sections 3.3.8.2, 3.5 and 4.1.

use dwarf_line_table::source_and_code::SourceAndCode;
use dwarf_unit::variables::variables;
use emit_function::code::code_of;
use read_debug_nodes::metadata::{DebugMetadata, read_debug_metadata};
use read_documents::frame::documents;
use read_metadata::metadata::Metadata;
use read_program::closing::Parsed;
use read_program::program::read_program;
use scope_entries::items::scope_items;
use scope_entries::laws::scopes_stand_in_scopes;
use scope_numbers::item::{NumberedItem, NumberedItems};
use scope_numbers::numbers::NumberedLists;
use scope_ranges::scopes::scopes;
use scope_variables::files::file_blocks;
use scope_variables::laws::{scopes_have_their_variables, variables_stand_in_order};
use scope_variables::table::VariableTable;
use std::alloc::{AllocError, Global};
use std::fmt::Write;
use std::test::Fail;

/// A function with two parameters, which its metadata has in the wrong order, and a variable that isn't marked. The
/// scope of `round` leads round, that of `gone` has no code, and !40 is no node. The block 6 has no variables, and in it
/// is a function that was inlined, with a parameter and a variable.
const VARIABLES: &str = "--- |
  define i64 @f(i64 %m, i64 %n) !dbg !2 { ret i64 0 }
  !2 = distinct !DISubprogram(name: \"f\", line: 20)
  !3 = distinct !DISubprogram(name: \"square\", line: 5)
  !4 = distinct !DILexicalBlock(scope: !2, line: 21)
  !5 = !DILexicalBlockFile(scope: !4, discriminator: 0)
  !6 = distinct !DILexicalBlock(scope: !4, line: 22)
  !7 = !DILexicalBlockFile(scope: !8, discriminator: 0)
  !8 = !DILexicalBlockFile(scope: !7, discriminator: 0)
  !9 = distinct !DILexicalBlock(scope: !2, line: 30)
  !10 = !DILocation(line: 20, column: 1, scope: !2)
  !11 = !DILocation(line: 21, column: 2, scope: !4)
  !12 = !DILocation(line: 22, column: 3, scope: !6)
  !13 = distinct !DILocation(line: 22, column: 4, scope: !6)
  !14 = !DILocation(line: 5, column: 5, scope: !3, inlinedAt: !13)
  !20 = !DILocalVariable(name: \"n\", arg: 2, scope: !2)
  !21 = !DILocalVariable(name: \"m\", arg: 1, scope: !2)
  !22 = !DILocalVariable(name: \"n\", scope: !5)
  !23 = !DILocalVariable(name: \"k\", arg: 1, scope: !3)
  !24 = !DILocalVariable(name: \"i\", scope: !2)
  !25 = !DILocalVariable(name: \"round\", scope: !7)
  !26 = !DILocalVariable(name: \"gone\", scope: !9)
  !27 = !DILocalVariable(name: \"j\", scope: !3)
...
---
name: f
body: |
  bb.0:
    DBG_VALUE $x11, $noreg, !20, !DIExpression(), debug-location !10
    DBG_VALUE $x10, $noreg, !25, !DIExpression(), debug-location !10
    DBG_VALUE $x10, $noreg, !26, !DIExpression(), debug-location !10
    $x10 = ADDI $x10, 1, debug-location !10
    DBG_VALUE $x10, $noreg, !22, !DIExpression(), debug-location !11
    $x10 = ADDI $x10, 1, debug-location !11
    DBG_VALUE $x10, $noreg, !23, !DIExpression(), debug-location !14
    $x10 = ADDI $x10, 1, debug-location !14
    $x10 = ADDI $x10, 1, debug-location !12
    DBG_VALUE $x10, $noreg, !40, !DIExpression(), debug-location !10
    PseudoRET implicit $x10, debug-location !10
...
";

/// What is told of it: variables by their nodes, each with the number of its list if it has one; in brackets what stands
/// in the scope with an index, with the number of its ranges; and behind that the function's lists, in the order of
/// their numbers.
const VARIABLE_ITEMS: &str = " 21 20:0 24 25:1 40:2 (0:0 22:3 (2:1 23:4 27 ) ) =0 =1 =5 =3 =4";

/// What is told of items, and of the lists of a program.
fn told(alloc: Global, items: &NumberedItems, lists: &NumberedLists) -> Result<String, AllocError> {
    let mut told = String::new(alloc);
    for item in items.as_slice() {
        match item {
            NumberedItem::Variable(variable) => {
                write!(told, " {}", variable.node.number())?;
                if let Some(list) = variable.list {
                    write!(told, ":{list}")?;
                }
            }
            NumberedItem::Open(scope) => write!(told, " ({}:{}", scope.index, scope.list)?,
            NumberedItem::End => told.push_str(" )")?,
        }
    }
    for list in lists.lists.as_slice() {
        write!(told, " ={}", list.list)?;
    }
    Ok(told)
}

/// What is told of a function.
fn told_of_function(
    alloc: Global,
    parsed: &Parsed,
    meta: &Metadata,
    debug: &DebugMetadata,
) -> Result<String, Fail> {
    let code = code_of(alloc, &parsed.func, 0)?;
    let function = SourceAndCode {
        source: &parsed.func,
        code: &code,
    };
    let files = file_blocks(alloc, debug)?;
    let table = VariableTable::new(alloc, debug)?;
    let marked = variables(alloc, parsed.func.blocks.as_slice())?;
    let subprogram = meta.subprogram_of(&parsed.func.name);
    let found = scopes(alloc, &function, meta, &files)?;
    let found = found.as_slice();
    let items = scope_items(
        alloc,
        meta,
        debug,
        &table,
        marked.as_slice(),
        subprogram,
        found,
    )?;
    let mut lists = NumberedLists::new(alloc);
    let numbered = lists.number(alloc, 0, found, items.as_slice())?;
    Ok(told(alloc, &numbered, &lists)?)
}

/// What is told of the function of a text.
fn told_of_text(alloc: Global, text: &str) -> Result<String, Fail> {
    if text.len() >= 4_000 {
        return Err(Fail::from("a long text"));
    }
    let program = read_program(alloc, false, text.as_bytes())?;
    let parts = documents(alloc, false, text.as_bytes())?;
    let debug = read_debug_metadata(alloc, &parts.meta)?;
    match program.functions.as_slice() {
        [parsed] => told_of_function(alloc, parsed, &program.meta, &debug),
        _ => Err(Fail::from("not one function")),
    }
}

#[test]
fn variables_stand_in_their_scopes(rt: HostRuntime) -> Result<(), Fail> {
    scopes_stand_in_scopes();
    scopes_have_their_variables();
    variables_stand_in_order();
    let told = told_of_text(rt.alloc(), VARIABLES)?;
    assert!(rt; told.as_str() == VARIABLE_ITEMS);
    Ok(())
}
