//! Parses lines and texts.

use crate::metadata::Meta;
use crate::text::push_bytes;
use crate::{documents, metadata, tokens};
use read_lexer::comment::{before_comment, before_memory_operands};
use std::alloc::{AllocError, Global};
use std::process::Abort;
use std::test::Fail;

/// What is asked of a text.
#[derive(Clone, Copy)]
enum Asked {
    /// The tokens of a line, or its fault.
    Tokens,
    /// The same where floating-point literals are tokens.
    LinkedTokens,
    /// What stands before a line's comment.
    Comment,
    /// What stands before a line's memory operands.
    MemoryOperands,
    /// The documents.
    Documents,
    /// What lines of metadata say.
    Meta(Meta),
}

/// Lines of a block of metadata as clang and llc 19 write it.
const BLOCK: &str = "  ; ModuleID = '<stdin>'
  source_filename = \"sum.c\"
  target triple = \"riscv64-unknown-linux-gnu\"

  define dso_local i64 @sum(i64 noundef %0) local_unnamed_addr #0 !dbg !11 {
      #dbg_value(i64 %0, !16, !DIExpression(), !21)
    %2 = icmp sgt i64 %0, 0, !dbg !22
    br i1 %10, label %3, label %11, !dbg !23, !llvm.loop !28
  11:                                               ; preds = %3, %1
  }
  declare !dbg !33 dso_local i64 @g(i64 noundef) local_unnamed_addr #1
  attributes #2 = { nounwind \"no-jump-tables\"=\"true\" }
  !llvm.dbg.cu = !{!0}
  !0 = distinct !DICompileUnit(language: DW_LANG_C11, file: !1, isOptimized: true, runtimeVersion: 0)
  !1 = !DIFile(filename: \"sum.c\", directory: \"/src\", checksumkind: CSK_MD5, checksum: \"7da5\")
  !2 = !{i32 7, !\"Dwarf Version\", i32 5}
  !11 = distinct !DISubprogram(name: \"sum\", scope: !1, file: !1, line: 2, type: !12, flags: DIFlagPrototyped \
    | DIFlagAllCallsDescribed, unit: !0, retainedNodes: !15)
  !12 = !DISubroutineType(types: !13)
  !14 = !DIBasicType(name: \"long\", size: 64, encoding: DW_ATE_signed)
  !15 = !{!16, !17}
  !16 = !DILocalVariable(name: \"n\", arg: 1, scope: !11, file: !1, line: 2, type: !14)
  !17 = !DILocalVariable(name: \"s\", scope: !11, file: !1, line: 3, type: !14)
  !20 = distinct !DILexicalBlock(scope: !11, file: !1, line: 5, column: 17)
  !21 = !DILocation(line: 0, scope: !11)
  !22 = !DILocation(line: 5, column: 12, scope: !20, inlinedAt: !24)
  !24 = distinct !DILocation(line: 9, column: 3, scope: !11)
  !25 = !DILexicalBlockFile(scope: !20, file: !26, discriminator: 2)
  !26 = !DIFile(filename: \"h.h\", directory: \"/inc\")
  !27 = !DILexicalBlock(scope: !11, line: 5)
  !28 = distinct !{!28, !29}
  !33 = !DISubprogram(name: \"g\", scope: !1, file: !14, line: 1)";

/// Lines of which some give one node or one function again, or say nothing that is read.
const AGAIN: &str = "!1 = !DICompositeType(size: 8)
!1 = !DILocation(column: 2)
!1 = !DILocation(line: 3)
!1 = !DILocation(line: 4)
!1 = !DILocalVariable(name: \"a\")
define void @f() !dbg !1073741824 {
define void @f() !dbg !7 {
define void @f() !dbg !8 {";

/// Two functions with keys in several orders, with and without a return before the end of a line.
const TWO: &str = "# llc\r
--- |\r
  !5 = x  \r

...
---
body: |
  bb.0:

    PseudoRET\x20
frameInfo:
  a: 1
name: 'g'
...
---\x20
stack:
  - { id: 0,

      size: 8 }
name: f
  more
body:
...";

/// What is told of it.
const TWO_TOLD: &str = "metadata 3[  !5 = x] 4[]
function 6 14
name 13[name: 'g']
stack
fixed
substitutions
body 8[  bb.0:] 9[] 10[    PseudoRET]
function 15 23
name 20[name: f] 21[  more]
stack 16[stack:] 17[  - { id: 0,] 18[] 19[      size: 8 }]
fixed
substitutions
body
None";

/// Lines, most of them as llc writes them, with each token's class and text, or with their faults.
const LINKED_TOKENS: &[(&str, &str)] = &[
    ("double 2.000000e+00, 1.5", "wdouble f2.000000e+00 ,, f1.5 "),
    ("-0.5e7 1.5e -2.0e-1 0x1", "f-0.5e7 f1.5 we f-2.0e-1 i0x1 "),
    ("1.5.2", "byte 3 begins no token"),
];

const TOKENS: &[(&str, &str)] = &[
    ("  bb.1 (%ir-block.4):", "wbb.1 (( p%ir-block.4 )) :: "),
    ("    liveins: $x10, $x11", "wliveins :: r$x10 ,, r$x11 "),
    (
        "    PseudoCALL target-flags(riscv-call) @g, csr_ilp32_lp64, implicit-def dead $x1, debug-instr-number 5, \
        debug-location !24",
        "wPseudoCALL wtarget-flags (( wriscv-call )) s@g ,, wcsr_ilp32_lp64 ,, wimplicit-def wdead r$x1 ,, \
        wdebug-instr-number i5 ,, wdebug-location n!24 ",
    ),
    (
        "    renamable $x9 = COPY killed renamable $x10",
        "wrenamable r$x9 == wCOPY wkilled wrenamable r$x10 ",
    ),
    (
        "    SD killed renamable $x14, killed renamable $x13, 0 :: (store (s64) into %ir.arrayidx, !tbaa !28)",
        "wSD wkilled wrenamable r$x14 ,, wkilled wrenamable r$x13 ,, i0 ",
    ),
    (
        "    PseudoCALL @g, CustomRegMask($x1,$x8), implicit-def dead $x1",
        "wPseudoCALL s@g ,, wCustomRegMask (( r$x1 ,, r$x8 )) ,, wimplicit-def wdead r$x1 ",
    ),
    (
        "    DBG_INSTR_REF !17, !DIExpression(DW_OP_LLVM_arg, 0), dbg-instr-ref(3, 0), debug-location !21",
        "wDBG_INSTR_REF n!17 ,, k!DIExpression (( wDW_OP_LLVM_arg ,, i0 )) ,, wdbg-instr-ref (( i3 ,, i0 )) ,, \
        wdebug-location n!21 ",
    ),
    (
        "  !17 = !DILocalVariable(name: \"what\", arg: 1, type: !15)",
        "n!17 == k!DILocalVariable (( wname :: t\"what\" ,, warg :: i1 ,, wtype :: n!15 )) ",
    ),
    (
        "      local-offset: -32, debug-info-variable: '!17' }",
        "wlocal-offset :: i-32 ,, wdebug-info-variable :: t'!17' }} ",
    ),
    ("fixedStack:      []", "wfixedStack :: [[ ]] "),
    ("\t$x5\t= LBU $x10,-1 ", "r$x5 == wLBU r$x10 ,, i-1 "),
    (
        "-0x10 0xfF-0x 0xg -a",
        "i-0 wx10 i0xfF i-0 wx i0 wxg -- wa ",
    ),
    ("@\"a b\"&_$1'\"'\"'\"", "s@\"a b\" s&_$1 t'\"' t\"'\" "),
    ("!5a!a5", "n!5 wa k!a5 "),
    ("", ""),
    ("$x10 = ADDI $x10, ^1", "byte 18 begins no token"),
    ("PseudoCALL @\"g", "the quote at byte 12 is not closed"),
    ("\"a' ^", "the quote at byte 0 is not closed"),
    ("$ x10", "byte 0 begins no token"),
    ("a ;b", "byte 2 begins no token"),
    ("id: 0 # x", "byte 6 begins no token"),
    ("&", "byte 0 begins no token"),
    ("@'a'", "byte 0 begins no token"),
    ("! 5", "byte 0 begins no token"),
    ("a\r", "byte 1 begins no token"),
];

/// Lines, and what stands before their comments.
const BEFORE_COMMENTS: &[(&str, &str)] = &[
    ("  - { id: 0 } ; one", "  - { id: 0 } "),
    (
        "SD $x12, %stack.0, 0 :: (store (s64) into %ir.p)",
        "SD $x12, %stack.0, 0 :: (store (s64) into %ir.p)",
    ),
    ("a ';::' b::c", "a ';::' b::c"),
    ("@\"x';y\" : : ;", "@\"x';y\" : : "),
    ("\"; ::", "\"; ::"),
    ("::;", "::"),
    ("", ""),
];

/// Lines, and what stands before their memory operands.
const BEFORE_MEMORY_OPERANDS: &[(&str, &str)] = &[
    ("  - { id: 0 } ; one", "  - { id: 0 } ; one"),
    (
        "SD $x12, %stack.0, 0 :: (store (s64) into %ir.p)",
        "SD $x12, %stack.0, 0 ",
    ),
    ("a ';::' b::c", "a ';::' b"),
    ("@\"x';y\" : : ;", "@\"x';y\" : : ;"),
    ("\"; ::", "\"; ::"),
    ("::;", ""),
    ("", ""),
];

/// Lines for node 1, and the line, column, scope and call of the location that they give.
const LOCATIONS: &[(&str, &str)] = &[
    (
        "!1 = !DILocation(line: 5, column: 12, scope: !11)",
        "5 12 Some(11) None",
    ),
    (
        "!1=distinct !DILocation(scope:!2,inlinedAt:!3,line:4)",
        "4 0 Some(2) Some(3)",
    ),
    (
        "!1 = !DILocation(line: 1073741823)",
        "1073741823 0 None None",
    ),
    ("!1 = !DILocation(line: 1073741824)", ""),
    (
        "!1 = !DILocation(line: 3, scope: !1073741823)",
        "3 0 Some(1073741823) None",
    ),
    ("!1 = !DILocation(line: 3, scope: !1073741824)", ""),
    (
        "!1 = !DILocation(line: 340282366920938463463374607431768211456)",
        "",
    ),
    (
        "!1 = !DILocation(line: 3, x: 340282366920938463463374607431768211456)",
        "3 0 None None",
    ),
    (
        "!001 = !DILocation(line: 0000000000007, column: 0x1F)",
        "7 31 None None",
    ),
    ("!1 = !DILocation(line: -0)", "0 0 None None"),
    ("!1 = !DILocation(line: -1)", ""),
    (
        "!1 = !DILocation(line: 3, x: [1, (2)], flags: A | B)",
        "3 0 None None",
    ),
    ("!1 = !DILocation(column: 4)", ""),
    ("!1 = !DILocation(line: 3, line: 3)", ""),
    ("!1 = !DILocation(line: 3 4)", ""),
    ("!1 = !DILocation(line: 3, column: !4)", ""),
    ("!1 = !DILocation(line: 3, scope: null)", ""),
    ("!1 = !DILocation(line: 3,)", ""),
    ("!1 = !DILocation(line: 3, column)", ""),
    ("!1 = !DILocation(line: 3, x: ])", ""),
    ("!1 = !DILocation(line: 3, x: [)", ""),
    ("!1 = !DILocation(line: 3", ""),
    ("!1 = !DILocation(line: 3) ; a comment", ""),
    ("!1 = !DILocation()", ""),
    ("\t!1 = !DILocation(line: 3)", ""),
    ("!x = !DILocation(line: 3)", ""),
];

/// Lines for node 1073741823, and the size and the encoding of the base type that they give.
const BASE_TYPES: &[(&str, &str)] = &[
    (
        "  !1073741823 = !DIBasicType(name: \"t\", size: 8, encoding: DW_ATE_boolean)",
        "1 2",
    ),
    (
        "  !1073741823 = !DIBasicType(name: \"t\", size: 2040, encoding: DW_ATE_address)",
        "255 1",
    ),
    (
        "  !1073741823 = !DIBasicType(name: \"t\", size: 2048, encoding: DW_ATE_address)",
        "",
    ),
    (
        "  !1073741823 = !DIBasicType(name: \"t\", size: 64, encoding: DW_ATE_float)",
        "8 4",
    ),
    (
        "  !1073741823 = !DIBasicType(name: \"t\", size: 16, encoding: DW_ATE_signed)",
        "2 5",
    ),
    (
        "  !1073741823 = !DIBasicType(name: \"t\", size: 8, encoding: DW_ATE_signed_char)",
        "1 6",
    ),
    (
        "  !1073741823 = !DIBasicType(name: \"t\", size: 32, encoding: DW_ATE_unsigned)",
        "4 7",
    ),
    (
        "  !1073741823 = !DIBasicType(name: \"t\", size: 8, encoding: DW_ATE_unsigned_char)",
        "1 8",
    ),
    (
        "  !1073741823 = !DIBasicType(name: \"t\", size: 32, encoding: DW_ATE_UTF)",
        "4 16",
    ),
    (
        "  !1073741823 = !DIBasicType(name: \"t\", size: 128, encoding: DW_ATE_complex_float)",
        "",
    ),
    (
        "  !1073741823 = !DIBasicType(name: \"t\", size: 0, encoding: DW_ATE_signed)",
        "",
    ),
    (
        "  !1073741823 = !DIBasicType(name: \"t\", size: 4, encoding: DW_ATE_signed)",
        "",
    ),
    (
        "  !1073741823 = !DIBasicType(name: \"t\", size: 12, encoding: DW_ATE_signed)",
        "",
    ),
    (
        "  !1073741823 = !DIBasicType(name: \"t\", size: 64, encoding: 5)",
        "",
    ),
    ("  !1073741823 = !DIBasicType(name: \"t\", size: 64)", ""),
    (
        "  !1073741823 = !DIBasicType(name: \"t\", encoding: DW_ATE_signed)",
        "",
    ),
];

/// Lines for node 7, and the name of the variable that they give, which is no parameter and has no type.
const NAMES: &[(&str, &str)] = &[
    ("!7 = !DILocalVariable(name: \"a\\22b\")", "a\"b 0 None"),
    ("!7 = !DILocalVariable(name: 'n')", "n 0 None"),
    ("!7 = !DILocalVariable(name: \"a\\00b\")", "a 0 None"),
    ("!7 = !DILocalVariable(name: \"a\0b\")", "a 0 None"),
    ("!7 = !DILocalVariable(name: \"\\5C41\")", "\\41 0 None"),
    ("!7 = !DILocalVariable(name: \"\\zz\\4\")", "\\zz\\4 0 None"),
    ("!7 = !DILocalVariable(name: \"\")", " 0 None"),
    ("!7 = !DILocalVariable(line: 4)", " 0 None"),
    ("!7 = !DILocalVariable(name: n)", ""),
    ("!7 = !DILocalVariable(name: \"a\", name: \"b\")", ""),
    ("!7 = !DILocalVariable(name: \"a\", arg: -1)", ""),
];

/// Lines that define functions, and the subprogram of the function `f`.
const DEFINITIONS: &[(&str, &str)] = &[
    ("define void @f() !dbg !7 {", "Some(7)"),
    ("  define void @\"f\"(ptr @g) #0 \\ !dbg\t !7 {", "Some(7)"),
    (
        "define void @\"\\66\"() !dbg !1073741823 {",
        "Some(1073741823)",
    ),
    ("define void @f() !dbg !1073741824 {", "None"),
    ("define void @f() \"!dbg !3\" !dbg !7 {", "Some(7)"),
    ("define \"@g\" @ @f() !dbg !7", "Some(7)"),
    ("define void @f() {", "None"),
    ("define void @f() !dbg!7 {", "None"),
    ("define !dbg !3 void @f() {", "None"),
    ("define void @g(ptr @f) !dbg !7 {", "None"),
    ("declare void @f() !dbg !7", "None"),
];

/// What is asked of the block of metadata, and what is told: nothing where no line says it.
const OF_BLOCK: &[(Meta, &str)] = &[
    (Meta::Variable(16), "n 1 Some(14)"),
    (Meta::Variable(17), "s 0 Some(14)"),
    (Meta::Variable(14), ""),
    (Meta::Variable(15), ""),
    (Meta::Variable(18), ""),
    (Meta::File(11), "sum.c /src"),
    (Meta::File(20), "sum.c /src"),
    (Meta::File(25), "h.h /inc"),
    (Meta::File(0), ""),
    (Meta::File(1), ""),
    (Meta::File(16), ""),
    (Meta::File(27), ""),
    (Meta::File(33), ""),
    (Meta::Location(22), "5 12 Some(20) Some(24)"),
    (Meta::BaseType(14), "8 5"),
    (Meta::Subprogram("sum"), "Some(11)"),
    (Meta::Subprogram("g"), "None"),
];

/// The same of lines that give one node or one function again.
const OF_AGAIN: &[(Meta, &str)] = &[
    (Meta::Location(1), "3 0 None None"),
    (Meta::Variable(1), ""),
    (Meta::Subprogram("f"), "Some(7)"),
];

/// A line whose number is above the limit.
const BEYOND: &str = "!1073741824 = !DIBasicType(name: \"t\", size: 8, encoding: DW_ATE_signed)";

/// Appends what is told of a text.
fn push_told(alloc: Global, told: &mut String, asked: Asked, text: &str) -> Result<(), AllocError> {
    let bytes = text.as_bytes();
    match asked {
        Asked::Tokens => tokens::push_tokens(alloc, false, told, bytes),
        Asked::LinkedTokens => tokens::push_tokens(alloc, true, told, bytes),
        Asked::Comment => push_bytes(told, before_comment(bytes)),
        Asked::MemoryOperands => push_bytes(told, before_memory_operands(bytes)),
        Asked::Documents => documents::push_documents_of(alloc, told, bytes),
        Asked::Meta(asked) => metadata::push_meta(alloc, told, asked, text),
    }
}

/// Compares what is told of texts.
fn ask(rt: &impl Abort, alloc: Global, asked: Asked, rows: &[(&str, &str)]) -> Result<(), Fail> {
    for (text, wanted) in rows {
        let mut told = String::new(alloc);
        push_told(alloc, &mut told, asked, text)?;
        assert_eq!(rt; told.as_str(), *wanted, "{text:?}");
    }
    Ok(())
}

/// Compares what is told of one text of metadata.
fn ask_meta(rt: &impl Abort, alloc: Global, text: &str, rows: &[(Meta, &str)]) -> Result<(), Fail> {
    for (asked, wanted) in rows {
        ask(rt, alloc, Asked::Meta(*asked), &[(text, *wanted)])?;
    }
    Ok(())
}

#[test]
fn reads_tokens(rt: HostRuntime) -> Result<(), Fail> {
    ask(&rt, rt.alloc(), Asked::Tokens, TOKENS)?;
    ask(&rt, rt.alloc(), Asked::LinkedTokens, LINKED_TOKENS)
}

#[test]
fn reads_ends_of_lines(rt: HostRuntime) -> Result<(), Fail> {
    ask(&rt, rt.alloc(), Asked::Comment, BEFORE_COMMENTS)?;
    ask(
        &rt,
        rt.alloc(),
        Asked::MemoryOperands,
        BEFORE_MEMORY_OPERANDS,
    )
}

#[test]
fn reads_locations(rt: HostRuntime) -> Result<(), Fail> {
    ask(&rt, rt.alloc(), Asked::Meta(Meta::Location(1)), LOCATIONS)
}

#[test]
fn reads_types(rt: HostRuntime) -> Result<(), Fail> {
    ask(
        &rt,
        rt.alloc(),
        Asked::Meta(Meta::BaseType(1073741823)),
        BASE_TYPES,
    )?;
    ask_meta(&rt, rt.alloc(), BEYOND, &[(Meta::BaseType(1073741824), "")])
}

#[test]
fn reads_names(rt: HostRuntime) -> Result<(), Fail> {
    ask(&rt, rt.alloc(), Asked::Meta(Meta::Variable(7)), NAMES)?;
    ask(
        &rt,
        rt.alloc(),
        Asked::Meta(Meta::Subprogram("f")),
        DEFINITIONS,
    )
}

#[test]
fn reads_blocks(rt: HostRuntime) -> Result<(), Fail> {
    ask_meta(&rt, rt.alloc(), BLOCK, OF_BLOCK)?;
    ask_meta(&rt, rt.alloc(), AGAIN, OF_AGAIN)?;
    ask(&rt, rt.alloc(), Asked::Documents, &[(TWO, TWO_TOLD)])
}
