//! The documents of functions with their debug items, numbers and substitutions.

use mir_func_printer::print::print_func;
use read_program::closing::Parsed;
use read_program::program::read_program;
use std::alloc::Global;
use std::test::Fail;

/// Documents that are printed as they are read.
const TEXTS: &[&str] = &[
    "---
name: f
body: |
  bb.0:
    $x10 = ADDI $x10, 1, debug-location !5
    PseudoRET implicit $x10, debug-location !5
...
",
    r#"---
name: "a \22-\5C\0A"
stack:
  - { id: 7, size: 8 }
  - { id: 0, size: 8 }
  - { id: 3, size: 40, alignment: 16 }
debugValueSubstitutions:
  - { srcinst: 4, srcop: 0, dstinst: 2, dstop: 1, subreg: 0 }
  - { srcinst: 5, srcop: 2, dstinst: 4, dstop: 0, subreg: 6 }
body: |
  bb.12:
    $x10 = ADDI $x10, 1, debug-location !5
    SD $x10, %stack.7, 0
    SD $x10, %stack.0, 0
    $x11 = LW %stack.3, 0
    DBG_PHI %stack.0, 2
    PseudoRET implicit $x10, debug-location !5
...
"#,
];

/// Whether a function is printed as a text.
fn is_printed(alloc: Global, parsed: &Parsed, text: &str) -> Result<bool, Fail> {
    let printed = print_func(alloc, &parsed.func, &parsed.subs)?;
    Ok(printed.as_slice() == text.as_bytes())
}

/// Whether a text has one function, which is printed as it is read.
fn is_printed_again(alloc: Global, text: &str) -> Result<bool, Fail> {
    if text.len() >= 1_000 {
        return Err(Fail::from("a long text"));
    }
    let program = read_program(alloc, false, text.as_bytes())?;
    match program.functions.as_slice() {
        [parsed] => is_printed(alloc, parsed, text),
        _ => Ok(false),
    }
}

/// The number of the first text that isn't.
fn other_text(alloc: Global, texts: &[&str]) -> Result<Option<usize>, Fail> {
    for (row, text) in texts.iter().enumerate() {
        if !is_printed_again(alloc, text)? {
            return Ok(Some(row));
        }
    }
    Ok(None)
}

#[test]
fn functions_are_printed_as_they_are_read(rt: HostRuntime) -> Result<(), Fail> {
    assert_eq!(rt; other_text(rt.alloc(), TEXTS)?, None);
    Ok(())
}
