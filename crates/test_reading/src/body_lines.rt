//! How lines of a body parse.

use mir_func::location::Loc;
use read_line::body::body_line;
use read_line::form::{
    AddressForm, BodyLine, Expression, FormError, ItemForm, OperandForm, RegisterForm,
};
use read_token::lexeme::{BEYOND, Flag, RegisterName};
use rv64_instr::name::Name;
use rv64_instr::symbol::{Half, Symbol};
use std::alloc::{AllocError, Global};
use std::test::Fail;

/// Lines, many of them written by llc, with what they say: definitions and `=`, the opcode, and behind each `;` an
/// operand, the number that the item gives, or its location. `+` and `*` stand before implicit registers that are read
/// and set.
const LINES: &[(&str, &str)] = &[
    ("", "passed"),
    ("\t ; only a comment", "passed"),
    (
        "    successors: %bb.1(0x7c000000), %bb.2(0x04000000) ^",
        "passed",
    ),
    ("    liveins: $x10, $x11", "passed"),
    ("  bb.0:", "label 0"),
    (
        "  bb.007.while.body (%ir-block.4, address-taken):",
        "label 7",
    ),
    ("  bb.1073741824 (a):", "label beyond"),
    ("  bb.3 (align 4", "BadLine"),
    ("  bb.3: $x10", "BadLine"),
    ("  bb.3.:", "BadLine"),
    ("  bb.3 ADDI", "ADDI"),
    (
        "    renamable $x9 = ADDI $x0, 0, debug-instr-number 1 ; a comment",
        "x9 = ADDI; x0; 0; number 1",
    ),
    (
        "    $x10, implicit-def dead $x2 = ADDI killed renamable $x10, -1, debug-location !13",
        "x10, *x2 = ADDI; x10; -1; at 13",
    ),
    (
        "    dead early-clobber %5:gpr, $x07 = frame-setup nsw ADD undef %6 (tied-def 0), $noreg",
        "%5, other = ADD; %6; noreg",
    ),
    (
        "    $x31 = LW $x32, -2048 :: (load (s32) from %ir.a)",
        "x31 = LW; other; -2048",
    ),
    (
        "    SD killed renamable $x14, %stack.0.s, 0 :: (store (s64) into %ir.x, !tbaa !28)",
        "SD; x14; slot 0; 0",
    ),
    (
        "    BNE renamable $x8, $x0, %bb.1.loop, debug-location !14",
        "BNE; x8; x0; block 1; at 14",
    ),
    (
        "    ADJCALLSTACKDOWN 0, 0, implicit-def dead $x2, implicit $x2, debug-location !14",
        "ADJCALLSTACKDOWN; 0; 0; *x2; +x2; at 14",
    ),
    (
        "    PseudoCALL target-flags(riscv-call) @g, csr_ilp32_lp64, implicit-def dead $x1, implicit $x10, \
         debug-instr-number 5, debug-location !24",
        "PseudoCALL; @g; mask; *x1; +x10; number 5; at 24",
    ),
    (
        "    PseudoCALL &\"a \\22\\5C\\zb\", CustomRegMask($x1,(a),$x8), implicit-def $x1",
        "PseudoCALL; @a \"\\\\zb; mask; *x1",
    ),
    (
        "    PseudoRET implicit $x10, debug-location !5",
        "PseudoRET; +x10; at 5",
    ),
    (
        "    PseudoRET debug-location !5, debug-instr-number 7",
        "PseudoRET; number 7; at 5",
    ),
    (
        "    PseudoRET, debug-location !DILocation(scope: !3, line: 5, inlinedAt: !9)",
        "PseudoRET; at 5 0 3 in 9",
    ),
    (
        "    PseudoRET debug-location !DILocation(line: 5, column: 10, scope: !8)",
        "PseudoRET; at 5 10 8",
    ),
    (
        "    DBG_VALUE $x10, $noreg, !11, !DIExpression(), debug-location !13",
        "DBG_VALUE; x10; noreg; !11; empty; at 13",
    ),
    (
        "    DBG_VALUE 9223372036854775808, $noreg, !11, !DIExpression(DW_OP_constu, 18446744073709551615)",
        "DBG_VALUE; large; noreg; !11; expression",
    ),
    (
        "    DBG_VALUE -9223372036854775808, $noreg, !11, !DIExpression(DW_OP_LLVM_fragment, 32, 32)",
        "DBG_VALUE; -9223372036854775808; noreg; !11; part 4 4",
    ),
    (
        "    DBG_VALUE 0x10, $noreg, !11, !DIExpression(DW_OP_LLVM_fragment, 0, 12)",
        "DBG_VALUE; 16; noreg; !11; expression",
    ),
    (
        "    DBG_VALUE -0, $noreg, !11, !DIExpression(DW_OP_LLVM_fragment, 65472, 64)",
        "DBG_VALUE; 0; noreg; !11; part 8184 8",
    ),
    (
        "    DBG_VALUE 007, $noreg, !11, !DIExpression(DW_OP_LLVM_fragment, 65480, 64)",
        "DBG_VALUE; 7; noreg; !11; expression",
    ),
    (
        "    DBG_INSTR_REF !12, !DIExpression(DW_OP_LLVM_arg, 0), dbg-instr-ref(2, 0), debug-location !13",
        "DBG_INSTR_REF; !12; argument; pair 2 0; at 13",
    ),
    (
        "    DBG_INSTR_REF !12, !DIExpression(DW_OP_LLVM_arg, 0, DW_OP_LLVM_fragment, 8, 8), dbg-instr-ref(2, 1)",
        "DBG_INSTR_REF; !12; argument part 1 1; pair 2 1",
    ),
    (
        "    DBG_INSTR_REF !12, !DIExpression(DW_OP_LLVM_arg, 1), dbg-instr-ref(1073741824, -1)",
        "DBG_INSTR_REF; !12; expression; pair beyond beyond; exceeds",
    ),
    (
        "    DBG_INSTR_REF !1073741824, !DIExpression((), x), dbg-instr-ref(1073741823, 0)",
        "DBG_INSTR_REF; !beyond; expression; pair 1073741823 0; exceeds",
    ),
    ("    DBG_PHI %5, 3, 64", "DBG_PHI; %5; 3; 64"),
    (
        "    DBG_VALUE 340282366920938463463374607431768211455, $noreg, !4, !DIExpression()",
        "DBG_VALUE; large; noreg; !4; empty",
    ),
    (
        "    DBG_VALUE $noreg, $noreg, !4, !DIExpression(DW_OP_constu, 340282366920938463463374607431768211456)",
        "DBG_VALUE; noreg; noreg; !4; expression; exceeds",
    ),
    ("    $x10 = ADDI implicit implicit $x10, -0x1", "BadLine"),
    ("    $x10 = ADDI implicit implicit-def $x10, 1", "BadLine"),
    ("    $x10 $x11 = ADD", "BadLine"),
    ("    $x10 = renamable", "BadLine"),
    ("    $x10, = ADD", "BadLine"),
    ("    $x10 = ADDI $x10 1", "BadLine"),
    ("    $x10 = ADDI $x10, 1,", "BadLine"),
    ("    PseudoRET debug-location !5, implicit $x10", "BadLine"),
    (
        "    PseudoRET debug-location !5, debug-location !5",
        "BadLine",
    ),
    (
        "    PseudoRET debug-location !DILocation(line: 5)",
        "BadLine",
    ),
    (
        "    PseudoRET debug-location !DILocation(line: 5, line: 5, scope: !3)",
        "BadLine",
    ),
    ("    PseudoCALL target-flags(riscv-call) 5, csr", "BadLine"),
    ("    CFI_INSTRUCTION x 16", "BadLine"),
    ("    DBG_VALUE double 0.0, $noreg", "BadByte"),
    ("    $x10 = ADDI %fixed-stack.0, 1", "BadLine"),
    ("    $x10 = ADDI $x10 (tied-def 0), 1", "x10 = ADDI; x10; 1"),
    ("    $x10 = ADDI $x10 (0), 1", "BadLine"),
    ("    $x10 = ADDI %5:gpr(s64), 1", "BadLine"),
    ("    $x10 = ADDI $x10, ^1", "BadByte"),
    ("    PseudoCALL @\"g", "UnclosedString"),
    ("    _add $x10", "BadLine"),
];

/// Lines with what they say, and what they say in the linked language. `hi` and `lo` stand before halves of addresses,
/// and what is added to an address behind it.
const LINKED_LINES: &[(&str, &str, &str)] = &[
    (
        "    $x10 = LUI target-flags(riscv-hi) @g",
        "x10 = LUI; @g",
        "x10 = LUI; hi @g",
    ),
    (
        "    SW $x10, $x11, target-flags(riscv-lo) @g - 8",
        "BadLine",
        "SW; x10; x11; lo @g -8",
    ),
    (
        "    SW $x10, $x11, target-flags(riscv-lo) @g - 2147483648",
        "BadLine",
        "SW; x10; x11; lo @g -2147483648",
    ),
    (
        "    SW $x10, $x11, target-flags(riscv-lo) @g + 2147483648",
        "BadLine",
        "SW; x10; x11; lo @g large",
    ),
    (
        "    $x11 = LD $x10, target-flags(riscv-lo) %const.1 + 8, debug-instr-number 1",
        "BadLine",
        "x11 = LD; x10; lo constant 1 8; number 1",
    ),
    (
        "    $x10 = PseudoMovAddr target-flags(riscv-hi) @g + 5, target-flags(riscv-lo) @g + 5",
        "BadLine",
        "x10 = PseudoMovAddr; hi @g 5; lo @g 5",
    ),
    (
        "    noreturn PseudoCALL @n, mask, implicit $x11",
        "noreturn PseudoCALL; @n; mask; +x11",
        "noreturn PseudoCALL; @n; mask; +x11",
    ),
    (
        "    $x11 = ADDI %fixed-stack.1, 8",
        "BadLine",
        "x11 = ADDI; fixed 1; 8",
    ),
    (
        "    DBG_VALUE @g + 4, $noreg, !11, !DIExpression()",
        "BadLine",
        "DBG_VALUE; @g 4; noreg; !11; empty",
    ),
    (
        "    DBG_VALUE i64 5, $noreg, !11, !DIExpression()",
        "BadLine",
        "DBG_VALUE; literal; noreg; !11; empty",
    ),
    (
        "    DBG_VALUE double 2.000000e+00, $noreg, !11, !DIExpression()",
        "BadByte",
        "DBG_VALUE; literal; noreg; !11; empty",
    ),
    (
        "    $x10 = COPY double -1.5",
        "BadByte",
        "x10 = COPY; literal",
    ),
    ("    $x10 = ADDI $x11, 1.5", "BadByte", "BadLine"),
    ("    $x10 = ADDI $x11, 1.5 \"", "BadByte", "UnclosedString"),
    ("    $x10 = ADDI $x11, 1.", "BadByte", "BadByte"),
    ("    successors:", "passed", "closed"),
    ("    successors: %bb.1(0x80000000)", "passed", "passed"),
];

/// Appends a number, and the word `beyond` for one above the limit.
fn push_number(alloc: Global, text: &mut String, n: u32) -> Result<(), AllocError> {
    if n < BEYOND {
        text.push_str(format!(in alloc; "{n}")?.as_str())
    } else {
        text.push_str("beyond")
    }
}

/// The words and the number of a register.
fn register_parts(name: RegisterName) -> (&'static str, Option<u32>) {
    match name {
        RegisterName::Physical(r) => ("x", Some(r.number())),
        RegisterName::Absent => ("noreg", None),
        RegisterName::Other => ("other", None),
        RegisterName::Virtual(n) => ("%", Some(n)),
    }
}

fn flag_mark(flag: Flag) -> &'static str {
    match flag {
        Flag::Plain => "",
        Flag::Implicit => "+",
        Flag::ImplicitDef => "*",
    }
}

/// Appends words, and a number behind them where there is one.
fn push_parts(
    alloc: Global,
    text: &mut String,
    parts: (&str, Option<u32>),
) -> Result<(), AllocError> {
    text.push_str(parts.0)?;
    match parts.1 {
        Some(n) => push_number(alloc, text, n),
        None => Ok(()),
    }
}

fn push_register(alloc: Global, text: &mut String, form: RegisterForm) -> Result<(), AllocError> {
    text.push_str(flag_mark(form.flag))?;
    push_parts(alloc, text, register_parts(form.name))
}

fn push_expression(
    alloc: Global,
    text: &mut String,
    expression: Expression,
) -> Result<(), AllocError> {
    let (words, part) = match expression {
        Expression::Empty => ("empty", None),
        Expression::Argument => ("argument", None),
        Expression::Part(part) => ("part ", Some(part)),
        Expression::PartOfArgument(part) => ("argument part ", Some(part)),
        Expression::Other => ("expression", None),
    };
    text.push_str(words)?;
    if let Some(part) = part {
        push_number(alloc, text, part.offset())?;
        text.push_str(" ")?;
        push_number(alloc, text, part.length())?;
    }
    Ok(())
}

/// Appends a word and a number.
fn push_numbered(alloc: Global, text: &mut String, word: &str, n: u32) -> Result<(), AllocError> {
    text.push_str(word)?;
    push_number(alloc, text, n)
}

fn push_name(text: &mut String, name: &Name) -> Result<(), AllocError> {
    text.push_str("@")?;
    for b in name.as_slice() {
        text.push(char::from(*b))?;
    }
    Ok(())
}

fn push_address(alloc: Global, text: &mut String, address: &AddressForm) -> Result<(), AllocError> {
    match &address.symbol {
        Symbol::Global(name) => push_name(text, name)?,
        Symbol::Constant(n) => push_numbered(alloc, text, "constant ", *n)?,
    }
    match address.addend {
        Some(0) => Ok(()),
        Some(i) => text.push_str(format!(in alloc; " {i}")?.as_str()),
        None => text.push_str(" large"),
    }
}

fn push_operand(alloc: Global, text: &mut String, operand: &OperandForm) -> Result<(), AllocError> {
    match operand {
        OperandForm::Register(form) => push_register(alloc, text, *form),
        OperandForm::Integer(Some(i)) => text.push_str(format!(in alloc; "{i}")?.as_str()),
        OperandForm::Integer(None) => text.push_str("large"),
        OperandForm::Slot(n) => push_numbered(alloc, text, "slot ", n.number()),
        OperandForm::Block(n) => push_numbered(alloc, text, "block ", n.number()),
        OperandForm::Symbol(name) => push_name(text, name),
        OperandForm::Part(Half::Upper, address) => {
            text.push_str("hi ")?;
            push_address(alloc, text, address)
        }
        OperandForm::Part(Half::Lower, address) => {
            text.push_str("lo ")?;
            push_address(alloc, text, address)
        }
        OperandForm::Address(address) => push_address(alloc, text, address),
        OperandForm::Fixed(n) => push_numbered(alloc, text, "fixed ", *n),
        OperandForm::Literal => text.push_str("literal"),
        OperandForm::Mask => text.push_str("mask"),
        OperandForm::Node(n) => push_numbered(alloc, text, "!", n.number()),
        OperandForm::Expression(expression) => push_expression(alloc, text, *expression),
        OperandForm::Reference(pair) => {
            push_numbered(alloc, text, "pair ", pair.number.number())?;
            push_numbered(alloc, text, " ", pair.operand.number())
        }
    }
}

fn push_location(alloc: Global, text: &mut String, loc: Loc) -> Result<(), AllocError> {
    match loc {
        Loc::Absent => Ok(()),
        Loc::Node(n) => push_numbered(alloc, text, "; at ", n.number()),
        Loc::Inline(l) => {
            push_numbered(alloc, text, "; at ", l.line)?;
            push_numbered(alloc, text, " ", l.column)?;
            push_numbered(alloc, text, " ", l.scope.number())?;
            match l.inlined_at {
                Some(n) => push_numbered(alloc, text, " in ", n.number()),
                None => Ok(()),
            }
        }
    }
}

fn push_definitions(alloc: Global, text: &mut String, item: &ItemForm) -> Result<(), AllocError> {
    for (at, form) in item.definitions.as_slice().iter().enumerate() {
        if 0 < at {
            text.push_str(", ")?;
        }
        push_register(alloc, text, *form)?;
    }
    if item.definitions.is_empty() {
        Ok(())
    } else {
        text.push_str(" = ")
    }
}

fn push_item(alloc: Global, text: &mut String, item: &ItemForm) -> Result<(), AllocError> {
    push_definitions(alloc, text, item)?;
    if item.no_return {
        text.push_str("noreturn ")?;
    }
    for b in item.opcode.as_slice() {
        text.push(char::from(*b))?;
    }
    for operand in item.operands.as_slice() {
        text.push_str("; ")?;
        push_operand(alloc, text, operand)?;
    }
    if let Some(n) = item.number {
        push_numbered(alloc, text, "; number ", n.number())?;
    }
    push_location(alloc, text, item.loc)?;
    if item.exceeds {
        text.push_str("; exceeds")?;
    }
    Ok(())
}

/// Appends what a line says, in the table's words.
fn push_line(alloc: Global, text: &mut String, linked: bool, line: &str) -> Result<(), AllocError> {
    match body_line(alloc, linked, line.as_bytes()) {
        Ok(BodyLine::Passed) => text.push_str("passed"),
        Ok(BodyLine::Closed) => text.push_str("closed"),
        Ok(BodyLine::Label(Some(n))) => push_numbered(alloc, text, "label ", n.number()),
        Ok(BodyLine::Label(None)) => text.push_str("label beyond"),
        Ok(BodyLine::Item(item)) => push_item(alloc, text, &item),
        Err(FormError::BadByte) => text.push_str("BadByte"),
        Err(FormError::UnclosedString) => text.push_str("UnclosedString"),
        Err(FormError::BadLine) => text.push_str("BadLine"),
        Err(FormError::Memory) => Err(AllocError),
    }
}

/// Whether a line says this.
fn says(alloc: Global, linked: bool, line: &str, wanted: &str) -> Result<bool, AllocError> {
    let mut text = String::new(alloc);
    push_line(alloc, &mut text, linked, line)?;
    Ok(text.as_str() == wanted)
}

/// The first line that says something else.
fn other_line(
    alloc: Global,
    rows: &[(&'static str, &str)],
) -> Result<Option<&'static str>, AllocError> {
    for (line, wanted) in rows {
        if !says(alloc, false, line, wanted)? {
            return Ok(Some(*line));
        }
    }
    Ok(None)
}

/// The first line that says something else without or with the linked language.
fn other_linked_line(
    alloc: Global,
    rows: &[(&'static str, &str, &str)],
) -> Result<Option<&'static str>, AllocError> {
    for (line, plain, linked) in rows {
        if !says(alloc, false, line, plain)? || !says(alloc, true, line, linked)? {
            return Ok(Some(*line));
        }
    }
    Ok(None)
}

#[test]
fn reads_lines(rt: HostRuntime) -> Result<(), Fail> {
    assert_eq!(rt; other_line(rt.alloc(), LINES)?, None);
    assert_eq!(rt; other_linked_line(rt.alloc(), LINKED_LINES)?, None);
    Ok(())
}
