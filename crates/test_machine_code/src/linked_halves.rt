//! Functions with halves of symbols' addresses.

use crate::linked_rows::Home::*;
use crate::linked_rows::Line::*;
use crate::linked_rows::Source::*;
use crate::linked_rows::Word::*;
use crate::linked_rows::{ADDI, End, LD, RETURN, Row};
use rv64_instr::op::LoadOp::Lhu;
use rv64_instr::op::Op;
use rv64_instr::op::RegisterOp::Xor;
use rv64_instr::op::StoreOp::Sw;

/// The global `g` is at 6139, constant 0 of the pool at 36864. The bytes from `g` on are 42, 1 and zeros; the constant
/// is 0x123456789abcdef0. The words are those that an assembler of LLVM writes before the program is linked.
pub const HALVES: &[Row] = &[
    // what the global has
    Row {
        stack: &[],
        blocks: &[&[
            Code(Op::Lui, &[Def(10), Upper(0)]),
            Numbered(LD, &[Def(10), Use(10), Lower(0)]),
            Refers,
            RETURN,
        ]],
        text: "$x10 = LUI target-flags(riscv-hi) @g\n\
            $x10 = LD $x10, target-flags(riscv-lo) @g, debug-instr-number 1\n\
            DBG_INSTR_REF !4, !DIExpression(DW_OP_LLVM_arg, 0), dbg-instr-ref(1, 0)\n\
            PseudoRET implicit $x10\n",
        copies: false,
        arguments: &[],
        answer: (0, 0),
        words: &[0x00000537, 0x00053503, 0x00008067],
        ranges: &[(8, 12, In(10))],
        value: 298,
        steps: &[(0, Item(0, 0)), (4, Item(0, 1)), (8, Item(0, 3))],
        end: End::Returned,
        held: &[(10, 298)],
    },
    // an address whose lower half is negative, so that the upper one is rounded up
    Row {
        stack: &[],
        blocks: &[&[
            Code(Op::Lui, &[Def(10), Upper(5)]),
            Numbered(ADDI, &[Def(10), Use(10), Lower(5)]),
            Refers,
            RETURN,
        ]],
        text: "$x10 = LUI target-flags(riscv-hi) @g + 5\n\
            $x10 = ADDI $x10, target-flags(riscv-lo) @g + 5, debug-instr-number 1\n\
            DBG_INSTR_REF !4, !DIExpression(DW_OP_LLVM_arg, 0), dbg-instr-ref(1, 0)\n\
            PseudoRET implicit $x10\n",
        copies: false,
        arguments: &[],
        answer: (0, 0),
        words: &[0x00000537, 0x00050513, 0x00008067],
        ranges: &[(8, 12, In(10))],
        value: 6144,
        steps: &[(0, Item(0, 0)), (4, Item(0, 1)), (8, Item(0, 3))],
        end: End::Returned,
        held: &[(10, 6144)],
    },
    // a constant of the pool
    Row {
        stack: &[],
        blocks: &[&[
            Code(Op::Lui, &[Def(11), UpperOfConstant]),
            Code(LD, &[Def(11), Use(11), LowerOfConstant]),
            Code(Op::Registers(Xor), &[Def(10), Use(10), Use(11)]),
            RETURN,
        ]],
        text: "$x11 = LUI target-flags(riscv-hi) %const.0\n\
            $x11 = LD $x11, target-flags(riscv-lo) %const.0\n\
            $x10 = XOR $x10, $x11\n\
            PseudoRET implicit $x10\n",
        copies: false,
        arguments: &[],
        answer: (0, 0),
        words: &[0x000005b7, 0x0005b583, 0x00b54533, 0x00008067],
        ranges: &[],
        value: 0,
        steps: &[
            (0, Item(0, 0)),
            (4, Item(0, 1)),
            (8, Item(0, 2)),
            (12, Item(0, 3)),
        ],
        end: End::Returned,
        held: &[(10, 1_311_768_467_463_789_826)],
    },
    // four bytes are stored, and the second and third of them loaded
    Row {
        stack: &[],
        blocks: &[&[
            Code(Op::Lui, &[Def(11), Upper(8)]),
            Code(Op::Store(Sw), &[Use(10), Use(11), Lower(8)]),
            Numbered(Op::Load(Lhu), &[Def(12), Use(11), Lower(9)]),
            Refers,
            Code(Op::Copy, &[Def(10), Use(12)]),
            RETURN,
        ]],
        text: "$x11 = LUI target-flags(riscv-hi) @g + 8\n\
            SW $x10, $x11, target-flags(riscv-lo) @g + 8\n\
            $x12 = LHU $x11, target-flags(riscv-lo) @g + 9, debug-instr-number 1\n\
            DBG_INSTR_REF !4, !DIExpression(DW_OP_LLVM_arg, 0), dbg-instr-ref(1, 0)\n\
            $x10 = COPY $x12\n\
            PseudoRET implicit $x10\n",
        copies: true,
        arguments: &[],
        answer: (0, 0),
        words: &[0x000005b7, 0x00a5a023, 0x0005d603, 0x00060513, 0x00008067],
        ranges: &[(12, 16, In(12)), (16, 20, In(10))],
        value: 3,
        steps: &[
            (0, Item(0, 0)),
            (4, Item(0, 1)),
            (8, Item(0, 2)),
            (12, Item(0, 4)),
            (16, Item(0, 5)),
        ],
        end: End::Returned,
        held: &[(10, 3), (11, 8192), (12, 3)],
    },
];
