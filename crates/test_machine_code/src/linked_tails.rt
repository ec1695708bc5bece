//! Functions with calls by registers and in tail position.

use crate::linked_rows::Home::*;
use crate::linked_rows::Line::*;
use crate::linked_rows::Source::*;
use crate::linked_rows::Word::*;
use crate::linked_rows::{ADDI, End, RETURN, Row};
use rv64_instr::op::Op;

/// The global `g` is at 6139. A call gives its callee's address in x10, or its own number where the callee has a name,
/// and in x11 the last value that it is passed.
pub const TAILS: &[Row] = &[
    // a call, and one in tail position behind the epilogue
    Row {
        stack: &[],
        blocks: &[&[
            At(11),
            Code(Op::Copy, &[Def(8), Use(11)]),
            Code(
                Op::PseudoCall,
                &[Called("h"), Mask, Gives(1), Takes(10), Gives(10)],
            ),
            Code(Op::Copy, &[Def(11), Use(8)]),
            Code(
                Op::PseudoTail,
                &[Called("g"), Takes(2), Takes(10), Takes(11)],
            ),
        ]],
        text: "DBG_VALUE $x11, $noreg, !4, !DIExpression()\n\
            $x8 = COPY $x11\n\
            PseudoCALL @h, mask, implicit-def $x1, implicit $x10, implicit-def $x10\n\
            $x11 = COPY $x8\n\
            PseudoTAIL @g, implicit $x2, implicit $x10, implicit $x11\n",
        copies: false,
        arguments: &[],
        answer: (1, 1010),
        words: &[
            0xff010113, 0x00113023, 0x00813423, 0x00058413, 0x00000097, 0x000080e7, 0x00040593,
            0x00013083, 0x00813403, 0x01010113, 0x00000317, 0x00030067,
        ],
        ranges: &[
            (0x0c, 0x10, In(11)),
            (0x10, 0x24, In(8)),
            (0x24, 0x30, In(11)),
        ],
        value: 1011,
        steps: &[
            (0x00, Before(0, 0)),
            (0x04, Before(0, 0)),
            (0x08, Before(0, 0)),
            (0x0c, Item(0, 1)),
            (0x10, Item(0, 2)),
            (0x18, Item(0, 3)),
            (0x1c, Before(0, 4)),
            (0x20, Before(0, 4)),
            (0x24, Before(0, 4)),
            (0x28, Item(0, 4)),
        ],
        end: End::Tailed("g"),
        held: &[(10, 1), (11, 1011)],
    },
    // a call of the code at an address
    Row {
        stack: &[],
        blocks: &[&[
            At(11),
            Code(
                Op::PseudoCallIndirect,
                &[Use(11), Mask, Gives(1), Takes(10), Gives(10)],
            ),
            RETURN,
        ]],
        text: "",
        copies: false,
        arguments: &[],
        answer: (1011, 1010),
        words: &[
            0xff010113, 0x00113023, 0x000580e7, 0x00013083, 0x01010113, 0x00008067,
        ],
        ranges: &[(0x08, 0x0c, In(11))],
        value: 1011,
        steps: &[
            (0x00, Before(0, 0)),
            (0x04, Before(0, 0)),
            (0x08, Item(0, 1)),
            (0x0c, Before(0, 2)),
            (0x10, Before(0, 2)),
            (0x14, Item(0, 2)),
        ],
        end: End::Returned,
        held: &[(10, 1011), (11, 1010)],
    },
    // the callee of one in tail position stays in x6: the epilogue restores x8
    Row {
        stack: &[],
        blocks: &[&[
            Code(ADDI, &[Def(8), Use(10), Imm(1)]),
            Code(Op::Copy, &[Def(6), Use(8)]),
            Code(Op::PseudoTailIndirect, &[Takes(6), Takes(2), Takes(10)]),
        ]],
        text: "",
        copies: true,
        arguments: &[4095],
        answer: (0, 0),
        words: &[
            0xff010113, 0x00813023, 0x00150413, 0x00040313, 0x00013403, 0x01010113, 0x00030067,
        ],
        ranges: &[],
        value: 0,
        steps: &[
            (0x00, Before(0, 0)),
            (0x04, Before(0, 0)),
            (0x08, Item(0, 0)),
            (0x0c, Item(0, 1)),
            (0x10, Before(0, 2)),
            (0x14, Before(0, 2)),
            (0x18, Item(0, 2)),
        ],
        end: End::TailedBy(6),
        held: &[(6, 4096), (10, 4095)],
    },
    // a half is no constant, and what reads its copy reads itself: the run leaves for the code at its address
    Row {
        stack: &[],
        blocks: &[&[
            Code(Op::Lui, &[Def(11), Upper(-3)]),
            Code(Op::Copy, &[Def(12), Use(11)]),
            Numbered(ADDI, &[Def(10), Use(12), Lower(-3)]),
            Refers,
            Code(Op::PseudoTailIndirect, &[Takes(10), Takes(2), Takes(12)]),
        ]],
        text: "",
        copies: true,
        arguments: &[],
        answer: (0, 0),
        words: &[0x000005b7, 0x00058613, 0x00058513, 0x00050067],
        ranges: &[(12, 16, In(10))],
        value: 6136,
        steps: &[
            (0, Item(0, 0)),
            (4, Item(0, 1)),
            (8, Item(0, 2)),
            (12, Item(0, 4)),
        ],
        end: End::TailedBy(10),
        held: &[(10, 6136), (11, 4096), (12, 4096)],
    },
];
