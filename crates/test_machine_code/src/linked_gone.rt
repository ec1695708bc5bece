//! Functions with calls that don't return. Such a call ends a run where the frame stands.

use crate::linked_rows::Home::*;
use crate::linked_rows::Line::*;
use crate::linked_rows::Source::*;
use crate::linked_rows::Word::*;
use crate::linked_rows::{ADDI, End, RETURN, Row};
use rv64_instr::op::BranchOp::Beq;
use rv64_instr::op::Op;

/// A jump to block 2 where x10 is 0.
const LEAVE: Op = Op::Branch(Beq);

/// A function whose last block ends with a call that doesn't return, on a way to that call and on one that returns.
pub const LAST: &[Row] = &[
    Row {
        stack: &[],
        blocks: &[
            &[At(10), Code(LEAVE, &[Use(10), Use(0), Target(2)])],
            &[RETURN],
            &[Code(Op::NoReturnCall, &[Called("h"), Mask, Gives(1), Takes(10)])],
        ],
        text: "DBG_VALUE $x10, $noreg, !4, !DIExpression()\n\
            BEQ $x10, $x0, %bb.2\n\
            PseudoRET implicit $x10\n\
            noreturn PseudoCALL @h, mask, implicit-def $x1, implicit $x10\n",
        copies: false,
        arguments: &[0],
        answer: (0, 0),
        words: &[
            0xff010113, 0x00113023, 0x00050863, 0x00013083, 0x01010113, 0x00008067, 0x00000097,
            0x000080e7,
        ],
        ranges: &[(0x08, 0x20, In(10))],
        value: 0,
        steps: &[
            (0x00, Before(0, 0)),
            (0x04, Before(0, 0)),
            (0x08, Item(0, 1)),
            (0x18, Item(2, 0)),
        ],
        end: End::Gone("h"),
        held: &[(10, 0), (11, 1011)],
    },
    Row {
        stack: &[],
        blocks: &[
            &[At(10), Code(LEAVE, &[Use(10), Use(0), Target(2)])],
            &[RETURN],
            &[Code(Op::NoReturnCall, &[Called("h"), Mask, Gives(1), Takes(10)])],
        ],
        text: "DBG_VALUE $x10, $noreg, !4, !DIExpression()\n\
            BEQ $x10, $x0, %bb.2\n\
            PseudoRET implicit $x10\n\
            noreturn PseudoCALL @h, mask, implicit-def $x1, implicit $x10\n",
        copies: false,
        arguments: &[5],
        answer: (0, 0),
        words: &[
            0xff010113, 0x00113023, 0x00050863, 0x00013083, 0x01010113, 0x00008067, 0x00000097,
            0x000080e7,
        ],
        ranges: &[(0x08, 0x20, In(10))],
        value: 5,
        steps: &[
            (0x00, Before(0, 0)),
            (0x04, Before(0, 0)),
            (0x08, Item(0, 1)),
            (0x0c, Before(1, 0)),
            (0x10, Before(1, 0)),
            (0x14, Item(1, 0)),
        ],
        end: End::Returned,
        held: &[(10, 5), (11, 1011)],
    },
];

/// A function with one such call in the middle, on a way to that call and on one past it; and a call of what doesn't
/// return the second time, by a register that a callee keeps.
pub const AMIDST: &[Row] = &[
    Row {
        stack: &[],
        blocks: &[
            &[At(10), Code(LEAVE, &[Use(10), Use(0), Target(2)])],
            &[Code(Op::NoReturnCall, &[Called("h"), Mask, Gives(1)])],
            &[
                Code(ADDI, &[Def(11), Use(0), Imm(1)]),
                Code(Op::PseudoRet, &[Takes(11)]),
            ],
        ],
        text: "DBG_VALUE $x10, $noreg, !4, !DIExpression()\n\
            BEQ $x10, $x0, %bb.2\n\
            noreturn PseudoCALL @h, mask, implicit-def $x1\n\
            $x11 = ADDI $x0, 1\n\
            PseudoRET implicit $x11\n",
        copies: false,
        arguments: &[7],
        answer: (0, 0),
        words: &[
            0xff010113, 0x00113023, 0x00050663, 0x00000097, 0x000080e7, 0x00100593, 0x00013083,
            0x01010113, 0x00008067,
        ],
        ranges: &[(0x08, 0x24, In(10))],
        value: 7,
        steps: &[
            (0x00, Before(0, 0)),
            (0x04, Before(0, 0)),
            (0x08, Item(0, 1)),
            (0x0c, Item(1, 0)),
        ],
        end: End::Gone("h"),
        held: &[(10, 7), (11, 1011)],
    },
    Row {
        stack: &[],
        blocks: &[
            &[At(10), Code(LEAVE, &[Use(10), Use(0), Target(2)])],
            &[Code(Op::NoReturnCall, &[Called("h"), Mask, Gives(1)])],
            &[
                Code(ADDI, &[Def(11), Use(0), Imm(1)]),
                Code(Op::PseudoRet, &[Takes(11)]),
            ],
        ],
        text: "DBG_VALUE $x10, $noreg, !4, !DIExpression()\n\
            BEQ $x10, $x0, %bb.2\n\
            noreturn PseudoCALL @h, mask, implicit-def $x1\n\
            $x11 = ADDI $x0, 1\n\
            PseudoRET implicit $x11\n",
        copies: false,
        arguments: &[0],
        answer: (0, 0),
        words: &[
            0xff010113, 0x00113023, 0x00050663, 0x00000097, 0x000080e7, 0x00100593, 0x00013083,
            0x01010113, 0x00008067,
        ],
        ranges: &[(0x08, 0x24, In(10))],
        value: 0,
        steps: &[
            (0x00, Before(0, 0)),
            (0x04, Before(0, 0)),
            (0x08, Item(0, 1)),
            (0x14, Item(2, 0)),
            (0x18, Before(2, 1)),
            (0x1c, Before(2, 1)),
            (0x20, Item(2, 1)),
        ],
        end: End::Returned,
        held: &[(10, 0), (11, 1)],
    },
    Row {
        stack: &[],
        blocks: &[&[
            Code(ADDI, &[Def(8), Use(10), Imm(8)]),
            At(8),
            Code(
                Op::PseudoCallIndirect,
                &[Use(8), Mask, Gives(1), Takes(10), Gives(10)],
            ),
            Code(
                Op::NoReturnCallIndirect,
                &[Takes(8), Mask, Gives(1), Takes(10)],
            ),
        ]],
        text: "",
        copies: true,
        arguments: &[4096],
        answer: (4104, 4096),
        words: &[
            0xff010113, 0x00113023, 0x00813423, 0x00850413, 0x000400e7, 0x000400e7,
        ],
        ranges: &[(0x10, 0x18, In(8))],
        value: 4104,
        steps: &[
            (0x00, Before(0, 0)),
            (0x04, Before(0, 0)),
            (0x08, Before(0, 0)),
            (0x0c, Item(0, 0)),
            (0x10, Item(0, 2)),
            (0x14, Item(0, 3)),
        ],
        end: End::GoneBy(8),
        held: &[(8, 4104), (10, 4104), (11, 4096)],
    },
];
