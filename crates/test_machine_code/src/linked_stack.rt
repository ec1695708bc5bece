//! Functions with arguments on the stack: one that comes so is a fixed object, one that goes so is in a slot that a call
//! passes.

use crate::linked_rows::Home::*;
use crate::linked_rows::Line::*;
use crate::linked_rows::Source::*;
use crate::linked_rows::Word::*;
use crate::linked_rows::{ADDI, End, LD, RETURN, Row, SD, Stored};
use rv64_instr::op::Op;

/// The bytes from 8 above the stack pointer at entry on are 77 and zeros. Slot 0 is the lowest of the frame, so slot 1 is
/// where a callee looks for its second argument on the stack.
pub const STACK: &[Row] = &[
    // an argument that comes on the stack, and an address below the stack pointer at entry
    Row {
        stack: &[Stored::Fixed(0, 8, 8, 72), Stored::Fixed(1, 56, -56, 8)],
        blocks: &[&[
            Numbered(LD, &[Def(10), Object(0), Imm(0)]),
            Refers,
            Code(ADDI, &[Def(11), Object(1), Imm(8)]),
            Code(SD, &[Use(11), Use(12), Imm(0)]),
            RETURN,
        ]],
        text: "",
        copies: false,
        arguments: &[],
        answer: (0, 0),
        words: &[
            0xfc010113, 0x04813503, 0x01010593, 0x00b63023, 0x04010113, 0x00008067,
        ],
        ranges: &[(0x08, 0x18, In(10))],
        value: 77,
        steps: &[
            (0x00, Before(0, 0)),
            (0x04, Item(0, 0)),
            (0x08, Item(0, 2)),
            (0x0c, Item(0, 3)),
            (0x10, Before(0, 4)),
            (0x14, Item(0, 4)),
        ],
        end: End::Returned,
        held: &[(10, 77), (11, 1_048_528), (12, 1012)],
    },
    // an argument that goes on the stack: its slot, the first one, is the variable's place up to the call
    Row {
        stack: &[Stored::Slot(1), Stored::Slot(0)],
        blocks: &[&[
            Code(SD, &[Use(11), Slot(1), Imm(0)]),
            At(11),
            Code(ADDI, &[Def(11), Use(0), Imm(1)]),
            Code(
                Op::PseudoCall,
                &[Called("g"), Mask, Gives(1), Gives(2), Gives(10), Passes(1)],
            ),
            RETURN,
        ]],
        text: "",
        copies: false,
        arguments: &[],
        answer: (1, 1011),
        words: &[
            0xfe010113, 0x00113823, 0x00b13023, 0x00100593, 0x00000097, 0x000080e7, 0x01013083,
            0x02010113, 0x00008067,
        ],
        ranges: &[(0x0c, 0x10, In(11)), (0x10, 0x18, Above(0))],
        value: 1011,
        steps: &[
            (0x00, Before(0, 0)),
            (0x04, Before(0, 0)),
            (0x08, Item(0, 0)),
            (0x0c, Item(0, 2)),
            (0x10, Item(0, 3)),
            (0x18, Before(0, 4)),
            (0x1c, Before(0, 4)),
            (0x20, Item(0, 4)),
        ],
        end: End::Returned,
        held: &[(10, 1), (11, 1011)],
    },
];
