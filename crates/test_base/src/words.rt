//! Encoding and decoding of words, compared with an assembler's.

use rv64_instr::op::BranchOp::*;
use rv64_instr::op::ImmediateOp::*;
use rv64_instr::op::LoadOp::*;
use rv64_instr::op::RegisterOp::*;
use rv64_instr::op::StoreOp::*;
use rv64_word::machine_op::{MachineOp, decode, encode};
use rv64_word::word_op::WordOp;
use rv64_word::word_op::WordOp::*;

/// An operation, rd, rs1, rs2, the immediate and the word that `llvm-mc` of LLVM 14 writes for them.
const ROWS: &[(WordOp, u32, u32, u32, i64, u32)] = &[
    (Lui, 31, 0, 0, 0, 0x00000fb7),
    (Lui, 0, 0, 0, 1048575, 0xfffff037),
    (Jal, 31, 0, 0, -1048576, 0x80000fef),
    (Jal, 0, 0, 0, 1048574, 0x7ffff06f),
    (Jalr, 31, 0, 0, -2048, 0x80000fe7),
    (Jalr, 0, 31, 0, 2047, 0x7fff8067),
    (Branch(Beq), 0, 0, 17, -4096, 0x81100063),
    (Branch(Beq), 0, 31, 31, 4094, 0x7fff8fe3),
    (Branch(Bne), 0, 0, 17, -4096, 0x81101063),
    (Branch(Bne), 0, 31, 31, 4094, 0x7fff9fe3),
    (Branch(Blt), 0, 0, 17, -4096, 0x81104063),
    (Branch(Blt), 0, 31, 31, 4094, 0x7fffcfe3),
    (Branch(Bge), 0, 0, 17, -4096, 0x81105063),
    (Branch(Bge), 0, 31, 31, 4094, 0x7fffdfe3),
    (Branch(Bltu), 0, 0, 17, -4096, 0x81106063),
    (Branch(Bltu), 0, 31, 31, 4094, 0x7fffefe3),
    (Branch(Bgeu), 0, 0, 17, -4096, 0x81107063),
    (Branch(Bgeu), 0, 31, 31, 4094, 0x7fffffe3),
    (Load(Lb), 31, 0, 0, -2048, 0x80000f83),
    (Load(Lb), 0, 31, 0, 2047, 0x7fff8003),
    (Load(Lh), 31, 0, 0, -2048, 0x80001f83),
    (Load(Lh), 0, 31, 0, 2047, 0x7fff9003),
    (Load(Lw), 31, 0, 0, -2048, 0x80002f83),
    (Load(Lw), 0, 31, 0, 2047, 0x7fffa003),
    (Load(Ld), 31, 0, 0, -2048, 0x80003f83),
    (Load(Ld), 0, 31, 0, 2047, 0x7fffb003),
    (Load(Lbu), 31, 0, 0, -2048, 0x80004f83),
    (Load(Lbu), 0, 31, 0, 2047, 0x7fffc003),
    (Load(Lhu), 31, 0, 0, -2048, 0x80005f83),
    (Load(Lhu), 0, 31, 0, 2047, 0x7fffd003),
    (Load(Lwu), 31, 0, 0, -2048, 0x80006f83),
    (Load(Lwu), 0, 31, 0, 2047, 0x7fffe003),
    (Store(Sb), 0, 0, 17, -2048, 0x81100023),
    (Store(Sb), 0, 31, 31, 2047, 0x7fff8fa3),
    (Store(Sh), 0, 0, 17, -2048, 0x81101023),
    (Store(Sh), 0, 31, 31, 2047, 0x7fff9fa3),
    (Store(Sw), 0, 0, 17, -2048, 0x81102023),
    (Store(Sw), 0, 31, 31, 2047, 0x7fffafa3),
    (Store(Sd), 0, 0, 17, -2048, 0x81103023),
    (Store(Sd), 0, 31, 31, 2047, 0x7fffbfa3),
    (Immediate(Addi), 31, 0, 0, -2048, 0x80000f93),
    (Immediate(Addi), 0, 31, 0, 2047, 0x7fff8013),
    (Immediate(Slti), 31, 0, 0, -2048, 0x80002f93),
    (Immediate(Slti), 0, 31, 0, 2047, 0x7fffa013),
    (Immediate(Sltiu), 31, 0, 0, -2048, 0x80003f93),
    (Immediate(Sltiu), 0, 31, 0, 2047, 0x7fffb013),
    (Immediate(Xori), 31, 0, 0, -2048, 0x80004f93),
    (Immediate(Xori), 0, 31, 0, 2047, 0x7fffc013),
    (Immediate(Ori), 31, 0, 0, -2048, 0x80006f93),
    (Immediate(Ori), 0, 31, 0, 2047, 0x7fffe013),
    (Immediate(Andi), 31, 0, 0, -2048, 0x80007f93),
    (Immediate(Andi), 0, 31, 0, 2047, 0x7ffff013),
    (Immediate(Slli), 31, 0, 0, 0, 0x00001f93),
    (Immediate(Slli), 0, 31, 0, 63, 0x03ff9013),
    (Immediate(Srli), 31, 0, 0, 0, 0x00005f93),
    (Immediate(Srli), 0, 31, 0, 63, 0x03ffd013),
    (Immediate(Srai), 31, 0, 0, 0, 0x40005f93),
    (Immediate(Srai), 0, 31, 0, 63, 0x43ffd013),
    (Registers(Add), 31, 0, 17, 0, 0x01100fb3),
    (Registers(Add), 0, 31, 31, 0, 0x01ff8033),
    (Registers(Sub), 31, 0, 17, 0, 0x41100fb3),
    (Registers(Sub), 0, 31, 31, 0, 0x41ff8033),
    (Registers(Sll), 31, 0, 17, 0, 0x01101fb3),
    (Registers(Slt), 31, 0, 17, 0, 0x01102fb3),
    (Registers(Sltu), 31, 0, 17, 0, 0x01103fb3),
    (Registers(Xor), 31, 0, 17, 0, 0x01104fb3),
    (Registers(Srl), 31, 0, 17, 0, 0x01105fb3),
    (Registers(Sra), 31, 0, 17, 0, 0x41105fb3),
    (Registers(Sra), 0, 31, 31, 0, 0x41ffd033),
    (Registers(Or), 31, 0, 17, 0, 0x01106fb3),
    (Registers(And), 31, 0, 17, 0, 0x01107fb3),
    (Immediate(Addiw), 31, 0, 0, -2048, 0x80000f9b),
    (Immediate(Addiw), 0, 31, 0, 2047, 0x7fff801b),
    (Immediate(Slliw), 31, 0, 0, 0, 0x00001f9b),
    (Immediate(Slliw), 0, 31, 0, 31, 0x01ff901b),
    (Immediate(Srliw), 31, 0, 0, 0, 0x00005f9b),
    (Immediate(Srliw), 0, 31, 0, 31, 0x01ffd01b),
    (Immediate(Sraiw), 31, 0, 0, 0, 0x40005f9b),
    (Immediate(Sraiw), 0, 31, 0, 31, 0x41ffd01b),
    (Registers(Addw), 31, 0, 17, 0, 0x01100fbb),
    (Registers(Subw), 31, 0, 17, 0, 0x41100fbb),
    (Registers(Sllw), 31, 0, 17, 0, 0x01101fbb),
    (Registers(Srlw), 31, 0, 17, 0, 0x01105fbb),
    (Registers(Sraw), 31, 0, 17, 0, 0x41105fbb),
    (Registers(Sraw), 0, 31, 31, 0, 0x41ffd03b),
    (Immediate(Srai), 10, 11, 0, 63, 0x43f5d513),
    (Store(Sd), 0, 10, 11, -8, 0xfeb53c23),
    (Branch(Beq), 0, 1, 2, 2048, 0x002080e3),
    (Branch(Bne), 0, 1, 2, -2, 0xfe209fe3),
    (Jal, 1, 0, 0, 2048, 0x001000ef),
    (Jal, 1, 0, 0, -2, 0xfffff0ef),
];

/// AUIPC, the word of zeros, MUL, SLLI with bit 30, SLLIW by 32, and ECALL.
const OTHERS: &[u32] = &[
    0x0000_0097,
    0x0000_0000,
    0x02b5_0533,
    0x4000_1013,
    0x0200_101b,
    0x0000_0073,
];

fn is_both_ways(m: MachineOp, word: u32) -> bool {
    m.is_encodable() && encode(&m) == word && decode(word) == Some(m)
}

/// The first word of a row that isn't that of its operation, both ways.
fn other_word(rows: &[(WordOp, u32, u32, u32, i64, u32)]) -> Option<u32> {
    for (op, rd, rs1, rs2, imm, word) in rows {
        let m = MachineOp {
            op: *op,
            rd: *rd,
            rs1: *rs1,
            rs2: *rs2,
            imm: *imm,
        };
        if !is_both_ways(m, *word) {
            return Some(*word);
        }
    }
    None
}

/// The first of these words that is decoded.
fn decoded(words: &[u32]) -> Option<u32> {
    for word in words {
        if decode(*word).is_some() {
            return Some(*word);
        }
    }
    None
}

#[test]
fn words_both_ways(rt: HostRuntime) {
    assert_eq!(rt; other_word(ROWS), None);
    assert_eq!(rt; decoded(OTHERS), None);
}
