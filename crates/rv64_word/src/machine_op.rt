//! Machine operations, their encoding and decoding.

ghost use Rattle.std.specs.Prelude.{◌≡◌, Some, IsTrue, IfSome, ◌&&◌, nat_eq};
ghost use Rattle.rv64_instr.specs.Form.{is_within};
ghost use Rattle.rv64_word.specs.Decoded.{decoded};
ghost use Rattle.rv64_word.specs.MachineOp.{value_of, word_of, is_encodable, read_as, is_register, is_even};

use crate::format::{EncodingField, Format};
use crate::opcodes::operation;
use crate::word_op::WordOp;

/// A machine operation: the operation and the fields of a word.
#[derive(Clone, Copy, Debug, PartialEq, Eq)]
pub struct MachineOp {
    /// The operation.
    pub op: WordOp,
    /// The number of the register that it sets, or 0 if its format has none.
    pub rd: u32,
    /// The number of the first register that it reads, or 0 if its format has none.
    pub rs1: u32,
    /// The number of the second register that it reads, or 0 if its format has none.
    pub rs2: u32,
    /// The immediate, or 0 if its format has none. In branches and JAL it is the target's offset from the word's
    /// own address in bytes. In LUI it is the 20 bits of the operand, without a sign.
    pub imm: i64,
}

/// The word of a machine operation (RISC-V Unprivileged ISA, RV32I, "Base Instruction Formats"), as a number whose
/// bit 0 is the lowest bit of the first byte. The operation's fields are in range. It takes no memory.
pub fn encode(m: &MachineOp) -> u32
    requires { IsTrue (is_encodable m.now) }
    ensures { result ≡ word_of m.now }
{
    m.spell()
}

/// The machine operation of a word, and `None` exactly for a word that encodes no machine operation. It takes no
/// memory.
pub fn decode(word: u32) -> Option<MachineOp>
    ensures value { result ≡ decoded word }
    // What is decoded has its fields in range, and encodes to the word.
    ensures found { IfSome result (λ m. IsTrue (is_encodable m) × (word_of m ≡ word)) }
    // A word that a machine operation has is decoded to it, and to no other.
    ensures only { (m : MachineOp) → IsTrue (is_encodable m) → word_of m ≡ word → result ≡ Some m }
{
    by_listing(word)
}

/// The operation that the word's opcode, funct3 and funct7 have, with the fields of its format.
#[tactic(auto, unfolding(crate::specs::Decoded::decoded))]
fn by_listing(word: u32) -> Option<MachineOp>
    ensures { result ≡ decoded word }
{
    let op = operation(word % 128, (word >> 12) % 8, word >> 25)?;
    Some(MachineOp::read(op, word))
}

impl MachineOp {
    /// The operation with the fields of a word.
    fn read(op: WordOp, word: u32) -> MachineOp
        ensures { result ≡ read_as op word }
    {
        let format = op.encoding().format;
        MachineOp {
            op,
            rd: format.read(EncodingField::Rd, word),
            rs1: format.read(EncodingField::Rs1, word),
            rs2: format.read(EncodingField::Rs2, word),
            imm: format.number(format.read(EncodingField::Imm, word)),
        }
    }

    /// The word of the fields, by the slices of the format.
    #[tactic(auto, unfolding(crate::specs::MachineOp::word_of))]
    fn spell(&self) -> u32
        ensures { result ≡ word_of self.now }
    {
        let mut word = 0;
        for slice in self.op.encoding().format.slices() {
            word = (word << slice.width) | slice.of(self.value(slice.field));
        }
        word
    }

    /// The value of a field, the immediate in two's complement.
    fn value(&self, field: EncodingField) -> u64
        ensures { result ≡ value_of self.now field }
    {
        match field {
            EncodingField::Opcode => u64::from(self.op.encoding().opcode),
            EncodingField::Rd => u64::from(self.rd),
            EncodingField::Funct3 => u64::from(self.op.encoding().funct3),
            EncodingField::Rs1 => u64::from(self.rs1),
            EncodingField::Rs2 => u64::from(self.rs2),
            EncodingField::Funct7 => u64::from(self.op.encoding().funct7),
            EncodingField::Imm => self.imm.cast_unsigned(),
        }
    }

    /// Whether the fields fit the format of the operation: registers below 32, the immediate in its range, and 0 in
    /// each field that the format lacks.
    pub fn is_encodable(&self) -> bool
        ensures { result ≡ is_encodable self.now }
    {
        match self.op.encoding().format {
            Format::Register => {
                is_register(self.rd)
                    && is_register(self.rs1)
                    && is_register(self.rs2)
                    && is_within(0, 0, self.imm)
            }
            Format::Immediate => self.has_one_input() && is_within(-2048, 2047, self.imm),
            Format::Shift => self.has_one_input() && is_within(0, 63, self.imm),
            Format::WordShift => self.has_one_input() && is_within(0, 31, self.imm),
            Format::Store => self.has_no_output() && is_within(-2048, 2047, self.imm),
            Format::Branch => {
                self.has_no_output() && is_within(-4096, 4094, self.imm) && is_even(self.imm)
            }
            Format::Upper => self.has_no_input() && is_within(0, 1_048_575, self.imm),
            Format::Jump => {
                self.has_no_input()
                    && is_within(-1_048_576, 1_048_574, self.imm)
                    && is_even(self.imm)
            }
        }
    }

    fn has_one_input(&self) -> bool
        ensures { result ≡ (is_register self.now.rd && is_register self.now.rs1 && nat_eq self.now.rs2 0) }
    {
        is_register(self.rd) && is_register(self.rs1) && self.rs2 == 0
    }

    fn has_no_output(&self) -> bool
        ensures { result ≡ (nat_eq self.now.rd 0 && is_register self.now.rs1 && is_register self.now.rs2) }
    {
        self.rd == 0 && is_register(self.rs1) && is_register(self.rs2)
    }

    fn has_no_input(&self) -> bool
        ensures { result ≡ (is_register self.now.rd && nat_eq self.now.rs1 0 && nat_eq self.now.rs2 0) }
    {
        is_register(self.rd) && self.rs1 == 0 && self.rs2 == 0
    }
}

/// Whether it is the number of a physical register.
fn is_register(n: u32) -> bool
    ensures { result ≡ is_register n }
{
    n < 32
}

/// Whether the number is between the two, both included.
fn is_within(low: i64, high: i64, i: i64) -> bool
    ensures { result ≡ is_within low high i }
{
    low <= i && i <= high
}

/// Whether bit 0 is clear.
fn is_even(i: i64) -> bool
    ensures { result ≡ is_even i }
{
    i.cast_unsigned() % 2 == 0
}
