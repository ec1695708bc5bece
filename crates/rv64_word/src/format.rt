//! The formats of words: which bits of a word are which bits of a field.

ghost use Rattle.std.specs.Prelude.{◌≡◌, ◌+◌, ◌<◌, ◌≤◌, ◌^◌, ◌*◌, ◌%◌};
ghost use Rattle.rv64_word.specs.Format.{slices_of, bits_of, same_field, shown, number_of, sign_extended};

/// A field of a machine operation in its word.
#[derive(Clone, Copy, Debug, PartialEq, Eq)]
pub enum EncodingField {
    /// The opcode, seven bits.
    Opcode,
    /// The register that is set.
    Rd,
    /// Three bits that distinguish operations of an opcode.
    Funct3,
    /// The first register that is read.
    Rs1,
    /// The second register that is read.
    Rs2,
    /// Seven more bits that distinguish operations.
    Funct7,
    /// The immediate, in two's complement.
    Imm,
}

/// Adjacent bits of a field that are adjacent in a word too.
#[derive(Clone, Copy, Debug, PartialEq, Eq)]
pub struct Slice {
    /// The field.
    pub field: EncodingField,
    /// The number of the field's lowest bit in the slice.
    pub low: u32,
    /// How many bits the slice has.
    pub width: u32,
}

/// A format of words (RISC-V Unprivileged ISA, RV32I, "Base Instruction Formats" and "Immediate Encoding Variants"),
/// with the shifts by an immediate apart.
#[derive(Clone, Copy, Debug, PartialEq, Eq)]
pub enum Format {
    /// The R format.
    Register,
    /// The I format.
    Immediate,
    /// The I format of shifts of a double word, by six bits.
    Shift,
    /// The I format of shifts of a word, by five bits.
    WordShift,
    /// The S format.
    Store,
    /// The B format.
    Branch,
    /// The U format.
    Upper,
    /// The J format.
    Jump,
}

/// The bits of a field from `high` down to `low`, in the notation of the standard's tables.
macro_rules! bits {
    ($field:ident, $high:literal, $low:literal) => {
        Slice {
            field: EncodingField::$field,
            low: $low,
            width: $high - $low + 1,
        }
    };
}

/// The formats' words, from bit 31 down to bit 0. Encoder and decoder use these tables alone.
const REGISTER: [Slice; 6] = [
    bits!(Funct7, 6, 0),
    bits!(Rs2, 4, 0),
    bits!(Rs1, 4, 0),
    bits!(Funct3, 2, 0),
    bits!(Rd, 4, 0),
    bits!(Opcode, 6, 0),
];

const IMMEDIATE: [Slice; 5] = [
    bits!(Imm, 11, 0),
    bits!(Rs1, 4, 0),
    bits!(Funct3, 2, 0),
    bits!(Rd, 4, 0),
    bits!(Opcode, 6, 0),
];

const SHIFT: [Slice; 6] = [
    bits!(Funct7, 6, 1),
    bits!(Imm, 5, 0),
    bits!(Rs1, 4, 0),
    bits!(Funct3, 2, 0),
    bits!(Rd, 4, 0),
    bits!(Opcode, 6, 0),
];

const WORD_SHIFT: [Slice; 6] = [
    bits!(Funct7, 6, 0),
    bits!(Imm, 4, 0),
    bits!(Rs1, 4, 0),
    bits!(Funct3, 2, 0),
    bits!(Rd, 4, 0),
    bits!(Opcode, 6, 0),
];

const STORE: [Slice; 6] = [
    bits!(Imm, 11, 5),
    bits!(Rs2, 4, 0),
    bits!(Rs1, 4, 0),
    bits!(Funct3, 2, 0),
    bits!(Imm, 4, 0),
    bits!(Opcode, 6, 0),
];

const BRANCH: [Slice; 8] = [
    bits!(Imm, 12, 12),
    bits!(Imm, 10, 5),
    bits!(Rs2, 4, 0),
    bits!(Rs1, 4, 0),
    bits!(Funct3, 2, 0),
    bits!(Imm, 4, 1),
    bits!(Imm, 11, 11),
    bits!(Opcode, 6, 0),
];

const UPPER: [Slice; 3] = [bits!(Imm, 19, 0), bits!(Rd, 4, 0), bits!(Opcode, 6, 0)];

const JUMP: [Slice; 6] = [
    bits!(Imm, 20, 20),
    bits!(Imm, 10, 1),
    bits!(Imm, 11, 11),
    bits!(Imm, 19, 12),
    bits!(Rd, 4, 0),
    bits!(Opcode, 6, 0),
];

impl Format {
    /// The slices of its words, from bit 31 down to bit 0.
    pub fn slices(self) -> &'static [Slice]
        ensures { result.now ≡ slices_of self }
    {
        match self {
            Format::Register => &REGISTER,
            Format::Immediate => &IMMEDIATE,
            Format::Shift => &SHIFT,
            Format::WordShift => &WORD_SHIFT,
            Format::Store => &STORE,
            Format::Branch => &BRANCH,
            Format::Upper => &UPPER,
            Format::Jump => &JUMP,
        }
    }

    /// The value of a field in a word of the format, or 0 if the format lacks the field.
    pub fn read(self, field: EncodingField, word: u32) -> u32
        ensures { result ≡ shown (slices_of self) field word }
    {
        let mut value = 0;
        let mut position = 32;
        for slice in self.slices() {
            position -= slice.width;
            if is_same(slice.field, field) {
                value += slice.back(word >> position);
            }
        }
        value
    }

    /// The immediate of its bits in a word.
    pub fn number(self, bits: u32) -> i64
        ensures { result ≡ number_of self bits }
    {
        match self {
            Format::Immediate | Format::Store => sign_extend(12, bits),
            Format::Branch => sign_extend(13, bits),
            Format::Jump => sign_extend(21, bits),
            Format::Register | Format::Shift | Format::WordShift | Format::Upper => i64::from(bits),
        }
    }
}

impl Slice {
    /// The slice of a field's value, as a number below 2 to the slice's width.
    pub(crate) fn of(self, value: u64) -> u32
        requires low { self.low < 32 }
        requires width { self.width ≤ 20 }
        ensures { result ≡ bits_of self value }
    {
        let mask = (1u64 << self.width) - 1;
        (value >> self.low & mask) as u32
    }

    /// The lowest bits of a number, as the slice's part of a field's value.
    fn back(self, bits: u32) -> u32
        requires { self.low + self.width ≤ 21 }
        ensures value { result ≡ bits % 2 ^ self.width * 2 ^ self.low }
        ensures below { result < 2 ^ 21 }
    {
        let mask = (1u32 << self.width) - 1;
        (bits & mask) << self.low
    }
}

fn is_same(a: EncodingField, b: EncodingField) -> bool
    ensures { result ≡ same_field a b }
{
    a == b
}

/// The two's complement number of so many bits.
fn sign_extend(width: u32, bits: u32) -> i64
    requires low { 0 < width }
    requires high { width < 32 }
    ensures { result ≡ sign_extended width bits }
{
    if bits < 1u32 << (width - 1) {
        i64::from(bits)
    } else {
        i64::from(bits) - i64::from(1u32 << width)
    }
}
