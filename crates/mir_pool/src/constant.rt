//! Constants of a pool.

ghost use Rattle.std.specs.Prelude.{◌≡◌};
ghost use Rattle.mir_pool.specs.Pool.{bits_of, bytes_of};

use base_list::List;

/// The type of a constant: how many bits it has.
#[derive(Clone, Copy, Debug, PartialEq, Eq)]
pub enum IntegerType {
    /// `i8`.
    Bits8,
    /// `i16`.
    Bits16,
    /// `i32`.
    Bits32,
    /// `i64`.
    Bits64,
    /// `i128`.
    Bits128,
}

/// A constant (LLVM: `MachineConstantPoolValue`).
#[derive(Clone, Copy, Debug, PartialEq, Eq)]
pub struct PoolConstant {
    /// Its number: `%const.N` is its address.
    pub id: u32,
    /// Its type.
    pub integer: IntegerType,
    /// Its value without a sign: a negative one counts from 2 to its bits down.
    pub value: u128,
    /// Its address is a multiple of so many bytes: 1, 2, 4, 8 or 16.
    pub alignment: u32,
}

/// The constants of a function, in the order of its text.
pub type Pool = List<PoolConstant>;

impl IntegerType {
    /// How many bits it has.
    pub fn bits(self) -> u32
        ensures { result ≡ bits_of self }
    {
        match self {
            IntegerType::Bits8 => 8,
            IntegerType::Bits16 => 16,
            IntegerType::Bits32 => 32,
            IntegerType::Bits64 => 64,
            IntegerType::Bits128 => 128,
        }
    }

    /// How many bytes it has.
    pub fn bytes(self) -> u32
        ensures { result ≡ bytes_of self }
    {
        self.bits() / 8
    }
}
