//! The encodings of base types (DWARF 5, section 7.8, "Base Type Attribute Encodings").

ghost use Rattle.std.specs.Prelude.{◌≡◌};
ghost use Rattle.read_metadata.specs.Kind.{encoding_code};

/// A linear machine address.
const DW_ATE_address: u8 = 0x01;
/// True or false.
const DW_ATE_boolean: u8 = 0x02;
/// A binary floating-point number.
const DW_ATE_float: u8 = 0x04;
/// A signed binary integer.
const DW_ATE_signed: u8 = 0x05;
/// A signed character.
const DW_ATE_signed_char: u8 = 0x06;
/// An unsigned binary integer.
const DW_ATE_unsigned: u8 = 0x07;
/// An unsigned character.
const DW_ATE_unsigned_char: u8 = 0x08;
/// A Unicode character.
const DW_ATE_UTF: u8 = 0x10;

/// The code of an encoding, if it is supported.
#[tactic(auto, unfolding(crate::specs::Kind::encoding_code))]
pub fn encoding_code(name: &[u8]) -> Option<u8>
    ensures { result ≡ encoding_code name.now }
{
    if name == b"DW_ATE_address".as_slice() {
        Some(DW_ATE_address)
    } else if name == b"DW_ATE_boolean".as_slice() {
        Some(DW_ATE_boolean)
    } else if name == b"DW_ATE_float".as_slice() {
        Some(DW_ATE_float)
    } else if name == b"DW_ATE_signed".as_slice() {
        Some(DW_ATE_signed)
    } else if name == b"DW_ATE_signed_char".as_slice() {
        Some(DW_ATE_signed_char)
    } else if name == b"DW_ATE_unsigned".as_slice() {
        Some(DW_ATE_unsigned)
    } else if name == b"DW_ATE_unsigned_char".as_slice() {
        Some(DW_ATE_unsigned_char)
    } else if name == b"DW_ATE_UTF".as_slice() {
        Some(DW_ATE_UTF)
    } else {
        None
    }
}
