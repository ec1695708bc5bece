//! The kinds of the relocations of instructions.

ghost use Rattle.std.specs.Prelude.{◌≡◌};
ghost use Rattle.rv64_instr.specs.declared.symbol.Half.TheVariants as half;
ghost use Rattle.rv64_instr.specs.Decoded.{Shows};
ghost use Rattle.rv64_instr.specs.Row.{Row, row_of};
ghost use Rattle.rv64_instr.specs.View.{class_of};
ghost use Rattle.rv64_relocation.specs.Code.{half_kind, relocation_kind};

use elf_relocation::kind::RelocationKind;
use rv64_instr::decoded::Decoded;
use rv64_instr::instr::Instr;
use rv64_instr::symbol::Half;

/// The kind of the relocation of an instruction's word. `None` exactly if it has no half of an address. It takes no
/// memory.
pub fn relocation_kind(i: &Instr) -> Option<RelocationKind>
    ensures { result ≡ relocation_kind (row_of i.now) }
{
    match i.linked_half() {
        Some(half) => Some(kind_of_half(half, &i.decoded())),
        None => None,
    }
}

/// The kind for a half of an address in code that does this.
fn kind_of_half(half: Half, decoded: &Decoded) -> RelocationKind
    ensures { (row : Row) → Shows decoded.now row → result ≡ half_kind half (class_of row) }
{
    match half {
        Half::Upper => RelocationKind::Upper,
        Half::Lower => lower_kind(decoded),
    }
}

fn lower_kind(decoded: &Decoded) -> RelocationKind
    ensures { (row : Row) → Shows decoded.now row → result ≡ half_kind half.Lower (class_of row) }
{
    match *decoded {
        Decoded::Stores(_, _, _, _) => RelocationKind::StoreLower,
        Decoded::Fixes(_, _)
        | Decoded::Moves(_, _)
        | Decoded::Sets(_, _, _, _)
        | Decoded::Addresses(_, _, _)
        | Decoded::Loads(_, _, _, _)
        | Decoded::LoadsSlot(_, _)
        | Decoded::StoresSlot(_, _)
        | Decoded::Branches(_, _, _, _)
        | Decoded::Jumps(_)
        | Decoded::Calls(_)
        | Decoded::Returns(_) => RelocationKind::Lower,
    }
}
