//! A section of code by its pieces, relocated at its place as GNU ld does it.

use base_list::List;
use elf_content::content::make_content;
use elf_content::piece::{Field, Piece};
use elf_object::relocations::Relocation;
use elf_relocation::apply::apply;
use elf_relocation::kind::RelocationKind;
use std::alloc::{AllocError, Global};
use std::test::Fail;

/// The code from 0x10000 on, with the symbol at 0x12345678.
static PLACED: [u8; 20] = [
    0x37, 0x55, 0x34, 0x12, 0x13, 5, 0xc5, 0x67, 0x97, 0x50, 0x33, 0x12, 0xe7, 0x80, 0, 0x67, 0x67,
    0x80, 0, 0,
];

/// A field against the only symbol.
fn field(
    alloc: Global,
    kind: RelocationKind,
    addend: u64,
    before: &[u8],
) -> Result<Piece, AllocError> {
    Ok(Piece::Relocated(Field {
        kind,
        symbol: 1,
        addend,
        before: List::from_slice(alloc, before)?,
    }))
}

/// Code that has the address of a symbol, plus 4, calls the symbol, and returns.
fn code(alloc: Global) -> Result<List<Piece>, AllocError> {
    let mut pieces = List::new(alloc);
    pieces.push(field(alloc, RelocationKind::Upper, 4, &[0x37, 5, 0, 0])?)?;
    pieces.push(field(alloc, RelocationKind::Lower, 4, &[0x13, 5, 5, 0])?)?;
    let call = [0x97, 0, 0, 0, 0xe7, 0x80, 0, 0];
    pieces.push(field(alloc, RelocationKind::Call, 0, &call)?)?;
    pieces.push(Piece::Fixed(List::from_slice(alloc, &[0x67, 0x80, 0, 0])?))?;
    Ok(pieces)
}

/// Whether code with these relocations is as it is to be at its place.
fn is_placed(bytes: &mut [u8], relocations: &[Relocation]) -> bool {
    let wanted = [
        Relocation {
            offset: 0,
            symbol: 1,
            relocation_type: 26,
            addend: 4,
        },
        Relocation {
            offset: 4,
            symbol: 1,
            relocation_type: 27,
            addend: 4,
        },
        Relocation {
            offset: 8,
            symbol: 1,
            relocation_type: 19,
            addend: 0,
        },
    ];
    if bytes.len() != 20 || relocations != wanted.as_slice() {
        return false;
    }
    apply(bytes, &wanted, &[0x1234_5678], 0x10000).is_none() && &bytes[..] == PLACED.as_slice()
}

#[test]
fn code_is_relocated_at_its_place(rt: HostRuntime) -> Result<(), Fail> {
    let alloc = rt.alloc();
    let pieces = code(alloc)?;
    let content = make_content(alloc, pieces.as_slice())?;
    let mut bytes = content.bytes.as_slice().to_vec(alloc)?;
    assert!(rt; is_placed(bytes.as_mut_slice(), content.relocations.as_slice()));
    Ok(())
}
