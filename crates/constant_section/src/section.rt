//! The bytes of a section of constants, and where these stand.

ghost use Rattle.std.specs.Prelude.{◌≡◌, ◌++◌, length, replicate, OnOk, IfOk};
ghost use Rattle.constant_section.specs.Section.{
  constant_bytes,
  padding,
  place_at,
  with_constant,
  with_constants,
  places_behind,
  greatest_alignment,
};

use base_list::List;
use mir_pool::constant::PoolConstant;
use std::alloc::{AllocError, Global};

/// The bytes of a section.
pub type SectionBytes = List<u8>;

/// Offsets of constants from the first byte of their section.
pub type Places = List<usize>;

/// How many bytes stand between an offset and the next multiple of an alignment: none if the alignment is 0.
fn padding(align: usize, at: usize) -> usize
    ensures { result ≡ padding align at }
{
    if align == 0 {
        return 0;
    }
    (align - at % align) % align
}

fn push_zeros(bytes: &mut SectionBytes, count: usize) -> Result<(), AllocError>
    ensures { OnOk result (bytes.new ≡ bytes.old ++ replicate count 0) }
{
    for _ in 0..count {
        bytes.push(0)?;
    }
    Ok(())
}

/// Appends zeros up to the next multiple of an alignment.
fn push_padding(bytes: &mut SectionBytes, align: u32) -> Result<(), AllocError>
    ensures { OnOk result (bytes.new ≡ bytes.old ++ replicate (padding align (length bytes.old)) 0) }
{
    let count = padding(align as usize, bytes.len());
    push_zeros(bytes, count)
}

/// Appends the bytes of a constant.
fn push_value(bytes: &mut SectionBytes, constant: PoolConstant) -> Result<(), AllocError>
    ensures { OnOk result (bytes.new ≡ bytes.old ++ constant_bytes constant) }
{
    let n = constant.integer.bytes() as usize;
    bytes.extend_from_slice(&constant.value.to_le_bytes()[..n])
}

/// Appends a constant at the next multiple of its alignment. The result is where it stands.
fn push_constant(bytes: &mut SectionBytes, constant: PoolConstant) -> Result<usize, AllocError>
    ensures bytes { OnOk result (bytes.new ≡ with_constant bytes.old constant) }
    ensures place { IfOk result (λ place. place ≡ place_at (length bytes.old) constant) }
{
    push_padding(bytes, constant.alignment)?;
    let place = bytes.len();
    push_value(bytes, constant)?;
    Ok(place)
}

/// Appends the constants of a pool, each at the next multiple of its alignment. The result is where they stand, in
/// their order.
pub fn push_constants(
    alloc: Global,
    bytes: &mut SectionBytes,
    constants: &[PoolConstant],
) -> Result<Places, AllocError>
    ensures bytes { OnOk result (bytes.new ≡ with_constants bytes.old constants.now) }
    ensures places { IfOk result (λ places. places ≡ places_behind bytes.old constants.now) }
{
    let mut places = Places::new(alloc);
    for constant in constants {
        let place = push_constant(bytes, *constant)?;
        places.push(place)?;
    }
    Ok(places)
}

/// The greatest of an alignment and those of constants.
pub fn greatest_alignment(alignment: u32, constants: &[PoolConstant]) -> u32
    ensures { result ≡ greatest_alignment alignment constants.now }
{
    let mut most = alignment;
    for constant in constants {
        most = most.max(constant.alignment);
    }
    most
}
