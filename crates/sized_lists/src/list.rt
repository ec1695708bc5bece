//! The content of location lists of variables with sizes.

ghost use Rattle.std.specs.Prelude.{◌≡◌, IfOk};
ghost use Rattle.sized_lists.specs.Sized;

use base_list::List;
use dwarf_loclists::range::{RangeLists, Ranges};
use std::alloc::{AllocError, Global};

/// The location list of a variable whose size is known.
#[derive(Debug, Drop)]
pub struct SizedList {
    /// The size of the variable in bytes.
    pub size: u64,
    /// Its ranges.
    pub ranges: Ranges,
}

/// The lists of variables, in the order of their numbers.
pub type SizedLists = List<SizedList>;

/// Lists with the sizes of their variables, in their order: eight bytes where there is no size. The error is out of
/// memory.
pub fn sized(alloc: Global, lists: RangeLists, sizes: &[u64]) -> Result<SizedLists, AllocError>
    ensures { IfOk result (λ made. made ≡ Sized.sized sizes.now 0 lists) }
{
    let mut made = SizedLists::new(alloc);
    for ranges in lists.into_vec() {
        let size = size_at(sizes, made.len());
        made.push(SizedList { size, ranges })?;
    }
    Ok(made)
}

/// The size at an index, and eight bytes where there is none.
fn size_at(sizes: &[u64], index: usize) -> u64
    ensures { result ≡ Sized.size_at sizes.now index }
{
    if index < sizes.len() { sizes[index] } else { 8 }
}
