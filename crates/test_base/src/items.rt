//! The elements of lists.

use base_list::List;
use std::alloc::{AllocError, Global};
use std::test::Fail;

/// The numbers up to eight, in a list that is no longer empty.
fn counted(alloc: Global) -> Result<List<u32>, AllocError> {
    let mut list = List::new(alloc);
    for n in 0..9u32 {
        list.push(n)?;
    }
    Ok(list)
}

/// The length of a list of some numbers and two more.
fn length_with_two_more(alloc: Global, numbers: &[u32]) -> Result<usize, AllocError> {
    let more = List::from_slice(alloc, numbers)?;
    let mut again: List<u32> = List::from(more.into_vec());
    again.extend_from_slice(&[9, 10])?;
    Ok(again.len())
}

/// Whether a copy of a list has these numbers.
fn is_copied(list: &List<u32>, numbers: &[u32]) -> Result<bool, AllocError> {
    let copied = list.copy()?;
    Ok(!list.is_empty() && copied.len() == 9 && copied.as_slice() == numbers)
}

#[test]
fn lists_keep_their_items(rt: HostRuntime) -> Result<(), Fail> {
    let numbers = [0, 1, 2, 3, 4, 5, 6, 7, 8];
    let list = counted(rt.alloc())?;
    assert!(rt; is_copied(&list, numbers.as_slice())?);
    assert!(rt; length_with_two_more(rt.alloc(), list.as_slice())? == 11);
    Ok(())
}
