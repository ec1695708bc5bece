//! The first fault in the bytes of a section.

ghost use Rattle.std.specs.Prelude.{◌≡◌, ◌+◌, ◌≤◌, length};

/// The error of a reader: the bytes aren't a section of location lists, and the first wrong field begins at this byte.
#[derive(Clone, Copy, Debug, PartialEq, Eq)]
pub struct ListFault {
    /// The index of the byte.
    pub at: usize,
}

impl ListFault {
    /// The fault at the first of the bytes that are left.
    pub fn at(bytes: &[u8], rest: &[u8]) -> ListFault
        requires { length rest.now ≤ length bytes.now }
        ensures { result.at + length rest.now ≡ length bytes.now }
    {
        ListFault {
            at: bytes.len() - rest.len(),
        }
    }
}
