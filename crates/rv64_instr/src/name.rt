//! Names of functions and variables.

use base_list::List;

/// A name, by its bytes. It need not be text, and may be empty.
pub type Name = List<u8>;
