//! Lists of bytes, and of numbers of calls.

use base_list::List;

/// Bytes in order.
pub type Bytes = List<u8>;

/// Numbers of calls of an adapter over memory. Its first call has the number 1.
pub type CallNumbers = List<u64>;
