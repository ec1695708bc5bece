//! Reading a source to its end.

ghost use Rattle.std.specs.Prelude.{◌≡◌, ◌+◌, ◌^◌, ◌<◌, ◌≤◌, length, take, drop, ◌⊎◌, IfOk, IfErr, OnOk, OnErr};
ghost use Rattle.std.specs.Prelude.{IfSome, IsErrOf};
ghost use Rattle.base_io.specs.declared.reading.ReadError.TheVariants.{Failed, Memory};
ghost use Rattle.base_io.specs.Faults.{CountRose};
ghost use Rattle.base_io.specs.Reading.{AnswersFor};
ghost use Rattle.base_io.specs.Told.{Takes, TakesCount, TakesAtMost, IsAtEnd};

use crate::bytes::Bytes;
use crate::fault::Failed;
use crate::source::Source;
use std::alloc::{AllocError, Global};
use thiserror::Error;

/// Why a source wasn't read to its end.
#[derive(Clone, Copy, Debug, PartialEq, Eq, Error)]
pub enum ReadError {
    /// A read failed.
    #[error("reading failed")]
    Failed,
    /// The source has more bytes than the limit.
    #[error("the input is too long")]
    TooLong,
    /// Memory ran out.
    #[error("out of memory")]
    Memory,
}

impl From<Failed> for ReadError {
    ghost from_gives = { λ _ e. e ≡ Failed };

    fn from(_: Failed) -> ReadError {
        ReadError::Failed
    }
}

impl From<AllocError> for ReadError {
    ghost from_gives = { λ _ e. e ≡ Memory };

    fn from(_: AllocError) -> ReadError {
        ReadError::Memory
    }
}

/// The size of the first buffer, in bytes.
const FIRST_ROOM: usize = 64 * 1024;

/// Reads a source to its end, and returns all its bytes, which are at most `limit`. Each iteration takes a byte or
/// ends, and no more than one byte beyond the limit is read.
///
/// `Failed`: the first read that failed ended the reading. `TooLong`: the source had more than `limit` bytes, and
/// `limit + 1` of them were read.
pub fn read_all<S: Source>(alloc: Global, input: &mut S, limit: usize) -> Result<Bytes, ReadError>
    requires { limit < 2 ^ 31 }
    // What was read: all that was left, and no more than the limit.
    ensures all { IfOk result (λ bytes. Takes (S.left input.old) (S.left input.new) bytes) }
    ensures end { OnOk result (IsAtEnd (S.left input.new)) }
    ensures within { IfOk result (λ bytes. length bytes ≤ limit) }
    ensures steady { OnOk result (S.faults input.new ≡ S.faults input.old) }

    // When each error comes, and what it leaves.
    ensures failed { IsErrOf result ReadError.Failed → CountRose (S.faults input.old) (S.faults input.new) }
    ensures too_long { IsErrOf result ReadError.TooLong → TakesCount (S.left input.old) (S.left input.new) (limit + 1) }
    ensures no_fault { IsErrOf result ReadError.TooLong → S.faults input.new ≡ S.faults input.old }
    ensures err { OnErr result (TakesAtMost (S.left input.old) (S.left input.new) (limit + 1)) }

    // Where the bytes left are told, the answer is that for them.
    ensures told { IfSome (S.left input.old) (λ left. AnswersFor left limit result) }

    ensures counts { S.faults input.old ≤ S.faults input.new }
{
    let mut bytes = Vec::new(alloc);
    let mut filled = 0;
    while filled <= limit {
        let count = read_more(input, &mut bytes, filled, limit + 1)?;
        if count == 0 {
            bytes.truncate(filled);
            return Ok(Bytes::from(bytes));
        }
        filled += count;
    }
    Err(ReadError::TooLong)
}

/// Reads a piece into the buffer after the first `filled` bytes, up to `most` bytes in all, and returns its length in
/// bytes.
fn read_more<S: Source>(
    input: &mut S,
    bytes: &mut Vec<u8>,
    filled: usize,
    most: usize,
) -> Result<usize, ReadError>
    requires filled { filled ≤ length bytes.old.items }
    requires below { filled < most }
    requires most { length bytes.old.items ≤ most }
    requires small { most ≤ 2 ^ 31 }
    ensures kept { take filled bytes.new.items ≡ take filled bytes.old.items }
    ensures within { IfOk result (λ n. filled + n ≤ length bytes.new.items) }
    ensures most { length bytes.new.items ≤ most }
    ensures takes { IfOk result (λ n. Takes (S.left input.old) (S.left input.new) (take n (drop filled
        bytes.new.items))) }
    ensures end { result ≡ Ok 0 → IsAtEnd (S.left input.new) }
    ensures steady { OnOk result (S.faults input.new ≡ S.faults input.old) }
    ensures unread { OnErr result (S.left input.new ≡ S.left input.old) }
    ensures fault { IfErr result (λ e. e ≡ ReadError.Failed ⊎ e ≡ ReadError.Memory) }
    ensures failed { IsErrOf result ReadError.Failed → CountRose (S.faults input.old) (S.faults input.new) }
    ensures counts { S.faults input.old ≤ S.faults input.new }
{
    make_room(bytes, filled, most)?;
    let count = read_behind(input, bytes.as_mut_slice(), filled)?;
    Ok(count)
}

/// Ensures room after the first `filled` bytes: a full buffer grows to twice its size, at least to the first size,
/// and to `most` bytes at most.
fn make_room(bytes: &mut Vec<u8>, filled: usize, most: usize) -> Result<(), AllocError>
    requires filled { filled ≤ length bytes.old.items }
    requires below { filled < most }
    requires most { length bytes.old.items ≤ most }
    requires small { most ≤ 2 ^ 31 }
    ensures room { OnOk result (filled < length bytes.new.items) }
    ensures most { length bytes.new.items ≤ most }
    ensures kept { take filled bytes.new.items ≡ take filled bytes.old.items }
{
    if filled < bytes.len() {
        return Ok(());
    }
    let len = (2 * filled).max(FIRST_ROOM).min(most);
    bytes.resize(len, 0)
}

/// Reads a piece into the buffer after the first `filled` bytes, and returns its length in bytes.
fn read_behind<S: Source>(input: &mut S, bytes: &mut [u8], filled: usize) -> Result<usize, Failed>
    requires { filled < length bytes.old }
    ensures kept { take filled bytes.new ≡ take filled bytes.old }
    ensures within { IfOk result (λ n. filled + n ≤ length bytes.new) }
    ensures takes { IfOk result (λ n. Takes (S.left input.old) (S.left input.new) (take n (drop filled bytes.new))) }
    ensures end { result ≡ Ok 0 → IsAtEnd (S.left input.new) }
    ensures steady { OnOk result (S.faults input.new ≡ S.faults input.old) }
    ensures unread { OnErr result (S.left input.new ≡ S.left input.old) }
    ensures failed { OnErr result (CountRose (S.faults input.old) (S.faults input.new)) }
    ensures counts { S.faults input.old ≤ S.faults input.new }
{
    input.read(&mut bytes[filled..])
}
