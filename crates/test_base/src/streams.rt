//! Reading and writing over memory with planned faults, and the adapters over the standard library.

ghost use Rattle.std.specs.Prelude.{◌<◌};

use base_io::bytes::{Bytes, CallNumbers};
use base_io::fault::Failed;
use base_io::memory_sink::MemorySink;
use base_io::memory_source::MemorySource;
use base_io::reading::{ReadError, read_all};
use base_io::sink::Sink;
use base_io::source::Source;
use base_io::std_sink::StdSink;
use base_io::std_source::StdSource;
use base_io::writing::write_all;
use std::alloc::{AllocError, Global};
use std::io;
use std::io::{ErrorKind, Read, Write};
use std::test::Fail;

/// How many bytes a piece has, the answer, and what the piece holds then, which was four dots.
type ReadRow = (usize, Result<usize, Failed>, &'static [u8]);

/// The calls of a source over `hello` whose second and fourth call fail.
const READS: &[ReadRow] = &[
    (2, Ok(2), b"he"),
    (2, Err(Failed), b".."),
    (2, Ok(2), b"ll"),
    (2, Err(Failed), b".."),
    (4, Ok(1), b"o..."),
    (4, Ok(0), b"...."),
];

/// A piece, the answer, and what is written behind it.
type WriteRow = (&'static [u8], Result<usize, Failed>, &'static [u8]);

/// The calls of a sink with room for four bytes whose second call fails.
const WRITES: &[WriteRow] = &[
    (b"ab", Ok(2), b"ab"),
    (b"cd", Err(Failed), b"ab"),
    (b"", Ok(0), b"ab"),
    (b"cde", Ok(2), b"abcd"),
    (b"e", Err(Failed), b"abcd"),
    (b"", Ok(0), b"abcd"),
];

fn source(alloc: Global, bytes: &[u8], fails: &[u64]) -> Result<MemorySource, AllocError> {
    let bytes = Bytes::from_slice(alloc, bytes)?;
    let fails = CallNumbers::from_slice(alloc, fails)?;
    Ok(MemorySource::new(bytes, fails))
}

fn sink(alloc: Global, room: usize, fails: &[u64]) -> Result<MemorySink, AllocError> {
    let fails = CallNumbers::from_slice(alloc, fails)?;
    MemorySink::new(alloc, room, fails)
}

/// Whether the next call of a source gives this.
fn is_read(input: &mut MemorySource, row: &ReadRow) -> bool {
    let (size, answer, filled) = *row;
    let mut buf = [b'.'; 4];
    if size > 4 {
        return false;
    }
    let piece = &mut buf[..size];
    let found = input.read(piece);
    found == answer && &*piece == filled
}

/// The number of the first call that gives something else.
fn other_read(input: &mut MemorySource, rows: &[ReadRow]) -> Option<usize> {
    for (call, row) in rows.iter().enumerate() {
        if !is_read(input, row) {
            return Some(call);
        }
    }
    None
}

/// Whether the next call of a sink gives this.
fn is_written(output: &mut MemorySink, row: &WriteRow) -> bool {
    let (piece, answer, written) = *row;
    let found = output.write(piece);
    found == answer && output.written() == written
}

/// The number of the first call that gives something else.
fn other_write(output: &mut MemorySink, rows: &[WriteRow]) -> Option<usize> {
    for (call, row) in rows.iter().enumerate() {
        if !is_written(output, row) {
            return Some(call);
        }
    }
    None
}

/// The number of the first call of a source over `hello` that gives something else.
fn other_piece(alloc: Global) -> Result<Option<usize>, AllocError> {
    let mut input = source(alloc, b"hello", &[2, 4])?;
    Ok(other_read(&mut input, READS))
}

/// The number of the first call of a sink that gives something else.
fn other_fault(alloc: Global) -> Result<Option<usize>, AllocError> {
    let mut output = sink(alloc, 4, &[2])?;
    Ok(other_write(&mut output, WRITES))
}

#[test]
fn pieces_and_planned_faults(rt: HostRuntime) -> Result<(), Fail> {
    assert_eq!(rt; other_piece(rt.alloc())?, None);
    assert_eq!(rt; other_fault(rt.alloc())?, None);
    Ok(())
}

/// A reader that gives a byte a call, counting down to 1, and fails at one of its calls.
#[derive(Drop)]
struct Countdown {
    left: u8,
    calls_to_fault: u8,
}

impl Read for Countdown {
    fn read(&mut self, buf: &mut [u8]) -> io::Result<usize> {
        if self.calls_to_fault == 0 {
            return Err(io::Error::from(ErrorKind::Other));
        }
        self.calls_to_fault -= 1;
        if buf.is_empty() || self.left == 0 {
            return Ok(0);
        }
        buf[0] = self.left;
        self.left -= 1;
        Ok(1)
    }
}

/// A writer that takes a byte a call. With its room full it fails, or takes nothing.
#[derive(Drop)]
struct Drip {
    taken: Vec<u8>,
    room: usize,
    fails: bool,
}

impl Write for Drip {
    fn write(&mut self, buf: &[u8]) -> io::Result<usize> {
        if buf.is_empty() || (self.taken.len() >= self.room && !self.fails) {
            return Ok(0);
        }
        if self.taken.len() >= self.room {
            return Err(io::Error::from(ErrorKind::Other));
        }
        self.taken.push(buf[0])?;
        Ok(1)
    }

    fn flush(&mut self) -> io::Result<()> {
        Ok(())
    }
}

/// The bytes that are read of a countdown from 3, of which one call fails.
fn read_with_fault(alloc: Global, calls_to_fault: u8) -> Result<Bytes, ReadError> {
    let mut input = StdSource::new(Countdown {
        left: 3,
        calls_to_fault,
    });
    read_all(alloc, &mut input, 3)
}

/// Whether `hello` is written to a writer with this room with this answer, and this is what it takes.
fn is_taken(
    alloc: Global,
    room: usize,
    fails: bool,
    answer: Result<(), Failed>,
    taken: &[u8],
) -> bool {
    let mut drip = Drip {
        taken: Vec::new(alloc),
        room,
        fails,
    };
    let found = write_all(&mut StdSink::new(&mut drip), b"hello");
    found == answer && drip.taken.as_slice() == taken
}

/// Whether all bytes of a countdown are read where no call fails, and none is where its third call does.
fn counts_down(alloc: Global) -> bool {
    let fails = matches!(read_with_fault(alloc, 2), Err(ReadError::Failed));
    match read_with_fault(alloc, 9) {
        Ok(read) => fails && read.as_slice() == [3, 2, 1].as_slice(),
        Err(_) => false,
    }
}

/// Whether `hello` is written to a vector.
fn is_appended(alloc: Global) -> bool {
    let mut bytes = Vec::new(alloc);
    let written = write_all(&mut StdSink::new(&mut bytes), b"hello");
    written == Ok(()) && bytes.as_slice() == b"hello".as_slice()
}

#[test]
fn the_standard_library_passes_bytes_and_faults_on(rt: HostRuntime) {
    assert!(rt; counts_down(rt.alloc()));
    assert!(rt; is_taken(rt.alloc(), 5, true, Ok(()), b"hello"));
    assert!(rt; is_taken(rt.alloc(), 3, true, Err(Failed), b"hel"));
    assert!(rt; is_taken(rt.alloc(), 3, false, Err(Failed), b"hel"));
    assert!(rt; is_appended(rt.alloc()));
}
