//! A reader and a writer over memory that move a piece of so many bytes a call at most.

use base_io::memory_sink::MemorySink;
use base_io::memory_source::MemorySource;
use base_io::sink::Sink;
use base_io::source::Source;
use std::io;
use std::io::{ErrorKind, Read, Write};

/// Gives the bytes of a source, and fails where it fails.
#[derive(Drop)]
pub struct PieceReader {
    pub source: MemorySource,
    /// How many bytes a call gives at most.
    pub most: usize,
}

impl Read for PieceReader {
    fn read(&mut self, buf: &mut [u8]) -> io::Result<usize> {
        let size = buf.len().min(self.most);
        match self.source.read(&mut buf[..size]) {
            Ok(count) => Ok(count),
            Err(_) => Err(io::Error::from(ErrorKind::Other)),
        }
    }
}

/// Hands bytes to a sink, and fails where it fails.
#[derive(Drop)]
pub struct PieceWriter {
    pub sink: MemorySink,
    /// How many bytes a call takes at most.
    pub most: usize,
}

impl Write for PieceWriter {
    fn write(&mut self, buf: &[u8]) -> io::Result<usize> {
        let size = buf.len().min(self.most);
        match self.sink.write(&buf[..size]) {
            Ok(count) => Ok(count),
            Err(_) => Err(io::Error::from(ErrorKind::Other)),
        }
    }

    fn flush(&mut self) -> io::Result<()> {
        Ok(())
    }
}
