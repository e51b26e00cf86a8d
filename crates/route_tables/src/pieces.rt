//! Reading a text piece by piece, each of whole lines.
ghost use Rattle.std.specs.Prelude.{◌≤◌, IfOk, length};

use crate::lines::skip_mark;
use memchr::memrchr;
use std::alloc::Global;
use std::io::{ErrorKind, Read, Result};

// The most bytes that are read at once.
const CHUNK: usize = 1 << 16;

/// A text that is read piece by piece. A piece is what one read gives, up to its last line feed, so it does not wait for more.
///
/// A byte order mark at the start of the text is skipped. The memory that a text takes grows with its longest line, and not with the text.
#[derive(Drop)]
pub struct Pieces<R: Read + Drop> {
    reader: R,
    // what was read and is not part of an earlier piece begins at `start`
    buffer: Vec<u8>,
    start: usize,
    is_begun: bool,
    is_ended: bool,
}

impl<R: Read + Drop> Pieces<R> {
    /// Reads from the start of a reader.
    ///
    /// # Examples
    ///
    /// ```rust
    /// let mut pieces = Pieces::new(b"one\ntwo".as_slice(), alloc);
    /// pieces.next()? == Some(b"one\n");       // true
    /// pieces.next()? == Some(b"two");         // true
    /// pieces.next()?.is_none();               // true
    /// ```
    pub fn new(reader: R, alloc: Global) -> Pieces<R> {
        Pieces {
            reader,
            buffer: Vec::new(alloc),
            start: 0,
            is_begun: false,
            is_ended: false,
        }
    }

    /// Returns the next piece, or `None` at the end of the text.
    ///
    /// Each piece ends with a line feed, except maybe the last.
    ///
    /// # Errors
    ///
    /// Returns the reader's error, or an error if an allocation fails.
    pub fn next(&mut self) -> Result<Option<&[u8]>> {
        self.buffer.drain(..self.start.min(self.buffer.len()));
        self.start = self.fill()?;
        if self.start == 0 {
            return Ok(None);
        }
        let piece = &self.buffer[..self.start];
        if self.is_begun {
            return Ok(Some(piece));
        }
        self.is_begun = true;
        Ok(Some(skip_mark(piece)))
    }

    // Reads until the buffer has a line feed. Returns the number of bytes up to the last one, or of all at the end of the text.
    fn fill(&mut self) -> Result<usize>
        ensures { IfOk result (λ end. end ≤ length self.new.buffer.items) }
    {
        for _ in 0..u64::MAX {
            if self.is_ended {
                break;
            }
            let former = self.read_chunk()?;
            if let Some(last) = memrchr(b'\n', &self.buffer[former..]) {
                return Ok(former + last + 1);
            }
        }
        Ok(self.buffer.len())
    }

    // Appends what one read gives, and returns the former length of the buffer.
    fn read_chunk(&mut self) -> Result<usize>
        ensures { IfOk result (λ former. former ≤ length self.new.buffer.items) }
    {
        let former = self.buffer.len();
        self.buffer.resize(former.saturating_add(CHUNK), 0)?;
        let read = self.reader.read(&mut self.buffer[former..]);
        let count = *read.as_ref().unwrap_or(&0);
        self.buffer.truncate(former.saturating_add(count));
        match read {
            Ok(count) => self.is_ended = count == 0,
            Err(error) if error.kind() == ErrorKind::Interrupted => {}
            Err(error) => return Err(error),
        }
        Ok(former)
    }
}
