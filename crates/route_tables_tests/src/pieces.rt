//! Reading a text in pieces of whole lines, however few bytes a read gives.

use route_tables::lines::skip_mark;
use route_tables::pieces::Pieces;
use std::alloc::Global;
use std::io::{self, Read};
use std::test::Fail;

/// A text of which each read gives at most some bytes.
#[derive(Drop)]
struct Slow<'a> {
    text: &'a [u8],
    most: usize,
}

impl Read for Slow<'_> {
    fn read(&mut self, buf: &mut [u8]) -> io::Result<usize> {
        let count = self.most.min(self.text.len()).min(buf.len());
        buf[..count].copy_from_slice(&self.text[..count]);
        self.text = &self.text[count..];
        Ok(count)
    }
}

/// Returns the pieces of a text one after another, or an error if one before the last does not end with a line feed.
fn joined(text: &[u8], most: usize, alloc: Global) -> Result<Vec<u8>, Fail> {
    let mut pieces = Pieces::new(Slow { text, most }, alloc);
    let mut read: Vec<u8> = Vec::new(alloc);
    for _ in 0..=text.len() {
        let Some(piece) = pieces.next()? else {
            return Ok(read);
        };
        if read.last().is_some_and(|last| *last != b'\n') {
            return Err(Fail::new("a piece ends within a line"));
        }
        read.extend_from_slice(piece)?;
    }
    Err(Fail::new("the text does not end"))
}

const TEXTS: &[&[u8]] = &[
    b"",
    b"\n",
    b"one",
    b"one\n",
    b"one\ntwo",
    b"\n\none\n\ntwo\n",
    b"\xef\xbb\xbfone\ntwo\n",
    b"\xef\xbb\xbf\n",
];

#[test]
fn pieces_have_all_lines(rt: HostRuntime) -> Result<(), Fail> {
    for text in TEXTS {
        for most in [1, 2, 3, 100] {
            let read = joined(text, most, rt.alloc())?;
            assert!(rt; read.as_slice() == skip_mark(text));
        }
    }
    Ok(())
}

/// Reads a line that is longer than what is read at once.
#[test]
fn a_long_line_is_one_piece(rt: HostRuntime) -> Result<(), Fail> {
    let text = vec![in rt.alloc(); b'1'; 200_000]?;
    let mut pieces = Pieces::new(text.as_slice(), rt.alloc());
    assert!(rt; pieces.next()?.map(|piece| piece.len()) == Some(200_000));
    assert!(rt; pieces.next()?.is_none());
    Ok(())
}
