//! The line of a row, and how it is written.
ghost use Rattle.std.specs.Prelude.{ℕ, List, IsTrue};
ghost use Rattle.std.specs.Io.KnownBytes.{Appends};
ghost use Rattle.prefix_trie_rows.specs.Lines.{row_line, Begins};

use std::alloc::Global;
use std::io::Write;

/// Prints the line of a row. Returns whether all of it was written.
pub fn print_line<W: Write>(alloc: Global, out: &mut W, number: u32, holds: bool) -> bool
    ensures written { IsTrue result
        → Appends (W.contents out.old) (W.contents out.new) (row_line number holds) }
    ensures begins { (bs : List ℕ) × Appends (W.contents out.old) (W.contents out.new) bs
        × Begins bs (row_line number holds) }
{
    let outcome = if holds { "ok" } else { "failed" };
    match format!(in alloc; "row {number} {outcome}\n") {
        Ok(line) => write_once(out, line.as_bytes()),
        Err(_) => false,
    }
}

/// Writes bytes. Returns whether all were written. After a write that fails or writes nothing, it makes no other.
fn write_once<W: Write>(out: &mut W, bytes: &[u8]) -> bool
    ensures written { IsTrue result → Appends (W.contents out.old) (W.contents out.new) bytes.now }
    ensures begins { (bs : List ℕ) × Appends (W.contents out.old) (W.contents out.new) bs
        × Begins bs bytes.now }
{
    let mut rest = bytes;
    for _ in 0..bytes.len() {
        if rest.is_empty() {
            return true;
        }
        match out.write(rest) {
            Ok(0) => return false,
            Ok(count) => rest = &rest[count..],
            Err(_) => return false,
        }
    }
    rest.is_empty()
}
