//! What `stats` prints.

use crate::stats::Counts;
use std::io::{self, Write};

/// Prints counts and memory of a family, and a bar for each length of its networks.
pub fn print_counts<W: Write>(family: &str, counts: &Counts, out: &mut W) -> io::Result<()> {
    writeln!(out, "{family}")?;
    writeln!(out, "  entries    {}", counts.entries)?;
    writeln!(out, "  nodes      {}", counts.nodes)?;
    writeln!(
        out,
        "  slots      {} for nodes, {} for values",
        counts.node_slots, counts.value_slots
    )?;
    writeln!(
        out,
        "  bytes      {} in arrays, {} in values",
        counts.array_bytes, counts.listed.value_bytes
    )?;
    writeln!(out, "  addresses  {}", counts.addresses.as_str())?;
    print_lengths(counts.listed.by_length.as_slice(), out)
}

// Prints the length, the number and a bar of at most 40 marks for each length with networks.
fn print_lengths<W: Write>(counts: &[usize], out: &mut W) -> io::Result<()> {
    let most = counts.iter().copied().max().unwrap_or(0);
    let per_mark = most / MARKS + 1;
    for (len, count) in counts.iter().enumerate() {
        if *count > 0 {
            write!(out, "  /{len:<3} {count:>9} ")?;
            print_bar(count.div_ceil(per_mark), out)?;
        }
    }
    Ok(())
}

// The longest bar.
const MARKS: usize = 40;

// Prints a bar and ends the line.
fn print_bar<W: Write>(marks: usize, out: &mut W) -> io::Result<()> {
    for _ in 0..marks {
        out.write_all(b"#")?;
    }
    writeln!(out)
}
