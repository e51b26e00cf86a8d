//! A progress line for inputs that take long to read.

use crate::session::Source;
use std::io::{self, Read};
use std::time::Instant;

/// A source that shows once a second on standard error how much is read, unless it is to be quiet.
#[derive(Drop)]
pub struct Watched<'a> {
    rt: &'a HostRuntime,
    name: &'a str,
    source: Source,
    start: Instant,
    is_shown: bool,
    // the bytes that are read, and the seconds at which this was last shown
    bytes: u64,
    seconds: u64,
}

impl<'a> Watched<'a> {
    /// Watches the source with this name.
    pub fn new(
        rt: &'a HostRuntime,
        name: &'a str,
        source: Source,
        is_shown: bool,
    ) -> io::Result<Watched<'a>> {
        Ok(Watched {
            rt,
            name,
            source,
            start: Instant::now(rt)?,
            is_shown,
            bytes: 0,
            seconds: 0,
        })
    }

    // Shows how much is read if a second passed since it was last shown.
    fn show(&mut self) -> io::Result<()> {
        let seconds = self.start.elapsed(self.rt)?.as_secs();
        if seconds > self.seconds {
            self.seconds = seconds;
            let mebibytes = self.bytes >> 20;
            let _ = eprint!(self.rt; "\rroutes: {}: {mebibytes} MiB read", self.name);
        }
        Ok(())
    }

    // Clears the line that was shown last.
    fn clear(&self) {
        if self.seconds > 0 {
            let _ = eprint!(self.rt; "\r\x1b[K");
        }
    }
}

impl Read for Watched<'_> {
    fn read(&mut self, buf: &mut [u8]) -> io::Result<usize> {
        let count = self.source.read(buf)?;
        if self.is_shown {
            self.bytes = self.bytes.saturating_add(count as u64);
            if count == 0 {
                self.clear();
            } else {
                self.show()?;
            }
        }
        Ok(count)
    }
}
