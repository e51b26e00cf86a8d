//! Why the program ends early.

use prefix_trie::Refusal;
use std::alloc::AllocError;
use std::io::{self, ErrorKind};

/// Why a command ends early.
#[derive(Drop)]
pub enum Failure {
    /// Nobody reads standard output any more.
    ClosedOutput,
    /// Standard output cannot be written.
    Output(io::Error),
    /// An allocation failed.
    Memory,
    /// A table is full.
    Full,
    /// The reason was written to standard error.
    Reported,
}

impl From<AllocError> for Failure {
    fn from(_error: AllocError) -> Failure {
        Failure::Memory
    }
}

impl From<Refusal> for Failure {
    fn from(cause: Refusal) -> Failure {
        match cause {
            Refusal::Memory => Failure::Memory,
            Refusal::IndexRange => Failure::Full,
        }
    }
}

// an error of reading is reported with the name of the file, so an error of input and output is one of standard output
impl From<io::Error> for Failure {
    fn from(error: io::Error) -> Failure {
        match error.kind() {
            ErrorKind::BrokenPipe => Failure::ClosedOutput,
            ErrorKind::OutOfMemory => Failure::Memory,
            _ => Failure::Output(error),
        }
    }
}

impl Failure {
    /// Writes the reason to standard error, unless it is there already.
    pub fn report(&self, rt: &HostRuntime) {
        let _ = match self {
            Failure::ClosedOutput | Failure::Reported => Ok(()),
            Failure::Output(error) => eprintln!(rt; "routes: standard output: {error}"),
            Failure::Full => eprintln!(rt; "routes: the table is full"),
            Failure::Memory => eprintln!(rt; "routes: out of memory"),
        };
    }
}
