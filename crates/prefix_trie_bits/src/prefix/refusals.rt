//! What a refusal becomes in a program, a text and by `?` its cause alone or an `io::Error`, and the refusal that an `AllocError` becomes.
ghost use Rattle.std.specs.Prelude.{◌≡◌, Some};
ghost use Rattle.std.specs.Fmt.{padded};
ghost use Rattle.std.specs.IoError.{error_kind};
ghost use Rattle.prefix_trie_bits.specs.Refusals.{refusal_kind, refusal_text};
ghost use Rattle.prefix_trie_bits.specs.declared.prefix.Refusal.TheVariants.{Memory};

use crate::prefix::{Refusal, Refused};
use std::alloc::AllocError;
use std::error::Error;
use std::fmt::{self, Debug, Display, Formatter, Write};
use std::io::{self, ErrorKind};

impl Refusal {
    // Returns its text.
    fn text(self) -> &'static str
        ensures { result.now ≡ refusal_text self }
    {
        match self {
            Refusal::Memory => "a request for memory was refused",
            Refusal::IndexRange => "the slots needed pass the limit",
        }
    }
}

impl Display for Refusal {
    ghost output = { λ refusal. Some (refusal_text refusal) };

    ghost styled_output = { λ refusal spec. Some (padded spec (refusal_text refusal)) };

    fn fmt<F: Write>(&self, f: &mut Formatter<F>) -> fmt::Result {
        f.pad(self.text())
    }
}

impl Error for Refusal {}

impl<T> Display for Refused<T> {
    ghost output = { λ refused. Some (refusal_text refused.cause) };

    ghost styled_output = { λ refused spec. Some (padded spec (refusal_text refused.cause)) };

    fn fmt<F: Write>(&self, f: &mut Formatter<F>) -> fmt::Result {
        f.pad(self.cause.text())
    }
}

impl<T: Debug + Drop> Error for Refused<T> {}

impl<T: Drop> From<Refused<T>> for Refusal {
    ghost from_gives = { λ refused cause. cause ≡ refused.cause };

    fn from(refused: Refused<T>) -> Refusal {
        refused.cause
    }
}

impl From<AllocError> for Refusal {
    ghost from_gives = { λ _ refusal. refusal ≡ Memory };

    fn from(_: AllocError) -> Refusal {
        Refusal::Memory
    }
}

impl From<Refusal> for io::Error {
    ghost from_gives = { λ refusal error. error_kind error ≡ refusal_kind refusal };

    fn from(refusal: Refusal) -> io::Error {
        let kind = match refusal {
            Refusal::Memory => ErrorKind::OutOfMemory,
            Refusal::IndexRange => ErrorKind::QuotaExceeded,
        };
        io::Error::new(kind, refusal.text())
    }
}

impl<T: Drop> From<Refused<T>> for io::Error {
    ghost from_gives = { λ refused error. error_kind error ≡ refusal_kind refused.cause };

    fn from(refused: Refused<T>) -> io::Error {
        io::Error::from(refused.cause)
    }
}
