//! The values of a table.
ghost use Rattle.std.specs.Prelude.{◌≡◌, ◌<◌, ◌↔◌, ◌∷◌, [], length, IfErr, IfOk, IsTrue, MatchResult, Some, bytes_eq};
ghost use Rattle.route_tables.specs.Lines.{fields};
ghost use Rattle.route_tables.specs.Routes.{IsLineValue};
ghost use Rattle.route_tables.specs.Values.{IsReason};

use crate::line::{has_hidden, is_address};
use crate::lines::split_field;
use crate::messages::OUT_OF_MEMORY;
use arrayvec::ArrayString;
use std::alloc::{AllocError, Global};
use std::error::Error;
use std::fmt::{self, Display, Formatter, Write};
use std::marker::Model;

/// Why a text is not the value of a network.
#[derive(Clone, Copy, Debug, PartialEq, Eq)]
pub enum ValueError {
    /// It has a control character, white space, or a character that is not visible or changes the direction of text.
    HiddenCharacter,
    /// It is an address.
    Address,
    /// It begins with `#`, as a comment does.
    Comment,
    /// An allocation failed.
    Memory,
}

impl Display for ValueError {
    fn fmt<W: Write>(&self, f: &mut Formatter<W>) -> fmt::Result {
        f.write_str(match self {
            ValueError::HiddenCharacter => "white space, hidden or control character in the value",
            ValueError::Address => "the value is an address",
            ValueError::Comment => "the value begins a comment",
            ValueError::Memory => OUT_OF_MEMORY,
        })
    }
}

impl Error for ValueError {}

/// The value of a network: a text that a line of a table can have after its network, or the empty text. Contracts see
/// its bytes.
///
/// A short text is in the value itself, so that a lookup reads no other memory.
#[derive(Drop)]
pub struct Value {
    text: Text,
}

// The text of a value.
#[derive(Drop)]
enum Text {
    // In the value.
    Short(ArrayString<SHORT>),
    // In memory of its own.
    Long(String),
}

// The number of bytes of the longest text that is in the value.
const SHORT: usize = 16;

impl Model for Value {
    ghost use Rattle.std.specs.Prelude.{ℕ, List};
    ghost use Rattle.route_tables.specs.Values.{bytes_of};

    ghost Value = { List ℕ };

    ghost view = { λ value. bytes_of value.text };
}

impl Value {
    /// Returns a value with a copy of a text. A text of at most 16 bytes needs no allocation.
    ///
    /// # Errors
    ///
    /// Returns why a line cannot have the text as its value: it would not be read back. Returns `Memory` if an allocation
    /// fails.
    ///
    /// # Examples
    ///
    /// ```rust
    /// Value::new("core", alloc)?.as_str();        // "core"
    /// Value::new("", alloc)?.as_str();            // ""
    /// Value::new("two words", alloc).is_err();    // true
    /// Value::new("# why", alloc).is_err();        // true
    /// Value::new("10.0.0.1", alloc).is_err();     // true
    /// ```
    pub fn new(text: &str, alloc: Global) -> Result<Value, ValueError>
        ensures value { IfOk result (λ value. (value ≡ text.now) × IsLineValue text.now) }
        ensures refused { IfErr result (IsReason text.now) }
    {
        refuse_other_text(text)?;
        match Value::of_line(text, alloc) {
            Ok(value) => Ok(value),
            Err(_) => Err(ValueError::Memory),
        }
    }

    /// Returns a value with a copy of a text that a line can have as its value.
    pub(crate) fn of_line(text: &str, alloc: Global) -> Result<Value, AllocError>
        requires { IsLineValue text.now }
        ensures copy { IfOk result (λ value. value ≡ text.now) }
        ensures long { IfErr result (λ _. 16 < length text.now) }
    {
        let text = match ArrayString::from(text) {
            Ok(short) => Text::Short(short),
            Err(_) => Text::Long(String::from_str(alloc, text)?),
        };
        Ok(Value { text })
    }

    /// Returns the text.
    ///
    /// # Examples
    ///
    /// ```rust
    /// Value::new("core", alloc)?.as_str().len();      // 4
    /// ```
    pub fn as_str(&self) -> &str
        ensures { result.now ≡ self.now }
    {
        match &self.text {
            Text::Short(text) => text.as_str(),
            Text::Long(text) => text.as_str(),
        }
    }
}

// Returns why a line cannot have a text as its value.
fn refuse_other_text(text: &str) -> Result<(), ValueError>
    ensures { MatchResult result (λ _. IsLineValue text.now) (IsReason text.now) }
{
    if text.is_empty() {
        return Ok(());
    }
    if has_hidden(text) {
        return Err(ValueError::HiddenCharacter);
    }
    if is_address(text) {
        return Err(ValueError::Address);
    }
    if !is_field(text.as_bytes()) {
        return Err(ValueError::Comment);
    }
    Ok(())
}

// Returns whether the only field of a text is the text itself.
fn is_field(text: &[u8]) -> bool
    ensures { IsTrue result ↔ (fields text.now ≡ text.now ∷ []) }
{
    match split_field(text) {
        Some((field, rest)) => field == text && split_field(rest).is_none(),
        None => false,
    }
}

impl PartialEq for Value {
    ghost use Rattle.std.specs.Prelude.{bytes_eq};
    ghost use Rattle.std.specs.Cmp.{partial_equiv_from_equiv};
    ghost use Rattle.std.specs.Cmp.Lexicographic.{nat_list_eq_equiv};

    ghost eq = { bytes_eq };

    ghost laws = { partial_equiv_from_equiv nat_list_eq_equiv };

    fn eq(&self, other: &Value) -> bool {
        self.as_str() == other.as_str()
    }
}

impl Display for Value {
    ghost output = { λ value. Some value };

    fn fmt<W: Write>(&self, f: &mut Formatter<W>) -> fmt::Result {
        f.write_str(self.as_str())
    }
}
