//! Next hops.
ghost use Rattle.std.specs.Prelude.{◌≡◌, ◌<◌, ◌≤◌, MatchOption};

/// A next hop: a number below 2^23, as an index into a list of neighbours.
///
/// # Examples
///
/// ```rust
/// Hop::new(7).map(|hop| hop.get());   // Some(7)
/// Hop::new(0x0080_0000);              // None: it has 24 bits
/// ```
#[derive(Clone, Copy, PartialEq, Eq, Debug)]
pub struct Hop {
    number: u32,
    ghost small: { number < 8388608 },
}

impl Hop {
    /// Returns the hop of a number, or `None` if the number is 2^23 or more.
    ///
    /// # Examples
    ///
    /// ```rust
    /// Hop::new(0x007f_ffff).is_some();    // true
    /// ```
    #[inline]
    pub fn new(number: u32) -> Option<Self>
        ensures { MatchOption result (8388608 ≤ number) (λ hop. hop.number ≡ number) }
    {
        if number < 0x0080_0000 {
            Some(Hop { number })
        } else {
            None
        }
    }

    /// Returns the number, which is below 2^23.
    ///
    /// # Examples
    ///
    /// ```rust
    /// Hop::new(7).map(|hop| hop.get());   // Some(7)
    /// ```
    #[inline]
    pub fn get(self) -> u32
        ensures value { result ≡ self.number }
        ensures small { result < 8388608 }
    {
        self.number
    }
}
