//! The exit status.
ghost use Rattle.std.specs.Prelude.{◌≡◌, MatchBool};

/// What the exit status says. The number of a variant is the status.
#[derive(Clone, Copy, Debug, PartialEq, Eq)]
pub enum Status {
    /// All is well.
    Good = 0,
    /// An address is not allowed, tables differ, no line matches, or a route is invalid.
    Bad = 1,
    /// An error was reported.
    Failed = 2,
}

impl Status {
    /// Returns the status of a comparison or a check: `Bad` if something differs or is not allowed.
    pub fn of(is_good: bool) -> Status
        ensures { MatchBool is_good (result ≡ Status.Good) (result ≡ Status.Bad) }
    {
        if is_good { Status::Good } else { Status::Bad }
    }
}
