//! What `validate` prints for routes.
ghost use Rattle.std.specs.Prelude.{◌≡◌, ◌∷◌, [], ◌<◌, ◌↔◌, ◌⊎◌, All, Any, IfErr, OnOk};
ghost use Rattle.std.specs.Io.KnownBytes.{Appends};
ghost use Rattle.route_tables.specs.Checks.{IsOutput, NamesText};
ghost use Rattle.route_tables.specs.Lines.{lines};
ghost use Rattle.route_tables.specs.Validations.{EndsValidation, IsGoodRoute, IsInvalidLine, Validates, ValidatesRoute, verdict_line, with_state};

use crate::announcements::{Announcement, read_announcement};
use crate::commands::printer::Printer;
use crate::commands::questions::{QuestionsError, Seen};
use crate::lines::split_line;
use crate::load::BadLines;
use crate::network::HostBits;
use origin_validation::{Validity, Vrps};
use prefix_trie_joint::laws::ip_text_laws;
use std::alloc::Global;
use std::io::Write;

/// What is printed for routes.
#[derive(Clone, Copy, Debug, Default, PartialEq, Eq)]
pub enum Verdicts {
    /// The state of each.
    #[default]
    Each,
    /// How many have each state.
    Counts,
}

/// How routes are validated.
#[derive(Clone, Copy, Debug, PartialEq, Eq)]
pub struct Validating {
    /// What is done with prefixes that have host bits.
    pub host_bits: HostBits,
    /// What is done with lines without a route.
    pub bad_routes: BadLines,
    /// What is printed.
    pub verdicts: Verdicts,
}

/// What the routes that were validated so far show.
#[derive(Debug, Drop)]
pub struct Validated {
    /// Which lines were read.
    pub seen: Seen,
    /// How many routes have each state.
    pub counts: StateCounts,
}

/// How many routes have each state, or `u64::MAX` if there are more.
#[derive(Clone, Copy, Debug, Default, PartialEq, Eq)]
pub struct StateCounts {
    /// The valid ones.
    pub valid: u64,
    /// The invalid ones.
    pub invalid: u64,
    /// The ones that no VRP covers.
    pub not_found: u64,
}

impl Validated {
    /// Returns what no routes show.
    pub fn new() -> Validated
        ensures seen { result.seen.count ≡ 0 }
        ensures invalid { result.counts.invalid ≡ 0 }
    {
        Validated {
            seen: Seen::new(),
            counts: StateCounts::default(),
        }
    }
}

// Counts one more state.
fn count_state(counts: &mut StateCounts, validity: &Validity)
    ensures { counts.new ≡ with_state counts.old validity.now }
{
    match validity {
        Validity::Valid(_) => counts.valid = counts.valid.saturating_add(1),
        Validity::Invalid(_) => counts.invalid = counts.invalid.saturating_add(1),
        Validity::NotFound => counts.not_found = counts.not_found.saturating_add(1),
    }
}

/// Prints the state of each route of a text of whole lines, unless counts alone are printed, and adds to `validated` what
/// the lines show.
///
/// A text that is read piece by piece is validated piece by piece, with one `validated` for all of them.
///
/// # Errors
///
/// Returns the first line without a route, if these are refused, or the writer's error. The lines before were validated then.
/// `validated` has what they and this line show.
pub fn validate_lines<'a, W: Write + Drop>(
    vrps: &Vrps<Global>,
    text: &'a [u8],
    validating: Validating,
    validated: &mut Validated,
    out: &mut Printer<W>,
) -> Result<(), QuestionsError<'a>>
    ensures validates { OnOk result (Validates validating vrps.now (lines text.now)
        validated.old validated.new out.old out.new result) }
    ensures good { OnOk result (validating.bad_routes ≡ BadLines.Refused
        → All (IsGoodRoute validating.host_bits) (lines text.now)) }
    ensures invalid { OnOk result ((0 < validated.new.counts.invalid)
        ↔ ((0 < validated.old.counts.invalid)
        ⊎ Any (IsInvalidLine validating.host_bits vrps.now) (lines text.now))) }
    ensures ends { IfErr result (EndsValidation validating vrps.now (lines text.now)
        validated.old validated.new out.old out.new result) }
{
    // The proof learns from these that the count is a `usize`, and that a line has at most one route.
    let _count = validated.seen.count;
    ip_text_laws();
    let mut rest = text;
    while !rest.is_empty() {
        let (line, later) = split_line(rest);
        rest = later;
        validate_line(vrps, line, validating, validated, out)?;
    }
    Ok(())
}

// Prints the state of the route of a line.
fn validate_line<'a, W: Write + Drop>(
    vrps: &Vrps<Global>,
    line: &'a [u8],
    validating: Validating,
    validated: &mut Validated,
    out: &mut Printer<W>,
) -> Result<(), QuestionsError<'a>>
    ensures validates { Validates validating vrps.now (line.now ∷ [])
        validated.old validated.new out.old out.new result }
    ensures good { OnOk result (validating.bad_routes ≡ BadLines.Refused
        → IsGoodRoute validating.host_bits line.now) }
    ensures named { IfErr result (NamesText (IsGoodRoute validating.host_bits line.now)
        validating.bad_routes line.now validated.new.seen.count) }
{
    validated.seen.count_one();
    match read_announcement(line, validating.host_bits) {
        Ok(Some(route)) => validate_route(vrps, &route, validating.verdicts, validated, out),
        Ok(None) => Ok(()),
        Err(error) => validated
            .seen
            .skip_or_refuse(line, error, validating.bad_routes),
    }
}

// Prints the state of a route, and counts it.
fn validate_route<'a, W: Write + Drop>(
    vrps: &Vrps<Global>,
    route: &Announcement,
    verdicts: Verdicts,
    validated: &mut Validated,
    out: &mut Printer<W>,
) -> Result<(), QuestionsError<'a>>
    ensures validates { ValidatesRoute verdicts vrps.now route.now validated.old validated.new
        out.old out.new result }
    ensures output { IfErr result IsOutput }
{
    let origin = route.origin;
    let validity = vrps.validate(&route.prefix, origin);
    count_state(&mut validated.counts, &validity);
    match verdicts {
        Verdicts::Each => print_state(route, &validity, out),
        Verdicts::Counts => Ok(()),
    }
}

// Prints the state of a route.
fn print_state<'a, W: Write + Drop>(
    route: &Announcement,
    validity: &Validity,
    out: &mut Printer<W>,
) -> Result<(), QuestionsError<'a>>
    ensures printed { OnOk result
        (Appends out.old out.new (verdict_line route.now validity.now)) }
    ensures output { IfErr result IsOutput }
{
    match out.verdict(route, *validity) {
        Ok(()) => Ok(()),
        Err(error) => Err(QuestionsError::Output(error)),
    }
}
