//! Lemmas for proofs: what commands print is read back.
ghost use Rattle.route_tables.specs.PrintedLines.{PrintedLaws};

/// Brings into the caller's proof that the lines that `print_route` writes have their routes, and no others.
///
/// So `load` reads back a table whose routes are printed. The function does nothing at run time.
#[tactic(auto, using(crate::proofs::PrintedRoutes::printed_laws))]
pub fn printed_laws()
    ensures { PrintedLaws }
{}
