//! Laws of the route table, each the contract of a function that does nothing.

ghost use Rattle.babel_route.specs.RouteLaws.{UpdatesOneRoute, RetractsOneRoute, ChangesEachRoute, ExpiresNothingEarly, ChoosesTheFirst, ChoosesACandidate, ReselectsOnePrefix, AreAllCurrent, KeepsWhatIsCurrent};

/// Each route after updates, retractions, flushes and expiry.
pub fn routes_by_their_keys()
    ensures updates { UpdatesOneRoute }
    ensures retracts { RetractsOneRoute }
    ensures changes { ChangesEachRoute }
{}

/// The choice is the candidate that no other comes before, which is an entry of the table.
pub fn choices_are_first()
    ensures first { ChoosesTheFirst }
    ensures candidate { ChoosesACandidate }
{}

/// A reselection changes the selection of its prefix alone. After each prefix was reselected, all
/// selections are current. If all are current, reselections change nothing.
pub fn selections_are_current()
    ensures one { ReselectsOnePrefix }
    ensures all { AreAllCurrent }
    ensures settled { KeepsWhatIsCurrent }
{}

/// As long as no deadline is due, the expiry of deadlines changes nothing.
pub fn nothing_expires_early()
    ensures { ExpiresNothingEarly }
{}
