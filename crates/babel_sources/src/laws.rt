//! Laws of the source table, each the contract of a function that does nothing.

ghost use Rattle.babel_sources.specs.SourceLaws.{LowersOneSource, CollectsWhatIsDue, CollectsNothingEarly};

/// The pair of each source after a call of `lower`, and after a collection.
pub fn pairs_of_sources()
    ensures lowers { LowersOneSource }
    ensures collects { CollectsWhatIsDue }
{}

/// As long as nothing is due, a collection changes nothing.
pub fn nothing_is_collected_early()
    ensures { CollectsNothingEarly }
{}
