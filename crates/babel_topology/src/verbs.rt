//! The words for what happens.

ghost use Rattle.babel_text.specs.Readings.{Reads};
ghost use Rattle.babel_topology.specs.Verbs.{IsVerbText};

/// What happens to a link or to a node.
#[derive(Clone, Copy)]
pub(crate) enum Verb {
    /// `cut`.
    Cut,
    /// `join`.
    Join,
    /// `cost`.
    Cost,
    /// `lossy`.
    Lossy,
    /// `announce`.
    Announce,
    /// `withdraw`.
    Withdraw,
    /// `restart`.
    Restart,
    /// `crash`.
    Crash,
}

/// The verb that the text is.
pub(crate) fn parse_verb(text: &str) -> Option<Verb>
    ensures { Reads IsVerbText text.now result }
{
    match text {
        "cut" => Some(Verb::Cut),
        "join" => Some(Verb::Join),
        "cost" => Some(Verb::Cost),
        "lossy" => Some(Verb::Lossy),
        "announce" => Some(Verb::Announce),
        "withdraw" => Some(Verb::Withdraw),
        "restart" => Some(Verb::Restart),
        "crash" => Some(Verb::Crash),
        _ => None,
    }
}
