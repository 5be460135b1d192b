//! Examples of the source table, on which the check computes the definitions. Each is the contract
//! of a function that does nothing.

ghost use Rattle.std.specs.Prelude.{◌≡◌, true, false, Some, None, [], length};
ghost use Rattle.babel_sources.specs.Distances.{is_feasible};
ghost use Rattle.babel_table.specs.Entries.{lesser_keys};
ghost use Rattle.babel_examples.specs.SourceExamples.{pair, source, one_sent, sent_again, two_sent, wrapped};
ghost use Rattle.babel_sources.specs.Sources.{collected, pair_of};
ghost use Rattle.babel_value.specs.Orders.{source_cmp};

/// An older, an equal and a worse pair, a sequence number that went round, and one 32,769 ahead.
pub fn feasible()
    ensures newer { is_feasible (Some (pair 5 96)) (pair 6 60000) ≡ true }
    ensures nearer { is_feasible (Some (pair 5 96)) (pair 5 95) ≡ true }
    ensures equal { is_feasible (Some (pair 5 96)) (pair 5 96) ≡ false }
    ensures older { is_feasible (Some (pair 5 96)) (pair 4 0) ≡ false }
    ensures round { is_feasible (Some (pair 65535 10)) (pair 0 500) ≡ true }
    ensures replayed { is_feasible (Some (pair 32767 96)) (pair 0 0) ≡ false }
    ensures retraction { is_feasible (Some (pair 5 96)) (pair 4 65535) ≡ true }
    ensures unknown { is_feasible None (pair 4 0) ≡ true }
{}

/// The pair (5, 96), sent at 0; then (5, 97), sent at 1, which leaves the pair.
pub fn lowered()
    ensures one { pair_of (source 2) one_sent ≡ Some (pair 5 96) }
    ensures other { pair_of (source 1) one_sent ≡ None }
    ensures again { pair_of (source 2) sent_again ≡ Some (pair 5 96) }
    ensures round { pair_of (source 1) wrapped ≡ Some (pair 0 500) }
    ensures place { lesser_keys source_cmp (source 2) two_sent ≡ 1 }
{}

/// Collection is due 18,000 centiseconds after the last update that named the source was sent.
pub fn collected_when_due()
    ensures early { collected 17999 one_sent ≡ one_sent }
    ensures due { collected 18000 one_sent ≡ [] }
    ensures renewed { collected 18000 sent_again ≡ sent_again }
    ensures renewed_due { collected 18001 sent_again ≡ [] }
    ensures one_of_two { length (collected 18000 two_sent) ≡ 1 }
{}
