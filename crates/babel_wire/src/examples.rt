//! Examples worked by hand, on which the definitions are computed: each is the contract of a
//! function that does nothing.

ghost use Rattle.std.specs.Prelude.{◌≡◌, true, false, [], ◌∷◌, Some, None};
ghost use Rattle.babel_wire.specs.Calls.{Recv, Now, Send, Keep, Nothing};
ghost use Rattle.babel_wire.specs.Keeping.{Unchanged, NotMade, calls_of_turn};
ghost use Rattle.babel_wire.specs.Cuts.{IsCutOf, on_disk, sent_in};
ghost use Rattle.babel_wire.specs.ExampleCuts.{sending, turn_at, kept_turn, failed_turn, both_turns, in_first_keep, after_first_keep, in_second_datagram, in_second_keep, old_file};

/// The store is called before the wire is given a datagram. If the keep fails, or there are no
/// octets, the wire is given none. A snapshot that is kept already isn't kept again.
pub fn keep_comes_first()
    ensures kept { calls_of_turn kept_turn ≡ Recv Nothing ∷ Now 5 ∷ Keep (1 ∷ []) true ∷ Send (sending 7 true) ∷ Send (sending 8 true) ∷ [] }
    ensures failed { calls_of_turn failed_turn ≡ Recv Nothing ∷ Now 6 ∷ Keep (2 ∷ []) false ∷ [] }
    ensures out_of_memory { calls_of_turn (turn_at 7 (sending 9 false ∷ []) NotMade) ≡ Recv Nothing ∷ Now 7 ∷ [] }
    ensures unchanged { calls_of_turn (turn_at 8 (sending 9 true ∷ []) Unchanged) ≡ Recv Nothing ∷ Now 8 ∷ Send (sending 9 true) ∷ [] }
{}

/// What may be on disk when the process is killed, if an old file was there.
pub fn files_after_kills()
    ensures at_once { on_disk (old_file ∷ []) [] ≡ old_file ∷ [] }
    ensures in_first_keep { on_disk (old_file ∷ []) in_first_keep ≡ Some (1 ∷ []) ∷ old_file ∷ [] }
    ensures after_first_keep { on_disk (old_file ∷ []) after_first_keep ≡ Some (1 ∷ []) ∷ [] }
    ensures in_second_datagram { on_disk (old_file ∷ []) in_second_datagram ≡ Some (1 ∷ []) ∷ [] }
    ensures in_second_keep { on_disk (old_file ∷ []) in_second_keep ≡ Some (2 ∷ []) ∷ Some (1 ∷ []) ∷ [] }
    ensures no_file { on_disk (None ∷ []) in_first_keep ≡ Some (1 ∷ []) ∷ None ∷ [] }
{}

/// What was sent by then. A datagram that was being sent counts.
pub fn sent_before_kills()
    ensures in_first_keep { sent_in in_first_keep ≡ [] }
    ensures after_first_keep { sent_in after_first_keep ≡ [] }
    ensures in_second_datagram { sent_in in_second_datagram ≡ sending 7 true ∷ sending 8 true ∷ [] }
    ensures in_second_keep { sent_in in_second_keep ≡ sending 7 true ∷ sending 8 true ∷ [] }
{}

/// All of these are cuts of the two turns.
pub fn cuts_of_two_turns()
    ensures in_first_keep { IsCutOf in_first_keep both_turns }
    ensures after_first_keep { IsCutOf after_first_keep both_turns }
    ensures in_second_datagram { IsCutOf in_second_datagram both_turns }
    ensures in_second_keep { IsCutOf in_second_keep both_turns }
{}
