//! Laws of durable turns, each the contract of a function that does nothing.

ghost use Rattle.babel_wire.specs.DurableRuns.{KeepersFitOn};
ghost use Rattle.babel_wire.specs.DurableLaws.{DurableTurnsGoOn, WhatIsKeptCoversWhatWasSent, CrashesAreRestarts, RestoredHaveTheSnapshot, FilesAreLastTried, ProcessesAreCovered, ProcessesStayCovered};
ghost use Rattle.babel_wire.specs.Intakes.{WhatIsKeptCoversWithIntakes, CrashesWithIntakesAreRestarts, TurnsAreSteps, StepsGoOn};

/// Lists of durable turns may be joined.
pub fn durable_turns_go_on()
    ensures { DurableTurnsGoOn }
{}

/// Wherever a process is killed, between two calls or within one: what is on disk is the snapshot
/// of the speaker after some whole turns, and every datagram that was sent was taken in them. Or
/// nothing was sent, and it is what was there before.
pub fn what_is_kept_covers_what_was_sent()
    ensures { WhatIsKeptCoversWhatWasSent }
{}

/// A speaker that is restored from such a file is the speaker after those turns, saved and restored
/// at once. The datagrams that were taken in them and not sent are lost. The file is then that of
/// the restored speaker.
pub fn crashes_are_restarts()
    ensures restored { CrashesAreRestarts }
    ensures same { RestoredHaveTheSnapshot }
{}

/// What may be on disk is what the last keep that succeeded was given, or what was tried since.
pub fn files_are_last_tried()
    ensures { FilesAreLastTried }
{}

/// The same over several processes, each killed at any moment and started from what is on disk:
/// each file is reached by restarts and steps, which are turns, intakes, requests, losses and
/// groupings, in which every datagram that was ever sent was taken.
pub fn processes_are_covered()
    ensures from_new { ProcessesAreCovered }
    ensures go_on { ProcessesStayCovered }
{}

/// What a keeper knows of the snapshot that was kept last stays true, whichever calls of the
/// speaker follow.
#[tactic(auto, using(crate::proofs::Keepings::keepers_fit_on))]
pub fn keepers_fit_on()
    ensures { KeepersFitOn }
{}

/// Datagrams may be taken in between turns ([`crate::take_in`]), requests for a seqno made
/// ([`crate::request_seqnos`]), links lost ([`crate::lose_links`]), and what is pending grouped
/// ([`babel_speaker::Speaker::group_items`]), while nothing is sent. What is kept covers what was
/// sent then too, and a crash is a restart after some whole steps: turns, intakes, requests, losses
/// and groupings.
pub fn intakes_are_covered()
    ensures covers { WhatIsKeptCoversWithIntakes }
    ensures restarts { CrashesWithIntakesAreRestarts }
    ensures turns { TurnsAreSteps }
    ensures go_on { StepsGoOn }
{}
