//! Laws of the definitions, each the contract of a function that does nothing.

ghost use Rattle.std.specs.Prelude.{◌≡◌, ◌<◌, ◌≤◌, ◌^◌, List, length};
ghost use Rattle.babel_state.specs.declared.items.Item.{Item};
ghost use Rattle.babel_state.specs.Limits.{most_pending};
ghost use Rattle.babel_state.specs.Invariants.{CostsKeepCurrent, CostsKeepRoutes, SendingKeepsSelected, SendingKeepsSelections, SendingKeepsCurrentInHalf, NewSpeakersAreWellFormed, MessagesKeepWellFormed, TicksKeepWellFormed, SendingKeepsWellFormed, CostsKeepWellFormed, AnnouncingKeepsWellFormed, WithdrawingKeepsWellFormed, RaisingKeepsWellFormed, RequestingKeepsWellFormed, LosingKeepsWellFormed, GroupingKeepsWellFormed};
ghost use Rattle.babel_state.specs.Grouping.{ItemsGoToTargets, TargetsKeepTheirItems};
ghost use Rattle.babel_state.specs.Queueing.{Pending, queued, queued_at_once};
ghost use Rattle.babel_state.specs.QueueLaws.{QueueingAppends, NothingIsSkipped, NoneIfNothingPending, ItemsAreEncodable, DatagramsAreEncodable, ItemsHaveInterfaces};
ghost use Rattle.babel_state.specs.Restarts.{SnapshotsAreSeen, RestartsAreSeen, SnapshotsAreWhole, RestoredAreWellFormed, RestartsAreWellFormed, RestoredAreCurrent};
ghost use Rattle.babel_state.specs.SettledLaws.{SettledReselectsNothing, HellosKeepCurrent, IhusKeepCurrent, TimersKeepCurrent};
ghost use Rattle.babel_state.specs.SeenLaws.{DatagramsSend, NoDatagramChangesNothing, PlacesMove, TicksMove, CostsMove, AnnouncingMoves, WithdrawingMoves, RaisingMoves, RequestingMoves, LosingMoves, GroupingMoves, MessagesAreHeard, NewSpeakersAreNew, CurrentIsSelecting, TicksHearNothing};
ghost use Rattle.babel_state.specs.CurrentSelections.{MessagesKeepCurrent, PlacesKeepCurrent, AnnouncingKeepsCurrent, WithdrawingKeepsCurrent, RaisingKeepsCurrent, RequestingKeepsCurrent, LosingKeepsCurrent, GroupingKeepsCurrent, NewSpeakersAreCurrent, ReselectionsMakeCurrent, TicksMakeCurrent};
ghost use Rattle.babel_state.specs.StepLaws.{ReselectionKeepsBase, ReselectionOfAllKeepsBase, RequestingKeepsTheRest, MessagesKeepOwn, TicksKeepOwn, LosingKeepsOwn, SendingKeepsKnown, SendingLowersSources, MessagesKeepSettings, TicksKeepSettings, SendingKeepsSettings, AnnouncingKeepsSettings, WithdrawingKeepsSettings, RaisingKeepsSettings, RequestingKeepsSettings, LosingKeepsSettings, GroupingKeepsSettings, CostsSetOneCost};

/// Items that are queued one after the other leave what they leave all at once: the last 4,096 of
/// the old items followed by the new ones, and a count of what was cut.
pub fn queueing_keeps_the_last()
    ensures all { (xs : List Item) (old : Pending) → length old.items ≤ most_pending → old.dropped < 2 ^ 64 → queued xs old ≡ queued_at_once xs old }
    ensures append { QueueingAppends }
{}

/// A message leaves the speaker's own router-id, prefixes and source table as they were, and its
/// seqno grows at most once.
pub fn messages_keep_what_is_own()
    ensures { MessagesKeepOwn }
{}

/// So does a tick, which doesn't raise the seqno either, where collection is off.
pub fn ticks_keep_what_is_own()
    ensures { TicksKeepOwn }
{}

/// So do links that are lost.
pub fn lost_links_keep_what_is_own()
    ensures { LosingKeepsOwn }
{}

/// Sending changes nothing that the speaker knows, no selection above all, and lowers each source
/// by exactly the updates that are sent for it.
pub fn sending_lowers_sources()
    ensures known { SendingKeepsKnown }
    ensures sources { SendingLowersSources }
{}

/// A reselection, and that of all, leave all but selections, requests and pending items as it was.
/// Requests for a greater seqno leave the selections as they were, too.
pub fn reselections_keep_the_rest()
    ensures one { ReselectionKeepsBase }
    ensures all { ReselectionOfAllKeepsBase }
    ensures request_seqnos { RequestingKeepsTheRest }
{}

/// In a new speaker, after a reselection of all, and after a tick with collection off, the
/// selection of every prefix is that of the definition.
#[inline]
pub fn selections_are_current()
    ensures new { NewSpeakersAreCurrent }
    ensures all { ReselectionsMakeCurrent }
    ensures tick { TicksMakeCurrent }
{}

/// If all selections are current, each is a feasible and finite route of the table, with a metric
/// above the advertised one; and a new speaker has neither routes nor sources.
#[inline]
pub fn selected_routes_are_good()
    ensures new { NewSpeakersAreNew }
    ensures current { CurrentIsSelecting }
{}

/// A message and a tick leave the routes in order, and each finite route that is there after them
/// was there before, or is what the message advertised, of its sender.
pub fn routes_come_from_updates()
    ensures messages { MessagesAreHeard }
    ensures ticks { TicksHearNothing }
{}

/// A new speaker's state is well formed, and each step keeps it well formed: its tables are in
/// order and within their room, every cost is positive, and every selected route is an entry and a
/// candidate.
#[inline]
pub fn states_are_well_formed()
    ensures new { NewSpeakersAreWellFormed }
    ensures messages { MessagesKeepWellFormed }
    ensures tick { TicksKeepWellFormed }
    ensures next_datagram { SendingKeepsWellFormed }
    ensures set_cost { CostsKeepWellFormed }
    ensures announce { AnnouncingKeepsWellFormed }
    ensures withdraw { WithdrawingKeepsWellFormed }
    ensures raise { RaisingKeepsWellFormed }
    ensures request_seqnos { RequestingKeepsWellFormed }
    ensures lose_links { LosingKeepsWellFormed }
{}

/// What a network sees of each call but `next_datagram`: the updates that were heard, how often the
/// own seqno grew, which prefixes are announced, and that the selected routes are good.
#[inline]
pub fn calls_move()
    ensures datagrams { PlacesMove }
    ensures tick { TicksMove }
    ensures set_cost { CostsMove }
    ensures announce { AnnouncingMoves }
    ensures withdraw { WithdrawingMoves }
    ensures raise { RaisingMoves }
    ensures request_seqnos { RequestingMoves }
    ensures lose_links { LosingMoves }
{}

/// What a network sees of the next datagram: what its updates advertise, the own address that each
/// names as next hop, and the sources that they lower. If there is none, nothing that is seen
/// changed.
#[inline]
pub fn datagrams_send()
    ensures sent { DatagramsSend }
    ensures none { NoDatagramChangesNothing }
{}

/// Messages, new nominal costs, own prefixes, raises, requests for a seqno and lost links keep each
/// selection that is current. A new nominal cost changes nothing that is reported of a selected
/// route: a link that is up costs what its neighbour reports (RFC 8966, appendix A.2.1). The next
/// datagram changes no selection, and leaves each selected route a candidate. It keeps a current
/// selection, unless an unfeasible route of the prefix becomes feasible. That can't be while the
/// seqnos of the prefix lie in one half of the circle.
#[inline]
pub fn selections_stay_current()
    ensures messages { MessagesKeepCurrent }
    ensures datagrams { PlacesKeepCurrent }
    ensures set_cost { CostsKeepCurrent }
    ensures set_cost_routes { CostsKeepRoutes }
    ensures announce { AnnouncingKeepsCurrent }
    ensures withdraw { WithdrawingKeepsCurrent }
    ensures raise { RaisingKeepsCurrent }
    ensures request_seqnos { RequestingKeepsCurrent }
    ensures lose_links { LosingKeepsCurrent }
    ensures next_datagram { SendingKeepsSelected }
    ensures sending { SendingKeepsSelections }
    ensures half { SendingKeepsCurrentInHalf }
{}

/// An item that means nothing leaves the queue and changes nothing else. There is no datagram if
/// and only if no pending item means a message. Every message of an item, and of a datagram, can be
/// encoded, and goes over an interface that exists.
#[inline]
pub fn items_mean_messages()
    ensures skipped { NothingIsSkipped }
    ensures none { NoneIfNothingPending }
    ensures encodable { ItemsAreEncodable }
    ensures datagrams { DatagramsAreEncodable }
    ensures interfaces { ItemsHaveInterfaces }
{}

/// The message of an item goes to the item's target. Items that are grouped by their targets come
/// to the same: each target has the same items to come, in the same order.
pub fn groups_keep_the_order()
    ensures targets { ItemsGoToTargets }
    ensures same { TargetsKeepTheirItems }
{}

/// Grouping changes nothing else: the state stays well formed, a network sees nothing of it, each
/// selection that is current stays so, and no interface is set otherwise.
#[inline]
pub fn groups_keep_the_rest()
    ensures well_formed { GroupingKeepsWellFormed }
    ensures moves { GroupingMoves }
    ensures current { GroupingKeepsCurrent }
    ensures settings { GroupingKeepsSettings }
{}

/// Each call keeps the addresses, the cost and the Hello interval of each interface. `set_cost`
/// alone changes a cost, and only that of its interface.
pub fn settings_stay()
    ensures messages { MessagesKeepSettings }
    ensures tick { TicksKeepSettings }
    ensures next_datagram { SendingKeepsSettings }
    ensures announce { AnnouncingKeepsSettings }
    ensures withdraw { WithdrawingKeepsSettings }
    ensures raise { RaisingKeepsSettings }
    ensures request_seqnos { RequestingKeepsSettings }
    ensures lose_links { LosingKeepsSettings }
    ensures set_cost { CostsSetOneCost }
{}

/// If all selections are current, reselecting all of them changes nothing. Hellos and IHUs that
/// change no cost of the link to their sender, repeated requests and timers keep all current.
pub fn settled_speakers_reselect_nothing()
    ensures settled { SettledReselectsNothing }
    ensures hello { HellosKeepCurrent }
    ensures ihu { IhusKeepCurrent }
    ensures timers { TimersKeepCurrent }
{}

/// What a network sees of a restart: the sources, the own seqno and the count of raises stay, and
/// there is no route. What is restored of a snapshot is well formed, and its selections are
/// current.
#[inline]
pub fn restarts_are_seen()
    ensures restarted { RestartsAreSeen }
    ensures restored { SnapshotsAreSeen }
    ensures whole { SnapshotsAreWhole }
    ensures restored_well_formed { RestoredAreWellFormed }
    ensures restarted_well_formed { RestartsAreWellFormed }
    ensures current { RestoredAreCurrent }
{}
