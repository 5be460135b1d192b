//! The speaker: its calls, from moments and octets to octets. Each call's meaning is its definition
//! in `babel_state`.

ghost use Rattle.std.specs.Prelude.{◌≡◌, ◌≢◌, ◌≤◌, ◌<◌, ◌↔◌, ℕ, [], true, false, Ok, Some, length, slice_get, IsFalse, IsOk, IsErr, IsNone, IfOk, IfErr, IfSome, OnOk, OnErr, Option, option_map};
ghost use Rattle.std.specs.List.{list_any};
ghost use Rattle.babel_packet.specs.Meaning.{meaning};
ghost use Rattle.babel_route.specs.Selections.{prefix_after};
ghost use Rattle.babel_state.specs.Addresses.{transport_at};
ghost use Rattle.babel_state.specs.declared.selected.Choice.{Choice};
ghost use Rattle.babel_state.specs.declared.selected.LastChoice.{LastChoice};
ghost use Rattle.babel_state.specs.Calls.{set_cost_fault, cost_set, first_state, is_prefix_too_many, announced_also, withdrawn, choice_of, selected_route, reported_entries};
ghost use Rattle.babel_state.specs.Configs.{config_fault};
ghost use Rattle.babel_state.specs.Limits.{most_pending};
ghost use Rattle.babel_state.specs.Invariants.{IsWellFormed};
ghost use Rattle.babel_state.specs.Grouping.{items_grouped};
ghost use Rattle.babel_state.specs.KeptRoutes.{KeepsRoutes};
ghost use Rattle.babel_state.specs.LostLinks.{links_lost};
ghost use Rattle.babel_state.specs.Messages.{arrival_of, Receives, IsRecvFault};
ghost use Rattle.babel_state.specs.CurrentSelections.{AreCurrent, AreInHalf, IsCurrentAt, KeepsCurrent, KeepsSelections};
ghost use Rattle.babel_state.specs.QueueLaws.{is_silent};
ghost use Rattle.babel_state.specs.Requesting.{is_wanted, seqnos_requested};
ghost use Rattle.babel_state.specs.Seen.{seen, updates_among, announcing_also, announcing_without, IsNew, Sends};
ghost use Rattle.babel_state.specs.SeenLaws.{MovesAlone, MovesByDatagram};
ghost use Rattle.babel_state.specs.SeqnoRequests.{raised};
ghost use Rattle.babel_state.specs.State.{announces, cost_at, pair_at};
ghost use Rattle.babel_state.specs.Ticks.{ticked};
ghost use Rattle.babel_value.specs.Prefixes.{PrefixValue};
ghost use Rattle.babel_value.specs.Seqnos.{seqno_modulus};
ghost use Rattle.babel_state.specs.Restarts.{snapshot_of, restored, restarted, IsRestartedFrom};
ghost use Rattle.babel_snapshot.specs.Octets.{snapshot_octets};
ghost use Rattle.babel_snapshot.specs.Reading.{restore_fault, snapshot_in};
ghost use Rattle.babel_snapshot.specs.SnapshotLaws.{IsRead};
ghost use Rattle.babel_speaker.specs.Deadlines.{next_deadline};
ghost use Rattle.babel_speaker.specs.Making.{IsMakingFault, IsRestoreFault, router_fault};
ghost use Rattle.babel_speaker.specs.Sending.{IsBuiltFrom, MeansFrom, draft_at};
ghost use Rattle.babel_speaker.specs.Versions.{CountsChanges, CountsRoutes, CountsSnapshots};

use crate::decoded::{Decoded, decoded_are_encodable, is_encodable_again};
use crate::hints::Hints;
use crate::input::lost_links::lose_links;
use crate::input::receiving::{receive, receive_decoded};
use crate::input::records::Arrival;
use crate::output::datagrams::next_datagram;
use crate::output::items::group_items;
use crate::state::Core;
use crate::state::making::make;
use crate::state::restarts::{restart, restore, restore_in_place};
use crate::versions::{counted, has_grown, is_other, own_seqno};
use arrayvec::ArrayVec;
use babel_build::Builder;
use babel_choice::{Entry, Selection};
use babel_state::laws::{
    calls_move, datagrams_send, groups_keep_the_rest, items_mean_messages, restarts_are_seen,
    selected_routes_are_good, selections_are_current, selections_stay_current,
    states_are_well_formed,
};
use babel_state::{
    Choice, Config, ConfigFault, LastChoice, NotAnnounced, Note, RecvFault, RestoreFault, Selected,
    SetCostFault, Target, TooManyPrefixes,
};
use babel_tlv::DATAGRAM_LEN;
use babel_value::{Addr, Distance, Memory, Metric, Peer, Prefix, Source};
use std::alloc::Global;
use std::marker::Model;

/// A speaker of the Babel routing protocol (RFC 8966). Moments are centiseconds that the caller
/// passes.
///
/// It counts how often its selected routes and its snapshot may have changed. A caller that reports
/// the routes, or writes the snapshot to a disk, does so again only if the count is another, or
/// `u64::MAX`.
///
/// Its state is well formed: tables are in order and within their room, costs are positive, and
/// each selected route is an entry of the route table and a candidate. If it is settled, each of
/// its selections is current: Hellos and IHUs that change no cost, and ticks in which no deadline
/// is due, then select no route again.
#[derive(Drop)]
pub struct Speaker {
    alloc: Global,
    pub(crate) core: Core,
    hints: Hints,
    routes: u64,
    snapshot: u64,
    // Each datagram is built here, so that its room isn't moved.
    builder: Builder,
}

impl Model for Speaker {
    ghost use Rattle.babel_speaker.specs.Versions.{SpeakerValue};

    ghost Value = { SpeakerValue };

    ghost view = { λ s. record { state = s.core; routes_version = s.routes; snapshot_version = s.snapshot } };

    ghost use Rattle.std.specs.Prelude.{IsTrue};
    ghost use Rattle.babel_state.specs.CurrentSelections.{AreCurrent};
    ghost use Rattle.babel_state.specs.Invariants.{IsWellFormed};

    ghost invariant = { λ s. (IsWellFormed s.core) × (IsTrue s.hints.settled → AreCurrent s.core) };
}

impl Speaker {
    /// A speaker of the configuration, with the room for all that it may ever keep.
    ///
    /// # Errors
    ///
    /// The first of C1 to C6 that the configuration has. C7 if it has none and an allocation fails.
    pub fn new(alloc: Global, config: Config) -> Result<Speaker, ConfigFault>
        ensures ok { IfOk result (λ speaker. speaker.state ≡ first_state config) }
        ensures counts { IfOk result (λ speaker. (speaker.routes_version ≡ 0) × (speaker.snapshot_version ≡ 0)) }
        ensures valid { IsOk result → IsNone (config_fault config) }
        ensures refused { IfErr result (λ fault. IsMakingFault (config_fault config) fault) }
        ensures seen { IfOk result (λ speaker. IsNew config (seen speaker.state)) }
        ensures current { IfOk result (λ speaker. AreCurrent speaker.state) }
    {
        Speaker::from_config(alloc, &config)
    }

    /// The same of a configuration that the caller keeps.
    ///
    /// # Errors
    ///
    /// Those of [`Speaker::new`].
    pub fn from_config(alloc: Global, config: &Config) -> Result<Speaker, ConfigFault>
        ensures ok { IfOk result (λ speaker. speaker.state ≡ first_state config.now) }
        ensures counts { IfOk result (λ speaker. (speaker.routes_version ≡ 0) × (speaker.snapshot_version ≡ 0)) }
        ensures valid { IsOk result → IsNone (config_fault config.now) }
        ensures refused { IfErr result (λ fault. IsMakingFault (config_fault config.now) fault) }
        ensures seen { IfOk result (λ speaker. IsNew config.now (seen speaker.state)) }
        ensures current { IfOk result (λ speaker. AreCurrent speaker.state) }
    {
        selections_are_current();
        states_are_well_formed();
        selected_routes_are_good();
        let seqno = config.seqno;
        seqno_fits(seqno);
        let core = match make(alloc, config) {
            Ok(core) => core,
            Err(fault) => return Err(fault),
        };
        match Speaker::over(alloc, core) {
            Ok(speaker) => Ok(speaker),
            Err(_) => Err(ConfigFault::Memory),
        }
    }

    /// The speaker's router-id, its own seqno, how often that grew, and its source table, as octets
    /// that [`Speaker::restore`] reads.
    ///
    /// # Errors
    ///
    /// `Memory`: an allocation failed.
    pub fn save(&self) -> Result<Vec<u8>, Memory>
        ensures ok { IfOk result (λ octets. octets.items ≡ snapshot_octets (snapshot_of self.now.state)) }
        ensures restorable { IfOk result (λ octets. IsRead self.now.state.router octets.items (snapshot_of self.now.state)) }
    {
        let octets = crate::state::restarts::save(&self.core, self.alloc)?;
        Ok(octets)
    }

    /// A speaker of the configuration with the seqno, the count of raises and the source table that
    /// were saved. Each source counts as sent at the moment `now`. Routes, neighbours, requests and
    /// pending items aren't kept.
    ///
    /// # Errors
    ///
    /// The first of C1 to C6 that the configuration has, then the first of K1 to K7 that the octets
    /// have. C7 if there is none and an allocation fails.
    pub fn restore(
        alloc: Global,
        config: Config,
        now: u64,
        octets: &[u8],
    ) -> Result<Speaker, RestoreFault>
        ensures ok { IfOk result (λ speaker. speaker.state ≡ restored now config (snapshot_in octets.now)) }
        ensures counts { IfOk result (λ speaker. (speaker.routes_version ≡ 0) × (speaker.snapshot_version ≡ 0)) }
        ensures valid { IsOk result → IsNone (config_fault config) }
        ensures whole { IsOk result → IsNone (restore_fault config.router_id octets.now) }
        ensures refused { IfErr result (λ fault. IsRestoreFault (config_fault config) (restore_fault config.router_id octets.now) fault) }
        ensures seen { IfOk result (λ speaker. IsRestartedFrom config (snapshot_in octets.now) speaker.state) }
        ensures current { IfOk result (λ speaker. AreCurrent speaker.state) }
    {
        Speaker::restore_from(alloc, &config, now, octets)
    }

    /// The same of a configuration that the caller keeps.
    ///
    /// # Errors
    ///
    /// Those of [`Speaker::restore`].
    pub fn restore_from(
        alloc: Global,
        config: &Config,
        now: u64,
        octets: &[u8],
    ) -> Result<Speaker, RestoreFault>
        ensures ok { IfOk result (λ speaker. speaker.state ≡ restored now config.now (snapshot_in octets.now)) }
        ensures counts { IfOk result (λ speaker. (speaker.routes_version ≡ 0) × (speaker.snapshot_version ≡ 0)) }
        ensures valid { IsOk result → IsNone (config_fault config.now) }
        ensures whole { IsOk result → IsNone (restore_fault config.now.router_id octets.now) }
        ensures refused { IfErr result (λ fault. IsRestoreFault (config_fault config.now) (restore_fault config.now.router_id octets.now) fault) }
        ensures seen { IfOk result (λ speaker. IsRestartedFrom config.now (snapshot_in octets.now) speaker.state) }
        ensures current { IfOk result (λ speaker. AreCurrent speaker.state) }
    {
        restarts_are_seen();
        let core = match restore(alloc, config, now, octets) {
            Ok(core) => core,
            Err(fault) => return Err(fault),
        };
        match Speaker::over(alloc, core) {
            Ok(speaker) => Ok(speaker),
            Err(_) => Err(RestoreFault::Config(ConfigFault::Memory)),
        }
    }

    /// The same in place of this speaker, in the room of its tables: none is made again.
    ///
    /// # Errors
    ///
    /// Those of [`Speaker::restore`]. The speaker is as it was.
    pub fn restore_in_place(
        &mut self,
        config: &Config,
        now: u64,
        octets: &[u8],
    ) -> Result<(), RestoreFault>
        ensures ok { OnOk result (self.new.state ≡ restored now config.now (snapshot_in octets.now)) }
        ensures valid { IsOk result → IsNone (config_fault config.now) }
        ensures whole { IsOk result → IsNone (restore_fault config.now.router_id octets.now) }
        ensures refused { IfErr result (λ fault. IsRestoreFault (config_fault config.now) (restore_fault config.now.router_id octets.now) fault) }
        ensures seen { OnOk result (IsRestartedFrom config.now (snapshot_in octets.now) self.new.state) }
        ensures current { OnOk result (AreCurrent self.new.state) }
        ensures counted { CountsChanges self.old self.new }
        ensures err { OnErr result (self.new ≡ self.old) }
    {
        restarts_are_seen();
        restore_in_place(&mut self.core, self.alloc, config, now, octets)?;
        self.hints.settled = false;
        self.routes = counted(self.routes, true);
        self.snapshot = counted(self.snapshot, true);
        Ok(())
    }

    /// Saves the speaker and restores it in place, with this configuration. The octets aren't
    /// tested: it is proved that what was saved has no fault.
    ///
    /// # Errors
    ///
    /// The first of C1 to C6 that the configuration has, then K3 if it has another router-id, or C7
    /// if an allocation fails. The speaker is as it was.
    pub fn restart(&mut self, config: &Config, now: u64) -> Result<(), RestoreFault>
        ensures ok { OnOk result (self.new.state ≡ restarted now config.now self.old.state) }
        ensures valid { IsOk result → IsNone (config_fault config.now) }
        ensures own { IsOk result → IsNone (router_fault config.now.router_id self.old.state.router) }
        ensures refused { IfErr result (λ fault. IsRestoreFault (config_fault config.now) (router_fault config.now.router_id self.old.state.router) fault) }
        ensures seen { OnOk result (IsRestartedFrom config.now (snapshot_of self.old.state) self.new.state) }
        ensures current { OnOk result (AreCurrent self.new.state) }
        ensures counted { CountsChanges self.old self.new }
        ensures err { OnErr result (self.new ≡ self.old) }
    {
        restarts_are_seen();
        restart(&mut self.core, self.alloc, config, now)?;
        self.hints.settled = false;
        self.routes = counted(self.routes, true);
        self.snapshot = counted(self.snapshot, true);
        Ok(())
    }

    /// A speaker in a state that is well formed. It isn't known to be settled.
    fn over(alloc: Global, core: Core) -> Result<Speaker, Memory>
        requires well_formed { IsWellFormed core }
        ensures state { IfOk result (λ speaker. speaker.state ≡ core) }
        ensures counts { IfOk result (λ speaker. (speaker.routes_version ≡ 0) × (speaker.snapshot_version ≡ 0)) }
    {
        match Hints::new(alloc) {
            Ok(hints) => Ok(Speaker {
                alloc,
                core,
                hints,
                routes: 0,
                snapshot: 0,
                builder: Builder::new(Addr::default()),
            }),
            Err(fault) => Err(fault),
        }
    }

    /// Takes a datagram that came over the interface from the source address at the moment `now`.
    /// There is a note for each TLV. The refusals S1 to S3 come before those of the datagram
    /// itself, and the memory is allocated before anything changes.
    pub fn receive(
        &mut self,
        now: u64,
        iface: u8,
        source: Addr,
        octets: &[u8],
    ) -> Result<Vec<Note>, RecvFault>
        ensures ok { IfOk result (λ notes. Receives (arrival_of now (record { iface = iface; addr = source }) octets.now) self.old.state self.new.state notes.items) }
        ensures refused { IfErr result (λ fault. IsRecvFault (arrival_of now (record { iface = iface; addr = source }) octets.now) self.old.state fault) }
        ensures unchanged { OnErr result (self.new ≡ self.old) }
        ensures moves { OnOk result (MovesByDatagram (record { iface = iface; addr = source }) (meaning octets.now source) self.old.state self.new.state) }
        ensures current { OnOk result (KeepsCurrent self.old.state self.new.state) }
        ensures counted { CountsChanges self.old self.new }
        ensures snapshots { CountsSnapshots self.old self.new }
    {
        calls_move();
        selections_stay_current();
        decoded_are_encodable(octets, &source);
        let alloc = self.alloc;
        let addr = source;
        let peer = Peer { iface, addr };
        let arrival = Arrival { time: now, peer };
        let (seqno, raises) = own_seqno(&self.core);
        self.hints.changed = false;
        let notes = match receive(&mut self.core, alloc, &arrival, octets, &mut self.hints) {
            Ok(notes) => notes,
            Err(fault) => return Err(fault),
        };
        self.routes = counted(self.routes, self.hints.changed);
        self.snapshot = counted(self.snapshot, has_grown(&self.core, seqno, raises));
        Ok(notes)
    }

    /// The same for a datagram that is decoded already.
    pub fn receive_decoded(
        &mut self,
        now: u64,
        iface: u8,
        decoded: &Decoded,
    ) -> Result<Vec<Note>, RecvFault>
        ensures ok { IfOk result (λ notes. Receives (record { now = now; peer = record { iface = iface; addr = decoded.now.source }; read = Ok decoded.now.placed }) self.old.state self.new.state notes.items) }
        ensures refused { IfErr result (λ fault. IsRecvFault (record { now = now; peer = record { iface = iface; addr = decoded.now.source }; read = Ok decoded.now.placed }) self.old.state fault) }
        ensures unchanged { OnErr result (self.new ≡ self.old) }
        ensures moves { OnOk result (MovesByDatagram (record { iface = iface; addr = decoded.now.source }) (Ok decoded.now.placed) self.old.state self.new.state) }
        ensures current { OnOk result (KeepsCurrent self.old.state self.new.state) }
        ensures counted { CountsChanges self.old self.new }
        ensures snapshots { CountsSnapshots self.old self.new }
    {
        calls_move();
        selections_stay_current();
        is_encodable_again(decoded);
        let alloc = self.alloc;
        let source = decoded.source();
        let peer = Peer {
            iface,
            addr: source,
        };
        let arrival = Arrival { time: now, peer };
        let placed = decoded.placed();
        let (seqno, raises) = own_seqno(&self.core);
        self.hints.changed = false;
        let notes = match receive_decoded(
            &mut self.core,
            alloc,
            &arrival,
            placed,
            &mut self.hints,
        ) {
            Ok(notes) => notes,
            Err(fault) => return Err(fault),
        };
        self.routes = counted(self.routes, self.hints.changed);
        self.snapshot = counted(self.snapshot, has_grown(&self.core, seqno, raises));
        Ok(notes)
    }

    /// Takes all deadlines that are due (RFC 8966, sections 3.2.5, 3.4, 3.5.4, 3.7.1 and 3.8.2.1).
    pub fn tick(&mut self, now: u64)
        ensures state { self.new.state ≡ ticked now self.old.state }
        ensures moves { MovesAlone 0 (seen self.old.state).announces self.old.state self.new.state }
        ensures current { self.old.state.collects ≡ false → AreCurrent self.new.state }
        ensures counted { CountsChanges self.old self.new }
        ensures snapshots { CountsSnapshots self.old self.new }
    {
        states_are_well_formed();
        calls_move();
        selections_are_current();
        self.core.tick(now, &mut self.hints);
        // The snapshot changes only if a source is collected, and then the speaker isn't settled.
        let (changed, settled) = (self.hints.changed, self.hints.settled);
        self.routes = counted(self.routes, changed);
        self.snapshot = counted(self.snapshot, !settled);
    }

    /// The moment before which a tick changes nothing: until then a caller need only wait for
    /// datagrams.
    ///
    /// It is 0 if an item is pending, since it may be sent at once, and if a selection isn't
    /// current, since a tick selects again. Else it is the least deadline of the interfaces,
    /// neighbours, routes and pending requests, and of the sources if they are collected. If there
    /// is none, it is `u64::MAX`.
    ///
    /// It is one walk over these tables, and takes no memory. If the speaker isn't known to be
    /// settled, which is rare after a tick, it also tests the selection of each prefix.
    pub fn next_due(&self) -> u64
        ensures idle { (now : ℕ) → now < result → ticked now self.now.state ≡ self.now.state }
        ensures pending { self.now.state.pending.items ≢ [] → result ≡ 0 }
        ensures current { 0 < result → AreCurrent self.now.state }
        ensures deadline { self.now.state.pending.items ≡ [] → AreCurrent self.now.state → result ≡ next_deadline self.now.state }
    {
        crate::ticks::deadlines::next_due(&self.core, &self.hints)
    }

    /// Raises the speaker's own seqno by 1 (RFC 8966, section 3.2.2). Nothing is queued.
    pub fn raise(&mut self)
        ensures state { self.new.state ≡ raised self.old.state }
        ensures moves { MovesAlone 1 (seen self.old.state).announces self.old.state self.new.state }
        ensures current { KeepsCurrent self.old.state self.new.state }
        ensures counted { CountsChanges self.old self.new }
        ensures routes { CountsRoutes self.old self.new }
        ensures snapshots { CountsSnapshots self.old self.new }
    {
        states_are_well_formed();
        calls_move();
        selections_stay_current();
        self.core.raise();
        self.snapshot = counted(self.snapshot, true);
    }

    /// Requests a greater seqno for each route that would be selected if it were feasible (RFC
    /// 8966, section 3.8.2.2): its prefix has no route, or a worse one. The neighbour of the better
    /// route is asked, and if none is selected the neighbours of all unfeasible ones. None is
    /// requested that is pending already, nor one more than 64. Each is repeated as that of a lost
    /// route is, and then made by this call again.
    ///
    /// A lost route is requested at once, without this call. What needs it is a route that comes up
    /// later, one that is better than what is left, or a request that was given up. A caller may
    /// make it once a Hello interval.
    pub fn request_seqnos(&mut self, now: u64)
        ensures state { self.new.state ≡ seqnos_requested now self.old.state }
        ensures moves { MovesAlone 0 (seen self.old.state).announces self.old.state self.new.state }
        ensures current { KeepsCurrent self.old.state self.new.state }
        ensures kept { KeepsRoutes self.old.state self.new.state }
        ensures counts { (self.new.routes_version ≡ self.old.routes_version) × (self.new.snapshot_version ≡ self.old.snapshot_version) }
        ensures counted { CountsChanges self.old self.new }
    {
        states_are_well_formed();
        calls_move();
        selections_stay_current();
        self.core.request_seqnos(now);
    }

    /// Whether a route would be selected if it were feasible. If not,
    /// [`request_seqnos`](Speaker::request_seqnos) changes nothing.
    pub fn wants_seqnos(&self) -> bool
        ensures wants { result ≡ list_any (is_wanted self.now.state) self.now.state.routes.entries }
        ensures none { IsFalse result → (now : ℕ) → seqnos_requested now self.now.state ≡ self.now.state }
    {
        self.core.wants_seqnos()
    }

    /// The interface is down, as the system says: its links cost infinity, whatever Hellos were
    /// heard (RFC 8966, section 3.4.3), and routes are selected again. So a caller need not wait
    /// until Hellos are missed. Each neighbour is kept, and its link has a finite cost again once
    /// it reports one in an IHU.
    pub fn lose_links(&mut self, now: u64, iface: u8)
        ensures state { self.new.state ≡ links_lost now iface self.old.state }
        ensures moves { MovesAlone 0 (seen self.old.state).announces self.old.state self.new.state }
        ensures current { KeepsCurrent self.old.state self.new.state }
        ensures counted { CountsChanges self.old self.new }
        ensures snapshots { CountsSnapshots self.old self.new }
    {
        states_are_well_formed();
        calls_move();
        selections_stay_current();
        self.hints.changed = false;
        lose_links(&mut self.core, now, iface, &mut self.hints);
        self.routes = counted(self.routes, self.hints.changed);
    }

    /// Brings what is pending into groups that go to the same receivers over the same interface, so
    /// that the next datagrams are as few as can be (RFC 8966, section 4). What goes to the same
    /// receivers keeps its order. Of more than 64 groups those that are left stay as they were.
    ///
    /// Without this call what changes is sent in the order in which it was queued: after a change
    /// of many prefixes, one of each interface in turn. A caller may make it before it takes the
    /// datagrams of a turn.
    pub fn group_items(&mut self)
        ensures state { self.new.state ≡ items_grouped self.old.state }
        ensures moves { MovesAlone 0 (seen self.old.state).announces self.old.state self.new.state }
        ensures current { KeepsCurrent self.old.state self.new.state }
        ensures kept { KeepsRoutes self.old.state self.new.state }
        ensures counts { (self.new.routes_version ≡ self.old.routes_version) × (self.new.snapshot_version ≡ self.old.snapshot_version) }
        ensures counted { CountsChanges self.old self.new }
    {
        groups_keep_the_rest();
        group_items(&mut self.core);
    }

    /// Sets the nominal cost of an interface (RFC 8966, appendix A.2.1): E1 or E2 is the first
    /// cause.
    pub fn set_cost(&mut self, iface: u8, cost: u16) -> Result<(), SetCostFault>
        ensures refused { IsOk result ↔ IsNone (set_cost_fault iface cost self.old.state) }
        ensures cause { IfErr result (λ fault. set_cost_fault iface cost self.old.state ≡ Some fault) }
        ensures ok { OnOk result (self.new.state ≡ cost_set iface cost self.old.state) }
        ensures err { OnErr result (self.new ≡ self.old) }
        ensures moves { OnOk result (MovesAlone 0 (seen self.old.state).announces self.old.state self.new.state) }
        ensures current { OnOk result (KeepsCurrent self.old.state self.new.state) }
        ensures counted { CountsChanges self.old self.new }
        ensures routes { CountsRoutes self.old self.new }
        ensures snapshots { CountsSnapshots self.old self.new }
    {
        states_are_well_formed();
        calls_move();
        selections_stay_current();
        crate::state::settings::set_cost(&mut self.core, iface, cost)?;
        Ok(())
    }

    /// Announces a prefix (RFC 8966, section 3.7): E3 if and only if it is new and 64 others are
    /// announced.
    pub fn announce(&mut self, prefix: Prefix) -> Result<(), TooManyPrefixes>
        ensures full { IsErr result ↔ (is_prefix_too_many prefix self.old.state ≡ true) }
        ensures ok { OnOk result (self.new.state ≡ announced_also prefix self.old.state) }
        ensures err { OnErr result (self.new ≡ self.old) }
        ensures moves { OnOk result (MovesAlone 0 (announcing_also prefix (seen self.old.state)) self.old.state self.new.state) }
        ensures current { OnOk result (KeepsCurrent self.old.state self.new.state) }
        ensures counted { CountsChanges self.old self.new }
        ensures routes { CountsRoutes self.old self.new }
        ensures snapshots { CountsSnapshots self.old self.new }
    {
        states_are_well_formed();
        calls_move();
        selections_stay_current();
        match crate::state::settings::announce(&mut self.core, &prefix, &mut self.hints.own) {
            Ok(report) => {
                self.routes = counted(self.routes, is_other(report));
                Ok(())
            }
            Err(fault) => Err(fault),
        }
    }

    /// Announces a prefix no longer: E4 if and only if it isn't announced.
    pub fn withdraw(&mut self, prefix: Prefix) -> Result<(), NotAnnounced>
        ensures unknown { IsErr result ↔ (announces prefix self.old.state ≡ false) }
        ensures ok { OnOk result (self.new.state ≡ withdrawn prefix self.old.state) }
        ensures err { OnErr result (self.new ≡ self.old) }
        ensures moves { OnOk result (MovesAlone 0 (announcing_without prefix (seen self.old.state)) self.old.state self.new.state) }
        ensures current { OnOk result (KeepsCurrent self.old.state self.new.state) }
        ensures counted { CountsChanges self.old self.new }
        ensures routes { CountsRoutes self.old self.new }
        ensures snapshots { CountsSnapshots self.old self.new }
    {
        states_are_well_formed();
        calls_move();
        selections_stay_current();
        match crate::state::settings::withdraw(&mut self.core, &prefix, &mut self.hints.own) {
            Ok(report) => {
                self.routes = counted(self.routes, is_other(report));
                Ok(())
            }
            Err(fault) => Err(fault),
        }
    }

    /// Takes the next datagram from the pending items: its octets are written to `out`, in place of
    /// what was there, and its target is returned. `None`: no pending item means a
    /// message, and `out` is empty.
    pub fn next_datagram(
        &mut self,
        now: u64,
        out: &mut ArrayVec<u8, DATAGRAM_LEN>,
    ) -> Option<Target>
        ensures state { self.new.state ≡ (draft_at now self.old.state).state }
        ensures target { result ≡ (draft_at now self.old.state).target }
        ensures octets { IfSome result (λ target. MeansFrom (transport_at target.iface self.old.state) out.new.items (draft_at now self.old.state).messages) }
        ensures built { IfSome result (λ target. IsBuiltFrom (transport_at target.iface self.old.state) out.new.items (draft_at now self.old.state).messages) }
        ensures empty { IsNone result → out.new.items ≡ [] }
        ensures sends { IfSome result (λ target. Sends target.iface (updates_among (draft_at now self.old.state).messages) (seen self.old.state) (seen self.new.state)) }
        ensures unseen { IsNone result → seen self.new.state ≡ seen self.old.state }
        ensures none { IsNone result ↔ (is_silent self.old.state ≡ true) }
        ensures selections { KeepsSelections self.old.state self.new.state }
        ensures kept { KeepsRoutes self.old.state self.new.state }
        ensures half { (first : ℕ) (prefix : PrefixValue) → AreInHalf first prefix self.old.state → IsCurrentAt prefix self.old.state → IsCurrentAt prefix self.new.state }
        ensures counted { CountsChanges self.old self.new }
        ensures routes { CountsRoutes self.old self.new }
    {
        states_are_well_formed();
        datagrams_send();
        selections_stay_current();
        items_mean_messages();
        let pending = self.core.pending_count();
        if pending == 0 {
            out.clear();
            return None;
        }
        self.hints.lowered = false;
        let (builder, hints) = (&mut self.builder, &mut self.hints);
        let target = next_datagram(&mut self.core, now, out, builder, hints);
        let lowered = self.hints.lowered;
        self.snapshot = counted(self.snapshot, lowered);
        target
    }

    /// The selected route of the prefix, with its metric by the present cost of the link (RFC 8966,
    /// section 3.6).
    pub fn selected(&self, prefix: &Prefix) -> Option<Selected>
        ensures { result ≡ selected_route prefix.now self.now.state }
    {
        crate::state::settings::selected_route(&self.core, prefix)
    }

    /// The same as `selected`, in fewer steps if the prefixes that are asked for rise. The search
    /// begins at the index `near` of the selections, 0 at first, and leaves there where the next
    /// greater prefix is searched for. Any index gives the same route.
    #[inline]
    pub fn selected_near(&self, prefix: &Prefix, near: &mut usize) -> Option<Selected>
        ensures { result ≡ selected_route prefix.now self.now.state }
    {
        crate::state::settings::selected_route_near(&self.core, prefix, near)
    }

    /// What became of the choice that a log named last of the prefix's selected route: `Kept` if
    /// that is what [`selected`](Speaker::selected) reports but for its next hop and the advertised
    /// metric, and then nothing is copied. The search is that of `selected_near`.
    #[inline(always)]
    pub fn choice_near(
        &self,
        prefix: &Prefix,
        last: &Option<Choice>,
        near: &mut usize,
    ) -> LastChoice
        ensures kept { result ≡ LastChoice.Kept → last.now ≡ option_map choice_of (selected_route prefix.now self.now.state) }
        ensures now { (choice : Option Choice) → result ≡ LastChoice.Now choice → choice ≡ option_map choice_of (selected_route prefix.now self.now.state) }
    {
        crate::state::settings::choice_near(&self.core, prefix, last, near)
    }

    /// The selection whose prefix has exactly `place` lesser ones among the selections' prefixes.
    pub fn selection_at(&self, place: usize) -> Option<(Prefix, Selection)>
        ensures { result ≡ slice_get self.now.state.routes.selections place }
    {
        self.core.routes.selection_at(place)
    }

    /// The cost of the link to a neighbour, as of now: infinite if it is none (RFC 8966, section
    /// 3.4.3).
    pub fn cost(&self, peer: &Peer) -> Metric
        ensures { result ≡ cost_at self.now.state peer.now }
    {
        self.core.cost(peer)
    }

    /// The least prefix greater than the one given that has an entry in the route table, or a
    /// selected route. With none given, the least of all.
    pub fn next_prefix(&self, after: Option<&Prefix>) -> Option<Prefix>
        ensures { result ≡ prefix_after (option_map (λ prefix. prefix.now) after.entry) self.now.state.routes }
    {
        self.core.routes.next_prefix(after)
    }

    /// The feasibility distance of a source, if it has one (RFC 8966, section 3.2.5).
    pub fn source(&self, source: &Source) -> Option<Distance>
        ensures { result ≡ pair_at source.now.prefix source.now.router self.now.state }
    {
        self.core.pair(source)
    }

    /// The entry of the prefix that exactly `index` others come before, with its neighbour and the
    /// cost of the link to that.
    pub fn entry(&self, prefix: &Prefix, index: usize) -> Option<(Peer, Entry, Metric)>
        ensures { result ≡ slice_get (reported_entries prefix.now self.now.state) index }
    {
        crate::state::settings::reported_entry(&self.core, prefix, index)
    }

    /// Whether the speaker announces the prefix itself.
    pub fn announced(&self, prefix: &Prefix) -> bool
        ensures { result ≡ announces prefix.now self.now.state }
    {
        self.core.announces(prefix)
    }

    /// The own address from which datagrams of the interface are sent, if the interface exists.
    pub fn transport(&self, iface: u8) -> Option<Addr>
        ensures { result ≡ transport_at iface self.now.state }
    {
        crate::output::items::transport(&self.core, iface)
    }

    /// A count that grows whenever a selected route may be reported otherwise. As long as it is the
    /// same, and below `u64::MAX`, [`Speaker::selected`] returns of each prefix what it returned.
    /// At `u64::MAX` it can't grow, so the routes may have changed. A new speaker's is 0.
    pub fn routes_version(&self) -> u64
        ensures { result ≡ self.now.routes_version }
    {
        self.routes
    }

    /// A count that grows whenever what [`Speaker::save`] keeps may have changed. As long as it is
    /// the same, and below `u64::MAX`, the snapshot is the same. At `u64::MAX` it can't grow, so
    /// the snapshot may have changed. A new speaker's is 0, and so is that of one that was
    /// restored.
    pub fn snapshot_version(&self) -> u64
        ensures { result ≡ self.now.snapshot_version }
    {
        self.snapshot
    }

    /// How often the speaker's own seqno grew.
    pub fn raises(&self) -> u64
        ensures { result ≡ self.now.state.raises }
    {
        self.core.raises
    }

    /// How many items are pending, at most 4,096.
    pub fn pending_count(&self) -> usize
        ensures count { result ≡ length self.now.state.pending.items }
        ensures few { result ≤ most_pending }
    {
        self.core.pending_count()
    }

    /// How many entries the route table has.
    pub fn route_count(&self) -> usize
        ensures { result ≡ length self.now.state.routes.entries }
    {
        self.core.routes.len()
    }

    /// How many pending items were dropped since there was no room.
    pub fn dropped(&self) -> u64
        ensures { result ≡ self.now.state.pending.dropped }
    {
        self.core.pending.dropped()
    }

    /// How many Updates were left out since the source table had no room.
    pub fn left_out(&self) -> u64
        ensures { result ≡ self.now.state.left_out }
    {
        self.core.left_out
    }
}

/// A seqno has 16 bits.
fn seqno_fits(seqno: u16)
    ensures { seqno < seqno_modulus }
{}
