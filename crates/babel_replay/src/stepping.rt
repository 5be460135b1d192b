//! The speaker's step for a line of a log.

ghost use Rattle.std.specs.Prelude.{◌≡◌, ◌<◌, Ok, IfOk, IfErr, IfSome, OnErr, IsFalse};
ghost use Rattle.babel_packet.specs.Meaning.{meaning};
ghost use Rattle.babel_state.specs.KeptRoutes.{KeepsRoutes};
ghost use Rattle.babel_state.specs.Messages.{arrival_of, Receives, IsRecvFault};
ghost use Rattle.babel_replay.specs.Report.{IsDecodedAs};
ghost use Rattle.babel_replay.specs.Stepping.{Steps};
ghost use Rattle.babel_speaker.specs.Versions.{greatest_version, CountsChanges};
ghost use Rattle.babel_text.specs.declared.errors.LineFault.TheVariants.{Memory};

use crate::{Action, Event, LineFault};
use babel_message::Refusal;
use babel_speaker::{Decoded, Speaker};
use babel_state::{Note, RecvFault, SetCostFault};
use babel_value::Peer;

/// What the speaker returned.
#[derive(Drop)]
pub(crate) enum Outcome {
    /// Nothing is reported.
    Silent,
    /// A datagram was taken, with a note for each of its TLVs.
    Notes(Vec<Note>),
    /// A datagram was refused.
    Refused(RecvFault),
    /// A cost was refused.
    CostRefused(SetCostFault),
}

/// Takes a datagram of the neighbour. If it is decoded already, it isn't decoded again.
fn receive(
    speaker: &mut Speaker,
    time: u64,
    peer: Peer,
    octets: &[u8],
    decoded: Option<&Decoded>,
) -> Result<Vec<Note>, RecvFault>
    requires decoded { IfSome decoded (λ d. (d.now.source ≡ peer.addr) × (meaning octets.now peer.addr ≡ Ok d.now.placed)) }
    ensures ok { IfOk result (λ notes. Receives (arrival_of time (record { iface = peer.iface; addr = peer.addr }) octets.now) speaker.old.state speaker.new.state notes.items) }
    ensures refused { IfErr result (IsRecvFault (arrival_of time (record { iface = peer.iface; addr = peer.addr }) octets.now) speaker.old.state) }
    ensures unchanged { OnErr result (speaker.new ≡ speaker.old) }
    ensures counted { CountsChanges speaker.old speaker.new }
{
    match decoded {
        Some(decoded) => receive_decoded(speaker, time, peer, octets, decoded),
        None => speaker.receive(time, peer.iface, peer.addr, octets),
    }
}

/// The same for a datagram that is decoded already: the octets are those that were decoded.
fn receive_decoded(
    speaker: &mut Speaker,
    time: u64,
    peer: Peer,
    octets: &[u8],
    decoded: &Decoded,
) -> Result<Vec<Note>, RecvFault>
    requires source { decoded.now.source ≡ peer.addr }
    requires decoded { meaning octets.now peer.addr ≡ Ok decoded.now.placed }
    ensures ok { IfOk result (λ notes. Receives (arrival_of time (record { iface = peer.iface; addr = peer.addr }) octets.now) speaker.old.state speaker.new.state notes.items) }
    ensures refused { IfErr result (IsRecvFault (arrival_of time (record { iface = peer.iface; addr = peer.addr }) octets.now) speaker.old.state) }
    ensures unchanged { OnErr result (speaker.new ≡ speaker.old) }
    ensures counted { CountsChanges speaker.old speaker.new }
{
    let _ = octets;
    speaker.receive_decoded(time, peer.iface, decoded)
}

/// Makes the speaker's step for the line. The only fault is memory, and then the speaker is
/// unchanged. If the line's datagram is decoded already, it isn't decoded again.
#[tactic(auto, using(crate::proofs::Counted::nothing_counted))]
pub(crate) fn make_step(
    speaker: &mut Speaker,
    event: &Event<'_>,
    decoded: Option<&Decoded>,
) -> Result<Outcome, LineFault>
    requires decoded { IfSome decoded (λ d. IsDecodedAs event.now.action d.now) }
    ensures ok { IfOk result (λ outcome. Steps event.now.time event.now.action speaker.old.state speaker.new.state outcome) }
    ensures memory { IfErr result (λ fault. fault ≡ Memory) }
    ensures unchanged { OnErr result (speaker.new.state ≡ speaker.old.state) }
    ensures counted { CountsChanges speaker.old speaker.new }
{
    match event.action {
        Action::Receive {
            iface,
            source,
            octets,
        } => {
            let Ok(iface) = u8::try_from(iface) else {
                return Ok(Outcome::Refused(RecvFault::NoInterface));
            };
            let peer = Peer {
                iface,
                addr: source,
            };
            match receive(speaker, event.time, peer, octets, decoded) {
                Ok(notes) => Ok(Outcome::Notes(notes)),
                Err(RecvFault::Refused(Refusal::Memory)) => Err(LineFault::Memory),
                Err(fault) => Ok(Outcome::Refused(fault)),
            }
        }
        Action::Tick => {
            speaker.tick(event.time);
            Ok(Outcome::Silent)
        }
        Action::SetCost { iface, cost } => {
            let Ok(iface) = u8::try_from(iface) else {
                return Ok(Outcome::CostRefused(SetCostFault::NoInterface));
            };
            match speaker.set_cost(iface, cost) {
                Ok(()) => Ok(Outcome::Silent),
                Err(fault) => Ok(Outcome::CostRefused(fault)),
            }
        }
    }
}

/// Whether the selected routes may be reported otherwise than when the speaker's count of their
/// changes was this. At its greatest value the count can't grow.
fn may_differ(speaker: &Speaker, version: u64) -> bool
    ensures same { IsFalse result → speaker.now.routes_version ≡ version }
    ensures below { IsFalse result → speaker.now.routes_version < greatest_version }
{
    let now = speaker.routes_version();
    now != version || now == u64::MAX
}

/// Makes the speaker's step for the line, as `make_step`, and returns whether a selected route may
/// have changed by it.
pub(crate) fn step(
    speaker: &mut Speaker,
    event: &Event<'_>,
    decoded: Option<&Decoded>,
) -> Result<(Outcome, bool), LineFault>
    requires decoded { IfSome decoded (λ d. IsDecodedAs event.now.action d.now) }
    ensures ok { IfOk result (λ step. Steps event.now.time event.now.action speaker.old.state speaker.new.state step.0) }
    ensures memory { IfErr result (λ fault. fault ≡ Memory) }
    ensures unchanged { OnErr result (speaker.new.state ≡ speaker.old.state) }
    ensures kept { IfOk result (λ step. IsFalse step.1 → KeepsRoutes speaker.old.state speaker.new.state) }
{
    let version = speaker.routes_version();
    let outcome = make_step(speaker, event, decoded)?;
    let changed = may_differ(speaker, version);
    Ok((outcome, changed))
}
