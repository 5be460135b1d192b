//! What a speaker keeps over a restart: its own seqno, how often that grew, and its source table.

ghost use Rattle.std.specs.Prelude.{◌≡◌, IsOk, IsNone, IfOk, IfErr, OnOk, OnErr};
ghost use Rattle.babel_state.specs.Calls.{first_state};
ghost use Rattle.babel_state.specs.Configs.{config_fault};
ghost use Rattle.babel_state.specs.Invariants.{IsWellFormed};
ghost use Rattle.babel_state.specs.Restarts.{snapshot_of, restored, restarted, IsSnapshot};
ghost use Rattle.babel_snapshot.specs.Octets.{snapshot_octets};
ghost use Rattle.babel_snapshot.specs.Reading.{restore_fault, snapshot_in};
ghost use Rattle.babel_snapshot.specs.SnapshotLaws.{IsRead};
ghost use Rattle.babel_speaker.specs.Making.{IsRestoreFault, router_fault};

use crate::state::Core;
use crate::state::making::{begin_again, make};
use crate::state::restored_sources::restore_sources;
use crate::tables::first_tables::first_interfaces;
use babel_snapshot::SavedState;
use babel_snapshot::laws::written_is_read;
use babel_state::laws::restarts_are_seen;
use babel_state::{Config, ConfigFault, RestoreFault};
use babel_value::{Memory, RouterId};
use std::alloc::Global;

/// The octets of what is kept over a restart.
#[tactic(auto, unfolding(babel_state::specs::Restarts::snapshot_of))]
pub fn save(core: &Core, alloc: Global) -> Result<Vec<u8>, Memory>
    ensures ok { IfOk result (λ octets. octets.items ≡ snapshot_octets (snapshot_of core.now)) }
    ensures restorable { IfOk result (λ octets. IsWellFormed core.now → IsRead core.now.router octets.items (snapshot_of core.now)) }
{
    restarts_are_seen();
    written_is_read();
    let octets = babel_snapshot::save(alloc, core.router, core.seqno, core.raises, &core.sources)?;
    Ok(octets)
}

/// What was saved, if neither the configuration nor the octets have a fault.
fn saved_for<'a>(config: &Config, octets: &'a [u8]) -> Result<SavedState<'a>, RestoreFault>
    ensures ok { IfOk result (λ saved. saved ≡ snapshot_in octets.now) }
    ensures valid { IsOk result → IsNone (config_fault config.now) }
    ensures whole { IsOk result → IsNone (restore_fault config.now.router_id octets.now) }
    ensures refused { IfErr result (λ fault. IsRestoreFault (config_fault config.now) (restore_fault config.now.router_id octets.now) fault) }
{
    if let Err(fault) = config.check() {
        return Err(RestoreFault::Config(fault));
    }
    match SavedState::read(&config.router_id, octets) {
        Ok(saved) => Ok(saved),
        Err(fault) => Err(fault),
    }
}

/// The own seqno, the count of raises and the sources that were saved, in the first state.
#[tactic(auto, unfolding(babel_state::specs::Restarts::restored, babel_state::specs::Calls::first_state))]
fn continue_from(core: &mut Core, config: &Config, now: u64, saved: &SavedState)
    requires { core.old ≡ first_state config.now }
    ensures { core.new ≡ restored now config.now saved.now }
{
    core.seqno = saved.seqno();
    core.raises = saved.raises();
    restore_sources(&mut core.sources, now, saved);
}

/// The state after a restart: the first one, with the seqno, the count of raises and the sources
/// that were saved.
pub fn restore(
    alloc: Global,
    config: &Config,
    now: u64,
    octets: &[u8],
) -> Result<Core, RestoreFault>
    ensures ok { IfOk result (λ core. core ≡ restored now config.now (snapshot_in octets.now)) }
    ensures valid { IsOk result → IsNone (config_fault config.now) }
    ensures whole { IsOk result → IsNone (restore_fault config.now.router_id octets.now) }
    ensures refused { IfErr result (λ fault. IsRestoreFault (config_fault config.now) (restore_fault config.now.router_id octets.now) fault) }
    ensures snapshot { IfOk result (λ core. IsSnapshot (snapshot_in octets.now)) }
{
    let saved = match saved_for(config, octets) {
        Ok(saved) => saved,
        Err(fault) => return Err(fault),
    };
    let mut core = match make(alloc, config) {
        Ok(core) => core,
        Err(fault) => return Err(RestoreFault::Config(fault)),
    };
    let _count = saved.len();
    continue_from(&mut core, config, now, &saved);
    Ok(core)
}

/// The same in place of another state, in the room of its tables. If it fails, the state is as it
/// was.
#[tactic(auto, using(crate::proofs::FirstStates::reserved_router))]
pub fn restore_in_place(
    core: &mut Core,
    alloc: Global,
    config: &Config,
    now: u64,
    octets: &[u8],
) -> Result<(), RestoreFault>
    ensures ok { OnOk result (core.new ≡ restored now config.now (snapshot_in octets.now)) }
    ensures valid { IsOk result → IsNone (config_fault config.now) }
    ensures whole { IsOk result → IsNone (restore_fault config.now.router_id octets.now) }
    ensures refused { IfErr result (λ fault. IsRestoreFault (config_fault config.now) (restore_fault config.now.router_id octets.now) fault) }
    ensures snapshot { OnOk result (IsSnapshot (snapshot_in octets.now)) }
    ensures err { OnErr result (core.new ≡ core.old) }
{
    let saved = match saved_for(config, octets) {
        Ok(saved) => saved,
        Err(fault) => return Err(fault),
    };
    let Some(router) = RouterId::new(config.router_id) else {
        return Err(RestoreFault::Config(ConfigFault::ReservedRouterId));
    };
    let Some(interfaces) = first_interfaces(alloc, config) else {
        return Err(RestoreFault::Config(ConfigFault::Memory));
    };
    let _count = saved.len();
    begin_again(core, router, config, interfaces);
    continue_from(core, config, now, &saved);
    Ok(())
}

/// Saves the state, and restores it in its place. The octets aren't tested: it is proved that what
/// was saved has no fault.
pub fn restart(
    core: &mut Core,
    alloc: Global,
    config: &Config,
    now: u64,
) -> Result<(), RestoreFault>
    requires well_formed { IsWellFormed core.old }
    ensures ok { OnOk result (core.new ≡ restarted now config.now core.old) }
    ensures valid { IsOk result → IsNone (config_fault config.now) }
    ensures own { IsOk result → IsNone (router_fault config.now.router_id core.old.router) }
    ensures refused { IfErr result (λ fault. IsRestoreFault (config_fault config.now) (router_fault config.now.router_id core.old.router) fault) }
    ensures snapshot { OnOk result (IsSnapshot (snapshot_of core.old)) }
    ensures err { OnErr result (core.new ≡ core.old) }
{
    if let Err(fault) = config.check() {
        return Err(RestoreFault::Config(fault));
    }
    let router = core.router;
    let own = router.octets();
    if own[..] != config.router_id[..] {
        return Err(RestoreFault::RouterId);
    }
    let Ok(octets) = save(core, alloc) else {
        return Err(RestoreFault::Config(ConfigFault::Memory));
    };
    let Some(interfaces) = first_interfaces(alloc, config) else {
        return Err(RestoreFault::Config(ConfigFault::Memory));
    };
    let saved = SavedState::known(&own, &octets);
    let _count = saved.len();
    begin_again(core, router, config, interfaces);
    continue_from(core, config, now, &saved);
    Ok(())
}
