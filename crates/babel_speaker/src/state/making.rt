//! Making a speaker: the room for all that it may ever keep, and its first state.

ghost use Rattle.std.specs.Prelude.{◌≡◌, None, map, IsOk, IsNone, IfOk, IfErr, IfSome};
ghost use Rattle.babel_state.specs.Calls.{first_state, new_interface};
ghost use Rattle.babel_state.specs.Configs.{config_fault};
ghost use Rattle.babel_speaker.specs.Making.{IsMakingFault};

use crate::state::Core;
use crate::tables::first_tables::{announce_configured, first_announced, first_interfaces};
use crate::tables::{Interfaces, PendingItems, RequestTable};
use babel_link::Neighbours;
use babel_route::Routes;
use babel_sources::Sources;
use babel_state::{Config, ConfigFault};
use babel_value::{RouterId, Seqno};
use std::alloc::Global;

/// The first state of a configuration that has no fault; `None`: an allocation failed.
#[tactic(auto, unfolding(babel_state::specs::Calls::first_state))]
fn first(alloc: Global, router: RouterId, config: &Config) -> Option<Core>
    requires router { router ≡ config.now.router_id }
    requires valid { IsNone (config_fault config.now) }
    ensures { IfSome result (λ core. core ≡ first_state config.now) }
{
    let announced = first_announced(alloc, config)?;
    let interfaces = first_interfaces(alloc, config)?;
    let Ok(requests) = RequestTable::new(alloc) else {
        return None;
    };
    let Ok(pending) = PendingItems::new(alloc) else {
        return None;
    };
    let Ok(neighbours) = Neighbours::new(alloc) else {
        return None;
    };
    let Ok(sources) = Sources::new(alloc) else {
        return None;
    };
    // This has the most tables, so it is dropped on no path.
    let Ok(routes) = Routes::new(alloc) else {
        return None;
    };
    Some(Core {
        router,
        collects: config.collect,
        seqno: Seqno(config.seqno),
        raises: 0,
        announced,
        interfaces,
        neighbours,
        sources,
        routes,
        requests,
        pending,
        left_out: 0,
    })
}

/// The first state of a configuration that has no fault, in place of another state and in the room
/// of its tables.
#[tactic(auto, unfolding(babel_state::specs::Calls::first_state))]
pub fn begin_again(core: &mut Core, router: RouterId, config: &Config, interfaces: Interfaces)
    requires router { router ≡ config.now.router_id }
    requires valid { IsNone (config_fault config.now) }
    requires interfaces { interfaces ≡ map new_interface config.now.interfaces.items }
    ensures { core.new ≡ first_state config.now }
{
    core.router = router;
    core.collects = config.collect;
    core.seqno = Seqno(config.seqno);
    core.raises = 0;
    announce_configured(&mut core.announced, config);
    core.interfaces = interfaces;
    core.neighbours.clear();
    core.sources.clear();
    core.routes.clear();
    core.requests.clear();
    core.pending.clear();
    core.left_out = 0;
}

/// The first state of a speaker, with the room for all that it may ever keep.
///
/// # Errors
///
/// The first of C1 to C6 that the configuration has. C7 if it has none and an allocation fails.
#[tactic(auto, using(crate::proofs::FirstStates::reserved_router))]
pub fn make(alloc: Global, config: &Config) -> Result<Core, ConfigFault>
    ensures ok { IfOk result (λ core. core ≡ first_state config.now) }
    ensures valid { IsOk result → IsNone (config_fault config.now) }
    ensures refused { IfErr result (λ fault. IsMakingFault (config_fault config.now) fault) }
{
    let Some(router) = RouterId::new(config.router_id) else {
        return Err(ConfigFault::ReservedRouterId);
    };
    if let Err(fault) = config.check() {
        return Err(fault);
    }
    match first(alloc, router, config) {
        Some(core) => Ok(core),
        None => Err(ConfigFault::Memory),
    }
}
