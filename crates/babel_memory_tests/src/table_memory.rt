//! Tables whose allocation fails. `tests/refused-memory` lets each allocation of these tests fail
//! in turn: a table whose allocation fails returns `Memory`, and is made when it is asked for
//! again.

use babel_link::Neighbours;
use babel_route::Routes;
use babel_sources::Sources;
use babel_value::Memory;

#[test]
fn neighbours_without_memory(rt: HostRuntime) {
    if Neighbours::new(rt.alloc()).err() == Some(Memory) {
        assert!(rt; Neighbours::new(rt.alloc()).err() == None);
    }
}

#[test]
fn sources_without_memory(rt: HostRuntime) {
    if Sources::new(rt.alloc()).err() == Some(Memory) {
        assert!(rt; Sources::new(rt.alloc()).err() == None);
    }
}

/// The route table also has the selections.
#[test]
fn routes_without_memory(rt: HostRuntime) {
    if Routes::new(rt.alloc()).err() == Some(Memory) {
        assert!(rt; Routes::new(rt.alloc()).err() == None);
    }
}
