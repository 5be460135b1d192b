//! What each node did with packets to a prefix, from the beginning to the end.

use crate::drawing::{Hop, Row, Span};
use crate::scenes::pictures::Scene;
use babel_outcome::Shown;
use babel_topology::{Action, NextHop, Node, Step};
use babel_value::Prefix;
use std::alloc::{AllocError, Global};

/// What is known of a node at a moment.
#[derive(Clone, Copy)]
struct State {
    /// Whether it is stopped.
    power: Power,
    /// Whether it announces the prefix.
    origin: Origin,
    /// The next hop of its selected route.
    hop: NextHop,
}

/// Whether a node runs.
#[derive(Clone, Copy)]
enum Power {
    On,
    Off,
}

/// Whether a node announces the prefix.
#[derive(Clone, Copy)]
enum Origin {
    Own,
    Other,
}

impl State {
    fn drawn(self) -> Hop {
        match (self.power, self.origin, self.hop) {
            (Power::Off, _, _) => Hop::Down,
            (Power::On, Origin::Own, _) => Hop::Announces,
            (Power::On, Origin::Other, NextHop::Via(next)) => Hop::Via(next),
            (Power::On, Origin::Other, NextHop::Unreachable) => Hop::Unreachable,
        }
    }

    /// The state after a change of the plan.
    fn after(self, change: Change) -> State {
        match change {
            Change::Power(power) => State { power, ..self },
            Change::Origin(origin) => State { origin, ..self },
            Change::Hop(hop) => State { hop, ..self },
        }
    }
}

/// What changes of a node.
#[derive(Clone, Copy)]
enum Change {
    Power(Power),
    Origin(Origin),
    Hop(NextHop),
}

/// The rows of all nodes. A change of the plan comes before next hops that change at the same
/// moment.
pub(crate) fn rows_of(
    alloc: Global,
    shown: &Shown<'_>,
    scene: &Scene,
) -> Result<Vec<Row>, AllocError> {
    let mut rows = Vec::with_capacity(alloc, shown.topology.nodes.len())?;
    for (number, node) in shown.topology.nodes.iter().enumerate() {
        let mut spans = Vec::new(alloc);
        push_spans(shown, (number, node), scene, &mut spans)?;
        rows.push(Row { spans })?;
    }
    Ok(rows)
}

/// Adds what a node did.
fn push_spans(
    shown: &Shown<'_>,
    (number, node): (usize, &Node),
    scene: &Scene,
    spans: &mut Vec<Span>,
) -> Result<(), AllocError> {
    let mut state = State {
        power: Power::On,
        origin: origin_of(node, scene),
        hop: NextHop::Unreachable,
    };
    push_span(spans, 0, state)?;
    let mut next = 0usize;
    for change in &shown.outcome.changes {
        if change.node == number && is_drawn(shown, scene, change.prefix) {
            let steps = shown.steps_until(next, change.at);
            state = take_steps(steps, state, (number, scene), spans)?;
            next = next.saturating_add(steps.len());
            state = state.after(Change::Hop(change.hop));
            push_span(spans, change.at, state)?;
        }
    }
    take_steps(
        shown.steps_until(next, u64::MAX),
        state,
        (number, scene),
        spans,
    )?;
    Ok(())
}

/// Whether the scene draws next hops to the prefix of this index.
fn is_drawn(shown: &Shown<'_>, scene: &Scene, index: usize) -> bool {
    match shown.outcome.prefixes.get(index) {
        Some(prefix) => scene.draws(prefix),
        None => false,
    }
}

/// Whether a node announces the prefix of the scene at first.
fn origin_of(node: &Node, scene: &Scene) -> Origin {
    for own in &node.prefixes {
        if scene.draws(own) {
            return Origin::Own;
        }
    }
    Origin::Other
}

/// Takes steps of the plan. It returns the state of the node after them.
fn take_steps(
    steps: &[Step],
    begin: State,
    (node, scene): (usize, &Scene),
    spans: &mut Vec<Span>,
) -> Result<State, AllocError> {
    let mut state = begin;
    for step in steps {
        if let Some(change) = change_of(step.action, node, scene) {
            state = state.after(change);
            push_span(spans, step.at, state)?;
        }
    }
    Ok(state)
}

/// What an action changes of a node, and of which: of the prefix alone, if there is one.
fn change_by(action: Action) -> Option<(usize, Option<Prefix>, Change)> {
    match action {
        Action::Crash { node } => Some((node, None, Change::Power(Power::Off))),
        Action::Restart { node } => Some((node, None, Change::Power(Power::On))),
        Action::Announce { node, prefix } => {
            Some((node, Some(prefix), Change::Origin(Origin::Own)))
        }
        Action::Withdraw { node, prefix } => {
            Some((node, Some(prefix), Change::Origin(Origin::Other)))
        }
        _ => None,
    }
}

/// What an action changes of a node and its ways to the prefix of the scene.
fn change_of(action: Action, about: usize, scene: &Scene) -> Option<Change> {
    let (node, only, change) = change_by(action)?;
    let is_other = match only {
        Some(only) => !scene.draws(&only),
        None => false,
    };
    if node != about || is_other {
        return None;
    }
    Some(change)
}

/// Adds a span, if it is another than the one before it.
fn push_span(spans: &mut Vec<Span>, from: u64, state: State) -> Result<(), AllocError> {
    let hop = state.drawn();
    let is_same = match spans.last() {
        Some(last) => last.hop == hop,
        None => false,
    };
    if !is_same {
        spans.push(Span { from, hop })?;
    }
    Ok(())
}
