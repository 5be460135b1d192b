//! The links as they are at a moment.

use crate::drawing::{DrawnLink, LinkState};
use babel_outcome::Shown;
use babel_topology::{Action, Link};
use std::alloc::{AllocError, Global};

/// The cost of a link that isn't written.
const USUAL_COST: u16 = 96;

/// Whether a link carries anything.
#[derive(Clone, Copy)]
enum Carrier {
    On,
    Off,
}

/// A link at a moment.
#[derive(Clone, Copy)]
struct State {
    carrier: Carrier,
    loss: u16,
    cost: u16,
}

impl State {
    fn drawn(self) -> LinkState {
        match self.carrier {
            Carrier::Off => LinkState::Cut,
            Carrier::On if self.loss == 0 => LinkState::Up,
            Carrier::On if self.loss >= 100 => LinkState::Cut,
            Carrier::On => LinkState::Lossy,
        }
    }

    /// The state after what a step of the plan does to the link of this number.
    fn after(self, action: Action, number: usize) -> State {
        match action {
            Action::Cut { link } if link == number => State {
                carrier: Carrier::Off,
                ..self
            },
            Action::Join { link } if link == number => State {
                carrier: Carrier::On,
                ..self
            },
            Action::SetCost { link, cost } if link == number => State { cost, ..self },
            Action::SetLoss { link, loss } if link == number => State { loss, ..self },
            _ => self,
        }
    }
}

/// The links at a moment.
pub(crate) fn links_at(
    alloc: Global,
    shown: &Shown<'_>,
    moment: u64,
) -> Result<Vec<DrawnLink>, AllocError> {
    let mut links = Vec::with_capacity(alloc, shown.topology.links.len())?;
    for (number, link) in shown.topology.links.iter().enumerate() {
        let state = state_at(shown, number, link, moment);
        let cost = if state.cost == USUAL_COST {
            None
        } else {
            Some(state.cost)
        };
        links.push(DrawnLink {
            a: link.a.node,
            b: link.b.node,
            state: state.drawn(),
            cost,
        })?;
    }
    Ok(links)
}

fn state_at(shown: &Shown<'_>, number: usize, link: &Link, moment: u64) -> State {
    let mut state = State {
        carrier: Carrier::On,
        loss: link.loss,
        cost: link.cost,
    };
    for step in &shown.topology.steps {
        if step.at <= moment {
            state = state.after(step.action, number);
        }
    }
    state
}
