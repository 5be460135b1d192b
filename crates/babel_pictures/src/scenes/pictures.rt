//! The picture of what is known of a run.

use crate::drawing::{DrawnNode, Hop, Mark, Picture, Row, Timeline};
use crate::scenes::histories::rows_of;
use crate::scenes::states::links_at;
use babel_outcome::Shown;
use babel_value::Prefix;
use std::alloc::{AllocError, Global};

/// What of a run is drawn.
#[derive(Clone, Copy)]
pub struct Scene {
    /// The prefix; `None`: no next hops are drawn.
    pub prefix: Option<Prefix>,
    /// The moment of the picture, in centiseconds.
    pub at: u64,
}

impl Scene {
    /// Whether the next hops to this prefix are drawn.
    pub(crate) fn draws(&self, prefix: &Prefix) -> bool {
        match &self.prefix {
            Some(drawn) => *drawn == *prefix,
            None => false,
        }
    }
}

/// The picture of a run. At a moment after its end it is that of the end.
///
/// # Errors
///
/// `AllocError` if an allocation fails.
pub fn picture_of(alloc: Global, shown: &Shown<'_>, scene: Scene) -> Result<Picture, AllocError> {
    let timeline = timeline_of(alloc, shown, scene)?;
    Ok(Picture {
        title: title_of(alloc, &scene)?,
        nodes: nodes_at(alloc, shown, &timeline.rows, timeline.moment)?,
        links: links_at(alloc, shown, timeline.moment)?,
        timeline,
    })
}

fn title_of(alloc: Global, scene: &Scene) -> Result<String, AllocError> {
    match &scene.prefix {
        Some(prefix) => format!(in alloc; "Next hops to {prefix}"),
        None => format!(in alloc; "A network without prefixes"),
    }
}

fn timeline_of(alloc: Global, shown: &Shown<'_>, scene: Scene) -> Result<Timeline, AllocError> {
    let end = shown.outcome.ended;
    Ok(Timeline {
        begin: 0,
        end,
        moment: scene.at.min(end),
        marks: marks_of(alloc, shown)?,
        rows: rows_of(alloc, shown, &scene)?,
    })
}

fn nodes_at(
    alloc: Global,
    shown: &Shown<'_>,
    rows: &[Row],
    moment: u64,
) -> Result<Vec<DrawnNode>, AllocError> {
    let mut nodes = Vec::with_capacity(alloc, rows.len())?;
    for (node, row) in shown.topology.nodes.iter().zip(rows.iter()) {
        nodes.push(DrawnNode {
            name: node.name.clone()?,
            hop: hop_at(row, moment),
        })?;
    }
    Ok(nodes)
}

/// What a node does at a moment.
fn hop_at(row: &Row, moment: u64) -> Hop {
    let mut hop = Hop::Unreachable;
    for span in &row.spans {
        if span.from <= moment {
            hop = span.hop;
        }
    }
    hop
}

/// The steps of the plan.
fn marks_of(alloc: Global, shown: &Shown<'_>) -> Result<Vec<Mark>, AllocError> {
    let mut marks = Vec::with_capacity(alloc, shown.topology.steps.len())?;
    for step in &shown.topology.steps {
        let action = shown.step(step.action);
        marks.push(Mark {
            at: step.at,
            text: format!(in alloc; "{action}")?,
        })?;
    }
    Ok(marks)
}
