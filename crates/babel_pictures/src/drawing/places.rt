//! Where the nodes are drawn.

use crate::drawing::forces::place_by_forces;
use crate::drawing::numbers::{Place, greater, number, on_circle, smaller};
use crate::drawing::pictures::Picture;
use crate::drawing::shapes::{Form, form_of};
use crate::drawing::texts::drawn_len;
use std::alloc::{AllocError, Global};

/// The height of the box of a node, in pixels.
pub(crate) const BOX_HEIGHT: f64 = 24.0;

/// The room between the boxes of two nodes of a row, and of a column, in pixels.
const GAP: Place = Place { x: 50.0, y: 46.0 };

/// How many nodes of a line are in a row.
const ROW_LEN: usize = 10;

/// Where the nodes are drawn, and how large the drawing is.
#[derive(Drop)]
pub(crate) struct Layout {
    /// The middle of each node's box.
    pub(crate) places: Vec<Place>,
    /// The size of the whole.
    pub(crate) size: Place,
}

/// The width of the box of a node with so many letters, in pixels.
pub(crate) fn box_width(letters: usize) -> f64 {
    greater(32.0, 7.6 * number(letters) + 14.0)
}

/// Places the nodes of a picture: by the shape of the network, if it has one.
pub(crate) fn place_nodes(alloc: Global, picture: &Picture) -> Result<Layout, AllocError> {
    let mut letters = 1;
    for node in &picture.nodes {
        letters = drawn_len(&node.name).max(letters);
    }
    let step = Place::new(box_width(letters), BOX_HEIGHT).plus(GAP);
    let form = form_of(alloc, picture.nodes.len(), &picture.links)?;
    let places = places_in(alloc, &form, picture, step)?;
    Ok(moved(places, box_width(letters)))
}

/// Where the nodes of a picture are in a network of this shape.
fn places_in(
    alloc: Global,
    form: &Form,
    picture: &Picture,
    step: Place,
) -> Result<Vec<Place>, AllocError> {
    let count = picture.nodes.len();
    match form {
        Form::Ring(order) => in_ring(alloc, order, step),
        Form::Line(order) => in_rows_of(alloc, order, step),
        Form::Grid(width) => in_grid(alloc, count, *width, step),
        Form::Star(center) => in_star(alloc, count, *center, step),
        Form::Free => place_by_forces(alloc, count, &picture.links, step),
    }
}

/// The radius of a circle on which so many nodes have room. Many nodes are closer to each other.
fn radius_of(count: usize, step: Place) -> f64 {
    let apart = if count > 24 { step.x - 30.0 } else { step.x };
    greater(100.0, apart * number(count) / 6.28)
}

fn in_ring(alloc: Global, order: &[usize], step: Place) -> Result<Vec<Place>, AllocError> {
    let count = order.len();
    let radius = radius_of(count, step);
    let mut places = vec![in alloc; Place::new(0.0, 0.0); count]?;
    for (turn, node) in order.iter().enumerate() {
        if let Some(place) = places.get_mut(*node) {
            *place = on_circle(number(turn) / number(count)).times(radius);
        }
    }
    Ok(places)
}

/// Rows of a line: every second one goes back.
fn in_rows_of(alloc: Global, order: &[usize], step: Place) -> Result<Vec<Place>, AllocError> {
    let mut places = vec![in alloc; Place::new(0.0, 0.0); order.len()]?;
    for (turn, node) in order.iter().enumerate() {
        let row = turn / ROW_LEN;
        let forward = turn % ROW_LEN;
        let column = if row % 2 == 0 {
            forward
        } else {
            ROW_LEN - 1 - forward
        };
        if let Some(place) = places.get_mut(*node) {
            *place = Place::new(number(column) * step.x, number(row) * step.y);
        }
    }
    Ok(places)
}

fn in_grid(
    alloc: Global,
    count: usize,
    width: usize,
    step: Place,
) -> Result<Vec<Place>, AllocError> {
    let width = width.max(1);
    let mut places = Vec::with_capacity(alloc, count)?;
    for node in 0..count {
        let column = number(node % width);
        let row = number(node / width);
        places.push(Place::new(column * step.x, row * step.y))?;
    }
    Ok(places)
}

fn in_star(
    alloc: Global,
    count: usize,
    center: usize,
    step: Place,
) -> Result<Vec<Place>, AllocError> {
    let others = count.saturating_sub(1).max(1);
    let radius = radius_of(others, step);
    let mut places = Vec::with_capacity(alloc, count)?;
    for node in 0..count {
        let turn = if node > center { node - 1 } else { node };
        let place = if node == center {
            Place::new(0.0, 0.0)
        } else {
            on_circle(number(turn) / number(others)).times(radius)
        };
        places.push(place)?;
    }
    Ok(places)
}

/// Moves all places, so that the boxes around them begin at 0.
fn moved(mut places: Vec<Place>, width: f64) -> Layout {
    let mut low = Place::new(0.0, 0.0);
    let mut high = low;
    if let Some(first) = places.first() {
        low = *first;
        high = *first;
    }
    for place in &places {
        low = Place::new(smaller(low.x, place.x), smaller(low.y, place.y));
        high = Place::new(greater(high.x, place.x), greater(high.y, place.y));
    }
    let half = Place::new(0.5 * width + 8.0, 0.5 * BOX_HEIGHT + 8.0);
    let back = half.minus(low);
    for place in places.iter_mut() {
        *place = place.plus(back);
    }
    Layout {
        places,
        size: high.plus(back).plus(half),
    }
}
