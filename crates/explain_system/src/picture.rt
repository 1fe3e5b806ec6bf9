//! A picture of the graph: a pip lies below those that it waits for, by layers.

use crate::paging::{Page, class_of};
use crate::report::PipEnd;
use bx_tree::Memory;
use html_page::{Attr, Tag};
use pip_graph::layers;
use pip_model::Plan;
use std::alloc::Global;

// How many pips a row has at most; a layer may take several rows.
const ROW: usize = 40;

// So many boxes fit into each picture, so that they are not shown too large.
const FEW: usize = 10;

// How far apart pips of a row are, and rows.
const ACROSS: usize = 50;

const DOWN: usize = 34;

/// Where the box of a pip is.
#[derive(Clone, Copy)]
struct Spot {
    x: usize,
    y: usize,
}

// How many pips are in each layer, of which there are at most as many as pips.
fn sizes(alloc: Global, layers: &[usize]) -> Result<Vec<usize>, Memory> {
    let mut sizes = vec![in alloc; 0usize; layers.len()]?;
    'layers: for layer in layers {
        if let Some(size) = sizes.get_mut(*layer) {
            *size = size.saturating_add(1);
        }
    }
    Ok(sizes)
}

// The first row of each layer.
fn first_rows(alloc: Global, sizes: &[usize]) -> Result<Vec<usize>, Memory> {
    let mut rows = Vec::new(alloc);
    let mut row: usize = 0;
    'sizes: for size in sizes {
        rows.push(row)?;
        row = row.saturating_add(size.saturating_add(ROW - 1) / ROW);
    }
    Ok(rows)
}

// Where each pip is: those of a layer stand beside each other, by number.
fn spots(alloc: Global, layers: &[usize]) -> Result<Vec<Spot>, Memory> {
    let rows = first_rows(alloc, sizes(alloc, layers)?.as_slice())?;
    let mut taken = vec![in alloc; 0usize; layers.len()]?;
    let mut spots = Vec::new(alloc);
    'layers: for layer in layers {
        let place = taken.get(*layer).copied().unwrap_or(0);
        let row = rows
            .get(*layer)
            .copied()
            .unwrap_or(0)
            .saturating_add(place / ROW);
        spots.push(Spot {
            x: (place % ROW).saturating_mul(ACROSS),
            y: row.saturating_mul(DOWN),
        })?;
        if let Some(count) = taken.get_mut(*layer) {
            *count = place.saturating_add(1);
        }
    }
    Ok(spots)
}

// The height of the picture.
fn height(spots: &[Spot]) -> usize {
    let mut most: usize = 0;
    'spots: for spot in spots {
        if spot.y > most {
            most = spot.y;
        }
    }
    most.saturating_add(DOWN)
}

// The width of the picture: that of its longest row, but not less than a few boxes.
fn width(spots: &[Spot]) -> usize {
    let mut most: usize = FEW * ACROSS;
    'spots: for spot in spots {
        if spot.x > most {
            most = spot.x;
        }
    }
    most.saturating_add(ACROSS)
}

// The course of the lines from a pip to those that it waits for.
fn course(alloc: Global, spots: &[Spot], number: usize, inputs: &[u32]) -> Result<String, Memory> {
    let mut course = String::new(alloc);
    let Some(from) = spots.get(number) else {
        return Ok(course);
    };
    let (x, y) = (from.x.saturating_add(22), from.y);
    'inputs: for input in inputs {
        if let Some(to) = spots.get(*input as usize) {
            let (across, down) = (to.x.saturating_add(22), to.y.saturating_add(18));
            course.push_str(format!(in alloc; "M{x} {y}L{across} {down}")?.as_str())?;
        }
    }
    Ok(course)
}

fn add_lines(alloc: Global, page: &mut Page, plan: &Plan, spots: &[Spot]) {
    let pips = plan.pips();
    'pips: for number in 0..pips.len() {
        let inputs = plan.inputs(number as u32);
        if !inputs.is_empty() {
            let course = course(alloc, spots, number, inputs);
            page.open_made(Tag::Line, Attr::Course, course);
            page.close(Tag::Line);
        }
    }
}

fn add_box(alloc: Global, page: &mut Page, number: usize, spot: Spot, class: &str) {
    let (x, y) = (spot.x, spot.y);
    page.open_made(Tag::Link, Attr::Href, format!(in alloc; "#p{number}"));
    page.open_made(
        Tag::Group,
        Attr::Transform,
        format!(in alloc; "translate({x} {y})"),
    );
    page.open_with(Tag::Box, Attr::Class, class);
    page.close(Tag::Box);
    page.open_with(Tag::Label, Attr::Transform, "translate(22 13)");
    page.made(format!(in alloc; "{number}"));
    page.close(Tag::Label);
    page.close(Tag::Group);
    page.close(Tag::Link);
}

/// Adds the picture of a graph.
pub(crate) fn add_picture(
    alloc: Global,
    page: &mut Page,
    plan: &Plan,
    ends: &[PipEnd],
) -> Result<(), Memory> {
    let layers = layers(alloc, plan)?;
    let spots = spots(alloc, layers.as_slice())?;
    let width = width(spots.as_slice());
    let height = height(spots.as_slice());
    page.open_made(
        Tag::Picture,
        Attr::ViewBox,
        format!(in alloc; "-4 -8 {width} {height}"),
    );
    add_lines(alloc, page, plan, spots.as_slice());
    'spots: for (number, spot) in spots.iter().enumerate() {
        add_box(alloc, page, number, *spot, class_of(ends, number));
    }
    page.close(Tag::Picture);
    Ok(())
}
