//! The picture of a workflow with how a case stands: a box for each step, in layers from left to
//! right.

use crate::html::{Html, Part};
use crate::layout::{Layout, Spot, led_from};
use crate::shown::Shown;
use crate::steps::{class_of, put_roles, state_of};
use plain_words::{flow_name, text_of};
use std::alloc::AllocError;
use std::cmp::max;
use wf_names::StepId;

/// How far below the one box the next begins, in halves.
const HALF_DOWN: u32 = 42;
/// How far below its upper edge the middle of a box is.
const MIDDLE: u32 = 32;
/// The gap between two layers.
const GAP: u32 = 46;
/// A wider picture is not made smaller to fit a window.
const FITS: u32 = 1_600;
/// The edge round the picture.
const EDGE: u32 = 4;
/// The length of the point of an arrow.
const POINT: u32 = 8;
/// How far from its ends an arrow bends.
const BEND: u32 = 19;
/// How far apart arrows are that pass layers below all boxes.
const APART: u32 = 14;

// The layout with the width of a box, and how high the picture is with the arrows below all boxes.
#[derive(Clone, Copy)]
struct Canvas {
    layout: Layout,
    letters: usize,
    wide: u32,
    high: u32,
}

impl Canvas {
    fn x(&self, spot: Spot) -> u32 {
        let step = self.wide.saturating_add(GAP);
        (spot.layer as u32)
            .saturating_mul(step)
            .saturating_add(EDGE)
    }

    fn y(&self, spot: Spot) -> u32 {
        (spot.halves as u32) * HALF_DOWN + EDGE
    }
}

// What the picture is for those who do not see it, and the point of an arrow.
const PICTURE: &str =
    "</title><desc id=\"d\">A box for each step, and arrows to the steps that come \
    after it. The table below says the same in words.</desc><defs><marker id=\"a\" viewBox=\"0 0 8 \
    8\" refX=\"1\" refY=\"4\" markerWidth=\"6\" markerHeight=\"6\" orient=\"auto\"><path \
    d=\"M0 0L8 4L0 8z\"/></marker></defs>\n";

/// Adds the picture.
pub(crate) fn put_picture(out: &mut Html, shown: &Shown<'_>) -> Result<(), AllocError> {
    let mut canvas = canvas_of(shown);
    let mut drawn = Html::new(out.allocator());
    draw(&mut drawn, shown, &mut canvas)?;
    put_svg(out, shown, &canvas, &drawn)
}

// Adds the arrows, and the boxes over them.
fn draw(out: &mut Html, shown: &Shown<'_>, canvas: &mut Canvas) -> Result<(), AllocError> {
    for s in 0..shown.case.steps() {
        put_arrows(out, shown, canvas, StepId(s))?;
    }
    for s in 0..shown.case.steps() {
        put_box(out, shown, canvas, StepId(s))?;
    }
    Ok(())
}

// The layout, with boxes as wide as the longest text of a step or its state.
fn canvas_of(shown: &Shown<'_>) -> Canvas {
    let layout = Layout::of(shown.course.flow());
    let mut letters = 16;
    for s in 0..shown.case.steps() {
        let step = shown.step(StepId(s));
        let (state, name) = state_of(shown, StepId(s));
        let state_len = state.len().saturating_add(text_of(&name).len());
        letters = max(
            letters,
            max(text_of(&step).len().saturating_add(3), state_len),
        );
    }
    Canvas {
        layout,
        letters,
        wide: (letters.min(80) as u32) * 8 + 20,
        high: (layout.most as u32) * 2 * HALF_DOWN,
    }
}

// Adds what is drawn, as SVG.
fn put_svg(out: &mut Html, shown: &Shown, canvas: &Canvas, drawn: &Html) -> Result<(), AllocError> {
    let last = Spot {
        layer: canvas.layout.last,
        halves: 0,
    };
    let wide = canvas
        .x(last)
        .saturating_add(canvas.wide)
        .saturating_add(EDGE);
    put_start(out, wide, canvas.high)?;
    let flow = flow_name(&shown.course);
    out.put(&[
        Part::Mark(" role=\"img\" aria-labelledby=\"t d\"><title id=\"t\">The steps of "),
        Part::Value(text_of(&flow)),
        Part::Mark(PICTURE),
    ])?;
    out.join(drawn)?;
    out.put(&[Part::Mark("</svg></div>\n")])
}

// Begins a picture of this size.
fn put_start(out: &mut Html, wide: u32, high: u32) -> Result<(), AllocError> {
    let class = if wide > FITS {
        "\" class=\"big\""
    } else {
        "\""
    };
    out.put(&[
        Part::Mark("<div class=\"wide\"><svg viewBox=\"0 0 "),
        Part::Number(wide),
        Part::Mark(" "),
        Part::Number(high),
        Part::Mark("\" width=\""),
        Part::Number(wide),
        Part::Mark("\" height=\""),
        Part::Number(high),
        Part::Mark(class),
    ])
}

// Adds the arrows to a step.
fn put_arrows(
    out: &mut Html,
    shown: &Shown<'_>,
    canvas: &mut Canvas,
    s: StepId,
) -> Result<(), AllocError> {
    let from = led_from(shown.course.flow(), s);
    let to = canvas.layout.spot(s);
    for t in 0..from.limit() {
        if from.has(StepId(t as u8)) {
            let start = canvas.layout.spot(StepId(t as u8));
            put_arrow(out, canvas, start, to)?;
        }
    }
    Ok(())
}

// Adds an arrow. One that passes a layer goes below all boxes.
fn put_arrow(out: &mut Html, canvas: &mut Canvas, start: Spot, to: Spot) -> Result<(), AllocError> {
    let (x, y) = (canvas.x(start).saturating_add(canvas.wide), canvas.y(start));
    let (end, level) = (canvas.x(to).saturating_sub(POINT), canvas.y(to));
    out.put(&[
        Part::Mark("<path class=\"a\" d=\"M"),
        Part::Number(x),
        Part::Mark(" "),
        Part::Number(y.saturating_add(MIDDLE)),
        Part::Mark("H"),
        Part::Number(x.saturating_add(BEND)),
    ])?;
    if start.layer.saturating_add(1) < to.layer {
        put_turn(out, canvas.high, end.saturating_sub(BEND))?;
        canvas.high = canvas.high.saturating_add(APART);
    }
    put_turn(out, level.saturating_add(MIDDLE), end)?;
    out.put(&[Part::Mark("\"/>\n")])
}

// Leads an arrow up or down to a level, and then to the side.
fn put_turn(out: &mut Html, level: u32, end: u32) -> Result<(), AllocError> {
    out.put(&[
        Part::Mark("V"),
        Part::Number(level),
        Part::Mark("H"),
        Part::Number(end),
    ])
}

fn put_box(
    out: &mut Html,
    shown: &Shown<'_>,
    canvas: &Canvas,
    s: StepId,
) -> Result<(), AllocError> {
    let step = shown.step(s);
    put_rectangle(out, canvas, canvas.layout.spot(s), class_of(shown, s))?;
    out.put(&[
        Part::Mark("<text x=\"10\" y=\"20\" class=\"s\">"),
        Part::Number(s.0 as u32),
        Part::Mark(" "),
        Part::Value(text_of(&step)),
        Part::Mark("</text><text x=\"10\" y=\"38\" class=\"r\">"),
    ])?;
    put_roles(out, shown, s, canvas.letters)?;
    let (state, name) = state_of(shown, s);
    out.put(&[
        Part::Mark("</text><text x=\"10\" y=\"55\">"),
        Part::Mark(state),
        Part::Value(text_of(&name)),
        Part::Mark("</text></g>\n"),
    ])
}

// Begins a box of this class, with its edge.
fn put_rectangle(
    out: &mut Html,
    canvas: &Canvas,
    spot: Spot,
    class: &'static str,
) -> Result<(), AllocError> {
    out.put(&[
        Part::Mark("<g class=\""),
        Part::Mark(class),
        Part::Mark("\" transform=\"translate("),
        Part::Number(canvas.x(spot)),
        Part::Mark(" "),
        Part::Number(canvas.y(spot)),
        Part::Mark(")\"><rect width=\""),
        Part::Number(canvas.wide),
        Part::Mark("\" height=\"64\" rx=\"8\"/>"),
    ])
}
