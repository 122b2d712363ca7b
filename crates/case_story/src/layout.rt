//! Where the steps of a workflow stand in its picture: in layers from left to right.

use constraint_forms::StepSet;
use std::cmp::max;
use wf_names::{STEP_LIMIT, StepId};
use workflow_schema::Flow;

/// The limit of steps, as steps are numbered.
const STEPS: u8 = STEP_LIMIT as u8;

/// The layer of each step: a step stands behind all that come before it. Steps of one layer stand
/// one below the other.
#[derive(Clone, Copy)]
pub(crate) struct Layout {
    layers: [u8; STEP_LIMIT],
    steps: u8,
    /// How many steps the fullest layer has.
    pub most: u8,
    /// The last layer.
    pub last: u8,
}

/// A place in the picture, in layers from the left and in half steps from the top.
#[derive(Clone, Copy)]
pub(crate) struct Spot {
    pub layer: u8,
    pub halves: u8,
}

impl Layout {
    /// The layout of a workflow's steps.
    pub(crate) fn of(flow: &Flow) -> Layout {
        let mut layout = Layout {
            layers: [0; STEP_LIMIT],
            steps: flow.steps().len().min(STEP_LIMIT as u16) as u8,
            most: 0,
            last: 0,
        };
        for _ in 0..STEPS {
            layout.settle(flow);
        }
        layout.measure();
        layout
    }

    // Puts each step behind those that come before it, as they stand.
    fn settle(&mut self, flow: &Flow) {
        for s in 0..STEPS {
            self.layers[s as usize] = self.layer_behind(flow, StepId(s));
        }
    }

    // The first layer behind all steps that come before a step.
    fn layer_behind(&self, flow: &Flow, s: StepId) -> u8 {
        let mut layer = 0;
        for t in 0..STEPS {
            if flow.before(StepId(t), s) {
                layer = max(layer, self.layers[t as usize].saturating_add(1));
            }
        }
        layer
    }

    fn measure(&mut self) {
        for s in 0..self.steps.min(STEPS) {
            let layer = self.layers[s as usize];
            self.most = max(self.most, self.count(layer, self.steps));
            self.last = max(self.last, layer);
        }
    }

    // How many of the steps below a number stand in a layer.
    fn count(&self, layer: u8, end: u8) -> u8 {
        let mut count = 0u8;
        for s in 0..end.min(STEPS) {
            if self.layers[s as usize] == layer {
                count = count.saturating_add(1);
            }
        }
        count
    }

    /// Where a step stands.
    pub(crate) fn spot(&self, s: StepId) -> Spot {
        let layer = match self.layers.get(s.0 as usize) {
            Some(layer) => *layer,
            None => 0,
        };
        let above = self.count(layer, s.0);
        let free = self.most.saturating_sub(self.count(layer, self.steps));
        Spot {
            layer,
            halves: above.saturating_add(above).saturating_add(free),
        }
    }
}

/// The steps from which an arrow leads to a step: those before it, from which no longer way leads
/// there.
pub(crate) fn led_from(flow: &Flow, s: StepId) -> StepSet {
    let mut steps = StepSet::empty();
    for t in 0..STEPS {
        if flow.before(StepId(t), s) && !has_between(flow, StepId(t), s) {
            steps = steps.with(StepId(t));
        }
    }
    steps
}

// Whether some step comes behind one and before another.
fn has_between(flow: &Flow, s: StepId, t: StepId) -> bool {
    for u in 0..STEPS {
        if flow.before(s, StepId(u)) && flow.before(StepId(u), t) {
            return true;
        }
    }
    false
}
