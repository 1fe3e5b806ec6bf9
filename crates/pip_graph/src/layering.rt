//! Layers of a graph.
ghost use Rattle.std.specs.Prelude.{◌≡◌, ◌<◌, ◌≤◌, ◌⊎◌, ℕ, suc, All, Contains, IfOk, get_or, length};
ghost use Rattle.pip_graph.specs.Layers.{AreLayers};

use bx_tree::Memory;
use pip_model::Plan;
use std::alloc::Global;

// The layer that lies above one, and is no lower than another.
fn raised(layer: usize, below: usize) -> usize
    requires { below < usize.MAX }
    ensures up { layer ≤ below → result ≡ suc below }
    ensures same { below < layer → result ≡ layer }
{
    if layer <= below { below + 1 } else { layer }
}

// One more than the greatest layer of these pips, or 0 where there are none.
fn layer_above(layers: &[usize], inputs: &[u32]) -> usize
    requires inputs { All (λ input. input < length layers.now) inputs.now }
    requires low { (k : ℕ) → k < length layers.now → get_or layers.now k 0 ≤ k }
    ensures small { result ≤ length layers.now }
    ensures above { (input : ℕ) → Contains inputs.now input → get_or layers.now input 0 < result }
    ensures lowest { (result ≡ 0)
        ⊎ ((input : ℕ) × Contains inputs.now input × (result ≡ suc (get_or layers.now input 0))) }
{
    let mut layer = 0;
    'inputs: for input in inputs {
        let below = layers[*input as usize];
        layer = raised(layer, below);
    }
    layer
}

/// The layer of each pip, by longest path: 0 for one that waits for none, and else one more than the greatest of those
/// that it waits for.
pub fn layers(alloc: Global, plan: &Plan) -> Result<Vec<usize>, Memory>
    ensures { IfOk result (λ layers. AreLayers plan.now.pips layers.items) }
{
    let pips = plan.pips();
    let mut layers = Vec::new(alloc);
    'pips: for number in 0..pips.len() {
        let layer = layer_above(&layers, plan.inputs(number as u32));
        layers.push(layer)?;
    }
    Ok(layers)
}
