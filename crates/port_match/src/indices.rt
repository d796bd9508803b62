//! The indices of two ports: whether a width is above them all, and whether an output has the values of an input.
ghost use Rattle.std.specs.Prelude.{◌≡◌, true, IfOk};
ghost use Rattle.std.specs.List.{flat_map};
ghost use Rattle.index_maps.specs.Intervals.{are_apart, interval_indices};
ghost use Rattle.index_maps.specs.Maps.{indices};
ghost use Rattle.scene_model.specs.Links.{values_fit, width_fits};
ghost use Rattle.port_match.specs.Covering.{index_fault};

use crate::LinkKind;
use crate::covering::{all_below, covers};
use index_maps::Interval;
use music_base::NoMemory;
use scene_model::{PortDecl, PortKind};
use std::alloc::Global;

/// Whether neither port maps an index past the width, where one is stated. The intervals are those of the ports.
#[tactic(auto, unfolding(scene_model::specs::Links::maps_below))]
fn width_fits(
    width: Option<u32>,
    output: &PortDecl,
    input: &PortDecl,
    outputs: &[Interval],
    inputs: &[Interval],
) -> bool
    requires outputs_apart { are_apart outputs.now ≡ true }
    requires outputs { flat_map interval_indices outputs.now ≡ indices output.now.map }
    requires inputs_apart { are_apart inputs.now ≡ true }
    requires inputs { flat_map interval_indices inputs.now ≡ indices input.now.map }
    ensures { result ≡ width_fits width output.now input.now }
{
    match width {
        Some(width) => all_below(width, outputs) && all_below(width, inputs),
        None => true,
    }
}

/// Whether the output maps each index of the input, where the input is continuous. The intervals are those of the ports.
fn values_fit(
    output: &PortDecl,
    input: &PortDecl,
    outputs: &[Interval],
    inputs: &[Interval],
) -> bool
    requires outputs_apart { are_apart outputs.now ≡ true }
    requires outputs { flat_map interval_indices outputs.now ≡ indices output.now.map }
    requires inputs_apart { are_apart inputs.now ≡ true }
    requires inputs { flat_map interval_indices inputs.now ≡ indices input.now.map }
    ensures { result ≡ values_fit input.now.kind output.now input.now }
{
    match input.kind {
        PortKind::Values => covers(outputs, inputs),
        PortKind::Events | PortKind::Messages => true,
    }
}

/// The first fault of the indices that the ports map: one that is not below the width, or one that a continuous input
/// reads and the output does not have.
pub fn index_fault(
    alloc: Global,
    width: Option<u32>,
    output: &PortDecl,
    input: &PortDecl,
) -> Result<Option<LinkKind>, NoMemory>
    ensures { IfOk result (λ kind. kind ≡ index_fault width output.now input.now) }
{
    if width.is_none() && input.kind != PortKind::Values {
        return Ok(None);
    }
    let outputs = output.map.intervals(alloc)?;
    let inputs = input.map.intervals(alloc)?;
    let (outputs, inputs) = (outputs.as_slice(), inputs.as_slice());
    if !width_fits(width, output, input, outputs, inputs) {
        return Ok(Some(LinkKind::Width));
    }
    if !values_fit(output, input, outputs, inputs) {
        return Ok(Some(LinkKind::Unmapped));
    }
    Ok(None)
}
