// The direct calls of the filter's parts, each refusing by the table of docs/FORMATS.md before it hands out a number.
#![tactic(auto)]

ghost use Rattle.std.specs.Prelude.{◌≡◌};
ghost use Rattle.response.specs.Levels.{filter_mode_quiescent_level_of};
ghost use Rattle.direct.specs.Calls as C;

use answers::{Answer, Buffer, Refusal};
use curves::{AnalogueLoadPosition, CurvePoint};
use integrator::{Advanced, Coefficients, FilterOutputs, IntegratorState};
use mixing::MixingTopology;
use response::TablePosition;

// ---- what the calls share

// The last refusal is the value's own.
#[tactic(auto, unfolding(crate::specs::Calls::finite_value_of))]
fn finite(value: f32) -> Result<f32, Refusal>
    ensures { result ≡ C.finite_value_of value }
{
    answers::unless(floats::is_finite(value), Refusal::Domain)?;
    Ok(value)
}

// The same for a point, by its value.
#[tactic(auto, unfolding(crate::specs::Calls::finite_point_of, crate::specs::Calls::finite_value_of))]
fn finite_point(point: CurvePoint) -> Result<CurvePoint, Refusal>
    ensures { result ≡ C.finite_point_of point }
{
    finite(point.value)?;
    Ok(point)
}

// ---- the analogue surface and its curves

// The rows of the two loads that a conductance lies between. Refuses 10.
#[tactic(auto, unfolding(crate::specs::Calls::load_position_call_of))]
pub fn load_position(conductance: f32) -> Result<AnalogueLoadPosition, Refusal>
    ensures { result ≡ C.load_position_call_of conductance }
{
    answers::unless(floats::is_finite(conductance), Refusal::Argument)?;
    Ok(curves::load_position(conductance))
}

// The surface at a conductance and an input. Refuses 1, 2, 10, 3, 6.
#[tactic(auto, unfolding(crate::specs::Calls::sample_call_of))]
pub fn sample(bundle: &[u8], conductance: f32, input: f32) -> Result<f32, Refusal>
    ensures { result ≡ C.sample_call_of bundle.now conductance input }
{
    bundle::check(bundle)?;
    let known = floats::is_finite(conductance) & floats::is_finite(input);
    answers::unless(known, Refusal::Argument)?;
    curves::judge_sample(bundle, conductance, input)?;
    finite(curves::sample(bundle, conductance, input))
}

// A curve, 0 to 30, at an input. Refuses 4, 10, 3, 6.
#[tactic(auto, unfolding(crate::specs::Calls::sample_curve_call_of, crate::specs::Calls::sample_curve_answer_of))]
pub fn sample_curve(curves: &[u8], curve: u32, input: f32) -> Result<CurvePoint, Refusal>
    ensures { result ≡ C.sample_curve_call_of curves.now curve input }
{
    curves::judge_length(curves)?;
    if 30 < curve {
        return Err(Refusal::Argument);
    }
    let slot = curve as u8;
    answers::unless(floats::is_finite(input), Refusal::Argument)?;
    curves::judge_sample_curve(curves, slot, input)?;
    finite_point(curves::curve_point(curves, slot, input))
}

// ---- summer, mixer and volume

// The summer's output above its output at rest. Refuses 1, 2, 4, 10, 5, 3, 6.
#[tactic(auto, unfolding(crate::specs::Calls::summer_transfer_call_of, crate::specs::Calls::summer_answer_of))]
pub fn summer_transfer(
    bundle: &[u8],
    curves: &[u8],
    topology: MixingTopology,
    input_sum: f32,
) -> Result<CurvePoint, Refusal>
    ensures { result ≡ C.summer_transfer_call_of bundle.now curves.now topology input_sum }
{
    bundle::check(bundle)?;
    curves::judge_length(curves)?;
    let known = (topology.filter_input_count <= 4)
        & floats::is_finite(topology.summer_input_reciprocal);
    answers::unless(known, Refusal::Argument)?;
    answers::unless(floats::is_finite(input_sum), Refusal::InputNotFinite)?;
    let slot = sample::summer_slot(topology);
    sample::judge_summer(bundle, curves, slot, topology, input_sum)?;
    finite_point(sample::summer_point(bundle, curves, slot, topology, input_sum))
}

// The mixer's output for the sum of its inputs. Refuses 4, 10, 3, 6.
#[tactic(auto, unfolding(crate::specs::Calls::mixer_transfer_call_of, crate::specs::Calls::mixer_answer_of))]
pub fn mixer_transfer(
    curves: &[u8],
    topology: MixingTopology,
    input_sum: f32,
) -> Result<CurvePoint, Refusal>
    ensures { result ≡ C.mixer_transfer_call_of curves.now topology input_sum }
{
    curves::judge_length(curves)?;
    let finite = floats::is_finite(topology.mixer_input_reciprocal) & floats::is_finite(input_sum);
    answers::unless(finite, Refusal::Argument)?;
    let slot = transfers::mixer_slot(topology.mixer_input_count);
    transfers::judge_mixer(curves, slot, topology, input_sum)?;
    finite_point(transfers::mixer_point(curves, slot, topology, input_sum))
}

// The volume DAC's output for the mixer's. Refuses 4, 10, 3, 6.
#[tactic(auto, unfolding(crate::specs::Calls::volume_transfer_call_of, crate::specs::Calls::volume_answer_of))]
pub fn volume_transfer(curves: &[u8], volume: u8, value: f32) -> Result<CurvePoint, Refusal>
    ensures { result ≡ C.volume_transfer_call_of curves.now volume value }
{
    curves::judge_length(curves)?;
    answers::unless((volume <= 15) & floats::is_finite(value), Refusal::Argument)?;
    let slot = transfers::volume_slot(volume);
    transfers::judge_volume(curves, slot, value)?;
    finite_point(transfers::volume_point(curves, slot, value))
}

// ---- the integrator

// Soft saturation of a value at a drive. Refuses 10, 6.
#[tactic(auto, unfolding(crate::specs::Calls::saturate_call_of))]
pub fn saturate(value: f32, drive: f32) -> Result<f32, Refusal>
    ensures { result ≡ C.saturate_call_of value drive }
{
    let known = floats::is_finite(value) & floats::is_finite(drive);
    answers::unless(known, Refusal::Argument)?;
    finite(IntegratorState::saturate(value, drive))
}

fn finite_state(s: IntegratorState) -> bool
    ensures { result ≡ C.finite_state_of s }
{
    floats::is_finite(s.band_state)
        & floats::is_finite(s.low_state)
        & floats::is_finite(s.filter_source_energy)
}

fn finite_outputs(o: FilterOutputs) -> bool
    ensures { result ≡ C.finite_outputs_of o }
{
    floats::is_finite(o.high_pass) & floats::is_finite(o.band_pass) & floats::is_finite(o.low_pass)
}

fn finite_coefficients(k: Coefficients) -> bool
    ensures { result ≡ C.finite_coefficients_of k }
{
    floats::is_finite(k.damping)
        & floats::is_finite(k.feedback_drive)
        & floats::is_finite(k.a1)
        & floats::is_finite(k.a2)
        & floats::is_finite(k.a3)
}

// One substep of the two capacitors. Refuses 10, 6.
#[tactic(auto, unfolding(crate::specs::Calls::advance_call_of, crate::specs::Calls::advance_answer_of))]
pub fn advance(
    state: IntegratorState,
    driven_input: f32,
    k: Coefficients,
) -> Result<Advanced, Refusal>
    ensures { result ≡ C.advance_call_of state driven_input k }
{
    let known = finite_state(state) & floats::is_finite(driven_input) & finite_coefficients(k);
    answers::unless(known, Refusal::Argument)?;
    let advanced = state.advance(driven_input, k);
    let finite = finite_state(advanced.state) & finite_outputs(advanced.outputs);
    answers::unless(finite, Refusal::Domain)?;
    Ok(advanced)
}

// ---- the topology

// The topology of a routing and a mode nibble. Refuses 10.
#[tactic(auto, unfolding(crate::specs::Calls::mixing_topology_call_of))]
pub fn mixing_topology(routing: u8, mode: u8) -> Result<MixingTopology, Refusal>
    ensures { result ≡ C.mixing_topology_call_of routing mode }
{
    answers::unless((routing <= 15) & (mode <= 15), Refusal::Argument)?;
    Ok(MixingTopology::update(routing, mode))
}

// ---- the response

// The level of the filter's amplifiers at rest.
pub fn filter_mode_quiescent_level() -> f32
    ensures { result ≡ filter_mode_quiescent_level_of }
{
    response::filter_mode_quiescent_level()
}

// A voltage in the operating window, as 0 to 1. Refuses 10.
#[tactic(auto, unfolding(crate::specs::Calls::normalise_voltage_call_of))]
pub fn normalise_voltage(voltage: f32) -> Result<f32, Refusal>
    ensures { result ≡ C.normalise_voltage_call_of voltage }
{
    answers::unless(floats::is_finite(voltage), Refusal::Argument)?;
    finite(response::normalise_voltage(voltage))
}

// The operating bins that the input and the two capacitors stand between. Refuses 10.
#[tactic(auto, unfolding(crate::specs::Calls::operating_position_call_of))]
pub fn operating_position(input: f32, band: f32, low: f32) -> Result<TablePosition, Refusal>
    ensures { result ≡ C.operating_position_call_of input band low }
{
    let known = floats::is_finite(input) & floats::is_finite(band) & floats::is_finite(low);
    answers::unless(known, Refusal::Argument)?;
    Ok(response::operating_position(input, band, low))
}

// The volume DAC's conductance for a volume of 0 to 15. Refuses 10.
#[tactic(auto, unfolding(crate::specs::Calls::volume_dac_conductance_code_call_of))]
pub fn volume_dac_conductance_code(volume: u8) -> Result<f32, Refusal>
    ensures { result ≡ C.volume_dac_conductance_code_call_of volume }
{
    answers::unless(volume <= 15, Refusal::Argument)?;
    finite(response::volume_dac_conductance_code(volume))
}

// The operating point that a mode's outputs give the output node at the written cutoff. Refuses 10.
#[tactic(auto, unfolding(crate::specs::Calls::filter_output_common_mode_call_of))]
pub fn filter_output_common_mode(mode: u8, cutoff: u16) -> Result<f32, Refusal>
    ensures { result ≡ C.filter_output_common_mode_call_of mode cutoff }
{
    answers::unless((mode <= 15) & (cutoff <= 2047), Refusal::Argument)?;
    finite(response::filter_output_common_mode(mode, cutoff))
}

// The entry that the gain reads, in mode 4 alone.
fn judge_loading(bundle: &[u8], mode: u8, cutoff: u16) -> Answer
    ensures { result ≡ C.judge_loading_of bundle.now mode cutoff }
{
    if mode % 8 == 4 {
        let places = [bundle::highpass_loading_place(cutoff)];
        return bundle::judge_places(Buffer::Bundle, bundle, &places);
    }
    Ok(())
}

// The output gain of a mode at a resonance and the effective cutoff. Refuses 1, 2, 10, 3, 6.
#[tactic(auto, unfolding(crate::specs::Calls::filter_mode_output_gain_call_of, crate::specs::Calls::filter_mode_output_gain_answer_of))]
pub fn filter_mode_output_gain(
    bundle: &[u8],
    mode: u8,
    resonance: u8,
    cutoff: u16,
) -> Result<f32, Refusal>
    ensures { result ≡ C.filter_mode_output_gain_call_of bundle.now mode resonance cutoff }
{
    bundle::check(bundle)?;
    let known = (mode <= 15) & (resonance <= 15) & (cutoff <= 2047);
    answers::unless(known, Refusal::Argument)?;
    judge_loading(bundle, mode, cutoff)?;
    let loading = bundle::entry_at(bundle, bundle::highpass_loading_place(cutoff));
    finite(response::filter_mode_output_gain(mode, resonance, cutoff, loading))
}
