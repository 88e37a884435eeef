// The filter's step for one sample: the summer, the nonlinear core, and the selection of its outputs.
#![tactic(auto)]

ghost use Rattle.std.specs.Prelude.{◌≡◌, ◌≤◌, []};
ghost use Rattle.response.specs.Position.{operating_position_of};
ghost use Rattle.sample.specs.Sample as S;
ghost use Rattle.sample.specs.Parts as P;

use answers::{Answer, Refusal};
use controls::ControlCache;
use curves::CurvePoint;
use integrator::{Advanced, Coefficients, FilterOutputs, IntegratorState};
use mixing::MixingTopology;
use refresh::CoreControls;
use response::TablePosition;

// What a sample gives: the core's three outputs and what the mode selects of them.
#[repr(C)]
#[derive(Clone, Copy)]
pub struct Outputs {
    pub high: f32,
    pub band: f32,
    pub low: f32,
    pub selected: f32,
}

// A sample that was taken, and the state after it. One that is refused leaves the state as it was.
#[derive(Clone, Copy)]
pub struct Sampled {
    pub outputs: Outputs,
    pub state: IntegratorState,
}

// ---- summer_transfer

// The filter's inputs with the two that are always there; no routing has more than six.
fn summer_inputs(count: usize) -> u8
    ensures { result ≡ S.summer_inputs_of count }
{
    if count < 4 { 2 + (count as u8) } else { 6 }
}

// The level of one input, with the two that are always there at rest.
fn average(topology: MixingTopology, sum: f32) -> f32
    ensures { result ≡ S.average_of topology sum }
{
    (sum + 2.0 * response::filter_mode_quiescent_level()) * topology.summer_input_reciprocal
}

// Where the summer's curve stands in a buffer of all 31 curves. Whatever reads a curve takes its slot from its caller.
pub fn summer_slot(topology: MixingTopology) -> u8
    ensures { result ≡ S.summer_slot_of topology }
{
    summer_inputs(topology.filter_input_count)
}

// The summer's output above its output at rest, and where on its curve the output stands.
pub fn summer_point(
    bundle: &[u8],
    curves: &[u8],
    slot: u8,
    topology: MixingTopology,
    input_sum: f32,
) -> CurvePoint
    ensures { result ≡ S.summer_point_of bundle.now curves.now slot topology input_sum }
{
    let inputs = summer_inputs(topology.filter_input_count);
    let at = curves::curve_point(curves, slot, average(topology, input_sum));
    CurvePoint {
        value: at.value - curves::summer_resting_output(bundle, inputs),
        index: at.index,
        fraction: at.fraction,
    }
}

// The output alone.
pub fn summer_transfer(
    bundle: &[u8],
    curves: &[u8],
    slot: u8,
    topology: MixingTopology,
    input_sum: f32,
) -> f32
    ensures { result ≡ S.summer_transfer_of bundle.now curves.now slot topology input_sum }
{
    summer_point(bundle, curves, slot, topology, input_sum).value
}

// The entries that it reads, in its order.
pub fn judge_summer(
    bundle: &[u8],
    curves: &[u8],
    slot: u8,
    topology: MixingTopology,
    input_sum: f32,
) -> Answer
    ensures { result ≡ S.judge_summer_of bundle.now curves.now slot topology input_sum }
{
    let inputs = summer_inputs(topology.filter_input_count);
    let average = average(topology, input_sum);
    let curve = curves::judge_sample_curve(curves, slot, average);
    answers::first(curve, curves::judge_summer_resting_output(bundle, inputs))
}

// The summer's output at rest for a topology: the samples of a run share it until the routing changes.
pub fn rest_of(bundle: &[u8], topology: MixingTopology) -> Result<f32, Refusal>
    ensures { result ≡ P.rest_of bundle.now topology }
{
    curves::read_resting_output(bundle, summer_inputs(topology.filter_input_count))
}

// The summer's output above a rest that is handed in, each entry judged as it is read.
fn summed(
    curves: &[u8],
    slot: u8,
    topology: MixingTopology,
    rest: Result<f32, Refusal>,
    input_sum: f32,
) -> Result<f32, Refusal>
    ensures { result ≡ P.summed_of curves.now slot topology rest input_sum }
{
    let level = curves::read_curve(curves, slot, average(topology, input_sum))?;
    let resting = rest?;
    Ok(level - resting)
}

// ---- advance_filter_core

// Whether a sample leaves the core as it is and reads nothing.
pub fn is_idle(count: usize, s: IntegratorState) -> bool
    ensures { result ≡ S.is_idle_of count s }
{
    (count == 0) & (s.filter_source_energy == 0.0) & (s.band_state == 0.0) & (s.low_state == 0.0)
}

// The energy of one input.
fn fed_energy(topology: MixingTopology, energy: f32) -> f32
    ensures { result ≡ S.fed_energy_of topology.filter_input_count topology.filter_input_reciprocal energy }
{
    if 0 < topology.filter_input_count {
        energy * topology.filter_input_reciprocal
    } else {
        energy
    }
}

fn tracked_energy(tracked: f32, fed: f32) -> f32
    ensures { result ≡ S.tracked_energy_of tracked fed }
{
    tracked + constants::FILTER_SOURCE_ENERGY_TRACKING * (fed - tracked)
}

fn between_bins(values: &[f32; 16], at: TablePosition) -> f32
    requires { (at.lower ≤ 15) × (at.upper ≤ 15) }
    ensures { result ≡ S.between_bins values.now at }
{
    let lower = at.lower;
    let upper = at.upper;
    response::interpolate(values[lower], values[upper], at.fraction)
}

// The source's load on the pole.
fn shift(modulation: f32, scale: f32, energy: f32) -> f32
    ensures { result ≡ S.shift_of modulation scale energy }
{
    modulation * (energy / (energy + constants::FILTER_SOURCE_ENERGY_KNEE)) * scale
}

// The trapezoidal rule's factors for an integrator gain.
fn coefficients(damping: f32, feedback_drive: f32, g: f32) -> Coefficients
    ensures { result ≡ S.coefficients_of damping feedback_drive g }
{
    let a1 = 1.0 / (1.0 + g * (g + damping));
    Coefficients {
        damping,
        feedback_drive,
        a1,
        a2: g * a1,
        a3: g * g * a1,
    }
}

// The core at an input, the operating bins that it stands between, and its new energy.
fn moved(
    gains: &[f32; 16],
    input_drives: &[f32; 16],
    feedback_drives: &[f32; 16],
    core: CoreControls,
    s: IntegratorState,
    input: f32,
    at: TablePosition,
    energy: f32,
) -> Option<Advanced>
    requires { at ≡ operating_position_of input s.band_state s.low_state }
    ensures { result ≡ S.moved_of (P.filter_of gains.now input_drives.now feedback_drives.now core) s input energy }
{
    let feedback_drive = between_bins(feedback_drives, at) * core.resonance_feedback_scale;
    let input_drive = between_bins(input_drives, at);
    let shift = shift(
        core.source_gain_modulation,
        core.source_modulation_resonance_scale,
        energy,
    );
    let g = between_bins(gains, at) + shift;
    let k = coefficients(core.damping, feedback_drive, g);
    let from = IntegratorState {
        band_state: s.band_state,
        low_state: s.low_state,
        filter_source_energy: energy,
    };
    from.four_substeps(IntegratorState::saturate(input, input_drive), k)
}

// The core at rest stays as it is and reads nothing.
fn at_rest(s: IntegratorState) -> Option<Advanced>
    ensures { result ≡ S.at_rest_of s }
{
    Some(Advanced {
        outputs: FilterOutputs {
            high_pass: 0.0,
            band_pass: 0.0,
            low_pass: 0.0,
        },
        state: s,
    })
}

// ---- select_filter_output

// By the mode's lower three bits: 1 low, 2 band, 4 high.
fn mode_sum(m: u8, low: f32, band: f32, high: f32) -> f32
    ensures { result ≡ S.mode_sum_of m low band high }
{
    match m {
        0 => 0.0,
        1 => low,
        2 => band,
        3 => low + band,
        4 => high,
        5 => low + high,
        6 => band + high,
        _ => low + band + high,
    }
}

fn mixed(core: CoreControls, mode: u8, o: FilterOutputs) -> f32
    ensures { result ≡ S.mixed_of (P.filter_of [] [] [] core) mode o }
{
    let quiescent = response::filter_mode_quiescent_level();
    let polarity = constants::mode_polarity();
    let low = quiescent + o.low_pass * polarity[0];
    let band = quiescent + (o.band_pass + core.band_pass_low_coupling * o.low_pass) * polarity[1];
    let high = quiescent + (o.high_pass + core.high_pass_low_coupling * o.low_pass) * polarity[2];
    mode_sum(mode % 8, low, band, high)
}

// The outputs that a mode selects; no mode has more than three.
fn selected_outputs(count: usize) -> u8
    ensures { result ≡ S.selected_outputs_of count }
{
    if count < 3 { count as u8 } else { 3 }
}

// The selected value, for a count of selected outputs.
fn select_filter_output(
    core: CoreControls,
    mode_output_gain: f32,
    count: usize,
    mode: u8,
    o: FilterOutputs,
) -> f32
    ensures { result ≡ S.select_filter_output_of (P.cache_of [] [] [] core mode_output_gain) count mode o }
{
    let resting = response::filter_mode_quiescent_level()
        * floats::of_u16(selected_outputs(count) as u16);
    resting + (mixed(core, mode, o) - resting) * mode_output_gain * core.resonance_output_gain
}

// ---- the sample

// The outputs with the selected value beside them, where all are finite.
fn taken(
    core: CoreControls,
    mode_output_gain: f32,
    count: usize,
    mode: u8,
    moved: Option<Advanced>,
) -> Result<Sampled, Refusal>
    ensures { result ≡ S.taken_of (P.cache_of [] [] [] core mode_output_gain) count mode moved }
{
    let advanced = moved.ok_or(Refusal::Domain)?;
    let o = advanced.outputs;
    let selected = select_filter_output(core, mode_output_gain, count, mode, o);
    answers::unless(floats::is_finite(selected), Refusal::Domain)?;
    Ok(Sampled {
        outputs: Outputs {
            high: o.high_pass,
            band: o.band_pass,
            low: o.low_pass,
            selected,
        },
        state: advanced.state,
    })
}

// What the core is fed, where the sum and the energy are finite: nothing where it is idle, else the summer's output above its rest.
fn core_input(
    curves: &[u8],
    slot: u8,
    topology: MixingTopology,
    rest: Result<f32, Refusal>,
    s: IntegratorState,
    input_sum: f32,
    source_energy: f32,
) -> Result<Option<f32>, Refusal>
    ensures { result ≡ P.core_input_of curves.now slot topology rest s input_sum source_energy }
{
    answers::unless(
        floats::is_finite(input_sum) & floats::is_finite(source_energy),
        Refusal::InputNotFinite,
    )?;
    if is_idle(topology.filter_input_count, s) {
        return Ok(None);
    }
    let level = summed(curves, slot, topology, rest, input_sum)?;
    Ok(Some(level))
}

// One sample of the filter on the parts of the controls, with the summer's rest worked out before. The operating bin is guessed from `earlier`, capacitors that are
// there long before those of `s`: what they are does not change the sample, only how soon its tables are read. The parts go one by one, in an order found by trial.
pub fn sample_from_parts(
    curves: &[u8],
    slot: u8,
    topology: MixingTopology,
    gains: &[f32; 16],
    input_drives: &[f32; 16],
    feedback_drives: &[f32; 16],
    core: CoreControls,
    mode_output_gain: f32,
    rest: Result<f32, Refusal>,
    mode: u8,
    s: IntegratorState,
    earlier: IntegratorState,
    input_sum: f32,
    source_energy: f32,
) -> Result<Sampled, Refusal>
    ensures { result ≡ P.sample_from_parts_of curves.now slot topology
        (P.cache_of gains.now input_drives.now feedback_drives.now core mode_output_gain)
        rest mode s input_sum source_energy }
{
    let count = topology.filter_output_count;
    let fed = core_input(curves, slot, topology, rest, s, input_sum, source_energy)?;
    let Some(level) = fed else {
        return taken(core, mode_output_gain, count, mode, at_rest(s));
    };
    let energy = tracked_energy(s.filter_source_energy, fed_energy(topology, source_energy));
    let input = level * constants::FILTER_INPUT_GAIN;
    let guess = response::guessed_bin(input, earlier.band_state, earlier.low_state);
    let at = response::operating_position_near(input, s.band_state, s.low_state, guess);
    let moved = moved(
        gains,
        input_drives,
        feedback_drives,
        core,
        s,
        input,
        at,
        energy,
    );
    taken(core, mode_output_gain, count, mode, moved)
}

// One sample of the filter on the topology and the controls that are handed in, with the slot of the summer's curve.
pub fn filter_sample(
    bundle: &[u8],
    curves: &[u8],
    slot: u8,
    topology: MixingTopology,
    controls: ControlCache,
    mode: u8,
    state: IntegratorState,
    input_sum: f32,
    source_energy: f32,
) -> Result<Sampled, Refusal>
    ensures { result ≡ S.filter_sample_of bundle.now curves.now slot topology controls mode state input_sum source_energy }
{
    let f = controls.filter;
    let gains = f.integrator_gain;
    let input_drives = f.input_drive;
    let feedback_drives = f.feedback_drive;
    sample_from_parts(
        curves,
        slot,
        topology,
        &gains,
        &input_drives,
        &feedback_drives,
        refresh::core_controls(f),
        controls.mode_output_gain,
        rest_of(bundle, topology),
        mode,
        state,
        state,
        input_sum,
        source_energy,
    )
}
