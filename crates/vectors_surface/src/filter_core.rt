// Records of the filter's core: what is kept of a state, and a sample. Each starts with a state's block.
use answers::Refusal;
use control::State;
use controls::{ControlCache, FilterControls, OutputControls};
use mixing::MixingTopology;
use replay::{has_flag, has_floats, has_size, part};
use sample::Sampled;

fn state_at(r: &[u8]) -> Option<State> {
    State::decode(part(r, 0, 68))
}

pub(crate) fn controls(r: &[u8], bundle: &[u8]) -> bool {
    let Some(state) = state_at(r) else {
        return false;
    };
    refresh::refresh(bundle, state).is_ok_and(|controls| has_controls(r, controls))
}

// Every field of the Rust's ControlCache, in its order.
fn has_controls(r: &[u8], controls: ControlCache) -> bool {
    let f = controls.filter;
    let o = controls.output;
    let integrator_gain = f.integrator_gain;
    let input_drive = f.input_drive;
    let feedback_drive = f.feedback_drive;
    let at_the_cutoff = [
        f.damping,
        f.source_gain_modulation,
        f.high_pass_low_coupling,
        f.band_pass_low_coupling,
        f.resonance_position,
    ];
    let others = [
        f.resonance_feedback_scale,
        f.source_modulation_resonance_scale,
        f.resonance_output_gain,
        controls.mode_output_gain,
        o.filter_common_mode,
        o.volume_fraction,
        o.two_voice_volume_gain_offset,
        o.combined_common_mode_gain,
        o.pure_bypass_common_mode_gain,
        o.scaled_filter_common_mode,
    ];
    has_size(r, 68, f.effective_cutoff_index)
        && has_floats(r, 72, &integrator_gain)
        && has_floats(r, 136, &input_drive)
        && has_floats(r, 200, &feedback_drive)
        && has_floats(r, 264, &at_the_cutoff)
        && has_size(r, 284, f.resonance_index)
        && has_floats(r, 288, &others)
        && has_flag(r, 328, o.frozen_dac_bias_mode)
}

pub(crate) fn sample(r: &[u8], bundle: &[u8], curves: &[u8]) -> bool {
    let Some(state) = state_at(r) else {
        return false;
    };
    keeps_rest(r) && sampled(r, bundle, curves, state).is_ok_and(|sampled| has_sampled(r, sampled))
}

// A sample on the topology and the controls that a state's registers give.
fn sampled(r: &[u8], bundle: &[u8], curves: &[u8], s: State) -> Result<Sampled, Refusal> {
    let registers = s.registers;
    let topology = MixingTopology::update(registers.routing, registers.mode);
    sample::filter_sample(
        bundle,
        curves,
        sample::summer_slot(topology),
        topology,
        refresh::refresh(bundle, s).unwrap_or(no_controls()),
        registers.mode,
        s.integrator,
        wire::f32_at(r, 68),
        wire::f32_at(r, 72),
    )
}

// Zeros, in place of controls that are refused: a sample at rest agrees with them too.
fn no_controls() -> ControlCache {
    ControlCache {
        filter: FilterControls {
            effective_cutoff_index: 0,
            integrator_gain: [0.0; 16],
            input_drive: [0.0; 16],
            feedback_drive: [0.0; 16],
            damping: 0.0,
            source_gain_modulation: 0.0,
            high_pass_low_coupling: 0.0,
            band_pass_low_coupling: 0.0,
            resonance_position: 0.0,
            resonance_index: 0,
            resonance_feedback_scale: 0.0,
            source_modulation_resonance_scale: 0.0,
            resonance_output_gain: 0.0,
        },
        mode_output_gain: 0.0,
        output: OutputControls {
            filter_common_mode: 0.0,
            volume_fraction: 0.0,
            two_voice_volume_gain_offset: 0.0,
            combined_common_mode_gain: 0.0,
            pure_bypass_common_mode_gain: 0.0,
            scaled_filter_common_mode: 0.0,
            frozen_dac_bias_mode: false,
        },
    }
}

// The outputs, then the three floats of the block after the sample.
fn has_sampled(r: &[u8], sampled: Sampled) -> bool {
    let outputs = sampled.outputs;
    let state = sampled.state;
    let given = [outputs.high, outputs.band, outputs.low, outputs.selected];
    let left = [
        state.band_state,
        state.low_state,
        state.filter_source_energy,
    ];
    has_floats(r, 76, &given) && has_floats(r, 104, &left)
}

// The block after the sample has the registers of the one before, and what it was charged with.
fn keeps_rest(r: &[u8]) -> bool {
    part(r, 92, 12) == part(r, 0, 12) && part(r, 116, 44) == part(r, 24, 44)
}
