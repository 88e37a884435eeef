// The lower layers' functions under C names, for oracle/compare to set beside the Rust's. No product links this.
#![tactic(auto)]

mod calls;
mod cores;
mod replies;
mod steps;
mod surface;

ghost use Rattle.std.specs.Prelude.{◌≡◌};
ghost use Rattle.integrator.specs.Integrator.{saturate_of, advance_of};
ghost use Rattle.response.specs.Levels.{normalise_voltage_of, volume_dac_conductance_code_of, filter_output_common_mode_of};
ghost use Rattle.response.specs.Position.{operating_position_of};
ghost use Rattle.response.specs.Gain.{filter_mode_output_gain_of, symmetric_gain_of};
ghost use Rattle.mixing.specs.Line.{line_of};
ghost use Rattle.mixing.specs.Topology.{topology_of};
ghost use Rattle.wire.specs.Wire.{put_at};
ghost use Rattle.control.specs.Block.{decode_of};
ghost use Rattle.refresh.specs.Refresh.{no_controls, refresh_of};
ghost use Rattle.script.specs.Script.{check_script_of};
ghost use Rattle.filter.specs.Core.{no_outputs};
ghost use Rattle.probe.specs.Probe.{no_state, state_or, controls_or, write_of, written_of, effective_of, script_reply_of};

use control::State;
use controls::{ControlCache, FilterControls, OutputControls};
use integrator::{Advanced, Coefficients, IntegratorState};
use mixing::MixingTopology;
use response::TablePosition;
use sample::Outputs;

#[unsafe(no_mangle)]
pub extern "C" fn probe_saturate(value: f32, drive: f32) -> f32
    ensures { result ≡ saturate_of value drive }
{
    IntegratorState::saturate(value, drive)
}

#[unsafe(no_mangle)]
pub extern "C" fn probe_advance(
    state: IntegratorState,
    driven_input: f32,
    k: Coefficients,
) -> Advanced
    ensures { result ≡ advance_of state driven_input k }
{
    state.advance(driven_input, k)
}

#[unsafe(no_mangle)]
pub extern "C" fn probe_normalise_voltage(voltage: f32) -> f32
    ensures { result ≡ normalise_voltage_of voltage }
{
    response::normalise_voltage(voltage)
}

#[unsafe(no_mangle)]
pub extern "C" fn probe_operating_position(input: f32, band: f32, low: f32) -> TablePosition
    ensures { result ≡ operating_position_of input band low }
{
    response::operating_position(input, band, low)
}

#[unsafe(no_mangle)]
pub extern "C" fn probe_conductance_code(volume: u8) -> f32
    ensures { result ≡ volume_dac_conductance_code_of volume }
{
    response::volume_dac_conductance_code(volume)
}

#[unsafe(no_mangle)]
pub extern "C" fn probe_common_mode(mode: u8, cutoff: u16) -> f32
    ensures { result ≡ filter_output_common_mode_of mode cutoff }
{
    response::filter_output_common_mode(mode, cutoff)
}

#[unsafe(no_mangle)]
pub extern "C" fn probe_mode_gain(mode: u8, resonance: u8, cutoff: u16, loading: f32) -> f32
    ensures { result ≡ filter_mode_output_gain_of mode resonance cutoff loading }
{
    response::filter_mode_output_gain(mode, resonance, cutoff, loading)
}

#[unsafe(no_mangle)]
pub extern "C" fn probe_symmetric_gain(mode_index: usize, cutoff: u16) -> f32
    ensures { result ≡ symmetric_gain_of mode_index cutoff }
{
    response::symmetric_gain(mode_index, cutoff)
}

#[unsafe(no_mangle)]
pub extern "C" fn probe_topology(routing: u8, mode: u8) -> MixingTopology
    ensures { result ≡ topology_of routing mode }
{
    MixingTopology::update(routing, mode)
}

// The topology's line, into the lent bytes where they hold it.
#[unsafe(no_mangle)]
pub extern "C" fn probe_line(routing: u8, mode: u8, out: &mut [u8])
    ensures { out.new ≡ put_at out.old 0 (line_of routing mode) }
{
    let text = mixing::line(routing, mode);
    wire::put(out, 0, &text);
}

// ---- a state's block and a script

// The effective cutoff of a valid block, and 65,535 for any other.
#[unsafe(no_mangle)]
pub extern "C" fn probe_effective_cutoff(block: &[u8]) -> u16
    ensures { result ≡ effective_of (decode_of block.now) }
{
    match State::decode(block) {
        Some(state) => state.effective_cutoff(),
        None => 65535,
    }
}

// By the register's number: C has no other name for it.
#[tactic(auto, unfolding(crate::specs::Probe::write_of))]
fn write(state: State, register: u8, value: u8) -> State
    ensures { result ≡ write_of state register value }
{
    match register {
        0 => state.write_cutoff_low(value),
        1 => state.write_cutoff_high(value),
        2 => state.write_signal_routing(value),
        3 => state.write_mode_and_volume(value),
        _ => state.reset(),
    }
}

// A valid block after a write of a register, 0 to 3, or a reset; an invalid one stays.
#[unsafe(no_mangle)]
pub extern "C" fn probe_write(block: &mut [u8], register: u8, value: u8)
    ensures { block.new ≡ written_of (decode_of block.old) block.old register value }
{
    if let Some(state) = State::decode(block) {
        write(state, register, value).encode(block);
    }
}

// The state of a valid block, and the starting value for any other.
fn state_or(block: &[u8]) -> State
    ensures { result ≡ state_or (decode_of block.now) }
{
    State::decode(block).unwrap_or(State::new())
}

// Zeros, which stand where a sample or the controls are refused.
fn no_outputs() -> Outputs
    ensures { result ≡ no_outputs }
{
    Outputs {
        high: 0.0,
        band: 0.0,
        low: 0.0,
        selected: 0.0,
    }
}

fn no_state() -> IntegratorState
    ensures { result ≡ no_state }
{
    IntegratorState {
        band_state: 0.0,
        low_state: 0.0,
        filter_source_energy: 0.0,
    }
}

fn no_controls() -> ControlCache
    ensures { result ≡ no_controls }
{
    ControlCache {
        filter: FilterControls {
            effective_cutoff_index: 0,
            integrator_gain: [0.0; 16],
            input_drive: [0.0; 16],
            feedback_drive: [0.0; 16],
            damping: 0.0,
            source_gain_modulation: 0.0,
            high_pass_low_coupling: 0.0,
            band_pass_low_coupling: 0.0,
            resonance_position: 0.0,
            resonance_index: 0,
            resonance_feedback_scale: 0.0,
            source_modulation_resonance_scale: 0.0,
            resonance_output_gain: 0.0,
        },
        mode_output_gain: 0.0,
        output: OutputControls {
            filter_common_mode: 0.0,
            volume_fraction: 0.0,
            two_voice_volume_gain_offset: 0.0,
            combined_common_mode_gain: 0.0,
            pure_bypass_common_mode_gain: 0.0,
            scaled_filter_common_mode: 0.0,
            frozen_dac_bias_mode: false,
        },
    }
}

fn controls_or(bundle: &[u8], state: State) -> ControlCache
    ensures { result ≡ controls_or (refresh_of bundle.now state) }
{
    refresh::refresh(bundle, state).unwrap_or(no_controls())
}

// The controls of a valid block's state, and of the starting value for any other; zeros where they are refused.
#[unsafe(no_mangle)]
pub extern "C" fn probe_controls(bundle: &[u8], block: &[u8]) -> ControlCache
    ensures { result ≡ controls_or (refresh_of bundle.now (state_or (decode_of block.now))) }
{
    controls_or(bundle, state_or(block))
}

// What the check of a script answers.
#[repr(C)]
#[derive(Clone, Copy)]
pub struct Script {
    pub refused: bool,
    pub events: usize,
    pub samples: usize,
}

#[unsafe(no_mangle)]
pub extern "C" fn probe_script(script: &[u8]) -> Script
    ensures { result ≡ script_reply_of (check_script_of script.now) }
{
    match script::check_script(script) {
        Ok(checked) => Script {
            refused: false,
            events: checked.events,
            samples: checked.samples,
        },
        Err(_) => Script {
            refused: true,
            events: 0,
            samples: 0,
        },
    }
}
