// A list of events on the core, each on the core that the last one handed back, under a C name for oracle/compare. What it writes is not stated: it is
// proved to end, to stay in its buffers and to be total. No product links this.
#![tactic(auto)]

ghost use Rattle.std.specs.Prelude.{◌≡◌, ◌≤◌, length};

use answers::Refusal;
use control::State;
use controls::{ControlCache, FilterControls, OutputControls};
use filter::Core;
use mixing::MixingTopology;
use sample::Outputs;

// The event at a place of a script, and 7 where there is none. The crate probe has the same, and the zeros below: it exports C names, so neither can use the other.
fn feed_at(
    bundle: &[u8],
    curves: &[u8],
    decays: &[u8],
    core: &mut Core,
    script: &[u8],
    place: usize,
) -> Result<Option<Outputs>, Refusal> {
    let event = script::event_at(script, place).ok_or(Refusal::Script)?;
    core.feed(bundle, curves, decays, event)
}

// Zeros, which stand in the row of a refused start where its controls are refused.
fn no_controls() -> ControlCache {
    ControlCache {
        filter: FilterControls {
            effective_cutoff_index: 0,
            integrator_gain: [0.0; 16],
            input_drive: [0.0; 16],
            feedback_drive: [0.0; 16],
            damping: 0.0,
            source_gain_modulation: 0.0,
            high_pass_low_coupling: 0.0,
            band_pass_low_coupling: 0.0,
            resonance_position: 0.0,
            resonance_index: 0,
            resonance_feedback_scale: 0.0,
            source_modulation_resonance_scale: 0.0,
            resonance_output_gain: 0.0,
        },
        mode_output_gain: 0.0,
        output: OutputControls {
            filter_common_mode: 0.0,
            volume_fraction: 0.0,
            two_voice_volume_gain_offset: 0.0,
            combined_common_mode_gain: 0.0,
            pure_bypass_common_mode_gain: 0.0,
            scaled_filter_common_mode: 0.0,
            frozen_dac_bias_mode: false,
        },
    }
}

// The core of a state whose start is refused: the list goes on from it.
fn refused_core(bundle: &[u8], state: State) -> Core {
    Core {
        state,
        topology: filter::fresh_topology(state),
        controls: refresh::refresh(bundle, state).unwrap_or(no_controls()),
    }
}

// ---- rows: 108 words that follow an event

// Each part stands at a place of its own, which is below the bound that it asks, and is written where it fits whole. A place that moved on with what is written
// would be no plainer: its bound would stand at every word.

// A count, and 65,536 for any that is larger.
fn word(n: usize) -> u32 {
    n.min(65536) as u32
}

fn put_floats(out: &mut [u8], at: usize, a: f32, b: f32, c: f32, d: f32) {
    wire::put_row(
        out,
        at,
        wire::float_bits(a),
        wire::float_bits(b),
        wire::float_bits(c),
        wire::float_bits(d),
    );
}

fn put_flags(out: &mut [u8], at: usize, [a, b, c, d]: [bool; 4]) {
    wire::put_row(out, at, a as u32, b as u32, c as u32, d as u32);
}

fn put_sixteen(out: &mut [u8], at: usize, x: [f32; 16])
    requires { at ≤ 1000000000 }
{
    for i in 0..4 {
        let j = 4 * i;
        put_floats(out, at + 4 * j, x[j], x[j + 1], x[j + 2], x[j + 3]);
    }
}

fn put_state(out: &mut [u8], at: usize, s: State) {
    let mut block = [0u8; 68];
    s.encode(&mut block);
    wire::put(out, at, &block);
}

// Eight flags, then nine words.
fn put_members(out: &mut [u8], at: usize, t: MixingTopology)
    requires { at ≤ 1000000000 }
{
    put_flags(out, at, t.filter_membership);
    put_flags(out, at + 16, t.bypass_membership);
}

fn put_counts(out: &mut [u8], at: usize, t: MixingTopology) {
    wire::put_row(
        out,
        at,
        word(t.filter_input_count),
        word(t.bypass_input_count),
        word(t.filter_output_count),
        word(t.mixer_input_count),
    );
}

fn put_reciprocals(out: &mut [u8], at: usize, t: MixingTopology)
    requires { at ≤ 1000000000 }
{
    wire::put_f32(out, at, t.filter_input_reciprocal);
    wire::put_f32(out, at + 4, t.summer_input_reciprocal);
    wire::put_f32(out, at + 8, t.mixer_input_reciprocal);
    wire::put_u32(out, at + 12, t.filter_internal_mask as u32);
    wire::put_u32(out, at + 16, t.bypass_internal_mask as u32);
}

fn put_topology(out: &mut [u8], at: usize, t: MixingTopology)
    requires { at ≤ 900000000 }
{
    put_members(out, at, t);
    put_counts(out, at + 32, t);
    put_reciprocals(out, at + 48, t);
}

// Forty-eight words, then ten.
fn put_tables(out: &mut [u8], at: usize, f: FilterControls)
    requires { at ≤ 900000000 }
{
    put_sixteen(out, at, f.integrator_gain);
    put_sixteen(out, at + 64, f.input_drive);
    put_sixteen(out, at + 128, f.feedback_drive);
}

fn put_scales(out: &mut [u8], at: usize, f: FilterControls)
    requires { at ≤ 900000000 }
{
    wire::put_f32(out, at, f.resonance_position);
    wire::put_u32(out, at + 4, word(f.resonance_index));
    wire::put_f32(out, at + 8, f.resonance_feedback_scale);
    wire::put_f32(out, at + 12, f.source_modulation_resonance_scale);
    wire::put_f32(out, at + 16, f.resonance_output_gain);
}

fn put_filter(out: &mut [u8], at: usize, f: FilterControls)
    requires { at ≤ 800000000 }
{
    wire::put_u32(out, at, word(f.effective_cutoff_index));
    put_tables(out, at + 4, f);
    put_floats(
        out,
        at + 196,
        f.damping,
        f.source_gain_modulation,
        f.high_pass_low_coupling,
        f.band_pass_low_coupling,
    );
    put_scales(out, at + 212, f);
}

// Seven words.
fn put_output(out: &mut [u8], at: usize, o: OutputControls)
    requires { at ≤ 1000000000 }
{
    put_floats(
        out,
        at,
        o.filter_common_mode,
        o.volume_fraction,
        o.two_voice_volume_gain_offset,
        o.combined_common_mode_gain,
    );
    wire::put_f32(out, at + 16, o.pure_bypass_common_mode_gain);
    wire::put_f32(out, at + 20, o.scaled_filter_common_mode);
    wire::put_u32(out, at + 24, o.frozen_dac_bias_mode as u32);
}

// What an event answers, and zeros for the outputs where it hands none out.
fn put_told(out: &mut [u8], at: usize, told: Result<Option<Outputs>, Refusal>)
    requires { at ≤ 1000000000 }
{
    let answer = answers::report(told.and(Ok(())));
    wire::put_row(out, at, answer.number, answer.buffer, answer.place, 0);
    match told {
        Ok(Some(o)) => put_floats(out, at + 16, o.high, o.band, o.low, o.selected),
        _ => put_floats(out, at + 16, 0.0, 0.0, 0.0, 0.0),
    }
}

fn put_core(out: &mut [u8], at: usize, k: Core)
    requires { at ≤ 700000000 }
{
    put_state(out, at, k.state);
    put_topology(out, at + 68, k.topology);
    put_filter(out, at + 136, k.controls.filter);
    wire::put_f32(out, at + 368, k.controls.mode_output_gain);
    put_output(out, at + 372, k.controls.output);
}

// The row of an event: what it answers, and the core after it.
fn put_fed(out: &mut [u8], at: usize, told: Result<Option<Outputs>, Refusal>, core: Core)
    requires { at ≤ 600000000 }
{
    put_told(out, at, told);
    put_core(out, at + 32, core);
}

// The events that a script has room for, at most 65,536.
fn events(script: &[u8]) -> usize
    ensures { result ≤ 65536 }
{
    (script.len() / 12).min(65536)
}

// The events of a script on the core of a block's state, and after each its row; the row of the start stands first. A refused event hands the
// core back that it took, and the list goes on.
#[unsafe(no_mangle)]
pub extern "C" fn probe_cores(
    bundle: &[u8],
    curves: &[u8],
    decays: &[u8],
    block: &[u8],
    script: &[u8],
    out: &mut [u8],
)
    ensures { length out.new ≡ length out.old }
{
    let state = State::decode(block).unwrap_or(State::new());
    let (started, mut core) = match Core::start(bundle, curves, decays, state) {
        Ok(core) => (Ok(None), core),
        Err(refusal) => (Err(refusal), refused_core(bundle, state)),
    };
    put_fed(out, 0, started, core);
    for i in 0..events(script) {
        let told = feed_at(bundle, curves, decays, &mut core, script, 8 + 12 * i);
        put_fed(out, 432 * (i + 1), told, core);
    }
}
