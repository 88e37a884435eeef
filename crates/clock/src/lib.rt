// One tick of the chip's clock, from three voices to the argument of the output stage.
#![tactic(auto)]

ghost use Rattle.std.specs.Prelude.{◌≡◌, Ok};
ghost use Rattle.wire.specs.Wire.{put_at};
ghost use Rattle.sample.specs.Parts.{cache_of};
ghost use Rattle.clock.specs.Transients as T;
ghost use Rattle.clock.specs.Clock as C;

use answers::Refusal;
use constants::{
    FILTER_INPUT_COMMON_MODE_ONE_VOICE, FILTER_OUTPUT_GAIN, PURE_PULSE_GATE_RELAXATION_CHARGE,
    SID_OUTPUT_SCALE,
};
use controls::{ControlCache, OutputControls};
use integrator::IntegratorState;
use mixing::MixingTopology;
use refresh::CoreControls;
use sample::Sampled;
use signals::{ExternalInputState, RoutedSignals, Voices};
use transients::{SawBlends, TransientState};
use voice::VoiceSignal;

// What is left of each charge after a tick, and the part of its way that a saw settles in one.
#[derive(Clone, Copy)]
pub struct Factors {
    pub volume_fast_decay: f32,
    pub volume_slow_decay: f32,
    pub bypass_attack_decay: f32,
    pub pulse_gate_fast_decay: f32,
    pub pulse_gate_slow_decay: f32,
    pub saw_mixer_tracking: f32,
}

// Where the curves of the summer, the mixer and the volume stand in the buffer.
#[derive(Clone, Copy)]
pub struct Slots {
    pub summer: u8,
    pub mixer: u8,
    pub volume: u8,
}

// What stands still from one write to the next, beside the filter's own controls.
#[derive(Clone, Copy)]
pub struct Settings {
    pub slots: Slots,
    pub topology: MixingTopology,
    pub output: OutputControls,
    pub mode: u8,
    pub volume: u8,
    pub factors: Factors,
    pub external: ExternalInputState,
}

// What a tick gives: the output stage's argument, the charges on the output node, and the outputs of mixer and filter.
#[repr(C)]
#[derive(Clone, Copy)]
pub struct TickOutputs {
    pub stage: f32,
    pub charge: f32,
    pub mixer: f32,
    pub filter: f32,
}

impl TickOutputs {
    // Writes the sixteen bytes.
    pub fn put(self, output: &mut [u8], place: usize)
        ensures { output.new ≡ put_at output.old place (C.tick_bytes self) }
    {
        wire::put_row(
            output,
            place,
            wire::float_bits(self.stage),
            wire::float_bits(self.charge),
            wire::float_bits(self.mixer),
            wire::float_bits(self.filter),
        );
    }
}

// A tick that went, with what it leaves. One that is refused leaves all as it was.
#[derive(Clone, Copy)]
pub struct Ticked {
    pub outputs: TickOutputs,
    pub integrator: IntegratorState,
    pub transients: TransientState,
}

// The six lent numbers, valid or not.
#[tactic(auto, unfolding(crate::specs::Transients::factors_of))]
pub fn factors_of(decays: &[u8]) -> Factors
    ensures { result ≡ T.factors_of decays.now }
{
    Factors {
        volume_fast_decay: wire::f32_at(decays, 0),
        volume_slow_decay: wire::f32_at(decays, 4),
        bypass_attack_decay: wire::f32_at(decays, 8),
        pulse_gate_fast_decay: wire::f32_at(decays, 12),
        pulse_gate_slow_decay: wire::f32_at(decays, 16),
        saw_mixer_tracking: wire::f32_at(decays, 20),
    }
}

// The slots in a buffer of all 31 curves.
pub fn slots_of(topology: MixingTopology, volume: u8) -> Slots
    ensures { result ≡ C.slots_of topology volume }
{
    Slots {
        summer: sample::summer_slot(topology),
        mixer: transfers::mixer_slot(topology.mixer_input_count),
        volume: transfers::volume_slot(volume),
    }
}

// ---- the saws

fn target(signal: VoiceSignal) -> f32
    ensures { result ≡ T.target_of signal }
{
    if (signal.waveform_selection == 2) & (0.02 < signal.envelope) {
        1.0
    } else {
        0.0
    }
}

// A saw that sounds settles towards 1, any other voice towards 0.
fn tracked_blend(tracking: f32, signal: VoiceSignal, blend: f32) -> f32
    ensures { result ≡ T.tracked_blend_of tracking signal blend }
{
    blend + tracking * (target(signal) - blend)
}

#[tactic(auto, unfolding(crate::specs::Transients::tracked_blends_of))]
fn tracked_blends(tracking: f32, voices: Voices, blends: SawBlends) -> SawBlends
    ensures { result ≡ T.tracked_blends_of tracking voices blends }
{
    SawBlends {
        one: tracked_blend(tracking, voices.one, blends.one),
        two: tracked_blend(tracking, voices.two, blends.two),
        three: tracked_blend(tracking, voices.three, blends.three),
    }
}

// ---- the combined voices

fn add_combined(sum: f32, signal: VoiceSignal) -> f32
    ensures { result ≡ T.add_combined_of sum signal }
{
    if signal.combined {
        sum + signal.envelope
    } else {
        sum
    }
}

// The activity of the voices with combined waveforms, also of one that is heard nowhere. An iterator's sum starts from -0.0.
fn combined_activity(voices: Voices) -> f32
    ensures { result ≡ T.combined_activity_of voices }
{
    let one = add_combined(-0.0, voices.one);
    let two = add_combined(one, voices.two);
    add_combined(two, voices.three)
}

// ---- the charges

// A rise of the pure voices' activity beside the filter charges the node anew.
#[tactic(auto, unfolding(crate::specs::Transients::attacked_of))]
fn attacked(mut held: TransientState, bypass_mask: u8, signals: RoutedSignals) -> TransientState
    ensures { result ≡ T.attacked_of held bypass_mask signals }
{
    if bypass_mask == 0 {
        held.previous_bypass_activity = 0.0;
        return held;
    }
    let pure = signals.pure_bypass_envelope_activity;
    if held.previous_bypass_activity < pure {
        held.bypass_attack_charge = activity::attack_charge(signals.pure_bypass_attack_drive, pure);
    }
    held.previous_bypass_activity = pure;
    held
}

// A pulse whose gate has risen is heard once it sounds beside the filter at a volume above 0.
#[tactic(auto, unfolding(crate::specs::Transients::pulsed_of))]
fn pulsed(mut held: TransientState, volume: u8, fraction: f32, pulse: f32) -> TransientState
    ensures { result ≡ T.pulsed_of held volume fraction pulse }
{
    if held.pulse_gate_pending & (0.0 < pulse) & (0 < volume) {
        let charge = PURE_PULSE_GATE_RELAXATION_CHARGE * fraction;
        held.pulse_gate_fast_charge = charge;
        held.pulse_gate_slow_charge = charge;
        held.pulse_gate_pending = false;
    }
    held
}

// What the charges add to the stage's output.
#[tactic(auto, unfolding(crate::specs::Transients::node_charge_of))]
fn node_charge(held: TransientState) -> f32
    ensures { result ≡ T.node_charge_of held }
{
    held.volume_fast_charge + held.volume_slow_charge + held.pulse_gate_fast_charge
        - held.pulse_gate_slow_charge
}

#[tactic(auto, unfolding(crate::specs::Transients::decayed_of))]
fn decayed(mut held: TransientState, factors: Factors) -> TransientState
    ensures { result ≡ T.decayed_of held factors }
{
    held.volume_fast_charge *= factors.volume_fast_decay;
    held.volume_slow_charge *= factors.volume_slow_decay;
    held.bypass_attack_charge *= factors.bypass_attack_decay;
    held.pulse_gate_fast_charge *= factors.pulse_gate_fast_decay;
    held.pulse_gate_slow_charge *= factors.pulse_gate_slow_decay;
    held
}

// ---- the rest of a tick, from the core's output on

// The volume DAC's output: the operating point where all three voices stand still, else the volume's curve.
#[tactic(auto, unfolding(crate::specs::Clock::volume_stage_of))]
fn volume_stage(
    curves: &[u8],
    settings: Settings,
    voices: Voices,
    mixer: f32,
) -> Result<f32, Refusal>
    ensures { result ≡ C.volume_stage_of curves.now settings voices mixer }
{
    if frozen::configured(settings.output.frozen_dac_bias_mode, voices) {
        return Ok(frozen::frozen_dac_operating_point(settings.mode, settings.volume));
    }
    transfers::read_volume(curves, settings.slots.volume, mixer)
}

// What the voices' direct currents take from the level.
#[tactic(auto, unfolding(crate::specs::Clock::common_mode_displacement_of))]
fn common_mode_displacement(
    output: OutputControls,
    combined: f32,
    signals: RoutedSignals,
    attack: f32,
) -> f32
    ensures { result ≡ C.common_mode_displacement_of output combined signals attack }
{
    output.combined_common_mode_gain * combined
        + output.pure_bypass_common_mode_gain * signals.pure_bypass_envelope_activity
        + FILTER_INPUT_COMMON_MODE_ONE_VOICE
            * signals.filter_input_activity
            * output.volume_fraction
        + output.scaled_filter_common_mode
        + attack * output.volume_fraction
}

#[tactic(auto, unfolding(crate::specs::Clock::stage_argument_of))]
fn stage_argument(level: f32, displacement: f32, gain: f32) -> f32
    ensures { result ≡ C.stage_argument_of level displacement gain }
{
    (level - displacement) * gain * FILTER_OUTPUT_GAIN * SID_OUTPUT_SCALE
}

fn charged(settings: Settings, signals: RoutedSignals, held: TransientState) -> TransientState
    ensures { result ≡ C.charged_of settings signals held }
{
    pulsed(
        attacked(held, settings.topology.bypass_internal_mask, signals),
        settings.volume,
        settings.output.volume_fraction,
        signals.pure_pulse_envelope_activity,
    )
}

// The four numbers, where they are finite, and the transients after them.
fn clocked(
    settings: Settings,
    voices: Voices,
    signals: RoutedSignals,
    held: TransientState,
    integrator: IntegratorState,
    filter: f32,
    mixer: f32,
    level: f32,
) -> Result<Ticked, Refusal>
    ensures { result ≡ C.clocked_of settings voices signals held integrator filter mixer level }
{
    let charged = charged(settings, signals, held);
    let displacement = common_mode_displacement(
        settings.output,
        combined_activity(voices),
        signals,
        charged.bypass_attack_charge,
    );
    let gain = activity::bypass_output_gain(
        settings.topology.filter_output_count,
        signals.bypass_envelope_activity,
    );
    let stage = stage_argument(level, displacement, gain);
    let charge = node_charge(charged);
    let transients = decayed(charged, settings.factors);
    answers::unless(
        floats::is_finite(stage) & floats::is_finite(charge) & floats::is_finite(mixer),
        Refusal::Domain,
    )?;
    Ok(Ticked {
        outputs: TickOutputs {
            stage,
            charge,
            mixer,
            filter,
        },
        integrator,
        transients,
    })
}

// Whether nothing can sound beside the filter.
fn is_quiescent(settings: Settings) -> bool
    ensures { result ≡ C.is_quiescent_of settings }
{
    (settings.topology.bypass_internal_mask == 0) & (settings.external.raw == 0.0)
}

// From what the core gave: mixer and volume, each entry judged as it is read, then the rest.
fn after_core(
    curves: &[u8],
    settings: Settings,
    voices: Voices,
    signals: RoutedSignals,
    held: TransientState,
    sampled: Sampled,
) -> Result<Ticked, Refusal>
    ensures { result ≡ C.after_core_of curves.now settings voices signals held (Ok sampled) }
{
    let filter = sampled.outputs.selected;
    let sum = signals.bypass_input_sum + filter;
    let raw = transfers::read_mixer(curves, settings.slots.mixer, settings.topology, sum)?;
    let mixer = activity::mixer_output(
        is_quiescent(settings),
        signals.bypass_envelope_activity,
        settings.output.two_voice_volume_gain_offset,
        raw,
    );
    let level = volume_stage(curves, settings, voices, mixer)?;
    clocked(
        settings,
        voices,
        signals,
        held,
        sampled.state,
        filter,
        mixer,
        level,
    )
}

// ---- the tick

fn tracked(settings: Settings, voices: Voices, mut held: TransientState) -> TransientState
    ensures { result ≡ C.tracked_of settings voices held }
{
    let tracking = settings.factors.saw_mixer_tracking;
    held.saw_mixer_blend = tracked_blends(tracking, voices, held.saw_mixer_blend);
    held
}

#[tactic(auto, unfolding(crate::specs::Clock::tick_signals_of))]
fn tick_signals(settings: Settings, voices: Voices, held: TransientState) -> RoutedSignals
    ensures { result ≡ C.tick_signals_of settings voices held }
{
    RoutedSignals::collect(
        settings.topology,
        voices,
        held.saw_mixer_blend,
        settings.external,
        voice::source_resting(),
    )
}

// One tick on the parts of the controls, with the summer's rest worked out before, as `sample_from_parts` takes them.
pub fn tick_from_parts(
    curves: &[u8],
    gains: &[f32; 16],
    input_drives: &[f32; 16],
    feedback_drives: &[f32; 16],
    core: CoreControls,
    mode_output_gain: f32,
    rest: Result<f32, Refusal>,
    settings: Settings,
    integrator: IntegratorState,
    earlier: IntegratorState,
    transients: TransientState,
    voices: Voices,
) -> Result<Ticked, Refusal>
    ensures { result ≡ C.tick_from_parts_of curves.now
        (cache_of gains.now input_drives.now feedback_drives.now core mode_output_gain)
        rest settings integrator transients voices }
{
    let held = tracked(settings, voices, transients);
    let signals = tick_signals(settings, voices, held);
    answers::unless(signals.is_finite(), Refusal::Domain)?;
    let sampled = sample::sample_from_parts(
        curves,
        settings.slots.summer,
        settings.topology,
        gains,
        input_drives,
        feedback_drives,
        core,
        mode_output_gain,
        rest,
        settings.mode,
        integrator,
        earlier,
        signals.filter_input_sum,
        signals.filter_source_energy,
    )?;
    after_core(curves, settings, voices, signals, held, sampled)
}

// One tick on the controls that are handed in. A tick that leaves transients which are not finite is refused.
pub fn clock(
    bundle: &[u8],
    curves: &[u8],
    controls: ControlCache,
    settings: Settings,
    integrator: IntegratorState,
    transients: TransientState,
    voices: Voices,
) -> Result<Ticked, Refusal>
    ensures { result ≡ C.clock_of bundle.now curves.now controls settings integrator transients voices }
{
    let f = controls.filter;
    let gains = f.integrator_gain;
    let input_drives = f.input_drive;
    let feedback_drives = f.feedback_drive;
    let ticked = tick_from_parts(
        curves,
        &gains,
        &input_drives,
        &feedback_drives,
        refresh::core_controls(f),
        controls.mode_output_gain,
        sample::rest_of(bundle, settings.topology),
        settings,
        integrator,
        integrator,
        transients,
        voices,
    )?;
    answers::unless(ticked.transients.is_finite(), Refusal::Domain)?;
    Ok(ticked)
}
