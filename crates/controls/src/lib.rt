// What is kept of the registers for the samples that follow: its fields, the formulas of the three refresh calls, and the test that every number is finite.
#![tactic(auto)]

ghost use Rattle.std.specs.Prelude.{◌≡◌};
ghost use Rattle.controls.specs.Controls as C;
ghost use Rattle.controls.specs.Judging as J;

use control::FilterRegisters;

// What `refresh_filter_controls` works out at the effective cutoff and the resonance.
#[repr(C)]
#[derive(Clone, Copy, Debug, PartialEq)]
pub struct FilterControls {
    pub effective_cutoff_index: usize,
    pub integrator_gain: [f32; 16],
    pub input_drive: [f32; 16],
    pub feedback_drive: [f32; 16],
    pub damping: f32,
    pub source_gain_modulation: f32,
    pub high_pass_low_coupling: f32,
    pub band_pass_low_coupling: f32,
    pub resonance_position: f32,
    pub resonance_index: usize,
    pub resonance_feedback_scale: f32,
    pub source_modulation_resonance_scale: f32,
    pub resonance_output_gain: f32,
}

// What `refresh_register_output_state` works out.
#[repr(C)]
#[derive(Clone, Copy, Debug, PartialEq)]
pub struct OutputControls {
    pub filter_common_mode: f32,
    pub volume_fraction: f32,
    pub two_voice_volume_gain_offset: f32,
    pub combined_common_mode_gain: f32,
    pub pure_bypass_common_mode_gain: f32,
    pub scaled_filter_common_mode: f32,
    pub frozen_dac_bias_mode: bool,
}

// The Rust's `ControlCache`, its fields grouped by the call that works them out.
#[repr(C)]
#[derive(Clone, Copy, Debug, PartialEq)]
pub struct ControlCache {
    pub filter: FilterControls,
    pub mode_output_gain: f32,
    pub output: OutputControls,
}

// ---- refresh_filter_controls: the numbers that follow from the effective cutoff or the resonance alone

// How much of the low-pass output leaks into high: less at a higher cutoff.
pub fn high_pass_low_coupling(position: f32) -> f32
    ensures { result ≡ C.high_pass_low_coupling_of position }
{
    constants::FILTER_HIGHPASS_LOW_COUPLING_ZERO
        / (1.0 + position / constants::FILTER_HIGHPASS_LOW_COUPLING_DECAY)
}

// How much of the low-pass output leaks into band: none at cutoff 0, more at a higher one.
pub fn band_pass_low_coupling(position: f32) -> f32
    ensures { result ≡ C.band_pass_low_coupling_of position }
{
    let square = position * position;
    constants::FILTER_BANDPASS_LOW_COUPLING_MAX * square
        / (square
            + constants::FILTER_BANDPASS_LOW_COUPLING_KNEE
                * constants::FILTER_BANDPASS_LOW_COUPLING_KNEE)
}

// The resonance as a part of the highest, 15.
pub fn resonance_part(resonance: u8) -> f32
    ensures { result ≡ C.resonance_part_of resonance }
{
    floats::of_u16(resonance as u16) / 15.0
}

// How much the resonance scales the drive of the feedback.
pub fn feedback_scale(r: f32) -> f32
    ensures { result ≡ C.feedback_scale_of r }
{
    0.78 + 0.30 * r
}

// How much the resonance scales the source's load on the pole: least at no resonance.
pub fn modulation_scale(r: f32) -> f32
    ensures { result ≡ C.modulation_scale_of r }
{
    constants::FILTER_SOURCE_RESONANCE_FLOOR
        + (1.0 - constants::FILTER_SOURCE_RESONANCE_FLOOR) * r * r
}

// The gain that the resonance gives the filter's output: 1 up to resonance 8, most from 15 on.
pub fn resonance_output_gain(r: f32) -> f32
    ensures { result ≡ C.resonance_output_gain_of (C.lift_position_of r) }
{
    let lift = floats::clamp((r - 8.0 / 15.0) / (7.0 / 15.0), 0.0, 1.0);
    1.0 + constants::SID_RESONANCE_OUTPUT_LIFT * lift * lift
}

// ---- refresh_register_output_state

// What the output stage takes from the registers alone.
#[tactic(auto, unfolding(crate::specs::Controls::refresh_register_output_state_of))]
pub fn refresh_register_output_state(r: FilterRegisters) -> OutputControls
    ensures { result ≡ C.refresh_register_output_state_of r }
{
    let common = response::filter_output_common_mode(r.mode, r.cutoff);
    let volume = floats::of_u16(r.volume as u16);
    let fraction = volume / 15.0;
    OutputControls {
        filter_common_mode: common,
        volume_fraction: fraction,
        two_voice_volume_gain_offset: constants::SID_MIXER_TWO_VOICE_VOLUME_GAIN_AT_CODE_9 - 1.0
            + constants::SID_MIXER_TWO_VOICE_VOLUME_GAIN_PER_CODE * (volume - 9.0),
        combined_common_mode_gain: constants::COMBINED_OUTPUT_COMMON_MODE * fraction,
        pure_bypass_common_mode_gain: constants::PURE_BYPASS_OUTPUT_COMMON_MODE * fraction,
        scaled_filter_common_mode: common * fraction,
        frozen_dac_bias_mode: (r.cutoff == 2047) & (r.resonance == 0) & (r.routing == 3),
    }
}

// ---- the finite domain

// With no way out of the loop, as `all` has one: a number costs no branch.
fn all_finite(values: &[f32]) -> bool
    ensures { result ≡ J.all_finite values.now }
{
    let mut all = true;
    for &x in values {
        all = all & floats::is_finite(x);
    }
    all
}

// The numbers of refresh_register_output_state.
#[tactic(auto, unfolding(crate::specs::Judging::finite_output_of))]
pub fn finite_output(o: OutputControls) -> bool
    ensures { result ≡ J.finite_output_of o }
{
    let values = [
        o.filter_common_mode,
        o.volume_fraction,
        o.two_voice_volume_gain_offset,
        o.combined_common_mode_gain,
        o.pure_bypass_common_mode_gain,
        o.scaled_filter_common_mode,
    ];
    all_finite(&values)
}

// The numbers of refresh_filter_controls.
#[tactic(auto, unfolding(crate::specs::Judging::finite_filter_of))]
pub fn finite_filter(f: FilterControls) -> bool
    ensures { result ≡ J.finite_filter_of f }
{
    let values = [
        f.damping,
        f.source_gain_modulation,
        f.high_pass_low_coupling,
        f.band_pass_low_coupling,
        f.resonance_position,
        f.resonance_feedback_scale,
        f.source_modulation_resonance_scale,
        f.resonance_output_gain,
    ];
    all_finite(&f.integrator_gain)
        & all_finite(&f.input_drive)
        & all_finite(&f.feedback_drive)
        & all_finite(&values)
}

#[tactic(auto, unfolding(crate::specs::Judging::finite_controls_of))]
pub fn finite_controls(c: ControlCache) -> bool
    ensures { result ≡ J.finite_controls_of c }
{
    finite_filter(c.filter) & floats::is_finite(c.mode_output_gain) & finite_output(c.output)
}
