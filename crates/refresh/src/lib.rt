// The three refresh calls of the filter, each entry of the bundle read once: what is worked out of the registers, and what is refused. The core and the run share them:
// a write judges (`judge_controls`), and what a sample reads is worked out where samples follow.
#![tactic(auto)]

ghost use Rattle.std.specs.Prelude.{◌≡◌};
ghost use Rattle.controls.specs.Controls.{refresh_filter_controls_of};
ghost use Rattle.controls.specs.Judging.{judge_filter_of};
ghost use Rattle.control.specs.Registers.{of_registers};
ghost use Rattle.refresh.specs.Refresh as R;

use answers::{Answer, Buffer, Refusal};
use control::{FilterRegisters, State};
use controls::{ControlCache, FilterControls};

// The numbers of refresh_filter_controls that a sample reads beside the tables of the operating bins.
#[repr(C)]
#[derive(Clone, Copy)]
pub struct CoreControls {
    pub damping: f32,
    pub source_gain_modulation: f32,
    pub high_pass_low_coupling: f32,
    pub band_pass_low_coupling: f32,
    pub resonance_feedback_scale: f32,
    pub source_modulation_resonance_scale: f32,
    pub resonance_output_gain: f32,
}

// What a write of the cutoff or of the resonance changes for the samples that follow.
#[derive(Clone, Copy)]
pub struct CoreRefreshed {
    pub integrator_gain: [f32; 16],
    pub core: CoreControls,
}

// ---- refresh_filter_controls

pub fn core_controls(f: FilterControls) -> CoreControls
    ensures { result ≡ R.core_controls_of f }
{
    CoreControls {
        damping: f.damping,
        source_gain_modulation: f.source_gain_modulation,
        high_pass_low_coupling: f.high_pass_low_coupling,
        band_pass_low_coupling: f.band_pass_low_coupling,
        resonance_feedback_scale: f.resonance_feedback_scale,
        source_modulation_resonance_scale: f.source_modulation_resonance_scale,
        resonance_output_gain: f.resonance_output_gain,
    }
}

// The sixteen gains of their words.
fn gains_of(words: [u32; 16]) -> [f32; 16]
    ensures { result ≡ R.gains_of words }
{
    [
        wire::f32_of(words[0]),
        wire::f32_of(words[1]),
        wire::f32_of(words[2]),
        wire::f32_of(words[3]),
        wire::f32_of(words[4]),
        wire::f32_of(words[5]),
        wire::f32_of(words[6]),
        wire::f32_of(words[7]),
        wire::f32_of(words[8]),
        wire::f32_of(words[9]),
        wire::f32_of(words[10]),
        wire::f32_of(words[11]),
        wire::f32_of(words[12]),
        wire::f32_of(words[13]),
        wire::f32_of(words[14]),
        wire::f32_of(words[15]),
    ]
}

// The part of `refresh_filter_controls` that a sample reads, but for the drives, which no register moves.
pub fn refresh_core(bundle: &[u8], cutoff: u16, resonance: u8) -> CoreRefreshed
    ensures { result ≡ R.refresh_core_of bundle.now cutoff resonance }
{
    let gains = wire::sixteen_at(bundle, bundle::integrator_gain_place(cutoff, resonance, 0));
    let damping = wire::u32_at(bundle, bundle::damping_place(resonance) as usize);
    let modulation = wire::u32_at(
        bundle,
        bundle::source_gain_modulation_place(cutoff) as usize,
    );
    let position = floats::of_u16(cutoff);
    let r = controls::resonance_part(resonance);
    CoreRefreshed {
        integrator_gain: gains_of(gains),
        core: CoreControls {
            damping: wire::f32_of(damping),
            source_gain_modulation: wire::f32_of(modulation),
            high_pass_low_coupling: controls::high_pass_low_coupling(position),
            band_pass_low_coupling: controls::band_pass_low_coupling(position),
            resonance_feedback_scale: controls::feedback_scale(r),
            source_modulation_resonance_scale: controls::modulation_scale(r),
            resonance_output_gain: controls::resonance_output_gain(r),
        },
    }
}

// All of it.
pub fn refresh_filter_controls(bundle: &[u8], cutoff: u16, resonance: u8) -> FilterControls
    ensures { result ≡ refresh_filter_controls_of bundle.now cutoff resonance }
{
    let fresh = refresh_core(bundle, cutoff, resonance);
    let integrator_gain = fresh.integrator_gain;
    let core = fresh.core;
    FilterControls {
        effective_cutoff_index: cutoff as usize,
        integrator_gain,
        input_drive: constants::input_drives(),
        feedback_drive: constants::feedback_drives(),
        damping: core.damping,
        source_gain_modulation: core.source_gain_modulation,
        high_pass_low_coupling: core.high_pass_low_coupling,
        band_pass_low_coupling: core.band_pass_low_coupling,
        resonance_position: controls::resonance_part(resonance),
        resonance_index: resonance as usize,
        resonance_feedback_scale: core.resonance_feedback_scale,
        source_modulation_resonance_scale: core.source_modulation_resonance_scale,
        resonance_output_gain: core.resonance_output_gain,
    }
}

// The entries that it reads, in the Rust's order, one by one.
fn judge_filter_places(bundle: &[u8], cutoff: u16, resonance: u8) -> Answer
    ensures { result ≡ judge_filter_of bundle.now cutoff resonance }
{
    let places = [
        bundle::integrator_gain_place(cutoff, resonance, 0),
        bundle::integrator_gain_place(cutoff, resonance, 1),
        bundle::integrator_gain_place(cutoff, resonance, 2),
        bundle::integrator_gain_place(cutoff, resonance, 3),
        bundle::integrator_gain_place(cutoff, resonance, 4),
        bundle::integrator_gain_place(cutoff, resonance, 5),
        bundle::integrator_gain_place(cutoff, resonance, 6),
        bundle::integrator_gain_place(cutoff, resonance, 7),
        bundle::integrator_gain_place(cutoff, resonance, 8),
        bundle::integrator_gain_place(cutoff, resonance, 9),
        bundle::integrator_gain_place(cutoff, resonance, 10),
        bundle::integrator_gain_place(cutoff, resonance, 11),
        bundle::integrator_gain_place(cutoff, resonance, 12),
        bundle::integrator_gain_place(cutoff, resonance, 13),
        bundle::integrator_gain_place(cutoff, resonance, 14),
        bundle::integrator_gain_place(cutoff, resonance, 15),
        bundle::damping_place(resonance),
        bundle::source_gain_modulation_place(cutoff),
    ];
    bundle::judge_places(Buffer::Bundle, bundle, &places)
}

// What it refuses, each entry judged by its word and no value made of it. In a bundle of its length no place needs a test of its own; the entries are gone through one by
// one only in another, or where one of them is unusable.
pub fn judge_filter(bundle: &[u8], cutoff: u16, resonance: u8) -> Answer
    ensures { result ≡ judge_filter_of bundle.now cutoff resonance }
{
    if bundle.len() == bundle::BYTES {
        let usable = wire::sixteen_usable(
            bundle,
            bundle::integrator_gain_place(cutoff, resonance, 0),
        ) & wire::usable_at(bundle, bundle::damping_place(resonance) as usize)
            & wire::usable_at(
                bundle,
                bundle::source_gain_modulation_place(cutoff) as usize,
            );
        if usable {
            return Ok(());
        }
    }
    judge_filter_places(bundle, cutoff, resonance)
}

// ---- refresh_mode_output_gain

// The highpass loading where the mode reads it, judged as it is read.
fn read_loading(bundle: &[u8], m: u8, effective: u16) -> Result<f32, Refusal>
    ensures { result ≡ R.read_loading_of bundle.now m effective }
{
    if m != 4 {
        return Ok(1.0);
    }
    bundle::read_entry(
        Buffer::Bundle,
        bundle,
        bundle::highpass_loading_place(effective),
    )
}

// The loading curves at a cutoff, which is the written one, judged as they are read.
fn read_directional(bundle: &[u8], m: u8, cutoff: u16, displacement: i16) -> Result<f32, Refusal>
    ensures { result ≡ R.read_directional_of bundle.now m cutoff displacement }
{
    if !response::is_single_mode(m) {
        return Ok(1.0);
    }
    let row = response::mode_index(m);
    let place = bundle::directional_power_place(row, cutoff, displacement);
    let power = bundle::read_entry(Buffer::Bundle, bundle, place)?;
    Ok(response::symmetric_gain(row as usize, cutoff) * power)
}

// Both, and the gain of the mode's output at the effective cutoff.
fn read_gain(bundle: &[u8], r: FilterRegisters, effective: u16) -> Result<f32, Refusal>
    ensures { result ≡ R.read_gain_of bundle.now r effective }
{
    let m = r.mode % 8;
    let loading = read_loading(bundle, m, effective)?;
    let directional = read_directional(bundle, m, r.cutoff, r.cutoff_dac_displacement_codes)?;
    Ok(response::filter_mode_output_gain(r.mode, r.resonance, effective, loading) * directional)
}

// `refresh_mode_output_gain`: the gain, or the refusal of an entry or of a gain that is not finite. The output's numbers are finite at
// every write (`output-finite`).
pub fn read_mode_output_gain(
    bundle: &[u8],
    r: FilterRegisters,
    effective: u16,
) -> Result<f32, Refusal>
    ensures { result ≡ R.read_mode_output_gain_of bundle.now r effective }
{
    let gain = read_gain(bundle, r, effective)?;
    answers::unless(floats::is_finite(gain), Refusal::Domain)?;
    Ok(gain)
}

// ---- all three

// The gain of a state's mode, or what its controls refuse: 3 of the filter's entries, then 3 and 6 of the gain.
pub fn judge_controls(bundle: &[u8], state: State) -> Result<f32, Refusal>
    ensures { result ≡ R.judged_of bundle.now state }
{
    judge_registers(bundle, state.registers)
}

// The same by the registers, which are all of a state that its controls are worked out from.
pub fn judge_registers(bundle: &[u8], registers: FilterRegisters) -> Result<f32, Refusal>
    ensures { result ≡ R.judged_of bundle.now (of_registers registers) }
{
    let effective = registers.effective_cutoff();
    judge_filter(bundle, effective, registers.resonance)?;
    read_mode_output_gain(bundle, registers, effective)
}

// The controls of a state, worked out afresh.
pub fn refresh(bundle: &[u8], state: State) -> Result<ControlCache, Refusal>
    ensures { result ≡ R.refresh_of bundle.now state }
{
    let mode_output_gain = judge_controls(bundle, state)?;
    let registers = state.registers;
    Ok(ControlCache {
        filter: refresh_filter_controls(bundle, registers.effective_cutoff(), registers.resonance),
        mode_output_gain,
        output: controls::refresh_register_output_state(registers),
    })
}
