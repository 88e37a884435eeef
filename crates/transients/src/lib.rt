// What the output node and the mixer still carry of earlier events (transients.rs): charges that decay, and how far each saw has settled.
#![tactic(auto)]

ghost use Rattle.std.specs.Prelude.{◌≡◌};
ghost use Rattle.response.specs.Levels.{volume_dac_conductance_code_of};
ghost use Rattle.transients.specs.Transients as T;
ghost use Rattle.transients.specs.Block as B;

use answers::{Answer, Refusal};
use constants::{
    SID_VOLUME_TRANSITION_FAST_CHARGE_FULL_SCALE, SID_VOLUME_TRANSITION_SLOW_CHARGE_FULL_SCALE,
};

// How far each voice's saw is bent at the mixer. Three names and no array: whoever reads one names its voice.
#[repr(C)]
#[derive(Clone, Copy, Default)]
pub struct SawBlends {
    pub one: f32,
    pub two: f32,
    pub three: f32,
}

impl SawBlends {
    #[tactic(auto, unfolding(crate::specs::Transients::finite_blends_of))]
    fn is_finite(self) -> bool
        ensures { result ≡ T.finite_blends_of self }
    {
        floats::finite_f32(self.one) & floats::finite_f32(self.two) & floats::finite_f32(self.three)
    }
}

// The charges that a step of the volume, an attack beside the filter and a pulse's gate leave; the conductance of the volume last written; the activity beside the
// filter at the last tick; the saws' settling; and whether a pulse's gate has risen and is still to be heard. The Rust's struct without its decays and its tracking.
#[repr(C)]
#[derive(Clone, Copy, Default)]
pub struct TransientState {
    pub volume_fast_charge: f32,
    pub volume_slow_charge: f32,
    pub bypass_attack_charge: f32,
    pub pulse_gate_fast_charge: f32,
    pub pulse_gate_slow_charge: f32,
    pub volume_conductance_code: f32,
    pub previous_bypass_activity: f32,
    pub saw_mixer_blend: SawBlends,
    pub pulse_gate_pending: bool,
}

// The conductance of a volume, the sixteen values of `response::volume_dac_conductance_code` written out, which is faster: a write of the volume is frequent where
// a digi plays.
fn conductance(volume: u8) -> f32
    ensures { result ≡ volume_dac_conductance_code_of volume }
{
    match volume % 16 {
        0 => 0.0,
        1 => 1.067_629_9,
        2 => 2.161_044_6,
        3 => 3.195_124_6,
        4 => 4.353_615,
        5 => 5.354_199,
        6 => 6.379_471,
        7 => 7.349_592,
        8 => 8.886_865,
        9 => 9.819_93,
        10 => 10.776_524,
        11 => 11.682_137,
        12 => 12.697_774,
        13 => 13.575_891,
        14 => 14.476_552,
        _ => 15.329_59,
    }
}

impl TransientState {
    // The bytes that it takes at the end of a state's block.
    pub const BYTES: usize = 44;

    pub fn new() -> Self
        ensures { result ≡ T.starting_transients }
    {
        Self::default()
    }

    // No charges, at a volume that has stood for long.
    pub fn at_volume(volume: u8) -> Self
        ensures { result ≡ T.at_volume_of volume }
    {
        Self {
            volume_conductance_code: conductance(volume),
            ..Self::new()
        }
    }

    // What a write of MODE/VOL charges: the step from the conductance before to the one of the new volume, which may be the same.
    pub fn charge(mut self, volume: u8) -> Self
        ensures { result ≡ T.charge_of self volume }
    {
        let previous = self.volume_conductance_code;
        let next = conductance(volume);
        let full = conductance(15);
        let step = (previous - next) / full;
        self.volume_fast_charge += step * SID_VOLUME_TRANSITION_FAST_CHARGE_FULL_SCALE;
        self.volume_slow_charge += step * SID_VOLUME_TRANSITION_SLOW_CHARGE_FULL_SCALE;
        self.volume_conductance_code = next;
        self
    }

    // Whether the two charges that a write moves are finite.
    #[tactic(auto, unfolding(crate::specs::Transients::finite_charges_of))]
    pub fn finite_charges(self) -> bool
        ensures { result ≡ T.finite_charges_of self }
    {
        floats::is_finite(self.volume_fast_charge) & floats::is_finite(self.volume_slow_charge)
    }

    // Whether all ten floats are finite, with no branch from one to the next.
    #[tactic(auto, unfolding(crate::specs::Transients::finite_transients_of))]
    pub fn is_finite(self) -> bool
        ensures { result ≡ T.finite_transients_of self }
    {
        (floats::finite_f32(self.volume_fast_charge)
            & floats::finite_f32(self.volume_slow_charge)
            & floats::finite_f32(self.bypass_attack_charge)
            & floats::finite_f32(self.pulse_gate_fast_charge))
            & (floats::finite_f32(self.pulse_gate_slow_charge)
                & floats::finite_f32(self.volume_conductance_code)
                & floats::finite_f32(self.previous_bypass_activity)
                & self.saw_mixer_blend.is_finite())
    }

    // Its bytes in a state's block, in stores of whole rows and words.
    pub fn bytes(self) -> [u8; 44]
        ensures { result ≡ B.transient_bytes self }
    {
        let blends = self.saw_mixer_blend;
        let mut bytes = [0; 44];
        wire::put_row(
            &mut bytes,
            0,
            wire::float_bits(self.volume_fast_charge),
            wire::float_bits(self.volume_slow_charge),
            wire::float_bits(self.bypass_attack_charge),
            wire::float_bits(self.pulse_gate_fast_charge),
        );
        wire::put_row(
            &mut bytes,
            16,
            wire::float_bits(self.pulse_gate_slow_charge),
            wire::float_bits(self.volume_conductance_code),
            wire::float_bits(self.previous_bypass_activity),
            wire::float_bits(blends.one),
        );
        wire::put_f32(&mut bytes, 32, blends.two);
        wire::put_f32(&mut bytes, 36, blends.three);
        wire::put_u32(&mut bytes, 40, self.pulse_gate_pending as u32);
        bytes
    }

    // What a state's block holds of it, valid or not.
    #[tactic(auto, unfolding(crate::specs::Block::transient_fields_of))]
    pub fn fields(block: &[u8]) -> Self
        ensures { result ≡ B.transient_fields_of block.now }
    {
        Self {
            volume_fast_charge: wire::f32_at(block, 24),
            volume_slow_charge: wire::f32_at(block, 28),
            bypass_attack_charge: wire::f32_at(block, 32),
            pulse_gate_fast_charge: wire::f32_at(block, 36),
            pulse_gate_slow_charge: wire::f32_at(block, 40),
            volume_conductance_code: wire::f32_at(block, 44),
            previous_bypass_activity: wire::f32_at(block, 48),
            saw_mixer_blend: SawBlends {
                one: wire::f32_at(block, 52),
                two: wire::f32_at(block, 56),
                three: wire::f32_at(block, 60),
            },
            pulse_gate_pending: wire::byte_at(block, 64) == 1,
        }
    }

    // Whether the last four bytes of a state's block are 0 or 1, and three zeros. Byte by byte, since a word that is not all there reads as 0.
    #[tactic(auto, unfolding(crate::specs::Block::tidy_transients_of))]
    pub fn tidy(block: &[u8]) -> bool
        ensures { result ≡ B.tidy_transients_of block.now }
    {
        (wire::byte_at(block, 64) <= 1)
            & (wire::byte_at(block, 65) == 0)
            & (wire::byte_at(block, 66) == 0)
            & (wire::byte_at(block, 67) == 0)
    }
}

// ---- the lent numbers

// The float at a place is from 0 to 1. A NaN is not, and -0.0 is.
#[tactic(auto, unfolding(crate::specs::Block::factor_at))]
fn factor_at(s: &[u8], p: usize) -> bool
    ensures { result ≡ B.factor_at s.now p }
{
    let x = wire::f32_at(s, p);
    (0.0 <= x) & (x <= 1.0)
}

// Six numbers from 0 to 1: what is left of each charge after a tick, and the part of its way that a saw settles in one. Refuses 12.
#[tactic(auto, unfolding(crate::specs::Block::judge_decays_of))]
pub fn judge_decays(decays: &[u8]) -> Answer
    ensures { result ≡ B.judge_decays_of decays.now }
{
    let factors = (0..6).all(|i| factor_at(decays, 4 * i));
    answers::unless((decays.len() == 24) & factors, Refusal::Decays)
}
