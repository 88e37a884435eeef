// The level of the output while all three waveform DACs stand still: a DC operating point, no audio.
#![tactic(auto)]

ghost use Rattle.std.specs.Prelude.{◌≡◌};
ghost use Rattle.frozen.specs.Frozen as F;

use signals::Voices;
use voice::VoiceSignal;

// A voice that stands still at all but its full envelope.
fn stands(signal: VoiceSignal) -> bool
    ensures { result ≡ F.stands_of signal }
{
    signal.frozen & (0.99 < signal.envelope)
}

// Whether the output is at the operating point: the registers are in bias mode, and each voice stands.
#[tactic(auto, unfolding(crate::specs::Frozen::configured_of))]
pub fn configured(frozen_dac_bias_mode: bool, voices: Voices) -> bool
    ensures { result ≡ F.configured_of frozen_dac_bias_mode voices }
{
    let Voices { one, two, three } = voices;
    frozen_dac_bias_mode & (stands(one) & stands(two) & stands(three))
}

// The volume about its middle, -1 to 1.
fn volume_position(volume: u8) -> f32
    ensures { result ≡ F.volume_position_of volume }
{
    (floats::of_u16(volume as u16) - 7.5) / 7.5
}

fn unit(on: bool) -> f32
    ensures { result ≡ F.unit_of on }
{
    f32::from(on)
}

fn polynomial(row: [f32; 3], x: f32) -> f32
    ensures { result ≡ F.polynomial_of row x }
{
    let [a, b, c] = row;
    a + x * (b + x * c)
}

// What each row is weighed with: 1, the mode's bits, and each pair of them multiplied.
#[tactic(auto, unfolding(crate::specs::Frozen::terms_of))]
fn terms(mode: u8) -> [f32; 11]
    ensures { result ≡ F.terms_of mode }
{
    let b0 = unit(response::bit(mode, 0));
    let b1 = unit(response::bit(mode, 1));
    let b2 = unit(response::bit(mode, 2));
    let b3 = unit(response::bit(mode, 3));
    [
        1.0,
        b0,
        b1,
        b2,
        b3,
        b0 * b1,
        b0 * b2,
        b0 * b3,
        b1 * b2,
        b1 * b3,
        b2 * b3,
    ]
}

// The point: a polynomial in the volume for each term in the mode's bits. An iterator's sum starts from -0.0. By index, since the check
// finds no proof of a `zip`, a `map` and a `sum`.
pub fn frozen_dac_operating_point(mode: u8, volume: u8) -> f32
    ensures { result ≡ F.frozen_dac_operating_point_of mode volume }
{
    let rows = constants::frozen_dac_polynomial();
    let terms = terms(mode);
    let x = volume_position(volume);
    let mut sum = -0.0f32;
    for i in 0..11 {
        sum += terms[i] * polynomial(rows[i], x);
    }
    sum
}
