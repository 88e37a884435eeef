// What the voices beside the filter do to the mixer and to the output, by their activity: the sum of their envelopes.
#![tactic(auto)]

ghost use Rattle.std.specs.Prelude.{◌≡◌};
ghost use Rattle.activity.specs.Activity as T;

use constants::{
    FILTER_BYPASS_ACTIVITY_LINEAR_GAIN, FILTER_BYPASS_ACTIVITY_QUADRATIC_GAIN,
    PURE_BYPASS_ATTACK_COMMON_MODE_ONE_VOICE, PURE_BYPASS_ATTACK_COMMON_MODE_SCALE,
    PURE_BYPASS_ATTACK_COMMON_MODE_THREE_VOICE_DELTA,
    PURE_BYPASS_ATTACK_COMMON_MODE_TWO_VOICE_DELTA, PURE_BYPASS_OUTPUT_COMMON_MODE,
    SID_MIXER_THREE_VOICE_ACTIVITY_LIFT, SID_MIXER_TWO_VOICE_ACTIVITY_LOAD,
};

// How far two voices sound: 1 at an activity of 2, 0 from 1 down and from 3 up.
#[tactic(auto, unfolding(crate::specs::Activity::two_voice_activity_of))]
fn two_voice_activity(activity: f32) -> f32
    ensures { result ≡ T.two_voice_activity_of activity }
{
    floats::clamp(1.0 - (activity - 2.0) * (activity - 2.0), 0.0, 1.0)
}

// How far a third sounds: 0 up to an activity of 2, 1 from 3 on.
#[tactic(auto, unfolding(crate::specs::Activity::three_voice_activity_of))]
fn three_voice_activity(activity: f32) -> f32
    ensures { result ≡ T.three_voice_activity_of activity }
{
    floats::clamp(activity - 2.0, 0.0, 1.0)
}

// ---- the mixer

#[tactic(auto, unfolding(crate::specs::Activity::mixer_activity_gain_of))]
fn mixer_activity_gain(activity: f32) -> f32
    ensures { result ≡ T.mixer_activity_gain_of activity }
{
    1.0 - SID_MIXER_TWO_VOICE_ACTIVITY_LOAD * two_voice_activity(activity)
        + SID_MIXER_THREE_VOICE_ACTIVITY_LIFT * three_voice_activity(activity)
}

#[tactic(auto, unfolding(crate::specs::Activity::two_voice_volume_gain_of))]
fn two_voice_volume_gain(activity: f32, offset: f32) -> f32
    ensures { result ≡ T.two_voice_volume_gain_of activity offset }
{
    1.0 + two_voice_activity(activity) * offset
}

// The mixer's output under the load of its voices. Where nothing can sound beside the filter it is left as it is.
#[tactic(auto, unfolding(crate::specs::Activity::mixer_output_of))]
pub fn mixer_output(quiescent: bool, activity: f32, offset: f32, raw: f32) -> f32
    ensures { result ≡ T.mixer_output_of quiescent activity offset raw }
{
    if quiescent {
        raw
    } else {
        let rest = response::filter_mode_quiescent_level();
        rest + (raw - rest)
            * mixer_activity_gain(activity)
            * two_voice_volume_gain(activity, offset)
    }
}

// ---- the output

// The gain behind the volume DAC, for a count of outputs that the mode selects.
#[tactic(auto, unfolding(crate::specs::Activity::bypass_output_gain_of))]
pub fn bypass_output_gain(outputs: usize, activity: f32) -> f32
    ensures { result ≡ T.bypass_output_gain_of outputs activity }
{
    if outputs == 0 {
        1.0 + FILTER_BYPASS_ACTIVITY_LINEAR_GAIN * activity
            - FILTER_BYPASS_ACTIVITY_QUADRATIC_GAIN * activity * activity
    } else {
        1.0
    }
}

// ---- an attack

#[tactic(auto, unfolding(crate::specs::Activity::load_coefficient_of))]
fn load_coefficient(pure: f32) -> f32
    ensures { result ≡ T.load_coefficient_of pure }
{
    PURE_BYPASS_ATTACK_COMMON_MODE_ONE_VOICE
        + PURE_BYPASS_ATTACK_COMMON_MODE_TWO_VOICE_DELTA * two_voice_activity(pure)
        + PURE_BYPASS_ATTACK_COMMON_MODE_THREE_VOICE_DELTA * three_voice_activity(pure)
}

// The library's `max` promises either zero of two.
fn max_zero(x: f32) -> f32
    ensures { result ≡ T.max_zero_of x }
{
    if 0.0 < x { x } else { 0.0 }
}

// The charge that a rise of the pure voices' activity leaves, by their drive.
#[tactic(auto, unfolding(crate::specs::Activity::attack_charge_of))]
pub fn attack_charge(drive: f32, pure: f32) -> f32
    ensures { result ≡ T.attack_charge_of drive pure }
{
    PURE_BYPASS_OUTPUT_COMMON_MODE
        * drive
        * max_zero(load_coefficient(pure))
        * PURE_BYPASS_ATTACK_COMMON_MODE_SCALE
}
