// A voice as the waveform and envelope DACs hand it over: its 12 bytes, and its level at the filter's summer and at the mixer.
#![tactic(auto)]

ghost use Rattle.std.specs.Prelude.{◌≡◌};
ghost use Rattle.voice.specs.Voice.{voice_at, valid_voice_at};
ghost use Rattle.voice.specs.Levels.{source_resting_of, filter_voice_signal_of, mixer_waveform_of, mixer_voice_signal_of};

// The levels of the two DACs, the number of the selected waveforms, whether they are a combination, and whether the waveform DAC stands still.
#[derive(Clone, Copy, Debug, PartialEq)]
pub struct VoiceSignal {
    pub waveform: f32,
    pub envelope: f32,
    pub waveform_selection: u8,
    pub combined: bool,
    pub frozen: bool,
}

// ---- its bytes

// The voice whose bytes begin at a place, valid or not. What is not there reads as 0.
#[tactic(auto, unfolding(crate::specs::Voice::voice_at))]
pub fn voice_at(s: &[u8], place: u32) -> VoiceSignal
    ensures { result ≡ voice_at s.now place }
{
    let p = place as usize;
    VoiceSignal {
        waveform: wire::f32_at(s, p),
        envelope: wire::f32_at(s, p + 4),
        waveform_selection: wire::byte_at(s, p + 8),
        combined: wire::byte_at(s, p + 9) == 1,
        frozen: wire::byte_at(s, p + 10) == 1,
    }
}

// Whether they are a voice's: the floats finite, the selection at most 15, the flags 0 or 1, the last byte zero.
#[tactic(auto, unfolding(crate::specs::Voice::valid_voice_at))]
pub fn valid_voice_at(s: &[u8], place: u32) -> bool
    ensures { result ≡ valid_voice_at s.now place }
{
    let p = place as usize;
    (wire::finite_at(s, p) & wire::finite_at(s, p + 4))
        & ((wire::byte_at(s, p + 8) <= 15)
            & (wire::byte_at(s, p + 9) <= 1)
            & (wire::byte_at(s, p + 10) <= 1)
            & (wire::byte_at(s, p + 11) == 0))
}

// ---- its levels

// The level of a voice at rest.
#[tactic(auto, unfolding(crate::specs::Levels::source_resting_of))]
pub fn source_resting() -> f32
    ensures { result ≡ source_resting_of }
{
    response::normalise_voltage(constants::SID_VOICE_BASE_VOLTS)
}

// The level at the filter's summer.
#[tactic(auto, unfolding(crate::specs::Levels::filter_voice_signal_of))]
pub fn filter_voice_signal(signal: VoiceSignal) -> f32
    ensures { result ≡ filter_voice_signal_of signal }
{
    let voltage = constants::SID_VOICE_BASE_VOLTS
        + signal.waveform * signal.envelope * constants::SID_VOICE_AC_VOLTS
        + signal.envelope * constants::SID_VOICE_ENVELOPE_BIAS_VOLTS;
    response::normalise_voltage(voltage)
}

// The waveform as the mixer hears it: a saw, selection 2, is bent as far as its blend goes.
#[tactic(auto, unfolding(crate::specs::Levels::mixer_waveform_of))]
fn mixer_waveform(signal: VoiceSignal, saw_blend: f32) -> f32
    ensures { result ≡ mixer_waveform_of signal saw_blend }
{
    let waveform = signal.waveform;
    if signal.waveform_selection == 2 {
        let settled = constants::PURE_SAW_MIXER_LINEAR * waveform
            + constants::PURE_SAW_MIXER_QUADRATIC * waveform * waveform;
        waveform + saw_blend * (settled - waveform)
    } else {
        waveform
    }
}

// The level at the mixer.
#[tactic(auto, unfolding(crate::specs::Levels::mixer_voice_signal_of))]
pub fn mixer_voice_signal(signal: VoiceSignal, saw_blend: f32) -> f32
    ensures { result ≡ mixer_voice_signal_of signal saw_blend }
{
    let voltage = constants::SID_VOICE_BASE_VOLTS
        + mixer_waveform(signal, saw_blend)
            * signal.envelope
            * constants::SID_VOICE_AC_VOLTS
            * constants::SID_MIXER_VOICE_AC_GAIN
        + signal.envelope * constants::SID_VOICE_ENVELOPE_BIAS_VOLTS;
    response::normalise_voltage(voltage)
}
