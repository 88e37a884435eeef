// What the voices and the external input give the filter and the mixer: eight sums.
#![tactic(auto)]

ghost use Rattle.std.specs.Prelude.{◌≡◌, ◌<◌, ◌≤◌, length, IsTrue, MatchBool};
ghost use Rattle.signals.specs.Signals as S;
ghost use Rattle.signals.specs.Lent.{voices_of, valid_voices_of, external_of, blends_of, finite_numbers_of};
ghost use Rattle.signals.specs.Collecting as C;

use answers::{Answer, Refusal};
use mixing::MixingTopology;
use transients::SawBlends;
use voice::VoiceSignal;

// The sums, each from 0.0 on: of what the filter takes the levels, the energy and the envelopes; of what goes beside it the levels and the envelopes, and of
// the pure voices there the envelopes, the attack drives and the envelopes of the pulses.
#[derive(Clone, Copy, Default)]
pub struct RoutedSignals {
    pub filter_input_sum: f32,
    pub filter_source_energy: f32,
    pub filter_input_activity: f32,
    pub bypass_input_sum: f32,
    pub bypass_envelope_activity: f32,
    pub pure_bypass_envelope_activity: f32,
    pub pure_bypass_attack_drive: f32,
    pub pure_pulse_envelope_activity: f32,
}

// What a voice gives the filter.
#[derive(Clone, Copy)]
struct Contribution {
    source: f32,
    energy: f32,
}

// Voices 1, 2 and 3. Three names and no array: whoever reads one names its voice.
#[derive(Clone, Copy)]
pub struct Voices {
    pub one: VoiceSignal,
    pub two: VoiceSignal,
    pub three: VoiceSignal,
}

// The external input as it came in, and its levels at the filter's summer and at the mixer.
#[derive(Clone, Copy)]
pub struct ExternalInputState {
    pub raw: f32,
    pub filter_signal: f32,
    pub mixer_signal: f32,
}

// ---- one voice

#[tactic(auto, unfolding(crate::specs::Signals::filter_voice_contribution_of))]
fn filter_voice_contribution(signal: VoiceSignal, source_resting: f32) -> Contribution
    ensures { result ≡ S.filter_voice_contribution_of signal source_resting }
{
    if signal.envelope == 0.0 {
        return Contribution {
            source: source_resting,
            energy: 0.0,
        };
    }
    let source = voice::filter_voice_signal(signal);
    let deviation = source - source_resting;
    Contribution {
        source,
        energy: deviation * deviation,
    }
}

// Of the sixteen selections just three have a scale of their own. NaN past the table.
#[tactic(auto, using(crate::proofs::Told::scale_one, crate::proofs::Told::scale_two, crate::proofs::Told::scale_four, crate::proofs::Told::other_scale, crate::proofs::Told::past_scale))]
fn attack_scale(selection: u8) -> f32
    ensures { result ≡ S.attack_scale_of selection }
{
    match selection {
        1 => 1.49,
        2 => 0.0,
        4 => 0.865,
        0..=15 => 1.0,
        _ => f32::NAN,
    }
}

#[tactic(auto, unfolding(crate::specs::Signals::waveform_state_load_of))]
fn waveform_state_load(waveform: f32) -> f32
    ensures { result ≡ S.waveform_state_load_of waveform }
{
    floats::clamp(
        1.0 + constants::PURE_BYPASS_ATTACK_WAVEFORM_STATE_COUPLING * waveform,
        0.5,
        1.5,
    )
}

// Whether a voice, from 0 on, is in a mask of three. A mask above 7 is all three.
fn is_masked(mask: u8, voice: u8) -> bool
    requires { voice < 3 }
    ensures { result ≡ S.is_masked_of mask voice }
{
    (7 < mask) | ((mask >> voice) % 2 == 1)
}

impl RoutedSignals {
    #[tactic(auto, unfolding(crate::specs::Signals::add_filter_voice_of))]
    fn add_filter_voice(mut self, signal: VoiceSignal, source_resting: f32) -> Self
        ensures { result ≡ S.add_filter_voice_of self signal source_resting }
    {
        let added = filter_voice_contribution(signal, source_resting);
        self.filter_input_sum += added.source;
        self.filter_source_energy += added.energy;
        self.filter_input_activity += signal.envelope;
        self
    }

    #[tactic(auto, unfolding(crate::specs::Signals::add_pure_voice_of))]
    fn add_pure_voice(mut self, signal: VoiceSignal) -> Self
        ensures { result ≡ S.add_pure_voice_of self signal }
    {
        let waveform = signal.waveform;
        let envelope = signal.envelope;
        let selection = signal.waveform_selection;
        let load = waveform_state_load(waveform);
        self.pure_bypass_envelope_activity += envelope;
        self.pure_bypass_attack_drive += envelope * attack_scale(selection) * load;
        if selection == 4 {
            self.pure_pulse_envelope_activity += envelope;
        }
        self
    }

    #[tactic(auto, unfolding(crate::specs::Signals::add_bypass_voice_of))]
    fn add_bypass_voice(mut self, signal: VoiceSignal, saw_blend: f32, source_resting: f32) -> Self
        ensures { result ≡ S.add_bypass_voice_of self signal saw_blend source_resting }
    {
        let envelope = signal.envelope;
        if envelope == 0.0 {
            self.bypass_input_sum += source_resting;
            return self;
        }
        self.bypass_input_sum += voice::mixer_voice_signal(signal, saw_blend);
        self.bypass_envelope_activity += envelope;
        if !signal.combined & !signal.frozen {
            return self.add_pure_voice(signal);
        }
        self
    }

    fn add_filter_external(mut self, external: ExternalInputState, source_resting: f32) -> Self
        ensures { result ≡ S.add_filter_external_of external source_resting self }
    {
        let deviation = external.filter_signal - source_resting;
        self.filter_input_sum += external.filter_signal;
        self.filter_source_energy += deviation * deviation;
        self
    }

    fn add_bypass_external(mut self, external: ExternalInputState) -> Self
        ensures { result ≡ S.add_bypass_external_of external self }
    {
        self.bypass_input_sum += external.mixer_signal;
        self.bypass_envelope_activity += floats::abs(external.raw);
        self
    }

    // The same with a source added where it is routed so.
    fn with_if<F: FnOnce(Self) -> Self>(self, routed: bool, add: F) -> Self
        requires { IsTrue routed → F.pre add self }
        ensures { MatchBool routed (F.post add self result) (result ≡ self) }
    {
        if routed { add(self) } else { self }
    }
}

// ---- all of them

impl Voices {
    // Adds those that the filter takes, then those beside it. A mask above 7 is all three.
    fn add_to(
        self,
        sums: RoutedSignals,
        topology: MixingTopology,
        blends: SawBlends,
        source_resting: f32,
    ) -> RoutedSignals
        ensures { result ≡ S.add_voices_of topology self blends source_resting sums }
    {
        let Self { one, two, three } = self;
        let filter = topology.filter_internal_mask;
        let bypass = topology.bypass_internal_mask;
        sums.with_if(
            is_masked(filter, 0),
            |s| s.add_filter_voice(one, source_resting),
        )
        .with_if(
            is_masked(filter, 1),
            |s| s.add_filter_voice(two, source_resting),
        )
        .with_if(
            is_masked(filter, 2),
            |s| s.add_filter_voice(three, source_resting),
        )
        .with_if(
            is_masked(bypass, 0),
            |s| s.add_bypass_voice(one, blends.one, source_resting),
        )
        .with_if(
            is_masked(bypass, 1),
            |s| s.add_bypass_voice(two, blends.two, source_resting),
        )
        .with_if(
            is_masked(bypass, 2),
            |s| s.add_bypass_voice(three, blends.three, source_resting),
        )
    }
}

impl ExternalInputState {
    // Adds it to the filter's sums or to the mixer's.
    #[tactic(auto, unfolding(crate::specs::Signals::add_external_of))]
    fn add_to(
        self,
        sums: RoutedSignals,
        topology: MixingTopology,
        source_resting: f32,
    ) -> RoutedSignals
        ensures { result ≡ S.add_external_of topology self source_resting sums }
    {
        sums.with_if(topology.filter_membership[3], |s| {
            s.add_filter_external(self, source_resting)
        })
        .with_if(
            topology.bypass_membership[3],
            |s| s.add_bypass_external(self),
        )
    }
}

impl RoutedSignals {
    // The voices in turn, then the external input.
    #[tactic(auto, unfolding(crate::specs::Signals::collect_of))]
    pub fn collect(
        topology: MixingTopology,
        voices: Voices,
        saw_mixer_blend: SawBlends,
        external: ExternalInputState,
        source_resting: f32,
    ) -> Self
        ensures { result ≡ S.collect_of topology voices saw_mixer_blend external source_resting }
    {
        let silent = Self::default();
        let voiced = voices.add_to(silent, topology, saw_mixer_blend, source_resting);
        external.add_to(voiced, topology, source_resting)
    }

    // Whether each sum is finite, with no branch from one to the next.
    #[tactic(auto, unfolding(crate::specs::Collecting::finite_signals_of))]
    pub fn is_finite(self) -> bool
        ensures { result ≡ C.finite_signals_of self }
    {
        (floats::is_finite(self.filter_input_sum)
            & floats::is_finite(self.filter_source_energy)
            & floats::is_finite(self.filter_input_activity)
            & floats::is_finite(self.bypass_input_sum))
            & (floats::is_finite(self.bypass_envelope_activity)
                & floats::is_finite(self.pure_bypass_envelope_activity)
                & floats::is_finite(self.pure_bypass_attack_drive)
                & floats::is_finite(self.pure_pulse_envelope_activity))
    }

    // Writes the sums where 32 bytes are lent.
    fn put(self, sums: &mut [u8])
        requires { length sums.old ≡ 32 }
        ensures { sums.new ≡ C.signal_bytes self }
    {
        wire::put_row(
            sums,
            0,
            wire::float_bits(self.filter_input_sum),
            wire::float_bits(self.filter_source_energy),
            wire::float_bits(self.filter_input_activity),
            wire::float_bits(self.bypass_input_sum),
        );
        wire::put_row(
            sums,
            16,
            wire::float_bits(self.bypass_envelope_activity),
            wire::float_bits(self.pure_bypass_envelope_activity),
            wire::float_bits(self.pure_bypass_attack_drive),
            wire::float_bits(self.pure_pulse_envelope_activity),
        );
    }
}

// ---- lent bytes

// The voices of 36 bytes, valid or not.
#[tactic(auto, unfolding(crate::specs::Lent::voices_of))]
pub fn voices_of(s: &[u8]) -> Voices
    ensures { result ≡ voices_of s.now }
{
    Voices {
        one: voice::voice_at(s, 0),
        two: voice::voice_at(s, 12),
        three: voice::voice_at(s, 24),
    }
}

// Whether these are 36 bytes, and each voice valid, with no branch from one to the next.
#[tactic(auto, unfolding(crate::specs::Lent::valid_voices_of))]
pub fn valid_voices(s: &[u8]) -> bool
    ensures { result ≡ valid_voices_of s.now }
{
    (s.len() == 36)
        & (voice::valid_voice_at(s, 0)
            & voice::valid_voice_at(s, 12)
            & voice::valid_voice_at(s, 24))
}

// The external input's levels, the first three of the numbers.
#[tactic(auto, unfolding(crate::specs::Lent::external_of))]
pub fn external_of(s: &[u8]) -> ExternalInputState
    ensures { result ≡ external_of s.now }
{
    ExternalInputState {
        raw: wire::f32_at(s, 0),
        filter_signal: wire::f32_at(s, 4),
        mixer_signal: wire::f32_at(s, 8),
    }
}

// The blends, the last three.
#[tactic(auto, unfolding(crate::specs::Lent::blends_of))]
fn blends_of(s: &[u8]) -> SawBlends
    ensures { result ≡ blends_of s.now }
{
    SawBlends {
        one: wire::f32_at(s, 12),
        two: wire::f32_at(s, 16),
        three: wire::f32_at(s, 20),
    }
}

// Whether these are 24 bytes, and each number finite.
fn finite_numbers(s: &[u8]) -> bool
    ensures { result ≡ finite_numbers_of s.now }
{
    (s.len() == 24) & (0..6).all(|i| wire::finite_at(s, 4 * i))
}

#[tactic(auto, unfolding(crate::specs::Collecting::judge_collect_of))]
fn judge_collect(routing: u8, mode: u8, voices: &[u8], numbers: &[u8], room: usize) -> Answer
    ensures { result ≡ C.judge_collect_of routing mode voices.now numbers.now room }
{
    let argument = (routing <= 15) & (mode <= 15) & (room == 32);
    answers::unless(argument, Refusal::Argument)?;
    let sources = valid_voices(voices) & finite_numbers(numbers);
    answers::unless(sources, Refusal::Sources)
}

#[tactic(auto, unfolding(crate::specs::Collecting::signals_of))]
fn signals_of(routing: u8, mode: u8, voices: &[u8], numbers: &[u8]) -> RoutedSignals
    ensures { result ≡ C.signals_of routing mode voices.now numbers.now }
{
    RoutedSignals::collect(
        MixingTopology::update(routing, mode),
        voices_of(voices),
        blends_of(numbers),
        external_of(numbers),
        voice::source_resting(),
    )
}

// The sums of a routing and a mode nibble for the lent voices and numbers, into the lent bytes. Refuses 10, 11, 6, and then leaves them.
#[tactic(auto, unfolding(crate::specs::Collecting::judge_collect_of, crate::specs::Collecting::collect_answer_of, crate::specs::Collecting::collected_of))]
pub fn collect_lent(routing: u8, mode: u8, voices: &[u8], numbers: &[u8], sums: &mut [u8]) -> Answer
    ensures value { result ≡ C.collect_answer_of routing mode voices.now numbers.now (length sums.old) }
    ensures sums_after { sums.new ≡ C.collected_of routing mode voices.now numbers.now sums.old }
{
    judge_collect(routing, mode, voices, numbers, sums.len())?;
    let signals = signals_of(routing, mode, voices, numbers);
    answers::unless(signals.is_finite(), Refusal::Domain)?;
    signals.put(sums);
    Ok(())
}
