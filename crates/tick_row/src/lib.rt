// Ticks in a row: what stands still between two writes is handed in once, and each tick takes the next 36 bytes of a row of voices.
#![tactic(auto)]

ghost use Rattle.std.specs.Prelude.{◌≡◌};
ghost use Rattle.wire.specs.Wire.{put_at};
ghost use Rattle.sample.specs.Parts.{cache_of};
ghost use Rattle.tick_row.specs.TickRow as T;

use answers::{Answer, Refusal};
use clock::{Settings, Ticked};
use integrator::IntegratorState;
use refresh::CoreControls;
use transients::TransientState;

// Where ticks in a row end: how many were taken, and what is left after them. The answer stands beside them, since a row stops after ticks that are taken.
#[derive(Clone, Copy)]
pub struct TickRow {
    pub answer: Answer,
    pub ticks: usize,
    pub integrator: IntegratorState,
    pub transients: TransientState,
}

// As many ticks as the voices have and the output holds.
fn tick_count(voices: usize, room: usize) -> usize
    ensures { result ≡ T.tick_count_of voices room }
{
    (voices / 36).min(room / 16)
}

// One tick of the row: 11 of its voices, then what the tick refuses.
fn voiced_tick(
    curves: &[u8],
    gains: &[f32; 16],
    input_drives: &[f32; 16],
    feedback_drives: &[f32; 16],
    core: CoreControls,
    mode_output_gain: f32,
    rest: Result<f32, Refusal>,
    settings: Settings,
    integrator: IntegratorState,
    earlier: IntegratorState,
    transients: TransientState,
    voices: &[u8],
) -> Result<Ticked, Refusal>
    ensures { result ≡ T.voiced_tick_of curves.now
        (cache_of gains.now input_drives.now feedback_drives.now core mode_output_gain)
        rest settings integrator transients voices.now }
{
    answers::unless(signals::valid_voices(voices), Refusal::Sources)?;
    clock::tick_from_parts(
        curves,
        gains,
        input_drives,
        feedback_drives,
        core,
        mode_output_gain,
        rest,
        settings,
        integrator,
        earlier,
        transients,
        signals::voices_of(voices),
    )
}

// The ticks of a row of voices, up to one that is refused, on the parts of the controls as `tick_from_parts` takes them: 11, 3, 6. Their numbers go into the output, 16
// bytes each; its later bytes stay.
pub fn play_ticks(
    curves: &[u8],
    gains: &[f32; 16],
    input_drives: &[f32; 16],
    feedback_drives: &[f32; 16],
    core: CoreControls,
    mode_output_gain: f32,
    rest: Result<f32, Refusal>,
    settings: Settings,
    from: IntegratorState,
    held: TransientState,
    voices: &[u8],
    output: &mut [u8],
) -> TickRow
    ensures value { result ≡ T.ticks_end 0 (T.ticks_in curves.now
        (cache_of gains.now input_drives.now feedback_drives.now core mode_output_gain)
        rest settings from held voices.now output.old) }
    ensures output_after { output.new ≡ put_at output.old 0 (T.all_tick_bytes (T.ticks_in curves.now
        (cache_of gains.now input_drives.now feedback_drives.now core mode_output_gain)
        rest settings from held voices.now output.old).outputs) }
{
    let count = tick_count(voices.len(), output.len());
    let mut integrator = from;
    let mut earlier = from;
    let mut transients = held;
    for i in 0..count {
        let place = 36 * i;
        match voiced_tick(
            curves,
            gains,
            input_drives,
            feedback_drives,
            core,
            mode_output_gain,
            rest,
            settings,
            integrator,
            earlier,
            transients,
            &voices[place..place + 36],
        ) {
            Ok(ticked) => {
                ticked.outputs.put(output, 16 * i);
                earlier = integrator;
                integrator = ticked.integrator;
                transients = ticked.transients;
            }
            Err(refusal) => {
                return TickRow {
                    answer: Err(refusal),
                    ticks: i,
                    integrator,
                    transients,
                };
            }
        }
    }
    TickRow {
        answer: Ok(()),
        ticks: count,
        integrator,
        transients,
    }
}
