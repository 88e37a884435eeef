// The C interface of include/sid_filter.h: the calls on lent bytes, with the numbers of docs/FORMATS.md for their answers.
#![tactic(auto)]

ghost use Rattle.std.specs.Prelude.{◌≡◌, Err, cond, eqb, length, replicate};
ghost use Rattle.answers.specs.declared.Refusal.TheVariants.{Argument, InputNotFinite};
ghost use Rattle.answers.specs.Answers.{answer_of, number_of, unless_of};
ghost use Rattle.bundle.specs.Opening.{open_of};
ghost use Rattle.curves.specs.Building.{judge_build_of, build_of};
ghost use Rattle.control.specs.Widening.{widens_of, widened_of};
ghost use Rattle.filter.specs.Lent.{lent_of, lent_all};
ghost use Rattle.run.specs.Run.{run_of};
ghost use Rattle.signals.specs.Collecting.{collect_answer_of, collected_of};
ghost use Rattle.direct.specs.Calls.{sample_curve_call_of, volume_transfer_call_of};
ghost use Rattle.points.specs.Points.{summer_call_of, mixer_call_of, sample_point_call_of};
ghost use Rattle.sid_filter.specs.Calls.{run_answer_of, ran_answer_of, point_answer_of};

use answers::{Answer, Refusal};
use control::State;
use curves::CurvePoint;

// An answer to C: its number, the events done and the samples written by a run, and buffer and place where the table names them.
#[repr(C)]
#[derive(Clone, Copy)]
pub struct RunAnswer {
    pub number: u32,
    pub events: u32,
    pub samples: u32,
    pub buffer: u32,
    pub place: u32,
}

// A point to C: the answer, then the value, the index and the fraction.
#[repr(C)]
#[derive(Clone, Copy)]
pub struct PointAnswer {
    pub answer: RunAnswer,
    pub point: CurvePoint,
}

fn run_answer(answer: Answer, events: u32, samples: u32) -> RunAnswer
    ensures { result ≡ run_answer_of answer events samples }
{
    let told = answers::report(answer);
    RunAnswer {
        number: told.number,
        events,
        samples,
        buffer: told.buffer,
        place: told.place,
    }
}

// A point, and zeros beside a refusal.
fn point_answer(pointed: Result<CurvePoint, Refusal>) -> PointAnswer
    ensures { result ≡ point_answer_of pointed }
{
    match pointed {
        Ok(point) => PointAnswer {
            answer: run_answer(Ok(()), 0, 0),
            point,
        },
        Err(refusal) => PointAnswer {
            answer: run_answer(Err(refusal), 0, 0),
            point: curves::no_point(),
        },
    }
}

// Opens a bundle: its length, its header, then every entry. Refuses 1, 2, 3.
#[unsafe(no_mangle)]
pub extern "C" fn sid_filter_open(bundle: &[u8]) -> RunAnswer
    ensures { result ≡ run_answer_of (open_of bundle.now) 0 0 }
{
    run_answer(bundle::open(bundle), 0, 0)
}

// Builds the 31 curves into the lent bytes. Refuses 1, 2, 4, 3, and then leaves them.
#[unsafe(no_mangle)]
pub extern "C" fn sid_filter_build_curves(bundle: &[u8], curves: &mut [u8]) -> RunAnswer
    ensures value { result ≡ run_answer_of (judge_build_of bundle.now curves.old) 0 0 }
    ensures curves_after { curves.new ≡ build_of bundle.now curves.old }
{
    run_answer(curves::build(bundle, curves), 0, 0)
}

// Turns a block of 24 bytes, which has no transients, into one of 68: nothing charged, and the conductance of its volume. Refuses 10, and then leaves the lent bytes.
#[unsafe(no_mangle)]
pub extern "C" fn sid_filter_widen_state(block: &[u8], wide: &mut [u8]) -> RunAnswer
    ensures value { result ≡ run_answer_of (unless_of (widens_of block.now wide.old) Argument) 0 0 }
    ensures wide_after { wide.new ≡ widened_of block.now wide.old }
{
    let widened = State::widen(block, wide);
    run_answer(answers::unless(widened, Refusal::Argument), 0, 0)
}

// Runs a script from the state in its block: the samples go into the output, the state after them into the block. Refuses 1, 2, 4, 10, 12, 7, 8 and then
// leaves everything; 3 or 6 of the controls; and event by event 5, 3, 6, with the samples and the state before the stop written.
#[unsafe(no_mangle)]
pub extern "C" fn sid_filter_run(
    bundle: &[u8],
    curves: &[u8],
    state: &mut [u8],
    decays: &[u8],
    script: &[u8],
    output: &mut [u8],
) -> RunAnswer
    ensures value { result ≡ ran_answer_of (run_of (lent_all bundle.now curves.now decays.now) state.old script.now output.old) }
    ensures state_after { state.new ≡ (run_of (lent_all bundle.now curves.now decays.now) state.old script.now output.old).state }
    ensures output_after { output.new ≡ (run_of (lent_all bundle.now curves.now decays.now) state.old script.now output.old).output }
{
    let ended = run::run(bundle, curves, state, decays, script, output);
    run_answer(ended.answer, ended.events as u32, ended.samples as u32)
}

// ---- voices

// The eight sums of a routing and a mode nibble, for three voices and the six numbers beside them. Refuses 10, 11, 6, and then leaves the lent sums.
#[unsafe(no_mangle)]
pub extern "C" fn sid_filter_collect(
    routing: u8,
    mode: u8,
    voices: &[u8],
    numbers: &[u8],
    sums: &mut [u8],
) -> RunAnswer
    ensures value { result ≡ run_answer_of (collect_answer_of routing mode voices.now numbers.now (length sums.old)) 0 0 }
    ensures sums_after { sums.new ≡ collected_of routing mode voices.now numbers.now sums.old }
{
    run_answer(
        signals::collect_lent(routing, mode, voices, numbers, sums),
        0,
        0,
    )
}

// ---- where on a curve

// A curve of 0 to 30 at an input. Refuses 4, 10, 3, 6.
#[unsafe(no_mangle)]
pub extern "C" fn sid_filter_sample_curve(curves: &[u8], curve: u32, input: f32) -> PointAnswer
    ensures { result ≡ point_answer_of (sample_curve_call_of curves.now curve input) }
{
    point_answer(direct::sample_curve(curves, curve, input))
}

// The summer of a routing nibble, for the sum of its inputs. Refuses 1, 2, 4, 10, 5, 3, 6.
#[unsafe(no_mangle)]
pub extern "C" fn sid_filter_summer(
    bundle: &[u8],
    curves: &[u8],
    routing: u8,
    sum: f32,
) -> PointAnswer
    ensures { result ≡ point_answer_of (summer_call_of (lent_of bundle.now curves.now) routing sum) }
{
    point_answer(points::summer(bundle, curves, routing, sum))
}

// The mixer of a routing and a mode nibble, for the sum of its inputs. Refuses 4, 10, 3, 6.
#[unsafe(no_mangle)]
pub extern "C" fn sid_filter_mixer(curves: &[u8], routing: u8, mode: u8, sum: f32) -> PointAnswer
    ensures { result ≡ point_answer_of (mixer_call_of curves.now routing mode sum) }
{
    point_answer(points::mixer(curves, routing, mode, sum))
}

// The volume DAC at a volume of 0 to 15, for the mixer's output. Refuses 4, 10, 3, 6.
#[unsafe(no_mangle)]
pub extern "C" fn sid_filter_volume(curves: &[u8], volume: u8, value: f32) -> PointAnswer
    ensures { result ≡ point_answer_of (volume_transfer_call_of curves.now volume value) }
{
    point_answer(direct::volume_transfer(curves, volume, value))
}

// What a run on a copy of a block answers, with room for one sample. No sample reads the decays: zeros do.
fn tried(bundle: &[u8], curves: &[u8], block: &[u8], script: &[u8]) -> Answer
    requires { length block.now ≡ 68 }
    ensures { result ≡ (run_of (lent_all bundle.now curves.now (replicate 24 0)) block.now script.now (replicate 16 0)).answer }
{
    let mut kept = [0; 68];
    let decays = [0; 24];
    let mut output = [0; 16];
    wire::put(&mut kept, 0, block);
    run::run(bundle, curves, &mut kept, &decays, script, &mut output).answer
}

// 7 as 5.
fn input_for_script(answer: Answer) -> Answer
    ensures { result ≡ cond (eqb (number_of answer) 7) (Err InputNotFinite) answer }
{
    match answer {
        Err(Refusal::Script) => Err(Refusal::InputNotFinite),
        _ => answer,
    }
}

// What a sample of the state in a block answers: as the run of that one sample. Where the sum or the energy is not finite, as a run without a script, which judges
// what is lent and the block, and the 7 that it then has is the 5.
fn judge_point(bundle: &[u8], curves: &[u8], state: &[u8], sum: f32, energy: f32) -> Answer
    ensures { result ≡ answer_of (sample_point_call_of (lent_of bundle.now curves.now) state.now sum energy) }
{
    if state.len() != State::BYTES {
        let lent = filter::judge_lent(bundle, curves);
        return answers::first(lent, Err(Refusal::Argument));
    }
    if floats::is_finite(sum) & floats::is_finite(energy) {
        let script = points::sample_script(sum, energy);
        return tried(bundle, curves, state, &script);
    }
    input_for_script(tried(bundle, curves, state, &[]))
}

// The summer's point for a sample of the state in a block.
fn sample_point(
    bundle: &[u8],
    curves: &[u8],
    state: &[u8],
    sum: f32,
    energy: f32,
) -> Result<CurvePoint, Refusal>
    ensures { result ≡ sample_point_call_of (lent_of bundle.now curves.now) state.now sum energy }
{
    judge_point(bundle, curves, state, sum, energy)?;
    Ok(points::state_point(bundle, curves, State::fields(state), sum))
}

// The summer for a sample of the state in a block: zeros where the sample is idle. Refuses 1, 2, 4, 10, 5, 3, 6.
#[unsafe(no_mangle)]
pub extern "C" fn sid_filter_sample_point(
    bundle: &[u8],
    curves: &[u8],
    state: &[u8],
    sum: f32,
    energy: f32,
) -> PointAnswer
    ensures { result ≡ point_answer_of (sample_point_call_of (lent_of bundle.now curves.now) state.now sum energy) }
{
    point_answer(sample_point(bundle, curves, state, sum, energy))
}
