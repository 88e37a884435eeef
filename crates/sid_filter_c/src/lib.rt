// The static library behind include/sid_filter.h: each call of the crate sid_filter under its name, with its clauses.
#![tactic(auto)]

ghost use Rattle.std.specs.Prelude.{◌≡◌, length};
ghost use Rattle.answers.specs.declared.Refusal.TheVariants.{Argument};
ghost use Rattle.answers.specs.Answers.{unless_of};
ghost use Rattle.bundle.specs.Opening.{open_of};
ghost use Rattle.curves.specs.Building.{judge_build_of, build_of};
ghost use Rattle.control.specs.Widening.{widens_of, widened_of};
ghost use Rattle.filter.specs.Lent.{lent_of, lent_all};
ghost use Rattle.run.specs.Run.{run_of};
ghost use Rattle.signals.specs.Collecting.{collect_answer_of, collected_of};
ghost use Rattle.direct.specs.Calls.{sample_curve_call_of, volume_transfer_call_of};
ghost use Rattle.points.specs.Points.{summer_call_of, mixer_call_of, sample_point_call_of};
ghost use Rattle.sid_filter.specs.Calls.{run_answer_of, ran_answer_of, point_answer_of};

use sid_filter::{PointAnswer, RunAnswer};

// Opens a bundle: its length, its header, then every entry. Refuses 1, 2, 3.
#[unsafe(no_mangle)]
pub extern "C" fn sid_filter_open(bundle: &[u8]) -> RunAnswer
    ensures { result ≡ run_answer_of (open_of bundle.now) 0 0 }
{
    sid_filter::sid_filter_open(bundle)
}

// Builds the 31 curves into the lent bytes. Refuses 1, 2, 4, 3, and then leaves them.
#[unsafe(no_mangle)]
pub extern "C" fn sid_filter_build_curves(bundle: &[u8], curves: &mut [u8]) -> RunAnswer
    ensures value { result ≡ run_answer_of (judge_build_of bundle.now curves.old) 0 0 }
    ensures curves_after { curves.new ≡ build_of bundle.now curves.old }
{
    sid_filter::sid_filter_build_curves(bundle, curves)
}

// Turns a block of 24 bytes, which has no transients, into one of 68: nothing charged, and the conductance of its volume. Refuses 10, and then leaves the lent bytes.
#[unsafe(no_mangle)]
pub extern "C" fn sid_filter_widen_state(block: &[u8], wide: &mut [u8]) -> RunAnswer
    ensures value { result ≡ run_answer_of (unless_of (widens_of block.now wide.old) Argument) 0 0 }
    ensures wide_after { wide.new ≡ widened_of block.now wide.old }
{
    sid_filter::sid_filter_widen_state(block, wide)
}

// Runs a script from the state in its block: the samples go into the output, the state after them into the block. Refuses 1, 2, 4, 10, 12, 7, 8 and then
// leaves everything; 3 or 6 of the controls; and event by event 5, 3, 6, with the samples and the state before the stop written.
#[unsafe(no_mangle)]
pub extern "C" fn sid_filter_run(
    bundle: &[u8],
    curves: &[u8],
    state: &mut [u8],
    decays: &[u8],
    script: &[u8],
    output: &mut [u8],
) -> RunAnswer
    ensures value { result ≡ ran_answer_of (run_of (lent_all bundle.now curves.now decays.now) state.old script.now output.old) }
    ensures state_after { state.new ≡ (run_of (lent_all bundle.now curves.now decays.now) state.old script.now output.old).state }
    ensures output_after { output.new ≡ (run_of (lent_all bundle.now curves.now decays.now) state.old script.now output.old).output }
{
    sid_filter::sid_filter_run(bundle, curves, state, decays, script, output)
}

// The eight sums of a routing and a mode nibble, for three voices and the six numbers beside them. Refuses 10, 11, 6, and then leaves the lent sums.
#[unsafe(no_mangle)]
pub extern "C" fn sid_filter_collect(
    routing: u8,
    mode: u8,
    voices: &[u8],
    numbers: &[u8],
    sums: &mut [u8],
) -> RunAnswer
    ensures value { result ≡ run_answer_of (collect_answer_of routing mode voices.now numbers.now (length sums.old)) 0 0 }
    ensures sums_after { sums.new ≡ collected_of routing mode voices.now numbers.now sums.old }
{
    sid_filter::sid_filter_collect(routing, mode, voices, numbers, sums)
}

// A curve of 0 to 30 at an input. Refuses 4, 10, 3, 6.
#[unsafe(no_mangle)]
pub extern "C" fn sid_filter_sample_curve(curves: &[u8], curve: u32, input: f32) -> PointAnswer
    ensures { result ≡ point_answer_of (sample_curve_call_of curves.now curve input) }
{
    sid_filter::sid_filter_sample_curve(curves, curve, input)
}

// The summer of a routing nibble, for the sum of its inputs. Refuses 1, 2, 4, 10, 5, 3, 6.
#[unsafe(no_mangle)]
pub extern "C" fn sid_filter_summer(
    bundle: &[u8],
    curves: &[u8],
    routing: u8,
    sum: f32,
) -> PointAnswer
    ensures { result ≡ point_answer_of (summer_call_of (lent_of bundle.now curves.now) routing sum) }
{
    sid_filter::sid_filter_summer(bundle, curves, routing, sum)
}

// The mixer of a routing and a mode nibble, for the sum of its inputs. Refuses 4, 10, 3, 6.
#[unsafe(no_mangle)]
pub extern "C" fn sid_filter_mixer(curves: &[u8], routing: u8, mode: u8, sum: f32) -> PointAnswer
    ensures { result ≡ point_answer_of (mixer_call_of curves.now routing mode sum) }
{
    sid_filter::sid_filter_mixer(curves, routing, mode, sum)
}

// The volume DAC at a volume of 0 to 15, for the mixer's output. Refuses 4, 10, 3, 6.
#[unsafe(no_mangle)]
pub extern "C" fn sid_filter_volume(curves: &[u8], volume: u8, value: f32) -> PointAnswer
    ensures { result ≡ point_answer_of (volume_transfer_call_of curves.now volume value) }
{
    sid_filter::sid_filter_volume(curves, volume, value)
}

// The summer for a sample of the state in a block: zeros where the sample is idle. Refuses 1, 2, 4, 10, 5, 3, 6.
#[unsafe(no_mangle)]
pub extern "C" fn sid_filter_sample_point(
    bundle: &[u8],
    curves: &[u8],
    state: &[u8],
    sum: f32,
    energy: f32,
) -> PointAnswer
    ensures { result ≡ point_answer_of (sample_point_call_of (lent_of bundle.now curves.now) state.now sum energy) }
{
    sid_filter::sid_filter_sample_point(bundle, curves, state, sum, energy)
}
