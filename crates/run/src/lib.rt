// A run: a script's events through the filter, on lent bytes.
#![tactic(auto)]

ghost use Rattle.std.specs.Prelude.{◌≡◌, true, length};
ghost use Rattle.answers.specs.Answers.{done};
ghost use Rattle.wire.specs.Wire.{put_at};
ghost use Rattle.control.specs.Registers.{of_registers, effective_cutoff_of};
ghost use Rattle.control.specs.Block.{valid_of};
ghost use Rattle.refresh.specs.Refresh.{refresh_core_of, judged_of};
ghost use Rattle.sample.specs.Sample.{outputs_finite};
ghost use Rattle.script.specs.Script.{events_of};
ghost use Rattle.filter.specs.Lent.{lent_all};
ghost use Rattle.filter.specs.Core.{fresh_topology_of};
ghost use Rattle.run.specs.Run as R;
ghost use Rattle.run.specs.Rows as W;
ghost use Rattle.run.specs.Parts as P;

use answers::{Answer, Refusal};
use control::{FilterRegisters, State};
use integrator::IntegratorState;
use mixing::MixingTopology;
use refresh::{CoreControls, CoreRefreshed};
use sample::Outputs;
use script::Event;

// What a run answers: done or its refusal, the events done and the samples written. Here and below an answer stands beside what was done and not in a `Result`,
// since a run stops after events that are done.
#[derive(Clone, Copy)]
pub struct Ended {
    pub answer: Answer,
    pub events: usize,
    pub samples: usize,
}

// Where samples in a row end, by the events done and the samples written up to there, and the integrator.
#[derive(Clone, Copy)]
pub struct Row {
    pub answer: Answer,
    pub events: usize,
    pub samples: usize,
    pub integrator: IntegratorState,
}

// What samples in a row share: of the controls the part that a sample reads, and the summer's rest.
#[derive(Clone, Copy)]
pub struct Parts {
    pub topology: MixingTopology,
    pub gains: [f32; 16],
    pub core: CoreControls,
    pub mode_output_gain: f32,
    pub rest: Result<f32, Refusal>,
}

// The summer's rest at a count of the filter's inputs.
#[derive(Clone, Copy)]
pub struct Resting {
    pub inputs: usize,
    pub rest: Result<f32, Refusal>,
}

// Where events in a row that are no samples end, by the events done up to there.
#[derive(Clone, Copy)]
pub struct Moved {
    pub answer: Answer,
    pub events: usize,
    pub state: State,
    pub gain: f32,
}

// Where the events end.
#[derive(Clone, Copy)]
pub struct Played {
    pub answer: Answer,
    pub events: usize,
    pub samples: usize,
    pub state: State,
}

fn is_sample(event: Event) -> bool
    ensures { result ≡ (W.asked_of event).sample }
{
    matches!(event, Event::Sample { .. })
}

// ---- what samples in a row share

fn core_of(bundle: &[u8], state: State) -> CoreRefreshed
    ensures { result ≡ refresh_core_of bundle.now (effective_cutoff_of state) state.registers.resonance }
{
    let registers = state.registers;
    refresh::refresh_core(bundle, state.effective_cutoff(), registers.resonance)
}

// What samples in a row read, from a state with its mode's gain and its summer's rest.
fn parts_of(bundle: &[u8], state: State, gain: f32, rest: Result<f32, Refusal>) -> Parts
    requires { P.Given bundle.now state gain rest }
    ensures { result ≡ P.parts_of bundle.now state }
{
    let fresh = core_of(bundle, state);
    let gains = fresh.integrator_gain;
    let core = fresh.core;
    let topology = filter::fresh_topology(state);
    Parts {
        topology,
        gains,
        core,
        mode_output_gain: gain,
        rest,
    }
}

fn resting_of(bundle: &[u8], topology: MixingTopology) -> Resting
    ensures { result ≡ P.resting_of bundle.now topology.filter_input_count }
{
    Resting {
        inputs: topology.filter_input_count,
        rest: sample::rest_of(bundle, topology),
    }
}

// The same of a state, from an older one: it stays where the count of inputs does, and the topology is then not worked out.
fn resting_at(bundle: &[u8], old: Resting, state: State) -> Resting
    requires { old ≡ P.resting_of bundle.now old.inputs }
    ensures { result ≡ P.resting_of bundle.now (fresh_topology_of state).filter_input_count }
{
    let registers = state.registers;
    if mixing::filter_count(registers.routing) == old.inputs {
        return old;
    }
    resting_of(bundle, filter::fresh_topology(state))
}

// ---- other events

// The registers that an event which is no sample leads to.
fn next_registers(registers: FilterRegisters, event: Event) -> FilterRegisters
    ensures { result ≡ (W.next_of (of_registers registers) event).registers }
{
    match event {
        Event::CutoffLow(value) => registers.write_cutoff_low(value),
        Event::CutoffHigh(value) => registers.write_cutoff_high(value),
        Event::Routing(value) => registers.write_signal_routing(value),
        Event::Mode(value) => registers.write_mode_and_volume(value),
        Event::Sample {
            input_sum: _,
            source_energy: _,
        } => registers,
        Event::Reset => FilterRegisters::new(),
    }
}

// What their controls refuse, and their gain. Where the event leaves what is judged as it was, as a write of the volume alone does, both are as before.
fn judge_next(
    bundle: &[u8],
    before: FilterRegisters,
    gain: f32,
    next: FilterRegisters,
) -> Result<f32, Refusal>
    requires { judged_of bundle.now (of_registers before) ≡ P.done_with gain }
    ensures { result ≡ judged_of bundle.now (of_registers next) }
{
    if (before.cutoff == next.cutoff)
        & (before.cutoff_dac_displacement_codes == next.cutoff_dac_displacement_codes)
        & (before.resonance == next.resonance)
        & (before.mode == next.mode)
    {
        return Ok(gain);
    }
    refresh::judge_registers(bundle, next)
}

// Whether it charges the output node, as a write of the volume does.
fn charges(event: Event) -> bool
    ensures { result ≡ W.charges_of event }
{
    matches!(event, Event::Mode(_))
}

// Whether it is a reset, after which the floats are the starting value's.
fn resets(event: Event) -> bool
    ensures { result ≡ W.resets_of event }
{
    matches!(event, Event::Reset)
}

// ---- samples in a row

// Writes a sample's sixteen bytes. Its numbers are finite, so that each has bits of its own.
fn put_outputs(output: &mut [u8], place: usize, o: Outputs)
    requires { outputs_finite o ≡ true }
    ensures { output.new ≡ put_at output.old place (R.output_bytes o) }
{
    wire::put_row(
        output,
        place,
        f32::to_bits(o.high),
        f32::to_bits(o.band),
        f32::to_bits(o.low),
        f32::to_bits(o.selected),
    );
}

// The samples in a row from an event on.
fn play_samples(
    bundle: &[u8],
    curves: &[u8],
    state: State,
    gain: f32,
    summer_rest: Result<f32, Refusal>,
    script: &[u8],
    start: usize,
    count: usize,
    output: &mut [u8],
    before: usize,
) -> Row
    requires ahead { P.Ahead script.now count start }
    requires room { P.Room script.now count start output.old before }
    requires given { P.Given bundle.now state gain summer_rest }
    ensures value { result ≡ W.row_end start before (P.samples_from bundle.now curves.now state script.now count start) }
    ensures output_after { output.new ≡ P.samples_put output.old before (P.samples_from bundle.now curves.now state script.now count start) }
{
    let input_drives = constants::input_drives();
    let feedback_drives = constants::feedback_drives();
    let parts = parts_of(bundle, state, gain, summer_rest);
    let topology = parts.topology;
    let gains = parts.gains;
    let core = parts.core;
    let rest = parts.rest;
    let slot = sample::summer_slot(topology);
    let registers = state.registers;
    let from = state.integrator;
    let mut integrator = from;
    let mut earlier = from;
    let mut samples = before;
    for i in start..count {
        let Some(event) = script::event_at(script, 8 + 12 * i) else {
            return Row {
                answer: Err(Refusal::Script),
                events: i,
                samples,
                integrator,
            };
        };
        let Event::Sample {
            input_sum,
            source_energy,
        } = event
        else {
            return Row {
                answer: Ok(()),
                events: i,
                samples,
                integrator,
            };
        };
        match sample::sample_from_parts(
            curves,
            slot,
            topology,
            &gains,
            &input_drives,
            &feedback_drives,
            core,
            parts.mode_output_gain,
            rest,
            registers.mode,
            integrator,
            earlier,
            input_sum,
            source_energy,
        ) {
            Ok(sampled) => {
                put_outputs(output, 16 * samples, sampled.outputs);
                earlier = integrator;
                integrator = sampled.state;
                samples += 1;
            }
            Err(refusal) => {
                return Row {
                    answer: Err(refusal),
                    events: i,
                    samples,
                    integrator,
                };
            }
        }
    }
    Row {
        answer: Ok(()),
        events: count,
        samples,
        integrator,
    }
}

// Whether there is an event i and it is a sample.
fn sample_next(script: &[u8], i: usize, count: usize) -> bool
    requires { P.Ahead script.now count i }
    ensures { result ≡ W.sample_first (P.remaining_of script.now count i) }
{
    if count <= i {
        return false;
    }
    let Some(event) = script::event_at(script, 8 + 12 * i) else {
        return false;
    };
    is_sample(event)
}

// The samples in a row from an event on, if there are any: what they share is not worked out for none.
fn play_row(
    bundle: &[u8],
    curves: &[u8],
    state: State,
    gain: f32,
    rest: Result<f32, Refusal>,
    script: &[u8],
    start: usize,
    count: usize,
    output: &mut [u8],
    before: usize,
) -> Row
    requires ahead { P.Ahead script.now count start }
    requires room { P.Room script.now count start output.old before }
    requires given { P.Given bundle.now state gain rest }
    ensures value { result ≡ W.row_end start before (P.samples_from bundle.now curves.now state script.now count start) }
    ensures output_after { output.new ≡ P.samples_put output.old before (P.samples_from bundle.now curves.now state script.now count start) }
{
    let integrator = state.integrator;
    if sample_next(script, start, count) {
        return play_samples(
            bundle, curves, state, gain, rest, script, start, count, output, before,
        );
    }
    Row {
        answer: Ok(()),
        events: start,
        samples: before,
        integrator,
    }
}

// ---- other events in a row

// The events in a row from an event on that are no samples.
fn play_changes(
    bundle: &[u8],
    from: State,
    given: f32,
    script: &[u8],
    start: usize,
    count: usize,
) -> Moved
    requires ahead { P.Ahead script.now count start }
    requires from { P.From bundle.now from given }
    ensures { result ≡ P.moves_end bundle.now start (P.moves_from bundle.now from script.now count start) }
{
    let mut state = from;
    let mut gain = given;
    for i in start..count {
        let Some(event) = script::event_at(script, 8 + 12 * i) else {
            return Moved {
                answer: Err(Refusal::Script),
                events: i,
                state,
                gain,
            };
        };
        if is_sample(event) {
            return Moved {
                answer: Ok(()),
                events: i,
                state,
                gain,
            };
        }
        let before = state.registers;
        let registers = next_registers(before, event);
        let next_gain = match judge_next(bundle, before, gain, registers) {
            Ok(judged) => judged,
            Err(refusal) => {
                return Moved {
                    answer: Err(refusal),
                    events: i,
                    state,
                    gain,
                };
            }
        };
        if charges(event) {
            let held = state.transients;
            let transients = held.charge(registers.volume);
            if !transients.finite_charges() {
                return Moved {
                    answer: Err(Refusal::Domain),
                    events: i,
                    state,
                    gain,
                };
            }
            state.transients = transients;
        }
        if resets(event) {
            let fresh = State::new();
            let transients = fresh.transients;
            let integrator = fresh.integrator;
            state.transients = transients;
            state.integrator = integrator;
        }
        state.registers = registers;
        gain = next_gain;
    }
    Moved {
        answer: Ok(()),
        events: count,
        state,
        gain,
    }
}

// ---- the events

// The events of a script from a judged state with its gain on: other events in a row, then samples in a row, and so on; a row may be empty.
fn play(
    bundle: &[u8],
    curves: &[u8],
    decays: &[u8],
    first: State,
    given: f32,
    script: &[u8],
    count: usize,
    output: &mut [u8],
) -> Played
    requires ahead { P.Ahead script.now count 0 }
    requires room { P.Room script.now count 0 output.old 0 }
    requires from { P.From bundle.now first given }
    ensures value { result ≡ W.play_end 0 0 (P.play_from (lent_all bundle.now curves.now decays.now) first script.now count) }
    ensures output_after { output.new ≡ P.play_put output.old (P.play_from (lent_all bundle.now curves.now decays.now) first script.now count) }
{
    let mut resting = resting_of(bundle, filter::fresh_topology(first));
    let mut state = first;
    let mut gain = given;
    let mut samples = 0;
    let mut i = 0;
    // A step is a row of events and a row of samples, so no `for` has it.
    while i < count {
        let moved = play_changes(bundle, state, gain, script, i, count);
        let stopped = moved.answer;
        state = moved.state;
        gain = moved.gain;
        i = moved.events;
        if stopped.is_err() {
            return Played {
                answer: stopped,
                events: i,
                samples,
                state,
            };
        }
        resting = resting_at(bundle, resting, state);
        let rest = resting.rest;
        let row = play_row(
            bundle, curves, state, gain, rest, script, i, count, output, samples,
        );
        let answer = row.answer;
        let after = row.integrator;
        state.integrator = after;
        samples = row.samples;
        i = row.events;
        if answer.is_err() {
            return Played {
                answer,
                events: i,
                samples,
                state,
            };
        }
    }
    Played {
        answer: Ok(()),
        events: i,
        samples,
        state,
    }
}

// ---- the run

// The script's check, and room for its samples. Refuses 7, 8.
fn judge_script(script: &[u8], room: usize) -> Answer
    ensures { result ≡ R.judge_script_of script.now room }
{
    let samples = script::check_script(script)?.samples;
    answers::unless(samples <= room / 16, Refusal::OutputLength)
}

// The controls of a valid state, then the events.
fn play_from(
    bundle: &[u8],
    curves: &[u8],
    decays: &[u8],
    from: State,
    script: &[u8],
    output: &mut [u8],
) -> Played
    requires { (valid_of from ≡ true) × (R.judge_script_of script.now (length output.old) ≡ done) }
    ensures value { result ≡ W.play_end 0 0 (R.played_of (lent_all bundle.now curves.now decays.now) from (events_of script.now)) }
    ensures output_after { output.new ≡ P.play_put output.old (R.played_of (lent_all bundle.now curves.now decays.now) from (events_of script.now)) }
{
    let gain = match refresh::judge_controls(bundle, from) {
        Ok(gain) => gain,
        Err(refusal) => {
            return Played {
                answer: Err(refusal),
                events: 0,
                samples: 0,
                state: from,
            };
        }
    };
    let count = wire::u32_at(script, 0) as usize;
    play(bundle, curves, decays, from, gain, script, count, output)
}

// The state of its block, where nothing that is lent is refused. Refuses 1, 2, 4, 10, 12, 7, 8.
fn judge_run(
    bundle: &[u8],
    curves: &[u8],
    block: &[u8],
    decays: &[u8],
    script: &[u8],
    room: usize,
) -> Result<State, Refusal>
    ensures { result ≡ W.judged_state_of (lent_all bundle.now curves.now decays.now) block.now script.now room }
{
    filter::judge_lent(bundle, curves)?;
    let state = State::decode(block).ok_or(Refusal::Argument)?;
    transients::judge_decays(decays)?;
    judge_script(script, room)?;
    Ok(state)
}

// Runs a script from the state in its block: the samples go into the output, the state after them into the block. It stops at the first refusal: 1, 2, 4, 10, 12, 7,
// 8 leave everything, then come 3 and 6 of the controls, then 5, 3 and 6 event by event, with what was done before them written.
pub fn run(
    bundle: &[u8],
    curves: &[u8],
    state: &mut [u8],
    decays: &[u8],
    script: &[u8],
    output: &mut [u8],
) -> Ended
    ensures value { result ≡ W.ended_of (R.run_of (lent_all bundle.now curves.now decays.now) state.old script.now output.old) }
    ensures state_after { state.new ≡ (R.run_of (lent_all bundle.now curves.now decays.now) state.old script.now output.old).state }
    ensures output_after { output.new ≡ (R.run_of (lent_all bundle.now curves.now decays.now) state.old script.now output.old).output }
{
    let from = match judge_run(bundle, curves, state, decays, script, output.len()) {
        Ok(from) => from,
        // It is turned back, and has done nothing.
        Err(refusal) => {
            return Ended {
                answer: Err(refusal),
                events: 0,
                samples: 0,
            };
        }
    };
    let played = play_from(bundle, curves, decays, from, script, output);
    played.state.encode(state);
    Ended {
        answer: played.answer,
        events: played.events,
        samples: played.samples,
    }
}
