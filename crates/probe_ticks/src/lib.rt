// A tick on a state's block, for the program vectors_ticks; under a C name, for oracle/compare, it stands in probe_ticks_c. No product links either.
#![tactic(auto)]

ghost use Rattle.std.specs.Prelude.{◌≡◌, length};
ghost use Rattle.control.specs.Block.{decode_of};
ghost use Rattle.filter.specs.Lent.{lent_all, lent_of};
ghost use Rattle.probe_ticks.specs.Ticks as T;

use answers::{Refusal, Reported};
use clock::Ticked;
use control::State;
use integrator::IntegratorState;
use transients::TransientState;

// An answer by its numbers.
#[repr(C)]
#[derive(Clone, Copy)]
pub struct TickReply {
    pub number: u32,
    pub buffer: u32,
    pub place: u32,
}

// ---- the tick

// The core of a state, ticked once. What is lent to the tick is all judged before the controls.
fn state_tick(
    bundle: &[u8],
    curves: &[u8],
    decays: &[u8],
    levels: &[u8],
    voices: &[u8],
    state: State,
) -> Result<Ticked, Refusal>
    ensures { result ≡ T.state_tick_of (lent_all bundle.now curves.now decays.now) levels.now voices.now state }
{
    filter::judge_lent(bundle, curves)?;
    answers::unless(state.is_valid(), Refusal::Argument)?;
    transients::judge_decays(decays)?;
    turns::judge_levels(levels)?;
    turns::judge_voices(voices)?;
    let mut core = turns::start(bundle, curves, decays, levels, state)?;
    let outputs = turns::tick(&mut core, bundle, curves, decays, levels, voices)?;
    Ok(Ticked {
        outputs,
        integrator: core.state.integrator,
        transients: core.state.transients,
    })
}

fn no_block(bundle: &[u8], curves: &[u8]) -> Result<Ticked, Refusal>
    ensures { result ≡ T.no_block_of (lent_of bundle.now curves.now) }
{
    filter::judge_lent(bundle, curves)?;
    Err(Refusal::Argument)
}

fn block_tick(
    bundle: &[u8],
    curves: &[u8],
    decays: &[u8],
    levels: &[u8],
    voices: &[u8],
    block: &[u8],
    room: usize,
) -> Result<Ticked, Refusal>
    ensures { result ≡ T.block_tick_of (lent_all bundle.now curves.now decays.now) levels.now voices.now room (decode_of block.now) }
{
    let Some(state) = State::decode(block) else {
        return no_block(bundle, curves);
    };
    if room != 16 {
        return no_block(bundle, curves);
    }
    state_tick(bundle, curves, decays, levels, voices, state)
}

// ---- what it leaves

fn put_state(block: &mut [u8], integrator: IntegratorState, transients: TransientState)
    ensures { block.new ≡ T.block_after_of integrator transients block.old }
{
    let mut next = State::fields(block);
    next.integrator = integrator;
    next.transients = transients;
    next.encode(block);
}

// One tick: 1, 2, 4, 10, 12, 11, then what the controls and the tick refuse, and then block and output stay.
#[unsafe(no_mangle)]
pub extern "C" fn probe_tick(
    bundle: &[u8],
    curves: &[u8],
    state: &mut [u8],
    decays: &[u8],
    levels: &[u8],
    voices: &[u8],
    output: &mut [u8],
) -> TickReply
    ensures value { result ≡ T.tick_reply_of
        (T.block_tick_of (lent_all bundle.now curves.now decays.now) levels.now voices.now (length output.old)
        (decode_of state.old)) }
    ensures state_after { state.new ≡ T.ticked_block_of
        (T.block_tick_of (lent_all bundle.now curves.now decays.now) levels.now voices.now (length output.old)
        (decode_of state.old))
        state.old }
    ensures output_after { output.new ≡ T.ticked_output_of
        (T.block_tick_of (lent_all bundle.now curves.now decays.now) levels.now voices.now (length output.old)
        (decode_of state.old))
        output.old }
{
    match block_tick(bundle, curves, decays, levels, voices, state, output.len()) {
        Ok(ticked) => {
            put_state(state, ticked.integrator, ticked.transients);
            ticked.outputs.put(output, 0);
            TickReply {
                number: 0,
                buffer: 0,
                place: 0,
            }
        }
        Err(refusal) => {
            let told = Reported::from(refusal);
            TickReply {
                number: told.number,
                buffer: told.buffer,
                place: told.place,
            }
        }
    }
}
