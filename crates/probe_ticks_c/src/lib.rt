// The static library of probe_ticks, which oracle/compare links. No product does.
#![tactic(auto)]

ghost use Rattle.std.specs.Prelude.{◌≡◌, length};
ghost use Rattle.control.specs.Block.{decode_of};
ghost use Rattle.filter.specs.Lent.{lent_all};
ghost use Rattle.probe_ticks.specs.Ticks as T;

use probe_ticks::TickReply;

// One tick: 1, 2, 4, 10, 12, 11, then what the controls and the tick refuse, and then block and output stay.
#[unsafe(no_mangle)]
pub extern "C" fn probe_tick(
    bundle: &[u8],
    curves: &[u8],
    state: &mut [u8],
    decays: &[u8],
    levels: &[u8],
    voices: &[u8],
    output: &mut [u8],
) -> TickReply
    ensures value { result ≡ T.tick_reply_of
        (T.block_tick_of (lent_all bundle.now curves.now decays.now) levels.now voices.now (length output.old)
        (decode_of state.old)) }
    ensures state_after { state.new ≡ T.ticked_block_of
        (T.block_tick_of (lent_all bundle.now curves.now decays.now) levels.now voices.now (length output.old)
        (decode_of state.old))
        state.old }
    ensures output_after { output.new ≡ T.ticked_output_of
        (T.block_tick_of (lent_all bundle.now curves.now decays.now) levels.now voices.now (length output.old)
        (decode_of state.old))
        output.old }
{
    probe_ticks::probe_tick(bundle, curves, state, decays, levels, voices, output)
}
