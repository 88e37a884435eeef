// Ticks on a core, beside its events: a tick is one more turn of the machine, and changes the core in place.
#![tactic(auto)]

ghost use Rattle.std.specs.Prelude.{◌≡◌, []};
ghost use Rattle.filter.specs.Core.{started_of};
ghost use Rattle.filter.specs.Lent.{lent_all};
ghost use Rattle.turns.specs.Turns as T;

use answers::{Answer, Refusal};
use clock::{Settings, TickOutputs};
use control::State;
use filter::Core;

// ---- what is lent

// The external input's three levels are 12 bytes, each finite. Refuses 11.
#[tactic(auto, unfolding(crate::specs::Turns::judge_levels_of, signals::specs::Lent::finite_three_at))]
pub fn judge_levels(levels: &[u8]) -> Answer
    ensures { result ≡ T.judge_levels_of levels.now }
{
    let finite = wire::finite_at(levels, 0)
        & wire::finite_at(levels, 4)
        & wire::finite_at(levels, 8);
    answers::unless((levels.len() == 12) & finite, Refusal::Sources)
}

// A tick's three voices are 36 bytes, each valid. Refuses 11.
#[tactic(auto, unfolding(crate::specs::Turns::judge_voices_of))]
pub fn judge_voices(voices: &[u8]) -> Answer
    ensures { result ≡ T.judge_voices_of voices.now }
{
    answers::unless(signals::valid_voices(voices), Refusal::Sources)
}

// Works the core of a state out: the first core of a list with ticks. Refuses 1, 2, 4, 10, 12, 11, 3, 6.
pub fn start(
    bundle: &[u8],
    curves: &[u8],
    decays: &[u8],
    levels: &[u8],
    state: State,
) -> Result<Core, Refusal>
    ensures { result ≡ started_of (T.turn_start_of (lent_all bundle.now curves.now decays.now) levels.now state) }
{
    filter::judge_lent(bundle, curves)?;
    answers::unless(state.is_valid(), Refusal::Argument)?;
    transients::judge_decays(decays)?;
    judge_levels(levels)?;
    Core::start(bundle, curves, decays, state)
}

// ---- the tick

fn settings_of(core: &Core, decays: &[u8], levels: &[u8]) -> Settings
    ensures { result ≡ T.settings_of (lent_all [] [] decays.now) levels.now core.now.state.registers core.now.topology core.now.controls.output }
{
    let registers = core.state.registers;
    Settings {
        slots: clock::slots_of(core.topology, registers.volume),
        topology: core.topology,
        output: core.controls.output,
        mode: registers.mode,
        volume: registers.volume,
        factors: clock::factors_of(decays),
        external: signals::external_of(levels),
    }
}

// What a tick makes of a core that is not refused: the registers stay, and so does all that is kept. Refuses 3, 6.
fn take_tick(
    core: &mut Core,
    bundle: &[u8],
    curves: &[u8],
    decays: &[u8],
    levels: &[u8],
    voices: &[u8],
) -> Result<TickOutputs, Refusal>
    ensures value { result ≡ T.tick_outputs_of (T.take_tick_of (lent_all bundle.now curves.now decays.now) levels.now core.old voices.now) }
    ensures core_after { core.new ≡ (T.take_tick_of (lent_all bundle.now curves.now decays.now) levels.now core.old voices.now).core }
{
    let ticked = clock::clock(
        bundle,
        curves,
        core.controls,
        settings_of(core, decays, levels),
        core.state.integrator,
        core.state.transients,
        signals::voices_of(voices),
    )?;
    core.state.integrator = ticked.integrator;
    core.state.transients = ticked.transients;
    Ok(ticked.outputs)
}

// What a tick judges before its stages: 1, 2, 4, 10, 12, 11.
pub fn judge_tick(
    core: &Core,
    bundle: &[u8],
    curves: &[u8],
    decays: &[u8],
    levels: &[u8],
    voices: &[u8],
) -> Answer
    ensures { result ≡ T.judge_tick_of (lent_all bundle.now curves.now decays.now) levels.now core.now voices.now }
{
    filter::judge_lent(bundle, curves)?;
    core.judge()?;
    transients::judge_decays(decays)?;
    judge_levels(levels)?;
    judge_voices(voices)
}

// One tick of a core with three voices, lent all that a list is lent. Refuses 1, 2, 4, 10, 12, 11, and then 3 and 6 stage by stage. A refused tick leaves the core as it was.
pub fn tick(
    core: &mut Core,
    bundle: &[u8],
    curves: &[u8],
    decays: &[u8],
    levels: &[u8],
    voices: &[u8],
) -> Result<TickOutputs, Refusal>
    ensures value { result ≡ T.tick_outputs_of (T.core_tick_of (lent_all bundle.now curves.now decays.now) levels.now core.old voices.now) }
    ensures core_after { core.new ≡ (T.core_tick_of (lent_all bundle.now curves.now decays.now) levels.now core.old voices.now).core }
{
    judge_tick(core, bundle, curves, decays, levels, voices)?;
    take_tick(core, bundle, curves, decays, levels, voices)
}
