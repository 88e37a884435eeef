// Where on its curve an amplifier stands, for a window that draws it: the summer and the mixer by their nibbles, and the summer for a state.
#![tactic(auto)]

ghost use Rattle.std.specs.Prelude.{◌≡◌};
ghost use Rattle.filter.specs.Lent.{lent_of};
ghost use Rattle.points.specs.Points as P;

use answers::Refusal;
use control::State;
use curves::CurvePoint;
use mixing::MixingTopology;

// ---- by nibbles

// What the summer makes of the sum of the inputs that a routing nibble gives it. Refuses 1, 2, 4, 10, 5, 3, 6.
#[tactic(auto, unfolding(crate::specs::Points::summer_call_of))]
pub fn summer(
    bundle: &[u8],
    curves: &[u8],
    routing: u8,
    input_sum: f32,
) -> Result<CurvePoint, Refusal>
    ensures { result ≡ P.summer_call_of (lent_of bundle.now curves.now) routing input_sum }
{
    filter::judge_lent(bundle, curves)?;
    answers::unless(routing <= 15, Refusal::Argument)?;
    let topology = MixingTopology::update(routing, 0);
    direct::summer_transfer(bundle, curves, topology, input_sum)
}

// What the mixer makes of the sum of the inputs that a routing and a mode nibble give it. Refuses 4, 10, 3, 6.
#[tactic(auto, unfolding(crate::specs::Points::mixer_call_of))]
pub fn mixer(curves: &[u8], routing: u8, mode: u8, input_sum: f32) -> Result<CurvePoint, Refusal>
    ensures { result ≡ P.mixer_call_of curves.now routing mode input_sum }
{
    curves::judge_length(curves)?;
    answers::unless((routing <= 15) & (mode <= 15), Refusal::Argument)?;
    direct::mixer_transfer(curves, MixingTopology::update(routing, mode), input_sum)
}

// ---- of a sample

// The summer's point for a state; where a sample is idle it reads no curve.
pub fn state_point(bundle: &[u8], curves: &[u8], state: State, input_sum: f32) -> CurvePoint
    ensures { result ≡ P.state_point_of (lent_of bundle.now curves.now) state input_sum }
{
    let topology = filter::fresh_topology(state);
    if sample::is_idle(topology.filter_input_count, state.integrator) {
        return curves::no_point();
    }
    let slot = sample::summer_slot(topology);
    sample::summer_point(bundle, curves, slot, topology, input_sum)
}

// A script of one sample.
pub fn sample_script(input_sum: f32, source_energy: f32) -> [u8; 20]
    ensures { result ≡ P.sample_script_of input_sum source_energy }
{
    let mut script = [0; 20];
    wire::put_row(&mut script, 0, 1, 8, 4, wire::float_bits(input_sum));
    wire::put_f32(&mut script, 16, source_energy);
    script
}
