// One sample of the filter, on the topology and the controls that a block's registers give.
ghost use Rattle.std.specs.Prelude.{◌≡◌};
ghost use Rattle.control.specs.Block.{decode_of};
ghost use Rattle.probe.specs.Probe.{state_or};
ghost use Rattle.probe.specs.Steps.{sample_step_of, fresh_sample_of};

use crate::replies::{self, Told};
use answers::Refusal;
use control::State;
use integrator::IntegratorState;
use mixing::MixingTopology;
use sample::{Outputs, Sampled};

// An answer by its numbers, the four outputs and the integrator's three numbers after the sample; zeros where it is refused.
#[repr(C)]
#[derive(Clone, Copy)]
pub struct Step {
    pub told: Told,
    pub outputs: Outputs,
    pub state: IntegratorState,
}

impl From<Result<Sampled, Refusal>> for Step {
    ghost from_gives = { λ sampled step. step ≡ sample_step_of sampled };

    fn from(sampled: Result<Sampled, Refusal>) -> Self {
        let none = Sampled {
            outputs: crate::no_outputs(),
            state: crate::no_state(),
        };
        let (told, taken) = replies::parted(sampled, none);
        Self {
            told,
            outputs: taken.outputs,
            state: taken.state,
        }
    }
}

#[tactic(auto, unfolding(crate::specs::Steps::fresh_sample_of))]
fn sampled(
    bundle: &[u8],
    curves: &[u8],
    s: State,
    sum: f32,
    energy: f32,
) -> Result<Sampled, Refusal>
    ensures { result ≡ fresh_sample_of bundle.now curves.now s sum energy }
{
    let topology = MixingTopology::update(s.registers.routing, s.registers.mode);
    sample::filter_sample(
        bundle,
        curves,
        sample::summer_slot(topology),
        topology,
        crate::controls_or(bundle, s),
        s.registers.mode,
        s.integrator,
        sum,
        energy,
    )
}

// Of a valid block's state, and of the starting value for any other.
#[unsafe(no_mangle)]
pub extern "C" fn probe_step(
    bundle: &[u8],
    curves: &[u8],
    block: &[u8],
    sum: f32,
    energy: f32,
) -> Step
    ensures { result ≡ sample_step_of (fresh_sample_of bundle.now curves.now (state_or (decode_of block.now)) sum energy) }
{
    sampled(bundle, curves, crate::state_or(block), sum, energy).into()
}
