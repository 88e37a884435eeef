// The surface: the refusing calls, and the total functions behind them.
ghost use Rattle.std.specs.Prelude.{◌≡◌};
ghost use Rattle.curves.specs.Sampling.{sample_of, summer_resting_output_of};
ghost use Rattle.direct.specs.Calls.{load_position_call_of, sample_call_of};
ghost use Rattle.probe.specs.Replies.{reply_of};
ghost use Rattle.probe.specs.Surface.{load_of};

use crate::replies::{self, Reply};
use answers::Refusal;
use curves::AnalogueLoadPosition;

// The number of an answer, and the position beside it, of a type that C does not have.
#[repr(C)]
#[derive(Clone, Copy)]
pub struct Load {
    pub number: u32,
    pub lower_base: usize,
    pub upper_base: usize,
    pub fraction: f32,
}

impl From<Result<AnalogueLoadPosition, Refusal>> for Load {
    ghost from_gives = { λ handed load. load ≡ load_of handed };

    fn from(handed: Result<AnalogueLoadPosition, Refusal>) -> Self {
        let none = AnalogueLoadPosition {
            lower_base: 0,
            upper_base: 0,
            fraction: 0.0,
        };
        let (told, position) = replies::parted(handed, none);
        Self {
            number: told.number,
            lower_base: position.lower_base,
            upper_base: position.upper_base,
            fraction: position.fraction,
        }
    }
}

#[unsafe(no_mangle)]
pub extern "C" fn probe_load_position(conductance: f32) -> Load
    ensures { result ≡ load_of (load_position_call_of conductance) }
{
    direct::load_position(conductance).into()
}

#[unsafe(no_mangle)]
pub extern "C" fn probe_sample(bundle: &[u8], conductance: f32, input: f32) -> Reply
    ensures { result ≡ reply_of (sample_call_of bundle.now conductance input) }
{
    direct::sample(bundle, conductance, input).into()
}

// The same for any float, and with no look at the bundle.
#[unsafe(no_mangle)]
pub extern "C" fn probe_any_sample(bundle: &[u8], conductance: f32, input: f32) -> f32
    ensures { result ≡ sample_of bundle.now conductance input }
{
    curves::sample(bundle, conductance, input)
}

#[unsafe(no_mangle)]
pub extern "C" fn probe_summer_resting_output(bundle: &[u8], count: u8) -> f32
    ensures { result ≡ summer_resting_output_of bundle.now count }
{
    curves::summer_resting_output(bundle, count)
}
