// The core: an event on any core that is handed in.
ghost use Rattle.std.specs.Prelude.{◌≡◌};
ghost use Rattle.script.specs.Script.{event_at};
ghost use Rattle.filter.specs.Lent.{lent_all};
ghost use Rattle.probe.specs.Cores as K;

use crate::replies::{self, Told};
use answers::Refusal;
use control::{FilterRegisters, State};
use controls::ControlCache;
use filter::Core;
use integrator::IntegratorState;
use mixing::MixingTopology;
use sample::Outputs;
use transients::TransientState;

// The registers as C lays them out.
#[repr(C)]
#[derive(Clone, Copy)]
pub struct Registers {
    pub cutoff: u16,
    pub displacement: u16,
    pub write_base: u16,
    pub pending: bool,
    pub resonance: u8,
    pub routing: u8,
    pub mode: u8,
    pub volume: u8,
}

// A core, valid and fresh or not.
#[repr(C)]
#[derive(Clone, Copy)]
pub struct Handed {
    pub registers: Registers,
    pub integrator: IntegratorState,
    pub transients: TransientState,
    pub topology: MixingTopology,
    pub controls: ControlCache,
}

// An answer by its numbers, the outputs of a sample, and the core that is handed back.
#[repr(C)]
#[derive(Clone, Copy)]
pub struct Given {
    pub told: Told,
    pub outputs: Outputs,
    pub core: Handed,
}

// Each way by the fields, and the displacement by its sixteen bits.
impl From<Registers> for FilterRegisters {
    ghost from_gives = { λ r registers. registers ≡ K.registers_of r };

    fn from(r: Registers) -> Self {
        Self {
            cutoff: r.cutoff,
            cutoff_dac_displacement_codes: wire::signed16(r.displacement),
            cutoff_write_base: r.write_base,
            cutoff_low_pending: r.pending,
            resonance: r.resonance,
            routing: r.routing,
            mode: r.mode,
            volume: r.volume,
        }
    }
}

impl From<FilterRegisters> for Registers {
    ghost from_gives = { λ r registers. registers ≡ K.registered_of r };

    fn from(r: FilterRegisters) -> Self {
        Self {
            cutoff: r.cutoff,
            displacement: wire::bits16(r.cutoff_dac_displacement_codes),
            write_base: r.cutoff_write_base,
            pending: r.cutoff_low_pending,
            resonance: r.resonance,
            routing: r.routing,
            mode: r.mode,
            volume: r.volume,
        }
    }
}

impl From<Handed> for Core {
    ghost from_gives = { λ h core. core ≡ K.handed_core_of h };

    fn from(h: Handed) -> Self {
        Self {
            state: State {
                registers: h.registers.into(),
                integrator: h.integrator,
                transients: h.transients,
            },
            topology: h.topology,
            controls: h.controls,
        }
    }
}

impl From<Core> for Handed {
    ghost from_gives = { λ k handed. handed ≡ K.handed_of k };

    fn from(k: Core) -> Self {
        Self {
            registers: k.state.registers.into(),
            integrator: k.state.integrator,
            transients: k.state.transients,
            topology: k.topology,
            controls: k.controls,
        }
    }
}

fn numbers(told: Result<Option<Outputs>, Refusal>, core: Core) -> Given
    ensures { result ≡ K.given_with told core }
{
    let (told, outputs) = replies::parted(told, None);
    Given {
        told,
        outputs: outputs.unwrap_or(crate::no_outputs()),
        core: core.into(),
    }
}

// The event at a place of a script, and 7 where there is none.
fn feed_at(
    bundle: &[u8],
    curves: &[u8],
    decays: &[u8],
    core: &mut Core,
    script: &[u8],
    place: usize,
) -> Result<Option<Outputs>, Refusal>
    ensures value { result ≡ K.told_at_of (lent_all bundle.now curves.now decays.now) core.old (event_at script.now place) }
    ensures core_after { core.new ≡ (K.fed_at_of (lent_all bundle.now curves.now decays.now) core.old (event_at script.now place)).core }
{
    let event = script::event_at(script, place).ok_or(Refusal::Script)?;
    core.feed(bundle, curves, decays, event)
}

// One event of twelve bytes on the core that is handed in.
#[tactic(auto, using(crate::proofs::Told::given_fed))]
#[unsafe(no_mangle)]
pub extern "C" fn probe_feed(
    bundle: &[u8],
    curves: &[u8],
    decays: &[u8],
    core: Handed,
    event: &[u8],
) -> Given
    ensures { result ≡ K.given_of (K.fed_at_of (lent_all bundle.now curves.now decays.now) (K.handed_core_of core) (event_at event.now 0)) }
{
    let mut core = Core::from(core);
    let told = feed_at(bundle, curves, decays, &mut core, event, 0);
    numbers(told, core)
}
