// The core: the state with what is kept of it between events, its register writes, its samples and its reset.
#![tactic(auto)]

ghost use Rattle.std.specs.Prelude.{◌≡◌};
ghost use Rattle.script.specs.declared.Event.TheVariants.{CutoffLow, CutoffHigh, Routing, Mode, Reset};
ghost use Rattle.filter.specs.Lent.{lent_of, lent_all, judge_lent_of};
ghost use Rattle.filter.specs.Core as F;
ghost use Rattle.filter.specs.Lists.{told_of};

use answers::{Answer, Refusal};
use control::State;
use controls::ControlCache;
use mixing::MixingTopology;
use sample::Outputs;
use script::Event;

// The state, with the topology and the controls that are kept so that a sample need not work them out.
#[derive(Clone, Copy)]
pub struct Core {
    pub state: State,
    pub topology: MixingTopology,
    pub controls: ControlCache,
}

// ---- what a call judges before its event

// What is lent: 1, 2, 4.
pub fn judge_lent(bundle: &[u8], curves: &[u8]) -> Answer
    ensures { result ≡ judge_lent_of (lent_of bundle.now curves.now) }
{
    bundle::check(bundle)?;
    curves::judge_length(curves)
}

// Counts that the chip has, and finite reciprocals.
fn countable(topology: MixingTopology) -> bool
    ensures { result ≡ F.countable_of topology }
{
    (topology.filter_input_count <= 4)
        & (topology.filter_output_count <= 3)
        & (topology.mixer_input_count <= 7)
        & floats::is_finite(topology.filter_input_reciprocal)
        & floats::is_finite(topology.summer_input_reciprocal)
        & floats::is_finite(topology.mixer_input_reciprocal)
}

// Indexes within their tables, and finite controls.
fn sound(controls: ControlCache) -> bool
    ensures { result ≡ F.sound_of controls }
{
    (controls.filter.effective_cutoff_index <= State::CUTOFF_MAX as usize)
        & (controls.filter.resonance_index <= State::NIBBLE_MAX as usize)
        & controls::finite_controls(controls)
}

// The topology of a state.
pub fn fresh_topology(state: State) -> MixingTopology
    ensures { result ≡ F.fresh_topology_of state }
{
    MixingTopology::update(state.registers.routing, state.registers.mode)
}

impl Core {
    // Works the core of a state out: the first core of a list of events. Refuses 1, 2, 4, 10, 12, 3, 6.
    pub fn start(bundle: &[u8], curves: &[u8], decays: &[u8], state: State) -> Result<Self, Refusal>
        ensures { result ≡ F.started_of (F.core_start_of (lent_all bundle.now curves.now decays.now) state) }
    {
        judge_lent(bundle, curves)?;
        answers::unless(state.is_valid(), Refusal::Argument)?;
        transients::judge_decays(decays)?;
        let controls = refresh::refresh(bundle, state)?;
        Ok(Self {
            state,
            topology: fresh_topology(state),
            controls,
        })
    }

    // A core that is handed in: 10 where its state is invalid, an index past its table or a number not finite. What is merely stale is taken.
    pub fn judge(&self) -> Answer
        ensures { result ≡ F.judge_core_of self.now }
    {
        let whole = self.state.is_valid() & countable(self.topology) & sound(self.controls);
        answers::unless(whole, Refusal::Argument)
    }

    // The core takes a state and a topology, with every control worked out afresh. Refuses 3, 6.
    fn refresh(&mut self, bundle: &[u8], state: State, topology: MixingTopology) -> Answer
        ensures value { result ≡ (F.refreshed_of bundle.now self.old state topology).answer }
        ensures core_after { self.new ≡ (F.refreshed_of bundle.now self.old state topology).core }
    {
        let fresh = refresh::refresh(bundle, state)?;
        *self = Self {
            state,
            topology,
            controls: fresh,
        };
        Ok(())
    }

    // The same with the filter's controls as they are: mode and volume have no part in them. The charges are judged last. Refuses 3, 6.
    fn reselect(&mut self, bundle: &[u8], state: State, topology: MixingTopology) -> Answer
        ensures value { result ≡ (F.reselected_of bundle.now self.old state topology).answer }
        ensures core_after { self.new ≡ (F.reselected_of bundle.now self.old state topology).core }
    {
        let registers = state.registers;
        let gain = refresh::read_mode_output_gain(bundle, registers, state.effective_cutoff())?;
        answers::unless(state.transients.finite_charges(), Refusal::Domain)?;
        self.state = state;
        self.topology = topology;
        self.controls.mode_output_gain = gain;
        self.controls.output = controls::refresh_register_output_state(registers);
        Ok(())
    }

    // What an event that is no sample makes of the core. Refuses 3, 6.
    fn change(&mut self, bundle: &[u8], event: Event) -> Answer
        ensures value { result ≡ (F.change_of bundle.now self.old event).answer }
        ensures core_after { self.new ≡ (F.change_of bundle.now self.old event).core }
    {
        let state = self.state;
        let topology = self.topology;
        match event {
            Event::CutoffLow(value) => {
                self.refresh(bundle, state.write_cutoff_low(value), topology)
            }
            Event::CutoffHigh(value) => {
                self.refresh(bundle, state.write_cutoff_high(value), topology)
            }
            Event::Routing(value) => {
                let rerouted = state.write_signal_routing(value);
                self.refresh(bundle, rerouted, fresh_topology(rerouted))
            }
            Event::Mode(value) => {
                let next = state.write_mode_and_volume(value);
                self.reselect(bundle, next, fresh_topology(next))
            }
            Event::Sample { .. } => Ok(()),
            Event::Reset => {
                let start = State::new();
                self.refresh(bundle, start, fresh_topology(start))
            }
        }
    }

    // What a sample makes of the core: the registers stay, and so does all that is kept. Refuses 5, 3, 6.
    fn take(
        &mut self,
        bundle: &[u8],
        curves: &[u8],
        input_sum: f32,
        source_energy: f32,
    ) -> Result<Outputs, Refusal>
        ensures value { result ≡ F.outputs_of (F.take_of (lent_of bundle.now curves.now) self.old input_sum source_energy) }
        ensures core_after { self.new ≡ (F.take_of (lent_of bundle.now curves.now) self.old input_sum source_energy).core }
    {
        let sampled = sample::filter_sample(
            bundle,
            curves,
            sample::summer_slot(self.topology),
            self.topology,
            self.controls,
            self.state.registers.mode,
            self.state.integrator,
            input_sum,
            source_energy,
        )?;
        self.state.integrator = sampled.state;
        Ok(sampled.outputs)
    }

    // Any event, and the outputs of a sample.
    fn feed_event(
        &mut self,
        bundle: &[u8],
        curves: &[u8],
        event: Event,
    ) -> Result<Option<Outputs>, Refusal>
        ensures value { result ≡ told_of event (F.feed_event_of (lent_of bundle.now curves.now) self.old event) }
        ensures core_after { self.new ≡ (F.feed_event_of (lent_of bundle.now curves.now) self.old event).core }
    {
        if let Event::Sample {
            input_sum,
            source_energy,
        } = event
        {
            let outputs = self.take(bundle, curves, input_sum, source_energy)?;
            return Ok(Some(outputs));
        }
        self.change(bundle, event)?;
        Ok(None)
    }

    // A write, lent the bundle alone.
    fn write(&mut self, bundle: &[u8], event: Event) -> Answer
        ensures value { result ≡ (F.core_write_of bundle.now self.old event).answer }
        ensures core_after { self.new ≡ (F.core_write_of bundle.now self.old event).core }
    {
        bundle::check(bundle)?;
        self.judge()?;
        self.change(bundle, event)
    }

    // FC LO. Refuses 1, 2, 10, 3, 6, as each write does. A refused call leaves the core as it was.
    pub fn write_cutoff_low(&mut self, bundle: &[u8], value: u8) -> Answer
        ensures value { result ≡ (F.core_write_of bundle.now self.old (CutoffLow value)).answer }
        ensures core_after { self.new ≡ (F.core_write_of bundle.now self.old (CutoffLow value)).core }
    {
        self.write(bundle, Event::CutoffLow(value))
    }

    // FC HI.
    pub fn write_cutoff_high(&mut self, bundle: &[u8], value: u8) -> Answer
        ensures value { result ≡ (F.core_write_of bundle.now self.old (CutoffHigh value)).answer }
        ensures core_after { self.new ≡ (F.core_write_of bundle.now self.old (CutoffHigh value)).core }
    {
        self.write(bundle, Event::CutoffHigh(value))
    }

    // RES/FILT: the topology follows.
    pub fn write_signal_routing(&mut self, bundle: &[u8], value: u8) -> Answer
        ensures value { result ≡ (F.core_write_of bundle.now self.old (Routing value)).answer }
        ensures core_after { self.new ≡ (F.core_write_of bundle.now self.old (Routing value)).core }
    {
        self.write(bundle, Event::Routing(value))
    }

    // MODE/VOL: the topology follows, the filter's controls stay.
    pub fn write_mode_and_volume(&mut self, bundle: &[u8], value: u8) -> Answer
        ensures value { result ≡ (F.core_write_of bundle.now self.old (Mode value)).answer }
        ensures core_after { self.new ≡ (F.core_write_of bundle.now self.old (Mode value)).core }
    {
        self.write(bundle, Event::Mode(value))
    }

    // The core of the starting value.
    pub fn reset(&mut self, bundle: &[u8]) -> Answer
        ensures value { result ≡ (F.core_write_of bundle.now self.old Reset).answer }
        ensures core_after { self.new ≡ (F.core_write_of bundle.now self.old Reset).core }
    {
        self.write(bundle, Event::Reset)
    }

    // One sample, lent bundle and curves. Refuses 1, 2, 4, 10, 5, 3, 6.
    pub fn sample(
        &mut self,
        bundle: &[u8],
        curves: &[u8],
        input_sum: f32,
        source_energy: f32,
    ) -> Result<Outputs, Refusal>
        ensures value { result ≡ F.outputs_of (F.core_sample_of (lent_of bundle.now curves.now) self.old input_sum source_energy) }
        ensures core_after { self.new ≡ (F.core_sample_of (lent_of bundle.now curves.now) self.old input_sum source_energy).core }
    {
        judge_lent(bundle, curves)?;
        self.judge()?;
        self.take(bundle, curves, input_sum, source_energy)
    }

    // Any event, lent all that a list is lent, and the outputs of a sample. Refuses 1, 2, 4, 10, 12, and then as its method does.
    pub fn feed(
        &mut self,
        bundle: &[u8],
        curves: &[u8],
        decays: &[u8],
        event: Event,
    ) -> Result<Option<Outputs>, Refusal>
        ensures value { result ≡ told_of event (F.feed_of (lent_all bundle.now curves.now decays.now) self.old event) }
        ensures core_after { self.new ≡ (F.feed_of (lent_all bundle.now curves.now decays.now) self.old event).core }
    {
        let known = answers::first(judge_lent(bundle, curves), self.judge());
        answers::first(known, transients::judge_decays(decays))?;
        self.feed_event(bundle, curves, event)
    }
}
