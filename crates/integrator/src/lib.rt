// The nonlinear state-variable integrator of the 6581's filter: two capacitors, whose states are the band-pass and the low-pass;
// high-pass is worked out from the input and the feedback.
#![tactic(auto)]

ghost use Rattle.std.specs.Prelude.{◌≡◌};
ghost use Rattle.floats.specs.Arithmetic.{◌⊕◌, ◌⊖◌, ◌⊗◌, f32};
ghost use Rattle.integrator.specs.Integrator.{saturate_of, advance_of, four_substeps_of};
ghost use Rattle.integrator.specs.Tried.{concluded_of, tried_of};

#[repr(C)]
#[derive(Clone, Copy)]
pub struct FilterOutputs {
    pub high_pass: f32,
    pub band_pass: f32,
    pub low_pass: f32,
}

#[repr(C)]
#[derive(Clone, Copy)]
pub struct IntegratorState {
    pub band_state: f32,
    pub low_state: f32,
    pub filter_source_energy: f32,
}

// What stays the same over the substeps of one sample: the resonance's damping, the feedback's drive and the trapezoidal
// rule's three factors.
#[repr(C)]
#[derive(Clone, Copy)]
pub struct Coefficients {
    pub damping: f32,
    pub feedback_drive: f32,
    pub a1: f32,
    pub a2: f32,
    pub a3: f32,
}

// A substep's outputs and the state after it.
#[repr(C)]
#[derive(Clone, Copy)]
pub struct Advanced {
    pub outputs: FilterOutputs,
    pub state: IntegratorState,
}

impl IntegratorState {
    // Soft saturation of the feedback path, without a hard clip.
    pub fn saturate(value: f32, drive: f32) -> f32
        ensures { result ≡ saturate_of value drive }
    {
        let x = value * drive;
        let square = x * x;
        value * (27.0 + square) / (27.0 + 9.0 * square)
    }

    // What the capacitors are fed: the driven input, less the damping of what saturation adds to the band.
    fn effective_input(self, driven_input: f32, k: Coefficients) -> f32
        ensures { result ≡ driven_input ⊖ k.damping ⊗ (saturate_of self.band_state k.feedback_drive ⊖ self.band_state) }
    {
        let previous_band = self.band_state;
        let nonlinear_band = IntegratorState::saturate(previous_band, k.feedback_drive);
        driven_input - k.damping * (nonlinear_band - previous_band)
    }

    fn band_output(self, residual: f32, k: Coefficients) -> f32
        ensures { result ≡ k.a1 ⊗ self.band_state ⊕ k.a2 ⊗ residual }
    {
        k.a1 * self.band_state + k.a2 * residual
    }

    fn low_output(self, residual: f32, k: Coefficients) -> f32
        ensures { result ≡ self.low_state ⊕ k.a2 ⊗ self.band_state ⊕ k.a3 ⊗ residual }
    {
        self.low_state + k.a2 * self.band_state + k.a3 * residual
    }

    // A capacitor's next state by the trapezoidal rule, from its output and the state before.
    fn trapezoidal(output: f32, previous: f32) -> f32
        ensures { result ≡ f32 0x4000_0000 ⊗ output ⊖ previous }
    {
        2.0 * output - previous
    }

    // The outputs and the next state of a substep whose band and low are worked out.
    fn concluded(self, effective_input: f32, damping: f32, band: f32, low: f32) -> Advanced
        ensures { result ≡ concluded_of self effective_input damping band low }
    {
        Advanced {
            outputs: FilterOutputs {
                high_pass: effective_input - damping * band - low,
                band_pass: band,
                low_pass: low,
            },
            state: IntegratorState {
                band_state: IntegratorState::trapezoidal(band, self.band_state),
                low_state: IntegratorState::trapezoidal(low, self.low_state),
                filter_source_energy: self.filter_source_energy,
            },
        }
    }

    // One substep of the two capacitors.
    pub fn advance(self, driven_input: f32, k: Coefficients) -> Advanced
        ensures { result ≡ advance_of self driven_input k }
    {
        let effective_input = self.effective_input(driven_input, k);
        let residual = effective_input - self.low_state;
        let band = self.band_output(residual, k);
        let low = self.low_output(residual, k);
        self.concluded(effective_input, k.damping, band, low)
    }

    // The same, where band's next state and the high output are finite. The test between band and low keeps the compiler from pairing the two in one
    // vector, whose shuffles would stand on the chain of the substeps.
    fn tried(self, driven_input: f32, k: Coefficients) -> Option<Advanced>
        ensures { result ≡ tried_of self driven_input k }
    {
        let effective_input = self.effective_input(driven_input, k);
        let residual = effective_input - self.low_state;
        let band = self.band_output(residual, k);
        if !floats::is_finite(IntegratorState::trapezoidal(band, self.band_state)) {
            return None;
        }
        let low = self.low_output(residual, k);
        let advanced = self.concluded(effective_input, k.damping, band, low);
        floats::is_finite(advanced.outputs.high_pass).then_some(advanced)
    }

    // The four substeps of one sample, with the same input and coefficients, where the state and the outputs stayed finite in each. Low's state is finite
    // where the next one is, so that the last alone is looked at; the energy stays what it is.
    pub fn four_substeps(self, driven_input: f32, k: Coefficients) -> Option<Advanced>
        ensures { result ≡ four_substeps_of self driven_input k }
    {
        if !floats::is_finite(self.filter_source_energy) {
            return None;
        }
        let first = self.tried(driven_input, k)?;
        let second = first.state.tried(driven_input, k)?;
        let third = second.state.tried(driven_input, k)?;
        let fourth = third.state.tried(driven_input, k)?;
        floats::is_finite(fourth.state.low_state).then_some(fourth)
    }
}

// `IntegratorState::advance` over a state that is lent to be changed: the value form, stored.
pub fn advance_in_place(
    state: &mut IntegratorState,
    driven_input: f32,
    k: Coefficients,
) -> FilterOutputs
    ensures { (result ≡ (advance_of state.old driven_input k).outputs) × (state.new ≡ (advance_of state.old driven_input k).state) }
{
    let next = (*state).advance(driven_input, k);
    *state = next.state;
    next.outputs
}
