// The filter's registers, its state and the state's 68-byte block, with the 24-byte block of a state without transients.
#![tactic(auto)]

ghost use Rattle.std.specs.Prelude.{◌≡◌};
ghost use Rattle.control.specs.Registers.{starting_registers, starting_state, of_registers, step_between_of, displacement_of, displaced_of};
ghost use Rattle.control.specs.Registers.{previous_cutoff_of, effective_cutoff_of, write_cutoff_low_of, write_cutoff_high_of, write_signal_routing_of, write_mode_and_volume_of};
ghost use Rattle.control.specs.Block.{valid_registers_of, finite_floats_of, valid_of, narrow_bytes, register_fields_of, integrator_fields_of, tidy_of, fields_of, decode_of, encode_of};
ghost use Rattle.control.specs.Widening.{widens_of, widened_of};

use constants::{FILTER_CUTOFF_STEP_CHARGE_GAIN, FILTER_CUTOFF_STEP_CHARGE_LIMIT_CODES};
use integrator::IntegratorState;
use transients::TransientState;

// The registers as written, and the displacement that the last step of the cutoff left on its DAC, with where the next step starts.
#[derive(Clone, Copy)]
pub struct FilterRegisters {
    pub cutoff: u16,
    pub cutoff_dac_displacement_codes: i16,
    pub cutoff_write_base: u16,
    pub cutoff_low_pending: bool,
    pub resonance: u8,
    pub routing: u8,
    pub mode: u8,
    pub volume: u8,
}

// What the register writes and the samples change: all else is worked out from it.
#[derive(Clone, Copy)]
pub struct State {
    pub registers: FilterRegisters,
    pub integrator: IntegratorState,
    pub transients: TransientState,
}

// The DAC's displacement after a step of the cutoff code: a signed count of codes.
fn displacement(step: i32) -> i16
    ensures { result ≡ displacement_of step }
{
    let limit = floats::of_i16(FILTER_CUTOFF_STEP_CHARGE_LIMIT_CODES);
    let charge = floats::round(floats::of_i32(step) * FILTER_CUTOFF_STEP_CHARGE_GAIN);
    floats::as_i16(floats::clamp(charge, -limit, limit))
}

// The step from one cutoff code to another.
fn step_between(previous: u16, next: u16) -> i32
    ensures { result ≡ step_between_of previous next }
{
    (next as i32) - (previous as i32)
}

// A cutoff code with a displacement on it, within the DAC's codes. The sum is an i32, so that it is right for every code.
fn displaced(cutoff: u16, displacement: i16) -> u16
    ensures { result ≡ displaced_of cutoff displacement }
{
    let displaced = (cutoff as i32) + (displacement as i32);
    if displaced < 0 {
        return 0;
    }
    if (State::CUTOFF_MAX as i32) < displaced {
        return State::CUTOFF_MAX;
    }
    displaced as u16
}

fn finite_floats(i: IntegratorState) -> bool
    ensures { result ≡ finite_floats_of i }
{
    floats::finite_f32(i.band_state)
        & floats::finite_f32(i.low_state)
        & floats::finite_f32(i.filter_source_energy)
}

// The floats of a block's integrator, finite or not.
fn integrator_fields(block: &[u8]) -> IntegratorState
    ensures { result ≡ integrator_fields_of block.now }
{
    IntegratorState {
        band_state: wire::f32_at(block, 12),
        low_state: wire::f32_at(block, 16),
        filter_source_energy: wire::f32_at(block, 20),
    }
}

// Whether the pending byte of a block is 0 or 1, and its zero byte zero.
fn tidy(block: &[u8]) -> bool
    ensures { result ≡ tidy_of block.now }
{
    (wire::byte_at(block, 6) <= 1) & (wire::byte_at(block, 11) == 0)
}

impl FilterRegisters {
    pub fn new() -> Self
        ensures { result ≡ starting_registers }
    {
        Self {
            cutoff: 0,
            cutoff_dac_displacement_codes: 0,
            cutoff_write_base: 0,
            cutoff_low_pending: false,
            resonance: 0,
            routing: 0,
            mode: 0,
            volume: 0,
        }
    }

    fn is_valid(self) -> bool
        ensures { result ≡ valid_registers_of self }
    {
        ((self.cutoff <= State::CUTOFF_MAX)
            & (self.cutoff_write_base <= State::CUTOFF_MAX)
            & (State::DISPLACEMENT_MIN <= self.cutoff_dac_displacement_codes)
            & (self.cutoff_dac_displacement_codes <= State::DISPLACEMENT_MAX))
            & ((self.resonance <= State::NIBBLE_MAX)
                & (self.routing <= State::NIBBLE_MAX)
                & (self.mode <= State::NIBBLE_MAX)
                & (self.volume <= State::NIBBLE_MAX))
    }

    // The registers that a block's fields stand for, valid or not.
    fn fields(block: &[u8]) -> Self
        ensures { result ≡ register_fields_of block.now }
    {
        Self {
            cutoff: wire::u16_at(block, 0),
            cutoff_dac_displacement_codes: wire::i16_at(block, 2),
            cutoff_write_base: wire::u16_at(block, 4),
            cutoff_low_pending: wire::byte_at(block, 6) == 1,
            resonance: wire::byte_at(block, 7),
            routing: wire::byte_at(block, 8),
            mode: wire::byte_at(block, 9),
            volume: wire::byte_at(block, 10),
        }
    }

    // The cutoff that the DAC gives: the code with its displacement.
    pub fn effective_cutoff(self) -> u16
        ensures { result ≡ effective_cutoff_of (of_registers self) }
    {
        displaced(self.cutoff, self.cutoff_dac_displacement_codes)
    }

    // FC LO gives the cutoff's three lowest bits; the others stay.
    pub fn write_cutoff_low(mut self, value: u8) -> Self
        ensures { result ≡ (write_cutoff_low_of (of_registers self) value).registers }
    {
        self.cutoff_write_base = self.cutoff;
        self.cutoff_low_pending = true;
        self.cutoff = self.cutoff / 8 % 256 * 8 + (value % 8) as u16;
        self
    }

    // FC HI gives the cutoff's upper eight bits; the others stay. The step displaces the cutoff DAC.
    pub fn write_cutoff_high(mut self, value: u8) -> Self
        ensures { result ≡ (write_cutoff_high_of (of_registers self) value).registers }
    {
        let previous = self.previous_cutoff();
        let next = (value as u16) * 8 + self.cutoff % 8;
        self.cutoff_dac_displacement_codes = displacement(step_between(previous, next));
        self.cutoff = next;
        self.cutoff_low_pending = false;
        self
    }

    // RES/FILT gives the resonance and the routing.
    pub fn write_signal_routing(mut self, value: u8) -> Self
        ensures { result ≡ (write_signal_routing_of (of_registers self) value).registers }
    {
        self.routing = value % 16;
        self.resonance = value / 16;
        self
    }

    // MODE/VOL gives the mode and the volume.
    pub fn write_mode_and_volume(mut self, value: u8) -> Self
        ensures { result ≡ (write_mode_and_volume_of (of_registers self) value).registers }
    {
        self.volume = value % 16;
        self.mode = value / 16;
        self
    }

    // The code from which a write of FC HI steps: the one before a pending write of FC LO, if there is one.
    fn previous_cutoff(self) -> u16
        ensures { result ≡ previous_cutoff_of self }
    {
        if self.cutoff_low_pending {
            self.cutoff_write_base
        } else {
            self.cutoff
        }
    }
}

impl State {
    // The length of a state's block, and of the block that has no transients.
    pub const BYTES: usize = 68;

    pub const NARROW_BYTES: usize = 24;

    // The largest cutoff, a code of 11 bits; the largest value of a field of 4 bits; and the displacement's two ends.
    pub const CUTOFF_MAX: u16 = 2047;

    pub const NIBBLE_MAX: u8 = 15;

    pub const DISPLACEMENT_MIN: i16 = -FILTER_CUTOFF_STEP_CHARGE_LIMIT_CODES;

    pub const DISPLACEMENT_MAX: i16 = FILTER_CUTOFF_STEP_CHARGE_LIMIT_CODES;

    pub fn new() -> Self
        ensures { result ≡ starting_state }
    {
        let registers = FilterRegisters::new();
        Self {
            registers,
            integrator: IntegratorState {
                band_state: 0.0,
                low_state: 0.0,
                filter_source_energy: 0.0,
            },
            transients: TransientState::new(),
        }
    }

    // A write gives the registers their new values; MODE/VOL charges the output node by the step of the volume too.
    pub fn write_cutoff_low(mut self, value: u8) -> Self
        ensures { result ≡ write_cutoff_low_of self value }
    {
        let registers = self.registers;
        self.registers = registers.write_cutoff_low(value);
        self
    }

    pub fn write_cutoff_high(mut self, value: u8) -> Self
        ensures { result ≡ write_cutoff_high_of self value }
    {
        let registers = self.registers;
        self.registers = registers.write_cutoff_high(value);
        self
    }

    pub fn write_signal_routing(mut self, value: u8) -> Self
        ensures { result ≡ write_signal_routing_of self value }
    {
        let registers = self.registers;
        self.registers = registers.write_signal_routing(value);
        self
    }

    pub fn write_mode_and_volume(mut self, value: u8) -> Self
        ensures { result ≡ write_mode_and_volume_of self value }
    {
        let registers = self.registers;
        let transients = self.transients;
        self.registers = registers.write_mode_and_volume(value);
        self.transients = transients.charge(value % 16);
        self
    }

    pub fn reset(self) -> Self
        ensures { result ≡ starting_state }
    {
        State::new()
    }

    pub fn effective_cutoff(self) -> u16
        ensures { result ≡ effective_cutoff_of self }
    {
        let registers = self.registers;
        registers.effective_cutoff()
    }

    pub fn is_valid(self) -> bool
        ensures { result ≡ valid_of self }
    {
        let registers = self.registers;
        let integrator = self.integrator;
        let transients = self.transients;
        registers.is_valid() & finite_floats(integrator) & transients.is_finite()
    }

    // The block's first 24 bytes.
    fn narrow(self) -> [u8; 24]
        ensures { result ≡ narrow_bytes self.registers self.integrator }
    {
        let registers = self.registers;
        let integrator = self.integrator;
        let cutoff = registers.cutoff;
        let displacement = wire::bits16(registers.cutoff_dac_displacement_codes);
        let base = registers.cutoff_write_base;
        let band = wire::float_bits(integrator.band_state);
        let low = wire::float_bits(integrator.low_state);
        let energy = wire::float_bits(integrator.filter_source_energy);
        [
            (cutoff % 256) as u8,
            (cutoff / 256 % 256) as u8,
            (displacement % 256) as u8,
            (displacement / 256 % 256) as u8,
            (base % 256) as u8,
            (base / 256 % 256) as u8,
            registers.cutoff_low_pending as u8,
            registers.resonance,
            registers.routing,
            registers.mode,
            registers.volume,
            0,
            (band % 256) as u8,
            (band / 256 % 256) as u8,
            (band / 256 / 256 % 256) as u8,
            (band / 256 / 256 / 256 % 256) as u8,
            (low % 256) as u8,
            (low / 256 % 256) as u8,
            (low / 256 / 256 % 256) as u8,
            (low / 256 / 256 / 256 % 256) as u8,
            (energy % 256) as u8,
            (energy / 256 % 256) as u8,
            (energy / 256 / 256 % 256) as u8,
            (energy / 256 / 256 / 256 % 256) as u8,
        ]
    }

    // Writes the state's block where 68 bytes are lent.
    pub fn encode(self, dst: &mut [u8])
        ensures { dst.new ≡ encode_of self dst.old }
    {
        if dst.len() == State::BYTES {
            let narrow = self.narrow();
            let transients = self.transients;
            let last = transients.bytes();
            wire::put(dst, 0, &narrow);
            wire::put(dst, 24, &last);
        }
    }

    // The state that a block's fields stand for, valid or not.
    pub fn fields(block: &[u8]) -> Self
        ensures { result ≡ fields_of block.now }
    {
        Self {
            registers: FilterRegisters::fields(block),
            integrator: integrator_fields(block),
            transients: TransientState::fields(block),
        }
    }

    // The state of a valid block. Its length is looked at first, so that no field needs a test of its own.
    pub fn decode(block: &[u8]) -> Option<Self>
        ensures { result ≡ decode_of block.now }
    {
        if block.len() != State::BYTES {
            return None;
        }
        let state = State::fields(block);
        (tidy(block) & TransientState::tidy(block) & state.is_valid()).then_some(state)
    }

    // A 24-byte block as one of 68 bytes: nothing charged, and the conductance of its volume. Where either is not as it should be the target stays.
    pub fn widen(block: &[u8], wide: &mut [u8]) -> bool
        ensures value { result ≡ widens_of block.now wide.old }
        ensures wide_after { wide.new ≡ widened_of block.now wide.old }
    {
        let registers = FilterRegisters::fields(block);
        let integrator = integrator_fields(block);
        let transients = TransientState::at_volume(registers.volume);
        let state = Self {
            registers,
            integrator,
            transients,
        };
        if (block.len() == State::NARROW_BYTES)
            & tidy(block)
            & state.is_valid()
            & (wide.len() == State::BYTES)
        {
            state.encode(wide);
            return true;
        }
        false
    }
}
