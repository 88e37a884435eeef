// Records of the register writes.
use control::{FilterRegisters, State};

// The four cutoff fields before a write of register 0, cutoff low, or 1, cutoff high; after it; and the effective cutoff.
pub(crate) fn write(r: &[u8]) -> bool {
    let before = state_at(r);
    let value = wire::byte_at(r, 20);
    let after = if wire::u32_at(r, 16) == 0 {
        before.write_cutoff_low(value)
    } else {
        before.write_cutoff_high(value)
    };
    has_state(r, after)
}

fn state_at(r: &[u8]) -> State {
    let start = State::new();
    let integrator = start.integrator;
    let transients = start.transients;
    State {
        registers: FilterRegisters {
            cutoff: wire::u16_at(r, 0),
            cutoff_dac_displacement_codes: wire::i16_at(r, 4),
            cutoff_write_base: wire::u16_at(r, 8),
            cutoff_low_pending: wire::u32_at(r, 12) == 1,
            resonance: 0,
            routing: 0,
            mode: 0,
            volume: 0,
        },
        integrator,
        transients,
    }
}

fn has_state(r: &[u8], s: State) -> bool {
    let registers = s.registers;
    wire::u16_at(r, 24) == registers.cutoff
        && wire::i16_at(r, 28) == registers.cutoff_dac_displacement_codes
        && wire::u16_at(r, 32) == registers.cutoff_write_base
        && (wire::u32_at(r, 36) == 1) == registers.cutoff_low_pending
        && wire::u16_at(r, 40) == s.effective_cutoff()
}
