// Records of the integrator.
use integrator::{Advanced, Coefficients, IntegratorState};
use replay::{has, has_floats, part};

pub(crate) fn saturate(r: &[u8]) -> bool {
    has(
        r,
        8,
        IntegratorState::saturate(wire::f32_at(r, 0), wire::f32_at(r, 4)),
    )
}

pub(crate) fn advance(r: &[u8]) -> bool {
    has_advanced(
        r,
        32,
        state_at(r).advance(wire::f32_at(r, 8), coefficients_at(r)),
    )
}

// The last of four substeps, or that one of them left the finite domain.
pub(crate) fn substeps(r: &[u8]) -> bool {
    let settled = [32, 52, 72, 92]
        .iter()
        .all(|&place| is_settled(part(r, place, 20)));
    match state_at(r).four_substeps(wire::f32_at(r, 8), coefficients_at(r)) {
        Some(last) => settled && has_advanced(r, 92, last),
        None => !settled,
    }
}

fn state_at(r: &[u8]) -> IntegratorState {
    IntegratorState {
        band_state: wire::f32_at(r, 0),
        low_state: wire::f32_at(r, 4),
        filter_source_energy: 0.0,
    }
}

fn coefficients_at(r: &[u8]) -> Coefficients {
    Coefficients {
        damping: wire::f32_at(r, 12),
        feedback_drive: wire::f32_at(r, 16),
        a1: wire::f32_at(r, 20),
        a2: wire::f32_at(r, 24),
        a3: wire::f32_at(r, 28),
    }
}

fn has_advanced(r: &[u8], place: usize, a: Advanced) -> bool {
    let five = [
        a.outputs.high_pass,
        a.outputs.band_pass,
        a.outputs.low_pass,
        a.state.band_state,
        a.state.low_state,
    ];
    has_floats(r, place, &five)
}

// Whether the five numbers after a substep are finite.
fn is_settled(five: &[u8]) -> bool {
    (0..5).all(|i| wire::finite_at(five, 4 * i))
}
