// Records of the bundle, the surface in it and the curves. An argument that is not finite is refused.
use answers::Refusal;
use replay::{has, has_flag, has_size};

pub(crate) fn word(r: &[u8], bundle: &[u8]) -> bool {
    let place = wire::u32_at(r, 0) as usize;
    wire::u32_at(r, 4) == wire::u32_at(bundle, place)
        && has_flag(r, 8, wire::usable_at(bundle, place))
}

pub(crate) fn load_position(r: &[u8]) -> bool {
    let conductance = wire::f32_at(r, 0);
    let good = floats::is_finite(conductance);
    match direct::load_position(conductance) {
        Ok(position) => {
            good && has_size(r, 4, position.lower_base)
                && has_size(r, 8, position.upper_base)
                && has(r, 12, position.fraction)
        }
        Err(Refusal::Argument) => !good,
        Err(_) => false,
    }
}

pub(crate) fn sample(r: &[u8], bundle: &[u8]) -> bool {
    let conductance = wire::f32_at(r, 0);
    let input = wire::f32_at(r, 4);
    let good = floats::is_finite(conductance) && floats::is_finite(input);
    match direct::sample(bundle, conductance, input) {
        Ok(value) => good && has(r, 8, value),
        Err(Refusal::Argument) => !good,
        Err(_) => false,
    }
}

pub(crate) fn curve_entry(r: &[u8], curves: &[u8]) -> bool {
    let number = wire::u32_at(r, 0) as usize;
    wire::u32_at(r, 4) == wire::u32_at(curves, 4 * number)
}
