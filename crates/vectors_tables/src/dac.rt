// Records of ladder. Refused is an argument that is not finite or past its table, and then a result that is not finite.
use answers::Refusal;
use replay::{double_bits, f64_at, part};

pub(crate) fn solution(r: &[u8]) -> bool {
    let lower = twelve_at(r, 0);
    let diagonal = twelve_at(r, 96);
    let upper = twelve_at(r, 192);
    let rhs = twelve_at(r, 288);
    let good = all_finite(&lower)
        && all_finite(&diagonal)
        && all_finite(&upper)
        && all_finite(&rhs);
    let solved = ladder::solve_tridiagonal(&lower, &diagonal, &upper, &rhs);
    is_told(good, twelve_at(r, 384), solved)
}

pub(crate) fn weights(r: &[u8]) -> bool {
    let ratio = f64_at(r, 0);
    let terminated = wire::u32_at(r, 8) == 1;
    is_told(
        floats::is_finite_f64(ratio),
        twelve_at(r, 12),
        ladder::ladder_weights(ratio, terminated),
    )
}

pub(crate) fn level(r: &[u8]) -> bool {
    let code = wire::u32_at(r, 0) as usize;
    let leakage = f64_at(r, 4);
    let weights = twelve_at(r, 12);
    let good = code < 4096 && floats::is_finite_f64(leakage) && all_finite(&weights);
    let level = ladder::ladder_value(code, &weights, leakage);
    is_told(good, [f64_at(r, 108)], level.map(|value| [value]))
}

// positions is the table of all codes.
pub(crate) fn position(r: &[u8], positions: &[u8]) -> bool {
    let code = wire::u32_at(r, 0) as usize;
    wire::u32_at(r, 4) == wire::u32_at(positions, 4 * code)
}

// Twelve floats side by side.
fn twelve_at(r: &[u8], place: usize) -> [f64; 12] {
    let doubles = part(r, place, 96);
    std::array::from_fn(|i| f64_at(doubles, 8 * i))
}

fn all_finite(xs: &[f64]) -> bool {
    xs.iter().all(|&x| floats::is_finite_f64(x))
}

// Whether a call on good arguments or others gives the floats that were told, bit by bit, or the refusal that they ask for.
fn is_told<const N: usize>(good: bool, told: [f64; N], called: Result<[f64; N], Refusal>) -> bool {
    let finite = all_finite(&told);
    match called {
        Ok(values) => {
            good && finite
                && told
                    .iter()
                    .zip(&values)
                    .all(|(&told, &value)| double_bits(told) == double_bits(value))
        }
        Err(Refusal::Argument) => !good,
        Err(Refusal::Domain) => good && !finite,
        Err(_) => false,
    }
}
