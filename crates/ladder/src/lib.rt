// The cutoff DAC's resistor ladder, from tables.rs: 12 nodes, in f64.
#![tactic(auto)]

ghost use Rattle.std.specs.Prelude.{◌≡◌, ◌<◌, length};
ghost use Rattle.ladder.specs.Ladder.{first_row_of, next_row_of, position_of, cutoff_scale_of, sweep_of, substitute_of, solve_of, diagonal_of, right_side_of, driven_level_of, driven_levels_of};
ghost use Rattle.ladder.specs.Ladder.{normalised_of, weights_of, value_of};
ghost use Rattle.ladder.specs.Calls.{all_finite_of, judged_result_of, solve_tridiagonal_of, ladder_weights_of, ladder_value_of, positions_finite_of, position_bytes_of};
ghost use Rattle.ladder.specs.Calls.{build_cutoff_control_positions_of};

use answers::{Answer, Refusal};

// ---- solve_tridiagonal

// Twelve nodes, each linked to its neighbours only: the entries below, on and above the diagonal, and the right side.
#[derive(Clone, Copy)]
struct Network {
    lower: [f64; 12],
    diagonal: [f64; 12],
    upper: [f64; 12],
    rhs: [f64; 12],
}

// A row of the network after the elimination: x[i] + c * x[i + 1] = d.
#[derive(Clone, Copy)]
struct Row {
    c: f64,
    d: f64,
}

impl Network {
    fn first_row(&self) -> Row
        ensures { result ≡ first_row_of self.now }
    {
        Row {
            c: self.upper[0] / self.diagonal[0],
            d: self.rhs[0] / self.diagonal[0],
        }
    }

    // A row from the row before it. The last one has no entry above its diagonal.
    #[tactic(auto, unfolding(crate::specs::Ladder::next_row_of))]
    fn next_row(&self, i: usize, before: Row) -> Row
        requires { i < 12 }
        ensures { result ≡ next_row_of self.now i before }
    {
        let denominator = self.diagonal[i] - self.lower[i] * before.c;
        Row {
            c: if i + 1 < 12 {
                self.upper[i] / denominator
            } else {
                0.0
            },
            d: (self.rhs[i] - self.lower[i] * before.d) / denominator,
        }
    }

    // The elimination, from the first row to the last. The array starts with the first row in every place.
    fn sweep(&self) -> [Row; 12]
        ensures { result ≡ sweep_of self.now }
    {
        let mut rows = [self.first_row(); 12];
        for i in 1..12 {
            rows[i] = self.next_row(i, rows[i - 1]);
        }
        rows
    }

    #[tactic(auto, unfolding(crate::specs::Ladder::solve_of))]
    fn solve(&self) -> [f64; 12]
        ensures { result ≡ solve_of self.now }
    {
        substitute(&self.sweep())
    }
}

// The substitution, from the last row to the first.
fn substitute(rows: &[Row; 12]) -> [f64; 12]
    ensures { result ≡ substitute_of rows.now }
{
    let mut result = [rows[11].d; 12];
    for i in (0..11).rev() {
        result[i] = rows[i].d - rows[i].c * result[i + 1];
    }
    result
}

// ---- ladder_weights

// What meets at each node: its branch, a link to each neighbour, the load at the last and the termination at the first.
#[tactic(auto, unfolding(crate::specs::Ladder::tabulated))]
fn diagonal(source: f64, terminated: bool) -> [f64; 12]
    ensures { result ≡ diagonal_of source terminated }
{
    let branch = 0.0 + source;
    let mut nodes = [branch + 1.0 + 1.0; 12];
    nodes[0] = branch + 1.0;
    if terminated {
        nodes[0] += source;
    }
    nodes
}

// The right side when one node's branch is driven.
fn right_side(source: f64, active: usize) -> [f64; 12]
    requires { active < 12 }
    ensures { result ≡ right_side_of source active }
{
    let mut rhs = [0.0; 12];
    rhs[active] = 0.0 + source;
    rhs
}

// The last node's level when one node is driven. A link between neighbours has a conductance of 1.0.
#[tactic(auto, unfolding(crate::specs::Ladder::driven_level_of))]
fn driven_level(source: f64, diagonal: [f64; 12], active: usize) -> f64
    requires { active < 12 }
    ensures { result ≡ driven_level_of source diagonal active }
{
    let mut lower = [-1.0; 12];
    lower[0] = 0.0;
    let mut upper = [-1.0; 12];
    upper[11] = 0.0;
    let network = Network {
        lower,
        diagonal,
        upper,
        rhs: right_side(source, active),
    };
    network.solve()[11]
}

fn driven_levels(source: f64, diagonal: [f64; 12]) -> [f64; 12]
    ensures { result ≡ driven_levels_of source diagonal }
{
    std::array::from_fn(|active| driven_level(source, diagonal, active))
}

// Each entry's share of the sum, which starts from -0.0 as in rustc 1.95.
fn normalised(xs: [f64; 12]) -> [f64; 12]
    ensures { result ≡ normalised_of xs }
{
    let sum: f64 = xs.iter().sum();
    xs.map(|x| x / sum)
}

#[tactic(auto, unfolding(crate::specs::Ladder::weights_of))]
fn weights(two_r_over_r: f64, terminated: bool) -> [f64; 12]
    ensures { result ≡ weights_of two_r_over_r terminated }
{
    let source = 1.0 / two_r_over_r;
    normalised(driven_levels(source, diagonal(source, terminated)))
}

// ---- ladder_value

// The sum of the weights of the code's bits, a bit that is off counting as its leakage.
fn value(code: usize, weights: &[f64; 12], leakage: f64) -> f64
    ensures { result ≡ value_of code weights.now leakage }
{
    weights
        .iter()
        .enumerate()
        .map(|(bit, weight)| {
            let level = if (code >> bit) % 2 == 1 { 1.0 } else { leakage };
            level * weight
        })
        .sum()
}

// ---- build_cutoff_control_positions

// The cutoff DAC's weights, the level of its code 0 and the span from there to code 2,047. Its twelfth bit is tied high, so that code 0 is 2,048.
#[derive(Clone, Copy)]
struct Scale {
    weights: [f64; 12],
    zero: f64,
    span: f64,
}

impl Scale {
    #[tactic(auto, unfolding(crate::specs::Ladder::cutoff_scale_of))]
    fn cutoff() -> Self
        ensures { result ≡ cutoff_scale_of }
    {
        let weights = weights(constants::SID_FILTER_DAC_TWO_R_OVER_R, false);
        let zero = value(2048, &weights, constants::SID_DAC_LEAKAGE);
        let full = value(4095, &weights, constants::SID_DAC_LEAKAGE);
        Self {
            weights,
            zero,
            span: full - zero,
        }
    }

    // Where a code's level lies in the span, from 0.0 to 2047.0.
    #[tactic(auto, unfolding(crate::specs::Ladder::position_of))]
    fn position(&self, code: usize) -> f32
        requires { code < 2048 }
        ensures { result ≡ position_of self.now code }
    {
        let ladder = value(2048 + code, &self.weights, constants::SID_DAC_LEAKAGE);
        let normal = floats::narrow((ladder - self.zero) / self.span);
        floats::clamp(normal * 2047.0, 0.0, 2047.0)
    }

    // Each of the 2,048 positions is finite.
    fn positions_finite(&self) -> bool
        ensures { result ≡ positions_finite_of self.now }
    {
        (0..2048).all(|code| floats::is_finite(self.position(code)))
    }

    // Writes the 2,048 positions.
    fn put_positions(&self, out: &mut [u8])
        requires { length out.old ≡ 8192 }
        ensures { out.new ≡ position_bytes_of self.now }
    {
        for code in 0..2048 {
            wire::put_f32(out, 4 * code, self.position(code));
        }
    }
}

// ---- the calls of a user

fn all_finite(xs: &[f64; 12]) -> bool
    ensures { result ≡ all_finite_of xs.now }
{
    xs.iter().all(|x| floats::is_finite_f64(*x))
}

// What a call answers: 10 for the arguments, then 6 for the results, else its value.
fn judged_result<T: Drop>(arguments: bool, results: bool, value: T) -> Result<T, Refusal>
    ensures { result ≡ judged_result_of arguments results value }
{
    answers::unless(arguments, Refusal::Argument)?;
    answers::unless(results, Refusal::Domain)?;
    Ok(value)
}

// Solves a network of twelve nodes, each linked to its neighbours only.
#[tactic(auto, unfolding(crate::specs::Calls::solve_tridiagonal_of))]
pub fn solve_tridiagonal(
    lower: &[f64; 12],
    diagonal: &[f64; 12],
    upper: &[f64; 12],
    rhs: &[f64; 12],
) -> Result<[f64; 12], Refusal>
    ensures { result ≡ solve_tridiagonal_of lower.now diagonal.now upper.now rhs.now }
{
    let good = all_finite(lower) & all_finite(diagonal) & all_finite(upper) & all_finite(rhs);
    let network = Network {
        lower: *lower,
        diagonal: *diagonal,
        upper: *upper,
        rhs: *rhs,
    };
    let solved = network.solve();
    judged_result(good, all_finite(&solved), solved)
}

// The weight of each bit of a ladder of twelve, by the ratio of its resistors.
#[tactic(auto, unfolding(crate::specs::Calls::ladder_weights_of))]
pub fn ladder_weights(two_r_over_r: f64, terminated: bool) -> Result<[f64; 12], Refusal>
    ensures { result ≡ ladder_weights_of two_r_over_r terminated }
{
    let good = floats::is_finite_f64(two_r_over_r);
    let shares = weights(two_r_over_r, terminated);
    judged_result(good, all_finite(&shares), shares)
}

// The level of a code below 4,096.
#[tactic(auto, unfolding(crate::specs::Calls::ladder_value_of))]
pub fn ladder_value(code: usize, weights: &[f64; 12], leakage: f64) -> Result<f64, Refusal>
    ensures { result ≡ ladder_value_of code weights.now leakage }
{
    let good = (code < 4096) & all_finite(weights) & floats::is_finite_f64(leakage);
    let level = value(code, weights, leakage);
    judged_result(good, floats::is_finite_f64(level), level)
}

// Writes the control position of each of the 2,048 cutoff codes, as little-endian f32, into 8,192 lent bytes.
#[tactic(auto, unfolding(crate::specs::Calls::build_cutoff_control_positions_of))]
pub fn build_cutoff_control_positions(positions: &mut [u8]) -> Answer
    ensures { (result, positions.new) ≡ build_cutoff_control_positions_of positions.old }
{
    if positions.len() != 8192 {
        return Err(Refusal::Argument);
    }
    let scale = Scale::cutoff();
    if !scale.positions_finite() {
        return Err(Refusal::Domain);
    }
    scale.put_positions(positions);
    Ok(())
}
