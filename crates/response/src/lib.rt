// The stateless laws of the analogue response: what follows from registers and levels alone.
#![tactic(auto)]

ghost use Rattle.std.specs.Prelude.{◌≡◌, ◌+◌, ◌<◌, ℕ, Float, min, not, T, pos};
ghost use Rattle.std.specs.Float.{binary32};
ghost use Rattle.std.specs.Float.Ieee.{is_nan, of_int, to_unsigned};
ghost use Rattle.floats.specs.Arithmetic.{f32};
ghost use Rattle.floats.specs.Floats.{abs_of, clamp_of};
ghost use Rattle.response.specs.Bits.{bit as bit_of};
ghost use Rattle.response.specs.Levels.{analogue_span_of, normalise_voltage_of, filter_mode_quiescent_level_of, add_if, branch_sum_of, volume_dac_conductance_code_of, interpolate_of};
ghost use Rattle.response.specs.Levels.{cutoff_position_of, filter_output_common_mode_of};
ghost use Rattle.response.specs.Position.{table_position_of, activity_of, operating_position_of, loading_position_of};
ghost use Rattle.response.specs.Gain as G;

// ---- levels

pub fn analogue_span() -> f32
    ensures { result ≡ analogue_span_of }
{
    constants::SID_ANALOGUE_MAX_VOLTS - constants::SID_ANALOGUE_MIN_VOLTS
}

// A voltage in the operating window, as 0 to 1.
#[tactic(auto, unfolding(crate::specs::Levels::normalise_voltage_of))]
pub fn normalise_voltage(voltage: f32) -> f32
    ensures { result ≡ normalise_voltage_of voltage }
{
    floats::clamp(
        (voltage - constants::SID_ANALOGUE_MIN_VOLTS) / analogue_span(),
        0.0,
        1.0,
    )
}

// The level of the filter's amplifiers at rest.
#[tactic(auto, unfolding(crate::specs::Levels::filter_mode_quiescent_level_of))]
pub fn filter_mode_quiescent_level() -> f32
    ensures { result ≡ filter_mode_quiescent_level_of }
{
    normalise_voltage(constants::SID_ANALOGUE_QUIESCENT_VOLTS)
}

// Bit i of a register's byte is set; none is from bit 8 on.
pub fn bit(n: u8, i: u32) -> bool
    ensures { result ≡ bit_of n i }
{
    if 8 <= i {
        return false;
    }
    n >> i & 1 == 1
}

fn add_if(on: bool, sum: f32, x: f32) -> f32
    ensures { result ≡ add_if on sum x }
{
    if on { sum + x } else { sum }
}

// A value between two, by a fraction.
pub fn interpolate(lower: f32, upper: f32, fraction: f32) -> f32
    ensures { result ≡ interpolate_of lower upper fraction }
{
    lower + (upper - lower) * fraction
}

// The branches of the volume DAC that are on, step by step: a loop would want a definition of its partial sum.
#[tactic(auto, unfolding(crate::specs::Levels::branch_sum_of))]
fn branch_sum(volume: u8) -> f32
    ensures { result ≡ branch_sum_of volume }
{
    let weights = constants::volume_dac_branch_weights();
    let one = add_if(bit(volume, 0), 0.0, weights[0]);
    let two = add_if(bit(volume, 1), one, weights[1]);
    let three = add_if(bit(volume, 2), two, weights[2]);
    add_if(bit(volume, 3), three, weights[3])
}

// The volume DAC's conductance for a code; of a number above 15 the lower four bits count.
#[tactic(auto, unfolding(crate::specs::Levels::volume_dac_conductance_code_of))]
pub fn volume_dac_conductance_code(volume: u8) -> f32
    ensures { result ≡ volume_dac_conductance_code_of volume }
{
    let sum = branch_sum(volume);
    constants::SID_VOLUME_DAC_CONDUCTANCE_SCALE * sum
        / (1.0 + constants::SID_VOLUME_DAC_COMMON_COMPRESSION * sum)
}

fn cutoff_position(cutoff: u16) -> f32
    ensures { result ≡ cutoff_position_of cutoff }
{
    floats::of_u16(cutoff) / 2047.0
}

// The operating point that the selected outputs give the output node.
#[tactic(auto, unfolding(crate::specs::Levels::filter_output_common_mode_of))]
pub fn filter_output_common_mode(mode: u8, cutoff: u16) -> f32
    ensures { result ≡ filter_output_common_mode_of mode cutoff }
{
    let position = cutoff_position(cutoff);
    let low = interpolate(
        constants::FILTER_LOWPASS_COMMON_MODE_FC_0,
        constants::FILTER_LOWPASS_COMMON_MODE_FC_2047,
        position,
    );
    let band = interpolate(
        constants::FILTER_BANDPASS_COMMON_MODE_FC_0,
        constants::FILTER_BANDPASS_COMMON_MODE_FC_2047,
        position,
    );
    let high = interpolate(
        constants::FILTER_HIGHPASS_COMMON_MODE_FC_0,
        constants::FILTER_HIGHPASS_COMMON_MODE_FC_2047,
        position,
    );
    let one = add_if(bit(mode, 0), 0.0, low);
    let two = add_if(bit(mode, 1), one, band);
    add_if(bit(mode, 2), two, high)
}

// ---- positions

// The two entries of a table that a position lies between, and how far it lies from the lower one.
#[repr(C)]
#[derive(Clone, Copy, Debug, PartialEq)]
pub struct TablePosition {
    pub lower: usize,
    pub upper: usize,
    pub fraction: f32,
}

// The sum may not fit where there is no next one, and the library's `saturating_add` and `min` select twice.
fn next_index(lower: usize, last: usize) -> usize
    ensures { result ≡ min (lower + 1) last }
{
    if lower < last { lower + 1 } else { last }
}

// A position's whole part as a float, which is exact: from 2^24 on every f32 is whole, and an index stops below 2^64. The library's conversion
// of any usize rounds, in steps that a sample need not pay for.
fn whole_part(position: f32, lower: usize) -> f32
    requires { lower ≡ to_unsigned 64 position }
    ensures { result ≡ of_int binary32 (pos lower) }
{
    if lower < 0x100_0000 {
        lower as f32
    } else if position < 18446744073709551616.0 {
        position
    } else {
        18446744073709551616.0
    }
}

// Between which two entries of a table a position lies, whatever it is.
pub fn table_position(last: usize, position: f32) -> TablePosition
    ensures { result ≡ table_position_of last position }
{
    let lower = floats::as_usize(position);
    TablePosition {
        lower,
        upper: next_index(lower, last),
        fraction: position - whole_part(position, lower),
    }
}

#[tactic(auto, unfolding(crate::specs::Position::activity_of))]
fn activity(input: f32, band: f32, low: f32) -> f32
    ensures { result ≡ activity_of input band low }
{
    floats::clamp(
        0.45 * floats::abs(input) + 0.33 * floats::abs(band) + 0.22 * floats::abs(low),
        0.0,
        1.0,
    )
}

// The operating bins that the input and the two capacitors stand between: the lower is at most 15.
#[tactic(auto, unfolding(crate::specs::Position::operating_position_of))]
pub fn operating_position(input: f32, band: f32, low: f32) -> TablePosition
    ensures { result ≡ operating_position_of input band low }
{
    table_position(15, activity(input, band, low) * 15.0)
}

// x.abs() of a number that is no NaN, without a selection: a NaN has no bits to clear.
fn magnitude(x: f32) -> f32
    requires { T (not (is_nan x)) }
    ensures { result ≡ abs_of x }
{
    f32::from_bits(f32::to_bits(x) % 0x8000_0000)
}

// The activity before it is clamped, of capacitors that are no NaNs.
#[tactic(auto, unfolding(crate::specs::Position::activity_of))]
fn plain_activity(input: f32, band: f32, low: f32) -> f32
    requires { T (not (is_nan band)) × T (not (is_nan low)) }
    ensures { clamp_of result (f32 0) (f32 0x3f80_0000) ≡ activity_of input band low }
{
    0.45 * floats::abs(input) + 0.33 * magnitude(band) + 0.22 * magnitude(low)
}

// The lower bin alone, as a guess from capacitors that are there early: `operating_position_near` tests it.
#[tactic(auto, unfolding(crate::specs::Position::operating_position_of))]
pub fn guessed_bin(input: f32, band: f32, low: f32) -> usize
    ensures { result ≡ (operating_position_of input band low).lower }
{
    floats::as_usize(activity(input, band, low) * 15.0)
}

// The whole part of a position, which is most often what it was guessed to be: then nothing waits for the conversion.
fn bin_near(position: f32, guess: usize) -> usize
    ensures { result ≡ to_unsigned 64 position }
{
    if guess < 15
        && (floats::of_usize(guess) <= position) & (position < floats::of_usize(guess + 1))
    {
        guess
    } else {
        floats::as_usize(position)
    }
}

// `operating_position`, with a guess of its lower bin. Where it lies below the last bin nothing is clamped.
pub fn operating_position_near(input: f32, band: f32, low: f32, guess: usize) -> TablePosition
    ensures { result ≡ operating_position_of input band low }
{
    if (band == band) & (low == low) {
        let sum = plain_activity(input, band, low);
        let position = sum * 15.0;
        if !(sum < 0.0) & !(1.0 < sum) & (position < 15.0) {
            let lower = bin_near(position, guess);
            return TablePosition {
                lower,
                upper: lower + 1,
                fraction: position - floats::of_usize(lower),
            };
        }
    }
    operating_position(input, band, low)
}

// The entries of a loading table that a cutoff lies between; up to 2,047 the lower is at most 31.
#[tactic(auto, unfolding(crate::specs::Position::loading_position_of))]
pub fn loading_position(cutoff: u16) -> TablePosition
    ensures { result ≡ loading_position_of cutoff }
{
    table_position(31, floats::of_u16(cutoff) * 31.0 / 2047.0)
}

// ---- the gain of a mode's output

fn resonance_of(resonance: u8) -> f32
    ensures { result ≡ G.resonance_of resonance }
{
    floats::of_u16(resonance as u16)
}

fn resonance_position(resonance: u8) -> f32
    ensures { result ≡ G.resonance_position_of resonance }
{
    floats::clamp((resonance_of(resonance) - 8.0) / 7.0, 0.0, 1.0)
}

fn low_resonance_position(resonance: u8) -> f32
    ensures { result ≡ G.low_resonance_position_of resonance }
{
    floats::clamp((8.0 - resonance_of(resonance)) / 8.0, 0.0, 1.0)
}

fn low_gain(r: f32) -> f32
    ensures { result ≡ G.low_gain_of r }
{
    (constants::FILTER_LOWPASS_GAIN_AT_MID_RESONANCE
        - constants::FILTER_LOWPASS_GAIN_RESONANCE_DROP * r)
        * constants::FILTER_LOWPASS_OUTPUT_TRIM
}

fn band_gain(r: f32, p: f32) -> f32
    ensures { result ≡ G.band_gain_of r p }
{
    (constants::FILTER_BANDPASS_GAIN_ZERO_CUTOFF
        - constants::FILTER_BANDPASS_GAIN_CUTOFF_SLOPE * p
        - constants::FILTER_BANDPASS_GAIN_RESONANCE_DROP * r)
        * constants::FILTER_BANDPASS_OUTPUT_TRIM
}

fn low_band_gain(r: f32, p: f32) -> f32
    ensures { result ≡ G.low_band_gain_of r p }
{
    constants::FILTER_LOW_BAND_GAIN_ZERO_CUTOFF
        - constants::FILTER_LOW_BAND_GAIN_CUTOFF_SLOPE * p
        - constants::FILTER_LOW_BAND_GAIN_RESONANCE_DROP * r
}

fn high_gain(r: f32, p: f32) -> f32
    ensures { result ≡ G.high_gain_of r p }
{
    constants::FILTER_HIGHPASS_GAIN_ZERO
        - constants::FILTER_HIGHPASS_GAIN_CUTOFF_SLOPE * p
        - constants::FILTER_HIGHPASS_GAIN_RESONANCE_DROP * r * r
        - constants::FILTER_HIGHPASS_GAIN_CUTOFF_RESONANCE_DROP * p * r * r
}

// By the mode's lower three bits: 1 low, 2 band, 3 low and band, 4 high.
#[tactic(auto, unfolding(crate::specs::Gain::base_gain_of))]
fn base_gain(m: u8, r: f32, p: f32) -> f32
    ensures { result ≡ G.base_gain_of m r p }
{
    match m {
        1 => low_gain(r),
        2 => band_gain(r, p),
        3 => low_band_gain(r, p),
        4 => high_gain(r, p),
        _ => 1.0,
    }
}

#[tactic(auto, unfolding(crate::specs::Gain::low_band_lift_of))]
fn low_band_lift(m: u8, resonance: u8) -> f32
    ensures { result ≡ G.low_band_lift_of m resonance }
{
    if m == 3 {
        let low = low_resonance_position(resonance);
        1.0 + constants::FILTER_LOW_BAND_LOW_RESONANCE_LIFT * low * low
    } else {
        1.0
    }
}

#[tactic(auto, unfolding(crate::specs::Gain::bandpass_trim_of))]
fn bandpass_trim(m: u8, p: f32) -> f32
    ensures { result ≡ G.bandpass_trim_of m p }
{
    if m == 2 {
        constants::FILTER_BANDPASS_GAIN_TRIM_ZERO
            - constants::FILTER_BANDPASS_GAIN_TRIM_CUTOFF_SLOPE * p
    } else {
        1.0
    }
}

#[tactic(auto, unfolding(crate::specs::Gain::highpass_loading_of))]
fn highpass_loading(m: u8, loading: f32) -> f32
    ensures { result ≡ G.highpass_loading_of m loading }
{
    if m == 4 { loading } else { 1.0 }
}

#[tactic(auto, unfolding(crate::specs::Gain::highpass_resonance_trim_of))]
fn highpass_resonance_trim(m: u8, resonance: u8, p: f32) -> f32
    ensures { result ≡ G.highpass_resonance_trim_of m resonance p }
{
    if m == 4 {
        let centred = resonance_of(resonance) / 15.0 - 0.5;
        let curve = constants::FILTER_HIGHPASS_RESONANCE_TRIM_C0
            + centred
                * (constants::FILTER_HIGHPASS_RESONANCE_TRIM_C1
                    + centred
                        * (constants::FILTER_HIGHPASS_RESONANCE_TRIM_C2
                            + centred * constants::FILTER_HIGHPASS_RESONANCE_TRIM_C3));
        1.0 + p * curve
    } else {
        1.0
    }
}

// Whether the mode's lower three bits select just one output.
pub fn is_single_mode(m: u8) -> bool
    ensures { result ≡ G.is_single_mode_of m }
{
    (m == 1) | (m == 2) | (m == 4)
}

// Its row in the loading tables: 0 low, 1 band, 2 high.
pub fn mode_index(m: u8) -> u8
    ensures { result ≡ G.mode_index_of m }
{
    match m {
        1 => 0,
        2 => 1,
        _ => 2,
    }
}

// A row of a loading table at a cutoff, between its entries. The table is a function of a row and an entry.
fn loading<F: Fn(usize, usize) -> f32>(table: F, row: usize, cutoff: u16) -> f32
    requires { F.IsAlwaysCallable table }
    ensures { (g : ℕ → ℕ → Float) → ((m i : ℕ) (x : Float) → F.post table m i x → x ≡ g m i) → result ≡ G.loading_of g row cutoff }
{
    let at = loading_position(cutoff);
    interpolate(table(row, at.lower), table(row, at.upper), at.fraction)
}

#[tactic(auto, unfolding(crate::specs::Gain::single_mode_loading_of))]
fn single_mode_loading(m: u8, resonance: u8, cutoff: u16) -> f32
    ensures { result ≡ G.single_mode_loading_of m resonance cutoff }
{
    if is_single_mode(m) {
        let row = mode_index(m) as usize;
        loading(constants::single_mode_cutoff_gain, row, cutoff)
            * constants::single_mode_resonance_gain(row, resonance as usize)
    } else {
        1.0
    }
}

// All factors of a mode's output gain.
#[tactic(auto, unfolding(crate::specs::Gain::filter_mode_output_gain_of))]
fn product_of(mode: u8, resonance: u8, cutoff: u16, loading: f32) -> f32
    ensures { result ≡ G.filter_mode_output_gain_of mode resonance cutoff loading }
{
    let m = mode % 8;
    let p = cutoff_position(cutoff);
    base_gain(m, resonance_position(resonance), p)
        * low_band_lift(m, resonance)
        * bandpass_trim(m, p)
        * highpass_loading(m, loading)
        * highpass_resonance_trim(m, resonance, p)
        * single_mode_loading(m, resonance, cutoff)
}

// The output gain of a mode at a resonance and the effective cutoff. `loading` is the bundle's highpass entry for that cutoff. Each mode is named, so that a factor which it
// does not have, a 1, costs nothing; no output, and high with another, have none.
#[tactic(auto, unfolding(crate::specs::Gain::filter_mode_output_gain_of))]
pub fn filter_mode_output_gain(mode: u8, resonance: u8, cutoff: u16, loading: f32) -> f32
    ensures { result ≡ G.filter_mode_output_gain_of mode resonance cutoff loading }
{
    let m = mode % 8;
    match m {
        1 => product_of(1, resonance, cutoff, loading),
        2 => product_of(2, resonance, cutoff, loading),
        3 => product_of(3, resonance, cutoff, loading),
        4 => product_of(4, resonance, cutoff, loading),
        _ => 1.0,
    }
}

// The symmetric loading of a single mode's output at the written cutoff: row 0 low, 1 band, 2 high.
#[tactic(auto, unfolding(crate::specs::Gain::symmetric_gain_of))]
pub fn symmetric_gain(mode_index: usize, cutoff: u16) -> f32
    ensures { result ≡ G.symmetric_gain_of mode_index cutoff }
{
    loading(constants::symmetric_loading_gain, mode_index, cutoff)
}
