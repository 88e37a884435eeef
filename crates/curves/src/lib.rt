// The loaded amplifier's transfer curves: positions in the analogue surface, sampling the surface and a curve, and building the 31 curves.
// A sampling function is total: an unusable entry counts as the float that it is, and the judging function beside it refuses it.
#![tactic(auto)]

ghost use Rattle.std.specs.Prelude.{◌≡◌, ◌+◌, ◌*◌, ◌≤◌, ◌<◌, length, true, [], ◌∷◌};
ghost use Rattle.wire.specs.Wire.{f32_at, usable_at};
ghost use Rattle.answers.specs.declared.Buffer.TheVariants.{Bundle, Curves};
ghost use Rattle.bundle.specs.Opening.{entry_at, judge_places_of};
ghost use Rattle.bundle.specs.Reading.{read_of};
ghost use Rattle.response.specs.Levels.{interpolate_of};
ghost use Rattle.bundle.specs.Layout.{bundle_length};
ghost use Rattle.curves.specs.Sampling.{last_input, last_base, load_position_of, input_position_of, table_place, sample_places_of, sample_of, curve_place, sample_curve_places_of, sample_curve_of, curve_point_of, no_point};
ghost use Rattle.curves.specs.Sampling.{summer_resting_places_of, summer_resting_output_of};
ghost use Rattle.curves.specs.Building.{curve_load_of, volume_entry_of, finished_of, curve_length, curves_length, build_curve_of, build_curves_of, judge_length_of, judge_build_of, build_of};
ghost use Rattle.curves.specs.Inner.{read_row_of, table_row_of, UsableRow, blend_of, blend_rows_of, Buildable};

use answers::{Answer, Buffer, Refusal};
use response::TablePosition;

// The curves: how many, the bytes of one, which has 2,049 entries of four, and the bytes of all.
const CURVES: u8 = 31;

const CURVE_BYTES: usize = 8_196;

pub const BYTES: usize = 254_076;

// The surface: the last of its 145 loads, the last of a load's 2,048 entries, each by its index, and the bytes of a load's row.
const LAST_LOAD: usize = 144;

const LAST_INPUT: usize = 2_047;

const ROW_ENTRIES: usize = 2_048;

const ROW_BYTES: usize = 8_192;

// The rows of the two loads that a conductance lies between, each by the index of its first entry, and how far it lies from the lower one.
#[derive(Clone, Copy)]
pub struct AnalogueLoadPosition {
    pub lower_base: usize,
    pub upper_base: usize,
    pub fraction: f32,
}

// Where on a curve an input stands, and the value there: it lies between the entry of the index and the next one, the fraction of the way up.
#[repr(C)]
#[derive(Clone, Copy)]
pub struct CurvePoint {
    pub value: f32,
    pub index: u32,
    pub fraction: f32,
}

// ---- positions

// The loads that a conductance lies between: it is clamped to 0 to 9.
pub fn load_position(conductance: f32) -> AnalogueLoadPosition
    ensures { result ≡ load_position_of conductance }
{
    let most = constants::SID_ANALOGUE_MAX_CONDUCTANCE;
    let at = response::table_position(
        LAST_LOAD,
        floats::clamp(conductance, 0.0, most) * 144.0 / most,
    );
    AnalogueLoadPosition {
        lower_base: at.lower * ROW_ENTRIES,
        upper_base: at.upper * ROW_ENTRIES,
        fraction: at.fraction,
    }
}

// The entries of a row that an input lies between: it is clamped to 0 to 1.
fn input_position(input: f32) -> TablePosition
    ensures { result ≡ input_position_of input }
{
    response::table_position(LAST_INPUT, floats::clamp(input, 0.0, 1.0) * 2047.0)
}

// ---- the surface

fn table_place(base: usize, index: usize) -> u32
    requires { (base ≤ last_base) × (index ≤ last_input) }
    ensures { result ≡ table_place (base + index) }
{
    bundle::ANALOGUE_SURFACE_OFFSET + 4 * ((base + index) as u32)
}

// The four entries between which a conductance and an input lie, in the order in which they are read.
fn sample_places(conductance: f32, input: f32) -> [u32; 4]
    ensures { result ≡ sample_places_of conductance input }
{
    let load = load_position(conductance);
    let at = input_position(input);
    [
        table_place(load.lower_base, at.lower),
        table_place(load.lower_base, at.upper),
        table_place(load.upper_base, at.lower),
        table_place(load.upper_base, at.upper),
    ]
}

// Between two entries, each judged as it is read.
fn read_between(
    buffer: Buffer,
    bytes: &[u8],
    lower: u32,
    upper: u32,
    fraction: f32,
) -> Result<f32, Refusal>
    ensures { result ≡ read_of (judge_places_of buffer bytes.now (lower ∷ upper ∷ [])) (interpolate_of (entry_at bytes.now lower) (entry_at bytes.now upper) fraction) }
{
    let from = bundle::read_entry(buffer, bytes, lower)?;
    let to = bundle::read_entry(buffer, bytes, upper)?;
    Ok(response::interpolate(from, to, fraction))
}

// Refuses at the first unusable entry that `sample` reads.
pub fn judge_sample(bundle: &[u8], conductance: f32, input: f32) -> Answer
    ensures { result ≡ judge_places_of Bundle bundle.now (sample_places_of conductance input) }
{
    let places = sample_places(conductance, input);
    bundle::judge_places(Buffer::Bundle, bundle, &places)
}

// The amplifier's output at a conductance and an input: over the input first, then over the load.
pub fn sample(bundle: &[u8], conductance: f32, input: f32) -> f32
    ensures { result ≡ sample_of bundle.now conductance input }
{
    let load = load_position(conductance);
    let at = input_position(input);
    let places = sample_places(conductance, input);
    let lower_left = bundle::entry_at(bundle, places[0]);
    let lower_right = bundle::entry_at(bundle, places[1]);
    let upper_left = bundle::entry_at(bundle, places[2]);
    let upper_right = bundle::entry_at(bundle, places[3]);
    let lower = response::interpolate(lower_left, lower_right, at.fraction);
    let upper = response::interpolate(upper_left, upper_right, at.fraction);
    response::interpolate(lower, upper, load.fraction)
}

// A load's row at an input, each entry judged as it is read.
fn read_row(bundle: &[u8], base: usize, at: TablePosition) -> Result<f32, Refusal>
    requires { (base ≤ last_base) × (at.lower ≤ last_input) × (at.upper ≤ last_input) }
    ensures { result ≡ read_row_of bundle.now base at }
{
    let lower = table_place(base, at.lower);
    let upper = table_place(base, at.upper);
    read_between(Buffer::Bundle, bundle, lower, upper, at.fraction)
}

// `sample`, each entry judged as it is read.
pub fn read_sample(bundle: &[u8], conductance: f32, input: f32) -> Result<f32, Refusal>
    ensures { result ≡ read_of (judge_places_of Bundle bundle.now (sample_places_of conductance input)) (sample_of bundle.now conductance input) }
{
    let load = load_position(conductance);
    let at = input_position(input);
    let lower = read_row(bundle, load.lower_base, at)?;
    let upper = read_row(bundle, load.upper_base, at)?;
    Ok(response::interpolate(lower, upper, load.fraction))
}

// ---- a curve

fn curve_place(curve: u8, index: usize) -> u32
    requires { index ≤ 2048 }
    ensures { result ≡ curve_place curve index }
{
    4 * ((curve as u32) * 2049 + (index as u32))
}

// The two entries of a curve between which an input lies, in the order in which they are read.
fn sample_curve_places(curve: u8, input: f32) -> [u32; 2]
    ensures { result ≡ sample_curve_places_of curve input }
{
    let at = input_position(input);
    [
        curve_place(curve, at.lower),
        curve_place(curve, at.lower + 1),
    ]
}

// Refuses at the first unusable entry that `sample_curve` reads.
pub fn judge_sample_curve(curves: &[u8], curve: u8, input: f32) -> Answer
    ensures { result ≡ judge_places_of Curves curves.now (sample_curve_places_of curve input) }
{
    let places = sample_curve_places(curve, input);
    bundle::judge_places(Buffer::Curves, curves, &places)
}

// A curve at an input, with the place at which it was read.
pub fn curve_point(curves: &[u8], curve: u8, input: f32) -> CurvePoint
    ensures { result ≡ curve_point_of curves.now curve input }
{
    let at = input_position(input);
    let places = sample_curve_places(curve, input);
    let left = bundle::entry_at(curves, places[0]);
    let right = bundle::entry_at(curves, places[1]);
    let index = at.lower as u32;
    let fraction = at.fraction;
    CurvePoint {
        value: response::interpolate(left, right, fraction),
        index,
        fraction,
    }
}

// Zeros, where no curve is read.
pub fn no_point() -> CurvePoint
    ensures { result ≡ no_point }
{
    CurvePoint {
        value: 0.0,
        index: 0,
        fraction: 0.0,
    }
}

// A curve at an input.
pub fn sample_curve(curves: &[u8], curve: u8, input: f32) -> f32
    ensures { result ≡ sample_curve_of curves.now curve input }
{
    curve_point(curves, curve, input).value
}

// `sample_curve`, each entry judged as it is read.
pub fn read_curve(curves: &[u8], curve: u8, input: f32) -> Result<f32, Refusal>
    ensures { result ≡ read_of (judge_places_of Curves curves.now (sample_curve_places_of curve input)) (sample_curve_of curves.now curve input) }
{
    let at = input_position(input);
    let lower = curve_place(curve, at.lower);
    read_between(Buffer::Curves, curves, lower, lower + 4, at.fraction)
}

// ---- the summer at rest

// Refuses at the first unusable entry that `summer_resting_output` reads.
pub fn judge_summer_resting_output(bundle: &[u8], count: u8) -> Answer
    ensures { result ≡ judge_places_of Bundle bundle.now (summer_resting_places_of count) }
{
    if 2 <= count {
        return judge_sample(
            bundle,
            floats::of_u16(count as u16),
            response::filter_mode_quiescent_level(),
        );
    }
    Ok(())
}

// The summer's output at rest, for a count of inputs with the two that are always there.
pub fn summer_resting_output(bundle: &[u8], count: u8) -> f32
    ensures { result ≡ summer_resting_output_of bundle.now count }
{
    if 2 <= count {
        return sample(
            bundle,
            floats::of_u16(count as u16),
            response::filter_mode_quiescent_level(),
        );
    }
    0.0
}

// `summer_resting_output`, each entry judged as it is read. It depends on the bundle and the count alone, so a run may keep it.
pub fn read_resting_output(bundle: &[u8], count: u8) -> Result<f32, Refusal>
    ensures { result ≡ read_of (judge_places_of Bundle bundle.now (summer_resting_places_of count)) (summer_resting_output_of bundle.now count) }
{
    if 2 <= count {
        return read_sample(
            bundle,
            floats::of_u16(count as u16),
            response::filter_mode_quiescent_level(),
        );
    }
    Ok(0.0)
}

// ---- building

// The conductance that a curve is built for: a count of inputs at the summer, one at the mixer, or a volume.
fn curve_load(curve: u8) -> f32
    ensures { result ≡ curve_load_of curve }
{
    if curve < 7 {
        return floats::of_u16(curve as u16);
    }
    if curve < 15 {
        return floats::of_u16((curve - 7) as u16) * constants::SID_MIXER_CONDUCTANCE_PER_INPUT;
    }
    response::volume_dac_conductance_code(curve - 15) / constants::SID_VOLUME_CONDUCTANCE_DIVISOR
}

// A volume curve's entry is centred and moved by the DAC's bias.
fn volume_entry(volume: u8, entry: f32) -> f32
    ensures { result ≡ volume_entry_of volume entry }
{
    let bias = constants::SID_VOLUME_DAC_BIAS_FULL * (floats::of_u16(volume as u16) / 15.0);
    (entry - constants::SID_VOLUME_OUTPUT_CENTRE + bias) * constants::SID_VOLUME_OUTPUT_GAIN
}

fn finished(curve: u8, entry: f32) -> f32
    ensures { result ≡ finished_of curve entry }
{
    if curve < 15 {
        entry
    } else {
        volume_entry(curve - 15, entry)
    }
}

// The row of a load, by the index of its first entry.
fn table_row(bundle: &[u8], base: usize) -> &[u8]
    requires { (base ≤ last_base) × (length bundle.now ≡ bundle_length) }
    ensures { result.now ≡ table_row_of bundle.now base }
{
    let from = (bundle::ANALOGUE_SURFACE_OFFSET as usize) + 4 * base;
    &bundle[from..from + ROW_BYTES]
}

// An entry of a row. It is usable, so its bits are no NaN's, and the loop over a row has no test in it.
fn row_entry(row: &[u8], code: usize) -> f32
    requires { (code ≤ last_input) × (usable_at row.now (4 * code) ≡ true) }
    ensures { result ≡ f32_at row.now (4 * code) }
{
    f32::from_bits(wire::u32_at(row, 4 * code))
}

// An entry of a curve, from the rows of its two loads.
fn blend(lower: &[u8], upper: &[u8], fraction: f32, curve: u8, code: usize) -> f32
    requires { (code ≤ last_input) × UsableRow lower.now × UsableRow upper.now }
    ensures { result ≡ blend_of lower.now upper.now fraction curve code }
{
    let entry = response::interpolate(row_entry(lower, code), row_entry(upper, code), fraction);
    finished(curve, entry)
}

// All entries of a curve, from the rows of its two loads; the last is there twice.
fn blend_rows(row: &mut [u8], lower: &[u8], upper: &[u8], fraction: f32, curve: u8)
    requires { (length row.old ≡ curve_length) × UsableRow lower.now × UsableRow upper.now }
    ensures { row.new ≡ blend_rows_of lower.now upper.now fraction curve }
{
    for k in 0..ROW_ENTRIES {
        wire::put_f32(row, 4 * k, blend(lower, upper, fraction, curve, k));
    }
    wire::put_f32(
        row,
        ROW_BYTES,
        blend(lower, upper, fraction, curve, LAST_INPUT),
    );
}

// One curve, into its 8,196 bytes.
fn build_curve(bundle: &[u8], row: &mut [u8], curve: u8)
    requires { Buildable bundle.now × (length row.old ≡ curve_length) }
    ensures { row.new ≡ build_curve_of bundle.now curve }
{
    let load = load_position(curve_load(curve));
    blend_rows(
        row,
        table_row(bundle, load.lower_base),
        table_row(bundle, load.upper_base),
        load.fraction,
        curve,
    );
}

fn build_curves(bundle: &[u8], curves: &mut [u8])
    requires { Buildable bundle.now × (length curves.old ≡ curves_length) }
    ensures { curves.new ≡ build_curves_of bundle.now }
{
    for curve in 0..CURVES {
        let from = CURVE_BYTES * (curve as usize);
        build_curve(bundle, &mut curves[from..from + CURVE_BYTES], curve);
    }
}

// Refuses a buffer that is not of the curves' length: what every call that takes one asks.
pub fn judge_length(curves: &[u8]) -> Answer
    ensures { result ≡ judge_length_of curves.now }
{
    answers::unless(curves.len() == BYTES, Refusal::CurvesLength)
}

// The bundle's length and header, the buffer's length, then every entry of the surface.
fn judge_build(bundle: &[u8], curves: &[u8]) -> Answer
    ensures { result ≡ judge_build_of bundle.now curves.now }
{
    bundle::check(bundle)?;
    judge_length(curves)?;
    bundle::judge_surface(bundle)
}

// Builds the 31 curves. A build that is refused writes nothing.
pub fn build(bundle: &[u8], curves: &mut [u8]) -> Answer
    ensures value { result ≡ judge_build_of bundle.now curves.old }
    ensures curves_after { curves.new ≡ build_of bundle.now curves.old }
{
    let judged = judge_build(bundle, curves);
    if judged.is_ok() {
        build_curves(bundle, curves);
    }
    judged
}
