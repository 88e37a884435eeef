// Records of the crates that stand on no other: constants, answers, floats and wire.
use answers::{Answer, Buffer, Refusal};
use replay::{f64_at, has, has_f64, has_flag, i32_at, part, size_at, u64_at};

// ---- constants

// An entry of a table by its row and column, or one of the numbers that stand alone, in the order of the crate.
pub(crate) fn constant(r: &[u8]) -> bool {
    let table = wire::u32_at(r, 0);
    let row = size_at(r, 4);
    let column = size_at(r, 8);
    match table {
        0 => has_entry(r, column, &constants::scalars()),
        1 => has_entry(r, column, &constants::volume_dac_branch_weights()),
        2 => has_entry(r, column, &constants::mode_polarity()),
        3 => has_entry(r, column, &constants::attack_scale_by_selection()),
        4 => has_frozen(r, row, column),
        5 => has_entry(r, column, &constants::input_drives()),
        6 => has_entry(r, column, &constants::feedback_drives()),
        7 => has(r, 12, constants::single_mode_cutoff_gain(row, column)),
        8 => has(r, 12, constants::single_mode_resonance_gain(row, column)),
        9 => has(r, 12, constants::symmetric_loading_gain(row, column)),
        10 => has_double(r, column),
        11 => has_size(r, column),
        _ => wire::i16_at(r, 12) == constants::cutoff_step_charge_limit_codes(),
    }
}

fn has_entry(r: &[u8], i: usize, row: &[f32]) -> bool {
    row.get(i).is_some_and(|&entry| has(r, 12, entry))
}

fn has_frozen(r: &[u8], row: usize, column: usize) -> bool {
    let table = constants::frozen_dac_polynomial();
    table
        .get(row)
        .is_some_and(|entries| has_entry(r, column, entries))
}

fn has_double(r: &[u8], i: usize) -> bool {
    let doubles = constants::doubles();
    doubles.get(i).is_some_and(|&double| has_f64(r, 12, double))
}

fn has_size(r: &[u8], i: usize) -> bool {
    let sizes = constants::sizes();
    sizes
        .get(i)
        .is_some_and(|&size| replay::has_size(r, 12, size))
}

// ---- answers

// The first refusal of two answers, with its number, buffer and place.
pub(crate) fn answer(r: &[u8]) -> bool {
    let first = answers::first(answer_of(part(r, 0, 12)), answer_of(part(r, 12, 12)));
    let reported = answers::report(first);
    wire::u32_at(r, 24) == reported.number
        && wire::u32_at(r, 28) == reported.buffer
        && wire::u32_at(r, 32) == reported.place
}

// The refusal of a number (docs/FORMATS.md), with the buffer and the place that stand behind it.
fn answer_of(words: &[u8]) -> Answer {
    let buffer = wire::u32_at(words, 4);
    let place = wire::u32_at(words, 8);
    let refusal = match wire::u32_at(words, 0) {
        0 => return Ok(()),
        1 => Refusal::BundleLength,
        2 => Refusal::Header { place },
        3 => entry_of(buffer, place),
        4 => Refusal::CurvesLength,
        5 => Refusal::InputNotFinite,
        6 => Refusal::Domain,
        7 => Refusal::Script,
        8 => Refusal::OutputLength,
        10 => Refusal::Argument,
        11 => Refusal::Sources,
        _ => Refusal::Decays,
    };
    Err(refusal)
}

fn entry_of(buffer: u32, place: u32) -> Refusal {
    let buffer = if buffer == 0 {
        Buffer::Bundle
    } else {
        Buffer::Curves
    };
    Refusal::Entry { buffer, place }
}

// ---- floats

// A step's product with the charge gain: rounded, and then held within the limit.
pub(crate) fn rounding(r: &[u8]) -> bool {
    let rounded = floats::round(
        floats::of_i32(i32_at(r, 0)) * constants::FILTER_CUTOFF_STEP_CHARGE_GAIN,
    );
    let limit = floats::of_i16(constants::FILTER_CUTOFF_STEP_CHARGE_LIMIT_CODES);
    let displacement = floats::as_i16(floats::clamp(rounded, -limit, limit));
    has(r, 4, rounded) && wire::i16_at(r, 8) == displacement
}

pub(crate) fn round(r: &[u8]) -> bool {
    has(r, 4, floats::round(wire::f32_at(r, 0)))
}

pub(crate) fn truncate(r: &[u8]) -> bool {
    let x = wire::f32_at(r, 0);
    u64_at(r, 4) == floats::as_usize(x) as u64 && wire::i16_at(r, 12) == floats::as_i16(x)
}

pub(crate) fn clamp(r: &[u8]) -> bool {
    let x = wire::f32_at(r, 0);
    has(
        r,
        12,
        floats::clamp(x, wire::f32_at(r, 4), wire::f32_at(r, 8)),
    )
}

pub(crate) fn abs(r: &[u8]) -> bool {
    has(r, 4, floats::abs(wire::f32_at(r, 0)))
}

pub(crate) fn finite(r: &[u8]) -> bool {
    has_flag(r, 4, floats::is_finite(wire::f32_at(r, 0)))
}

pub(crate) fn to_f32(r: &[u8]) -> bool {
    match wire::u32_at(r, 0) {
        0 => has(r, 8, floats::of_u16(wire::u16_at(r, 4))),
        1 => has(r, 8, floats::of_i16(wire::i16_at(r, 4))),
        2 => has(r, 8, floats::of_i32(i32_at(r, 4))),
        _ => has(r, 8, floats::of_usize(size_at(r, 4))),
    }
}

pub(crate) fn narrow(r: &[u8]) -> bool {
    let x = f64_at(r, 0);
    has(r, 8, floats::narrow(x)) && has_flag(r, 12, floats::is_finite_f64(x))
}

// ---- wire

// A read in the first bytes of twelve, where what is not there is 0.
pub(crate) fn read(r: &[u8]) -> bool {
    let length = size_at(r, 4);
    length <= 12 && has_read(r, part(r, 20, length))
}

fn has_read(r: &[u8], lent: &[u8]) -> bool {
    let place = u64_at(r, 8) as usize;
    match wire::u32_at(r, 0) {
        0 => wire::u32_at(r, 32) == wire::byte_at(lent, place) as u32,
        1 => wire::u32_at(r, 32) == wire::u16_at(lent, place) as u32,
        2 => wire::i16_at(r, 32) == wire::i16_at(lent, place),
        3 => wire::u32_at(r, 32) == wire::u32_at(lent, place),
        4 => has(r, 32, wire::f32_at(lent, place)),
        5 => has_flag(r, 32, wire::usable_at(lent, place)),
        _ => size_at(r, 32) == wire::first_unusable(lent, place, size_at(r, 16)),
    }
}

// A word put into the first bytes of twelve, where one that does not fit is not written.
pub(crate) fn put(r: &[u8]) -> bool {
    let mut bytes = [0u8; 12];
    wire::put(&mut bytes, 0, part(r, 16, 12));
    if let Some(lent) = bytes.get_mut(..size_at(r, 0)) {
        wire::put_u32(lent, u64_at(r, 4) as usize, wire::u32_at(r, 12));
    }
    bytes.as_slice() == part(r, 28, 12)
}
