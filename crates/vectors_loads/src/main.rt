// Replays the oracle's answers (oracle/README.md) at whole loads, and for the summer at rest, on bundles of zeros but for the header and four entries that a
// record tells. Prints a line for each file: its name, how many of its records agree, and how many it has.
#![tactic(auto)]

use replay::{has, replay_file};
use std::alloc::AllocError;

// ---- a record: four entries, each by its byte in the bundle and its word; then what is asked

// Puts words where a record has its entries: its own, or from no bytes, which read as 0, zeros.
fn put_entries(bundle: &mut [u8], r: &[u8], words: &[u8]) {
    for i in 0..4 {
        let place = wire::u32_at(r, 8 * i) as usize;
        wire::put_u32(bundle, place, wire::u32_at(words, 8 * i + 4));
    }
}

// A load and an input: the surface's bits, then the curve's, equal in value.
fn whole_load(r: &[u8], bundle: &[u8], curves: &[u8]) -> bool {
    let load = wire::u32_at(r, 32);
    let input = wire::f32_at(r, 36);
    let Ok(value) = direct::sample(bundle, floats::of_u16(wire::u16_at(r, 32)), input) else {
        return false;
    };
    let read = sid_filter::sid_filter_sample_curve(curves, load, input);
    let point = read.point;
    read.answer.number == 0 && value == point.value && has(r, 40, value) && has(r, 44, point.value)
}

// The same of zeros that differ in sign.
fn zero_signs(r: &[u8], bundle: &[u8], curves: &[u8]) -> bool {
    wire::f32_at(r, 40) == 0.0
        && wire::u32_at(r, 40) != wire::u32_at(r, 44)
        && whole_load(r, bundle, curves)
}

// A sum: number, value, index and fraction of the summer with no input routed, and the value is 0.
fn summer_at_rest(r: &[u8], bundle: &[u8], curves: &[u8]) -> bool {
    let answered = sid_filter::sid_filter_summer(bundle, curves, 0, wire::f32_at(r, 32));
    let point = answered.point;
    answered.answer.number == wire::u32_at(r, 36)
        && point.value == 0.0
        && has(r, 40, point.value)
        && point.index == wire::u32_at(r, 44)
        && has(r, 48, point.fraction)
}

// What is asked of a record, on the bundle with its entries, opened and built anew.
fn agrees<F: FnOnce(&[u8], &[u8], &[u8]) -> bool>(
    r: &[u8],
    bundle: &mut [u8],
    curves: &mut [u8],
    asked: F,
) -> bool
    requires { F.IsAlwaysCallable asked }
{
    put_entries(bundle, r, r);
    let opened = sid_filter::sid_filter_open(bundle).number;
    let built = sid_filter::sid_filter_build_curves(bundle, curves).number;
    let agree = asked(r, bundle, curves);
    put_entries(bundle, r, &[]);
    opened == 0 && built == 0 && agree
}

// ---- the files, each with the number of words in its records

fn main(rt: HostRuntime) -> Result<(), AllocError> {
    let mut bundle = replay::read_file(&rt, "header.bin", BUNDLE_LENGTH);
    bundle.resize(BUNDLE_LENGTH, 0)?;
    let mut curves = curves_room();
    replay_file(&rt, "whole_loads.bin", 12, |r| {
        agrees(r, &mut bundle, &mut curves, whole_load)
    });
    replay_file(&rt, "zero_signs.bin", 12, |r| {
        agrees(r, &mut bundle, &mut curves, zero_signs)
    });
    replay_file(&rt, "summer_at_rest.bin", 13, |r| {
        agrees(r, &mut bundle, &mut curves, summer_at_rest)
    });
    Ok(())
}

const BUNDLE_LENGTH: usize = 6127736;

fn curves_room() -> [u8; 254076] {
    [0; 254076]
}
