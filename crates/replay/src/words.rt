// The words of a record, by their byte place in it. What is not there reads as 0.
ghost use Rattle.std.specs.Prelude.{◌≡◌, eqb};
ghost use Rattle.std.specs.Float.{binary32, binary64};
ghost use Rattle.std.specs.Float.Ieee.{of_bits, to_bits};
ghost use Rattle.std.specs.Int.{w32};
ghost use mir.Val.{to_z, bool_byte};
ghost use Rattle.wire.specs.Wire.{u32_at};
ghost use Rattle.replay.specs.Records.{u64_at, has_floats};

use std::num::{f64_from_bits_with_nan, f64_to_bits_with_nan};

// ---- reading

pub fn size_at(r: &[u8], place: usize) -> usize
    ensures { result ≡ u32_at r.now place }
{
    wire::u32_at(r, place) as usize
}

pub fn i32_at(r: &[u8], place: usize) -> i32
    ensures { result ≡ to_z w32 (u32_at r.now place) }
{
    wire::u32_at(r, place).cast_signed()
}

// Two words, the low one first. Not `from_le_bytes` of eight bytes: each word reads as 0 where it alone is not all there.
#[tactic(auto, unfolding(crate::specs::Records::u64_at))]
pub fn u64_at(r: &[u8], place: usize) -> u64
    ensures { result ≡ u64_at r.now place }
{
    if place < r.len() {
        let low = u64::from(wire::u32_at(r, place));
        let high = u64::from(wire::u32_at(r, place + 4));
        return low + high * 0x1_0000_0000;
    }
    0
}

// The same two words as a float, whatever their pattern.
pub fn f64_at(r: &[u8], place: usize) -> f64
    ensures { result ≡ of_bits binary64 (u64_at r.now place) }
{
    f64_from_bits_with_nan(u64_at(r, place))
}

// ---- comparing by bits, every NaN counting as one

// The bit pattern of a float, and 0x7ff8_0000_0000_0000 for a NaN.
pub fn double_bits(x: f64) -> u64
    ensures { result ≡ to_bits binary64 x }
{
    f64_to_bits_with_nan(x)
}

pub fn has(r: &[u8], place: usize, x: f32) -> bool
    ensures { result ≡ eqb (u32_at r.now place) (to_bits binary32 x) }
{
    wire::u32_at(r, place) == wire::float_bits(x)
}

pub fn has_f64(r: &[u8], place: usize, x: f64) -> bool
    ensures { result ≡ eqb (u64_at r.now place) (to_bits binary64 x) }
{
    u64_at(r, place) == double_bits(x)
}

pub fn has_size(r: &[u8], place: usize, n: usize) -> bool
    ensures { result ≡ eqb (u32_at r.now place) n }
{
    size_at(r, place) == n
}

pub fn has_flag(r: &[u8], place: usize, flag: bool) -> bool
    ensures { result ≡ eqb (u32_at r.now place) (bool_byte flag) }
{
    wire::u32_at(r, place) == u32::from(flag)
}

// Whether the words at a place are those of floats side by side, at most 64.
#[tactic(auto, unfolding(crate::specs::Records::has_floats))]
pub fn has_floats(r: &[u8], place: usize, xs: &[f32]) -> bool
    ensures { result ≡ has_floats r.now place xs.now }
{
    if r.len() < place || 64 < xs.len() {
        return false;
    }
    for (i, &x) in xs.iter().enumerate() {
        if !has(r, place + 4 * i, x) {
            return false;
        }
    }
    true
}
