// Rust's operations on floats, with what specs/ says of each. Each public one gives Rust's value for every input, a NaN, the infinities and both zeros included;
// `of_usize` alone stops at 2^24.
#![tactic(auto)]

ghost use Rattle.std.specs.Prelude.{◌≡◌, pos};
ghost use Rattle.std.specs.Float.{binary32};
ghost use Rattle.std.specs.Float.Ieee.{of_int, to_unsigned, to_signed};
ghost use Rattle.std.specs.Float.Ieee.Scale.{finite};
ghost use Rattle.floats.specs.Floats.{abs_of, clamp_of, round_of, narrow_of, finite_f32_of, of_small};

// x.abs(), by clearing the sign bit: the library's compares twice and selects twice.
pub fn abs(x: f32) -> f32
    ensures { result ≡ abs_of x }
{
    if x == x {
        f32::from_bits(f32::to_bits(x) % 0x8000_0000)
    } else {
        x
    }
}

// x.clamp(lo, hi), of any two ends: the library's asks that lo is at most hi.
pub fn clamp(x: f32, lo: f32, hi: f32) -> f32
    ensures { result ≡ clamp_of x lo hi }
{
    if x < lo {
        lo
    } else if hi < x {
        hi
    } else {
        x
    }
}

// Neither a NaN nor an infinity. Two tests are plain for the processor; the library's is a difference and a test, and its zero wants a register in every loop.
pub fn is_finite(x: f32) -> bool
    ensures { result ≡ finite x }
{
    let top = 1.0f32 / 0.0;
    (x < top) & (-top < x)
}

// The same, with what its type says: a finite f32 as a field of a valid state is.
#[tactic(auto, unfolding(crate::specs::Floats::finite_f32_of))]
pub fn finite_f32(x: f32) -> bool
    ensures { result ≡ finite_f32_of x }
{
    is_finite(x)
}

// The same of an f64.
pub fn is_finite_f64(x: f64) -> bool
    ensures { result ≡ finite x }
{
    let top = 1.0f64 / 0.0;
    (x < top) & (-top < x)
}

// x as usize: the whole part; 0 for a NaN and below 0, the largest usize from 2^64 on. From 2^-40 to 2^24 it is one shift of
// the digits, with no branch on where x lies between; elsewhere it is the library's.
pub fn as_usize(x: f32) -> usize
    ensures { result ≡ to_unsigned 64 x }
{
    if x == x {
        let bits = f32::to_bits(x);
        let exponent = bits / 0x80_0000;
        if 86 < exponent && exponent < 151 {
            let digits = (0x80_0000 + bits % 0x80_0000) as u64;
            return (digits >> (150 - exponent)) as usize;
        }
    }
    std::num::saturating_f32_to_usize(x)
}

// x as i16: toward zero, 0 for a NaN, and the nearer end of the range outside of it.
pub fn as_i16(x: f32) -> i16
    ensures { result ≡ to_signed 15 x }
{
    std::num::saturating_f32_to_i16(x)
}

// n as f32.
pub fn of_u16(n: u16) -> f32
    ensures { result ≡ of_int binary32 (pos n) }
{
    f32::from(n)
}

// n as f32.
pub fn of_i16(n: i16) -> f32
    ensures { result ≡ of_int binary32 n }
{
    f32::from(n)
}

// n as f32, which rounds from 2^24 on.
pub fn of_i32(n: i32) -> f32
    ensures { result ≡ of_int binary32 n }
{
    std::num::nearest_i32_to_f32(n)
}

// n as f32, for a count or an index; from 2^24 on it stays 2^24.
pub fn of_usize(n: usize) -> f32
    ensures { result ≡ of_small n }
{
    n.min(0x100_0000) as f32
}

// x.round(): half away from zero, zero's sign kept. A zero goes first: a register that is written anew moves nothing.
#[tactic(auto, using(crate::proofs::Library::round_lem))]
pub fn round(x: f32) -> f32
    ensures { result ≡ round_of binary32 x }
{
    if x == 0.0 {
        return x;
    }
    x.round()
}

// x as f32: the nearest f32, and the even one where two are as near.
#[tactic(auto, using(crate::proofs::Library::narrow_lem))]
pub fn narrow(x: f64) -> f32
    ensures { result ≡ narrow_of x }
{
    std::num::nearest_f64_to_f32_with_nan(x)
}
