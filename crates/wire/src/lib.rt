// Little-endian numbers and floats in lent bytes. Every public function is total: what is not there reads as 0,
// and what does not fit is not written.
#![tactic(auto)]

ghost use Rattle.std.specs.Prelude.{◌≡◌, ◌↔◌, [], ◌∷◌, ◌+◌, ◌*◌, ◌≤◌, length, IsTrue};
ghost use Rattle.std.specs.Float.{binary32};
ghost use Rattle.std.specs.Float.Ieee.{of_bits, to_bits};
ghost use Rattle.std.specs.Int.{w16};
ghost use Rattle.std.proofs.Common.{to_z, of_z};
ghost use Rattle.wire.specs.Wire.{little, byte_at, u16_at, i16_at, u32_at, sixteen_at, f32_at, usable_of, usable_at, all_usable, finite_bits_of, finite_at, bytes_of, float_bytes, row_bytes, put_at};
ghost use Rattle.wire.specs.First.{first_unusable_of};
ghost use Rattle.wire.specs.Inner.{four_at, block_usable_of};

// ---- numbers and their bits

// The signed number of 16 bits, in two's complement.
pub fn signed16(bits: u16) -> i16
    ensures { result ≡ to_z w16 bits }
{
    bits.cast_signed()
}

// The 16 bits of a signed number.
pub fn bits16(value: i16) -> u16
    ensures { result ≡ of_z w16 value }
{
    value.cast_unsigned()
}

// The float of a bit pattern. Every NaN's pattern is the logic's one NaN.
pub fn f32_of(bits: u32) -> f32
    ensures { result ≡ of_bits binary32 bits }
{
    std::num::f32_from_bits_with_nan(bits)
}

// The bit pattern of a float. A NaN has none of its own, and gives 0x7fc0_0000.
pub fn float_bits(x: f32) -> u32
    ensures { result ≡ to_bits binary32 x }
{
    std::num::f32_to_bits_with_nan(x)
}

// Whether a pattern is a usable entry's: finite and at most 1,024 in magnitude.
#[tactic(auto, unfolding(crate::specs::Wire::usable_of))]
pub fn usable(bits: u32) -> bool
    ensures { result ≡ usable_of bits }
{
    bits % 0x8000_0000 <= 0x4480_0000
}

// Whether a pattern is a finite float's.
#[tactic(auto, unfolding(crate::specs::Wire::finite_bits_of))]
pub fn finite_bits(bits: u32) -> bool
    ensures { result ≡ finite_bits_of bits }
{
    bits % 0x8000_0000 < 0x7f80_0000
}

// ---- reading

// The number of four bytes.
pub fn join4(a: u8, b: u8, c: u8, d: u8) -> u32
    ensures { result ≡ little (a ∷ b ∷ c ∷ d ∷ []) }
{
    u32::from_le_bytes([a, b, c, d])
}

// Whether n bytes are there from a place on.
fn holds(s: &[u8], p: usize, n: usize) -> bool
    ensures { IsTrue result ↔ (p + n ≤ length s.now) }
{
    n <= s.len() && p <= s.len() - n
}

// Two bytes that are there: one load.
#[tactic(auto, using(crate::proofs::Laws::two_bytes))]
fn pair(s: &[u8], p: usize) -> u16
    requires { p + 2 ≤ length s.now }
    ensures { result ≡ u16_at s.now p }
{
    u16::from_le_bytes([s[p], s[p + 1]])
}

// Four bytes that are there: one load.
#[tactic(auto, using(crate::proofs::Laws::four_bytes))]
fn word(s: &[u8], p: usize) -> u32
    requires { p + 4 ≤ length s.now }
    ensures { result ≡ u32_at s.now p }
{
    join4(s[p], s[p + 1], s[p + 2], s[p + 3])
}

// The byte at a place, and 0 past the end.
pub fn byte_at(s: &[u8], p: usize) -> u8
    ensures { result ≡ byte_at s.now p }
{
    s.get(p).copied().unwrap_or(0)
}

// The two bytes at a place, and 0 where they are not both there.
#[tactic(auto, using(crate::proofs::Laws::number_at_out))]
pub fn u16_at(s: &[u8], p: usize) -> u16
    ensures { result ≡ u16_at s.now p }
{
    if holds(s, p, 2) { pair(s, p) } else { 0 }
}

// The same two bytes as a signed number.
#[tactic(auto, unfolding(crate::specs::Wire::i16_at))]
pub fn i16_at(s: &[u8], p: usize) -> i16
    ensures { result ≡ i16_at s.now p }
{
    signed16(u16_at(s, p))
}

// The four bytes at a place, and 0 where they are not all there.
#[tactic(auto, using(crate::proofs::Laws::number_at_out))]
pub fn u32_at(s: &[u8], p: usize) -> u32
    ensures { result ≡ u32_at s.now p }
{
    if holds(s, p, 4) { word(s, p) } else { 0 }
}

// Sixteen words side by side that are there.
fn sixteen(s: &[u8], p: usize) -> [u32; 16]
    requires { p + 64 ≤ length s.now }
    ensures { result ≡ sixteen_at s.now p }
{
    std::array::from_fn(|i| word(s, p + 4 * i))
}

// The sixteen words from a place on, each 0 where it is not all there; one test of the length serves them all.
pub fn sixteen_at(s: &[u8], place: u32) -> [u32; 16]
    ensures { result ≡ sixteen_at s.now place }
{
    let p = place as usize;
    if holds(s, p, 64) {
        sixteen(s, p)
    } else {
        std::array::from_fn(|i| u32_at(s, p + 4 * i))
    }
}

// The four bytes at a place as a float, whatever their pattern.
pub fn f32_at(s: &[u8], p: usize) -> f32
    ensures { result ≡ f32_at s.now p }
{
    f32_of(u32_at(s, p))
}

// Whether the entry at a place is usable. One that is not all there reads as 0, and is.
pub fn usable_at(s: &[u8], p: usize) -> bool
    ensures { result ≡ usable_at s.now p }
{
    usable(u32_at(s, p))
}

// Whether the float at a place is finite.
#[tactic(auto, using(crate::proofs::Floats::finite_bits_is))]
pub fn finite_at(s: &[u8], p: usize) -> bool
    ensures { result ≡ finite_at s.now p }
{
    finite_bits(u32_at(s, p))
}

// ---- the first unusable entry

// Whether 64 entries are left at p, and each of the 64 is usable. With no way out of the loop, as `all` has one, the compiler makes vector code of it.
fn block_usable(s: &[u8], p: usize, left: usize) -> bool
    requires { p + 4 * left ≤ length s.now }
    ensures { result ≡ block_usable_of s.now p left }
{
    if left < 64 {
        return false;
    }
    let mut all = true;
    for j in 0..64 {
        all = all & usable(word(s, p + 4 * j));
    }
    all
}

// Of n entries that lie whole in the bytes: 64 at a time where they are usable, else one. A step is of either length, so no `for` has it.
fn scan(s: &[u8], from: usize, n: usize) -> usize
    requires { from + 4 * n ≤ length s.now }
    ensures { result ≡ first_unusable_of s.now from n }
{
    let mut i = 0;
    while i < n {
        if block_usable(s, from + 4 * i, n - i) {
            i += 64;
        } else if usable(word(s, from + 4 * i)) {
            i += 1;
        } else {
            return i;
        }
    }
    i
}

// The index of the first unusable one of count entries from the byte from on, and count where each is usable.
// Entries past the end read as 0, so only those that lie whole in the bytes are looked at.
pub fn first_unusable(s: &[u8], from: usize, count: usize) -> usize
    ensures { result ≡ first_unusable_of s.now from count }
{
    if s.len() < from {
        return count;
    }
    let inside = count.min((s.len() - from) / 4);
    let i = scan(s, from, inside);
    if i < inside { i } else { count }
}

// Whether four words side by side that are there are usable.
fn four_usable(s: &[u8], p: usize) -> bool
    requires { p + 16 ≤ length s.now }
    ensures { result ≡ all_usable (four_at s.now p) }
{
    usable(word(s, p)) & usable(word(s, p + 4)) & usable(word(s, p + 8)) & usable(word(s, p + 12))
}

// Whether the sixteen words from a place on are usable, without the words: one test of the length, and vector code.
pub fn sixteen_usable(s: &[u8], place: u32) -> bool
    ensures { result ≡ all_usable (sixteen_at s.now place) }
{
    let p = place as usize;
    if holds(s, p, 64) {
        four_usable(s, p) & four_usable(s, p + 16) & four_usable(s, p + 32) & four_usable(s, p + 48)
    } else {
        first_unusable(s, p, 16) == 16
    }
}

// ---- writing

// Four bytes where there is room: one store.
fn store(s: &mut [u8], p: usize, v: u32)
    requires { p + 4 ≤ length s.old }
    ensures { s.new ≡ put_at s.old p (bytes_of 4 v) }
{
    s[p..p + 4].copy_from_slice(&v.to_le_bytes());
}

// Writes bytes at a place, where they fit.
pub fn put(dst: &mut [u8], at: usize, src: &[u8])
    ensures { dst.new ≡ put_at dst.old at src.now }
{
    if holds(dst, at, src.len()) {
        dst[at..at + src.len()].copy_from_slice(src);
    }
}

// Writes four bytes at a place, where they fit.
pub fn put_u32(s: &mut [u8], p: usize, v: u32)
    ensures { s.new ≡ put_at s.old p (bytes_of 4 v) }
{
    if holds(s, p, 4) {
        store(s, p, v);
    }
}

// The same of a float's bits.
pub fn put_f32(s: &mut [u8], p: usize, x: f32)
    ensures { s.new ≡ put_at s.old p (float_bytes x) }
{
    put_u32(s, p, float_bits(x));
}

// Writes four words side by side, as a sample has them, where the sixteen bytes fit.
pub fn put_row(s: &mut [u8], p: usize, a: u32, b: u32, c: u32, d: u32)
    ensures { s.new ≡ put_at s.old p (row_bytes a b c d) }
{
    if holds(s, p, 16) {
        store(s, p, a);
        store(s, p + 4, b);
        store(s, p + 8, c);
        store(s, p + 12, d);
    }
}
