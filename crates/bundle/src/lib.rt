// The bundle of tables that the Rust makes: its fixed header, the places of its entries, reading one, and opening.
#![tactic(auto)]

ghost use Rattle.std.specs.Prelude.{◌≡◌, ℕ, ◌+◌, ◌*◌, ◌≤◌, ◌<◌, true, get_or, [], ◌∷◌};
ghost use Rattle.bundle.specs.Layout.{integrator_gain_place, damping_place, source_gain_modulation_place, highpass_loading_place, displacement_index_of, directional_power_place};
ghost use Rattle.bundle.specs.Layout.{analogue_surface, bundle_length, header_length, sections, pairs, header};
ghost use Rattle.bundle.specs.Reading.{read_of};
ghost use Rattle.bundle.specs.Opening.{entry_at, header_byte, first_difference, check_of, judge_places_of, judge_section_of, open_of};

use answers::{Answer, Buffer, Refusal};

// All bytes of a bundle, those of its header, and the entries of four bytes that fill the rest.
pub const BYTES: usize = 6_127_736;

const HEADER_BYTES: u32 = 56;

const ENTRIES: usize = 1_531_920;

// The byte that each section begins at, and its entries.
const INTEGRATOR_GAIN_OFFSET: u32 = 56;

const INTEGRATOR_GAIN_COUNT: u32 = 524_288;

const DAMPING_OFFSET: u32 = 2_097_208;

const DAMPING_COUNT: u32 = 16;

const SOURCE_GAIN_MODULATION_OFFSET: u32 = 2_097_272;

const SOURCE_GAIN_MODULATION_COUNT: u32 = 2_048;

pub const ANALOGUE_SURFACE_OFFSET: u32 = 2_105_464;

const ANALOGUE_SURFACE_COUNT: u32 = 296_960;

const HIGHPASS_LOADING_OFFSET: u32 = 3_293_304;

const HIGHPASS_LOADING_COUNT: u32 = 2_048;

const DIRECTIONAL_POWER_OFFSET: u32 = 3_301_496;

const DIRECTIONAL_POWER_COUNT: u32 = 706_560;

// The written cutoffs, their displacements from the lowest on, the 16 bits of that one, and the limit of a displacement in codes.
const CUTOFFS: u32 = 2_048;

const DISPLACEMENTS: u32 = 115;

const LOWEST_DISPLACEMENT: u32 = 0xffc7;

const DISPLACEMENT_LIMIT: u32 = 57;

// The header's words: the total length and the section count, then the byte offset and the entry count of each section.
const HEADER: [u32; 14] = [
    BYTES as u32,
    6,
    INTEGRATOR_GAIN_OFFSET,
    INTEGRATOR_GAIN_COUNT,
    DAMPING_OFFSET,
    DAMPING_COUNT,
    SOURCE_GAIN_MODULATION_OFFSET,
    SOURCE_GAIN_MODULATION_COUNT,
    ANALOGUE_SURFACE_OFFSET,
    ANALOGUE_SURFACE_COUNT,
    HIGHPASS_LOADING_OFFSET,
    HIGHPASS_LOADING_COUNT,
    DIRECTIONAL_POWER_OFFSET,
    DIRECTIONAL_POWER_COUNT,
];

// ---- the byte at which an entry stands

// The integrator's gain at an effective cutoff, a resonance and an operating bin.
pub fn integrator_gain_place(code: u16, resonance: u8, bin: u8) -> u32
    ensures { result ≡ integrator_gain_place code resonance bin }
{
    INTEGRATOR_GAIN_OFFSET + 4 * (((code as u32) * 16 + (resonance as u32)) * 16 + (bin as u32))
}

// The damping at a resonance.
pub fn damping_place(resonance: u8) -> u32
    ensures { result ≡ damping_place resonance }
{
    DAMPING_OFFSET + 4 * (resonance as u32)
}

// How far the source energy moves the gain, at an effective cutoff.
pub fn source_gain_modulation_place(code: u16) -> u32
    ensures { result ≡ source_gain_modulation_place code }
{
    SOURCE_GAIN_MODULATION_OFFSET + 4 * (code as u32)
}

// The highpass output's loading at an effective cutoff.
pub fn highpass_loading_place(cutoff: u16) -> u32
    ensures { result ≡ highpass_loading_place cutoff }
{
    HIGHPASS_LOADING_OFFSET + 4 * (cutoff as u32)
}

// A displacement's index among the entries of a cutoff, from its 16 bits.
fn displacement_index(displacement: i16) -> u32
    ensures { result ≡ displacement_index_of displacement }
{
    let bits = wire::bits16(displacement) as u32;
    if bits < 0x8000 {
        return bits + DISPLACEMENT_LIMIT;
    }
    if bits < LOWEST_DISPLACEMENT {
        return 0;
    }
    bits - LOWEST_DISPLACEMENT
}

// The directional gain to the power of a displacement, for a mode (0 low, 1 band, 2 high) at a written cutoff.
pub fn directional_power_place(mode: u8, cutoff: u16, displacement: i16) -> u32
    ensures { result ≡ directional_power_place mode cutoff displacement }
{
    DIRECTIONAL_POWER_OFFSET
        + 4 * (((mode as u32) * CUTOFFS + (cutoff as u32)) * DISPLACEMENTS
            + displacement_index(displacement))
}

// ---- entries

// The entry at a place. An unusable one reads as the float that it is.
pub fn entry_at(bundle: &[u8], place: u32) -> f32
    ensures { result ≡ entry_at bundle.now place }
{
    wire::f32_at(bundle, place as usize)
}

// The entry at a place of a buffer, judged as it is read.
pub fn read_entry(buffer: Buffer, bytes: &[u8], place: u32) -> Result<f32, Refusal>
    ensures { result ≡ read_of (judge_places_of buffer bytes.now (place ∷ [])) (entry_at bytes.now place) }
{
    let bits = wire::u32_at(bytes, place as usize);
    answers::unless(wire::usable(bits), Refusal::Entry { buffer, place })?;
    Ok(wire::f32_of(bits))
}

// Refuses at the first unusable one among the entries at some places, in the order of the places.
pub fn judge_places(buffer: Buffer, bytes: &[u8], places: &[u32]) -> Answer
    ensures { result ≡ judge_places_of buffer bytes.now places.now }
{
    for place in places {
        answers::unless(
            wire::usable_at(bytes, *place as usize),
            Refusal::Entry {
                buffer,
                place: *place,
            },
        )?;
    }
    Ok(())
}

// Refuses at the first unusable one of a run of entries.
fn judge_section(bundle: &[u8], offset: usize, count: usize) -> Answer
    requires { offset + 4 * count ≤ bundle_length }
    ensures { result ≡ judge_section_of bundle.now (record { offset = offset; count = count }) }
{
    let index = wire::first_unusable(bundle, offset, count);
    if index < count {
        return Err(Refusal::Entry {
            buffer: Buffer::Bundle,
            place: (offset + 4 * index) as u32,
        });
    }
    Ok(())
}

// Refuses at the first unusable entry of the analogue surface.
pub fn judge_surface(bundle: &[u8]) -> Answer
    ensures { result ≡ judge_section_of bundle.now analogue_surface }
{
    judge_section(
        bundle,
        ANALOGUE_SURFACE_OFFSET as usize,
        ANALOGUE_SURFACE_COUNT as usize,
    )
}

// ---- opening

fn header_byte(i: u32) -> u8
    requires { i < header_length }
    ensures { result ≡ get_or header i 0 }
{
    ((HEADER[(i / 4) as usize] >> (8 * (i % 4))) % 256) as u8
}

// Whether the bundle's word k is the header's: one load and one test. Where it answers so, the four bytes are.
fn has_word(bundle: &[u8], k: usize, word: u32) -> bool
    requires { (k < 14) × (word ≡ get_or (bundle_length ∷ 6 ∷ pairs sections) k 0) }
    ensures { result ≡ true → (j : ℕ) → j < 4 → header_byte bundle.now (4 * k + j) ≡ true }
{
    let a = wire::byte_at(bundle, 4 * k);
    let b = wire::byte_at(bundle, 4 * k + 1);
    let c = wire::byte_at(bundle, 4 * k + 2);
    let d = wire::byte_at(bundle, 4 * k + 3);
    wire::join4(a, b, c, d) == word
}

// The first byte that is not the header's, from one on up to which each is.
fn difference_from(bundle: &[u8], from: u32) -> u32
    requires { (from ≤ header_length) × ((k : ℕ) → k < from → header_byte bundle.now k ≡ true) }
    ensures { result ≡ first_difference bundle.now }
{
    for i in from..HEADER_BYTES {
        if wire::byte_at(bundle, i as usize) != header_byte(i) {
            return i;
        }
    }
    HEADER_BYTES
}

// The first byte that is not the header's, and its length where there is none: word by word, then in the word that differs.
fn first_difference(bundle: &[u8]) -> u32
    ensures { result ≡ first_difference bundle.now }
{
    for k in 0..14 {
        if !has_word(bundle, k, HEADER[k]) {
            return difference_from(bundle, 4 * k as u32);
        }
    }
    HEADER_BYTES
}

// The length, then the header: what every call that takes a bundle looks at.
pub fn check(bundle: &[u8]) -> Answer
    ensures { result ≡ check_of bundle.now }
{
    answers::unless(bundle.len() == BYTES, Refusal::BundleLength)?;
    let place = first_difference(bundle);
    answers::unless(HEADER_BYTES <= place, Refusal::Header { place })
}

// The length, the header, then every entry in order.
pub fn open(bundle: &[u8]) -> Answer
    ensures { result ≡ open_of bundle.now }
{
    check(bundle)?;
    judge_section(bundle, HEADER_BYTES as usize, ENTRIES)
}
