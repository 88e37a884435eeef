// Records of response and mixing.
use mixing::MixingTopology;
use replay::{has, has_flag, has_size, part};
use wire::byte_at;

pub(crate) fn operating_position(r: &[u8]) -> bool {
    let at = response::operating_position(
        wire::f32_at(r, 0),
        wire::f32_at(r, 4),
        wire::f32_at(r, 8),
    );
    has_size(r, 12, at.lower) && has_size(r, 16, at.upper) && has(r, 20, at.fraction)
}

pub(crate) fn conductance(r: &[u8]) -> bool {
    has(r, 4, response::volume_dac_conductance_code(byte_at(r, 0)))
}

pub(crate) fn common_mode(r: &[u8]) -> bool {
    has(
        r,
        8,
        response::filter_output_common_mode(byte_at(r, 0), wire::u16_at(r, 4)),
    )
}

pub(crate) fn mode_gain(r: &[u8]) -> bool {
    has(
        r,
        12,
        response::filter_mode_output_gain(
            byte_at(r, 0),
            byte_at(r, 4),
            wire::u16_at(r, 8),
            wire::f32_at(r, 16),
        ),
    )
}

fn has_flags(words: &[u8], flags: [bool; 4]) -> bool {
    (0..4).all(|i| has_flag(words, 4 * i, flags[i]))
}

pub(crate) fn topology(r: &[u8]) -> bool {
    let t = MixingTopology::update(byte_at(r, 0), byte_at(r, 4));
    has_flags(part(r, 8, 16), t.filter_membership)
        && has_flags(part(r, 24, 16), t.bypass_membership)
        && has_rest(r, t)
}

fn has_rest(r: &[u8], t: MixingTopology) -> bool {
    has_size(r, 40, t.filter_input_count)
        && has_size(r, 44, t.bypass_input_count)
        && has_size(r, 48, t.filter_output_count)
        && has_size(r, 52, t.mixer_input_count)
        && has(r, 56, t.filter_input_reciprocal)
        && has(r, 60, t.summer_input_reciprocal)
        && has(r, 64, t.mixer_input_reciprocal)
        && has_size(r, 68, t.filter_internal_mask as usize)
        && has_size(r, 72, t.bypass_internal_mask as usize)
}
