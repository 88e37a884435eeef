// Records of the calls that say where on a curve, as C has them.
use replay::{has, part};
use sid_filter::PointAnswer;

pub(crate) fn sample_curve(r: &[u8], curves: &[u8]) -> bool {
    let curve = wire::u32_at(r, 0);
    let input = wire::f32_at(r, 4);
    has_point(
        part(r, 8, 16),
        sid_filter::sid_filter_sample_curve(curves, curve, input),
    )
}

pub(crate) fn transfer(r: &[u8], bundle: &[u8], curves: &[u8]) -> bool {
    let first = wire::byte_at(r, 4);
    let second = wire::byte_at(r, 8);
    let input = wire::f32_at(r, 12);
    let answered = match wire::u32_at(r, 0) {
        0 => sid_filter::sid_filter_summer(bundle, curves, first, input),
        1 => sid_filter::sid_filter_mixer(curves, first, second, input),
        _ => sid_filter::sid_filter_volume(curves, first, input),
    };
    has_point(part(r, 16, 16), answered)
}

pub(crate) fn sample_point(r: &[u8], bundle: &[u8], curves: &[u8]) -> bool {
    let block = part(r, 0, 68);
    let sum = wire::f32_at(r, 68);
    let energy = wire::f32_at(r, 72);
    has_point(
        part(r, 76, 16),
        sid_filter::sid_filter_sample_point(bundle, curves, block, sum, energy),
    )
}

// The number of the answer and nothing else of it, then value, index and fraction.
fn has_point(words: &[u8], answered: PointAnswer) -> bool {
    let answer = answered.answer;
    let point = answered.point;
    answer.number == wire::u32_at(words, 0)
        && answer.events == 0
        && answer.samples == 0
        && answer.buffer == 0
        && answer.place == 0
        && has(words, 4, point.value)
        && point.index == wire::u32_at(words, 8)
        && has(words, 12, point.fraction)
}
