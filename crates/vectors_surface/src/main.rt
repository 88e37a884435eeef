// Replays the oracle's answers (oracle/README.md) for the bundle, the curves built from it and the filter's core on both, and prints a
// line for each file: its name, how many of its records agree, and how many it has.
#![tactic(auto)]

mod curve_points;
mod filter_core;
mod surface;

use replay::replay_file;

// The numbers that opening and building answer, then each file with the number of words in its records, and what says whether a record agrees.
fn main(rt: HostRuntime) {
    let bundle = replay::read_file(&rt, "bundle.bin", 6127736);
    let mut curves = curves_room();
    let opened = sid_filter::sid_filter_open(&bundle).number;
    let built = sid_filter::sid_filter_build_curves(&bundle, &mut curves).number;
    let bytes = bundle.len();
    let _ = println!(rt; "bundle {bytes} bytes, open {opened}, build {built}");
    replay_file(&rt, "words.bin", 3, |r| surface::word(r, &bundle));
    replay_file(&rt, "load_position.bin", 4, surface::load_position);
    replay_file(&rt, "sample.bin", 3, |r| surface::sample(r, &bundle));
    replay_file(&rt, "curves.bin", 2, |r| surface::curve_entry(r, &curves));
    replay_file(&rt, "controls.bin", 83, |r| {
        filter_core::controls(r, &bundle)
    });
    replay_file(&rt, "filter_sample.bin", 40, |r| {
        filter_core::sample(r, &bundle, &curves)
    });
    replay_file(&rt, "sample_curve.bin", 6, |r| {
        curve_points::sample_curve(r, &curves)
    });
    replay_file(&rt, "transfers.bin", 8, |r| {
        curve_points::transfer(r, &bundle, &curves)
    });
    replay_file(&rt, "sample_point.bin", 23, |r| {
        curve_points::sample_point(r, &bundle, &curves)
    });
}

fn curves_room() -> [u8; 254076] {
    [0; 254076]
}
