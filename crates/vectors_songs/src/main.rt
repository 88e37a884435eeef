// Replays a song (oracle/README.md) through runs on the bundle, the curves built from it and the decays, and prints a line for each file: its name, how many of its
// pieces agree, and how many it has.
#![tactic(auto)]

mod song;

use song::Lent;
use std::fs::Files;
use std::io::Print;

// The number that building answers, then the song whole, cut, event by event, and a script of no events.
fn main(rt: HostRuntime) {
    let bundle = replay::read_file(&rt, "bundle.bin", 6127736);
    let decays = replay::read_file(&rt, "decays.bin", 24);
    let mut curves = curves_room();
    let built = curves::build(&bundle, &mut curves);
    let number = answers::report(built).number;
    let bytes = bundle.len();
    let _ = println!(rt;
        "bundle {bytes} bytes, decays {} bytes, build {number}",
        decays.len()
    );
    let lent = Lent {
        bundle: &bundle,
        curves: &curves,
        decays: &decays,
    };
    replay_song(&rt, "song.bin", lent);
    replay_song(&rt, "song_cut.bin", lent);
    replay_song(&rt, "song_events.bin", lent);
    replay_song(&rt, "song_empty.bin", lent);
}

// Prints the line of one file of pieces.
fn replay_song<R: Alloc + Files + Print>(rt: &R, file: &str, lent: Lent<'_>) {
    let bytes = replay::read_file(rt, file, replay::MOST);
    let agreed = song::count_agreeing(&bytes, lent);
    replay::print_songs(rt, file, song::count(&bytes), agreed);
}

fn curves_room() -> [u8; 254076] {
    [0; 254076]
}
