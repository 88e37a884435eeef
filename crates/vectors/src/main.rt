// Replays the oracle's answers (oracle/README.md) through the proved crates, and prints a line for each file: its name, how many of
// its records agree, and how many it has.
#![tactic(auto)]

mod ground;

use replay::replay_file;

// Each file with the number of words in its records, and the function that says whether a record agrees.
fn main(rt: HostRuntime) {
    replay_file(&rt, "constants.bin", 5, ground::constant);
    replay_file(&rt, "answers.bin", 9, ground::answer);
    replay_file(&rt, "rounding.bin", 3, ground::rounding);
    replay_file(&rt, "round.bin", 2, ground::round);
    replay_file(&rt, "truncate.bin", 4, ground::truncate);
    replay_file(&rt, "clamp.bin", 4, ground::clamp);
    replay_file(&rt, "abs.bin", 2, ground::abs);
    replay_file(&rt, "finite.bin", 2, ground::finite);
    replay_file(&rt, "to_f32.bin", 3, ground::to_f32);
    replay_file(&rt, "narrow.bin", 4, ground::narrow);
    replay_file(&rt, "reads.bin", 9, ground::read);
    replay_file(&rt, "puts.bin", 10, ground::put);
}
