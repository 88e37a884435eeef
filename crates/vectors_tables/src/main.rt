// Replays the oracle's answers (oracle/README.md) through ladder, and prints a line for each file: its name, how many of its records
// agree, and how many it has.
#![tactic(auto)]

mod dac;

use replay::replay_file;

// Each file with the number of words in its records, and the function that says whether a record agrees.
fn main(rt: HostRuntime) {
    let mut positions = [0u8; 8192];
    let built = ladder::build_cutoff_control_positions(&mut positions);
    replay_file(&rt, "solve_tridiagonal.bin", 120, dac::solution);
    replay_file(&rt, "ladder_weights.bin", 27, dac::weights);
    replay_file(&rt, "ladder_value.bin", 29, dac::level);
    replay_file(&rt, "control_positions.bin", 2, |r| {
        built.is_ok() && dac::position(r, &positions)
    });
}
