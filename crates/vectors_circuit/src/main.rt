// Replays the oracle's answers (oracle/README.md) through integrator, response, mixing and control, and prints a line for each file: its name, how many of
// its records agree, and how many it has.
#![tactic(auto)]

mod charges;
mod circuit;
mod levels;
mod registers;

use replay::replay_file;

// Each file with the number of words in its records, and the function that says whether a record agrees.
fn main(rt: HostRuntime) {
    replay_file(&rt, "saturate.bin", 3, circuit::saturate);
    replay_file(&rt, "advance.bin", 13, circuit::advance);
    replay_file(&rt, "substeps.bin", 28, circuit::substeps);
    replay_file(&rt, "operating_position.bin", 6, levels::operating_position);
    replay_file(&rt, "conductance.bin", 2, levels::conductance);
    replay_file(&rt, "common_mode.bin", 3, levels::common_mode);
    replay_file(&rt, "mode_gain.bin", 5, levels::mode_gain);
    replay_file(&rt, "topology.bin", 19, levels::topology);
    replay_file(&rt, "writes.bin", 11, registers::write);
    replay_file(&rt, "charges.bin", 36, charges::charge);
    replay_file(&rt, "widening.bin", 23, charges::widening);
}
