// Replays the oracle's answers (oracle/README.md) on voices: the eight sums of the Rust's `collect`, and what is refused. Prints a line for each file: its name, how
// many of its records agree, and how many it has.
#![tactic(auto)]

ghost use Rattle.std.specs.Prelude.{◌<◌};

use replay::{part, replay_file, size_at};

// ---- a record: two nibbles, 36 bytes of voices from byte 8 on, 24 bytes of numbers from byte 44 on; then what is told

// The number of the call's answer, with so many bytes of voices and of numbers lent.
fn called(r: &[u8], voices: usize, numbers: usize, sums: &mut [u8]) -> u32 {
    let answer = signals::collect_lent(
        wire::byte_at(r, 0),
        wire::byte_at(r, 4),
        part(r, 8, voices),
        part(r, 44, numbers),
        sums,
    );
    answers::report(answer).number
}

// The number, and the sums.
fn collected(r: &[u8]) -> bool {
    let mut sums = [0; 32];
    let number = called(r, 36, 24, &mut sums);
    number == wire::u32_at(r, 68) && sums.as_slice() == part(r, 72, 32)
}

// How many bytes of voices, numbers and sums are lent, 31, 32 or 33 of sums; and the number. Refused: the sums as they were.
fn refused(r: &[u8]) -> bool {
    match wire::u32_at(r, 76) {
        31 => refused_in::<31>(r),
        32 => refused_in::<32>(r),
        33 => refused_in::<33>(r),
        _ => false,
    }
}

fn refused_in<const N: usize>(r: &[u8]) -> bool
    requires { N < 64 }
{
    let mut sums = [0xa5; N];
    let number = called(r, size_at(r, 68), size_at(r, 72), &mut sums);
    number == wire::u32_at(r, 80) && sums.iter().all(|&byte| byte == 0xa5)
}

// ---- the files, each with the number of words in its records

fn main(rt: HostRuntime) {
    replay_file(&rt, "collect.bin", 26, collected);
    replay_file(&rt, "collect_refused.bin", 21, refused);
}
