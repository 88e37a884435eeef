// Replays the oracle's ticks (oracle/README.md): what each answers, the four numbers and the block after it, also where entries of bundle and curves are damaged.
// Prints a line for each file: its name, how many of its records agree, and how many it has.
#![tactic(auto)]

use replay::{part, replay_file};
use std::alloc::AllocError;

// ---- a tick

// What goes in is a state's block, decays, levels and voices; what it leaves are the four numbers, zeros where it is refused, and the block.
// Told are the number, the buffer and the place of the answer.
fn has_tick(inputs: &[u8], told: [u32; 3], left: &[u8], bundle: &[u8], curves: &[u8]) -> bool {
    let mut block = [0; 68];
    let mut output = [0; 16];
    wire::put(&mut block, 0, part(inputs, 0, 68));
    let reply = probe_ticks::probe_tick(
        bundle,
        curves,
        &mut block,
        part(inputs, 68, 24),
        part(inputs, 92, 12),
        part(inputs, 104, 36),
        &mut output,
    );
    [reply.number, reply.buffer, reply.place] == told
        && output.as_slice() == part(left, 0, 16)
        && block.as_slice() == part(left, 16, 68)
}

// ---- the records

// Inputs, number, what is left.
fn sound(r: &[u8], bundle: &[u8], curves: &[u8]) -> bool {
    let told = [wire::u32_at(r, 140), 0, 0];
    has_tick(part(r, 0, 140), told, part(r, 144, 84), bundle, curves)
}

// Three entries, inputs, number, buffer and place, what is left. The entries are put back, the last one first.
fn damaged(r: &[u8], bundle: &mut [u8], curves: &mut [u8]) -> bool {
    let mut had = [0; 3];
    for i in 0..3 {
        let entry = part(r, 12 * i, 12);
        had[i] = swap_entry(entry, wire::u32_at(entry, 8), bundle, curves);
    }
    let told = [
        wire::u32_at(r, 176),
        wire::u32_at(r, 180),
        wire::u32_at(r, 184),
    ];
    let agree = has_tick(part(r, 36, 140), told, part(r, 188, 84), bundle, curves);
    for i in (0..3).rev() {
        swap_entry(part(r, 12 * i, 12), had[i], bundle, curves);
    }
    agree
}

// Puts a word in the place of the one that was there, by buffer, 0 the bundle and 1 the curves, and byte. Zeros name no entry: the bundle starts with its header.
fn swap_entry(entry: &[u8], word: u32, bundle: &mut [u8], curves: &mut [u8]) -> u32 {
    let place = wire::u32_at(entry, 4) as usize;
    if wire::u32_at(entry, 0) == 1 {
        swap_word(curves, place, word)
    } else if place == 0 {
        0
    } else {
        swap_word(bundle, place, word)
    }
}

fn swap_word(buffer: &mut [u8], place: usize, word: u32) -> u32 {
    let had = wire::u32_at(buffer, place);
    wire::put_u32(buffer, place, word);
    had
}

// ---- the files, each with the number of words in its records

fn main(rt: HostRuntime) -> Result<(), AllocError> {
    let mut bundle = replay::read_file(&rt, "bundle.bin", BUNDLE_LENGTH);
    let bytes = bundle.len();
    bundle.resize(BUNDLE_LENGTH, 0)?;
    let mut curves = curves_room();
    let answer = curves::build(&bundle, &mut curves);
    let built = answers::report(answer).number;
    let _ = println!(rt; "bundle {bytes} bytes, build {built}");
    replay_file(&rt, "ticks.bin", 57, |r| sound(r, &bundle, &curves));
    replay_file(&rt, "ticks_damaged.bin", 68, |r| {
        damaged(r, &mut bundle, &mut curves)
    });
    Ok(())
}

const BUNDLE_LENGTH: usize = 6127736;

fn curves_room() -> [u8; 254076] {
    [0; 254076]
}
