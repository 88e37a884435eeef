// bounce BUNDLE DECAYS STATE OUTPUT SCRIPT..: runs each script from the state that the last one left, the first from the file STATE, or from the starting value where
// that is missing. The samples go to OUTPUT, script by script, the end state to STATE, and a line a script to standard output, with a status in the last one.
#![tactic(auto)]

mod files;
mod names;

use answers::{Answer, Refusal, Reported};
use control::State;
use std::fs::File;
use std::io::{Print, Write};

// Why a bounce ends before its last script is done. Who makes one has said so.
#[derive(Clone, Copy, PartialEq, Eq)]
pub(crate) enum Stop {
    // The arguments are wrong, or a file cannot be read.
    Unread,
    // A file cannot be written.
    Unwritten,
    // A refusal, by its number.
    Refused(u32),
}

impl Stop {
    fn status(self) -> u32 {
        match self {
            Self::Unread => 101,
            Self::Unwritten => 102,
            Self::Refused(number) => number,
        }
    }
}

// What a script is run on.
#[derive(Clone, Copy)]
struct Lent<'a> {
    bundle: &'a [u8],
    curves: &'a [u8],
    decays: &'a [u8],
}

fn main(rt: HostRuntime) {
    let status = match bounce(&rt) {
        Ok(()) => 0,
        Err(stop) => stop.status(),
    };
    let _ = println!(rt; "status {status}");
}

// Judges the bundle, the state and then the decays, before anything is written. The state that the scripts leave is saved, but not where samples may be missing
// from the output.
fn bounce(rt: &HostRuntime) -> Result<(), Stop> {
    if names::arg_count(rt) < 6 {
        let _ = rt.print("usage: bounce BUNDLE DECAYS STATE OUTPUT SCRIPT..\n");
        return Err(Stop::Unread);
    }
    names::judge_apart(rt)?;

    let bundle_name = names::name(rt, 1, b"BUNDLE")?;
    let bundle = files::load(rt, &bundle_name, BUNDLE_MOST)?;
    judge(rt, &bundle_name, bundle::open(&bundle))?;
    let mut curves = curves_room();
    judge(rt, &bundle_name, curves::build(&bundle, &mut curves))?;

    let decays_name = names::name(rt, 2, b"DECAYS")?;
    let decays = files::load(rt, &decays_name, DECAYS_MOST)?;
    let state_name = names::name(rt, 3, b"STATE")?;
    let mut block = load_state(rt, &state_name)?;
    judge(rt, &decays_name, transients::judge_decays(&decays))?;

    let lent = Lent {
        bundle: &bundle,
        curves: &curves,
        decays: &decays,
    };
    let played = render(rt, lent, &mut block);
    if !matches!(played, Err(Stop::Unwritten)) {
        files::save(rt, &state_name, &block)?;
    }
    played
}

// Stops where a file is refused before the first script.
fn judge(rt: &HostRuntime, name: &[u8], answer: Answer) -> Result<(), Stop> {
    answer.map_err(|refusal| refuse(rt, name, refusal))
}

// Prints the line of a file that is refused.
fn refuse(rt: &HostRuntime, name: &[u8], refusal: Refusal) -> Stop {
    let mut line = line_room();
    let end = bounce_lines::refused_line(&mut line, name, Err(refusal));
    let _ = rt.write_all(&line[..end]);
    Stop::Refused(Reported::from(refusal).number)
}

// Loads the state, a valid one. One of 24 bytes has no charges yet, and is widened.
fn load_state(rt: &HostRuntime, name: &[u8]) -> Result<Vec<u8>, Stop> {
    let mut block = files::load_state(rt, name)?;
    if block.len() == State::NARROW_BYTES {
        block = widen(rt, name, &block)?;
    }
    if State::decode(&block).is_none() {
        return Err(refuse(rt, name, Refusal::Argument));
    }
    Ok(block)
}

// Widens a block that has no charges.
fn widen(rt: &HostRuntime, name: &[u8], narrow: &[u8]) -> Result<Vec<u8>, Stop> {
    let mut block = [0; 68];
    if !State::widen(narrow, &mut block) {
        return Err(refuse(rt, name, Refusal::Argument));
    }
    files::copied(rt, name, &block)
}

// Empties the output, or makes it, and plays the scripts into it.
fn render(rt: &HostRuntime, lent: Lent<'_>, block: &mut [u8]) -> Result<(), Stop> {
    let name = names::name(rt, 4, b"OUTPUT").map_err(|_| Stop::Unwritten)?;
    let mut output = files::create(rt, &name).map_err(|why| files::unwritten(rt, &name, why))?;
    let played = play(rt, lent, block, &mut output);
    files::settle(&output).map_err(|why| files::unwritten(rt, &name, why))?;
    played
}

// The scripts in order, up to the first that is not done.
fn play(rt: &HostRuntime, lent: Lent<'_>, block: &mut [u8], output: &mut File) -> Result<(), Stop> {
    for i in 5..names::arg_count(rt) {
        let name = names::name(rt, i, b"SCRIPT")?;
        let script = files::load(rt, &name, SCRIPT_MOST)?;
        play_script(rt, lent, block, &name, &script, output)?;
    }
    Ok(())
}

// Runs a script, writes its samples and prints its line.
fn play_script(
    rt: &HostRuntime,
    lent: Lent<'_>,
    block: &mut [u8],
    name: &[u8],
    script: &[u8],
    output: &mut File,
) -> Result<(), Stop> {
    let mut samples = sample_room();
    let mut line = line_room();
    let stepped = bounce_step::step(
        lent.bundle,
        lent.curves,
        block,
        lent.decays,
        name,
        script,
        &mut samples,
        &mut line,
    );
    let size = stepped.samples;
    let end = stepped.line;
    output
        .write_all(&samples[..size])
        .map_err(|why| files::unwritten(rt, b"OUTPUT", why))?;
    let _ = rt.write_all(&line[..end]);
    match stepped.number {
        0 => Ok(()),
        number => Err(Stop::Refused(number)),
    }
}

// ---- the most bytes that are read of a file: one more than the longest that is right has, so that a longer one is refused by its length

const BUNDLE_MOST: usize = 6127737;

const DECAYS_MOST: usize = 25;

// 8 bytes, and 12 for each of 65,536 events.
const SCRIPT_MOST: usize = 786441;

// ---- buffers that the library fills: it allocates nothing, so each is lent

fn curves_room() -> [u8; 254076] {
    [0; 254076]
}

// 16 bytes for each of 65,536 samples.
fn sample_room() -> [u8; 1048576] {
    [0; 1048576]
}

// A path has at most 4,096 bytes, and what is said beside it less than 512.
pub(crate) fn line_room() -> [u8; 4608] {
    [0; 4608]
}
