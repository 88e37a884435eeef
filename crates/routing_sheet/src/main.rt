// Prints the routing sheet: a line for every routing and mode nibble, and a last line with the totals of their counts.
#![tactic(auto)]

ghost use Rattle.std.specs.Prelude.{◌≡◌, ◌≤◌, length};
ghost use Rattle.io.specs.Counts.{IsPrefixLen};
ghost use Rattle.text.specs.Text.{grown, grown_end};
ghost use Rattle.routing_sheet.specs.Sheet.{all_pairs, spaced_of, pair_line_of, total_line_of, sheet_of};

use mixing::MixingTopology;
use std::io::Print;
use text::{push, push_number};

fn main(rt: HostRuntime) {
    let _ = rt.write_all(&sheet());
}

// The sheet, which has just this length.
fn sheet() -> [u8; 11222]
    ensures { result ≡ sheet_of all_pairs }
{
    let mut text = [0u8; 11222];
    push_sheet(&mut text);
    text
}

// The sheet from the buffer's start: routing outer, mode inner. What reaches the mixer goes past the filter or comes out of it, so
// its total is the sum of those two. Answers where the text ends, as the functions below do.
fn push_sheet(out: &mut [u8]) -> usize
    ensures prefix_len { IsPrefixLen result out.new }
    ensures value { result ≡ grown_end out.old 0 (sheet_of all_pairs) }
    ensures out_after { out.new ≡ grown out.old 0 (sheet_of all_pairs) }
{
    let mut end = 0;
    let mut filter = 0;
    let mut bypass = 0;
    let mut output = 0;
    for k in 0..256u32 {
        let routing = (k / 16) as u8;
        let mode = (k % 16) as u8;
        end = push_pair_line(out, end, routing, mode);
        let topology = MixingTopology::update(routing, mode);
        filter += topology.filter_input_count;
        bypass += topology.bypass_input_count;
        output += topology.filter_output_count;
    }
    let mixer = bypass + output;
    push_total_line(out, end, filter, bypass, output, mixer)
}

// The text with a pair's line after it.
#[tactic(auto, using(text::proofs::Laws::end_then, text::proofs::Laws::put_then), unfolding(crate::specs::Sheet::pair_line_of))]
fn push_pair_line(out: &mut [u8], at: usize, routing: u8, mode: u8) -> usize
    requires { at ≤ length out.old }
    ensures prefix_len { IsPrefixLen result out.new }
    ensures value { result ≡ grown_end out.old at (pair_line_of routing mode) }
    ensures out_after { out.new ≡ grown out.old at (pair_line_of routing mode) }
{
    let n = push_spaced(out, at, routing as u64);
    let n = push_spaced(out, n, mode as u64);
    push(out, n, &mixing::line(routing, mode))
}

// The text with the line of the totals after it.
#[tactic(auto, using(text::proofs::Laws::end_then, text::proofs::Laws::put_then), unfolding(crate::specs::Sheet::total_line_of))]
fn push_total_line(
    out: &mut [u8],
    at: usize,
    filter: usize,
    bypass: usize,
    output: usize,
    mixer: usize,
) -> usize
    requires { at ≤ length out.old }
    ensures prefix_len { IsPrefixLen result out.new }
    ensures value { result ≡ grown_end out.old at (total_line_of filter bypass output mixer) }
    ensures out_after { out.new ≡ grown out.old at (total_line_of filter bypass output mixer) }
{
    let n = push(out, at, b"total ");
    let n = push_spaced(out, n, filter as u64);
    let n = push_spaced(out, n, bypass as u64);
    let n = push_spaced(out, n, output as u64);
    let n = push_number(out, n, mixer as u64);
    push(out, n, b"\n")
}

// The text with a number and a space after it.
#[tactic(auto, using(text::proofs::Laws::end_then, text::proofs::Laws::put_then), unfolding(crate::specs::Sheet::spaced_of))]
fn push_spaced(out: &mut [u8], at: usize, number: u64) -> usize
    requires { at ≤ length out.old }
    ensures prefix_len { IsPrefixLen result out.new }
    ensures value { result ≡ grown_end out.old at (spaced_of number) }
    ensures out_after { out.new ≡ grown out.old at (spaced_of number) }
{
    let n = push_number(out, at, number);
    push(out, n, b" ")
}
