// What is said of an answer: its words, and the line of a script.
ghost use Rattle.std.specs.Prelude.{◌≡◌, ◌≤◌, length};
ghost use Rattle.io.specs.Counts.{IsPrefixLen};
ghost use Rattle.text.specs.Text.{grown, grown_end};
ghost use Rattle.bounce_lines.specs.Lines.{placed_of, words_of, counts_of, refusal_of, refused_line_of, script_line_of};

use answers::{Answer, Buffer, Refusal};
use text::{push, push_number};

// The text with words and a place after it.
#[tactic(auto, using(text::proofs::Laws::end_then, text::proofs::Laws::put_then), unfolding(crate::specs::Lines::placed_of))]
fn push_placed(out: &mut [u8], at: usize, words: &[u8], place: u32) -> usize
    requires { at ≤ length out.old }
    ensures prefix_len { IsPrefixLen result out.new }
    ensures value { result ≡ grown_end out.old at (placed_of words.now place) }
    ensures out_after { out.new ≡ grown out.old at (placed_of words.now place) }
{
    let n = push(out, at, words);
    let n = push(out, n, b", at byte ");
    push_number(out, n, place as u64)
}

// The text with an answer's words after it: a sentence for each of the eleven refusals.
#[tactic(auto, unfolding(crate::specs::Lines::words_of))]
fn push_words(out: &mut [u8], at: usize, answer: Answer) -> usize
    requires { at ≤ length out.old }
    ensures prefix_len { IsPrefixLen result out.new }
    ensures value { result ≡ grown_end out.old at (words_of answer) }
    ensures out_after { out.new ≡ grown out.old at (words_of answer) }
{
    match answer {
        Ok(()) => push(out, at, b"nothing is refused"),
        Err(Refusal::BundleLength) => push(out, at, b"the bundle is not 6,127,736 bytes long"),
        Err(Refusal::Header { place }) => push_placed(
            out,
            at,
            b"the bundle's header differs",
            place,
        ),
        Err(Refusal::Entry { buffer, place }) => match buffer {
            Buffer::Bundle => push_placed(out, at, b"an entry of the bundle is unusable", place),
            Buffer::Curves => push_placed(out, at, b"an entry of the curves is unusable", place),
        },
        Err(Refusal::CurvesLength) => push(out, at, b"the curve buffer is not 254,076 bytes long"),
        Err(Refusal::InputNotFinite) => push(
            out,
            at,
            b"the input sum or the source energy is not finite",
        ),
        Err(Refusal::Domain) => push(out, at, b"a number would be outside the finite domain"),
        Err(Refusal::Script) => push(
            out,
            at,
            b"the script's length is not 8 + 12 x count, or its offset, its count, an event's kind or its zero bytes are wrong",
        ),
        Err(Refusal::OutputLength) => push(
            out,
            at,
            b"the output is shorter than 16 bytes a sample event",
        ),
        Err(Refusal::Argument) => push(out, at, b"the state block is invalid"),
        Err(Refusal::Sources) => push(
            out,
            at,
            b"a voice, or a number lent beside the voices, is invalid",
        ),
        Err(Refusal::Decays) => push(out, at, b"the decays are not six numbers from 0 to 1"),
    }
}

// The text with the events done and the samples written after it.
#[tactic(auto, using(text::proofs::Laws::end_then, text::proofs::Laws::put_then), unfolding(crate::specs::Lines::counts_of))]
fn push_counts(out: &mut [u8], at: usize, events: usize, samples: usize) -> usize
    requires { at ≤ length out.old }
    ensures prefix_len { IsPrefixLen result out.new }
    ensures value { result ≡ grown_end out.old at (counts_of events samples) }
    ensures out_after { out.new ≡ grown out.old at (counts_of events samples) }
{
    let n = push_number(out, at, events as u64);
    let n = push(out, n, b" events, ");
    let n = push_number(out, n, samples as u64);
    push(out, n, b" samples")
}

// The text with a refusal's number and words after it.
#[tactic(auto, using(text::proofs::Laws::end_then, text::proofs::Laws::put_then), unfolding(crate::specs::Lines::refusal_of))]
fn push_refusal(out: &mut [u8], at: usize, answer: Answer) -> usize
    requires { at ≤ length out.old }
    ensures prefix_len { IsPrefixLen result out.new }
    ensures value { result ≡ grown_end out.old at (refusal_of answer) }
    ensures out_after { out.new ≡ grown out.old at (refusal_of answer) }
{
    let n = push_number(out, at, answers::report(answer).number as u64);
    let n = push(out, n, b", ");
    push_words(out, n, answer)
}

// The line of a file that is refused before the first script, from the buffer's start. Answers where it ends.
#[tactic(auto, using(text::proofs::Laws::end_then, text::proofs::Laws::put_then), unfolding(crate::specs::Lines::refused_line_of))]
pub fn refused_line(out: &mut [u8], name: &[u8], answer: Answer) -> usize
    ensures prefix_len { IsPrefixLen result out.new }
    ensures value { result ≡ grown_end out.old 0 (refused_line_of name.now answer) }
    ensures out_after { out.new ≡ grown out.old 0 (refused_line_of name.now answer) }
{
    let n = push(out, 0, name);
    let n = push(out, n, b": refused: ");
    let n = push_refusal(out, n, answer);
    push(out, n, b"\n")
}

// The line of a script, from the buffer's start. Answers where it ends.
#[tactic(auto, using(text::proofs::Laws::end_then, text::proofs::Laws::put_then), unfolding(crate::specs::Lines::script_line_of))]
pub fn script_line(
    out: &mut [u8],
    name: &[u8],
    answer: Answer,
    events: usize,
    samples: usize,
) -> usize
    ensures prefix_len { IsPrefixLen result out.new }
    ensures value { result ≡ grown_end out.old 0 (script_line_of name.now answer events samples) }
    ensures out_after { out.new ≡ grown out.old 0 (script_line_of name.now answer events samples) }
{
    let n = push(out, 0, name);
    match answer {
        Ok(()) => {
            let n = push(out, n, b": done, ");
            let n = push_counts(out, n, events, samples);
            push(out, n, b"\n")
        }
        Err(_) => {
            let n = push(out, n, b": stopped after ");
            let n = push_counts(out, n, events, samples);
            let n = push(out, n, b": ");
            let n = push_refusal(out, n, answer);
            push(out, n, b"\n")
        }
    }
}
