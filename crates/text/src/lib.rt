// Text that grows in a lent buffer: what stands before a place is the text so far, what passes the end is left out, and all else stays.
#![tactic(auto)]

ghost use Rattle.std.specs.Prelude.{◌≡◌};
ghost use Rattle.io.specs.Counts.{IsPrefixLen};
ghost use Rattle.text.specs.Text.{decimal_of, grown, grown_end};

// The text with more bytes after it. Answers where it ends. After a place past the buffer's end there is no room for any.
pub fn push(out: &mut [u8], at: usize, text: &[u8]) -> usize
    ensures prefix_len { IsPrefixLen result out.new }
    ensures value { result ≡ grown_end out.old at text.now }
    ensures out_after { out.new ≡ grown out.old at text.now }
{
    if at > out.len() {
        return out.len();
    }
    let count = text.len().min(out.len() - at);
    out[at..at + count].copy_from_slice(&text[..count]);
    at + count
}

// The text with a number's digits after it.
#[tactic(auto, using(crate::proofs::Laws::decimal_is))]
pub fn push_number(out: &mut [u8], at: usize, number: u64) -> usize
    ensures prefix_len { IsPrefixLen result out.new }
    ensures value { result ≡ grown_end out.old at (decimal_of number) }
    ensures out_after { out.new ≡ grown out.old at (decimal_of number) }
{
    let mut digits = [0u8; 20];
    let k = io::decimal(number, &mut digits);
    push(out, at, &digits[..k])
}
