// The routing of sources into the filter's summer and past it to the mixer.
#![tactic(auto)]

ghost use Rattle.std.specs.Prelude.{◌≡◌, ◌+◌, ◌*◌, ◌≤◌};
ghost use Rattle.mixing.specs.Topology.{one as one_of, filter_count_of, reciprocal_of, topology_of};
ghost use Rattle.mixing.specs.Routing.{filter_flags_of};
ghost use Rattle.mixing.specs.Line.{digit as digit_of, flag as flag_of, line_of};

// Flags for voices 1 to 3 and the external input; what is worked out from them, so that a sample need not.
#[repr(C)]
#[derive(Clone, Copy, Debug, PartialEq)]
pub struct MixingTopology {
    pub filter_membership: [bool; 4],
    pub bypass_membership: [bool; 4],
    pub filter_input_count: usize,
    pub bypass_input_count: usize,
    pub filter_output_count: usize,
    pub mixer_input_count: usize,
    pub filter_input_reciprocal: f32,
    pub summer_input_reciprocal: f32,
    pub mixer_input_reciprocal: f32,
    pub filter_internal_mask: u8,
    pub bypass_internal_mask: u8,
}

// Through the filter, the data sheet's 1.
const I: bool = true;

// Past it, the sheet's 0.
const O: bool = false;

// The inputs that a routing sends through the filter, to be laid beside the data sheet's register 23, RES/FILT. A nibble is as the
// sheet prints it, bit 3 on the left: FILTEX, FILT 3, FILT 2, FILT 1. Its row has the same bits the other way round, from bit 0 on:
// voice 1, voice 2, voice 3, external input. Of a larger byte the low nibble counts.
#[tactic(auto, using(crate::proofs::Routing::last_row), unfolding(crate::specs::Routing::filter_flags_of))]
fn filter_flags(routing: u8) -> [bool; 4]
    ensures { result ≡ filter_flags_of routing }
{
    match routing % 16 {
        0b0000 => [O, O, O, O],
        0b0001 => [I, O, O, O],
        0b0010 => [O, I, O, O],
        0b0011 => [I, I, O, O],
        0b0100 => [O, O, I, O],
        0b0101 => [I, O, I, O],
        0b0110 => [O, I, I, O],
        0b0111 => [I, I, I, O],
        0b1000 => [O, O, O, I],
        0b1001 => [I, O, O, I],
        0b1010 => [O, I, O, I],
        0b1011 => [I, I, O, I],
        0b1100 => [O, O, I, I],
        0b1101 => [I, O, I, I],
        0b1110 => [O, I, I, I],
        0b1111 | _ => [I, I, I, I],
    }
}

fn count(a: bool, b: bool, c: bool, d: bool) -> usize
    ensures { (result ≡ one_of a + one_of b + one_of c + one_of d) × (result ≤ 4) }
{
    usize::from(a) + usize::from(b) + usize::from(c) + usize::from(d)
}

// How many inputs a routing sends through the filter, without the rest of its topology.
pub fn filter_count(routing: u8) -> usize
    ensures { result ≡ filter_count_of routing }
{
    let [a, b, c, d] = filter_flags(routing);
    count(a, b, c, d)
}

fn mask(a: bool, b: bool, c: bool) -> u8
    ensures { result ≡ one_of a + 2 * one_of b + 4 * one_of c }
{
    u8::from(a) + 2 * u8::from(b) + 4 * u8::from(c)
}

// 1.0 / count, and 0.0 for no input.
#[tactic(auto, using(floats::proofs::Laws::small_exact), unfolding(crate::specs::Topology::reciprocal_of))]
fn reciprocal(count: usize) -> f32
    requires { count ≤ 16 }
    ensures { result ≡ reciprocal_of count }
{
    if count == 0 {
        0.0
    } else {
        1.0 / floats::of_usize(count)
    }
}

impl MixingTopology {
    // The topology of a routing and a mode nibble. Voice 3 is turned off on its way past the filter alone. Four inputs past the
    // filter and three outputs make seven at the mixer.
    pub fn update(routing: u8, mode: u8) -> Self
        ensures { result ≡ topology_of routing mode }
    {
        let [f0, f1, f2, f3] = filter_flags(routing);
        let voice_three_off = response::bit(mode, 3);
        let b2 = !f2 & !voice_three_off;
        let filter_membership = [f0, f1, f2, f3];
        let bypass_membership = [!f0, !f1, b2, !f3];
        let filter_input_count = count(f0, f1, f2, f3);
        let bypass_input_count = count(!f0, !f1, b2, !f3);
        let filter_output_count = count(
            response::bit(mode, 0),
            response::bit(mode, 1),
            response::bit(mode, 2),
            false,
        );
        let mixer_input_count = bypass_input_count + filter_output_count;
        MixingTopology {
            filter_membership,
            bypass_membership,
            filter_input_count,
            bypass_input_count,
            filter_output_count,
            mixer_input_count,
            filter_input_reciprocal: reciprocal(filter_input_count),
            summer_input_reciprocal: reciprocal(2 + filter_input_count),
            mixer_input_reciprocal: reciprocal(mixer_input_count),
            filter_internal_mask: mask(f0, f1, f2),
            bypass_internal_mask: mask(!f0, !f1, b2),
        }
    }
}

// ---- the line of text

fn digit(n: usize) -> u8
    requires { n ≤ 9 }
    ensures { result ≡ digit_of n }
{
    b'0' + n as u8
}

fn flag(b: bool) -> u8
    ensures { result ≡ flag_of b }
{
    digit(usize::from(b))
}

// The topology of a routing and a mode nibble as a line of text.
pub fn line(routing: u8, mode: u8) -> [u8; 39]
    ensures { result ≡ line_of routing mode }
{
    let t = MixingTopology::update(routing, mode);
    let f = t.filter_membership;
    let b = t.bypass_membership;
    let mut line = *b"filter .... bypass .... counts . . . .\n";
    line[7] = flag(f[0]);
    line[8] = flag(f[1]);
    line[9] = flag(f[2]);
    line[10] = flag(f[3]);
    line[19] = flag(b[0]);
    line[20] = flag(b[1]);
    line[21] = flag(b[2]);
    line[22] = flag(b[3]);
    line[31] = digit(t.filter_input_count);
    line[33] = digit(t.bypass_input_count);
    line[35] = digit(t.filter_output_count);
    line[37] = digit(t.mixer_input_count);
    line
}
