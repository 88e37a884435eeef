// The mixer and the volume DAC: each is a curve of its own load, read at what it is fed. Its slot in the buffer comes from the caller.
// A transfer is total, and the judging function beside it refuses the entries that it reads.
#![tactic(auto)]

ghost use Rattle.std.specs.Prelude.{◌≡◌};
ghost use Rattle.transfers.specs.Transfers as T;

use answers::{Answer, Refusal};
use curves::CurvePoint;
use mixing::MixingTopology;

// ---- mixer_transfer

// Where the mixer's curve for a count of inputs stands in a buffer of all 31 curves; past them for more than seven, which have none.
pub fn mixer_slot(count: usize) -> u8
    ensures { result ≡ T.mixer_slot_of count }
{
    if count <= 7 { 7 + (count as u8) } else { 31 }
}

// The level of one input; where there is none, the amplifier is at rest.
fn mixer_average(topology: MixingTopology, sum: f32) -> f32
    ensures { result ≡ T.mixer_average_of topology sum }
{
    if topology.mixer_input_count == 0 {
        return response::filter_mode_quiescent_level();
    }
    sum * topology.mixer_input_reciprocal
}

// The mixer's output for the sum of its inputs, and where on its curve that stands; zeros, and no curve is read, for more than seven inputs.
pub fn mixer_point(curves: &[u8], slot: u8, topology: MixingTopology, input_sum: f32) -> CurvePoint
    ensures { result ≡ T.mixer_point_of curves.now slot topology input_sum }
{
    if topology.mixer_input_count <= 7 {
        return curves::curve_point(curves, slot, mixer_average(topology, input_sum));
    }
    curves::no_point()
}

// The output alone.
pub fn mixer_transfer(curves: &[u8], slot: u8, topology: MixingTopology, input_sum: f32) -> f32
    ensures { result ≡ T.mixer_transfer_of curves.now slot topology input_sum }
{
    mixer_point(curves, slot, topology, input_sum).value
}

// Its count, and the entries that it reads. Refuses 10, 3.
pub fn judge_mixer(curves: &[u8], slot: u8, topology: MixingTopology, input_sum: f32) -> Answer
    ensures { result ≡ T.judge_mixer_of curves.now slot topology input_sum }
{
    if 7 < topology.mixer_input_count {
        return Err(Refusal::Argument);
    }
    curves::judge_sample_curve(curves, slot, mixer_average(topology, input_sum))
}

// The output, each entry judged as it is read.
pub fn read_mixer(
    curves: &[u8],
    slot: u8,
    topology: MixingTopology,
    input_sum: f32,
) -> Result<f32, Refusal>
    ensures { result ≡ T.read_mixer_of curves.now slot topology input_sum }
{
    if topology.mixer_input_count > 7 {
        return Err(Refusal::Argument);
    }
    curves::read_curve(curves, slot, mixer_average(topology, input_sum))
}

// ---- volume_transfer

// Where the curve of a volume stands in a buffer of all 31 curves; there is none above fifteen.
pub fn volume_slot(volume: u8) -> u8
    ensures { result ≡ T.volume_slot_of volume }
{
    if volume < 15 { 15 + volume } else { 30 }
}

// The volume DAC's output for the mixer's, and where on its curve that stands.
pub fn volume_point(curves: &[u8], slot: u8, value: f32) -> CurvePoint
    ensures { result ≡ T.volume_point_of curves.now slot value }
{
    curves::curve_point(curves, slot, value)
}

// The output alone.
pub fn volume_transfer(curves: &[u8], slot: u8, value: f32) -> f32
    ensures { result ≡ T.volume_transfer_of curves.now slot value }
{
    volume_point(curves, slot, value).value
}

// The entries that it reads.
pub fn judge_volume(curves: &[u8], slot: u8, value: f32) -> Answer
    ensures { result ≡ T.judge_volume_of curves.now slot value }
{
    curves::judge_sample_curve(curves, slot, value)
}

// The output, each entry judged as it is read.
pub fn read_volume(curves: &[u8], slot: u8, value: f32) -> Result<f32, Refusal>
    ensures { result ≡ T.read_volume_of curves.now slot value }
{
    curves::read_curve(curves, slot, value)
}
