// The direct calls of the filter's parts that C has no call for, and the total transfers. A topology need not be one that nibbles give.
ghost use Rattle.std.specs.Prelude.{◌≡◌};
ghost use Rattle.response.specs.Levels.{filter_mode_quiescent_level_of};
ghost use Rattle.sample.specs.Sample.{summer_slot_of, summer_transfer_of};
ghost use Rattle.transfers.specs.Transfers.{mixer_slot_of, mixer_transfer_of, volume_slot_of, volume_transfer_of};
ghost use Rattle.direct.specs.Calls as C;
ghost use Rattle.probe.specs.Replies.{reply_of};
ghost use Rattle.probe.specs.Calls.{no_advanced, no_topology, no_bins, point_reply_of, step_reply_of, route_reply_of, bin_reply_of};

use crate::replies::{self, Reply, Told};
use answers::Refusal;
use curves::CurvePoint;
use integrator::{Advanced, Coefficients, FilterOutputs, IntegratorState};
use mixing::MixingTopology;
use response::TablePosition;

// A point of a curve.
#[repr(C)]
#[derive(Clone, Copy)]
pub struct PointReply {
    pub told: Told,
    pub point: CurvePoint,
}

// The other three refuse with a number alone.
#[repr(C)]
#[derive(Clone, Copy)]
pub struct StepReply {
    pub number: u32,
    pub advanced: Advanced,
}

#[repr(C)]
#[derive(Clone, Copy)]
pub struct RouteReply {
    pub number: u32,
    pub topology: MixingTopology,
}

#[repr(C)]
#[derive(Clone, Copy)]
pub struct BinReply {
    pub number: u32,
    pub position: TablePosition,
}

// ---- zeros, which stand beside a refusal

fn no_advanced() -> Advanced
    ensures { result ≡ no_advanced }
{
    Advanced {
        outputs: FilterOutputs {
            high_pass: 0.0,
            band_pass: 0.0,
            low_pass: 0.0,
        },
        state: crate::no_state(),
    }
}

fn no_topology() -> MixingTopology
    ensures { result ≡ no_topology }
{
    MixingTopology {
        filter_membership: [false; 4],
        bypass_membership: [false; 4],
        filter_input_count: 0,
        bypass_input_count: 0,
        filter_output_count: 0,
        mixer_input_count: 0,
        filter_input_reciprocal: 0.0,
        summer_input_reciprocal: 0.0,
        mixer_input_reciprocal: 0.0,
        filter_internal_mask: 0,
        bypass_internal_mask: 0,
    }
}

fn no_bins() -> TablePosition
    ensures { result ≡ no_bins }
{
    TablePosition {
        lower: 0,
        upper: 0,
        fraction: 0.0,
    }
}

// ---- replies

impl From<Result<CurvePoint, Refusal>> for PointReply {
    ghost from_gives = { λ handed reply. reply ≡ point_reply_of handed };

    fn from(handed: Result<CurvePoint, Refusal>) -> Self {
        let (told, point) = replies::parted(handed, curves::no_point());
        Self { told, point }
    }
}

impl From<Result<Advanced, Refusal>> for StepReply {
    ghost from_gives = { λ handed reply. reply ≡ step_reply_of handed };

    fn from(handed: Result<Advanced, Refusal>) -> Self {
        let (told, advanced) = replies::parted(handed, no_advanced());
        Self {
            number: told.number,
            advanced,
        }
    }
}

impl From<Result<MixingTopology, Refusal>> for RouteReply {
    ghost from_gives = { λ handed reply. reply ≡ route_reply_of handed };

    fn from(handed: Result<MixingTopology, Refusal>) -> Self {
        let (told, topology) = replies::parted(handed, no_topology());
        Self {
            number: told.number,
            topology,
        }
    }
}

impl From<Result<TablePosition, Refusal>> for BinReply {
    ghost from_gives = { λ handed reply. reply ≡ bin_reply_of handed };

    fn from(handed: Result<TablePosition, Refusal>) -> Self {
        let (told, position) = replies::parted(handed, no_bins());
        Self {
            number: told.number,
            position,
        }
    }
}

// ---- summer, mixer and volume

#[unsafe(no_mangle)]
pub extern "C" fn probe_direct_summer(
    bundle: &[u8],
    curves: &[u8],
    topology: MixingTopology,
    sum: f32,
) -> PointReply
    ensures { result ≡ point_reply_of (C.summer_transfer_call_of bundle.now curves.now topology sum) }
{
    direct::summer_transfer(bundle, curves, topology, sum).into()
}

#[unsafe(no_mangle)]
pub extern "C" fn probe_direct_mixer(
    curves: &[u8],
    topology: MixingTopology,
    sum: f32,
) -> PointReply
    ensures { result ≡ point_reply_of (C.mixer_transfer_call_of curves.now topology sum) }
{
    direct::mixer_transfer(curves, topology, sum).into()
}

// The same for any float, and with no look at the buffers.
#[unsafe(no_mangle)]
pub extern "C" fn probe_any_summer(
    bundle: &[u8],
    curves: &[u8],
    topology: MixingTopology,
    sum: f32,
) -> f32
    ensures { result ≡ summer_transfer_of bundle.now curves.now (summer_slot_of topology) topology sum }
{
    sample::summer_transfer(bundle, curves, sample::summer_slot(topology), topology, sum)
}

#[unsafe(no_mangle)]
pub extern "C" fn probe_any_mixer(curves: &[u8], topology: MixingTopology, sum: f32) -> f32
    ensures { result ≡ mixer_transfer_of curves.now (mixer_slot_of topology.mixer_input_count) topology sum }
{
    let slot = transfers::mixer_slot(topology.mixer_input_count);
    transfers::mixer_transfer(curves, slot, topology, sum)
}

#[unsafe(no_mangle)]
pub extern "C" fn probe_any_volume(curves: &[u8], volume: u8, value: f32) -> f32
    ensures { result ≡ volume_transfer_of curves.now (volume_slot_of volume) value }
{
    transfers::volume_transfer(curves, transfers::volume_slot(volume), value)
}

// ---- integrator and topology

#[unsafe(no_mangle)]
pub extern "C" fn probe_direct_saturate(value: f32, drive: f32) -> Reply
    ensures { result ≡ reply_of (C.saturate_call_of value drive) }
{
    direct::saturate(value, drive).into()
}

#[unsafe(no_mangle)]
pub extern "C" fn probe_direct_advance(
    state: IntegratorState,
    driven_input: f32,
    k: Coefficients,
) -> StepReply
    ensures { result ≡ step_reply_of (C.advance_call_of state driven_input k) }
{
    direct::advance(state, driven_input, k).into()
}

#[unsafe(no_mangle)]
pub extern "C" fn probe_direct_topology(routing: u8, mode: u8) -> RouteReply
    ensures { result ≡ route_reply_of (C.mixing_topology_call_of routing mode) }
{
    direct::mixing_topology(routing, mode).into()
}

// ---- response

#[unsafe(no_mangle)]
pub extern "C" fn probe_direct_quiescent_level() -> f32
    ensures { result ≡ filter_mode_quiescent_level_of }
{
    direct::filter_mode_quiescent_level()
}

#[unsafe(no_mangle)]
pub extern "C" fn probe_direct_voltage(voltage: f32) -> Reply
    ensures { result ≡ reply_of (C.normalise_voltage_call_of voltage) }
{
    direct::normalise_voltage(voltage).into()
}

#[unsafe(no_mangle)]
pub extern "C" fn probe_direct_position(input: f32, band: f32, low: f32) -> BinReply
    ensures { result ≡ bin_reply_of (C.operating_position_call_of input band low) }
{
    direct::operating_position(input, band, low).into()
}

#[unsafe(no_mangle)]
pub extern "C" fn probe_direct_conductance(volume: u8) -> Reply
    ensures { result ≡ reply_of (C.volume_dac_conductance_code_call_of volume) }
{
    direct::volume_dac_conductance_code(volume).into()
}

#[unsafe(no_mangle)]
pub extern "C" fn probe_direct_common_mode(mode: u8, cutoff: u16) -> Reply
    ensures { result ≡ reply_of (C.filter_output_common_mode_call_of mode cutoff) }
{
    direct::filter_output_common_mode(mode, cutoff).into()
}

#[unsafe(no_mangle)]
pub extern "C" fn probe_direct_mode_gain(
    bundle: &[u8],
    mode: u8,
    resonance: u8,
    cutoff: u16,
) -> Reply
    ensures { result ≡ reply_of (C.filter_mode_output_gain_call_of bundle.now mode resonance cutoff) }
{
    direct::filter_mode_output_gain(bundle, mode, resonance, cutoff).into()
}
