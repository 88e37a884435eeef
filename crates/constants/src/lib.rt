// The filter's numbers, from constants.rs, with the Rust's names, digits and order. The functions at the end tie each to its bits in specs/.
#![tactic(auto)]

ghost use Rattle.std.specs.Prelude.{◌≡◌};
ghost use Rattle.constants.specs.Values as K;
ghost use Rattle.constants.specs.Drives.{input_drives_of, feedback_drives_of};
ghost use Rattle.constants.specs.Tables.{row_entry, single_mode_cutoff_gain_of, single_mode_resonance_gain_of, symmetric_loading_gain_of};

// The cutoff DAC's ladder: the ratio of its 2R to its R resistors, and the level of a bit that is off.
pub const SID_FILTER_DAC_TWO_R_OVER_R: f64 = 1.879;

pub const SID_DAC_LEAKAGE: f64 = 0.007_085_218;

// The analogue operating window, in volts.
pub const SID_ANALOGUE_MIN_VOLTS: f32 = 0.822_775_6;

pub const SID_ANALOGUE_MAX_VOLTS: f32 = 10.412_254;

// A voice at the filter's summer and at the mixer, in volts: its resting level, its swing and what its envelope adds; and the mixer's gain on the swing.
pub const SID_VOICE_BASE_VOLTS: f32 = 5.146_194;

pub const SID_VOICE_AC_VOLTS: f32 = 1.439_877_6;

pub const SID_VOICE_ENVELOPE_BIAS_VOLTS: f32 = 0.206_046_83;

pub const SID_MIXER_VOICE_AC_GAIN: f32 = 1.046_330_5;

// The mixer's load for each input, and its gains when two or three voices sound.
pub const SID_MIXER_CONDUCTANCE_PER_INPUT: f32 = 1.09;

pub const SID_MIXER_TWO_VOICE_ACTIVITY_LOAD: f32 = 0.0;

pub const SID_MIXER_TWO_VOICE_VOLUME_GAIN_AT_CODE_9: f32 = 1.006_400_7;

pub const SID_MIXER_TWO_VOICE_VOLUME_GAIN_PER_CODE: f32 = 0.0;

pub const SID_MIXER_THREE_VOICE_ACTIVITY_LIFT: f32 = 0.094_890_7;

// The volume DAC: four branches of conductance, not quite powers of two, that load their common node.
pub const SID_VOLUME_CONDUCTANCE_DIVISOR: f32 = 12.280_097;

const SID_VOLUME_DAC_BRANCH_WEIGHTS: [f32; 4] = [1.0, 2.040_697_6, 4.179_677, 8.836_269];

pub const SID_VOLUME_DAC_CONDUCTANCE_SCALE: f32 = 1.076_082_2;

pub const SID_VOLUME_DAC_COMMON_COMPRESSION: f32 = 0.007_916_901;

// From the chip's levels to the output stage's units.
pub const SID_OUTPUT_SCALE: f32 = 268_904.72;

// The volume stage's output: its centre, its gain and the bias of the full code.
pub const SID_VOLUME_OUTPUT_CENTRE: f32 = 0.50;

pub const SID_VOLUME_OUTPUT_GAIN: f32 = 1.00;

pub const SID_VOLUME_DAC_BIAS_FULL: f32 = -0.047_231_26;

// The two charges that a step of the volume register displaces, at full scale, in the output stage's units.
pub const SID_VOLUME_TRANSITION_FAST_CHARGE_FULL_SCALE: f32 = 3_152.062_3;

pub const SID_VOLUME_TRANSITION_SLOW_CHARGE_FULL_SCALE: f32 = 2_777.722_2;

// The level of three stopped oscillators: a row for each term in the mode bits, each a polynomial in the volume.
const SID_FROZEN_DAC_POLYNOMIAL: [[f32; 3]; 11] = [
    [0.083187386, 0.076594698, -0.006263331],
    [-0.094251172, -0.086904238, 0.007223559],
    [0.011220983, 0.010763546, -0.000589546],
    [-0.011110694, -0.010283382, 0.000734712],
    [-0.063138851, -0.058293584, 0.004630566],
    [0.004527714, 0.003662172, -0.000725594],
    [0.010390469, 0.009582484, -0.000785592],
    [0.006244834, 0.007575811, 0.001078388],
    [-0.002028794, -0.001875405, 0.000162112],
    [0.005621131, 0.004560351, -0.000916912],
    [0.006088577, 0.005621628, -0.000418789],
];

// The loaded amplifier's surface: its steps of load, its largest load, and its resting level in volts.
pub const SID_ANALOGUE_LOAD_BINS: usize = 145;

pub const SID_ANALOGUE_MAX_CONDUCTANCE: f32 = 9.0;

pub const SID_ANALOGUE_QUIESCENT_VOLTS: f32 = 4.432_360_6;

// How much strong resonance lifts the filter's output.
pub const SID_RESONANCE_OUTPUT_LIFT: f32 = 0.12;

// The filter core: substeps a sample, operating bins, gain into it, gain of the whole output, and the sign of low, band and high.
pub const FILTER_SUBSTEPS: usize = 4;

pub const FILTER_OPERATING_BINS: usize = 16;

pub const FILTER_INPUT_GAIN: f32 = 1.00;

pub const FILTER_OUTPUT_GAIN: f32 = 0.88;

const FILTER_MODE_POLARITY: [f32; 3] = [1.00, -1.00, 1.00];

// The low-pass output's gain over resonance.
pub const FILTER_LOWPASS_GAIN_AT_MID_RESONANCE: f32 = 1.18;

pub const FILTER_LOWPASS_GAIN_RESONANCE_DROP: f32 = 0.18;

pub const FILTER_LOWPASS_OUTPUT_TRIM: f32 = 0.910_872_7;

// The band-pass output's gain over cutoff and resonance.
pub const FILTER_BANDPASS_GAIN_ZERO_CUTOFF: f32 = 2.169_565_7;

pub const FILTER_BANDPASS_GAIN_CUTOFF_SLOPE: f32 = 0.988_411_8;

pub const FILTER_BANDPASS_GAIN_RESONANCE_DROP: f32 = 0.612_764_4;

pub const FILTER_BANDPASS_GAIN_TRIM_ZERO: f32 = 0.92;

pub const FILTER_BANDPASS_GAIN_TRIM_CUTOFF_SLOPE: f32 = 0.16;

pub const FILTER_BANDPASS_OUTPUT_TRIM: f32 = 0.846_128_7;

// The load on the output of a mode that is on alone, a row each for low, band and high: over the cutoff, and over the resonance.
static FILTER_SINGLE_MODE_CUTOFF_GAIN: [[f32; 32]; 3] = [
    [
        1.0, 1.0, 1.23353623, 0.89895064, 0.86740986, 0.85526656, 0.84718767, 0.84884046,
        0.86227679, 0.87671523, 0.88607646, 0.89402053, 0.90257817, 0.91483444, 0.92907219,
        0.94157819, 0.95622251, 0.97426037, 0.99266103, 1.01210112, 1.02934943, 1.03989924,
        1.04441322, 1.04383719, 1.04116640, 1.03644809, 1.02943435, 1.02353474, 1.05295808, 1.0,
        1.0, 1.0,
    ],
    [
        0.89093639, 1.13634142, 0.97812194, 0.86039058, 0.91946334, 0.96311392, 1.00244342,
        1.04029696, 1.06731510, 1.06559903, 1.05455488, 1.06080772, 1.08175473, 1.09638590,
        1.09767025, 1.11775615, 1.17183848, 1.23149359, 1.27929831, 1.30239330, 1.30120409,
        1.29489753, 1.27214687, 1.22549025, 1.17642266, 1.14213297, 1.10644345, 1.01442249,
        1.10323332, 1.68230621, 1.37379690, 0.49436831,
    ],
    [
        1.31723193, 1.14871818, 1.05818941, 1.03192606, 1.00364194, 0.97844439, 0.96093557,
        0.95107789, 0.94767043, 0.95145714, 0.96612163, 1.00017911, 1.03907290, 1.07079645,
        1.13330182, 1.25638278, 1.41911372, 1.56058533, 1.64288642, 1.68253238, 1.69442833,
        1.70359570, 1.72694245, 1.74100566, 1.77025222, 1.84478685, 1.90582228, 1.85591364,
        1.66984516, 2.55944267, 2.51802873, 0.52698360,
    ],
];

static FILTER_SINGLE_MODE_RESONANCE_GAIN: [[f32; 16]; 3] = [
    [
        1.00630351, 1.00073388, 0.99603216, 0.98889116, 0.99926666, 0.99028775, 0.99058415,
        0.98036540, 0.99781395, 1.01537258, 1.02951897, 1.03220971, 1.04246099, 1.03675808,
        1.02646305, 0.99761809,
    ],
    [
        1.05848653, 1.03617474, 1.02286838, 1.00757282, 0.98742304, 0.96558247, 0.94568571,
        0.92456103, 0.92323363, 0.94834975, 0.97143255, 1.00321903, 1.02699835, 1.02721612,
        1.04865660, 1.04748858,
    ],
    [
        0.99266444, 0.97056585, 0.96428306, 0.96636973, 0.97260598, 0.98380531, 0.98886633,
        0.99618476, 1.01294612, 1.01406545, 1.01395639, 1.00681010, 1.00532142, 0.99928534,
        1.00667762, 1.04021323,
    ],
];

// The same rows for a moving cutoff: the part of the gain that does not depend on the step's direction. (The other part is in the bundle.)
static FILTER_SYMMETRIC_LOADING_GAIN: [[f32; 32]; 3] = [
    [
        1.00000000, 1.00000000, 1.00000000, 1.00000000, 1.00000000, 1.00000000, 1.00000000,
        1.00000000, 1.00000000, 1.00000000, 1.00000000, 1.00000000, 1.00000000, 1.00000000,
        1.00000000, 1.00000000, 1.00000000, 1.00000000, 1.00000000, 1.00000000, 1.00000000,
        1.00000000, 1.00000000, 1.00000000, 1.00000000, 1.00000000, 1.00000000, 1.00000000,
        1.00000000, 1.00000000, 1.00000000, 1.00000000,
    ],
    [
        1.09330756, 0.82283497, 0.83008611, 0.91884152, 0.98863140, 0.99929709, 1.02952338,
        1.03804137, 1.01706013, 1.01167829, 1.01613454, 1.02907269, 1.03903550, 1.01683951,
        0.98966821, 0.98175867, 0.98936190, 1.02742924, 1.03887273, 1.04408989, 1.04965008,
        1.03288924, 1.01529653, 0.99038672, 1.02531015, 1.02002558, 1.04102769, 0.99527514,
        0.83526745, 0.81144426, 1.05536789, 1.63472715,
    ],
    [
        0.91209361, 0.94250347, 0.99888706, 1.02097301, 1.01384441, 1.01338901, 1.00833940,
        1.00595227, 1.00686148, 1.00283746, 1.00495545, 1.01693755, 1.02628255, 0.99278781,
        0.97194577, 0.98594703, 0.99127781, 1.04047916, 1.04668138, 1.04619147, 1.04717928,
        1.03226866, 1.02158493, 0.99095460, 1.03283741, 1.03252721, 1.04036051, 1.08427591,
        0.94379028, 0.93381396, 1.39023005, 2.55917735,
    ],
];

// The gain of low and band together, over cutoff and resonance.
pub const FILTER_LOW_BAND_GAIN_ZERO_CUTOFF: f32 = 1.378;

pub const FILTER_LOW_BAND_GAIN_CUTOFF_SLOPE: f32 = 0.407;

pub const FILTER_LOW_BAND_GAIN_RESONANCE_DROP: f32 = 0.214;

pub const FILTER_LOW_BAND_LOW_RESONANCE_LIFT: f32 = 0.20;

// The output's gain over the voices that pass the filter by, with no mode on.
pub const FILTER_BYPASS_ACTIVITY_LINEAR_GAIN: f32 = 0.2756;

pub const FILTER_BYPASS_ACTIVITY_QUADRATIC_GAIN: f32 = 0.0476;

// How much of the low-pass output leaks into band and high; the knee and the decay are cutoff codes.
pub const FILTER_BANDPASS_LOW_COUPLING_MAX: f32 = 0.26;

pub const FILTER_BANDPASS_LOW_COUPLING_KNEE: f32 = 600.0;

pub const FILTER_HIGHPASS_LOW_COUPLING_ZERO: f32 = 0.07;

pub const FILTER_HIGHPASS_LOW_COUPLING_DECAY: f32 = 700.0;

// The high-pass output's gain over cutoff and resonance, and its trim, a cubic in the resonance.
pub const FILTER_HIGHPASS_GAIN_ZERO: f32 = 0.675_766_37;

pub const FILTER_HIGHPASS_GAIN_CUTOFF_SLOPE: f32 = -0.650_767_5;

pub const FILTER_HIGHPASS_GAIN_RESONANCE_DROP: f32 = 0.026_494_04;

pub const FILTER_HIGHPASS_GAIN_CUTOFF_RESONANCE_DROP: f32 = 0.833_295_6;

pub const FILTER_HIGHPASS_RESONANCE_TRIM_C0: f32 = -0.118_600_82;

pub const FILTER_HIGHPASS_RESONANCE_TRIM_C1: f32 = -0.962_186_8;

pub const FILTER_HIGHPASS_RESONANCE_TRIM_C2: f32 = 1.492_663_4;

pub const FILTER_HIGHPASS_RESONANCE_TRIM_C3: f32 = 2.835_841_4;

// The source energy that shifts the cutoff: how fast it is followed, its knee, and its share at no resonance.
pub const FILTER_SOURCE_ENERGY_TRACKING: f32 = 0.001;

pub const FILTER_SOURCE_ENERGY_KNEE: f32 = 0.005;

pub const FILTER_SOURCE_RESONANCE_FLOOR: f32 = 0.20;

// The displacement of the cutoff DAC by a step of its code: codes for each code of the step, and its limit in codes.
pub const FILTER_CUTOFF_STEP_CHARGE_GAIN: f32 = 0.8592;

pub const FILTER_CUTOFF_STEP_CHARGE_LIMIT_CODES: i16 = 57;

// The shift of the output's operating point by combined waveforms and by voices that pass the filter by.
pub const COMBINED_OUTPUT_COMMON_MODE: f32 = 0.014_051_97;

pub const PURE_BYPASS_OUTPUT_COMMON_MODE: f32 = 0.018_140_94;

// The same for each filter mode, at the lowest and the highest cutoff, and for a voice that enters the filter.
pub const FILTER_LOWPASS_COMMON_MODE_FC_0: f32 = -0.034_882_37;

pub const FILTER_LOWPASS_COMMON_MODE_FC_2047: f32 = -0.036_773_43;

pub const FILTER_BANDPASS_COMMON_MODE_FC_0: f32 = -0.005_140_44;

pub const FILTER_BANDPASS_COMMON_MODE_FC_2047: f32 = -0.005_218_12;

pub const FILTER_HIGHPASS_COMMON_MODE_FC_0: f32 = -0.005_109_45;

pub const FILTER_HIGHPASS_COMMON_MODE_FC_2047: f32 = -0.011_489_80;

pub const FILTER_INPUT_COMMON_MODE_ONE_VOICE: f32 = 0.013_197_48;

// The charge that a rising envelope brings to the mixer past the filter: by voices sounding, by waveform selection, and by the waveform's level.
pub const PURE_BYPASS_ATTACK_COMMON_MODE_ONE_VOICE: f32 = 0.224_63;

pub const PURE_BYPASS_ATTACK_COMMON_MODE_TWO_VOICE_DELTA: f32 = -0.109_01;

pub const PURE_BYPASS_ATTACK_COMMON_MODE_THREE_VOICE_DELTA: f32 = -0.134_59;

pub const PURE_BYPASS_ATTACK_COMMON_MODE_SCALE: f32 = 0.715;

const PURE_BYPASS_ATTACK_SCALE_BY_SELECTION: [f32; 16] = [
    1.0, 1.490, 0.0, 1.0, 0.865, 1.0, 1.0, 1.0, 1.0, 1.0, 1.0, 1.0, 1.0, 1.0, 1.0, 1.0,
];

pub const PURE_BYPASS_ATTACK_WAVEFORM_STATE_COUPLING: f32 = 0.065;

// The charge of a pulse voice's gate, at full volume, in the output stage's units.
pub const PURE_PULSE_GATE_RELAXATION_CHARGE: f32 = 1_291.601_0;

// The mixer's transfer of a settled saw, a quadratic in its level.
pub const PURE_SAW_MIXER_LINEAR: f32 = 0.812_330;

pub const PURE_SAW_MIXER_QUADRATIC: f32 = 0.324_400;

// Every f32 that stands alone, in the order above.
pub fn scalars() -> [f32; 73]
    ensures { result ≡ K.scalars_of }
{
    [
        SID_ANALOGUE_MIN_VOLTS,
        SID_ANALOGUE_MAX_VOLTS,
        SID_VOICE_BASE_VOLTS,
        SID_VOICE_AC_VOLTS,
        SID_VOICE_ENVELOPE_BIAS_VOLTS,
        SID_MIXER_VOICE_AC_GAIN,
        SID_MIXER_CONDUCTANCE_PER_INPUT,
        SID_MIXER_TWO_VOICE_ACTIVITY_LOAD,
        SID_MIXER_TWO_VOICE_VOLUME_GAIN_AT_CODE_9,
        SID_MIXER_TWO_VOICE_VOLUME_GAIN_PER_CODE,
        SID_MIXER_THREE_VOICE_ACTIVITY_LIFT,
        SID_VOLUME_CONDUCTANCE_DIVISOR,
        SID_VOLUME_DAC_CONDUCTANCE_SCALE,
        SID_VOLUME_DAC_COMMON_COMPRESSION,
        SID_OUTPUT_SCALE,
        SID_VOLUME_OUTPUT_CENTRE,
        SID_VOLUME_OUTPUT_GAIN,
        SID_VOLUME_DAC_BIAS_FULL,
        SID_VOLUME_TRANSITION_FAST_CHARGE_FULL_SCALE,
        SID_VOLUME_TRANSITION_SLOW_CHARGE_FULL_SCALE,
        SID_ANALOGUE_MAX_CONDUCTANCE,
        SID_ANALOGUE_QUIESCENT_VOLTS,
        SID_RESONANCE_OUTPUT_LIFT,
        FILTER_INPUT_GAIN,
        FILTER_OUTPUT_GAIN,
        FILTER_LOWPASS_GAIN_AT_MID_RESONANCE,
        FILTER_LOWPASS_GAIN_RESONANCE_DROP,
        FILTER_LOWPASS_OUTPUT_TRIM,
        FILTER_BANDPASS_GAIN_ZERO_CUTOFF,
        FILTER_BANDPASS_GAIN_CUTOFF_SLOPE,
        FILTER_BANDPASS_GAIN_RESONANCE_DROP,
        FILTER_BANDPASS_GAIN_TRIM_ZERO,
        FILTER_BANDPASS_GAIN_TRIM_CUTOFF_SLOPE,
        FILTER_BANDPASS_OUTPUT_TRIM,
        FILTER_LOW_BAND_GAIN_ZERO_CUTOFF,
        FILTER_LOW_BAND_GAIN_CUTOFF_SLOPE,
        FILTER_LOW_BAND_GAIN_RESONANCE_DROP,
        FILTER_LOW_BAND_LOW_RESONANCE_LIFT,
        FILTER_BYPASS_ACTIVITY_LINEAR_GAIN,
        FILTER_BYPASS_ACTIVITY_QUADRATIC_GAIN,
        FILTER_BANDPASS_LOW_COUPLING_MAX,
        FILTER_BANDPASS_LOW_COUPLING_KNEE,
        FILTER_HIGHPASS_LOW_COUPLING_ZERO,
        FILTER_HIGHPASS_LOW_COUPLING_DECAY,
        FILTER_HIGHPASS_GAIN_ZERO,
        FILTER_HIGHPASS_GAIN_CUTOFF_SLOPE,
        FILTER_HIGHPASS_GAIN_RESONANCE_DROP,
        FILTER_HIGHPASS_GAIN_CUTOFF_RESONANCE_DROP,
        FILTER_HIGHPASS_RESONANCE_TRIM_C0,
        FILTER_HIGHPASS_RESONANCE_TRIM_C1,
        FILTER_HIGHPASS_RESONANCE_TRIM_C2,
        FILTER_HIGHPASS_RESONANCE_TRIM_C3,
        FILTER_SOURCE_ENERGY_TRACKING,
        FILTER_SOURCE_ENERGY_KNEE,
        FILTER_SOURCE_RESONANCE_FLOOR,
        FILTER_CUTOFF_STEP_CHARGE_GAIN,
        COMBINED_OUTPUT_COMMON_MODE,
        PURE_BYPASS_OUTPUT_COMMON_MODE,
        FILTER_LOWPASS_COMMON_MODE_FC_0,
        FILTER_LOWPASS_COMMON_MODE_FC_2047,
        FILTER_BANDPASS_COMMON_MODE_FC_0,
        FILTER_BANDPASS_COMMON_MODE_FC_2047,
        FILTER_HIGHPASS_COMMON_MODE_FC_0,
        FILTER_HIGHPASS_COMMON_MODE_FC_2047,
        FILTER_INPUT_COMMON_MODE_ONE_VOICE,
        PURE_BYPASS_ATTACK_COMMON_MODE_ONE_VOICE,
        PURE_BYPASS_ATTACK_COMMON_MODE_TWO_VOICE_DELTA,
        PURE_BYPASS_ATTACK_COMMON_MODE_THREE_VOICE_DELTA,
        PURE_BYPASS_ATTACK_COMMON_MODE_SCALE,
        PURE_BYPASS_ATTACK_WAVEFORM_STATE_COUPLING,
        PURE_PULSE_GATE_RELAXATION_CHARGE,
        PURE_SAW_MIXER_LINEAR,
        PURE_SAW_MIXER_QUADRATIC,
    ]
}

// Every f64, in the order above.
pub fn doubles() -> [f64; 2]
    ensures { result ≡ K.doubles_of }
{
    [SID_FILTER_DAC_TWO_R_OVER_R, SID_DAC_LEAKAGE]
}

// Every count, in the order above.
pub fn sizes() -> [usize; 3]
    ensures { result ≡ K.sizes_of }
{
    [
        SID_ANALOGUE_LOAD_BINS,
        FILTER_SUBSTEPS,
        FILTER_OPERATING_BINS,
    ]
}

// The one signed constant.
pub fn cutoff_step_charge_limit_codes() -> i16
    ensures { result ≡ K.filter_cutoff_step_charge_limit_codes }
{
    FILTER_CUTOFF_STEP_CHARGE_LIMIT_CODES
}

// The tables that a caller binds once.
pub fn volume_dac_branch_weights() -> [f32; 4]
    ensures { result ≡ K.sid_volume_dac_branch_weights }
{
    SID_VOLUME_DAC_BRANCH_WEIGHTS
}

pub fn mode_polarity() -> [f32; 3]
    ensures { result ≡ K.filter_mode_polarity }
{
    FILTER_MODE_POLARITY
}

pub fn attack_scale_by_selection() -> [f32; 16]
    ensures { result ≡ K.pure_bypass_attack_scale_by_selection }
{
    PURE_BYPASS_ATTACK_SCALE_BY_SELECTION
}

pub fn frozen_dac_polynomial() -> [[f32; 3]; 11]
    ensures { result ≡ K.sid_frozen_dac_polynomial }
{
    SID_FROZEN_DAC_POLYNOMIAL
}

// The drives at the sixteen operating bins (tables.rs): into the filter 0.72 + 0.88 × p, and of its feedback 0.48 + 1.62 × p, where p is bin / 15, rounded first.
pub fn input_drives() -> [f32; 16]
    ensures { result ≡ input_drives_of }
{
    [
        0.72, 0.7786667, 0.8373334, 0.896, 0.95466673, 1.0133333, 1.072, 1.1306667, 1.1893334,
        1.248, 1.3066667, 1.3653333, 1.424, 1.4826667, 1.5413334, 1.6,
    ]
}

pub fn feedback_drives() -> [f32; 16]
    ensures { result ≡ feedback_drives_of }
{
    [
        0.48, 0.588, 0.696, 0.804, 0.912, 1.02, 1.128, 1.236, 1.344, 1.452, 1.5600001, 1.6680001,
        1.776, 1.8840001, 1.992, 2.1,
    ]
}

// Entry i of row m of a table, and NaN past the table.
fn entry<const N: usize>(table: &[[f32; N]; 3], m: usize, i: usize) -> f32
    ensures { result ≡ row_entry table.now m i }
{
    match table.get(m) {
        Some(row) => row.get(i).copied().unwrap_or(f32::NAN),
        None => f32::NAN,
    }
}

// Entry i, 0 to 31, of a mode's load over the cutoff, and NaN past the table. Modes are 0 low, 1 band, 2 high.
#[tactic(auto, unfolding(crate::specs::Tables::single_mode_cutoff_gain_of))]
pub fn single_mode_cutoff_gain(mode_index: usize, i: usize) -> f32
    ensures { result ≡ single_mode_cutoff_gain_of mode_index i }
{
    entry(&FILTER_SINGLE_MODE_CUTOFF_GAIN, mode_index, i)
}

// The same over the resonance, 0 to 15.
#[tactic(auto, unfolding(crate::specs::Tables::single_mode_resonance_gain_of))]
pub fn single_mode_resonance_gain(mode_index: usize, resonance: usize) -> f32
    ensures { result ≡ single_mode_resonance_gain_of mode_index resonance }
{
    entry(&FILTER_SINGLE_MODE_RESONANCE_GAIN, mode_index, resonance)
}

// The gain that does not depend on the direction of the step: i is 0 to 31.
#[tactic(auto, unfolding(crate::specs::Tables::symmetric_loading_gain_of))]
pub fn symmetric_loading_gain(mode_index: usize, i: usize) -> f32
    ensures { result ≡ symmetric_loading_gain_of mode_index i }
{
    entry(&FILTER_SYMMETRIC_LOADING_GAIN, mode_index, i)
}
