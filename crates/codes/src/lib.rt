// What calls hand in: settings, a transport, a shape, a path, a restart and an item as codes and numbers, any of them. A choice is a code, with the fields of all its cases
// beside it; of a code that is not known, and of fields of a case that was not chosen, nothing is meant. Codes count from 0, in the order of the Rust's cases.
#![tactic(auto)]

ghost use Rattle.std.specs.Prelude.{◌≡◌, replicate};
ghost use Rattle.codes.specs.Blanks.{blank_point, blank_path_point};

use points::{MAX_POINTS, POINT_BUSES};

// ---- settings

// A rate: code 0 goes with a division and a feel, code 1 with hertz and a yes or no for ×10.
#[derive(Clone, Copy)]
pub struct RateCodes {
    pub code: u64,
    pub division: u64,
    pub feel: u64,
    pub hz: f32,
    pub x10: u64,
}

// A span: code 0 is none, code 1 goes with a division, code 2 with seconds.
#[derive(Clone, Copy)]
pub struct SpanCodes {
    pub code: u64,
    pub division: u64,
    pub seconds: f32,
}

// A smoothing coefficient: code 0 where it is absent, and 1 where it is present.
#[derive(Clone, Copy)]
pub struct SmoothCodes {
    pub code: u64,
    pub coefficient: f32,
}

#[derive(Clone, Copy)]
pub struct SettingsCodes {
    pub kind: u64,
    pub mode: u64,
    pub direction: u64,
    pub rate: RateCodes,
    pub song_lock: u64,
    pub swing: u64,
    pub fade_in: SpanCodes,
    pub delay: SpanCodes,
    pub smooth: SmoothCodes,
    pub phase: f32,
    pub phase_snap: u64,
    pub grid_x: u16,
}

// ---- a transport

// A scale: what the percentage is of.
#[derive(Clone, Copy)]
pub struct ScaleCodes {
    pub code: u64,
    pub percent: f32,
}

#[derive(Clone, Copy)]
pub struct TransportCodes {
    pub sample_rate: f64,
    pub tempo: f64,
    pub beats_per_bar: f64,
    pub playing: u64,
    pub beats: f64,
    pub seconds: f64,
    pub swing: f32,
    pub scale: ScaleCodes,
}

// ---- curves

// A point-modulation input: code 0 where it is absent, and 1 where it is present.
#[derive(Clone, Copy, Default)]
pub struct ModCodes {
    pub code: u64,
    pub bus: u8,
    pub depth: f32,
}

// One point of a shape.
#[derive(Clone, Copy, Default)]
pub struct PointCodes {
    pub x: f32,
    pub y: f32,
    pub curve: f32,
    pub step: u64,
    pub x_mod: ModCodes,
    pub y_mod: ModCodes,
}

// A loopback point, by its index: code 0 where it is absent, and 1 where it is present.
#[derive(Clone, Copy)]
pub struct LoopbackCodes {
    pub code: u64,
    pub index: u64,
}

// A shape of `count` points, of which the array begins with the first 64.
#[derive(Clone, Copy)]
pub struct ShapeCodes {
    pub points: [PointCodes; MAX_POINTS],
    pub count: usize,
    pub loopback: LoopbackCodes,
}

// One point of a path.
#[derive(Clone, Copy, Default)]
pub struct PathPointCodes {
    pub x: f32,
    pub y: f32,
    pub bend: f32,
    pub x_mod: ModCodes,
    pub y_mod: ModCodes,
}

// A path of `count` points, of which the array begins with the first 64, and a yes or no for closed.
#[derive(Clone, Copy)]
pub struct PathCodes {
    pub points: [PathPointCodes; MAX_POINTS],
    pub count: usize,
    pub closed: u64,
}

// ---- what an array holds after the points: zeros

pub fn blank_points() -> [PointCodes; MAX_POINTS]
    ensures { result ≡ replicate 64 blank_point }
{
    [PointCodes::default(); MAX_POINTS]
}

pub fn blank_path_points() -> [PathPointCodes; MAX_POINTS]
    ensures { result ≡ replicate 64 blank_path_point }
{
    [PathPointCodes::default(); MAX_POINTS]
}

// ---- a restart

// The frame at which a block restarts: code 0 where it does not, and 1 where it does.
#[derive(Clone, Copy)]
pub struct RestartCodes {
    pub code: u64,
    pub frame: u64,
}

// ---- an item

// What a record holds (document 02, W-203).
#[derive(Clone, Copy)]
pub struct ItemCodes {
    pub settings: SettingsCodes,
    pub shape: ShapeCodes,
    pub path: PathCodes,
    pub buses: [f32; POINT_BUSES],
    pub seed: u64,
    pub tempo: f64,
    pub beats_per_bar: f64,
    pub swing: f32,
    pub scale: ScaleCodes,
}
