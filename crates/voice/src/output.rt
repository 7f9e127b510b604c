// What a voice puts out: the start value, fade in and smoothing, after the generator.
ghost use Rattle.std.specs.Prelude.{◌≡◌, if◌then◌else◌};
ghost use Rattle.voice.specs.Source.{is_path};
ghost use Rattle.voice.specs.Output.{new_output, gain_of, later_of, captured_of, faded_of, smoothed_of, put_out, second_value, posted};

use super::generator::is_path;
use settings::LfoType;

// One output: the value from which it fades in, and its last value, from which it is smoothed.
#[derive(Clone, Copy)]
pub struct Channel {
    pub start: f32,
    pub smoothed: f32,
}

#[derive(Clone, Copy)]
pub struct Output {
    // Samples since the last restart; 2^64 - 1 for a voice that had none.
    pub t: u64,
    // Delay and Fade in in samples, and 1 / Fade in.
    pub delay: u64,
    pub fade: u64,
    pub inv_fade: f32,
    // The next sample sets the start values.
    pub capture: bool,
    pub x: Channel,
    pub y: Channel,
}

impl Output {
    // Of a voice never restarted: at full level.
    pub fn new() -> Self
        ensures { result ≡ new_output }
    {
        Output {
            t: u64::MAX,
            delay: 0,
            fade: 0,
            inv_fade: 0.0,
            capture: false,
            x: Channel {
                start: 0.0,
                smoothed: 0.0,
            },
            y: Channel {
                start: 0.0,
                smoothed: 0.0,
            },
        }
    }

    // The fade-in gain, 0 to 1.
    #[tactic(auto, unfolding(crate::specs::Output::gain_of))]
    fn gain(self) -> f32
        ensures { result ≡ gain_of self.t self.delay self.fade self.inv_fade }
    {
        if self.t < self.delay {
            return 0.0;
        }
        let since = self.t - self.delay;
        if self.fade <= since {
            return 1.0;
        }
        narrow::u64_to_f32(since) * self.inv_fade
    }
}

// The output after a sample, and the two values.
#[derive(Clone, Copy)]
pub struct Posted {
    pub output: Output,
    pub x: f32,
    pub y: f32,
}

// One sample later; the largest number stays.
#[tactic(auto, unfolding(crate::specs::Output::later_of))]
fn later(t: u64) -> u64
    ensures { result ≡ later_of t }
{
    if t < u64::MAX {
        return t + 1;
    }
    t
}

// The channel at a sample: the first after a restart sets the start value, and smoothing starts there.
#[tactic(auto, unfolding(crate::specs::Output::captured_of))]
fn captured(capture: bool, raw: f32, c: Channel) -> Channel
    ensures { result ≡ captured_of capture raw c }
{
    if capture {
        return Channel {
            start: raw,
            smoothed: raw,
        };
    }
    c
}

// Both outputs before smoothing.
#[derive(Clone, Copy)]
struct Levels {
    x: f32,
    y: f32,
}

// From the start values to the raw values by the gain, with one test for both.
#[tactic(auto, unfolding(crate::specs::Output::faded_of))]
fn faded(g: f32, x: f32, start_x: f32, y: f32, start_y: f32) -> Levels
    ensures { (result.x ≡ faded_of g x start_x) × (result.y ≡ faded_of g y start_y) }
{
    if g == 1.0 {
        return Levels { x, y };
    }
    Levels {
        x: x * g + start_x * (1.0 - g),
        y: y * g + start_y * (1.0 - g),
    }
}

// The one-pole smoothing, if any.
#[tactic(auto, unfolding(crate::specs::Output::smoothed_of))]
fn smoothed(smooth: Option<f32>, state: f32, value: f32) -> f32
    ensures { result ≡ smoothed_of smooth state value }
{
    match smooth {
        None => value,
        Some(a) => state + (value - state) * a,
    }
}

// One output after a sample, of its state there and its faded value.
fn post(smooth: Option<f32>, from: Channel, value: f32) -> Channel
    ensures { result ≡ put_out smooth from value }
{
    Channel {
        start: from.start,
        smoothed: smoothed(smooth, from.smoothed, value),
    }
}

// The second output: of a path as the first, and of another type as it was.
fn second(kind: LfoType, smooth: Option<f32>, from: Channel, value: f32, c: Channel) -> Channel
    ensures { result ≡ (if is_path kind then put_out smooth from value else c) }
{
    if is_path(kind) {
        return post(smooth, from, value);
    }
    c
}

// The second value: of a path what was put out, and of another type what was generated.
fn second_value(kind: LfoType, raw: f32, c: Channel) -> f32
    ensures { result ≡ second_value kind raw c }
{
    if is_path(kind) {
        return c.smoothed;
    }
    raw
}

// The start value, fade in and smoothing of both outputs for a sample whose generator gave `x` and `y`.
pub fn put(kind: LfoType, smooth: Option<f32>, o: Output, x: f32, y: f32) -> Posted
    ensures { result ≡ posted kind smooth o x y }
{
    let g = o.gain();
    let from_x = captured(o.capture, x, o.x);
    let from_y = captured(o.capture, y, o.y);
    let level = faded(g, x, from_x.start, y, from_y.start);
    let after_x = post(smooth, from_x, level.x);
    let after_y = second(kind, smooth, from_y, level.y, o.y);
    Posted {
        output: Output {
            t: later(o.t),
            capture: false,
            x: after_x,
            y: after_y,
            ..o
        },
        x: after_x.smoothed,
        y: second_value(kind, y, after_y),
    }
}
