// The crate `settings`, what no run reaches: knobs, indices, the song position moved on.
ghost use Rattle.std.specs.Prelude.{◌≡◌};
ghost use Rattle.std.specs.Float.{nan};
ghost use Rattle.floatlaws.specs.Numbers.{f64_0};
ghost use Rattle.settings.specs.Choices.{lfo_type_at, generates};
ghost use Rattle.settings.specs.Divisions.{division_at, nearest_division, knob_of, stored_of};
ghost use Rattle.settings.specs.Times.{hz_at, span_at_index};
ghost use Rattle.settings.specs.Codes.{with_known};
ghost use Rattle.settings.specs.Records.{advanced_transport};
ghost use Rattle.exports.specs.Choices.{yes_number, division_number, span_number, hertz, song_at};

use settings::{Division, LfoType, Rate, Scale, Span, Transport};

// ---- kinds and divisions: where a code or an index is not known, the answer is 255 or NaN

fn yes_number(b: bool) -> u64
    ensures { result ≡ yes_number b }
{
    if b { 1 } else { 0 }
}

#[unsafe(no_mangle)]
pub extern "C" fn kind_is_generator(code: u64) -> u64
    ensures { result ≡ with_known 255 (lfo_type_at code) (λ k. yes_number (generates k)) }
{
    match LfoType::from_code(code) {
        Some(k) => yes_number(k.is_generator()),
        None => 255,
    }
}

fn division_number(d: Division) -> u64
    ensures { result ≡ division_number d }
{
    d.index() as u64
}

fn nan() -> f32
    ensures { result ≡ nan }
{
    0.0 / 0.0
}

#[unsafe(no_mangle)]
pub extern "C" fn division_new(index: u8) -> u64
    ensures { result ≡ with_known 255 (division_at index) division_number }
{
    match Division::new(index) {
        Some(d) => division_number(d),
        None => 255,
    }
}

#[unsafe(no_mangle)]
pub extern "C" fn division_from_normalised(n: f32) -> u64
    ensures { result ≡ division_number (nearest_division n) }
{
    division_number(Division::from_normalised(n))
}

#[unsafe(no_mangle)]
pub extern "C" fn division_normalised(index: u8) -> f32
    ensures { result ≡ with_known nan (division_at index) knob_of }
{
    match Division::new(index) {
        Some(d) => d.normalised(),
        None => nan(),
    }
}

#[unsafe(no_mangle)]
pub extern "C" fn division_stored(index: u8) -> f32
    ensures { result ≡ with_known nan (division_at index) stored_of }
{
    match Division::new(index) {
        Some(d) => d.stored(),
        None => nan(),
    }
}

// ---- rates and spans

// NaN of a synced rate.
fn rate_hertz(rate: Rate) -> f32
    ensures { result ≡ hertz rate }
{
    match rate {
        Rate::Synced {
            division: _,
            feel: _,
        } => nan(),
        Rate::Hz { hz, x10: _ } => hz,
    }
}

#[unsafe(no_mangle)]
pub extern "C" fn rate_hz_from_normalised(n: f32, x10: bool) -> f32
    ensures { result ≡ hertz (hz_at n x10) }
{
    rate_hertz(Rate::hz_from_normalised(n, x10))
}

// 0 where it is off, 1 more than its division's index, and 255 where it is in seconds.
fn span_number(span: Span) -> u64
    ensures { result ≡ span_number span }
{
    match span {
        Span::Off => 0,
        Span::Synced(d) => 1 + division_number(d),
        Span::Seconds(_) => 255,
    }
}

#[unsafe(no_mangle)]
pub extern "C" fn span_from_index(index: u8) -> u64
    ensures { result ≡ span_number (span_at_index index) }
{
    span_number(Span::from_index(index))
}

// ---- the song position after so many frames

fn song(sample_rate: f64, tempo: f64, beats: f64, seconds: f64) -> Transport
    ensures { result ≡ song_at sample_rate tempo beats seconds }
{
    Transport {
        sample_rate,
        tempo,
        beats_per_bar: 4.0,
        playing: true,
        beats,
        seconds,
        swing: 0.0,
        scale: Scale::Percent(100.0),
    }
}

#[unsafe(no_mangle)]
pub extern "C" fn transport_beats_after(
    sample_rate: f64,
    tempo: f64,
    beats: f64,
    frames: u64,
) -> f64
    ensures { result ≡ (advanced_transport (song_at sample_rate tempo beats f64_0) frames).beats }
{
    song(sample_rate, tempo, beats, 0.0).advance(frames).beats
}

#[unsafe(no_mangle)]
pub extern "C" fn transport_seconds_after(sample_rate: f64, seconds: f64, frames: u64) -> f64
    ensures { result ≡ (advanced_transport (song_at sample_rate f64_0 f64_0 seconds) frames).seconds }
{
    song(sample_rate, 0.0, 0.0, seconds).advance(frames).seconds
}
