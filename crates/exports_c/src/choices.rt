// The crate `settings`, what no run reaches: knobs, indices, the song position moved on.
ghost use Rattle.std.specs.Prelude.{◌≡◌};
ghost use Rattle.std.specs.Float.{nan};
ghost use Rattle.floatlaws.specs.Numbers.{f64_0};
ghost use Rattle.settings.specs.Choices.{lfo_type_at, generates};
ghost use Rattle.settings.specs.Divisions.{division_at, nearest_division, knob_of, stored_of};
ghost use Rattle.settings.specs.Times.{hz_at, span_at_index};
ghost use Rattle.settings.specs.Codes.{with_known};
ghost use Rattle.settings.specs.Records.{advanced_transport};
ghost use Rattle.exports.specs.Choices.{yes_number, division_number, span_number, hertz, song_at};

// ---- kinds and divisions: where a code or an index is not known, the answer is 255 or NaN

#[unsafe(no_mangle)]
pub extern "C" fn kind_is_generator(code: u64) -> u64
    ensures { result ≡ with_known 255 (lfo_type_at code) (λ k. yes_number (generates k)) }
{
    exports::choices::kind_is_generator(code)
}

#[unsafe(no_mangle)]
pub extern "C" fn division_new(index: u8) -> u64
    ensures { result ≡ with_known 255 (division_at index) division_number }
{
    exports::choices::division_new(index)
}

#[unsafe(no_mangle)]
pub extern "C" fn division_from_normalised(n: f32) -> u64
    ensures { result ≡ division_number (nearest_division n) }
{
    exports::choices::division_from_normalised(n)
}

#[unsafe(no_mangle)]
pub extern "C" fn division_normalised(index: u8) -> f32
    ensures { result ≡ with_known nan (division_at index) knob_of }
{
    exports::choices::division_normalised(index)
}

#[unsafe(no_mangle)]
pub extern "C" fn division_stored(index: u8) -> f32
    ensures { result ≡ with_known nan (division_at index) stored_of }
{
    exports::choices::division_stored(index)
}

// ---- rates and spans

#[unsafe(no_mangle)]
pub extern "C" fn rate_hz_from_normalised(n: f32, x10: bool) -> f32
    ensures { result ≡ hertz (hz_at n x10) }
{
    exports::choices::rate_hz_from_normalised(n, x10)
}

#[unsafe(no_mangle)]
pub extern "C" fn span_from_index(index: u8) -> u64
    ensures { result ≡ span_number (span_at_index index) }
{
    exports::choices::span_from_index(index)
}

// ---- the song position after so many frames

#[unsafe(no_mangle)]
pub extern "C" fn transport_beats_after(
    sample_rate: f64,
    tempo: f64,
    beats: f64,
    frames: u64,
) -> f64
    ensures { result ≡ (advanced_transport (song_at sample_rate tempo beats f64_0) frames).beats }
{
    exports::choices::transport_beats_after(sample_rate, tempo, beats, frames)
}

#[unsafe(no_mangle)]
pub extern "C" fn transport_seconds_after(sample_rate: f64, seconds: f64, frames: u64) -> f64
    ensures { result ≡ (advanced_transport (song_at sample_rate f64_0 f64_0 seconds) frames).seconds }
{
    exports::choices::transport_seconds_after(sample_rate, seconds, frames)
}
