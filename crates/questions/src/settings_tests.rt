// Tests of settings and of a transport as a call hands them in.
ghost use Rattle.std.specs.Prelude.{◌≡◌};
ghost use Rattle.settings.specs.Codes.{settings_known, transport_known};
ghost use Rattle.questions.specs.Tests.{rate_finite, span_finite, smooth_finite, settings_finite, smooth_in, transport_finite, transport_in};

use super::floats::{if_chosen, is_finite_f32, is_finite_f64};
use codes::{RateCodes, SettingsCodes, SmoothCodes, SpanCodes, TransportCodes};
use settings::{Settings, Transport};

// ---- settings

pub fn settings_known(c: SettingsCodes) -> bool
    ensures { result ≡ settings_known c }
{
    match Settings::from_codes(c) {
        Some(_) => true,
        None => false,
    }
}

fn rate_finite(c: RateCodes) -> bool
    ensures { result ≡ rate_finite c }
{
    if_chosen(c.code == 1, is_finite_f32(c.hz))
}

fn span_finite(c: SpanCodes) -> bool
    ensures { result ≡ span_finite c }
{
    if_chosen(c.code == 2, is_finite_f32(c.seconds))
}

fn smooth_finite(c: SmoothCodes) -> bool
    ensures { result ≡ smooth_finite c }
{
    if_chosen(c.code == 1, is_finite_f32(c.coefficient))
}

pub fn settings_finite(c: SettingsCodes) -> bool
    ensures { result ≡ settings_finite c }
{
    rate_finite(c.rate)
        & span_finite(c.fade_in)
        & span_finite(c.delay)
        & smooth_finite(c.smooth)
        & is_finite_f32(c.phase)
}

pub fn smooth_in(c: SmoothCodes) -> bool
    ensures { result ≡ smooth_in c }
{
    if_chosen(c.code == 1, (0.0..=1.0).contains(&c.coefficient))
}

// ---- a transport

pub fn transport_known(c: TransportCodes) -> bool
    ensures { result ≡ transport_known c }
{
    match Transport::from_codes(c) {
        Some(_) => true,
        None => false,
    }
}

pub fn transport_finite(c: TransportCodes) -> bool
    ensures { result ≡ transport_finite c }
{
    is_finite_f64(c.sample_rate)
        & is_finite_f64(c.tempo)
        & is_finite_f64(c.beats_per_bar)
        & is_finite_f64(c.beats)
        & is_finite_f64(c.seconds)
        & is_finite_f32(c.swing)
        & is_finite_f32(c.scale.percent)
}

pub fn transport_in(c: TransportCodes) -> bool
    ensures { result ≡ transport_in c }
{
    (1000.0..=768000.0).contains(&c.sample_rate)
        & (0.0..=1000.0).contains(&c.tempo)
        & (0.25..=64.0).contains(&c.beats_per_bar)
        & (-2147483648.0..=2147483647.0).contains(&c.beats)
        & (-2147483648.0..=2147483647.0).contains(&c.seconds)
}
