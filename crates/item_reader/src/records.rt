// Settings and scales.
ghost use Rattle.std.specs.Prelude.{◌≡◌};
ghost use Rattle.fields.specs.Fields.{parsed};
ghost use Rattle.record.specs.Reading.{rate, span, smooth, settings, scale};

use codes::{RateCodes, ScaleCodes, SettingsCodes, SmoothCodes, SpanCodes};
use fields::{Fault, read_below, read_f32, read_if, read_short};

#[tactic(auto, unfolding(record::specs::Reading::rate, fields::specs::Parser::after))]
fn read_rate(s: &[u8], at: usize) -> Result<(RateCodes, usize), Fault>
    ensures { parsed result ≡ rate s.now at }
{
    let (code, at) = read_below(s, at, 2)?;
    let (division, at) = read_if(at, code == 0, 0, |at| read_below(s, at, 15))?;
    let (feel, at) = read_if(at, code == 0, 0, |at| read_below(s, at, 3))?;
    let (hz, at) = read_if(at, code == 1, 0.0, |at| read_f32(s, at))?;
    let (x10, at) = read_if(at, code == 1, 0, |at| read_below(s, at, 2))?;
    let rate = RateCodes {
        code,
        division,
        feel,
        hz,
        x10,
    };
    Ok((rate, at))
}

#[tactic(auto, unfolding(record::specs::Reading::span, fields::specs::Parser::after))]
fn read_span(s: &[u8], at: usize) -> Result<(SpanCodes, usize), Fault>
    ensures { parsed result ≡ span s.now at }
{
    let (code, at) = read_below(s, at, 3)?;
    let (division, at) = read_if(at, code == 1, 0, |at| read_below(s, at, 15))?;
    let (seconds, at) = read_if(at, code == 2, 0.0, |at| read_f32(s, at))?;
    let span = SpanCodes {
        code,
        division,
        seconds,
    };
    Ok((span, at))
}

#[tactic(auto, unfolding(record::specs::Reading::smooth, fields::specs::Parser::after))]
fn read_smooth(s: &[u8], at: usize) -> Result<(SmoothCodes, usize), Fault>
    ensures { parsed result ≡ smooth s.now at }
{
    let (code, at) = read_below(s, at, 2)?;
    let (coefficient, at) = read_if(at, code == 1, 0.0, |at| read_f32(s, at))?;
    Ok((SmoothCodes { code, coefficient }, at))
}

#[tactic(auto, unfolding(record::specs::Reading::settings, fields::specs::Parser::after))]
pub fn read_settings(s: &[u8], at: usize) -> Result<(SettingsCodes, usize), Fault>
    ensures { parsed result ≡ settings s.now at }
{
    let (kind, at) = read_below(s, at, 5)?;
    let (mode, at) = read_below(s, at, 3)?;
    let (direction, at) = read_below(s, at, 3)?;
    let (rate, at) = read_rate(s, at)?;
    let (song_lock, at) = read_below(s, at, 2)?;
    let (swing, at) = read_below(s, at, 2)?;
    let (fade_in, at) = read_span(s, at)?;
    let (delay, at) = read_span(s, at)?;
    let (smooth, at) = read_smooth(s, at)?;
    let (phase, at) = read_f32(s, at)?;
    let (phase_snap, at) = read_below(s, at, 2)?;
    let (grid_x, at) = read_short(s, at)?;
    let settings = SettingsCodes {
        kind,
        mode,
        direction,
        rate,
        song_lock,
        swing,
        fade_in,
        delay,
        smooth,
        phase,
        phase_snap,
        grid_x,
    };
    Ok((settings, at))
}

#[tactic(auto, unfolding(record::specs::Reading::scale, fields::specs::Parser::after))]
pub fn read_scale(s: &[u8], at: usize) -> Result<(ScaleCodes, usize), Fault>
    ensures { parsed result ≡ scale s.now at }
{
    let (code, at) = read_below(s, at, 2)?;
    let (percent, at) = read_f32(s, at)?;
    Ok((ScaleCodes { code, percent }, at))
}
