// Settings, transports and restarts.
ghost use Rattle.std.specs.Prelude.{◌≡◌};
ghost use Rattle.fields.specs.Fields.{parsed};
ghost use Rattle.runs.specs.Records.{rate, span, smooth, settings, scale, transport, restart};

use codes::{
    RateCodes, RestartCodes, ScaleCodes, SettingsCodes, SmoothCodes, SpanCodes, TransportCodes,
};
use fields::{Fault, read_f32, read_f64, read_if, read_number, read_short};

#[tactic(auto, unfolding(crate::specs::Records::rate, fields::specs::Parser::after))]
fn read_rate(run: &[u8], at: usize) -> Result<(RateCodes, usize), Fault>
    ensures { parsed result ≡ rate run.now at }
{
    let (code, at) = read_number(run, at)?;
    let (division, at) = read_if(at, code == 0, 0, |at| read_number(run, at))?;
    let (feel, at) = read_if(at, code == 0, 0, |at| read_number(run, at))?;
    let (hz, at) = read_if(at, code == 1, 0.0, |at| read_f32(run, at))?;
    let (x10, at) = read_if(at, code == 1, 0, |at| read_number(run, at))?;
    let rate = RateCodes {
        code,
        division,
        feel,
        hz,
        x10,
    };
    Ok((rate, at))
}

#[tactic(auto, unfolding(crate::specs::Records::span, fields::specs::Parser::after))]
fn read_span(run: &[u8], at: usize) -> Result<(SpanCodes, usize), Fault>
    ensures { parsed result ≡ span run.now at }
{
    let (code, at) = read_number(run, at)?;
    let (division, at) = read_if(at, code == 1, 0, |at| read_number(run, at))?;
    let (seconds, at) = read_if(at, code == 2, 0.0, |at| read_f32(run, at))?;
    let span = SpanCodes {
        code,
        division,
        seconds,
    };
    Ok((span, at))
}

#[tactic(auto, unfolding(crate::specs::Records::smooth, fields::specs::Parser::after))]
fn read_smooth(run: &[u8], at: usize) -> Result<(SmoothCodes, usize), Fault>
    ensures { parsed result ≡ smooth run.now at }
{
    let (code, at) = read_number(run, at)?;
    let (coefficient, at) = read_if(at, code == 1, 0.0, |at| read_f32(run, at))?;
    Ok((SmoothCodes { code, coefficient }, at))
}

#[tactic(auto, unfolding(crate::specs::Records::settings, fields::specs::Parser::after))]
pub fn read_settings(run: &[u8], at: usize) -> Result<(SettingsCodes, usize), Fault>
    ensures { parsed result ≡ settings run.now at }
{
    let (kind, at) = read_number(run, at)?;
    let (mode, at) = read_number(run, at)?;
    let (direction, at) = read_number(run, at)?;
    let (rate, at) = read_rate(run, at)?;
    let (song_lock, at) = read_number(run, at)?;
    let (swing, at) = read_number(run, at)?;
    let (fade_in, at) = read_span(run, at)?;
    let (delay, at) = read_span(run, at)?;
    let (smooth, at) = read_smooth(run, at)?;
    let (phase, at) = read_f32(run, at)?;
    let (phase_snap, at) = read_number(run, at)?;
    let (grid_x, at) = read_short(run, at)?;
    let settings = SettingsCodes {
        kind,
        mode,
        direction,
        rate,
        song_lock,
        swing,
        fade_in,
        delay,
        smooth,
        phase,
        phase_snap,
        grid_x,
    };
    Ok((settings, at))
}

#[tactic(auto, unfolding(crate::specs::Records::scale, fields::specs::Parser::after))]
pub fn read_scale(run: &[u8], at: usize) -> Result<(ScaleCodes, usize), Fault>
    ensures { parsed result ≡ scale run.now at }
{
    let (code, at) = read_number(run, at)?;
    let (percent, at) = read_if(at, code < 2, 0.0, |at| read_f32(run, at))?;
    Ok((ScaleCodes { code, percent }, at))
}

#[tactic(auto, unfolding(crate::specs::Records::transport, fields::specs::Parser::after))]
pub fn read_transport(run: &[u8], at: usize) -> Result<(TransportCodes, usize), Fault>
    ensures { parsed result ≡ transport run.now at }
{
    let (sample_rate, at) = read_f64(run, at)?;
    let (tempo, at) = read_f64(run, at)?;
    let (beats_per_bar, at) = read_f64(run, at)?;
    let (playing, at) = read_number(run, at)?;
    let (beats, at) = read_f64(run, at)?;
    let (seconds, at) = read_f64(run, at)?;
    let (swing, at) = read_f32(run, at)?;
    let (scale, at) = read_scale(run, at)?;
    let transport = TransportCodes {
        sample_rate,
        tempo,
        beats_per_bar,
        playing,
        beats,
        seconds,
        swing,
        scale,
    };
    Ok((transport, at))
}

#[tactic(auto, unfolding(crate::specs::Records::restart, fields::specs::Parser::after))]
pub fn read_restart(run: &[u8], at: usize) -> Result<(RestartCodes, usize), Fault>
    ensures { parsed result ≡ restart run.now at }
{
    let (code, at) = read_number(run, at)?;
    let (frame, at) = read_if(at, code == 1, 0, |at| read_number(run, at))?;
    Ok((RestartCodes { code, frame }, at))
}
