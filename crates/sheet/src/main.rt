// Prints the sheet of document 01: each frame's index, and its x and y as the bits of f32. Of a refused call it prints the answer alone.
//
// Its item: the default shape, strengths 1, Restart, 250 Hz with ×10, sample rate 1,000, scale 100 percent, phase 0, no smoothing, no restart, 4 frames.
#![tactic(auto)]

use codes::{
    RateCodes, RestartCodes, ScaleCodes, SettingsCodes, SmoothCodes, SpanCodes, TransportCodes,
};
use questions::Question;
use std::io;

const FRAMES: usize = 4;

// More than any text here takes.
const ROOM: usize = 4096;

fn show_sheet<P: Print>(rt: &P, x: &[f32; FRAMES], y: &[f32; FRAMES]) -> io::Result<()> {
    let mut out = [0; ROOM];
    let lines = text::write_header(&mut out, 0).unwrap_or(0);
    let end = text::write_lines(&mut out, lines, 0, x, y).unwrap_or(0);
    rt.write_all(&out[..end.min(ROOM)])
}

// No delay and no fade.
fn off() -> SpanCodes {
    SpanCodes {
        code: 0,
        division: 0,
        seconds: 0.0,
    }
}

fn settings() -> SettingsCodes {
    SettingsCodes {
        kind: 0,
        mode: 1,
        direction: 0,
        rate: RateCodes {
            code: 1,
            division: 0,
            feel: 0,
            hz: 250.0,
            x10: 1,
        },
        song_lock: 0,
        swing: 0,
        fade_in: off(),
        delay: off(),
        smooth: SmoothCodes {
            code: 0,
            coefficient: 0.0,
        },
        phase: 0.0,
        phase_snap: 0,
        grid_x: 8,
    }
}

fn transport() -> TransportCodes {
    TransportCodes {
        sample_rate: 1000.0,
        tempo: 120.0,
        beats_per_bar: 4.0,
        playing: 0,
        beats: 0.0,
        seconds: 0.0,
        swing: 0.0,
        scale: ScaleCodes {
            code: 0,
            percent: 100.0,
        },
    }
}

// Prints the number of the question that refuses a call, with words on standard error.
fn show_refusal<P: Print + Eprint>(rt: &P, question: Question) -> io::Result<()> {
    let mut out = [0; ROOM];
    let end = text::write_number(&mut out, 0, question.number() as u64).unwrap_or(0);
    rt.write_all(&out[..end.min(ROOM)])?;
    eprintln!(rt; "sheet: refused; docs/RULES.md has the question of that number")
}

// Plays the item's frames into x and y.
fn play(x: &mut [f32; FRAMES], y: &mut [f32; FRAMES]) -> Result<(), Question> {
    let p = player::make(settings(), 0)?;
    let restart = RestartCodes { code: 0, frame: 0 };
    player::play(p, transport(), FRAMES as u64, restart, x, y)?;
    Ok(())
}

fn main(rt: HostRuntime) -> io::Result<()> {
    let mut x = [0.0; FRAMES];
    let mut y = [0.0; FRAMES];
    match play(&mut x, &mut y) {
        Ok(()) => show_sheet(&rt, &x, &y),
        Err(question) => show_refusal(&rt, question),
    }
}
