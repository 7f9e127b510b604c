// Writes the weights of the first seven samples after a restart with a delay of 2 samples and a fade in of 4, as the bits of f32. The file
// `stdout` has those that document 01 gives: 0, 0, 0, 0.25, 0.5, 0.75, 1. Of a refused call it writes the answer alone.
//
// They are the x of a block. A sample's x is raw × weight + start × (1 − weight), and start is the raw value of the first sample after the restart.
// The shape here is 0 at that sample, whose weight is 0, and 1 at the others: x is the weight.
#![tactic(auto)]

use codes::{
    LoopbackCodes, ModCodes, PointCodes, RateCodes, RestartCodes, ScaleCodes, SettingsCodes,
    ShapeCodes, SmoothCodes, SpanCodes, TransportCodes,
};
use points::MAX_POINTS;
use questions::Question;
use std::io;
use std::io::{BufWriter, Write};

const FRAMES: usize = 7;

const SAMPLE_RATE: f64 = 1000.0;

// 2 and 4 samples.
const DELAY_SECONDS: f32 = 0.002;

const FADE_SECONDS: f32 = 0.004;

// A tenth of the cycle a sample.
const HZ: f32 = 100.0;

// Where the shape steps from 0 to 1: after the position of the first sample, 0, and before that of the second, 0.1.
const STEP_AT: f32 = 0.05;

fn seconds(seconds: f32) -> SpanCodes {
    SpanCodes {
        code: 2,
        division: 0,
        seconds,
    }
}

// A drawn shape, Restart, forward.
fn settings() -> SettingsCodes {
    SettingsCodes {
        kind: 0,
        mode: 1,
        direction: 0,
        rate: RateCodes {
            code: 1,
            division: 0,
            feel: 0,
            hz: HZ,
            x10: 0,
        },
        song_lock: 0,
        swing: 0,
        fade_in: seconds(FADE_SECONDS),
        delay: seconds(DELAY_SECONDS),
        smooth: SmoothCodes {
            code: 0,
            coefficient: 0.0,
        },
        phase: 0.0,
        phase_snap: 0,
        grid_x: 8,
    }
}

// A point after which the shape holds `y` up to the next one.
fn step(x: f32, y: f32) -> PointCodes {
    let still = ModCodes {
        code: 0,
        bus: 0,
        depth: 0.0,
    };
    PointCodes {
        x,
        y,
        curve: 0.0,
        step: 1,
        x_mod: still,
        y_mod: still,
    }
}

// The first two are the shape's: 0 up to `STEP_AT`, and 1 from there on.
fn points() -> [PointCodes; MAX_POINTS] {
    let mut points = [step(0.0, 0.0); MAX_POINTS];
    points[1] = step(STEP_AT, 1.0);
    points
}

fn transport() -> TransportCodes {
    TransportCodes {
        sample_rate: SAMPLE_RATE,
        tempo: 120.0,
        beats_per_bar: 4.0,
        playing: 0,
        beats: 0.0,
        seconds: 0.0,
        swing: 0.0,
        scale: ScaleCodes {
            code: 0,
            percent: 100.0,
        },
    }
}

// Plays the shape's frames after a restart into x and y.
fn play(x: &mut [f32; FRAMES], y: &mut [f32; FRAMES]) -> Result<(), Question> {
    let shape = ShapeCodes {
        points: points(),
        count: 2,
        loopback: LoopbackCodes { code: 0, index: 0 },
    };
    let p = player::set_shape(player::make(settings(), 0)?, shape)?;
    let restart = RestartCodes { code: 1, frame: 0 };
    player::play(p, transport(), FRAMES as u64, restart, x, y)?;
    Ok(())
}

fn main(rt: HostRuntime) -> io::Result<()> {
    let mut to = BufWriter::new(rt.alloc(), io::writer(&rt))?;
    let mut x = [0.0; FRAMES];
    let mut y = [0.0; FRAMES];
    if let Err(question) = play(&mut x, &mut y) {
        let number = question.number();
        writeln!(to, "{number}")?;
        return to.flush();
    }
    for weight in x {
        writeln!(to, "{:08x}", floatbits::bits_of_f32(weight))?;
    }
    to.flush()
}
