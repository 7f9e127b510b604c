// Settings and scales.
ghost use Rattle.record.specs.Writing.{rate_bytes, span_bytes, smooth_bytes, settings_bytes, scale_bytes};
ghost use Rattle.std.specs.Prelude.{◌+◌, ◌≤◌, length};
ghost use Rattle.item_writer.specs.Numbers.{Adds, first_bytes};

use super::numbers::{Put, put_if};
use codes::{RateCodes, ScaleCodes, SettingsCodes, SmoothCodes, SpanCodes};

impl Put for RateCodes {
    ghost bytes = { rate_bytes };

    ghost most = { 5 };

    fn put(self, out: &mut [u64], at: usize) -> usize {
        let code = self.code.put(out, at);
        let division = put_if(out, code, self.code == 0, self.division);
        let feel = put_if(out, division, self.code == 0, self.feel);
        let hz = put_if(out, feel, self.code == 1, self.hz);
        put_if(out, hz, self.code == 1, self.x10)
    }
}

impl Put for SpanCodes {
    ghost bytes = { span_bytes };

    ghost most = { 3 };

    fn put(self, out: &mut [u64], at: usize) -> usize {
        let code = self.code.put(out, at);
        let division = put_if(out, code, self.code == 1, self.division);
        put_if(out, division, self.code == 2, self.seconds)
    }
}

impl Put for SmoothCodes {
    ghost bytes = { smooth_bytes };

    ghost most = { 2 };

    fn put(self, out: &mut [u64], at: usize) -> usize {
        let code = self.code.put(out, at);
        put_if(out, code, self.code == 1, self.coefficient)
    }
}

// The settings up to swing.
fn put_first(out: &mut [u64], at: usize, c: SettingsCodes) -> usize
    requires { at + 10 ≤ length out.old }
    ensures { Adds out.old at (first_bytes c) 10 result out.new }
{
    let kind = c.kind.put(out, at);
    let mode = c.mode.put(out, kind);
    let direction = c.direction.put(out, mode);
    let rate = c.rate.put(out, direction);
    let song_lock = c.song_lock.put(out, rate);
    c.swing.put(out, song_lock)
}

impl Put for SettingsCodes {
    ghost bytes = { settings_bytes };

    ghost most = { 21 };

    fn put(self, out: &mut [u64], at: usize) -> usize {
        let first = put_first(out, at, self);
        let fade_in = self.fade_in.put(out, first);
        let delay = self.delay.put(out, fade_in);
        let smooth = self.smooth.put(out, delay);
        let phase = self.phase.put(out, smooth);
        let phase_snap = self.phase_snap.put(out, phase);
        (self.grid_x as u64).put(out, phase_snap)
    }
}

impl Put for ScaleCodes {
    ghost bytes = { scale_bytes };

    ghost most = { 2 };

    fn put(self, out: &mut [u64], at: usize) -> usize {
        let code = self.code.put(out, at);
        self.percent.put(out, code)
    }
}
