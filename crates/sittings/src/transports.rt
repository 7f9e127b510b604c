// The transport of a sitting.
ghost use Rattle.std.specs.Prelude.{◌≡◌};
ghost use Rattle.sittings.specs.Courses.{moved_on};

use codes::TransportCodes;
use settings::Transport;

// The transport some frames on.
pub fn moved_on(c: TransportCodes, frames: u64) -> TransportCodes
    ensures { result ≡ moved_on c frames }
{
    let Some(t) = Transport::from_codes(c) else {
        return c;
    };
    let next = t.advance(frames);
    TransportCodes {
        beats: next.beats,
        seconds: next.seconds,
        ..c
    }
}
