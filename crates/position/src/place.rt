// Where in the shape a count of cycles falls.
ghost use Rattle.std.specs.Prelude.{◌≡◌};
ghost use Rattle.position.specs.Position.{odd_cycle, cyclic_of, forward_once, reverse_once, back_once, bounced, ping_pong_once, once_of, position_of};

use settings::{Direction, Mode, Settings};

// Below this a loop has no length.
pub const EPS: f64 = 0.000000001;

// Whether a whole number of cycles is odd.
fn is_odd(cycle: f64) -> bool
    ensures { result ≡ odd_cycle cycle }
{
    let k = saturate::f64_to_i64(cycle);
    k & 1 == 1
}

// A cycle after the other.
#[tactic(auto, unfolding(crate::specs::Position::cyclic_of))]
fn cyclic(direction: Direction, c: f64) -> f64
    ensures { result ≡ cyclic_of direction c }
{
    let cycle = whole::floor(c);
    let q = c - cycle;
    match direction {
        Direction::Forward => q,
        Direction::Reverse => 1.0 - q,
        Direction::PingPong => { if is_odd(cycle) { 1.0 - q } else { q } }
    }
}

// One cycle, then a loop from the loopback point to the end.
#[tactic(auto, unfolding(crate::specs::Position::forward_once, crate::specs::Position::forward_loop))]
fn forward_once(c: f64, loopback: Option<f64>) -> f64
    ensures { result ≡ forward_once c loopback }
{
    if c < 1.0 {
        return c;
    }
    match loopback {
        Some(l) if 1.0 - l > EPS => l + euclid::rem_euclid_f64(c - 1.0, 1.0 - l),
        _ => 1.0,
    }
}

// In reverse, the loop runs from the loopback point back to the start.
#[tactic(auto, unfolding(crate::specs::Position::reverse_once, crate::specs::Position::reverse_loop))]
fn reverse_once(c: f64, loopback: Option<f64>) -> f64
    ensures { result ≡ reverse_once c loopback }
{
    if c < 1.0 {
        return 1.0 - c;
    }
    match loopback {
        Some(l) if l > EPS => l - euclid::rem_euclid_f64(c - 1.0, l),
        _ => 0.0,
    }
}

// d into a bounce from the end to the loopback point and back, each w long.
#[tactic(auto, unfolding(crate::specs::Position::bounced))]
fn bounce(l: f64, w: f64, d: f64) -> f64
    ensures { result ≡ bounced l w d }
{
    if d < w { 1.0 - d } else { l + (d - w) }
}

// There and back once.
#[tactic(auto, unfolding(crate::specs::Position::back_once))]
fn back_once(c: f64) -> f64
    ensures { result ≡ back_once c }
{
    if c < 2.0 { 2.0 - c } else { 0.0 }
}

// Ping-pong goes there and back once, or bounces between the end and the loopback point.
fn ping_pong_once(c: f64, loopback: Option<f64>) -> f64
    ensures { result ≡ ping_pong_once c loopback }
{
    if c < 1.0 {
        return c;
    }
    match loopback {
        Some(l) if 1.0 - l > EPS => {
            let w = 1.0 - l;
            bounce(l, w, euclid::rem_euclid_f64(c - 1.0, 2.0 * w))
        }
        _ => back_once(c),
    }
}

// A One-shot, c from 0 up.
fn once(direction: Direction, c: f64, loopback: Option<f64>) -> f64
    ensures { result ≡ once_of direction c loopback }
{
    match direction {
        Direction::Forward => forward_once(c, loopback),
        Direction::Reverse => reverse_once(c, loopback),
        Direction::PingPong => ping_pong_once(c, loopback),
    }
}

// Where in the shape (0 to 1) position `c` cycles falls, by mode and direction, with a One-shot loopback at `loopback`, if any (0 to 1).
pub fn position(s: Settings, c: f64, loopback: Option<f64>) -> f64
    ensures { result ≡ position_of s.mode s.direction c loopback }
{
    match s.mode {
        Mode::Free | Mode::Restart => cyclic(s.direction, c),
        Mode::OneShot => once(s.direction, extrema::max(c, 0.0), loopback),
    }
}
