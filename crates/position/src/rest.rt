// When a One-shot has finished (document 02, W-204): its position has come to rest.
ghost use Rattle.std.specs.Prelude.{◌≡◌};
ghost use Rattle.position.specs.Position.{loop_length};
ghost use Rattle.position.specs.Rest.{loops_back, loopback_in_force, rest_from, finished_from, finished_of};

use super::place::EPS;
use settings::{Direction, LfoType, Mode, Settings};

// How long the loop from a loopback point at l is.
fn loop_length(direction: Direction, l: f64) -> f64
    ensures { result ≡ loop_length direction l }
{
    match direction {
        Direction::Forward => 1.0 - l,
        Direction::Reverse => l,
        Direction::PingPong => 1.0 - l,
    }
}

// Whether there is a loop.
fn loops_back(direction: Direction, loopback: Option<f64>) -> bool
    ensures { result ≡ loops_back direction loopback }
{
    match loopback {
        None => false,
        Some(l) => loop_length(direction, l) > EPS,
    }
}

// Only a drawn shape loops back.
#[tactic(auto, unfolding(crate::specs::Rest::loopback_in_force))]
fn loopback_in_force(s: Settings, loopback: Option<f64>) -> bool
    ensures { result ≡ loopback_in_force s.kind s.direction loopback }
{
    match s.kind {
        LfoType::Drawn => loops_back(s.direction, loopback),
        LfoType::Path => false,
        LfoType::Lorenz => false,
        LfoType::Rossler => false,
        LfoType::SampleAndHold => false,
    }
}

// The count from which a position that does not loop stays where it is.
fn rest_from(direction: Direction) -> f64
    ensures { result ≡ rest_from direction }
{
    match direction {
        Direction::Forward => 1.0,
        Direction::Reverse => 1.0,
        Direction::PingPong => 2.0,
    }
}

// The count from which a One-shot with no loopback in force has finished, a generator after one cycle in every direction.
#[tactic(auto, unfolding(crate::specs::Rest::finished_from))]
fn finished_from(s: Settings) -> f64
    ensures { result ≡ finished_from s.kind s.direction }
{
    match s.kind {
        LfoType::Drawn => rest_from(s.direction),
        LfoType::Path => rest_from(s.direction),
        LfoType::Lorenz => 1.0,
        LfoType::Rossler => 1.0,
        LfoType::SampleAndHold => 1.0,
    }
}

// Whether a block whose last frame has this swung cycle count ends a One-shot.
#[tactic(auto, unfolding(crate::specs::Rest::finished_of))]
pub fn finished(s: Settings, loopback: Option<f64>, count: f64) -> bool
    ensures { result ≡ finished_of s.kind s.mode s.direction loopback count }
{
    match s.mode {
        Mode::Free => false,
        Mode::Restart => false,
        Mode::OneShot => !loopback_in_force(s, loopback) && count >= finished_from(s),
    }
}
