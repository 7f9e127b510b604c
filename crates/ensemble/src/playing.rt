// The voices of an ensemble, a lent list of records, one changed per turn.
ghost use Rattle.ensemble.specs.Ensemble.{AllReady, TurnReady, Turns, PlaysAll};

use super::single::played;
use super::{BlockPage, Member};

// The turn of voice v.
pub fn turn(voices: &mut [Member], v: usize, p: BlockPage, x: &mut [f32], y: &mut [f32])
    requires { TurnReady p v voices.old x.old y.old }
    ensures { Turns p v voices.old x.old y.old voices.new x.new y.new }
{
    voices[v] = played(p, voices[v], v, x, y);
}

// A turn for each of the page's voices.
pub fn turns(voices: &mut [Member], p: BlockPage, x: &mut [f32], y: &mut [f32])
    requires { AllReady p voices.old x.old y.old }
    ensures { PlaysAll p voices.old x.old y.old voices.new x.new y.new }
{
    for v in 0..p.voices {
        turn(voices, v, p, x, y);
    }
}

// The voices by value, a fixed number of places, since there is no heap: their list is lent to `turns`, and comes back.
pub fn play_members(
    mut list: [Member; 16],
    p: BlockPage,
    x: &mut [f32],
    y: &mut [f32],
) -> [Member; 16]
    requires { AllReady p list x.old y.old }
    ensures { PlaysAll p list x.old y.old result x.new y.new }
{
    turns(&mut list, p, x, y);
    list
}
