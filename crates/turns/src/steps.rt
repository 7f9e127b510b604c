// One turn of a sitting, by the bytes at hand.
ghost use Rattle.std.specs.Prelude.{◌≡◌, cond, suc, ◌+◌, ◌≤◌, ◌<◌, ◌^◌, eqb, length};
ghost use Rattle.player.specs.Player.{Valid};
ghost use Rattle.text.specs.Lines.{header};
ghost use Rattle.text.specs.Write.{Puts};
ghost use Rattle.record.specs.Records.{accepted_item};
ghost use Rattle.sittings.specs.Windows.{fault_line, playing, went, fault_turn, event_turn, playing_turn, closing_turn, stuck_turn, item_turn, last_text};
ghost use Rattle.sittings.specs.Windows as windows;
ghost use Rattle.turns.specs.Turns.{course_of, first_playback, stage_of, index_of, index_in, being_read, restarted, next_sitting, place_after, turn_room, settled, Going, Went, OneTurn, Ends, OneEnd, Running, SomeTurns};

use super::{Ended, Part, Playback, Sitting, Step, Turned};
use codes::{RestartCodes, TransportCodes};
use number::Fault;
use player::Player;
use sittings::{Event, moved_on, read_event};

// What a turn prints at most: 4,096 lines of 39 bytes.
const TURN_ROOM: usize = 159744;

// The place after a text that was written.
fn place_after(w: Option<usize>, place: usize) -> usize
    ensures { result ≡ place_after w place }
{
    w.unwrap_or(place)
}

// So many bytes are taken, what is printed ends at `place`, and the stage ends or goes on.
fn go(ended: Option<Ended>, taken: usize, place: usize) -> Turned
    ensures { result ≡ record { ended = ended; taken = taken; place = place } }
{
    Turned {
        ended,
        taken,
        place,
    }
}

// The line of a fault ends the sitting.
fn fail(part: Part, n: u8, taken: usize, out: &mut [u8], place: usize) -> Turned
    requires { place + turn_room ≤ length out.old }
    ensures { Ends (index_in part) (went (fault_line (being_read part) n) taken windows.no_more) out.old place result out.new }
{
    let w = part.write_fault(n, out, place);
    go(Some(Ended::NoMore), taken, place_after(w, place))
}

// A fault in the item or in the event that is read from `s`: by its number, which the sheet prints and which both kinds of refusal have.
fn fault_turn(part: Part, s: &[u8], n: u8, out: &mut [u8], place: usize) -> Option<Turned>
    requires { place + turn_room ≤ length out.old }
    ensures { OneEnd (index_in part) (fault_turn (being_read part) s.now n) out.old place result out.new }
{
    let len = s.len();
    if n == 12 {
        if part.most() < len {
            return Some(go(Some(Ended::Stuck(part)), len, place));
        }
        return None;
    }
    Some(fail(part, n, len, out, place))
}

// An item that was accepted, of which so many bytes are taken: the header is written, and the sitting goes on with the item's player from the item's transport.
fn start_turn(
    t: &mut Sitting,
    player: Player,
    transport: TransportCodes,
    taken: usize,
    out: &mut [u8],
    place: usize,
) -> Turned
    requires { (place + turn_room ≤ length out.old) × Valid player }
    ensures { Went 0 (went header taken (playing (course_of (first_playback player transport)))) out.old place t.new result out.new }
{
    let w = text::write_header(out, place);
    let waiting = RestartCodes { code: 0, frame: 0 };
    *t = Sitting::Playing(Playback {
        player,
        transport,
        waiting,
        index: 0,
    });
    go(None, taken, place_after(w, place))
}

// Goes on after an event.
fn go_on(p: &mut Playback, taken: usize, place: usize) -> Turned
    requires { suc p.old.index < 2 ^ 64 }
    ensures { (result ≡ record { ended = None; taken = taken; place = place }) × (Sitting.Playing p.new ≡ next_sitting p.old) }
{
    p.index += 1;
    go(None, taken, place)
}

// A block is played, and its lines are written.
fn block_turn(
    p: &mut Playback,
    frames: u64,
    taken: usize,
    x: &mut [f32],
    y: &mut [f32],
    out: &mut [u8],
    place: usize,
) -> Turned
    requires { Going (Sitting.Playing p.old) out.old place × (length x.old ≡ 4096) × (length y.old ≡ 4096) }
    ensures { Went p.old.index (event_turn (course_of p.old) (Event.Block frames) taken) out.old place (Sitting.Playing p.new) result out.new }
{
    let first = p.player.deck.played;
    match player::play(p.player, p.transport, frames, p.waiting, x, y) {
        Ok(r) => {
            let n = frames as usize;
            let w = text::write_lines(out, place, first, &x[..n], &y[..n]);
            let none = RestartCodes { code: 0, frame: 0 };
            p.player.deck = r.deck;
            p.transport = moved_on(p.transport, frames);
            p.waiting = none;
            go_on(p, taken, place_after(w, place))
        }
        Err(question) => fail(Part::Event(p.index), question.number(), taken, out, place),
    }
}

// A restart waits for the next block.
fn restart_turn(p: &mut Playback, frame: u64, taken: usize, place: usize) -> Turned
    requires { suc p.old.index < 2 ^ 64 }
    ensures { (result ≡ record { ended = None; taken = taken; place = place }) × (Sitting.Playing p.new ≡ next_sitting (restarted p.old frame)) }
{
    p.waiting = RestartCodes { code: 1, frame };
    go_on(p, taken, place)
}

// A bus is moved.
fn bus_turn(
    p: &mut Playback,
    bus: u64,
    value: f32,
    taken: usize,
    out: &mut [u8],
    place: usize,
) -> Turned
    requires { Going (Sitting.Playing p.old) out.old place }
    ensures { Went p.old.index (event_turn (course_of p.old) (Event.Bus bus value) taken) out.old place (Sitting.Playing p.new) result out.new }
{
    match player::set_bus(p.player, bus, value) {
        Ok(player) => {
            p.player = player;
            go_on(p, taken, place)
        }
        Err(question) => fail(Part::Event(p.index), question.number(), taken, out, place),
    }
}

// An event that takes so many bytes.
fn event_turn(
    p: &mut Playback,
    e: Event,
    taken: usize,
    x: &mut [f32],
    y: &mut [f32],
    out: &mut [u8],
    place: usize,
) -> Turned
    requires { Going (Sitting.Playing p.old) out.old place × (length x.old ≡ 4096) × (length y.old ≡ 4096) }
    ensures { Went p.old.index (event_turn (course_of p.old) e taken) out.old place (Sitting.Playing p.new) result out.new }
{
    match e {
        Event::Block(frames) => block_turn(p, frames, taken, x, y, out, place),
        Event::Restart(frame) => restart_turn(p, frame, taken, place),
        Event::Bus(bus, value) => bus_turn(p, bus, value, taken, out, place),
        Event::End => go(Some(Ended::Closing(p.index)), taken, place),
    }
}

// Before an event.
fn playing_turn(
    p: &mut Playback,
    s: &[u8],
    x: &mut [f32],
    y: &mut [f32],
    out: &mut [u8],
    place: usize,
) -> Option<Turned>
    requires { Going (Sitting.Playing p.old) out.old place × (length x.old ≡ 4096) × (length y.old ≡ 4096) }
    ensures { OneTurn p.old.index (playing_turn (course_of p.old) s.now) (Sitting.Playing p.old) out.old place result (Sitting.Playing p.new) out.new }
{
    if s.len() == 0 {
        return None;
    }
    match read_event(s, 0) {
        Ok((event, taken)) => Some(event_turn(p, event, taken, x, y, out, place)),
        Err(fault) => fault_turn(Part::Event(p.index), s, fault.number(), out, place),
    }
}

// After the end.
fn closing_turn(index: u64, s: &[u8], out: &mut [u8], place: usize) -> Option<Turned>
    requires { place + turn_room ≤ length out.old }
    ensures { OneEnd index (closing_turn index s.now) out.old place result out.new }
{
    let len = s.len();
    if len == 0 {
        return None;
    }
    Some(fail(Part::Event(index), 14, len, out, place))
}

// In a number that is too long.
fn stuck_turn(part: Part, s: &[u8], out: &mut [u8], place: usize) -> Option<Turned>
    requires { place + turn_room ≤ length out.old }
    ensures { OneEnd (index_in part) (stuck_turn (being_read part) s.now) out.old place result out.new }
{
    let len = s.len();
    if len == 0 {
        return None;
    }
    match number::read(s, 0) {
        Err(Fault::CutShort) => Some(go(Some(Ended::Stuck(part)), len, place)),
        Err(Fault::BadNumber) => Some(fail(part, 13, len, out, place)),
        Ok(_) => Some(fail(part, 13, len, out, place)),
    }
}

// Before the item.
fn open_turn(t: &mut Sitting, s: &[u8], out: &mut [u8], place: usize) -> Option<Turned>
    requires { place + turn_room ≤ length out.old }
    ensures { OneTurn 0 (item_turn s.now (accepted_item s.now 0)) t.old out.old place result t.new out.new }
{
    match item_reader::read_accepted(s, 0) {
        Ok((item, taken)) => {
            let transport = record::transport(item);
            let player = item_player::player_of(item);
            Some(start_turn(t, player, transport, taken, out, place))
        }
        Err(refusal) => fault_turn(Part::Item, s, refusal.number(), out, place),
    }
}

// One turn, where the bytes at hand decide one: with none, more of them are wanted, and nothing has changed.
#[tactic(auto, unfolding(sittings::specs::Windows::turn))]
fn turn(
    t: &mut Sitting,
    s: &[u8],
    x: &mut [f32],
    y: &mut [f32],
    out: &mut [u8],
    place: usize,
) -> Option<Turned>
    requires { Going t.old out.old place × (length x.old ≡ 4096) × (length y.old ≡ 4096) }
    ensures { OneTurn (index_of t.old) (windows.turn (stage_of t.old) s.now) t.old out.old place result t.new out.new }
{
    match t {
        Sitting::Opening => open_turn(t, s, out, place),
        Sitting::Playing(p) => playing_turn(p, s, x, y, out, place),
        Sitting::Closing(index) => closing_turn(*index, s, out, place),
        Sitting::Stuck(part) => stuck_turn(*part, s, out, place),
        Sitting::NoMore => Some(go(None, s.len(), place)),
    }
}

// Puts the sitting into the stage that a turn ends in.
fn settle(t: &mut Sitting, ended: Option<Ended>)
    ensures { t.new ≡ settled ended t.old }
{
    match ended {
        Some(Ended::Closing(index)) => *t = Sitting::Closing(index),
        Some(Ended::Stuck(part)) => *t = Sitting::Stuck(part),
        Some(Ended::NoMore) => *t = Sitting::NoMore,
        None => {}
    }
}

// Turns by the bytes at hand, as long as they decide and `out` has room for what a turn may print. How far one goes is known only after it, so this is no `for`.
pub fn take_turns(t: Sitting, s: &[u8], x: &mut [f32], y: &mut [f32], out: &mut [u8]) -> Step
    requires { Running t s.now out.old × (length x.old ≡ 4096) × (length y.old ≡ 4096) }
    ensures { SomeTurns t s.now out.old result out.new }
{
    let mut sitting = t;
    let mut at: usize = 0;
    let mut place: usize = 0;
    while at < s.len() {
        if out.len() - place < TURN_ROOM {
            return Step {
                sitting,
                taken: at,
                written: place,
                full: true,
            };
        }
        let Some(r) = turn(&mut sitting, &s[at..], x, y, out, place) else {
            break;
        };
        settle(&mut sitting, r.ended);
        at += r.taken;
        place = r.place;
    }
    Step {
        sitting,
        taken: at,
        written: place,
        full: false,
    }
}

// The fault of an event that the input's end cuts off: it is missing where there is no byte of it.
fn last_fault(len: usize) -> u8
    ensures { result ≡ cond (eqb len 0) 18 12 }
{
    if len == 0 {
        return 18;
    }
    12
}

// Writes the last line, of a fault, and answers how many bytes it is.
fn last_line(part: Part, n: u8, out: &mut [u8]) -> usize
    requires { turn_room ≤ length out.old }
    ensures line { Puts out.old 0 (fault_line (being_read part) n) result out.new }
    ensures room { result ≤ length out.old }
{
    let w = part.write_fault(n, out, 0);
    place_after(w, 0)
}

// Writes what is printed last, where the bytes `s` are at hand and there are no more. Answers how many bytes it is.
pub fn last_text(t: Sitting, s: &[u8], out: &mut [u8]) -> usize
    requires { turn_room ≤ length out.old }
    ensures text { Puts out.old 0 (last_text (stage_of t) s.now) result out.new }
    ensures room { result ≤ length out.old }
{
    match t {
        Sitting::Opening => last_line(Part::Item, 12, out),
        Sitting::Playing(p) => last_line(Part::Event(p.index), last_fault(s.len()), out),
        Sitting::Closing(_) => 0,
        Sitting::Stuck(part) => last_line(part, 12, out),
        Sitting::NoMore => 0,
    }
}
