// What a run of calls by value writes, by hand.
use super::*;

// 5 is held, a call gives it and holds 7, and the next one gives that.
#[test]
fn each_call_gives_what_was_held(rt: HostRuntime) {
    let mut out = [0xEEu8; 5];
    assert_eq!(rt; run_calls::run::<Held>(&[5, 0, 7, 0, 9], &mut out), 3);
    assert_eq!(rt; out, [0, 5, 7, 0xEE, 0xEE]);
}

// The second call has a tag of no call.
#[test]
fn malformed_ends_with_255(rt: HostRuntime) {
    let mut out = [0xEEu8; 5];
    assert_eq!(rt; run(&[5, 0, 7, 1, 9], &mut out), 4);
    assert_eq!(rt; out, [0, 5, 0xFF, 1, 0xEE]);
}

// 16,384 takes three bytes, of which two are left: the 7 behind it would have room.
#[test]
fn no_room_ends(rt: HostRuntime) {
    let mut out = [0xEEu8; 3];
    assert_eq!(rt; run(&[0x80, 0x80, 1, 0, 7, 0, 9], &mut out), 1);
    assert_eq!(rt; out, [0, 0xEE, 0xEE]);
}

// One call, which is handed 300 and gives it behind a byte that stays, and holds 128.
#[test]
fn a_call_hands_on_what_it_holds(rt: HostRuntime) {
    let mut out = [0xEEu8; 3];
    let from = Next { at: 1, player: 300 };
    let Ok(turn) = Held::call(&[5, 0x80, 1], 0, from, &mut out, 1) else {
        panic!(rt; "the call is read");
    };
    assert_eq!(rt; out, [0xEE, 0xAC, 2]);
    assert_eq!(rt; turn.place, 3);
    let Some(next) = turn.next else {
        panic!(rt; "the run goes on");
    };
    assert_eq!(rt; (next.at, next.player), (3, 128));
}
