//! Plain stations, with the answers that follow from what they hold.

ghost use Rattle.std.specs.Prelude.{◌<◌, ◌≤◌};

use lid_station::{InLook, OutLook, PlainBoard, Stations};
use std::alloc::Global;

/// A step at station 0, and what its look answers.
#[derive(Clone, Copy)]
enum Step {
    /// Looks for room, and puts the token where there is room.
    Offer(u32, OutLook),
    /// Looks for a token, and takes it where there is one.
    Receive(InLook),
}

/// Looks for room at station 0, and puts the token where there is room.
fn offer(board: &mut PlainBoard, token: u32) -> Option<OutLook> {
    if board.pairs.is_empty() || board.pairs[0].put >= 1000 || token >= 1 << 31 {
        return None;
    }
    let look = board.look_out(0);
    if let OutLook::Room = look {
        board.put(0, token);
    }
    Some(look)
}

/// Looks for a token at station 0, and takes it where there is one.
fn receive(board: &mut PlainBoard) -> Option<InLook> {
    if board.pairs.is_empty() {
        return None;
    }
    let look = board.look_in(0);
    match look {
        InLook::Token(_) => Some(InLook::Token(board.take(0))),
        InLook::Void(word) => Some(InLook::Void(word)),
    }
}

fn is_as_told(board: &mut PlainBoard, step: Step) -> bool {
    match step {
        Step::Offer(token, look) => offer(board, token) == Some(look),
        Step::Receive(look) => receive(board) == Some(look),
    }
}

/// How many steps are as they are told, before the first that is not.
fn told_before_other(board: &mut PlainBoard, steps: &[Step]) -> usize {
    for (number, step) in steps.iter().enumerate() {
        if !is_as_told(board, *step) {
            return number;
        }
    }
    steps.len()
}

/// A station of 3 places that starts with the token 5.
static THREE: [Step; 10] = [
    Step::Offer(6, OutLook::Room),
    Step::Offer(7, OutLook::Room),
    Step::Offer(8, OutLook::Stop(0x8000_0006_8000_0005)),
    Step::Receive(InLook::Token(5)),
    Step::Offer(8, OutLook::Room),
    Step::Offer(9, OutLook::Stop(0x8000_0006_8000_0008)),
    Step::Receive(InLook::Token(6)),
    Step::Offer(9, OutLook::Room),
    Step::Offer(10, OutLook::Stop(0x8000_0007)),
    Step::Receive(InLook::Token(7)),
];

/// A station of 4 places that starts with the token 5.
static FOUR: [Step; 7] = [
    Step::Offer(6, OutLook::Room),
    Step::Offer(7, OutLook::Room),
    Step::Offer(8, OutLook::Room),
    Step::Offer(9, OutLook::Stop(0x8000_0006_8000_0005)),
    Step::Receive(InLook::Token(5)),
    Step::Offer(9, OutLook::Room),
    Step::Offer(10, OutLook::Stop(0x8000_0006_8000_0009)),
];

/// A station of 5 places that starts with the token 5. The next token of the last offer would go to
/// place 4, which has the last word alone.
static FIVE: [Step; 17] = [
    Step::Offer(6, OutLook::Room),
    Step::Offer(7, OutLook::Room),
    Step::Offer(8, OutLook::Room),
    Step::Offer(9, OutLook::Room),
    Step::Offer(10, OutLook::Stop(0x8000_0006_8000_0005)),
    Step::Receive(InLook::Token(5)),
    Step::Offer(10, OutLook::Room),
    Step::Offer(11, OutLook::Stop(0x8000_0006_8000_000a)),
    Step::Receive(InLook::Token(6)),
    Step::Offer(11, OutLook::Room),
    Step::Offer(12, OutLook::Stop(0x8000_0008_8000_0007)),
    Step::Receive(InLook::Token(7)),
    Step::Offer(12, OutLook::Room),
    Step::Offer(13, OutLook::Stop(0x8000_0008_8000_000c)),
    Step::Receive(InLook::Token(8)),
    Step::Offer(13, OutLook::Room),
    Step::Offer(14, OutLook::Stop(0x8000_0009)),
];

/// A station of 2 places that starts empty.
static EMPTY: [Step; 3] = [
    Step::Receive(InLook::Void(0)),
    Step::Offer(2_147_483_647, OutLook::Room),
    Step::Receive(InLook::Token(2_147_483_647)),
];

/// How many steps are as they are told at a station that starts with the token 5.
fn told_when_full(alloc: Global, cap: u32, steps: &[Step]) -> Option<usize>
    requires two { 2 ≤ cap }
    requires few { cap ≤ 16 }
{
    match PlainBoard::start(alloc, &[Some(5)], &[cap]) {
        Ok(mut board) => Some(told_before_other(&mut board, steps)),
        Err(_) => None,
    }
}

/// How many steps are as they are told at a station of 2 places that starts empty.
fn told_when_empty(alloc: Global) -> Option<usize> {
    match PlainBoard::start(alloc, &[None, Some(5)], &[2, 2]) {
        Ok(mut board) => Some(told_before_other(&mut board, &EMPTY)),
        Err(_) => None,
    }
}

#[test]
fn stations_tell_what_they_hold(rt: HostRuntime) {
    assert_eq!(rt; told_when_full(rt.alloc(), 3, &THREE), Some(10));
    assert_eq!(rt; told_when_full(rt.alloc(), 4, &FOUR), Some(7));
    assert_eq!(rt; told_when_full(rt.alloc(), 5, &FIVE), Some(17));
    assert_eq!(rt; told_when_empty(rt.alloc()), Some(3));
}

/// Whether 16 tokens go into an empty station of 16 places, no more, where this word is told, and
/// come out again.
fn goes_round(board: &mut PlainBoard, first: u32, full: u64) -> bool
    requires { first < 1000 }
{
    for token in first..first + 16 {
        if offer(board, token) != Some(OutLook::Room) {
            return false;
        }
    }
    if offer(board, 99) != Some(OutLook::Stop(full)) {
        return false;
    }
    for token in first..first + 16 {
        if receive(board) != Some(InLook::Token(token)) {
            return false;
        }
    }
    receive(board) == Some(InLook::Void(0))
}

/// Whether a station of 16 places goes round twice.
fn goes_round_twice(alloc: Global) -> bool {
    match PlainBoard::start(alloc, &[None], &[16]) {
        Ok(mut board) => {
            goes_round(&mut board, 0, 0x8000_0001_8000_0000)
                && goes_round(&mut board, 100, 0x8000_0065_8000_0064)
        }
        Err(_) => false,
    }
}

#[test]
fn sixteen_places_go_round(rt: HostRuntime) {
    assert!(rt; goes_round_twice(rt.alloc()));
}
