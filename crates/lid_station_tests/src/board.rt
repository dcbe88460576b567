//! Boards, on one thread and shared by threads: what the looks answer, and what is carried.

ghost use Rattle.std.specs.Prelude.{◌≡◌, ℕ, ◌^◌, ◌<◌, ◌≤◌, List, [], ◌∷◌, replicate, option_map, IfSome, IsTrue, length, Some, slice_get};
ghost use Rattle.std.specs.List.{All};
ghost use Rattle.std.specs.Thread.{IsSync};
ghost use Rattle.lid_station.specs.Boards.{fill, IsServed};
ghost use Rattle.lid_board.specs.Owners.{IsOf, IsOwned, ends_of, start_ends};
ghost use Rattle.lid_board.specs.Parting.{side_number};
ghost use Rattle.lid_board.specs.Relation.{stream_of};
ghost use Rattle.lid_board.specs.Standing.{AreStreamsOf};
ghost use Rattle.lid_board.specs.Views.{at};

use lid_board::{Attended, Board, Course, Hand};
use lid_station::{End, InLook, OutLook, PlainBoard, Side, Stations};
use std::alloc::Global;
use std::thread::{Threads, join};

/// One stream for each of some stations.
#[derive(Clone, Copy)]
struct Same {
    stations: usize,
    stream: &'static [u32],
}

impl Course for Same {
    ghost streams = { λ c. replicate c.stations c.stream.now };
}

/// Whether a stream has tokens of 31 bits, and some.
fn is_stream(stream: &[u32]) -> bool
    ensures small { IsTrue result → All (λ token. token < 2 ^ 31) stream.now }
    ensures some { IsTrue result → 0 < length stream.now }
{
    !stream.is_empty() && stream.iter().all(|token| *token < 1 << 31)
}

/// Starts stations of one stream, each with its first token.
fn start_same(alloc: Global, cap: u32, course: &Same) -> Option<(Board, Hand)>
    requires stations { course.now.stations < 2 ^ 32 }
    requires two { 2 ≤ cap }
    requires few { cap ≤ 16 }
    ensures of { IfSome result (λ r. IsOf r.1 r.0) }
    ensures stands { IfSome result (λ r. AreStreamsOf (start_ends r.0) (λ _. course.now.stream.now)) }
{
    if !is_stream(course.stream) {
        return None;
    }
    let first = course.stream[0];
    let Ok(firsts) = vec![in alloc; Some(first); course.stations] else {
        return None;
    };
    let Ok(caps) = vec![in alloc; cap; course.stations] else {
        return None;
    };
    match Board::start(alloc, firsts.as_slice(), caps.as_slice(), course) {
        Ok(started) => Some(started),
        Err(_) => None,
    }
}

/// The token of a number of a stream, where there is one, of 31 bits.
fn token_of(stream: &[u32], number: u64) -> Option<u32>
    ensures next { IfSome result (λ token. slice_get stream.now number ≡ Some token) }
    ensures small { IfSome result (λ token. token < 2 ^ 31) }
{
    if number >= stream.len() as u64 {
        return None;
    }
    let token = stream[number as usize];
    if token >= 1 << 31 {
        return None;
    }
    Some(token)
}

/// How many tokens passed an end; none where another hand has it.
fn count_at(hand: &Hand, station: u32, side: Side) -> Option<u64>
    ensures { result ≡ option_map (λ h. h.passed) (at (ends_of hand.now) (side_number side station)) }
{
    hand.passed(End { station, side })
}

/// Looks for room at a station, and puts the stream's next token where there are both.
fn offer(board: &Board, hand: &mut Hand, station: u32, stream: &[u32]) -> Option<OutLook>
    requires of { IsOf hand.old board.now }
    requires stream { fill station < length (start_ends board.now) → stream_of (start_ends board.now) station ≡ stream.now }
    ensures of { IsOf hand.new board.now }
    ensures owned { (end : ℕ) → IsOwned (ends_of hand.old) end → IsOwned (ends_of hand.new) end }
{
    let Some(passed) = count_at(hand, station, Side::Fill) else {
        return None;
    };
    let next = token_of(stream, passed);
    let mut stations = Attended {
        board,
        hand: &mut *hand,
    };
    let look = stations.look_out(station);
    let OutLook::Room = look else {
        return Some(look);
    };
    let Some(token) = next else {
        return Some(look);
    };
    stations.put(station, token);
    Some(look)
}

/// Looks for a token at a station, and takes it where there is one: what the look found, and what
/// was taken.
fn receive(board: &Board, hand: &mut Hand, station: u32) -> Option<(InLook, Option<u32>)>
    requires { IsOf hand.old board.now }
    ensures of { IsOf hand.new board.now }
    ensures owned { (end : ℕ) → IsOwned (ends_of hand.old) end → IsOwned (ends_of hand.new) end }
{
    let Some(_passed) = count_at(hand, station, Side::Drain) else {
        return None;
    };
    let mut stations = Attended {
        board,
        hand: &mut *hand,
    };
    let look = stations.look_in(station);
    let InLook::Token(_) = look else {
        return Some((look, None));
    };
    let token = stations.take(station);
    Some((look, Some(token)))
}

/// A step at a station, and what its look answers.
#[derive(Clone, Copy)]
enum Step {
    /// Looks for room, and puts the stream's next token where there are both.
    Offer(OutLook),
    /// Looks for a token, and takes it where there is one.
    Receive(InLook),
    /// Looks for a token at an end that another hand has.
    ReceiveElsewhere,
}

/// What a look and a taking give where the look answers this.
fn received(look: InLook) -> (InLook, Option<u32>) {
    match look {
        InLook::Token(token) => (look, Some(token)),
        InLook::Void(_) => (look, None),
    }
}

fn is_as_told(board: &Board, hand: &mut Hand, station: u32, stream: &[u32], step: Step) -> bool
    requires of { IsOf hand.old board.now }
    requires stream { fill station < length (start_ends board.now) → stream_of (start_ends board.now) station ≡ stream.now }
    ensures of { IsOf hand.new board.now }
    ensures owned { (end : ℕ) → IsOwned (ends_of hand.old) end → IsOwned (ends_of hand.new) end }
{
    match step {
        Step::Offer(look) => offer(board, hand, station, stream) == Some(look),
        Step::Receive(look) => receive(board, hand, station) == Some(received(look)),
        Step::ReceiveElsewhere => receive(board, hand, station) == None,
    }
}

/// The number of the first step that is not as it is told, and the number of steps where all are.
fn first_other(
    board: &Board,
    hand: &mut Hand,
    station: u32,
    stream: &[u32],
    steps: &[Step],
) -> usize
    requires of { IsOf hand.old board.now }
    requires stream { fill station < length (start_ends board.now) → stream_of (start_ends board.now) station ≡ stream.now }
    ensures of { IsOf hand.new board.now }
    ensures owned { (end : ℕ) → IsOwned (ends_of hand.old) end → IsOwned (ends_of hand.new) end }
{
    for (number, step) in steps.iter().enumerate() {
        if !is_as_told(board, hand, station, stream, *step) {
            return number;
        }
    }
    steps.len()
}

/// A station of 3 places that starts with the token 5 of the stream 5, 6, 7, 8.
static THREE: [Step; 6] = [
    Step::Offer(OutLook::Room),
    Step::Offer(OutLook::Room),
    Step::Offer(OutLook::Stop(0x8000_0006_8000_0005)),
    Step::Receive(InLook::Token(5)),
    Step::Offer(OutLook::Room),
    Step::Offer(OutLook::Stop(0x8000_0006_8000_0008)),
];

/// A station of 4 places that starts with the token 5 of the stream 5 to 10. The next token of the
/// last offer would go to place 2, so the second word is told.
static FOUR: [Step; 10] = [
    Step::Offer(OutLook::Room),
    Step::Offer(OutLook::Room),
    Step::Offer(OutLook::Room),
    Step::Offer(OutLook::Stop(0x8000_0006_8000_0005)),
    Step::Receive(InLook::Token(5)),
    Step::Offer(OutLook::Room),
    Step::Offer(OutLook::Stop(0x8000_0006_8000_0009)),
    Step::Receive(InLook::Token(6)),
    Step::Offer(OutLook::Room),
    Step::Offer(OutLook::Stop(0x8000_0008_8000_0007)),
];

/// A station of 5 places that starts with the token 5 of the stream 5 to 13. The next token of the
/// last offer would go to place 4, which has the last word alone.
static FIVE: [Step; 17] = [
    Step::Offer(OutLook::Room),
    Step::Offer(OutLook::Room),
    Step::Offer(OutLook::Room),
    Step::Offer(OutLook::Room),
    Step::Offer(OutLook::Stop(0x8000_0006_8000_0005)),
    Step::Receive(InLook::Token(5)),
    Step::Offer(OutLook::Room),
    Step::Offer(OutLook::Stop(0x8000_0006_8000_000a)),
    Step::Receive(InLook::Token(6)),
    Step::Offer(OutLook::Room),
    Step::Offer(OutLook::Stop(0x8000_0008_8000_0007)),
    Step::Receive(InLook::Token(7)),
    Step::Offer(OutLook::Room),
    Step::Offer(OutLook::Stop(0x8000_0008_8000_000c)),
    Step::Receive(InLook::Token(8)),
    Step::Offer(OutLook::Room),
    Step::Offer(OutLook::Stop(0x8000_0009)),
];

/// A full station of 16 places that started with the token 5 of the stream 5 to 21.
static SIXTEEN: [Step; 4] = [
    Step::Offer(OutLook::Stop(0x8000_0006_8000_0005)),
    Step::Receive(InLook::Token(5)),
    Step::Offer(OutLook::Room),
    Step::Offer(OutLook::Stop(0x8000_0006_8000_0015)),
];

/// How many of the steps are as they are told, at a station that starts with the stream's first
/// token.
fn told_at(alloc: Global, cap: u32, stream: &'static [u32], steps: &[Step]) -> Option<usize>
    requires two { 2 ≤ cap }
    requires few { cap ≤ 16 }
{
    let course = Same {
        stations: 1,
        stream,
    };
    let Some((board, mut hand)) = start_same(alloc, cap, &course) else {
        return None;
    };
    Some(first_other(&board, &mut hand, 0, stream, steps))
}

#[test]
fn stations_tell_what_they_hold(rt: HostRuntime) {
    let three = told_at(rt.alloc(), 3, &[5, 6, 7, 8], &THREE);
    assert_eq!(rt; three, Some(6));
    let four = told_at(rt.alloc(), 4, &[5, 6, 7, 8, 9, 10], &FOUR);
    assert_eq!(rt; four, Some(10));
}

/// How many tokens passed into a station of 16 places after fifteen were offered, and how many steps
/// are as they are told then.
fn told_of_sixteen(alloc: Global) -> Option<(Option<u64>, usize)> {
    let course = Same {
        stations: 1,
        stream: &[
            5, 6, 7, 8, 9, 10, 11, 12, 13, 14, 15, 16, 17, 18, 19, 20, 21,
        ],
    };
    let Some((board, hand)) = start_same(alloc, 16, &course) else {
        return None;
    };
    let mut hand = fill_some(&board, hand, 15, course.stream);
    let filled = count_at(&hand, 0, Side::Fill);
    let told = first_other(&board, &mut hand, 0, course.stream, &SIXTEEN);
    Some((filled, told))
}

#[test]
fn larger_stations_tell_what_they_hold(rt: HostRuntime) {
    let five = told_at(rt.alloc(), 5, &[5, 6, 7, 8, 9, 10, 11, 12, 13], &FIVE);
    assert_eq!(rt; five, Some(17));
    assert_eq!(rt; told_of_sixteen(rt.alloc()), Some((Some(16), 4)));
}

/// How many steps are as they are told where a hand without ends is split off and joined again: at
/// that hand, at the other, and there after the joining.
fn told_without_ends(alloc: Global) -> Option<(usize, usize, usize)> {
    let course = Same {
        stations: 1,
        stream: &[5, 6],
    };
    let Some((board, mut hand)) = start_same(alloc, 2, &course) else {
        return None;
    };
    let Ok(mut none) = board.split(&mut hand, &[]) else {
        return None;
    };
    let stream = course.stream;
    let there = first_other(&board, &mut none, 0, stream, &[Step::ReceiveElsewhere]);
    let here = first_other(
        &board,
        &mut hand,
        0,
        stream,
        &[Step::Receive(InLook::Token(5))],
    );
    board.join(&mut hand, none);
    let after = first_other(
        &board,
        &mut hand,
        0,
        stream,
        &[Step::Receive(InLook::Void(0))],
    );
    Some((there, here, after))
}

#[test]
fn no_end_goes_to_another_hand(rt: HostRuntime) {
    assert_eq!(rt; told_without_ends(rt.alloc()), Some((1, 1, 1)));
}

/// Streams worked by hand: `1` for station 0, and `0 1` for station 1.
#[derive(Drop)]
struct Worked {}

impl Course for Worked {
    ghost streams = { λ _. (1 ∷ []) ∷ (0 ∷ 1 ∷ []) ∷ [] };
}

/// A board that threads may share, and a hand that may go to another.
fn cross<B: Sync, H: Send>(_board: &B, hand: H) -> H
    ensures { result ≡ hand }
{
    hand
}

/// Gives an end of a hand to a new one, where the hand has it.
fn part(board: &Board, hand: &mut Hand, end: End) -> Option<Hand>
    requires of { IsOf hand.old board.now }
    ensures of { IsOf hand.new board.now }
    ensures part { IfSome result (λ new. IsOf new board.now) }
{
    let Some(_passed) = hand.passed(end) else {
        return None;
    };
    match board.split(hand, &[end]) {
        Ok(new) => Some(new),
        Err(_) => None,
    }
}

/// Station 0 of the worked streams, at its drained end.
static LONE: [Step; 2] = [
    Step::Receive(InLook::Token(1)),
    Step::Receive(InLook::Void(0)),
];

/// Station 1 of the worked streams, before its drained end goes to another hand.
static BEFORE: [Step; 2] = [
    Step::Offer(OutLook::Room),
    Step::Offer(OutLook::Stop(0x8000_0001_8000_0000)),
];

/// How many steps are as they are told at station 1, whose drained end goes to another hand for a
/// while.
fn told_by_two_hands(board: &Board, hand: &mut Hand) -> Option<usize>
    requires of { IsOf hand.old board.now }
    requires stream { stream_of (start_ends board.now) 1 ≡ 0 ∷ 1 ∷ [] }
    ensures of { IsOf hand.new board.now }
{
    let before = first_other(board, hand, 1, &[0, 1], &BEFORE);
    let end = End {
        station: 1,
        side: Side::Drain,
    };
    let Some(drainer) = part(board, hand, end) else {
        return None;
    };
    let mut drainer = cross(board, drainer);
    let there = first_other(
        board,
        &mut drainer,
        1,
        &[0, 1],
        &[Step::Receive(InLook::Token(0))],
    );
    let here = first_other(board, hand, 1, &[0, 1], &[Step::ReceiveElsewhere]);
    board.join(hand, drainer);
    let after = first_other(board, hand, 1, &[0, 1], &[Step::Offer(OutLook::Room)]);
    Some(
        before
            .saturating_add(there)
            .saturating_add(here)
            .saturating_add(after),
    )
}

fn told_of_worked(alloc: Global) -> Option<(usize, usize)> {
    let Ok((board, mut hand)) = Board::start(alloc, &[Some(1), Some(0)], &[2, 2], &Worked {}) else {
        return None;
    };
    let lone = first_other(&board, &mut hand, 0, &[1], &LONE);
    match told_by_two_hands(&board, &mut hand) {
        Some(told) => Some((lone, told)),
        None => None,
    }
}

#[test]
fn an_end_goes_to_another_hand_and_back(rt: HostRuntime) {
    assert_eq!(rt; told_of_worked(rt.alloc()), Some((2, 5)));
}

/// Offers tokens to station 0 so many times.
fn fill_some(board: &Board, mut hand: Hand, tries: u32, stream: &[u32]) -> Hand
    requires of { IsOf hand board.now }
    requires stands { AreStreamsOf (start_ends board.now) (λ _. stream.now) }
    ensures { IsOf result board.now }
{
    for _try in 0..tries {
        let _look = offer(board, &mut hand, 0, stream);
    }
    hand
}

/// Takes tokens from station 0 so many times, and adds up how many differ from the stream's.
fn drain_some(board: &Board, mut hand: Hand, tries: u32, stream: &[u32]) -> (Hand, u32)
    requires { IsOf hand board.now }
    ensures { IsOf result.0 board.now }
{
    let mut taken = 0;
    let mut wrong = 0u32;
    for _try in 0..tries {
        if let Some((_, Some(token))) = receive(board, &mut hand, 0) {
            if taken >= stream.len() || stream[taken] != token {
                wrong = wrong.saturating_add(1);
            }
            taken = taken.saturating_add(1);
        }
    }
    (hand, wrong)
}

/// Looks for room at a station for a token that the stream has.
fn look_for_room(board: &Board, hand: &mut Hand, station: u32, stream: &[u32]) -> Option<OutLook>
    requires { IsOf hand.old board.now }
    ensures { IsOf hand.new board.now }
{
    let Some(passed) = count_at(hand, station, Side::Fill) else {
        return None;
    };
    if passed >= stream.len() as u64 {
        return None;
    }
    let mut stations = Attended {
        board,
        hand: &mut *hand,
    };
    Some(stations.look_out(station))
}

/// What a try to carry a token came to.
#[derive(Clone, Copy)]
enum Carried {
    /// This token went on.
    Token(u32),
    /// The station to drain held nothing, and told this word.
    Void(u64),
    /// The station to fill held its capacity, and told this word.
    Stop(u64),
}

/// Carries a token from a station to another of the same stream, where it can.
fn carry(board: &Board, hand: &mut Hand, from: u32, to: u32, stream: &[u32]) -> Option<Carried>
    requires of { IsOf hand.old board.now }
    requires stands { AreStreamsOf (start_ends board.now) (λ _. stream.now) }
    ensures { IsOf hand.new board.now }
{
    let Some(room) = look_for_room(board, hand, to, stream) else {
        return None;
    };
    if let OutLook::Stop(word) = room {
        return Some(Carried::Stop(word));
    }
    let Some((found, taken)) = receive(board, hand, from) else {
        return None;
    };
    if let InLook::Void(word) = found {
        return Some(Carried::Void(word));
    }
    let Some(token) = taken else {
        return None;
    };
    let _look = offer(board, hand, to, stream);
    Some(Carried::Token(token))
}

/// Whether a try was told what stations of two places tell that hold sevens alone.
fn is_told_of_sevens(carried: Carried) -> bool {
    match carried {
        Carried::Token(token) => token == 7,
        Carried::Void(word) => word == 0,
        Carried::Stop(word) => word == 0x8000_0007_8000_0007,
    }
}

/// Carries sevens from a station to another so many times, where it can, and adds up how many tries
/// were told something else than stations of two places tell.
fn carry_some(board: &Board, mut hand: Hand, from: u32, to: u32, stream: &[u32]) -> (Hand, u32)
    requires of { IsOf hand board.now }
    requires stands { AreStreamsOf (start_ends board.now) (λ _. stream.now) }
    ensures { IsOf result.0 board.now }
{
    let mut wrong = 0u32;
    for _try in 0..200 {
        if let Some(carried) = carry(board, &mut hand, from, to, stream) {
            if !is_told_of_sevens(carried) {
                wrong = wrong.saturating_add(1);
            }
        }
    }
    (hand, wrong)
}

/// What a thread does at a board, many times.
#[derive(Clone, Copy)]
enum Work {
    /// Offers tokens to station 0.
    Fill,
    /// Takes tokens from station 0.
    Drain,
    /// Carries tokens from a station to another.
    Carry(u32, u32),
}

/// A hand, and what a thread does with it.
#[derive(Drop)]
struct Task {
    hand: Hand,
    work: Work,
}

/// Does some work: the hand after it, and how many tokens taken from station 0 differ from the
/// stream's, or how many tries to carry were told something else.
fn do_work(board: &Board, task: Task, stream: &[u32]) -> (Hand, u32)
    requires of { IsOf task.hand board.now }
    requires stands { AreStreamsOf (start_ends board.now) (λ _. stream.now) }
    ensures { IsOf result.0 board.now }
{
    let Task { hand, work } = task;
    match work {
        Work::Fill => (fill_some(board, hand, 300, stream), 0),
        Work::Drain => drain_some(board, hand, 300, stream),
        Work::Carry(from, to) => carry_some(board, hand, from, to, stream),
    }
}

/// Two threads do some work each: the hands after it, and how many tokens came wrong.
fn do_both<R: Threads + Sync>(
    rt: &R,
    board: &Board,
    one: Task,
    two: Task,
    stream: &[u32],
) -> (Hand, Hand, u32)
    requires one { IsOf one.hand board.now }
    requires two { IsOf two.hand board.now }
    requires stands { AreStreamsOf (start_ends board.now) (λ _. stream.now) }
    ensures one { IsOf result.0 board.now }
    ensures two { IsOf result.1 board.now }
{
    let ((one, wrong), (two, more)) = join(
        rt,
        move || -> (Hand, u32)
            requires { IsOf one.hand board.now × AreStreamsOf (start_ends board.now) (λ _. stream.now) }
            ensures { IsOf result.0 board.entry.now }
        { do_work(board, one, stream) },
        move || -> (Hand, u32)
            requires { IsOf two.hand board.now × AreStreamsOf (start_ends board.now) (λ _. stream.now) }
            ensures { IsOf result.0 board.entry.now }
        { do_work(board, two, stream) },
    );
    (one, two, wrong.saturating_add(more))
}

/// Parts a hand, lets two threads relay, and joins the hands: how many tokens were wrong.
fn relayed<R: Threads + Sync>(
    rt: &R,
    board: &Board,
    mut hand: Hand,
    stream: &[u32],
) -> Option<(Hand, u32)>
    requires of { IsOf hand board.now }
    requires stands { AreStreamsOf (start_ends board.now) (λ _. stream.now) }
    ensures { IfSome result (λ r. IsOf r.0 board.now) }
{
    let end = End {
        station: 0,
        side: Side::Drain,
    };
    let Some(drainer) = part(board, &mut hand, end) else {
        return None;
    };
    let fill = Task {
        hand,
        work: Work::Fill,
    };
    let drain = Task {
        hand: drainer,
        work: Work::Drain,
    };
    let (mut filler, drainer, wrong) = do_both(rt, board, fill, drain, stream);
    board.join(&mut filler, drainer);
    Some((filler, wrong))
}

/// What the next look finds after as many rounds of one offer and one taking.
fn found_after(
    board: &Board,
    mut hand: Hand,
    rounds: u32,
    stream: &[u32],
) -> Option<(InLook, Option<u32>)>
    requires of { IsOf hand board.now }
    requires stands { AreStreamsOf (start_ends board.now) (λ _. stream.now) }
{
    for _round in 0..rounds {
        let _look = offer(board, &mut hand, 0, stream);
        let _look = receive(board, &mut hand, 0);
    }
    receive(board, &mut hand, 0)
}

/// How many tokens passed an end; 0 where another hand has it.
fn passed_at(hand: &Hand, station: u32, side: Side) -> u64 {
    count_at(hand, station, side).unwrap_or(0)
}

/// How many tokens of ten came wrong through a station between two threads, whether each thread
/// moved what it can whatever the other does (the one fills three places, the other takes the start
/// token), and what is found once the rest is carried too.
fn relay_of_ten<R: Threads + Sync>(
    rt: &R,
    alloc: Global,
) -> Option<(u32, bool, Option<(InLook, Option<u32>)>)> {
    let course = Same {
        stations: 1,
        stream: &[5, 6, 7, 8, 9, 10, 11, 12, 13, 14],
    };
    let Some((board, hand)) = start_same(alloc, 3, &course) else {
        return None;
    };
    let Some((hand, wrong)) = relayed(rt, &board, hand, course.stream) else {
        return None;
    };
    let moved = passed_at(&hand, 0, Side::Fill) >= 3 && passed_at(&hand, 0, Side::Drain) >= 1;
    Some((wrong, moved, found_after(&board, hand, 10, course.stream)))
}

#[test]
fn two_threads_share_a_station(rt: HostRuntime) {
    let found = relay_of_ten(&rt, rt.alloc());
    assert_eq!(rt; found, Some((0, true, Some((InLook::Void(0), None)))));
}

/// Four threads do some work each: the hands after it.
fn do_all<R: Threads + Sync>(
    rt: &R,
    board: &Board,
    one: Task,
    two: Task,
    three: Task,
    four: Task,
    stream: &[u32],
) -> ((Hand, Hand, u32), (Hand, Hand, u32))
    requires one { IsOf one.hand board.now }
    requires two { IsOf two.hand board.now }
    requires three { IsOf three.hand board.now }
    requires four { IsOf four.hand board.now }
    requires stands { AreStreamsOf (start_ends board.now) (λ _. stream.now) }
    ensures one { IsOf result.0.0 board.now }
    ensures two { IsOf result.0.1 board.now }
    ensures three { IsOf result.1.0 board.now }
    ensures four { IsOf result.1.1 board.now }
{
    join(
        rt,
        move || -> (Hand, Hand, u32)
            requires { IsSync R.row × IsOf one.hand board.now × IsOf two.hand board.now × AreStreamsOf (start_ends board.now) (λ _. stream.now) }
            ensures { IsOf result.0 board.entry.now × IsOf result.1 board.entry.now }
        { do_both(rt, board, one, two, stream) },
        move || -> (Hand, Hand, u32)
            requires { IsSync R.row × IsOf three.hand board.now × IsOf four.hand board.now × AreStreamsOf (start_ends board.now) (λ _. stream.now) }
            ensures { IsOf result.0 board.entry.now × IsOf result.1 board.entry.now }
        { do_both(rt, board, three, four, stream) },
    )
}

/// The work of carrying tokens from a station to another, by a hand.
fn carrying(hand: Hand, from: u32, to: u32) -> Task
    ensures { result.hand ≡ hand }
{
    Task {
        hand,
        work: Work::Carry(from, to),
    }
}

/// The hand of a worker that drains a station and fills another.
fn worker(board: &Board, hand: &mut Hand, from: u32, to: u32) -> Option<Hand>
    requires of { IsOf hand.old board.now }
    ensures of { IsOf hand.new board.now }
    ensures worker { IfSome result (λ new. IsOf new board.now) }
{
    let drained = End {
        station: from,
        side: Side::Drain,
    };
    let filled = End {
        station: to,
        side: Side::Fill,
    };
    let Some(mut worker) = part(board, hand, drained) else {
        return None;
    };
    let Some(other) = part(board, hand, filled) else {
        return None;
    };
    board.join(&mut worker, other);
    Some(worker)
}

/// Two workers, one from `first` to `second`, one on to `third`.
fn two_workers(
    board: &Board,
    hand: &mut Hand,
    first: u32,
    second: u32,
    third: u32,
) -> Option<(Hand, Hand)>
    requires of { IsOf hand.old board.now }
    ensures of { IsOf hand.new board.now }
    ensures one { IfSome result (λ workers. IsOf workers.0 board.now) }
    ensures two { IfSome result (λ workers. IsOf workers.1 board.now) }
{
    let Some(one) = worker(board, hand, first, second) else {
        return None;
    };
    let Some(two) = worker(board, hand, second, third) else {
        return None;
    };
    Some((one, two))
}

/// Lets four workers carry in a ring; the hand has all ends again then. With it comes how many tries
/// were told something else.
fn carried_round<R: Threads + Sync>(
    rt: &R,
    board: &Board,
    mut hand: Hand,
    stream: &[u32],
) -> Option<(Hand, u32)>
    requires of { IsOf hand board.now }
    requires stands { AreStreamsOf (start_ends board.now) (λ _. stream.now) }
{
    let Some((one, two)) = two_workers(board, &mut hand, 0, 1, 2) else {
        return None;
    };
    let Some((three, four)) = two_workers(board, &mut hand, 2, 3, 0) else {
        return None;
    };
    let ((one, two, wrong), (three, four, more)) = do_all(
        rt,
        board,
        carrying(one, 0, 1),
        carrying(two, 1, 2),
        carrying(three, 2, 3),
        carrying(four, 3, 0),
        stream,
    );
    board.join(&mut hand, one);
    board.join(&mut hand, two);
    board.join(&mut hand, three);
    board.join(&mut hand, four);
    Some((hand, wrong.saturating_add(more)))
}

/// How many tokens a station holds, by a hand with both its ends.
fn holds(hand: &Hand, station: u32) -> u64 {
    passed_at(hand, station, Side::Fill).saturating_sub(passed_at(hand, station, Side::Drain))
}

/// Whether at least so many tokens passed the filled end of each of four stations, and one the
/// drained end.
fn has_gone_round(hand: &Hand, least: u64) -> bool {
    for station in 0..4 {
        if passed_at(hand, station, Side::Fill) < least
            || passed_at(hand, station, Side::Drain) < 1
        {
            return false;
        }
    }
    true
}

/// How many tokens four stations hold that started with one each, after four workers carried them
/// in a ring, whether each worker carried one (each finds a token and room at its first try, whatever
/// the others do), and how many tries were told another word or token than they must.
fn held_in_ring<R: Threads + Sync>(rt: &R, alloc: Global) -> Option<(u64, bool, u32)> {
    let course = Same {
        stations: 4,
        stream: &[7; 40],
    };
    let Some((board, hand)) = start_same(alloc, 2, &course) else {
        return None;
    };
    let Some((hand, wrong)) = carried_round(rt, &board, hand, course.stream) else {
        return None;
    };
    let half = holds(&hand, 0).saturating_add(holds(&hand, 1));
    let rest = holds(&hand, 2).saturating_add(holds(&hand, 3));
    Some((half.saturating_add(rest), has_gone_round(&hand, 2), wrong))
}

#[test]
fn four_workers_share_a_ring(rt: HostRuntime) {
    assert_eq!(rt; held_in_ring(&rt, rt.alloc()), Some((4, true, 0)));
}

/// Streams worked by hand: `5 6 7 8` for station 0, and `9` for station 1.
#[derive(Drop)]
struct Turned {}

impl Course for Turned {
    ghost streams = { λ _. (5 ∷ 6 ∷ 7 ∷ 8 ∷ []) ∷ (9 ∷ []) ∷ [] };
}

/// Looks for a token at a plain station, and takes it where there is one.
fn receive_plain(plain: &mut PlainBoard, station: u32) -> Option<InLook> {
    if station as usize >= plain.pairs.len() {
        return None;
    }
    let look = plain.look_in(station);
    let InLook::Token(_) = look else {
        return Some(look);
    };
    Some(InLook::Token(plain.take(station)))
}

/// Steps at station 0 of 3 places, before the board is closed.
static TURNED: [Step; 4] = [
    Step::Offer(OutLook::Room),
    Step::Offer(OutLook::Room),
    Step::Receive(InLook::Token(5)),
    Step::Offer(OutLook::Room),
];

/// How many of those steps are as they are told, and the plain stations after them.
fn closed(alloc: Global) -> Option<(usize, PlainBoard)>
    ensures { IfSome result (λ r. length r.1.pairs.items ≡ 2) }
{
    let Ok(mut plain) = PlainBoard::start(alloc, &[None, None], &[3, 2]) else {
        return None;
    };
    let Ok((board, mut hand)) = Board::start(alloc, &[Some(5), None], &[3, 2], &Turned {}) else {
        return None;
    };
    let told = first_other(&board, &mut hand, 0, &[5, 6, 7, 8], &TURNED);
    board.close(hand, &mut plain);
    Some((told, plain))
}

/// Whether the looks at plain stations answer these.
fn are_received(plain: &mut PlainBoard, looks: &[(u32, InLook)]) -> bool {
    for (station, look) in looks {
        if receive_plain(plain, *station) != Some(*look) {
            return false;
        }
    }
    true
}

/// What plain stations hold, by their numbers.
static HELD: [(u32, InLook); 5] = [
    (0, InLook::Token(6)),
    (0, InLook::Token(7)),
    (0, InLook::Token(8)),
    (0, InLook::Void(0)),
    (1, InLook::Void(0)),
];

/// How many steps are as they are told, what is found for room, and whether the plain stations hold
/// what they must.
fn left_after_close(alloc: Global) -> Option<(usize, OutLook, bool)> {
    let Some((told, mut plain)) = closed(alloc) else {
        return None;
    };
    let full = plain.look_out(0);
    Some((told, full, are_received(&mut plain, &HELD)))
}

#[test]
fn a_board_closes_into_plain_stations(rt: HostRuntime) {
    let full = OutLook::Stop(0x8000_0006_8000_0008);
    assert_eq!(rt; left_after_close(rt.alloc()), Some((4, full, true)));
}

/// Looks for room at a station so many times, over any stations.
fn look_often<B: Stations>(stations: &mut B, station: u32, times: u32)
    requires served { IsServed (B.ends stations.old) (fill station) }
    ensures same { B.identity stations.new ≡ B.identity stations.old }
{
    for _time in 0..times {
        let _look = stations.look_out(station);
    }
}

/// Lends a hand to that code, where it has the filled end of the station.
fn lend(board: &Board, hand: &mut Hand, station: u32, times: u32)
    requires { IsOf hand.old board.now }
    ensures { IsOf hand.new board.now }
{
    let Some(_passed) = count_at(hand, station, Side::Fill) else {
        return;
    };
    let mut stations = Attended {
        board,
        hand: &mut *hand,
    };
    look_often(&mut stations, station, times);
}

/// A station of 2 places that starts with the token 5 of the stream 5, 6.
static TWO: [Step; 3] = [
    Step::Offer(OutLook::Room),
    Step::Offer(OutLook::Stop(0x8000_0006_8000_0005)),
    Step::Receive(InLook::Token(5)),
];

/// How many steps are as they are told, by a hand that was lent and came back.
fn told_after_lending(alloc: Global) -> Option<usize> {
    let course = Same {
        stations: 1,
        stream: &[5, 6],
    };
    let Some((board, mut hand)) = start_same(alloc, 2, &course) else {
        return None;
    };
    lend(&board, &mut hand, 0, 3);
    Some(first_other(&board, &mut hand, 0, course.stream, &TWO))
}

#[test]
fn a_hand_that_was_lent_comes_back(rt: HostRuntime) {
    assert_eq!(rt; told_after_lending(rt.alloc()), Some(3));
}
