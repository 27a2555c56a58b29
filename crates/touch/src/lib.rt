// Touch calls: a number is added to the touches of a place, or they are asked for.

#![tactic(auto)]

ghost use Rattle.std.specs.Prelude.{◌≡◌};
ghost use Rattle.meaning.specs.Touch.{touch_of, touches_of};
ghost use Rattle.touch.specs.Known.{known_touch, known_touches};

use meaning::refusals::{NOT_YET_GIVEN, PLACE_TOO_LARGE, TOO_MANY_TOUCHES, UNSOUND_TABLE};
use meaning::{Touched, Touching};
use sets::Set;
use table::Cell;

// What a touch call does: the touches that its place then has, and the answer.
#[derive(Clone, Copy)]
pub struct TouchDecision {
    pub count: u64,
    pub answer: Touching,
}

// What a touch call answers, told whether the cell is sound, by the places in use and all counts: refusal 10, then 3, 5 and 15, then the sum.
fn answered(known: bool, used: Set, touches: &[u64; 64], place: u8, number: u32) -> Touching
    ensures { result ≡ (known_touch known used touches.now place number).answer }
{
    let count = touches_known(known, used, touches, place)?;
    match soundness::touches_left(touches, used) {
        Some(left) if u64::from(number) <= left => Ok(count + u64::from(number)),
        _ => Err(TOO_MANY_TOUCHES),
    }
}

// What a touch call does, told the same: a refused call leaves the touches that its place has.
pub fn decide_touch(
    known: bool,
    used: Set,
    touches: &[u64; 64],
    place: u8,
    number: u32,
) -> TouchDecision
    ensures { result ≡ known_touch known used touches.now place number }
{
    let answer = answered(known, used, touches, place, number);
    TouchDecision {
        count: answer.unwrap_or(touches[table::at(place)]),
        answer,
    }
}

// A touch call.
pub fn touch(c: Cell, place: u8, number: u32) -> Touched
    ensures { result ≡ touch_of c place number }
{
    let d = decide_touch(soundness::is_sound(c), c.used, &c.touches, place, number);
    let mut cell = c;
    cell.touches[table::at(place)] = d.count;
    Touched {
        cell,
        answer: d.answer,
    }
}

// The touches of a place, told whether the cell is sound, by the places in use and all counts: refusal 10, then 3 and 5, then the count.
pub fn touches_known(known: bool, used: Set, touches: &[u64; 64], place: u8) -> Touching
    ensures { result ≡ known_touches known used touches.now place }
{
    if !known {
        return Err(UNSOUND_TABLE);
    }
    if 64 <= place {
        return Err(PLACE_TOO_LARGE);
    }
    if !used.has(place) {
        return Err(NOT_YET_GIVEN);
    }
    Ok(touches[place as usize])
}

// The touches of a place, asked for.
pub fn touches(c: Cell, place: u8) -> Touching
    ensures { result ≡ touches_of c place }
{
    touches_known(soundness::is_sound(c), c.used, &c.touches, place)
}
