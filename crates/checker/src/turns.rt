// What one move of a trail comes to, by what is read of the table.
ghost use Rattle.std.specs.Prelude.{◌≡◌, cond, ◌+◌, ltb};
ghost use Rattle.table.specs.Cell.{cell_of};
ghost use Rattle.meaning.specs.Plain.{tree_of};
ghost use Rattle.checker.specs.OnTable.{Ready, Reads, turn_by, turn_of};

use super::Turn;
use super::rules::{allowed, why_not};
use sets::Set;
use table::{Agent, Cell, Place};
use trail::NO_ACTION_LEFT;

// What a move that is allowed comes to, by the kind of the action: an enter goes into b, an exit to where the place around stands.
fn turn_by(kind: u8, beyond: u8, b: u8) -> Turn
    ensures { result ≡ turn_by kind beyond b }
{
    match kind {
        1 => Turn::Into(b),
        2 => Turn::Into(beyond),
        _ => Turn::Shift,
    }
}

// What the move of agent x that the byte b tells comes to: of the agent, where its own place stands, the place there, and place b.
pub(super) fn turn_of(
    given: Set,
    used: Set,
    x: u8,
    a: Agent,
    around: u8,
    p: Place,
    b: u8,
    q: Place,
) -> Turn
    ensures { (t : Cell) → Ready t → Reads t x given used a around p b q → result ≡ turn_of (tree_of (cell_of t)) x b }
{
    if !given.has(x) {
        return Turn::Deny(NO_ACTION_LEFT);
    }
    let n = table::next_action(a);
    if allowed(used, a.home, n, around, p, b, q) {
        turn_by(n.kind, p.parent, b)
    } else {
        Turn::Deny(why_not(n.kind))
    }
}

// How many of an agent's actions are used once its next, if one is left, is used up.
pub(super) fn count_used(next: u8, count: u8) -> u8
    ensures { result ≡ cond (ltb next count) (next + 1) next }
{
    if next < count { next + 1 } else { next }
}
