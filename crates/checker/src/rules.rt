// What the calculus permits, tested on the places that are read for a move.
ghost use Rattle.std.specs.Prelude.{◌≡◌, ℕ};
ghost use Rattle.sets.specs.Set.{member};
ghost use Rattle.table.specs.Cell.{Land};
ghost use Rattle.meaning.specs.Calculus.{stands_at, may_enter, may_exit, may_open, has_room};
ghost use Rattle.trail.specs.Trail.{allows};
ghost use Rattle.checker.specs.OnTable.{parent_of, name_of, one_agent, Numbered, Seen, why_kind};

use sets::Set;
use table::{Action, Place};
use trail::{NO_ACTION_LEFT, NOT_PERMITTED};

// Whether place b, which is q, stands in p; the floor stands in none. Test by test, as the next: with && the proof did not close.
fn stands(used: Set, b: u8, q: Place, p: u8) -> bool
    ensures { (l : Land) → Numbered l used b q → (h : ℕ) → (x : Action) → result ≡ stands_at (one_agent l h x) b p }
{
    if used.has(b) {
        if b == 0 {
            return false;
        }
        return q.parent == p;
    }
    false
}

// Whether an agent whose own place is h, in around, may enter place b, which is q, with this action.
fn enters(used: Set, h: u8, x: Action, around: u8, b: u8, q: Place) -> bool
    ensures { (l : Land) → parent_of l h ≡ around → Numbered l used b q → result ≡ may_enter (one_agent l h x) 0 b }
{
    if h == 0 {
        return false;
    }
    if stands(used, b, q, around) {
        if b == h {
            return false;
        }
        return q.name.entering == x.name;
    }
    false
}

// Whether it may exit the place around its own, which is p.
fn exits(h: u8, x: Action, p: Place) -> bool
    ensures { (l : Land) → name_of l (parent_of l h) ≡ p.name → result ≡ may_exit (one_agent l h x) 0 (parent_of l h) }
{
    h != 0 && p.name.exiting == x.name
}

// Whether it may open place b, which is q.
fn opens(used: Set, h: u8, x: Action, b: u8, q: Place) -> bool
    ensures { (l : Land) → Numbered l used b q → result ≡ may_open (one_agent l h x) 0 b }
{
    stands(used, b, q, h) && q.name.opening == x.name
}

// Whether a number is unused.
fn has_room(used: Set) -> bool
    ensures { (l : Land) → l.used ≡ member used → (h : ℕ) → (x : Action) → result ≡ has_room (one_agent l h x) }
{
    table::fresh_number(used) < 64
}

// Whether an agent whose own place is h may make the move of this action that the byte b tells: 255 for exit and release. Its place stands in
// around, which is p, and place b is q.
pub(super) fn allowed(used: Set, h: u8, x: Action, around: u8, p: Place, b: u8, q: Place) -> bool
    ensures { (l : Land) → Seen l used h around p b q → result ≡ allows (one_agent l h x) 0 b }
{
    match x.kind {
        1 => enters(used, h, x, around, b, q),
        2 => b == 255 && exits(h, x, p),
        3 => opens(used, h, x, b, q),
        4 => b == 255 && has_room(used),
        _ => false,
    }
}

// Why a move that is not allowed is denied, by the kind of the agent's next action: 0 is that of none.
pub(super) fn why_not(kind: u8) -> u8
    ensures { result ≡ why_kind kind }
{
    match kind {
        0 => NO_ACTION_LEFT,
        _ => NOT_PERMITTED,
    }
}
