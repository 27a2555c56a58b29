// The parts of the steps in which a place goes on its way and is linked.
ghost use Rattle.std.specs.Prelude.{◌≡◌, ◌&&◌, if◌then◌else◌, ◌==◌, nat_lt};
ghost use Rattle.meaning.specs.Update.{use_up, with_parent, with_way};
ghost use Rattle.meaning.specs.Step.{asleep_on};

use table::{Agent, Place};
use updates::linked;

// The agent once its next action, if one is left, is used up.
pub fn use_up(a: Agent) -> Agent
    ensures { result ≡ use_up a }
{
    if a.next < a.count {
        Agent {
            next: a.next + 1,
            ..a
        }
    } else {
        a
    }
}

// The stage after opened, put or came: 0, or 8 if no action is left.
pub fn rest_stage(next: u8, count: u8) -> u8
    ensures { result ≡ (if nat_lt next count then 0 else 8) }
{
    if next < count { 0 } else { 8 }
}

// The place, on its way to d.
pub fn sent(x: Place, d: u8) -> Place
    ensures { result ≡ with_way (with_parent x d) 1 }
{
    Place {
        parent: d,
        way: 1,
        ..x
    }
}

// The place, linked to where it was on its way to.
pub fn linked_up(x: Place) -> Place
    ensures { result ≡ with_way x 0 }
{
    Place { way: 0, ..x }
}

// Whether an agent is asleep on p, q or r.
#[tactic(auto, unfolding(meaning::specs::Step::asleep_on))]
pub fn asleep_on(a: Agent, p: u8, q: u8, r: u8) -> bool
    ensures { result ≡ asleep_on p q r a }
{
    a.stage == 7 && (a.remembered == p || a.remembered == q || a.remembered == r)
}

// The place that the destination d, in use or not, is linked to, or d.
pub fn beyond(known: bool, x: Place, d: u8) -> u8
    ensures { result ≡ (if known && x.way == 0 then x.parent else d) }
{
    if linked(known, x) { x.parent } else { d }
}
