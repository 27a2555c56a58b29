// What a motion does beside what it does to the agents that it finds: decided by value, from the little that it asks of the cell.
ghost use Rattle.std.specs.Prelude.{◌≡◌, cond, ltb};
ghost use Rattle.moving.specs.Plan.{number_of, rested_of, leaving_of, arriving_of, opening_of, putting_of, plan_of};

use meaning::Word;
use moves::{Motion, linked_up, new_place, rest_stage, sent, use_up};
use sets::Set;
use table::{Agent, Place};
use updates::{at_stage, released};

// The place that moves with its touches, all locks, the places in use and the row.
#[derive(Clone, Copy)]
pub(super) struct Site {
    pub place: Place,
    pub touches: u64,
    pub locks: [u8; 64],
    pub used: Set,
    pub order: [u8; 64],
}

// What the site and the moving agent become, and the word that is answered.
#[derive(Clone, Copy)]
pub(super) struct Plan {
    pub site: Site,
    pub agent: Agent,
    pub word: Word,
}

// The number of the place that moves.
pub(super) fn number(a: Agent, motion: Motion) -> u8
    ensures { result ≡ number_of a motion }
{
    match motion {
        Motion::Put(n) => n,
        _ => a.home,
    }
}

// What is stored at number n: this; past 63 there is none, and the old one stays.
pub(super) fn kept<T: Copy>(n: u8, new: T, old: T) -> T
    ensures { result ≡ cond (ltb n 64) new old }
{
    if n < 64 { new } else { old }
}

// The agent once it came, opened or put: it looks for its next action, or is done.
fn rested(a: Agent) -> Agent
    ensures { result ≡ rested_of a }
{
    at_stage(a, rest_stage(a.next, a.count), 0, 0)
}

// The agent's own place goes on its way to d.
fn leaving(a: Agent, d: u8, g: Site) -> Plan
    ensures { result ≡ leaving_of a d g }
{
    Plan {
        site: Site {
            place: kept(a.home, sent(g.place, d), g.place),
            locks: released(g.locks, a.remembered, a.home),
            ..g
        },
        agent: at_stage(use_up(a), 4, 0, 0),
        word: Word::Left,
    }
}

// The agent's own place is linked to d, and is the latest.
fn arriving(a: Agent, d: u8, g: Site) -> Plan
    ensures { result ≡ arriving_of a d g }
{
    Plan {
        site: Site {
            place: kept(a.home, linked_up(g.place), g.place),
            locks: released(g.locks, a.home, d),
            order: order::latest(g.order, a.home),
            ..g
        },
        agent: rested(a),
        word: Word::Came,
    }
}

// The chosen place is dissolved into the remembered one: its number is in use no more; what else changes is not asked for here.
fn opening(a: Agent, g: Site) -> Plan
    ensures { result ≡ opening_of a g }
{
    Plan {
        site: Site {
            used: g.used.remove(a.chosen),
            ..g
        },
        agent: rested(use_up(a)),
        word: Word::Opened,
    }
}

// A new place under the number n is put into the remembered one, and is the latest; its lock is free and it has no touches.
fn putting(a: Agent, n: u8, g: Site) -> Plan
    ensures { result ≡ putting_of a n g }
{
    let place = new_place(table::next_action(a).name, a.remembered);
    Plan {
        site: Site {
            place: kept(n, place, g.place),
            touches: kept(n, 0, g.touches),
            locks: released(g.locks, a.remembered, n),
            used: g.used.insert(n),
            order: order::latest(g.order, n),
        },
        agent: rested(use_up(a)),
        word: Word::Put,
    }
}

// What a motion of agent a does on this site.
pub(super) fn planned(a: Agent, motion: Motion, site: Site) -> Plan
    ensures { result ≡ plan_of a motion site }
{
    match motion {
        Motion::Leave(d) => leaving(a, d, site),
        Motion::Arrive(d) => arriving(a, d, site),
        Motion::Dissolve => opening(a, site),
        Motion::Put(n) => putting(a, n, site),
    }
}
