// What soundness asks of a busy agent, which holds locks or is on its way, and what all agents hold together.
ghost use Rattle.std.specs.Prelude.{◌≡◌, ◌&&◌, false};
ghost use Rattle.sets.specs.Set.{member};
ghost use Rattle.soundness.specs.Pass.{quiet, lock_is_at};
ghost use Rattle.soundness.specs.Turn.{held_with, second_of, busy_of, holds_first, holds_second};

use super::agents;
use sets::Set;
use table::{Agent, Place, linked_to};

// The places whose locks agents hold, and the places that they move.
#[derive(Clone, Copy)]
pub(super) struct Held {
    pub claimed: Set,
    pub going: Set,
}

impl Held {
    pub(super) const NOTHING: Held = Held {
        claimed: Set::EMPTY,
        going: Set::EMPTY,
    };

    // With two places that an agent holds and a third one that it moves, each 64 where there is none; none where it does not fit, or another
    // agent moves that one.
    fn add(self, fits: bool, first: u8, second: u8, from: u8) -> Option<Held>
        ensures { result ≡ held_with self fits first second from }
    {
        if !fits || self.going.has(from) {
            return None;
        }
        Some(Held {
            claimed: self.claimed.insert(first).insert(second),
            going: self.going.insert(from),
        })
    }
}

// A busy agent with its number, the kind of its next action, the places in use, its home and its chosen place, and the locks of the places that
// it holds.
#[derive(Clone, Copy)]
pub(super) struct Busy {
    pub number: u8,
    pub agent: Agent,
    pub kind: u8,
    pub used: Set,
    pub home: Place,
    pub chosen: Place,
    pub first_lock: u8,
    pub second_lock: u8,
}

impl Busy {
    // What stages 2 and 3 ask: the agent is ready, and the lock of the place that it remembers is its own.
    fn holds_first(self) -> bool
        ensures { result ≡ holds_first self }
    {
        let known = self.used.has(self.agent.remembered);
        agents::is_ready(self.agent, known, self.kind) && self.first_lock == self.number
    }

    // The place whose lock it took second, or 64.
    fn second(self) -> u8
        ensures { result ≡ second_of self }
    {
        agents::second_held(self.agent, self.kind, self.home.parent)
    }

    // What stage 3 asks beside: the places are linked as the action asks, and the second lock is the agent's.
    #[tactic(auto, unfolding(crate::specs::Turn::holds_second, crate::specs::Pass::linked_at))]
    fn holds_second(self) -> bool
        ensures { result ≡ holds_second self }
    {
        let a = self.agent;
        let here = linked_to(true, self.home, a.remembered);
        let there = linked_to(self.used.has(a.chosen), self.chosen, a.remembered);
        agents::holds_both(self.kind, here, there) && self.locked(self.second(), self.second_lock)
    }

    // What stage 3 asks.
    fn holds_both(self) -> bool
        ensures { result ≡ (holds_first self && holds_second self) }
    {
        self.holds_first() && self.holds_second()
    }

    // Whether q is none, or is in use and its lock is the agent's.
    #[tactic(auto, unfolding(crate::specs::Pass::lock_is_at))]
    fn locked(self, q: u8, lock: u8) -> bool
        ensures { result ≡ lock_is_at (member self.used q) q lock self.number }
    {
        q == 64 || self.used.has(q) && lock == self.number
    }

    // What stage 6 asks: the locks of its home and of the destination are the agent's.
    fn arrives(self) -> bool
        ensures { result ≡ (lock_is_at (member self.used self.agent.home) self.agent.home self.first_lock self.number
            && lock_is_at (member self.used self.home.parent) self.home.parent self.second_lock self.number) }
    {
        self.locked(self.agent.home, self.first_lock)
            && self.locked(self.home.parent, self.second_lock)
    }

    // What is held with what the agent holds and moves; none where what its stage asks does not hold.
    pub(super) fn adds(self, held: Held) -> Option<Held>
        requires { quiet self.agent.stage ≡ false }
        ensures { result ≡ busy_of self held }
    {
        let a = self.agent;
        match a.stage {
            2 => held.add(self.holds_first(), a.remembered, 64, 64),
            3 => held.add(self.holds_both(), a.remembered, self.second(), 64),
            4 => held.add(true, 64, 64, a.home),
            5 => held.add(self.locked(a.home, self.first_lock), a.home, 64, a.home),
            _ => held.add(self.arrives(), a.home, self.home.parent, a.home),
        }
    }
}
