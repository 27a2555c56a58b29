// Who is woken where a place moves, and what becomes of an agent that the motion finds.
ghost use Rattle.std.specs.Prelude.{◌≡◌, MatchOption};
ghost use Rattle.moving.specs.Turn.{wakes_of, frees_of, after_of};
ghost use Rattle.moving.specs.Plan.{goal_of, waking_of};

use moves::{Motion, asleep_on, beyond, dissolve_agent, lets_go, woken_by};
use sets::Set;
use table::{Agent, Place};
use updates::at_stage;

// Who is woken.
#[derive(Clone, Copy)]
pub(super) enum Waking {
    // Those asleep on one of these three places.
    On(u8, u8, u8),
    // Those that the opening of the second place into the first wakes.
    Opening(u8, u8),
}

impl Waking {
    // Whether the agent is woken.
    pub(super) fn wakes(self, a: Agent) -> bool
        ensures { result ≡ wakes_of self a }
    {
        match self {
            Waking::On(p, q, r) => asleep_on(a, p, q, r),
            Waking::Opening(p, q) => woken_by(a, p, q),
        }
    }

    // Whether the agent lets a lock go.
    pub(super) fn frees(self, a: Agent) -> bool
        ensures { result ≡ frees_of self a }
    {
        match self {
            Waking::On(_, _, _) => false,
            Waking::Opening(_, q) => lets_go(a, q),
        }
    }

    // What the agent becomes, where it changes; it is known whether it is woken.
    pub(super) fn after(self, a: Agent, woken: bool) -> Option<Agent>
        ensures { MatchOption result (after_of self woken a ≡ a) (λ b. b ≡ after_of self woken a) }
    {
        match self {
            Waking::On(_, _, _) if woken => Some(at_stage(a, 0, 0, 0)),
            Waking::On(_, _, _) => None,
            Waking::Opening(p, q) => Some(dissolve_agent(a, p, q)),
        }
    }
}

// The place that a motion links to; the floor where it asks for none.
pub(super) fn goal(motion: Motion) -> u8
    ensures { result ≡ goal_of motion }
{
    match motion {
        Motion::Arrive(d) => d,
        _ => 0,
    }
}

// Whom a motion of agent a wakes: `to` is the place that it links to.
pub(super) fn who_wakes(a: Agent, motion: Motion, to: Place, used: Set) -> Waking
    ensures { result ≡ waking_of a motion to used }
{
    match motion {
        Motion::Leave(_) => Waking::On(a.remembered, a.home, a.home),
        Motion::Arrive(d) => Waking::On(a.home, d, beyond(used.has(d), to, d)),
        Motion::Dissolve => Waking::Opening(a.remembered, a.chosen),
        Motion::Put(_) => Waking::On(a.remembered, a.remembered, a.remembered),
    }
}
