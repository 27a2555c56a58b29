// What an event writes: an agent, a place, and the marks. Where there is no room for what it adds, only the marks
// change, and say that there was too much.
ghost use Rattle.std.specs.Prelude.{◌≡◌};
ghost use Rattle.parser.specs.Site.{agent_written, agent_after, place_after, marks_after, gives_agent, gives_place};

use super::Marks;
use language::Event;
use table::{Agent, Name, Place};
use updates::{with_action, with_home};

// The agent whose record an event writes: the next one, or the latest.
pub(super) fn agent_written(x: Marks, e: Event) -> u8
    ensures { result ≡ agent_written x e }
{
    match e {
        Event::NewAgent => x.agents,
        _ => x.agents.saturating_sub(1),
    }
}

// That agent after the event.
#[tactic(auto, unfolding(crate::specs::Site::agent_after))]
pub(super) fn agent_after(g: Agent, x: Marks, e: Event) -> Agent
    ensures { result ≡ agent_after g x e }
{
    match e {
        Event::NewAgent => {
            if x.agents < 64 {
                with_home(g, x.here)
            } else {
                g
            }
        }
        Event::NewAction(kind, name) => with_action(g, kind, name),
        Event::LastAction(kind, name) => with_action(g, kind, name),
        _ => g,
    }
}

// The place that a text would give next, after the event.
#[tactic(auto, unfolding(crate::specs::Site::place_after))]
pub(super) fn place_after(p: Place, x: Marks, e: Event) -> Place
    ensures { result ≡ place_after p x e }
{
    match e {
        Event::NewPlace(name, entering, exiting, opening) => {
            if x.places < 63 {
                Place {
                    name: Name {
                        name,
                        entering,
                        exiting,
                        opening,
                    },
                    parent: x.here,
                    way: 0,
                }
            } else {
                p
            }
        }
        _ => p,
    }
}

// The marks after the event. count: of the latest agent; parent: of the place whose contents are read.
#[tactic(auto, unfolding(crate::specs::Site::marks_after))]
pub(super) fn marks_after(x: Marks, e: Event, count: u8, parent: u8) -> Marks
    ensures { result ≡ marks_after x e count parent }
{
    match e {
        Event::Nothing => x,
        Event::NewAgent => {
            if x.agents < 64 {
                Marks {
                    agents: x.agents + 1,
                    ..x
                }
            } else {
                Marks { over: true, ..x }
            }
        }
        Event::NewAction(_, _) => {
            if count < 16 {
                x
            } else {
                Marks { over: true, ..x }
            }
        }
        Event::NewPlace(_, _, _, _) => {
            if x.places < 63 {
                Marks {
                    places: x.places + 1,
                    here: x.places + 1,
                    ..x
                }
            } else {
                Marks { over: true, ..x }
            }
        }
        Event::EndPlace => Marks { here: parent, ..x },
        Event::LastAction(_, _) => {
            if count < 16 {
                Marks { here: parent, ..x }
            } else {
                Marks {
                    here: parent,
                    over: true,
                    ..x
                }
            }
        }
    }
}

// Whether the event gives an agent.
#[tactic(auto, unfolding(crate::specs::Site::gives_agent))]
pub(super) fn gives_agent(x: Marks, e: Event) -> bool
    ensures { result ≡ gives_agent x e }
{
    match e {
        Event::NewAgent => x.agents < 64,
        _ => false,
    }
}

// Whether the event gives a place.
#[tactic(auto, unfolding(crate::specs::Site::gives_place))]
pub(super) fn gives_place(x: Marks, e: Event) -> bool
    ensures { result ≡ gives_place x e }
{
    match e {
        Event::NewPlace(_, _, _, _) => x.places < 63,
        _ => false,
    }
}
