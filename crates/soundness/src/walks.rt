// What a call sees of a lent cell, which is read where it lies; only its row of places is copied.
ghost use Rattle.std.specs.Prelude.{◌≡◌};
ghost use Rattle.table.specs.Cell.{cell_of};
ghost use Rattle.table.specs.Sound.{sound};
ghost use Rattle.soundness.specs.Pass.{lands_fit};
ghost use Rattle.soundness.specs.Seen.{seen_of};
ghost use Rattle.soundness.specs.Turn.{Walked};

use super::sound::Seen;
use super::touches::touches_left;
use super::turns::{Busy, Held};
use super::{agents, lands};
use table::{Cell, at};

// What all agents hold together; none where one of them does not fit.
fn agents_seen(cell: &Cell) -> Option<Held>
    ensures { Walked cell.now result }
{
    let mut held = Held::NOTHING;
    for i in cell.given {
        let agent = cell.agents[i as usize];
        let kind = agents::kind_in(agent, cell.used)?;
        if agents::is_quiet(agent.stage) {
            if !agents::quiet_in(agent, cell.used, kind) {
                return None;
            }
        } else {
            let home = cell.places[at(agent.home)];
            let first = agents::first_held(agent);
            let second = agents::second_held(agent, kind, home.parent);
            let busy = Busy {
                number: i,
                agent,
                kind,
                used: cell.used,
                home,
                chosen: cell.places[at(agent.chosen)],
                first_lock: cell.locks[at(first)],
                second_lock: cell.locks[at(second)],
            };
            held = busy.adds(held)?;
        }
    }
    Some(held)
}

// Whether all places are as they should be, beside what the agents hold.
fn places_seen(cell: &Cell, held: Held) -> bool
    ensures { result ≡ lands_fit cell.now.places cell.now.locks cell.now.used held.claimed held.going }
{
    if !lands::floor_sound(cell.places[0], cell.locks[0], cell.used, held) {
        return false;
    }
    let mut up: [u8; 64] = [0; 64];
    let mut known = lands::FLOOR;
    for q in cell.used.remove(0) {
        let x = cell.places[q as usize];
        if !lands::child_sound(x, cell.locks[q as usize], q, cell.used, held) {
            return false;
        }
        known = lands::known_with(known, q, x.parent);
        up[q as usize] = x.parent;
    }
    lands::all_lead(&up, cell.used, known)
}

// Whether a lent cell is sound.
pub fn sound_lent(cell: &Cell) -> bool
    ensures { result ≡ sound (cell_of cell.now) }
{
    let Some(held) = agents_seen(cell) else {
        return false;
    };
    places_seen(cell, held)
        && touches_left(&cell.touches, cell.used).is_some()
        && order::is_row(cell.order)
}

// What a call for this agent sees of a lent cell; past 63 agents are numbered from 0 again.
pub fn see_lent(cell: &Cell, agent: u8) -> Seen
    ensures { result ≡ seen_of cell.now agent }
{
    Seen {
        sound: sound_lent(cell),
        agent: cell.agents[at(agent)],
    }
}
