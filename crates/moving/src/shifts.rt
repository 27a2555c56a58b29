// A place moves in a lent cell: what is asked of the cell is read where it lies, and what changes is stored there.
ghost use Rattle.std.specs.Prelude.{◌≡◌, ◌<◌};
ghost use Rattle.sets.specs.Word.{count_of};
ghost use Rattle.sets.specs.Set.{member};
ghost use Rattle.table.specs.Cell.{cell_of};
ghost use Rattle.meaning.specs.Answers.{Did};
ghost use Rattle.meaning.specs.Run.{made};
ghost use Rattle.moves.specs.Motions.{shifted};
ghost use Rattle.moving.specs.Shift.{opened_of, settled_of};

use super::plan::{Site, kept, number, planned};
use super::waking::{Waking, goal, who_wakes};
use super::walks::{counted, walk};
use meaning::{Answer, Outcome, Word};
use moves::{Motion, adopt, free_held, freed, pool};
use sets::Set;
use table::{Agent, Cell, at};
use updates::released;

// The rows of a lent cell once q is opened into p: the holders let their locks go.
fn opened(cell: &mut Cell, p: u8, q: u8, holders: Set)
    ensures { cell.new ≡ opened_of cell.old p q holders }
{
    let places = adopt(cell.places, cell.used, p, q);
    let held = free_held(cell.locks, cell.used, holders);
    let locks = released(held, p, q);
    let touches = pool(cell.touches, p, q);
    let order = freed(cell.order, cell.places, cell.used, q);
    cell.places = places;
    cell.locks = locks;
    cell.touches = touches;
    cell.order = order;
}

// The rows of a lent cell once the place at k, or the opened one, moves.
fn settled(cell: &mut Cell, waking: Waking, k: usize, site: Site, holders: Set)
    requires { k < 64 }
    ensures { cell.new ≡ settled_of waking cell.old k site holders }
{
    match waking {
        Waking::On(_, _, _) => {
            let locks = site.locks;
            let order = site.order;
            cell.places[k] = site.place;
            cell.locks = locks;
            cell.touches[k] = site.touches;
            cell.order = order;
        }
        Waking::Opening(p, q) => opened(cell, p, q, holders),
    }
}

// The word, and how many were woken.
fn answered(word: Word, sleepers: Set) -> Answer
    ensures { result ≡ Did word (count_of 64 (member sleepers)) }
{
    Ok(Outcome {
        word,
        woken: counted(sleepers),
    })
}

// A place moves in a lent cell.
pub fn shift_lent(cell: &mut Cell, x: u8, a: Agent, motion: Motion) -> Answer
    ensures { (cell.new ≡ (made (shifted (cell_of cell.old) x a motion)).cell)
        × (result ≡ (made (shifted (cell_of cell.old) x a motion)).answer) }
{
    let k = at(number(a, motion));
    let to = cell.places[at(goal(motion))];
    let site = Site {
        place: cell.places[k],
        touches: cell.touches[k],
        locks: cell.locks,
        used: cell.used,
        order: cell.order,
    };
    let plan = planned(a, motion, site);
    let waking = who_wakes(a, motion, to, cell.used);
    let w = walk(cell, waking);
    let i = at(x);
    cell.agents[i] = kept(x, plan.agent, cell.agents[i]);
    settled(cell, waking, k, plan.site, w.holders);
    cell.used = plan.site.used;
    answered(plan.word, w.sleepers)
}
