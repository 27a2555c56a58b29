// How many agents a motion would wake, counted over a lent cell: each is read where it lies, and nothing changes.
ghost use Rattle.std.specs.Prelude.{◌≡◌};
ghost use Rattle.table.specs.Cell.{cell_of};
ghost use Rattle.moves.specs.Motions.{woken_in};

use super::waking::{goal, who_wakes};
use super::walks::counted;
use moves::Motion;
use sets::Set;
use table::{Agent, Cell, at};

// How many agents of a lent cell a motion of agent a would wake.
pub fn woken_lent(cell: &Cell, a: Agent, motion: Motion) -> u8
    ensures { result ≡ woken_in (cell_of cell.now) a motion }
{
    let to = cell.places[at(goal(motion))];
    let waking = who_wakes(a, motion, to, cell.used);
    let mut sleepers = Set::EMPTY;
    for i in cell.given {
        sleepers = sleepers.insert_if(i, waking.wakes(cell.agents[i as usize]));
    }
    counted(sleepers)
}
