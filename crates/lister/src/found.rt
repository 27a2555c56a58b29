// What is found of a cell: for each place what is listed in it.
ghost use Rattle.std.specs.Prelude.{◌≡◌, cond, eqb};
ghost use Rattle.table.specs.Cell.{cell_of, has_unused};
ghost use Rattle.lister.specs.Listed.{parents_of, homes_of, grouped_of, filed};
ghost use Rattle.lister.specs.Sheet.{sheet_of, Drawn};

use crate::sheet::Sheet;
use sets::Set;
use table::{Agent, Cell};

impl<'a> Sheet<'a> {
    // The sheet of a cell.
    pub(super) fn of(cell: &'a Cell) -> Sheet<'a>
        ensures { Drawn (cell_of cell.now) (sheet_of result) }
    {
        Sheet {
            cell,
            places: standing(cell),
            agents: listed(cell),
        }
    }
}

// Puts x into the set of p; a p that is not below 64 has none.
fn file(sets: &mut [Set; 64], p: u8, x: u8)
    ensures { sets.new ≡ filed sets.old p x }
{
    if p < 64 {
        let k = p as usize;
        sets[k] = sets[k].insert(x);
    }
}

// The place that place q stands in; 64 for the floor, which stands in none.
fn above(parent: u8, q: u8) -> u8
    ensures { result ≡ cond (eqb q 0) 64 parent }
{
    if q == 0 { 64 } else { parent }
}

// The place that an agent is listed in; 64 where it has no unused actions.
fn home(a: &Agent) -> u8
    ensures { result ≡ cond (has_unused a.now) a.now.home 64 }
{
    if a.next < 16 && a.next < a.count {
        a.home
    } else {
        64
    }
}

// For each place the places that stand in it.
fn standing(c: &Cell) -> [Set; 64]
    ensures { result ≡ grouped_of c.now.used (parents_of c.now.places) }
{
    let mut inside = [Set::EMPTY; 64];
    for q in c.used {
        let parent = c.places[q as usize].parent;
        file(&mut inside, above(parent, q), q);
    }
    inside
}

// For each place the agents listed in it.
fn listed(c: &Cell) -> [Set; 64]
    ensures { result ≡ grouped_of c.now.given (homes_of c.now.given c.now.agents) }
{
    let mut inside = [Set::EMPTY; 64];
    for x in c.given {
        file(&mut inside, home(&c.agents[x as usize]), x);
    }
    inside
}
