// The agents of a lent cell, once a place moves: each is read where it lies, and stored where it changes.
ghost use Rattle.std.specs.Prelude.{◌≡◌};
ghost use Rattle.sets.specs.Word.{count_of};
ghost use Rattle.sets.specs.Set.{member};
ghost use Rattle.table.specs.Cell.{put_agents};
ghost use Rattle.moving.specs.Turn.{agents_after, walked_of};

use super::waking::Waking;
use sets::Set;
use table::Cell;

// Who was woken, and who let a lock go.
#[derive(Clone, Copy)]
pub(super) struct Walked {
    pub sleepers: Set,
    pub holders: Set,
}

// How many are in a set: 64 at most, which is a byte.
#[tactic(auto, using(sets::proofs::WordLaws::count_most))]
pub(super) fn counted(s: Set) -> u8
    ensures { result ≡ count_of 64 (member s) }
{
    s.count() as u8
}

// What becomes of the agents of a lent cell.
pub(super) fn walk(cell: &mut Cell, waking: Waking) -> Walked
    ensures { (cell.new ≡ put_agents cell.old (agents_after cell.old waking))
        × (result ≡ walked_of cell.old waking) }
{
    // Nothing is read: where nobody is given, this tells that there are 64 agents.
    let _first = &cell.agents[0];
    let mut sleepers = Set::EMPTY;
    let mut holders = Set::EMPTY;
    for i in cell.given {
        let k = i as usize;
        let a = cell.agents[k];
        let woken = waking.wakes(a);
        sleepers = sleepers.insert_if(i, woken);
        holders = holders.insert_if(i, waking.frees(a));
        if let Some(b) = waking.after(a, woken) {
            cell.agents[k] = b;
        }
    }
    Walked { sleepers, holders }
}
