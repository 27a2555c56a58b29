// How many step calls can still change a cell, at most.

#![tactic(auto)]

ghost use Rattle.std.specs.Prelude.{◌≡◌};
ghost use Rattle.table.specs.Cell.{cell_of};
ghost use Rattle.meaning.specs.Limit.{is_away, moves_left, ceiling_of};
ghost use Rattle.limit.specs.Known.{moves_at, known_ceiling};

use meaning::Limit;
use meaning::refusals::UNSOUND_TABLE;
use sets::Set;
use table::Cell;

// Whether the place of an agent at this stage is on its way.
fn is_away(stage: u8) -> bool
    ensures { result ≡ is_away stage }
{
    4 <= stage && stage <= 6
}

// The moves before an agent: two for each unused action, and one more while its place is on its way.
fn moves_at(stage: u8, next: u8, count: u8) -> u16
    ensures { result ≡ moves_at stage next count }
{
    let left = count.min(16).saturating_sub(next);
    2 * u16::from(left) + u16::from(is_away(stage))
}

// The moves before all agents that are given, of a lent cell.
pub fn moves_left(cell: &Cell) -> u16
    ensures { result ≡ moves_left (cell_of cell.now) }
{
    let mut moves = 0;
    for i in cell.given {
        let a = cell.agents[i as usize];
        moves += moves_at(a.stage, a.next, a.count);
    }
    moves
}

// How many step calls can still change a cell at most, told whether it is sound, by the agents given and the moves before them: 10 is its one refusal.
pub fn ceiling_known(known: bool, given: Set, left: u16) -> Limit
    ensures { result ≡ known_ceiling known given left }
{
    if known {
        let agents = given.count() as u64;
        let moves = left as u64;
        return Ok(5 * agents * (moves + 1) + moves);
    }
    Err(UNSOUND_TABLE)
}

// How many step calls can still change the cell, at most.
pub fn ceiling(c: Cell) -> Limit
    ensures { result ≡ ceiling_of c }
{
    ceiling_known(soundness::is_sound(c), c.given, moves_left(&c))
}
