// The number that a new place gets.
ghost use Rattle.std.specs.Prelude.{◌≡◌};
ghost use Rattle.sets.specs.Set.{member};
ghost use Rattle.table.specs.Cell.{fresh_number};

use sets::Set;

// The smallest number that is not in use, or 64 where all are: the zeros below the lowest one of the word of all the others.
pub fn fresh_number(used: Set) -> u8
    ensures { result ≡ fresh_number (member used) }
{
    (!used.bits).trailing_zeros() as u8
}
