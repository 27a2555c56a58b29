// The call of a host that keeps the trail of a run: what an ask told is written.
ghost use Rattle.std.specs.Prelude.{◌≡◌};
ghost use Rattle.meaning.specs.Codes.{list_number};
ghost use Rattle.trail.specs.Written.{told_answer, told_buffer};

use crate::{list_number, write_move};

// The bytes of a move of this agent, by the number that `keeper_ask` answered, at the start of what is left of a trail's buffer.
pub fn keeper_trail(agent: u8, asked: u64, trail: &mut [u8]) -> u64
    ensures { (trail.new ≡ told_buffer agent asked trail.old)
        × (result ≡ list_number (told_answer agent asked trail.old)) }
{
    let written = write_move(agent, asked, trail);
    list_number(written)
}
