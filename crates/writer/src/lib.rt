// The two bytes that a move adds to a trail, by what an ask told right before its step: a host writes a run's trail with it.

#![tactic(auto)]

ghost use Rattle.std.specs.Prelude.{◌≡◌};
ghost use Rattle.trail.specs.Written.{word_moves, tells_move, told_answer, told_buffer};

use meaning::Listed;
use meaning::refusals::TOO_LONG;

// Whether a word, by its number, says a move: left, opened or put.
fn says_move(word: u64) -> bool
    ensures { result ≡ word_moves word }
{
    matches!(word, 5 | 7 | 8)
}

// Whether the number of an ask says a move: no refusal, and the word of one.
fn tells_move(asked: u64) -> bool
    ensures { result ≡ tells_move asked }
{
    asked % 256 == 0 && says_move(asked / 256 % 256)
}

// The bytes of a move of this agent, by the number that an ask answered, at the start of what is left of a trail's buffer: how many they are, none where
// it says no move, or 12 where there is no room for them.
pub fn write_move(agent: u8, asked: u64, trail: &mut [u8]) -> Listed
    ensures { (trail.new ≡ told_buffer agent asked trail.old) × (result ≡ told_answer agent asked trail.old) }
{
    if !tells_move(asked) {
        return Ok(0);
    }
    // By numbers: with a pattern of the two bytes the proof did not close.
    if trail.len() < 2 {
        return Err(TOO_LONG);
    }
    trail[0] = agent;
    trail[1] = (asked / 16777216 % 256) as u8;
    Ok(2)
}
