// What hosts call (Level B): by value here, over a lent cell in `exports`. No call asks anything of its caller.

#![tactic(auto)]

mod card;
mod exports;
mod steps;
mod version;
mod written;

ghost use Rattle.std.specs.Prelude.{◌≡◌, cond};
ghost use Rattle.meaning.specs.Answers.{Sound, Unsound};
ghost use Rattle.meaning.specs.Codes.{check_of, idle_of};
ghost use Rattle.keeper.specs.Known.{known_idle};

// The calls of hosts in C and Rust and of a card, which crate `keeper_c` exports: the cell is lent, and each answer is a number.
pub use card::{keeper_clear, keeper_command};
pub use exports::{
    keeper_ask, keeper_bare, keeper_ceiling, keeper_check, keeper_commit, keeper_common,
    keeper_idle, keeper_list, keeper_load, keeper_nearest, keeper_read, keeper_step, keeper_touch,
    keeper_touches,
};
use meaning::refusals::UNSOUND_TABLE;
use meaning::{Checked, Idled};
use table::Cell;
pub use version::{keeper_cell_bytes, keeper_version};
pub use written::keeper_trail;

// A bare floor: `bare_table`.
pub use table::bare;

// The cell of a cell file, or the refusal and the cell as it was: `load_of`.
pub use reader::load;

// The cell of a text in the listing's language, or the refusal and the cell as it was: `read_of`.
pub use parser::read;

// One step call: `step_of`.
pub use step::step;

// What a step would give, `ask_of`, and the step made only if it is still that: told the three, `commit_of`, or the number of an ask, `handed_of`.
pub use asking::{ask, commit, handed};

// A touch call, `touch_of`, and the touches of a place, `touches_of`.
pub use touch::{touch, touches};

// Where a place is: the nearest enclosing place of a name, `nearest_of`, and the innermost place that holds or is both of two, `common_of`.
pub use locating::{common, nearest};

// How many step calls can still change the cell, at most: `ceiling_of`.
pub use limit::ceiling;

// The listing in a lent text, or the refusal and the text as it was: `list_answer` and `list_buffer`.
pub use listing::list;

// The bytes of a move in what is left of a trail's buffer, by the number that an ask answered, or the refusal and the buffer as it was:
// `told_answer` and `told_buffer`.
pub use writer::write_move;

// Every answer as a number.
pub use numbers::{
    ask_number, check_number, found_number, idle_number, limit_number, list_number, load_number,
    step_number, touch_number, word_number,
};

// What a check answers: 10 is its one refusal.
fn checked(sound: bool) -> Checked
    ensures { result ≡ cond sound Sound (Unsound 10) }
{
    if sound { Ok(()) } else { Err(UNSOUND_TABLE) }
}

// What a call whether all agents are asleep or done answers, told whether the cell is sound and whether they are.
fn idled(known: bool, rest: bool) -> Idled
    ensures { result ≡ known_idle known rest }
{
    if known { Ok(rest) } else { Err(UNSOUND_TABLE) }
}

// A soundness check.
pub fn check(c: Cell) -> Checked
    ensures { result ≡ check_of c }
{
    checked(soundness::is_sound(c))
}

// Whether all agents are asleep or done.
pub fn idle(c: Cell) -> Idled
    ensures { result ≡ idle_of c }
{
    idled(soundness::is_sound(c), table::is_idle(c))
}
