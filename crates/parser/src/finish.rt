// The end of a text, and the answer.
ghost use Rattle.std.specs.Prelude.{◌≡◌};
ghost use Rattle.parser.specs.Site.{last_number, last_of, answered_with};

use language::{Control, Event, Field, Moved};
use meaning::refusals::TOO_MANY;
use meaning::{Loaded, Rejection};
use table::Cell;

// The end of a text after a number: an action's last, with no place open.
#[tactic(auto, unfolding(crate::specs::Site::last_number))]
fn last_number(f: Field, v: u16, d: usize) -> Moved
    ensures { result ≡ last_number f v d }
{
    match f {
        Field::ActionNumber(kind) => {
            if d == 0 {
                Moved::To(Control::Bare, 0, Event::NewAction(kind, v))
            } else {
                Moved::Off
            }
        }
        _ => Moved::Off,
    }
}

// The end of a text as if it were one byte more: it adds nothing, or the last action; or the text stops early. Where a text may end,
// what was read last is `Bare`, after which no byte comes.
#[tactic(auto, unfolding(crate::specs::Site::last_of))]
pub(super) fn last(c: Control, d: usize) -> Moved
    ensures { result ≡ last_of c d }
{
    match c {
        Control::Bare => Moved::To(Control::Bare, 0, Event::Nothing),
        Control::After => {
            if d == 0 {
                Moved::To(Control::Bare, 0, Event::Nothing)
            } else {
                Moved::Off
            }
        }
        Control::Digits(f, v) => last_number(f, v, d),
        _ => Moved::Off,
    }
}

// The answer where the text belongs to the language: b is its cell, whose row is made here, and c the one that was there.
#[tactic(auto, unfolding(crate::specs::Site::answered_with))]
pub(super) fn answered(c: Cell, b: Cell, over: bool, n: usize) -> Loaded
    ensures { result ≡ answered_with c b over n }
{
    if over {
        return Loaded {
            cell: c,
            verdict: Err(Rejection {
                number: TOO_MANY,
                offset: n,
            }),
        };
    }
    Loaded {
        cell: Cell {
            order: order::later(b.order, b.used.remove(0)),
            ..b
        },
        verdict: Ok(()),
    }
}
