// Where a place is: the nearest enclosing place of a name, and the innermost that holds or is both of two. A place on its way is read at its
// destination.

#![tactic(auto)]

mod both;
mod named;

ghost use Rattle.std.specs.Prelude.{◌≡◌, ℕ, Bool};
ghost use Rattle.meaning.specs.Where.{found_place, most_outwards, outwards};
ghost use Rattle.locating.specs.Outwards.{Decides, up_in};

pub use both::{common, common_known};
use meaning::Found;
pub use named::{nearest, nearest_known};
use table::Place;

// How many places are looked at, going outwards.
const MOST_OUTWARDS: u8 = 65;

// The number that stands for no place.
const NONE: u8 = 64;

// The place that was found, or none where it is 64.
fn found_place(p: u8) -> Found
    ensures { result ≡ found_place p }
{
    if p == NONE {
        return Ok(None);
    }
    Ok(Some(p))
}

// From q outwards, q itself counted: the first place that passes, told its number and what stands there, or 64. Each place is read once.
fn first_outwards<F: Fn(u8, Place) -> bool>(ps: [Place; 64], q: u8, passes: F) -> u8
    requires { F.IsAlwaysCallable passes }
    ensures { (f : ℕ → Bool) → Decides ps (F.post passes) f → result ≡ outwards most_outwards (up_in ps) f q }
{
    let mut at = q;
    for _turn in 0..MOST_OUTWARDS {
        let x = table::place_at(ps, at);
        if passes(at, x) {
            return at;
        }
        if at == 0 {
            return NONE;
        }
        at = x.parent;
    }
    NONE
}
