// The nearest enclosing place of a name.
ghost use Rattle.std.specs.Prelude.{◌≡◌};
ghost use Rattle.meaning.specs.Where as places;
ghost use Rattle.locating.specs.Outwards.{up_in, name_in, named_in};
ghost use Rattle.locating.specs.Known.{known_nearest};

use super::{NONE, first_outwards, found_place};
use meaning::Found;
use meaning::refusals::{NOT_YET_GIVEN, PLACE_TOO_LARGE, UNSOUND_TABLE};
use table::{Cell, Place};

// From q outwards, q itself counted: the first place of this name, or 64.
fn first_named(ps: [Place; 64], q: u8, name: u16) -> u8
    ensures { result ≡ places.outwards places.most_outwards (up_in ps) (named_in ps name) q }
{
    first_outwards(ps, q, |_, x| x.name.name == name)
}

// The nearest place of this name that encloses q, or 64: nothing encloses the floor.
fn nearest_place(ps: [Place; 64], q: u8, name: u16) -> u8
    ensures { result ≡ places.nearest (up_in ps) (name_in ps) q name }
{
    if q == 0 {
        NONE
    } else {
        let x = table::place_at(ps, q);
        first_named(ps, x.parent, name)
    }
}

// The nearest enclosing place of a name, told whether the cell is sound: refusal 10, then 3 and 5, then the place.
pub fn nearest_known(known: bool, c: Cell, place: u8, name: u16) -> Found
    ensures { result ≡ known_nearest known c place name }
{
    if known {
        if 64 <= place {
            return Err(PLACE_TOO_LARGE);
        }
        let used = c.used;
        if used.has(place) {
            let ps = c.places;
            let p = nearest_place(ps, place, name);
            return found_place(p);
        }
        return Err(NOT_YET_GIVEN);
    }
    Err(UNSOUND_TABLE)
}

// The nearest enclosing place of a name.
pub fn nearest(c: Cell, place: u8, name: u16) -> Found
    ensures { result ≡ places.nearest_of c place name }
{
    let known = soundness::is_sound(c);
    nearest_known(known, c, place, name)
}
