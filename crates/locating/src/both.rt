// The innermost place that holds or is both of two.
ghost use Rattle.std.specs.Prelude.{◌≡◌};
ghost use Rattle.sets.specs.Set.{member, set_of};
ghost use Rattle.meaning.specs.Where as places;
ghost use Rattle.locating.specs.Outwards.{up_in};
ghost use Rattle.locating.specs.Known.{known_common};

use super::{MOST_OUTWARDS, first_outwards, found_place};
use meaning::Found;
use meaning::refusals::{NOT_YET_GIVEN, PLACE_TOO_LARGE, UNSOUND_TABLE};
use sets::Set;
use table::{Cell, Place};

// The places that hold or are r.
fn holders(ps: [Place; 64], r: u8) -> Set
    ensures { result ≡ set_of (λ p. places.holds (up_in ps) p r) }
{
    let mut s = Set::EMPTY;
    let mut at = r;
    for _turn in 0..MOST_OUTWARDS {
        s = s.insert(at);
        if at == 0 {
            return s;
        }
        at = table::place_at(ps, at).parent;
    }
    s
}

// From q outwards, q itself counted: the first place that is in s, or 64.
fn first_among(ps: [Place; 64], s: Set, q: u8) -> u8
    ensures { result ≡ places.outwards places.most_outwards (up_in ps) (member s) q }
{
    first_outwards(ps, q, |p, _| s.has(p))
}

// The innermost place that holds or is both q and r, or 64.
fn common_place(ps: [Place; 64], q: u8, r: u8) -> u8
    ensures { result ≡ places.common (up_in ps) q r }
{
    let s = holders(ps, r);
    first_among(ps, s, q)
}

// The innermost place that holds or is both of two, told whether the cell is sound: refusal 10, then 3 for either, then 5 for either, then the
// place.
pub fn common_known(known: bool, c: Cell, place: u8, other: u8) -> Found
    ensures { result ≡ known_common known c place other }
{
    if known {
        if 64 <= place {
            return Err(PLACE_TOO_LARGE);
        }
        if 64 <= other {
            return Err(PLACE_TOO_LARGE);
        }
        let used = c.used;
        if used.has(place) {
            if used.has(other) {
                let ps = c.places;
                let p = common_place(ps, place, other);
                return found_place(p);
            }
        }
        return Err(NOT_YET_GIVEN);
    }
    Err(UNSOUND_TABLE)
}

// The innermost place that holds or is both of two.
pub fn common(c: Cell, place: u8, other: u8) -> Found
    ensures { result ≡ places.common_of c place other }
{
    let known = soundness::is_sound(c);
    common_known(known, c, place, other)
}
