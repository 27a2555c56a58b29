// What soundness asks of the places: each by itself, and that all lead to the floor.
ghost use Rattle.std.specs.Prelude.{◌≡◌, ◌<◌};
ghost use Rattle.sets.specs.Set.{member, inserted_if};
ghost use Rattle.table.specs.Sound.{nameless};
ghost use Rattle.soundness.specs.Lead.{above, Ways, Followed};
ghost use Rattle.soundness.specs.Pass.{floor_stands, floor_fits, floor_sound, child_stands, child_fits, all_lead};

use super::turns::Held;
use sets::Set;
use table::{Name, Place, at};

// The floor alone.
pub(super) const FLOOR: Set = Set { bits: 1 };

// Whether the floor is as it should be, with its lock.
#[tactic(auto, unfolding(crate::specs::Pass::floor_fits))]
fn floor_fits(x: Place, lock: u8, claimed: bool, going: bool) -> bool
    ensures { result ≡ floor_fits x lock claimed going }
{
    (lock == 64 || claimed) && floor_stands(x, going)
}

// Whether the floor is in use and as it should be, beside the locks that agents hold and the places that they move.
#[tactic(auto, unfolding(crate::specs::Pass::floor_sound))]
pub(super) fn floor_sound(x: Place, lock: u8, used: Set, held: Held) -> bool
    ensures { result ≡ floor_sound x lock used held.claimed held.going }
{
    used.has(0) && floor_fits(x, lock, held.claimed.has(0), held.going.has(0))
}

// Whether a name and its three keys are 0.
fn is_nameless(x: Name) -> bool
    ensures { result ≡ nameless x }
{
    x.name == 0 && x.entering == 0 && x.exiting == 0 && x.opening == 0
}

// Whether the floor has no name, no keys and no parent, is not linked, and none of its agents is on its way.
#[tactic(auto, unfolding(crate::specs::Pass::floor_stands))]
fn floor_stands(x: Place, going: bool) -> bool
    ensures { result ≡ floor_stands x going }
{
    is_nameless(x.name) && x.parent == 0 && x.way != 0 && !going
}

// Whether any other place in use is as it should be. known: its parent is in use.
#[tactic(auto, unfolding(crate::specs::Pass::child_fits))]
fn child_fits(x: Place, lock: u8, known: bool, claimed: bool, going: bool) -> bool
    ensures { result ≡ child_fits x lock known claimed going }
{
    (lock == 64 || claimed) && child_stands(x, known, going)
}

// Whether any other place has a name and a parent in use, and an agent of it is on its way just where it is not linked.
#[tactic(auto, unfolding(crate::specs::Pass::child_stands))]
fn child_stands(x: Place, known: bool, going: bool) -> bool
    ensures { result ≡ child_stands x known going }
{
    x.name.name >= 1 && known && (x.way == 0) != going
}

// Whether place q, another one in use, is as it should be, beside the locks that agents hold and the places that they move.
pub(super) fn child_sound(x: Place, lock: u8, q: u8, used: Set, held: Held) -> bool
    ensures { result ≡ child_fits x lock (member used x.parent) (member held.claimed q) (member held.going q) }
{
    let known = used.has(x.parent);
    child_fits(x, lock, known, held.claimed.has(q), held.going.has(q))
}

// The places known to lead to the floor, with q where its parent is one of them.
pub(super) fn known_with(known: Set, q: u8, parent: u8) -> Set
    ensures { result ≡ inserted_if known q (member known parent) }
{
    known.insert_if(q, known.has(parent))
}

// The places known to lead to the floor, with those on the way from q to one of them; without these where the way comes back to itself.
fn followed(up: &[u8; 64], known: Set, q: u8) -> Set
    requires ways { Ways up.now known }
    requires q_bound { q < 64 }
    ensures { Followed up.now known q result }
{
    let mut path = known;
    let mut p = q;
    while !path.has(p) {
        path = path.insert(p);
        p = up[at(p)];
    }
    if known.has(p) { path } else { known }
}

// Whether 64 steps up lead each place in use to the floor: from each that is not known to, the way up is followed to one that is.
pub(super) fn all_lead(up: &[u8; 64], used: Set, known: Set) -> bool
    requires { Ways up.now known }
    ensures { result ≡ all_lead (above up.now) used }
{
    let mut all = known;
    let unknown = Set {
        bits: used.bits ^ known.bits,
    };
    for q in unknown {
        all = followed(up, all, q);
        if !all.has(q) {
            return false;
        }
    }
    true
}
