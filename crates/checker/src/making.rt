// An opening or a release, made on the table.
ghost use Rattle.std.specs.Prelude.{◌≡◌};
ghost use Rattle.sets.specs.Set.{member};
ghost use Rattle.checker.specs.OnTable.{motion_of, made_on};

use moves::Motion;
use sets::Set;
use table::{Agent, Cell};
use updates::at_stage;

// How a place moves then: one in the agent's own is dissolved, or a new one is put.
fn motion_of(used: Set, a: Agent) -> Motion
    ensures { result ≡ motion_of (member used) a }
{
    let n = table::next_action(a);
    if n.kind == 3 {
        return Motion::Dissolve;
    }
    let q = table::fresh_number(used);
    Motion::Put(q)
}

// The table after agent x, which is a, opens the place b or releases: it stands at its own place and has chosen b.
#[inline(never)]
pub(super) fn make(c: Cell, x: u8, a: Agent, b: u8) -> Cell
    ensures { result ≡ made_on c x a b }
{
    let used = c.used;
    let o = at_stage(a, 3, a.home, b);
    let m = motion_of(used, a);
    let mut d = c;
    let _answer = moving::shift_lent(&mut d, x, o, m);
    d
}
