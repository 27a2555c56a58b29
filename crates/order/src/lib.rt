// A row of place numbers, the longest standing first.

#![tactic(auto)]

ghost use Rattle.std.specs.Prelude.{◌≡◌, ℕ, Bool, ◌≤◌, ◌++◌, ltb, length, take};
ghost use Rattle.sets.specs.Set.{member};
ghost use Rattle.order.specs.Row.{first_in, all_small, row_fits, counting_row, filled_row};
ghost use Rattle.order.specs.Parted.{Decides, IsParted};

use sets::Set;

// All numbers as they are counted: the row of a bare floor.
pub fn counting_row() -> [u8; 64]
    ensures { result ≡ counting_row }
{
    let mut row = [0; 64];
    for q in 0..64u8 {
        row[q as usize] = q;
    }
    row
}

// The first of the row that is a member of s, or 64.
pub fn first_in(order: [u8; 64], s: Set) -> u8
    ensures { result ≡ first_in (member s) order }
{
    for q in order {
        if s.has(q) {
            return q;
        }
    }
    64
}

// The bits that the numbers of a row have between them, which are below 64 where every number is. No early exit: the compiler takes several
// numbers at once.
fn bits_of(order: [u8; 64]) -> u8
    ensures { ltb result 64 ≡ all_small order }
{
    let mut bits = 0;
    for q in order {
        bits |= q;
    }
    bits
}

// Whether every number below 64 stands in the row, and no other: the bits that they have, and then all numbers as bits of one word.
#[tactic(auto, using(crate::proofs::RowLawsGather::large_none))]
pub fn is_row(order: [u8; 64]) -> bool
    ensures { result ≡ row_fits order }
{
    if bits_of(order) >= 64 {
        return false;
    }
    let mut seen = 0u64;
    for q in order {
        seen |= 1 << (q % 64);
    }
    seen == u64::MAX
}

// A row that a test parts: at the front of one row the numbers that do not pass and how many they are, at the front of another those that pass, each
// in their order.
#[derive(Clone, Copy)]
struct Parted {
    others: [u8; 64],
    count: usize,
    members: [u8; 64],
}

impl Parted {
    // The others, and behind them as many of lasts as there is room for.
    fn then(self, lasts: [u8; 64]) -> [u8; 64]
        requires { self.count ≤ 64 }
        ensures { result ≡ take 64 (take self.count self.others ++ lasts) }
    {
        let mut row = self.others;
        row[self.count..].copy_from_slice(&lasts[..64 - self.count]);
        row
    }
}

// The row parted by a test. Each number is written to both, and counts in one of them: no turn branches.
fn part<F: Fn(u8) -> bool>(order: [u8; 64], passes: F) -> Parted
    requires { F.IsAlwaysCallable passes }
    ensures room { result.count ≤ 64 }
    ensures parts { (f : ℕ → Bool) → Decides (F.post passes) f → IsParted f order result }
{
    let mut others = order;
    let mut members = order;
    let mut count = 0;
    let mut m = 0;
    for q in order {
        let one = usize::from(passes(q));
        others[count] = q;
        members[m] = q;
        count += 1 - one;
        m += one;
    }
    Parted {
        others,
        count,
        members,
    }
}

// The order once the members of s are the latest, in their order among themselves.
pub fn later(order: [u8; 64], s: Set) -> [u8; 64]
    ensures { result ≡ Rattle.order.specs.Row.later (member s) order }
{
    let by = part(order, |q| s.has(q));
    let members = by.members;
    by.then(members)
}

// The order once q is the latest: the others, and then q as often as it stood there.
pub fn latest(order: [u8; 64], q: u8) -> [u8; 64]
    ensures { result ≡ Rattle.order.specs.Row.latest q order }
{
    part(order, |r| r == q).then([q; 64])
}

// The row of a loaded cell: all numbers but the members of s as they are counted, and behind them the first of those that
// came, as many as there is room for.
pub fn loaded_row(s: Set, came: [u8; 64]) -> [u8; 64]
    ensures { result ≡ filled_row (member s) came }
{
    part(counting_row(), |q| s.has(q)).then(came)
}
