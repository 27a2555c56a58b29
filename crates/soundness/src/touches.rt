// What soundness asks of the touches: the sum over the places in use has a bound.
ghost use Rattle.std.specs.Prelude.{◌≡◌};
ghost use Rattle.soundness.specs.Left.{left_of};

use sets::Set;

// The largest sum of touches in a sound table.
const MOST: u64 = 1000000000000;

// How many touches may still come beside those of the places in use; none where these pass the bound.
pub fn touches_left(ts: &[u64; 64], used: Set) -> Option<u64>
    ensures { result ≡ left_of ts.now used }
{
    let mut left = MOST;
    for q in used {
        // checked_sub was tried, and is slower: five instructions more a place.
        let n = ts[q as usize];
        if n > left {
            return None;
        }
        left -= n;
    }
    Some(left)
}
