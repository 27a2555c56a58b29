// The listing call: refused, or the listing in the lent buffer. What it writes, lister writes.

#![tactic(auto)]

ghost use Rattle.std.specs.Prelude.{◌≡◌};
ghost use Rattle.table.specs.Cell.{cell_of};
ghost use Rattle.meaning.specs.Listing.{listing, list_answer, list_buffer};
ghost use Rattle.text.specs.Wrote.{Wrote};
ghost use Rattle.listing.specs.Known.{known_answer, known_buffer};

use meaning::Listed;
use meaning::refusals::{TOO_LONG, UNSOUND_TABLE};
use table::Cell;

// The listing of any cell, sound or not, at a position, as far as there is room; answers the position after it.
pub fn write_listing(c: Cell, at: usize, buf: &mut [u8]) -> usize
    ensures { Wrote (listing (cell_of c)) at buf.old buf.new result }
{
    lister::write_if(c, false, at, buf)
}

// The listing call, told whether the table is sound: refused where it is not, then where the listing is longer than the
// buffer.
pub fn list_known(known: bool, c: Cell, buf: &mut [u8]) -> Listed
    ensures { (result ≡ known_answer known (cell_of c) buf.old) × (buf.new ≡ known_buffer known (cell_of c) buf.old) }
{
    if !known {
        return Err(UNSOUND_TABLE);
    }
    let n = lister::write_if(c, true, 0, buf);
    if buf.len() < n {
        return Err(TOO_LONG);
    }
    Ok(n)
}

// The listing call.
pub fn list(c: Cell, buf: &mut [u8]) -> Listed
    ensures { (result ≡ list_answer (cell_of c) buf.old) × (buf.new ≡ list_buffer (cell_of c) buf.old) }
{
    list_known(soundness::is_sound(c), c, buf)
}
