// The report of a run: the listing at the start, a line for each call, the listing at the end.

#![tactic(auto)]

mod typed;

ghost use Rattle.std.specs.Prelude.{◌≡◌, [], ◌∷◌, ◌++◌, ◌/◌, length};
ghost use Rattle.table.specs.Cell.{cell_of};
ghost use Rattle.text.specs.Wrote.{Wrote, Placed, least};
ghost use Rattle.meaning.specs.Listing.{listing};
ghost use Rattle.meaning.specs.Report.{report as report_of};
ghost use Rattle.report.specs.Run.{report_from};

use lines::{write_refused, write_step};
use table::Cell;
use text::offset;
pub use typed::write_typed_report;

// A word with its blank and the listing of a cell, as one line.
fn write_listing_line(word: &[u8], c: Cell, at: usize, buf: &mut [u8]) -> usize
    requires { Placed at buf.old }
    ensures { Wrote ((word.now ++ listing (cell_of c)) ++ (10 ∷ [])) at buf.old buf.new result }
{
    let said = text::write_bytes(word, at, buf);
    let i = offset(at, said, buf.len());
    let listed = listing::write_listing(c, said, &mut buf[i..]);
    let j = offset(at, listed, buf.len());
    text::write_byte(b'\n', listed, &mut buf[j..])
}

// How many pairs of the order count: 16,384 at most, and an odd last byte is none.
fn pairs(order: &[u8]) -> usize
    ensures { result ≡ least (length order.now / 2) 16384 }
{
    text::least(order.len() / 2, 16384)
}

// From an accepted cell on: the first line, a line for each call, and the last line.
fn write_run(c: Cell, order: &[u8], buf: &mut [u8]) -> usize
    ensures { Wrote (report_from c order.now) 0 buf.old buf.new result }
{
    let mut d = c;
    let mut at = write_listing_line(b"start ", c, 0, buf);
    for i in 0..pairs(order) {
        let agent = order[2 * i];
        let s = step::step(d, agent, order[2 * i + 1]);
        let k = offset(0, at, buf.len());
        at = write_step(agent, s.answer, at, &mut buf[k..]);
        d = s.cell;
    }
    let k = offset(0, at, buf.len());
    write_listing_line(b"end ", d, at, &mut buf[k..])
}

// What walk writes for the bytes of the files `cell` and `order`.
pub fn write_report(cell: &[u8], order: &[u8], buf: &mut [u8]) -> usize
    ensures { Wrote (report_of cell.now order.now) 0 buf.old buf.new result }
{
    let r = reader::load(table::bare(), cell);
    match r.verdict {
        Ok(()) => write_run(r.cell, order, buf),
        Err(r) => write_refused(r.number, r.offset, 0, buf),
    }
}
