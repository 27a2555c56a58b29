// The report of the files of which walk's buffers hold the first bytes. Nothing that was not read could change it, and none of
// it is cut.

#![tactic(auto)]

mod typed;

ghost use Rattle.std.specs.Prelude.{◌≡◌, List, ℕ, take};
ghost use Rattle.text.specs.Wrote.{Wrote};
ghost use Rattle.meaning.specs.Report.{report as report_of};
ghost use Rattle.buffers.specs.Held.{Bytes, Holds, Whole};

pub use typed::write_typed;

// How many bytes walk reads of a cell file. The first 6,400 decide its answer.
pub const CELL_BYTES: usize = 8192;

// How many bytes walk reads of an order: its 16,384 pairs.
pub const ORDER_BYTES: usize = 32768;

// How much room walk has for a file with a typed layout. It is read whole or not at all: one that fills the room is too long.
pub const TYPED_BYTES: usize = 65536;

// How much room walk has for a report. None is longer than 316,502 bytes.
pub const TEXT_BYTES: usize = 524288;

// The report of the first n bytes of a cell file's buffer and the first m of an order's, or of all where there are fewer.
fn write_first(cell: &[u8], n: usize, order: &[u8], m: usize, text: &mut [u8]) -> usize
    ensures wrote { Wrote (report_of (take n cell.now) (take m order.now)) 0 text.old text.new result }
    ensures bytes { Bytes order.now }
{
    let i = text::least(n, cell.len());
    let j = text::least(m, order.len());
    report::write_report(&cell[..i], &order[..j], text)
}

// The report of the cell file and the order of which n and m bytes were read, whole, at the text's start; answers its length.
pub fn write_whole(
    cell: &[u8; CELL_BYTES],
    n: usize,
    order: &[u8; ORDER_BYTES],
    m: usize,
    text: &mut [u8; TEXT_BYTES],
) -> usize
    ensures whole { Whole (report_of (take n cell.now) (take m order.now)) text.old text.new result }
    ensures by_index { (file pairs : List ℕ) → Holds file cell.now n → Holds pairs order.now m
        → take result text.new ≡ report_of file pairs }
{
    write_first(cell, n, order, m, text)
}
