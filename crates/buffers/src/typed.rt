// The report of the typed layout that walk's buffer holds, and of the order of which another holds the first bytes.
ghost use Rattle.std.specs.Prelude.{◌≡◌, List, ℕ, take};
ghost use Rattle.text.specs.Wrote.{Wrote};
ghost use Rattle.language.specs.TypedReport.{typed_report};
ghost use Rattle.buffers.specs.Held.{Bytes, Holds, Whole};

use crate::{ORDER_BYTES, TEXT_BYTES, TYPED_BYTES};

// The typed report of the first n bytes of a layout's buffer and the first m of an order's, or of all where there are fewer.
fn write_first_typed(file: &[u8], n: usize, order: &[u8], m: usize, text: &mut [u8]) -> usize
    ensures wrote { Wrote (typed_report (take n file.now) (take m order.now)) 0 text.old text.new result }
    ensures bytes { Bytes order.now }
{
    let i = text::least(n, file.len());
    let j = text::least(m, order.len());
    report::write_typed_report(&file[..i], &order[..j], text)
}

// The typed report of the file, of which all n bytes were read, and the order, of which m were, whole, at the text's start; answers
// its length.
pub fn write_typed(
    file: &[u8; TYPED_BYTES],
    n: usize,
    order: &[u8; ORDER_BYTES],
    m: usize,
    text: &mut [u8; TEXT_BYTES],
) -> usize
    ensures whole { Whole (typed_report (take n file.now) (take m order.now)) text.old text.new result }
    ensures by_index { (pairs : List ℕ) → Holds pairs order.now m → take result text.new ≡ typed_report (take n file.now) pairs }
{
    write_first_typed(file, n, order, m, text)
}
