// Texts written over a part of a buffer.
//
// Each writer is handed a position and lent the part of the buffer from there on. It writes as much of its text as there is
// room for and answers the position after the whole text.

#![tactic(auto)]

ghost use Rattle.std.specs.Prelude.{◌≡◌, [], ◌∷◌, ◌+◌, ◌-◌};
ghost use Rattle.meaning.specs.Text.{digits, decimal};
ghost use Rattle.text.specs.Wrote.{Wrote, Placed, capped, least as least_of};

// a + b, or the largest number where that is more.
#[tactic(auto, using(crate::proofs::TextLaws::capped_min))]
pub fn plus(a: usize, b: usize) -> usize
    ensures { result ≡ capped (a + b) }
{
    a.saturating_add(b)
}

// The smaller of two numbers.
#[tactic(auto, using(crate::proofs::TextLaws::least_min))]
pub fn least(a: usize, b: usize) -> usize
    ensures { result ≡ least_of a b }
{
    a.min(b)
}

// How far into a part with so much room, lent from `from` on, the position `at` lies: at its end where it is past it.
#[tactic(auto, using(crate::proofs::TextLaws::least_min))]
pub fn offset(from: usize, at: usize, room: usize) -> usize
    ensures { result ≡ least_of (at - from) room }
{
    at.saturating_sub(from).min(room)
}

#[tactic(auto, using(crate::proofs::TextLaws::copied))]
pub fn write_bytes(t: &[u8], at: usize, buf: &mut [u8]) -> usize
    ensures { Wrote t.now at buf.old buf.new result }
{
    let n = t.len().min(buf.len());
    buf[..n].copy_from_slice(&t[..n]);
    plus(at, t.len())
}

#[tactic(auto, using(crate::proofs::TextLaws::one_byte, crate::proofs::TextLaws::no_byte))]
pub fn write_byte(x: u8, at: usize, buf: &mut [u8]) -> usize
    ensures { Wrote (x ∷ []) at buf.old buf.new result }
{
    if let Some(first) = buf.first_mut() {
        *first = x;
    }
    plus(at, 1)
}

// A number of at most k decimal digits.
fn write_digits(k: u8, n: u64, at: usize, buf: &mut [u8]) -> usize
    requires { Placed at buf.old }
    ensures { Wrote (digits k n) at buf.old buf.new result }
{
    if k == 0 {
        return at;
    }
    let x = b'0' + (n % 10) as u8;
    if n < 10 {
        return write_byte(x, at, buf);
    }
    let mid = write_digits(k - 1, n / 10, at, buf);
    let i = offset(at, mid, buf.len());
    write_byte(x, mid, &mut buf[i..])
}

// A number in decimal.
pub fn write_number(n: u64, at: usize, buf: &mut [u8]) -> usize
    ensures { Wrote (decimal n) at buf.old buf.new result }
{
    plus(at, write_digits(20, n, 0, buf))
}
