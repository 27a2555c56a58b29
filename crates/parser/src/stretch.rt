// Bytes that add nothing, many at a time: the word of an action and the digits of a number.
ghost use Rattle.std.specs.Prelude.{◌≡◌, true, ◌+◌};
ghost use Rattle.language.specs.declared.Control.TheVariants.{Dot, Before, Digits};
ghost use Rattle.language.specs.declared.Field.TheVariants.{ActionNumber};
ghost use Rattle.parser.specs.Stretches.{Stands, Stretch};

use super::machine::{is_digit, more_digits};
use language::{Control, Field};

// What was read last, and the byte that comes next.
#[derive(Clone, Copy)]
pub(super) struct Reached {
    pub at: Control,
    pub i: usize,
}

// Whether the word w stands in the text s at i.
fn stands(s: &[u8], i: usize, w: &[u8]) -> bool
    ensures { result ≡ true → Stands s.now i w.now }
{
    if s.len().saturating_sub(i) < w.len() {
        return false;
    }
    for j in 0..w.len() {
        if s[i + j] != w[j] {
            return false;
        }
    }
    true
}

// A number up to v, and its digits from `from` on.
fn digits(s: &[u8], from: usize, f: Field, value: u16) -> Reached
    ensures { Stretch s.now from (Digits f value) result.i result.at }
{
    let mut i = from;
    let mut v = value;
    // A while, for where it stops is part of the answer.
    while i < s.len() {
        let Some(n) = more_digits(v, s[i]) else {
            break;
        };
        v = n;
        i += 1;
    }
    Reached {
        at: Control::Digits(f, v),
        i,
    }
}

// The number of an action of kind k, which begins at i.
fn number(s: &[u8], i: usize, k: u8) -> Reached
    ensures { Stretch s.now i (Before (ActionNumber k)) result.i result.at }
{
    if i < s.len() && is_digit(1, s[i]) {
        return digits(s, i + 1, Field::ActionNumber(k), u16::from(s[i] - b'0'));
    }
    Reached {
        at: Control::Before(Field::ActionNumber(k)),
        i,
    }
}

// An action after a full stop: its word and its number, as far as they are there.
pub(super) fn action(s: &[u8], i: usize) -> Reached
    ensures { Stretch s.now i Dot result.i result.at }
{
    if stands(s, i, b"enter ") {
        return number(s, i + 6, 1);
    }
    if stands(s, i, b"exit ") {
        return number(s, i + 5, 2);
    }
    if stands(s, i, b"open ") {
        return number(s, i + 5, 3);
    }
    if stands(s, i, b"release ") {
        return number(s, i + 8, 4);
    }
    Reached {
        at: Control::Dot,
        i,
    }
}

// As far as the bytes from i on continue a number, after what was read last.
pub(super) fn stretch(s: &[u8], i: usize, at: Control) -> Reached
    ensures { Stretch s.now i at result.i result.at }
{
    if let Control::Digits(f, v) = at {
        return digits(s, i, f, v);
    }
    Reached { at, i }
}
