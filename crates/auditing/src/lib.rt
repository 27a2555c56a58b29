// What audit writes: the finding on the files that its buffers hold, as one line. Nothing that was not read could change it, and none
// of it is cut.

#![tactic(auto)]

ghost use Rattle.std.specs.Prelude.{◌≡◌, List, ◌++◌, ℕ, ◌<◌, take};
ghost use Rattle.text.specs.Wrote.{Wrote};
ghost use Rattle.meaning.specs.Text.{ascii};
ghost use Rattle.trail.specs.Trail.{finding};
ghost use Rattle.trail.specs.declared.Finding.TheVariants.{Denied};
ghost use Rattle.trail.specs.AuditLine.{reason_text, move_number, audit_line};
ghost use Rattle.buffers.specs.Held.{Holds, Whole};
ghost use Rattle.auditing.specs.Counted.{Counted};

use buffers::CELL_BYTES;
use text::{offset, write_bytes};
use trail::Finding;

// How much room audit has for a trail. It is read whole or not at all: one that fills the room is too long. No cell permits more than
// 1,024 moves, which are 2,048 bytes.
pub const TRAIL_BYTES: usize = 2097152;

// How much room audit has for a final listing, likewise. No listing of an accepted file is longer than 16,225 bytes.
pub const FINAL_BYTES: usize = 65536;

// How much room audit has for its line. None is longer than 50 bytes.
pub const LINE_BYTES: usize = 64;

// The number that the line of a denial tells: of the move that is denied, from 1 on, or how many moves there are.
fn move_number(moves: usize, reason: u8) -> usize
    requires { moves < 18446744073709551615 }
    ensures { result ≡ move_number moves reason }
{
    if reason < 3 { moves + 1 } else { moves }
}

// A blank, a reason in words, and the line's end.
fn write_reason(reason: u8, at: usize, buf: &mut [u8]) -> usize
    ensures { Wrote ((ascii " " ++ reason_text reason) ++ ascii "\n") at buf.old buf.new result }
{
    if reason == 1 {
        write_bytes(b" not permitted\n", at, buf)
    } else if reason == 2 {
        write_bytes(b" no action left\n", at, buf)
    } else if reason == 3 {
        write_bytes(b" odd last byte\n", at, buf)
    } else {
        write_bytes(b" other layout\n", at, buf)
    }
}

// The line of a denial.
fn write_denied(moves: usize, reason: u8, buf: &mut [u8]) -> usize
    requires { moves < 18446744073709551615 }
    ensures { Wrote (audit_line (Denied moves reason)) 0 buf.old buf.new result }
{
    let number = move_number(moves, reason);
    let said = write_bytes(b"no ", 0, buf);
    let i = offset(0, said, buf.len());
    let numbered = text::write_number(number as u64, said, &mut buf[i..]);
    let j = offset(0, numbered, buf.len());
    write_reason(reason, numbered, &mut buf[j..])
}

// The line of a finding.
fn write_finding(f: Finding, at: usize, buf: &mut [u8]) -> usize
    requires { Counted f }
    ensures { Wrote (audit_line f) at buf.old buf.new result }
{
    match f {
        Finding::Upheld => write_bytes(b"yes\n", at, buf),
        Finding::Denied(moves, reason) => text::plus(at, write_denied(moves, reason, buf)),
        Finding::BadFile(number, place) => lines::write_refused(number, place, at, buf),
    }
}

// The line for the first n bytes of a cell file's buffer, the first m of a trail's and the first k of a final listing's, or for all
// where there are fewer.
fn write_first(
    cell: &[u8],
    n: usize,
    trail: &[u8],
    m: usize,
    last: &[u8],
    k: usize,
    text: &mut [u8],
) -> usize
    ensures { Wrote (audit_line (finding (take n cell.now) (take m trail.now) (take k last.now))) 0 text.old text.new result }
{
    let i = text::least(n, cell.len());
    let j = text::least(m, trail.len());
    let h = text::least(k, last.len());
    let f = checker::check_trail(&cell[..i], &trail[..j], &last[..h]);
    write_finding(f, 0, text)
}

// The line for the cell file, of which n bytes were read, and for the trail and the final listing, of which all m and k bytes were,
// whole, at the text's start; answers its length.
pub fn write_audit(
    cell: &[u8; CELL_BYTES],
    n: usize,
    trail: &[u8; TRAIL_BYTES],
    m: usize,
    last: &[u8; FINAL_BYTES],
    k: usize,
    text: &mut [u8; LINE_BYTES],
) -> usize
    ensures whole { Whole (audit_line (finding (take n cell.now) (take m trail.now) (take k last.now))) text.old text.new result }
    ensures by_index { (file : List ℕ) → Holds file cell.now n
        → take result text.new ≡ audit_line (finding file (take m trail.now) (take k last.now)) }
{
    write_first(cell, n, trail, m, last, k, text)
}
