// What walk writes for a typed layout: the report of the cell that is read, or the refusal, the text and a caret under the byte.
ghost use Rattle.std.specs.Prelude.{◌≡◌, ◌++◌, map, replicate};
ghost use Rattle.text.specs.Wrote.{Wrote, Placed};
ghost use Rattle.meaning.specs.Report.{refused_line};
ghost use Rattle.language.specs.TypedReport.{line_of, shown, shown_from, window, caret_line, pointed, typed_report};

use crate::write_run;
use lines::write_refused;
use text::{least, offset};

// The longest part of a text that is shown, and how many bytes of it stand before the caret.
const MOST_SHOWN: usize = 72;

const SHOWN_BEFORE: usize = 40;

// The line of a file: all but a last byte 10, and a byte 13 before that.
fn line_of(file: &[u8]) -> &[u8]
    ensures { result.now ≡ line_of file.now }
{
    match file {
        [line @ .., b'\n'] => match line {
            [line @ .., b'\r'] => line,
            _ => line,
        },
        _ => file,
    }
}

// A byte as it is shown.
#[tactic(auto, unfolding(language::specs::TypedReport::shown))]
fn shown_byte(b: u8) -> u8
    ensures { result ≡ shown b }
{
    match b {
        b' '..=b'~' => b,
        _ => b'?',
    }
}

// The bytes of a text as they are shown.
fn write_shown(t: &[u8], at: usize, buf: &mut [u8]) -> usize
    ensures { Wrote (map shown t.now) at buf.old buf.new result }
{
    for i in 0..least(t.len(), buf.len()) {
        buf[i] = shown_byte(t[i]);
    }
    text::plus(at, t.len())
}

// So many blanks.
fn write_blanks(count: usize, at: usize, buf: &mut [u8]) -> usize
    ensures { Wrote (replicate count 32) at buf.old buf.new result }
{
    for i in 0..least(count, buf.len()) {
        buf[i] = b' ';
    }
    text::plus(at, count)
}

// The caret's line, with so many bytes before the caret.
fn write_caret(before: usize, at: usize, buf: &mut [u8]) -> usize
    requires { Placed at buf.old }
    ensures { Wrote (caret_line before) at buf.old buf.new result }
{
    let mid = write_blanks(before, at, buf);
    let i = offset(at, mid, buf.len());
    text::write_bytes(b"^\n", mid, &mut buf[i..])
}

// The first byte that is shown of a text with so many bytes.
#[tactic(auto, unfolding(language::specs::TypedReport::shown_from))]
fn shown_from(size: usize, place: usize) -> usize
    ensures { result ≡ shown_from size place }
{
    if size <= MOST_SHOWN {
        0
    } else {
        place.saturating_sub(SHOWN_BEFORE)
    }
}

// The bytes of a text that are shown.
fn write_window(line: &[u8], place: usize, at: usize, buf: &mut [u8]) -> usize
    ensures { Wrote (map shown (window line.now place)) at buf.old buf.new result }
{
    let from = shown_from(line.len(), place);
    let i = least(from, line.len());
    let rest = &line[i..];
    let m = least(rest.len(), MOST_SHOWN);
    write_shown(&rest[..m], at, buf)
}

// The text in a line of its own, and the caret's line under it.
fn write_pointed(line: &[u8], place: usize, at: usize, buf: &mut [u8]) -> usize
    requires { Placed at buf.old }
    ensures { Wrote (pointed line.now place) at buf.old buf.new result }
{
    let mid = write_window(line, place, at, buf);
    let i = offset(at, mid, buf.len());
    let end = text::write_byte(b'\n', mid, &mut buf[i..]);
    let j = offset(at, end, buf.len());
    let from = shown_from(line.len(), place);
    write_caret(place - from, end, &mut buf[j..])
}

// The lines of a text that is refused: the refusal, the text, and the caret under the byte.
fn write_refused_text(line: &[u8], number: u8, place: usize, buf: &mut [u8]) -> usize
    ensures { Wrote (refused_line number place ++ pointed line.now place) 0 buf.old buf.new result }
{
    let said = write_refused(number, place, 0, buf);
    let i = offset(0, said, buf.len());
    write_pointed(line, place, said, &mut buf[i..])
}

// What walk writes for the bytes of a file with a typed layout and of the file `order`.
pub fn write_typed_report(file: &[u8], order: &[u8], buf: &mut [u8]) -> usize
    ensures { Wrote (typed_report file.now order.now) 0 buf.old buf.new result }
{
    let line = line_of(file);
    let r = parser::read(table::bare(), line);
    match r.verdict {
        Ok(()) => write_run(r.cell, order, buf),
        Err(r) => write_refused_text(line, r.number, r.offset, buf),
    }
}
