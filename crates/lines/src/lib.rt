// The lines that walk writes.

#![tactic(auto)]

ghost use Rattle.std.specs.Prelude.{◌≡◌, [], ◌∷◌, ◌++◌};
ghost use Rattle.text.specs.Wrote.{Wrote, Placed};
ghost use Rattle.meaning.specs.Text.{ascii, decimal};
ghost use Rattle.meaning.specs.Report.{word_text, step_line, refused_line};

use meaning::{Answer, Word};
use text::{offset, write_byte, write_bytes, write_number};

// What stands before the number of a refusal.
const REFUSED: &[u8] = b"refused ";

// The word of an answer, and a blank.
#[tactic(auto, unfolding(table::specs::Base::tab, meaning::specs::Report::word_text))]
fn word_text(word: Word) -> &'static [u8]
    ensures { result.now ≡ word_text word ++ ascii " " }
{
    match word {
        Word::Looked => b"looked ",
        Word::Took => b"took ",
        Word::Held => b"held ",
        Word::Back => b"back ",
        Word::Slept => b"slept ",
        Word::Left => b"left ",
        Word::Came => b"came ",
        Word::Opened => b"opened ",
        Word::Put => b"put ",
        Word::Asleep => b"asleep ",
        Word::Done => b"done ",
    }
}

// A number in decimal, and a byte after it.
fn write_ended(n: u64, end: u8, at: usize, buf: &mut [u8]) -> usize
    requires { Placed at buf.old }
    ensures { Wrote (decimal n ++ (end ∷ [])) at buf.old buf.new result }
{
    let mid = write_number(n, at, buf);
    let i = offset(at, mid, buf.len());
    write_byte(end, mid, &mut buf[i..])
}

// A word with its blank, a number, and a byte after it.
fn write_told(word: &[u8], n: u64, end: u8, at: usize, buf: &mut [u8]) -> usize
    requires { Placed at buf.old }
    ensures { Wrote (word.now ++ (decimal n ++ (end ∷ []))) at buf.old buf.new result }
{
    let mid = write_bytes(word, at, buf);
    let i = offset(at, mid, buf.len());
    write_ended(n, end, mid, &mut buf[i..])
}

// The line of a step call: agent, word, number woken; or agent, `refused`, number.
pub fn write_step(agent: u8, answer: Answer, at: usize, buf: &mut [u8]) -> usize
    ensures { Wrote (step_line agent answer) at buf.old buf.new result }
{
    let (word, number) = match answer {
        Ok(o) => (word_text(o.word), o.woken),
        Err(number) => (REFUSED, number),
    };
    let named = write_ended(agent as u64, b' ', 0, buf);
    let i = offset(0, named, buf.len());
    let told = write_told(word, number as u64, b'\n', named, &mut buf[i..]);
    text::plus(at, told)
}

// The one line of a refused file: `refused`, number, offset.
pub fn write_refused(number: u8, place: usize, at: usize, buf: &mut [u8]) -> usize
    ensures { Wrote (refused_line number place) at buf.old buf.new result }
{
    let said = write_told(REFUSED, number as u64, b' ', 0, buf);
    let i = offset(0, said, buf.len());
    let n = write_ended(place as u64, b'\n', said, &mut buf[i..]);
    text::plus(at, n)
}
