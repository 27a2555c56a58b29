// The register window of a card: eight bytes, and what a command and a clear make of them.

#![tactic(auto)]

mod flags;

ghost use Rattle.std.specs.Prelude.{◌≡◌};
ghost use Rattle.window.specs.Window.{lined, command_of, clear_of};
ghost use Rattle.window.specs.Noted.{did_of, refused_of, noted_of};

use flags::{REFUSED, REST, WOKE, line_of, with_flag, without};
use table::Cell;

// "Eight bytes: command, agent, wish, answer, woken, flags, mask, line".
#[repr(C)]
#[derive(Clone, Copy)]
pub struct Window {
    pub command: u8,
    pub agent: u8,
    pub wish: u8,
    pub answer: u8,
    pub woken: u8,
    pub flags: u8,
    pub mask: u8,
    pub line: u8,
}

// A cell and a window after a command.
#[derive(Clone, Copy)]
pub struct Commanded {
    pub cell: Cell,
    pub window: Window,
}

// The command that is a step.
const STEP: u8 = 1;

// The window, its line as its flags and its mask say: what a command other than 1 makes of it.
pub fn with_line(w: Window) -> Window
    ensures { result ≡ lined w }
{
    Window {
        line: line_of(w.flags, w.mask),
        ..w
    }
}

// The window after a step that was made, told its word by its number; rest: all agents are asleep or done after it.
fn did(w: Window, word: u8, woken: u8, rest: bool) -> Window
    ensures { result ≡ did_of w word woken rest }
{
    let flags = with_flag(w.flags, WOKE, woken > 0);
    with_line(Window {
        answer: word,
        woken,
        flags: with_flag(flags, REST, rest),
        ..w
    })
}

// The window after a step that was refused with this number.
fn refused(w: Window, number: u8) -> Window
    ensures { result ≡ refused_of w number }
{
    with_line(Window {
        answer: 128 + number % 128,
        woken: 0,
        flags: with_flag(w.flags, REFUSED, true),
        ..w
    })
}

// The window after a step, told the number of its answer; rest: all agents are asleep or done after it.
pub fn noted(w: Window, number: u64, rest: bool) -> Window
    ensures { result ≡ noted_of w number rest }
{
    let [low, word, woken, ..] = number.to_le_bytes();
    if low == 0 {
        did(w, word, woken, rest)
    } else {
        refused(w, low)
    }
}

// One command: 1 is a step, any other does nothing but to set the line.
pub fn command(c: Cell, w: Window) -> Commanded
    ensures { result ≡ command_of c w }
{
    if w.command != STEP {
        return Commanded {
            cell: c,
            window: with_line(w),
        };
    }
    let s = step::step(c, w.agent, w.wish);
    let number = numbers::step_number(s.answer);
    let rest = table::is_idle(s.cell);
    Commanded {
        cell: s.cell,
        window: noted(w, number, rest),
    }
}

// Ones written to the flags clear those bits.
pub fn clear(w: Window, ones: u8) -> Window
    ensures { result ≡ clear_of w ones }
{
    with_line(Window {
        flags: without(w.flags, ones),
        ..w
    })
}
