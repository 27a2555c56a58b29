// The calls of a card: the cell and the register window are lent, and a command changes both where they lie.
ghost use Rattle.std.specs.Prelude.{◌≡◌};
ghost use Rattle.window.specs.Window.{command_of, clear_of};

use crate::exports::keeper_step;
use resting::at_rest;
use table::Cell;
use window::{Window, clear, noted, with_line};

// A lent cell after a command, and the window.
fn commanded(cell: &mut Cell, w: Window) -> Window
    ensures { (cell.new ≡ (command_of cell.old w).cell) × (result ≡ (command_of cell.old w).window) }
{
    if w.command == 1 {
        let number = keeper_step(cell, w.agent, w.wish);
        let rest = at_rest(cell);
        return noted(w, number, rest);
    }
    with_line(w)
}

// One command: the step of the agent in the window, with its wish, where it is 1. What is the card's is read once and not written.
pub fn keeper_command(cell: &mut Cell, window: &mut Window)
    ensures { (cell.new ≡ (command_of cell.old window.old).cell)
        × (window.new ≡ (command_of cell.old window.old).window) }
{
    let w = commanded(cell, *window);
    window.answer = w.answer;
    window.woken = w.woken;
    window.flags = w.flags;
    window.line = w.line;
}

// Ones written to the flags clear those bits. Nothing else but the line is written.
pub fn keeper_clear(window: &mut Window, ones: u8)
    ensures { window.new ≡ clear_of window.old ones }
{
    let v = clear(*window, ones);
    window.flags = v.flags;
    window.line = v.line;
}
